/// A task of a run, with a number among the tasks of the run.
pub trait Numbered<N>: Drop {
    ghost use Rattle.std.specs.Prelude.{◌≡◌, ℕ};

    ghost number_of: { Self → ℕ };

    /// The run, for contracts alone.
    ghost run_of: { Self → N };

    /// What holds of each task that waits: who puts a task shows it, and who takes one knows it.
    ghost fact: { Self → Type 0 };

    fn number(&self) -> u32
        ensures { result ≡ number_of self.now };
}
