//! What holds of row files, each the contract of a function that does nothing.

ghost use Rattle.std.specs.Prelude.{◌≡◌, ℕ, List, Result, Ok};
ghost use Rattle.std.specs.List.{AllByRecursion};
ghost use Rattle.vlog_tree.specs.declared.module.VModule.{VModule};
ghost use Rattle.vlog_tree.specs.WellFormed.{CanRun};
ghost use Rattle.vlog_tree.specs.Rows.{IsRowOf};
ghost use Rattle.cycle_sim.specs.declared.rows.refusal.RowError.{RowError};
ghost use Rattle.cycle_sim.specs.declared.rows.rows.Repeated.{Repeated};
ghost use Rattle.cycle_sim.specs.Rows.RowFile.{Reads};

/// A text says one thing of a module's rows: which they are, or one refusal.
pub fn one_reading()
    ensures { (m : VModule) (text : List ℕ) (a b : Result (List Repeated) RowError) → Reads m text a → Reads m text b → a ≡ b }
{}

/// The rows that a text says for a module without fault are the module's: one drive for each channel, by its direction, with
/// words of its width.
pub fn rows_fit()
    ensures { (m : VModule) (text : List ℕ) (rows : List Repeated) → CanRun m → Reads m text (Ok rows) → AllByRecursion (λ r. IsRowOf m r.row) rows }
{}
