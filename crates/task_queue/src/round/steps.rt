use crate::Numbered;
use std::alloc::{AllocError, Global};
use std::sync::Wait;

/// A task that moves on by events.
pub trait Steps<N>: Numbered<N> {
    ghost use Rattle.std.specs.Prelude.{◌≡◌, ◌≤◌, ◌<◌, ℕ, IfOk};

    /// So many events lie between two of its states.
    ghost moves: { Self → Self → ℕ → Type 0 };

    /// The next event can't be made, as far as the task knows.
    ghost waits: { Self → Type 0 };

    /// Makes events until `most` are made or the next one can't be, and says how many. Its number and run stay, and what holds
    /// of it holds again.
    fn make_events<R: Wait>(&mut self, rt: &R, alloc: Global, most: u32) -> Result<u32, AllocError>
        requires { Self.fact self.old }
        ensures fact { Self.fact self.new }
        ensures made { IfOk result (λ made. (made ≤ most) × moves self.old self.new made) }
        ensures fewer { IfOk result (λ made. made < most → waits self.new) }
        ensures same { (Self.number_of self.new ≡ Self.number_of self.old) × (Self.run_of self.new ≡ Self.run_of self.old) };
}
