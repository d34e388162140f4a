ghost use Rattle.std.specs.Prelude.{◌≡◌, ◌≤◌, ◌+◌, ◌||◌, [], ℕ, OnOk, length};
ghost use Rattle.task_queue.specs.Seats.{AreApart};
ghost use Rattle.task_queue.specs.Passes.{IsTaskPass, IsDealt, owned, places};
ghost use Rattle.task_queue.specs.Round.Inner.Shares.{IsShare, IsBalanced, HasRoomFor, TakesIn};

use crate::round::steps::Steps;
use crate::{TaskPass, TaskQueue};
use std::alloc::AllocError;

/// What a worker has in a round: its pass, the tasks that made no event in their last turn, and whether any task made one.
#[derive(Drop)]
pub(crate) struct Share<N: Drop, T: Steps<N>> {
    pub(crate) pass: TaskPass<N, T>,
    pub(crate) parked: Vec<T>,
    pub(crate) moved: bool,
}

impl<N: Drop, T: Steps<N>> Share<N, T> {
    /// The parked tasks go back into the worker's deque.
    pub(crate) fn unpark(&mut self, queue: &TaskQueue<N, T>)
        requires share { IsShare T.number_of T.run_of T.fact queue.now self.old }
        requires room { HasRoomFor 0 self.old }
        ensures share { IsShare T.number_of T.run_of T.fact queue.now self.new × IsBalanced T.number_of self.old self.new }
        ensures room { (n : ℕ) → HasRoomFor n self.old → HasRoomFor n self.new }
        ensures none { (self.new.parked.items ≡ []) × (self.new.moved ≡ self.old.moved) }
    {
        while let Some(task) = self.parked.pop() {
            queue.put(&mut self.pass, task);
        }
    }

    /// What another worker brings back comes to it.
    pub(crate) fn take_in(
        &mut self,
        queue: &TaskQueue<N, T>,
        other: Share<N, T>,
    ) -> Result<(), AllocError>
        requires pass { IsTaskPass queue.now self.old.pass × IsDealt self.old.pass }
        requires other { IsTaskPass queue.now other.pass × IsDealt other.pass }
        requires apart { AreApart (owned self.old.pass) (owned other.pass) }
        requires reserve { length (owned self.old.pass) + length (owned other.pass) ≤ places self.old.pass }
        ensures { OnOk result (TakesIn queue.now self.old other self.new) }
    {
        let Share {
            pass,
            mut parked,
            moved,
        } = other;
        queue.join(&mut self.pass, pass);
        self.parked.append(&mut parked)?;
        let moved = either(self.moved, moved);
        self.moved = moved;
        Ok(())
    }
}

/// Whether any of two has moved.
fn either(first: bool, second: bool) -> bool
    ensures { result ≡ first || second }
{
    first || second
}
