//! The rule of a deque, as the deque takes it.

use crate::Numbered;
use crate::lane::item::Item;
use crossbeam_deque::protocol::{Join, Outcome, Protocol, Split};
use std::collections::LinkedList;

// What a pass of a deque knows: its parts of the right to know all, whether the deque holds of which run it is, that run, and
// the numbers that it put there and that it took from there. No value of it is made.
pub struct Tally<N> {
    pub parts: u64,
    pub opens: bool,
    pub run: Option<N>,
    pub put: LinkedList<u32>,
    pub taken: LinkedList<u32>,
}

pub struct LaneRule;

impl<N, T: Numbered<N>> Protocol<Item<N, T>, Tally<N>> for LaneRule {
    ghost use Rattle.task_queue.specs.Lane.Rule.{IsDeque, unused, spent};

    ghost holds = { IsDeque T.number_of T.run_of T.fact };

    ghost first = { unused };

    ghost guest = { spent };
}

// Of which run the deque is is put into it, when it is new.
pub struct Opens;

impl<N, T: Numbered<N>> Outcome<Item<N, T>, Tally<N>> for Opens {
    ghost use Rattle.task_queue.specs.Lane.Steps.{OpensBy};

    ghost then = { OpensBy };
}

// And taken out again.
pub struct Opened;

impl<N, T: Numbered<N>> Outcome<Item<N, T>, Tally<N>> for Opened {
    ghost use Rattle.std.specs.Prelude.{◌≡◌, false};

    ghost then = { λ v xs w. w ≡ record v { opens = false } };

    ghost empty = { λ v. ⊥ };
}

// A task is put at the end.
pub struct Puts;

impl<N, T: Numbered<N>> Outcome<Item<N, T>, Tally<N>> for Puts {
    ghost use Rattle.task_queue.specs.Lane.Steps.{PutsBy};

    ghost then = { PutsBy T.number_of };
}

// A task is taken at the front, or there is none.
pub struct Takes;

impl<N, T: Numbered<N>> Outcome<Item<N, T>, Tally<N>> for Takes {
    ghost use Rattle.task_queue.specs.Lane.Steps.{TakesBy, IsExhausted};

    ghost then = { TakesBy T.number_of T.run_of T.fact };

    ghost empty = { λ v. IsExhausted v };
}

// A right to steal is given to another thread, and comes back.
pub struct Lends;

impl<N> Split<Tally<N>> for Lends {
    ghost use Rattle.task_queue.specs.Lane.Rule.{keeping, giving};

    ghost left = { keeping };

    ghost right = { giving };
}

impl<N> Join<Tally<N>> for Lends {
    ghost use Rattle.task_queue.specs.Lane.Rule as rule;

    ghost both = { rule.both };

    ghost spent = { rule.spent };
}
