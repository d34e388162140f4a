ghost use Rattle.std.specs.Prelude.{◌≡◌, List, vec_capacity};
ghost use Rattle.task_queue.specs.declared.lane.deque.Window.{Window};
ghost use Rattle.task_queue.specs.Seats.{Each};
ghost use Rattle.task_queue.specs.Inner.Looks.{IsAnyLane, KeepSeats, IsTakenAmong};

use crate::Numbered;
use crate::lane::{Lane, Thief};

/// A deque at its owner's end, with the rights to steal from the deques of other passes, each at the deque's number.
#[derive(Drop)]
pub(crate) struct Seat<N: Drop, T: Numbered<N>> {
    pub(crate) number: u32,
    pub(crate) lane: Lane<N, T>,
    pub(crate) rights: Vec<Option<Thief<N, T>>>,
}

/// The first task of the first of these deques that has one.
pub(crate) fn take_among<N: Drop, T: Numbered<N>>(seats: &mut Vec<Seat<N, T>>) -> Option<T>
    requires { Each IsAnyLane seats.old.items }
    ensures keep { (windows : List (Window _ _)) → KeepSeats windows seats.old.items seats.new.items }
    ensures capacity { vec_capacity seats.new ≡ vec_capacity seats.old }
    ensures taken { IsTakenAmong T.number_of T.run_of T.fact seats.old.items seats.new.items result }
{
    for k in 0..seats.len() {
        if let Some(task) = seats[k].lane.take() {
            return Some(task);
        }
    }
    None
}
