//! How two passes share the rights to steal: where one becomes two, each of both gets a right on each deque of the other, and where two
//! become one, these go back.
ghost use Rattle.std.specs.Prelude.{◌≡◌, ◌<◌, ℕ, true, false, Some, length, slice_get, vec_capacity};
ghost use Rattle.task_queue.specs.declared.lane.deque.Thief.{Thief};
ghost use Rattle.task_queue.specs.Lane.Handles.{IsLane, IsThiefOf, lane_knows, lane_deque};
ghost use Rattle.task_queue.specs.Inner.Exchange.{Lends, TakesBack, MayExchange, IsExchange, MayExchangeAll, AreExchanged, gets, gives};

use crate::Numbered;
use crate::seat::Seat;

/// These seats and one more come to two passes.
pub(crate) fn part_all<N: Drop, T: Numbered<N>>(seats: &mut Vec<Seat<N, T>>, seat: &mut Seat<N, T>)
    requires { MayExchangeAll true seats.old.items seat.old }
    ensures exchanged { AreExchanged gets seats.old.items seat.old seats.new.items seat.new }
    ensures capacity { vec_capacity seats.new ≡ vec_capacity seats.old }
{
    for k in 0..seats.len() {
        part(&mut seats[k], seat);
    }
}

/// These seats and one of another pass come to one pass.
pub(crate) fn unite_all<N: Drop, T: Numbered<N>>(seats: &mut Vec<Seat<N, T>>, seat: &mut Seat<N, T>)
    requires { MayExchangeAll false seats.old.items seat.old }
    ensures exchanged { AreExchanged gives seats.old.items seat.old seats.new.items seat.new }
    ensures capacity { vec_capacity seats.new ≡ vec_capacity seats.old }
{
    for k in 0..seats.len() {
        unite(&mut seats[k], seat);
    }
}

/// Each of two seats gets a right to steal from the other.
pub(crate) fn part<N: Drop, T: Numbered<N>>(a: &mut Seat<N, T>, b: &mut Seat<N, T>)
    requires { MayExchange true a.old b.old }
    ensures { IsExchange gets a.old b.old a.new b.new }
{
    lend(a, b);
    lend(b, a);
}

/// Each of two seats gives back its right to steal from the other.
pub(crate) fn unite<N: Drop, T: Numbered<N>>(a: &mut Seat<N, T>, b: &mut Seat<N, T>)
    requires { MayExchange false a.old b.old }
    ensures { IsExchange gives a.old b.old a.new b.new }
{
    give_back(a, b);
    give_back(b, a);
}

/// A right on a seat's deque is lent to another one.
fn lend<N: Drop, T: Numbered<N>>(owner: &mut Seat<N, T>, thief: &mut Seat<N, T>)
    requires lane { IsLane owner.old.lane × (1 < (lane_knows owner.old.lane).parts) }
    requires within { owner.old.number < length thief.old.rights.items }
    ensures { Lends owner.old owner.new thief.old thief.new }
{
    thief.rights[owner.number as usize] = Some(owner.lane.lend());
}

/// A right on a seat's deque comes back from another one.
fn give_back<N: Drop, T: Numbered<N>>(owner: &mut Seat<N, T>, thief: &mut Seat<N, T>)
    requires lane { IsLane owner.old.lane }
    requires right { (right : Thief _ _) × (slice_get thief.old.rights.items owner.old.number ≡ Some (Some right)) × IsThiefOf (lane_deque owner.old.lane) right }
    ensures { TakesBack owner.old owner.new thief.old thief.new }
{
    match thief.rights[owner.number as usize].take() {
        Some(right) => owner.lane.take_back(right),
        None => unreachable!(),
    }
}
