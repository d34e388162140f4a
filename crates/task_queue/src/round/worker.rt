ghost use Rattle.std.specs.Prelude.{◌≡◌, ◌+◌, ℕ, suc, IfOk, OnOk};
ghost use Rattle.task_queue.specs.Round.Inner.Shares.{MayWork, IsShare, IsStill, IsBalanced, HasRoomFor, IsShareOf};

use crate::round::pulse::Pulse;
use crate::round::share::Share;
use crate::round::steps::Steps;
use crate::{Numbered, TaskPass, TaskQueue};
use std::alloc::{AllocError, Global};
use std::sync::Wait;
use xb_io::Gate;

/// How many turns a worker has in a round, and how many events a task may make in one.
pub(crate) const TURNS: u32 = 1024;

const EVENTS: u32 = 64;

/// A worker's part of a round: in each turn it takes a task, which makes some events and goes back to the worker's deque, or is
/// parked if it made none. In a turn without a task the parked ones go back to the deque if a task has moved since they last
/// did, else the worker waits. It leaves where no task moves, or a worker has used up its turns.
pub(crate) fn work<N: Drop, T: Steps<N>, R: Wait, G: Gate>(
    rt: &R,
    alloc: Global,
    queue: &TaskQueue<N, T>,
    pass: TaskPass<N, T>,
    pulse: &Pulse,
    gate: &G,
) -> Result<Share<N, T>, AllocError>
    requires { MayWork queue.now pass }
    ensures { IfOk result (λ share. IsShareOf T.number_of T.run_of T.fact T.waits queue.now pass share) }
{
    let mut share = Share {
        pass,
        parked: Vec::new(alloc),
        moved: false,
    };
    let mut seen = 0;
    for _ in 0..TURNS {
        match turn(rt, alloc, queue, &mut share, pulse, gate, &mut seen) {
            Ok(true) => {}
            Ok(false) => return Ok(share),
            Err(error) => {
                pulse.stop();
                return Err(error);
            }
        }
    }
    pulse.stop();
    Ok(share)
}

/// One turn of a worker, and whether a further one is worth it.
fn turn<N: Drop, T: Steps<N>, R: Wait, G: Gate>(
    rt: &R,
    alloc: Global,
    queue: &TaskQueue<N, T>,
    share: &mut Share<N, T>,
    pulse: &Pulse,
    gate: &G,
    seen: &mut u32,
) -> Result<bool, AllocError>
    requires share { IsShare T.number_of T.run_of T.fact queue.now share.old }
    requires room { HasRoomFor 1 share.old }
    ensures share { OnOk result (IsShare T.number_of T.run_of T.fact queue.now share.new × IsBalanced T.number_of share.old share.new) }
    ensures room { OnOk result ((n : ℕ) → HasRoomFor (suc n) share.old → HasRoomFor n share.new) }
    ensures still { OnOk result (IsStill T.waits share.old → IsStill T.waits share.new) }
{
    match queue.take(rt, &mut share.pass) {
        None => Ok(wait(queue, share, pulse, seen)),
        Some(mut task) => {
            pulse.begin();
            gate.enter(share.pass.number(), task.number());
            let made = task.make_events(rt, alloc, EVENTS)?;
            if made > 0 {
                queue.put(&mut share.pass, task);
                share.moved = true;
                pulse.end(true);
                Ok(!pulse.is_over())
            } else {
                share.parked.push(task)?;
                pulse.end(false);
                Ok(!pulse.is_over())
            }
        }
    }
}

/// A turn without a task, and whether a further one is worth it.
fn wait<N: Drop, T: Steps<N>>(
    queue: &TaskQueue<N, T>,
    share: &mut Share<N, T>,
    pulse: &Pulse,
    seen: &mut u32,
) -> bool
    requires share { IsShare T.number_of T.run_of T.fact queue.now share.old }
    requires room { HasRoomFor 0 share.old }
    ensures share { IsShare T.number_of T.run_of T.fact queue.now share.new × IsBalanced T.number_of share.old share.new }
    ensures room { (n : ℕ) → HasRoomFor n share.old → HasRoomFor n share.new }
    ensures still { IsStill T.waits share.old → IsStill T.waits share.new }
{
    let moves = pulse.moves();
    let before = *seen;
    *seen = moves;
    if moves != before && !share.parked.is_empty() {
        share.unpark(queue);
        true
    } else {
        pulse.wait(moves)
    }
}
