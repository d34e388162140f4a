ghost use Rattle.std.specs.Prelude.{◌≡◌, ◌<◌, ◌≤◌, ◌+◌, ◌∷◌, ◌++◌, [], ℕ, Option, IfOk, OnOk, Some, None, length, map, slice_get, vec_capacity};
ghost use Rattle.task_queue.specs.Seats.{Each, AreWindows, seat_number, numbers_below};
ghost use Rattle.task_queue.specs.Passes.{IsNewPass};
ghost use Rattle.task_queue.specs.Inner.Making.{IsNewSeat, HaveOpened, AreNone};

use crate::Numbered;
use crate::lane::{Thief, Window, open};
use crate::queue::{TaskPass, TaskQueue};
use crate::seat::Seat;
use std::alloc::{AllocError, Global};

/// A queue of a run with a deque for each worker, and a pass that owns them all. Each deque has room for `count` tasks and `turns` more.
///
/// It takes all the memory that the queue needs.
pub fn make<N: Copy + Drop, T: Numbered<N>>(
    alloc: Global,
    run: N,
    count: u32,
    workers: u32,
    turns: u32,
) -> Result<(TaskQueue<N, T>, TaskPass<N, T>), AllocError>
    requires { (1 ≤ workers) × (workers < 1024) }
    ensures { IfOk result (λ made. IsNewPass made.0 (Some run) workers (count + turns) made.1) }
{
    let mut windows = Vec::new(alloc);
    let first = open_seat(alloc, run, count, turns, 0, workers, &mut windows)?;
    let more = open_others(alloc, run, count, turns, workers, &mut windows)?;
    Ok((TaskQueue { windows }, TaskPass { first, more }))
}

/// So many new deques but for the first one, at their owners' ends; where others steal from them comes to the list.
fn open_others<N: Copy + Drop, T: Numbered<N>>(
    alloc: Global,
    run: N,
    count: u32,
    turns: u32,
    workers: u32,
    windows: &mut Vec<Window<N, T>>,
) -> Result<Vec<Seat<N, T>>, AllocError>
    requires workers { 1 ≤ workers }
    requires windows { (length windows.old.items ≡ 1) × AreWindows windows.old.items }
    ensures seats { IfOk result (λ more. Each (IsNewSeat run (count + turns) workers windows.new.items) more.items
        × (0 ∷ map seat_number more.items ≡ numbers_below workers) × (workers ≤ vec_capacity more)) }
    ensures windows { OnOk result (HaveOpened workers windows.old.items windows.new.items) }
{
    let mut more = Vec::with_capacity(alloc, workers as usize)?;
    for number in 1..workers {
        let seat = open_seat(alloc, run, count, turns, number, workers, windows)?;
        more.push(seat)?;
    }
    Ok(more)
}

/// A new deque with this number, at its owner's end; where others steal from it comes to the list.
fn open_seat<N: Copy + Drop, T: Numbered<N>>(
    alloc: Global,
    run: N,
    count: u32,
    turns: u32,
    number: u32,
    workers: u32,
    windows: &mut Vec<Window<N, T>>,
) -> Result<Seat<N, T>, AllocError>
    requires { (length windows.old.items ≡ number) × AreWindows windows.old.items }
    ensures seat { IfOk result (λ seat. IsNewSeat run (count + turns) workers windows.new.items seat × (seat.number ≡ number)) }
    ensures windows { OnOk result (HaveOpened (number + 1) windows.old.items windows.new.items) }
{
    let (lane, window) = open(alloc, run, count, turns)?;
    windows.push(window)?;
    let rights = no_rights(alloc, workers)?;
    Ok(Seat {
        number,
        lane,
        rights,
    })
}

/// Places for so many rights, all empty.
fn no_rights<N: Drop, T: Numbered<N>>(
    alloc: Global,
    count: u32,
) -> Result<Vec<Option<Thief<N, T>>>, AllocError>
    ensures { IfOk result (λ rights. AreNone count rights.items) }
{
    let mut rights = Vec::new(alloc);
    for _ in 0..count {
        rights.push(None)?;
    }
    Ok(rights)
}
