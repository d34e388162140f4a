ghost use Rattle.std.specs.Prelude.{◌≡◌, ◌<◌, ◌≤◌, ◌+◌, ◌^◌, ℕ, List, Option, false, IfOk, OnOk, Some, length, slice_get};
ghost use Rattle.task_queue.specs.declared.queue.TaskPass.{TaskPass};
ghost use Rattle.task_queue.specs.Seats.{numbers_below};
ghost use Rattle.task_queue.specs.Passes.{IsTaskPass, IsNewPass, IsDealt, OwnsAll, KnowsRun, HasRoom, HasRoomOn, AreTasks, owned, places, put_by, taken_by, sum_numbers};
ghost use Rattle.task_queue.specs.Round.Tasks.{AllWait};
ghost use Rattle.task_queue.specs.Round.Inner.Shares.{MayWork, IsShareOf};
ghost use Rattle.task_queue.specs.Round.Inner.Jobs.{AreJobs, HasPut, AreSharesOf, CanGather, IsGathered};

use crate::round::pulse::Pulse;
use crate::round::share::Share;
use crate::round::steps::Steps;
use crate::round::worker::{TURNS, work};
use crate::{TaskPass, TaskQueue, make};
use std::alloc::{AllocError, Global};
use std::sync::Wait;
use std::thread;
use std::thread::Threads;
use xb_io::Gate;

/// The tasks behind a round, and whether any of them has made an event in it.
#[derive(Drop)]
pub struct RoundEnd<T> {
    pub tasks: Vec<T>,
    pub moved: bool,
}

/// One round: each worker takes tasks from a queue that is made for it until its turns are used up, and then all tasks come back. If no
/// task has moved, each of them waits, as far as it knows.
///
/// Each worker has a thread of its own, but one worker alone takes none.
pub fn round<
    N: Copy + Drop + Send + Sync,
    T: Steps<N> + Send,
    R: Threads + Wait + Sync,
    G: Gate + Sync,
>(
    rt: &R,
    alloc: Global,
    run: N,
    tasks: Vec<T>,
    workers: u32,
    gate: &G,
) -> Result<RoundEnd<T>, AllocError>
    requires tasks { AreTasks T.run_of T.fact (Some run) tasks.items × (length tasks.items < 2 ^ 32) }
    requires workers { (1 ≤ workers) × (workers ≤ 16) }
    ensures tasks { IfOk result (λ over. AreTasks T.run_of T.fact (Some run) over.tasks.items) }
    ensures all { IfOk result (λ over. (h : ℕ → ℕ) → sum_numbers T.number_of h over.tasks.items ≡ sum_numbers T.number_of h tasks.items) }
    ensures waits { IfOk result (λ over. over.moved ≡ false → AllWait T.waits over.tasks.items) }
{
    let (made, pass) = make(alloc, run, tasks.len() as u32, workers, TURNS)?;
    let queue = &made;
    let jobs = deal(alloc, queue, pass, tasks, workers)?;
    let shares = work_all(rt, alloc, queue, jobs, gate)?;
    let share = gather(queue, shares)?;
    let Share {
        mut pass,
        parked: mut tasks,
        moved,
    } = share;
    let rest = drain(rt, alloc, queue, &mut pass)?;
    let moved = try_all(rt, alloc, rest, &mut tasks, moved)?;
    Ok(RoundEnd { tasks, moved })
}

/// Each worker's part of a round.
fn work_all<N: Drop + Send + Sync, T: Steps<N> + Send, R: Threads + Wait + Sync, G: Gate + Sync>(
    rt: &R,
    alloc: Global,
    queue: &TaskQueue<N, T>,
    jobs: Vec<TaskPass<N, T>>,
    gate: &G,
) -> Result<Vec<Result<Share<N, T>, AllocError>>, AllocError>
    requires { (k : ℕ) (job : TaskPass _ _) → slice_get jobs.items k ≡ Some job → MayWork queue.now job }
    ensures { IfOk result (λ shares. AreSharesOf T.number_of T.run_of T.fact T.waits queue.now jobs.items shares.items) }
{
    let pulse = Pulse::new();
    let shares = thread::map_vec(
        rt,
        jobs,
        &|pass: TaskPass<N, T>| -> Result<Share<N, T>, AllocError>
            requires { MayWork queue.now pass }
            ensures { IfOk result (λ share. IsShareOf T.number_of T.run_of T.fact T.waits queue.entry.now pass share) }
        { work(rt, alloc, queue, pass, &pulse, gate) },
    )?;
    Ok(shares)
}

/// A pass for each worker, the last one first. All tasks are put on the deque of the first one.
fn deal<N: Drop, T: Steps<N>>(
    alloc: Global,
    queue: &TaskQueue<N, T>,
    mut pass: TaskPass<N, T>,
    tasks: Vec<T>,
    workers: u32,
) -> Result<Vec<TaskPass<N, T>>, AllocError>
    requires pass { (runtime : Option N) × IsNewPass queue.now runtime workers (length tasks.items + 1024) pass × AreTasks T.run_of T.fact runtime tasks.items }
    requires workers { 1 ≤ workers }
    ensures { IfOk result (λ jobs. (runtime : Option N) → IsNewPass queue.now runtime workers (length tasks.items + 1024) pass
        → (put : TaskPass _ _) × HasPut T.number_of queue.now tasks.items pass put × AreJobs queue.now runtime 1024 workers put jobs.items) }
{
    put_all(queue, &mut pass, tasks);
    split_all(alloc, queue, pass, workers)
}

/// A pass for each worker, the last one first.
fn split_all<N: Drop, T: Steps<N>>(
    alloc: Global,
    queue: &TaskQueue<N, T>,
    mut pass: TaskPass<N, T>,
    workers: u32,
) -> Result<Vec<TaskPass<N, T>>, AllocError>
    requires pass { IsTaskPass queue.now pass × IsDealt pass × (owned pass ≡ numbers_below workers) × (workers ≤ places pass) }
    requires room { (d : ℕ) → HasRoomOn d 1024 pass }
    requires workers { 1 ≤ workers }
    ensures { IfOk result (λ jobs. (runtime : Option N) → KnowsRun runtime pass → AreJobs queue.now runtime 1024 workers pass jobs.items) }
{
    let mut jobs = Vec::new(alloc);
    for _ in 1..workers {
        let job = queue.split(alloc, &mut pass);
        jobs.push(job)?;
    }
    jobs.push(pass)?;
    Ok(jobs)
}

/// All tasks are put on the deque of a pass.
fn put_all<N: Drop, T: Steps<N>>(
    queue: &TaskQueue<N, T>,
    pass: &mut TaskPass<N, T>,
    mut tasks: Vec<T>,
)
    requires pass { IsTaskPass queue.now pass.old }
    requires room { HasRoom (length tasks.items) pass.old }
    requires run { (runtime : Option N) × KnowsRun runtime pass.old × AreTasks T.run_of T.fact runtime tasks.items }
    ensures { HasPut T.number_of queue.now tasks.items pass.old pass.new }
{
    while let Some(task) = tasks.pop() {
        queue.put(pass, task);
    }
}

/// What the workers bring back comes together.
fn gather<N: Drop, T: Steps<N>>(
    queue: &TaskQueue<N, T>,
    mut shares: Vec<Result<Share<N, T>, AllocError>>,
) -> Result<Share<N, T>, AllocError>
    requires { (runtime : Option N) × (jobs : List (TaskPass _ _)) × (workers : ℕ) × CanGather T.number_of T.run_of T.fact T.waits queue.now runtime workers jobs shares.items }
    ensures { IfOk result (λ share. (runtime : Option N) (jobs : List (TaskPass _ _)) (workers : ℕ)
        → CanGather T.number_of T.run_of T.fact T.waits queue.now runtime workers jobs shares.items
        → IsGathered T.number_of T.run_of T.fact T.waits queue.now runtime (numbers_below workers) jobs share) }
{
    let first = match shares.pop() {
        Some(share) => share,
        None => unreachable!(),
    };
    let mut all = first?;
    while let Some(next) = shares.pop() {
        let share = next?;
        all.take_in(queue, share)?;
    }
    Ok(all)
}

/// The tasks that still lie in the deques, all of which the pass owns. So what was put on any of them was taken.
fn drain<N: Drop, T: Steps<N>, R: Wait>(
    rt: &R,
    alloc: Global,
    queue: &TaskQueue<N, T>,
    pass: &mut TaskPass<N, T>,
) -> Result<Vec<T>, AllocError>
    requires { IsTaskPass queue.now pass.old × OwnsAll queue.now pass.old × IsDealt pass.old }
    ensures all { IfOk result (λ tasks. (h : ℕ → ℕ) → put_by h pass.old ≡ taken_by h pass.old + sum_numbers T.number_of h tasks.items) }
    ensures tasks { IfOk result (λ tasks. (runtime : Option N) → KnowsRun runtime pass.old → AreTasks T.run_of T.fact runtime tasks.items) }
{
    let mut tasks = Vec::new(alloc);
    for _ in rt.forever() {
        match queue.take(rt, pass) {
            Some(task) => tasks.push(task)?,
            None => return Ok(tasks),
        }
    }
    unreachable!()
}

/// These tasks come to the others, and whether any task has moved. As long as none has, each of these is tried.
fn try_all<N, T: Steps<N>, R: Wait>(
    rt: &R,
    alloc: Global,
    mut rest: Vec<T>,
    tasks: &mut Vec<T>,
    mut moved: bool,
) -> Result<bool, AllocError>
    requires { (runtime : Option N) × AreTasks T.run_of T.fact runtime rest.items }
    ensures tasks { OnOk result ((runtime : Option N) → AreTasks T.run_of T.fact runtime rest.items → AreTasks T.run_of T.fact runtime tasks.old.items → AreTasks T.run_of T.fact runtime tasks.new.items) }
    ensures all { OnOk result ((h : ℕ → ℕ) → sum_numbers T.number_of h tasks.new.items ≡ sum_numbers T.number_of h tasks.old.items + sum_numbers T.number_of h rest.items) }
    ensures waits { IfOk result (λ now. now ≡ false → (moved ≡ false → AllWait T.waits tasks.old.items) → AllWait T.waits tasks.new.items) }
{
    while let Some(mut task) = rest.pop() {
        moved = has_moved(rt, alloc, &mut task, moved)?;
        tasks.push(task)?;
    }
    Ok(moved)
}

/// Whether a task has moved: if none has so far, this one is tried.
fn has_moved<N, T: Steps<N>, R: Wait>(
    rt: &R,
    alloc: Global,
    task: &mut T,
    moved: bool,
) -> Result<bool, AllocError>
    requires { T.fact task.old }
    ensures fact { T.fact task.new }
    ensures same { (T.number_of task.new ≡ T.number_of task.old) × (T.run_of task.new ≡ T.run_of task.old) }
    ensures waits { IfOk result (λ now. now ≡ false → (moved ≡ false) × T.waits task.new) }
{
    if moved {
        return Ok(true);
    }
    Ok(task.make_events(rt, alloc, 1)? > 0)
}
