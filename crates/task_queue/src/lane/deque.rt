ghost use Rattle.std.specs.Prelude.{◌≡◌, ◌<◌, ◌≤◌, ◌+◌, ◌++◌, ◌∷◌, [], suc, IfOk, MatchOption, Some};
ghost use Rattle.task_queue.specs.Lane.Rule.{opened, keeping, giving, both};
ghost use Rattle.task_queue.specs.Lane.Steps.{IsExhausted};
ghost use Rattle.task_queue.specs.Lane.Handles.{IsLane, IsThiefOf, lane_knows, lane_deque, lane_puts, lane_room, thief_knows, window_deque, IsSameLane, IsWindow};

use crate::Numbered;
use crate::lane::item::Item;
use crate::lane::tally::{LaneRule, Lends, Opened, Opens, Puts, Takes, Tally};
use crossbeam_deque::{Pass, Steal, Stealer, Worker};
use std::alloc::{AllocError, Global};
use std::sync::Wait;

/// The end of a deque at which its worker puts and takes tasks.
#[derive(Drop)]
pub struct Lane<N: Drop, T: Numbered<N>> {
    worker: Worker<Item<N, T>, Global, Tally<N>, LaneRule>,
}

/// Where other workers steal from a deque.
#[derive(Drop)]
pub struct Window<N: Drop, T: Numbered<N>> {
    stealer: Stealer<Item<N, T>, Global, Tally<N>, LaneRule>,
}

/// The right to steal from a deque. It has no bytes.
#[derive(Drop)]
pub struct Thief<N: Drop, T: Numbered<N>> {
    pass: Pass<Item<N, T>, Tally<N>>,
}

/// A deque of a run, with room for so many puts, and so many more.
///
/// It takes all the memory that these puts need.
pub fn open<N: Drop, T: Numbered<N>>(
    alloc: Global,
    run: N,
    count: u32,
    more: u32,
) -> Result<(Lane<N, T>, Window<N, T>), AllocError>
    ensures { IfOk result (λ made. IsLane made.0 × IsWindow made.1 × (window_deque made.1 ≡ lane_deque made.0) × (lane_knows made.0 ≡ opened run)
        × (lane_puts made.0 + (count + more) ≤ lane_room made.0)) }
{
    let mut worker = Worker::fifo_as(alloc, count as usize + more as usize + 1)?;
    match worker.push_as::<Opens>(Item::Run(run)) {
        Ok(()) => {}
        Err(_) => unreachable!(),
    }
    match worker.pop_as::<Opened>() {
        Some(_) => {}
        None => unreachable!(),
    }
    let stealer = worker.stealer()?;
    Ok((Lane { worker }, Window { stealer }))
}

impl<N: Drop, T: Numbered<N>> Lane<N, T> {
    /// A task is put at the end of the deque.
    pub fn put(&mut self, task: T)
        requires lane { IsLane self.old }
        requires room { lane_puts self.old < lane_room self.old }
        requires run { (lane_knows self.old).run ≡ Some (T.run_of task) }
        requires fact { T.fact task }
        ensures lane { IsLane self.new × IsSameLane self.old self.new × (lane_puts self.new ≡ suc (lane_puts self.old)) }
        ensures put { lane_knows self.new ≡ record (lane_knows self.old) { put = (lane_knows self.old).put ++ T.number_of task ∷ [] } }
    {
        match self.worker.push_as::<Puts>(Item::Task(task)) {
            Ok(()) => {}
            Err(_) => unreachable!(),
        }
    }

    /// The first task of the deque, unless the deque was empty at a moment.
    pub fn take(&mut self) -> Option<T>
        requires { IsLane self.old }
        ensures lane { IsLane self.new × IsSameLane self.old self.new × (lane_puts self.new ≤ lane_puts self.old) }
        ensures taken { MatchOption result
            ((lane_knows self.new ≡ lane_knows self.old) × IsExhausted (lane_knows self.old))
            (λ task. (lane_knows self.new ≡ record (lane_knows self.old) { taken = (lane_knows self.old).taken ++ T.number_of task ∷ [] })
            × ((lane_knows self.old).run ≡ Some (T.run_of task)) × T.fact task) }
    {
        match self.worker.pop_as::<Takes>() {
            Some(item) => Some(item.into_task()),
            None => None,
        }
    }

    /// A right to steal from the deque.
    pub fn lend(&mut self) -> Thief<N, T>
        requires lane { IsLane self.old }
        requires parts { 1 < (lane_knows self.old).parts }
        ensures lane { IsLane self.new × IsSameLane self.old self.new × (lane_puts self.new ≡ lane_puts self.old) × (lane_knows self.new ≡ keeping (lane_knows self.old)) }
        ensures thief { IsThiefOf (lane_deque self.old) result × (thief_knows result ≡ giving (lane_knows self.old)) }
    {
        Thief {
            pass: self.worker.another::<Lends>(),
        }
    }

    /// A right to steal comes back, with what was stolen by it.
    pub fn take_back(&mut self, thief: Thief<N, T>)
        requires lane { IsLane self.old }
        requires thief { IsThiefOf (lane_deque self.old) thief }
        ensures lane { IsLane self.new × IsSameLane self.old self.new × (lane_puts self.new ≡ lane_puts self.old) }
        ensures back { lane_knows self.new ≡ both (lane_knows self.old) (thief_knows thief) }
    {
        let Thief { pass } = thief;
        self.worker.absorb::<Lends>(pass);
    }
}

impl<N: Drop, T: Numbered<N>> Window<N, T> {
    /// The first task of the deque, unless the deque was empty at a moment. A lost race is tried again.
    pub fn steal<R: Wait>(&self, rt: &R, thief: &mut Thief<N, T>) -> Option<T>
        requires { IsWindow self.now × IsThiefOf (window_deque self.now) thief.old }
        ensures thief { IsThiefOf (window_deque self.now) thief.new }
        ensures stolen { MatchOption result
            ((thief_knows thief.new ≡ thief_knows thief.old) × IsExhausted (thief_knows thief.old))
            (λ task. (thief_knows thief.new ≡ record (thief_knows thief.old) { taken = (thief_knows thief.old).taken ++ T.number_of task ∷ [] })
            × ((thief_knows thief.old).run ≡ Some (T.run_of task)) × T.fact task) }
    {
        for _ in rt.forever() {
            match self.stealer.steal_as::<Takes>(&mut thief.pass) {
                Steal::Success(item) => return Some(item.into_task()),
                Steal::Empty => return None,
                Steal::Retry => {}
            }
        }
        unreachable!()
    }
}
