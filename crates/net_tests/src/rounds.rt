ghost use Rattle.std.specs.Prelude.{◌≡◌, ◌≤◌, ◌+◌, ℕ, IfOk, Some, length};
ghost use Rattle.task_queue.specs.Tasks.{sum_below};
ghost use Rattle.task_queue.specs.Passes.{AreTasks, sum_numbers};

use std::alloc::{AllocError, Global};
use std::sync::Wait;
use std::sync::atomic::{AtomicBool, Ordering};
use std::test::Fail;
use std::thread;
use std::thread::Threads;
use task_queue::Numbered;
use task_queue::round::{RoundEnd, Steps, round};
use xb_io::{Gate, OpenGate};

/// A task that makes so many events more.
#[derive(Drop)]
struct Counter {
    number: u32,
    left: u32,
}

impl Numbered<u32> for Counter {
    ghost number_of = { λ task. task.number };

    ghost run_of = { λ task. 0 };

    ghost fact = { λ task. Unit {0} };

    fn number(&self) -> u32 {
        self.number
    }
}

impl Steps<u32> for Counter {
    ghost moves = { λ old new made. old.left ≡ new.left + made };

    ghost waits = { λ task. task.left ≡ 0 };

    fn make_events<R: Wait>(
        &mut self,
        _rt: &R,
        _alloc: Global,
        most: u32,
    ) -> Result<u32, AllocError> {
        let made = self.left.min(most);
        self.left -= made;
        Ok(made)
    }
}

/// A gate that holds the first task of each of two workers until the other one has entered.
#[derive(Drop)]
struct Meeting {
    first: AtomicBool,
    second: AtomicBool,
    missed: AtomicBool,
}

impl Gate for Meeting {
    fn enter(&self, worker: u32, _task: u32) {
        let (mine, other) = if worker == 0 {
            (&self.first, &self.second)
        } else {
            (&self.second, &self.first)
        };
        mine.store(true, Ordering::SeqCst);
        for _ in 0..10_000_000u32 {
            if other.load(Ordering::SeqCst) {
                return;
            }
            thread::yield_now();
        }
        self.missed.store(true, Ordering::SeqCst);
    }
}

/// So many tasks, each with 100 events to make.
fn counters(alloc: Global, count: u32) -> Result<Vec<Counter>, AllocError>
    ensures { IfOk result (λ tasks. (length tasks.items ≡ count) × AreTasks {N = ℕ} (λ task. 0) (λ task. Unit {0}) (Some 0) tasks.items
        × ((h : ℕ → ℕ) → sum_numbers (λ task. task.number) h tasks.items ≡ sum_below h count)) }
{
    let mut tasks = Vec::new(alloc);
    for number in 0..count {
        tasks.push(Counter { number, left: 100 })?;
    }
    Ok(tasks)
}

/// One round of workers over so many tasks.
fn by_workers<R: Threads + Wait + Sync, G: Gate + Sync>(
    rt: &R,
    alloc: Global,
    count: u32,
    workers: u32,
    gate: &G,
) -> Result<RoundEnd<Counter>, AllocError>
    requires { (1 ≤ workers) × (workers ≤ 16) }
    ensures { IfOk result (λ over. (h : ℕ → ℕ) → sum_numbers (λ task. task.number) h over.tasks.items ≡ sum_below h count) }
{
    let tasks = counters(alloc, count)?;
    round(rt, alloc, 0, tasks, workers, gate)
}

#[test]
fn all_tasks_come_back(rt: HostRuntime) -> Result<(), Fail> {
    for workers in [1, 2, 4, 16] {
        let over = by_workers(&rt, rt.alloc(), 40, workers, &OpenGate)?;
        assert_eq!(rt; over.tasks.len(), 40);
        assert!(rt; over.moved);
        assert!(rt; over.tasks.iter().all(|task| task.left == 0));
        for number in 0..40 {
            assert!(rt; over.tasks.iter().any(|task| task.number == number));
        }
    }
    Ok(())
}

#[test]
fn two_workers_meet(rt: HostRuntime) -> Result<(), Fail> {
    let gate = Meeting {
        first: AtomicBool::new(false),
        second: AtomicBool::new(false),
        missed: AtomicBool::new(false),
    };
    let over = by_workers(&rt, rt.alloc(), 2, 2, &gate)?;
    assert_eq!(rt; over.tasks.len(), 2);
    assert!(rt; !gate.missed.load(Ordering::SeqCst));
    Ok(())
}
