ghost use Rattle.std.specs.Prelude.{IfOk, Some};
ghost use Rattle.task_queue.specs.Passes.{IsTaskPass, KnowsRun, HasRoom};

use std::alloc::{AllocError, Global};
use std::test::Fail;
use task_queue::{Numbered, TaskPass, TaskQueue, make};

/// A task of run 5.
#[derive(Drop)]
struct Job {
    number: u32,
}

impl Numbered<u32> for Job {
    ghost number_of = { λ job. job.number };

    ghost run_of = { λ job. 5 };

    ghost fact = { λ job. Unit {0} };

    fn number(&self) -> u32 {
        self.number
    }
}

/// Two passes of a queue with room for a few tasks.
fn two_passes(
    alloc: Global,
) -> Result<(TaskQueue<u32, Job>, TaskPass<u32, Job>, TaskPass<u32, Job>), AllocError>
    ensures first { IfOk result (λ made. IsTaskPass made.0 made.1 × HasRoom 4 made.1 × KnowsRun (Some 5) made.1) }
    ensures second { IfOk result (λ made. IsTaskPass made.0 made.2 × HasRoom 4 made.2 × KnowsRun (Some 5) made.2) }
{
    let (queue, mut first) = make(alloc, 5, 2, 2, 2)?;
    let second = queue.split(alloc, &mut first);
    Ok((queue, first, second))
}

#[test]
fn a_task_is_taken_from_ones_own_deque_and_then_stolen(rt: HostRuntime) -> Result<(), Fail> {
    let (queue, mut first, mut second) = two_passes(rt.alloc())?;
    queue.put(&mut first, Job { number: 0 });
    queue.put(&mut second, Job { number: 1 });
    let own = queue.take(&rt, &mut second).ok_or("a task")?;
    assert_eq!(rt; own.number(), 1);
    let stolen = queue.take(&rt, &mut second).ok_or("a task")?;
    assert_eq!(rt; stolen.number(), 0);
    assert!(rt; queue.take(&rt, &mut first).is_none());
    Ok(())
}
