ghost use Rattle.std.specs.Prelude.{◌≡◌, [], Some, List, Option};
ghost use Rattle.proc_task.specs.Moving.{IsTask};
ghost use Rattle.net_tests.specs.Idle.{idle_run};

use chan_queue::{ChanQueue, Streams};
use net_core::{Activation, Event};
use proc_task::{Runtime, Task};
use std::alloc::{AllocError, Global};
use std::test::Fail;
use task_queue::Numbered;
use xb_bits::Bits;
use xb_value::Value;

/// A run in which no word goes over a channel.
#[derive(Clone, Copy)]
struct NoWords;

impl Streams for NoWords {
    ghost use Rattle.std.specs.Prelude.{[]};

    ghost stream = { λ run chan. record { words = []; received = 0 } };
}

/// The run of one proc without sites, which makes three activations and keeps its state, and queues of which it uses none.
#[derive(Clone, Copy)]
struct Idle<'a> {
    lines: &'a [Option<ChanQueue<NoWords>>],
}

impl<'a> Runtime<NoWords> for Idle<'a> {
    ghost run = { λ runtime. idle_run };

    ghost lines = { λ runtime. runtime.lines.now };

    ghost keeps = { λ _ _ _ _ _ _. Unit {0} };

    ghost begins = { λ _ _ _ _ _ _ _. tt };

    ghost stays = { λ _ _ _ _ _ _ _ _ _ _. tt };

    fn activations(&self) -> u32 {
        3
    }

    fn input_word(&self, _chan: u32, _place: u64) -> Option<Bits> {
        None
    }

    fn line(&self, chan: u32) -> &ChanQueue<NoWords> {
        match &self.lines[chan as usize] {
            Some(line) => line,
            None => unreachable!(),
        }
    }

    fn next(
        &self,
        alloc: Global,
        _kept: &mut Activation,
        _number: u32,
        state: &Value,
        _got: &[Bits],
        _done: u32,
    ) -> Result<Event, AllocError> {
        Ok(Event::End(state.copy(alloc)?))
    }
}

/// The task of its proc.
fn idle_task<'a>(alloc: Global, lines: &'a [Option<ChanQueue<NoWords>>]) -> Task<NoWords, Idle<'a>>
    ensures { IsTask idle_run result.runtime.lines.now result }
{
    let state = Value::Bits(Bits::new(8, 5));
    Task::new(
        alloc,
        Idle { lines },
        0,
        Vec::new(alloc),
        state,
        Vec::new(alloc),
        Vec::new(alloc),
        Vec::new(alloc),
    )
}

#[test]
fn a_proc_without_sites_ends_its_activations(rt: HostRuntime) -> Result<(), Fail> {
    let mut task = idle_task(rt.alloc(), &[]);
    assert_eq!(rt; task.number(), 0);
    assert_eq!(rt; task.advance(&rt, rt.alloc(), 2)?, 2);
    assert_eq!(rt; task.advance(&rt, rt.alloc(), 5)?, 1);
    let ended = task.finish(rt.alloc())?;
    assert_eq!(rt; ended.end.ends, 3);
    assert_eq!(rt; ended.end.stall, None);
    Ok(())
}
