ghost use Rattle.std.specs.Prelude.{◌≡◌, option_copied};
ghost use Rattle.net_core.specs.Cuts.{words_sent, count_received, sites_at, sender, receiver};
ghost use Rattle.proc_task.specs.Outcome.Tasks.{task_in, cut_by, AreTasksOf, IsRunOf};

use crate::outcome::ends;
use crate::{Runtime, Task};
use chan_queue::Streams;
use net_core::Net;
use task_queue::Numbered;
use xb_bits::Bits;

/// The task of a number.
pub(crate) fn task_of<S: Streams, H: Runtime<S>>(
    tasks: &[Task<S, H>],
    number: usize,
) -> Option<&Task<S, H>>
    ensures { option_copied result ≡ task_in number tasks.now }
{
    for task in tasks {
        if task.number() as usize == number {
            return Some(task);
        }
    }
    None
}

/// The words that were sent on a channel by procs.
pub(crate) fn sent_on<'a, S: Streams, H: Runtime<S>>(
    runtime: &H,
    net: &Net,
    tasks: &'a [Task<S, H>],
    chan: u32,
) -> &'a [Bits]
    requires tasks { AreTasksOf H.run H.lines runtime.now tasks.now }
    requires run { IsRunOf net.now (H.run runtime.now) }
    ensures { result.now ≡ words_sent (sites_at (H.run runtime.now) (sender (H.run runtime.now) chan)) chan (cut_by (H.run runtime.now) tasks.now (sender (H.run runtime.now) chan)) }
{
    match task_of(tasks, ends::sender(net.procs.as_slice(), chan)) {
        Some(task) => task.words_on(chan),
        None => &[],
    }
}

/// How many words procs received from a channel.
pub(crate) fn received_on<S: Streams, H: Runtime<S>>(
    runtime: &H,
    net: &Net,
    tasks: &[Task<S, H>],
    chan: u32,
) -> u64
    requires tasks { AreTasksOf H.run H.lines runtime.now tasks.now }
    requires run { IsRunOf net.now (H.run runtime.now) }
    ensures { result ≡ count_received (sites_at (H.run runtime.now) (receiver (H.run runtime.now) chan)) chan (cut_by (H.run runtime.now) tasks.now (receiver (H.run runtime.now) chan)) }
{
    match task_of(tasks, ends::receiver(net.procs.as_slice(), chan)) {
        Some(task) => task.received_on(chan),
        None => 0,
    }
}
