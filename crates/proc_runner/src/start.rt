ghost use Rattle.std.specs.Prelude.{◌≡◌, ◌<◌, ◌+◌, ◌^◌, IfOk, length};
ghost use Rattle.base.specs.Lists.Indexed.{indexed};
ghost use Rattle.net_core.specs.declared.net.Chan.{Chan};
ghost use Rattle.net_core.specs.Cuts.{index_of};
ghost use Rattle.chan_queue.specs.Streams.Moves.{IsTyped};
ghost use Rattle.proc_task.specs.Moving.{IsTask};
ghost use Rattle.proc_task.specs.Outcome.Places.{head_sends, head_receives};
ghost use Rattle.proc_runner.specs.Inner.Started.{AreHeads, IsHead, AreLeft, AreRunTasks};

use crate::ports::{indices, inlets, outlets};
use chan_queue::{RecvPass, SendPass, Streams};
use net_core::{Net, ProcHead};
use proc_task::outcome::{receiver, sender};
use proc_task::{Runtime, Task};
use std::alloc::{AllocError, Global};

/// The rights to the ends of all channels that no proc has taken yet, and who is at the ends.
#[derive(Drop)]
pub(crate) struct Ends<S> {
    pub(crate) senders: Vec<usize>,
    pub(crate) receivers: Vec<usize>,
    pub(crate) sends: Vec<Option<SendPass<S>>>,
    pub(crate) recvs: Vec<Option<RecvPass<S>>>,
}

/// The proc that sends on each channel.
pub(crate) fn senders(alloc: Global, net: &Net) -> Result<Vec<usize>, AllocError>
    requires { length net.now.chans < 2 ^ 32 }
    ensures { IfOk result (λ procs. procs.items ≡ indexed (λ c (chan : Chan). index_of (head_sends c) net.now.procs) 0 net.now.chans) }
{
    let mut procs = Vec::new(alloc);
    for c in 0..net.chans.len() {
        procs.push(sender(net.procs.as_slice(), c as u32))?;
    }
    Ok(procs)
}

/// The proc that receives from each channel.
pub(crate) fn receivers(alloc: Global, net: &Net) -> Result<Vec<usize>, AllocError>
    requires { length net.now.chans < 2 ^ 32 }
    ensures { IfOk result (λ procs. procs.items ≡ indexed (λ c (chan : Chan). index_of (head_receives c) net.now.procs) 0 net.now.chans) }
{
    let mut procs = Vec::new(alloc);
    for c in 0..net.chans.len() {
        procs.push(receiver(net.procs.as_slice(), c as u32))?;
    }
    Ok(procs)
}

/// All tasks of a run, in the order of their procs.
pub(crate) fn start<S: Streams, H: Runtime<S>>(
    alloc: Global,
    runtime: &H,
    heads: &[ProcHead],
    mut ends: Ends<S>,
) -> Result<Vec<Task<S, H>>, AllocError>
    requires heads { length heads.now < 2 ^ 32 }
    requires typed { IsTyped (H.run runtime.now) }
    requires run { AreHeads (H.run runtime.now) heads.now }
    requires ends { AreLeft (H.run runtime.now) (H.lines runtime.now) 0 ends.senders.items ends.receivers.items ends.sends.items ends.recvs.items }
    ensures { IfOk result (λ tasks. AreRunTasks H.run H.lines runtime.now (length heads.now) tasks.items) }
{
    let mut tasks = Vec::new(alloc);
    for (p, head) in heads.iter().enumerate() {
        let task = new_task(alloc, runtime, p, head, &mut ends)?;
        tasks.push(task)?;
    }
    Ok(tasks)
}

/// The task of a proc, which takes its rights.
fn new_task<S: Streams, H: Runtime<S>>(
    alloc: Global,
    runtime: &H,
    p: usize,
    head: &ProcHead,
    ends: &mut Ends<S>,
) -> Result<Task<S, H>, AllocError>
    requires typed { IsTyped (H.run runtime.now) }
    requires head { IsHead (H.run runtime.now) p head.now }
    requires ends { AreLeft (H.run runtime.now) (H.lines runtime.now) p ends.old.senders.items ends.old.receivers.items ends.old.sends.items ends.old.recvs.items }
    ensures task { IfOk result (λ task. (task.number ≡ p) × (task.runtime ≡ runtime.now) × IsTask (H.run runtime.now) (H.lines runtime.now) task) }
    ensures ends { IfOk result (λ _. AreLeft (H.run runtime.now) (H.lines runtime.now) (p + 1) ends.new.senders.items ends.new.receivers.items ends.new.sends.items ends.new.recvs.items) }
{
    let outlets = outlets(alloc, p, ends.senders.as_slice(), &mut ends.sends)?;
    let inlets = inlets(alloc, p, ends.receivers.as_slice(), &mut ends.recvs)?;
    let sites = head.sites.as_slice();
    let indices = indices(alloc, sites, outlets.as_slice(), inlets.as_slice())?;
    let sites = Vec::from_slice(alloc, sites)?;
    let state = head.init.copy(alloc)?;
    Ok(Task::new(
        alloc, *runtime, p as u32, sites, state, indices, outlets, inlets,
    ))
}
