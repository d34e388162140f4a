//! The least schedule of a proc.

ghost use Rattle.std.specs.Prelude.{◌≡◌, ◌≤◌, ◌^◌, ◌-◌, IfOk, IfErr, if◌then◌else◌, nat_le, position};
ghost use Rattle.pipe_schedule.specs.Timed.{IsOfVerified, is_receive, timed_proc};
ghost use Rattle.pipe_schedule.specs.Legal.{greatest};
ghost use Rattle.pipe_schedule.specs.Answer.{IsSchedule, IsCause, HasNone};
ghost use Rattle.pipe_schedule.specs.Inner.Slots.{AreUpTo, receive_within, stages_of, turn_within};

use crate::slot::Slot;
use crate::slots::slots_of;
use ir_tree::{Node, Operand, Proc, Role};
use std::alloc::{AllocError, Global};
use xb_value::Seq;

/// What a schedule must keep to.
#[derive(Clone, Copy, PartialEq, Eq)]
pub struct Demands {
    /// How many picoseconds a cycle has.
    pub clock: u32,
    /// How many stages there are at most; 1 or more.
    pub stages: u32,
    /// How many cycles there are at most from the beginning of an activation to that of the next.
    pub interval: u32,
}

/// A schedule of a proc.
#[derive(Drop)]
pub struct Schedule {
    /// The stage of each node, from 0.
    pub stage: Seq<u32>,
    /// How many stages there are.
    pub stages: u32,
    /// How many cycles after one activation the next may begin.
    pub interval: u32,
}

/// Why a proc has no legal schedule. Nodes are named by their indices.
#[derive(Clone, Copy, PartialEq, Eq)]
pub enum NoSchedule {
    /// The first node that takes longer than the clock, and how long.
    TooSlow { node: usize, delay: u32 },
    /// The first node whose least stage is past those that are allowed, and how many stages the proc needs.
    Stages { node: usize, need: u64 },
    /// The least interval.
    Interval { need: u64 },
    OutOfMemory,
}

impl From<AllocError> for NoSchedule {
    ghost use Rattle.pipe_schedule.specs.declared.schedule.NoSchedule.TheVariants.{OutOfMemory};

    ghost from_gives = { λ _ e. e ≡ OutOfMemory };

    fn from(_error: AllocError) -> Self {
        NoSchedule::OutOfMemory
    }
}

/// The schedule of a proc in which each node has its least stage among all legal schedules, or the cause for which there is
/// none: the first of these in the order of [`NoSchedule`].
///
/// It takes time and memory linear in the nodes and operands.
pub fn schedule_proc(alloc: Global, proc: &Proc, demands: Demands) -> Result<Schedule, NoSchedule>
    requires verified { IsOfVerified proc.now }
    requires some { 1 ≤ demands.stages }
    ensures schedule { IfOk result (λ s. IsSchedule (timed_proc proc.now) demands s) }
    ensures cause { IfErr result (λ error. IsCause (timed_proc proc.now) demands error) }
    ensures none { IfErr result (λ error. HasNone (timed_proc proc.now) demands error) }
{
    let slots = slots_of(alloc, proc, demands.clock)?;
    if let Some(node) = first_late(&slots, demands.stages) {
        let need = last_stage(&slots) + 1;
        return Err(NoSchedule::Stages { node, need });
    }
    let turn = turn_stage(proc, &slots);
    if u64::from(demands.interval) <= turn {
        return Err(NoSchedule::Interval { need: turn + 1 });
    }
    Ok(Schedule {
        stage: Seq::from_vec(stages_of(alloc, &slots)?),
        stages: last_stage(&slots) as u32 + 1,
        interval: turn as u32 + 1,
    })
}

/// The first node whose stage is not among the first `stages`.
fn first_late(slots: &[Slot], stages: u32) -> Option<usize>
    ensures { result ≡ position (λ (s : Slot). nat_le stages s.stage) slots.now }
{
    slots
        .iter()
        .position(|slot| u64::from(stages) <= slot.stage)
}

/// The greatest stage, 0 where there is no node.
fn last_stage(slots: &[Slot]) -> u64
    ensures { result ≡ greatest (stages_of slots.now) }
{
    let mut last = 0u64;
    'slots: for slot in slots {
        last = last.max(slot.stage);
    }
    last
}

/// The stage behind which the next activation may begin.
fn turn_stage(proc: &Proc, slots: &[Slot]) -> u64
    ensures { result ≡ turn_within proc.now (stages_of slots.now) }
{
    let next = match proc.next {
        Operand::State => 0,
        Operand::Node(place) => match slots.get(place as usize) {
            None => 0,
            Some(slot) => slot.stage,
        },
    };
    last_receive(proc.nodes.as_slice(), slots).max(next)
}

/// The stage of the last receive, 0 where there is none.
#[tactic(auto, using(crate::proofs::Ends::receive_ended))]
fn last_receive(nodes: &[Node], slots: &[Slot]) -> u64
    ensures { result ≡ receive_within 0 nodes.now (stages_of slots.now) }
{
    let count = nodes.len().min(slots.len());
    let mut last = 0u64;
    'nodes: for i in 0..count {
        last = with_node(last, nodes[i].role(), slots[i].stage);
    }
    last
}

/// The stage of the last receive, where a node of this role and stage comes behind.
fn with_node(last: u64, role: Role, stage: u64) -> u64
    ensures { result ≡ if is_receive role then stage else last }
{
    match role {
        Role::Receive(_, _) => stage,
        _ => last,
    }
}

/// The stages of slots.
fn stages_of(alloc: Global, slots: &[Slot]) -> Result<Vec<u32>, AllocError>
    requires { AreUpTo slots.now (2 ^ 32 - 1) }
    ensures { IfOk result (λ stages. stages.items ≡ stages_of slots.now) }
{
    let mut stages = Vec::new(alloc);
    'slots: for slot in slots {
        stages.push(slot.stage as u32)?;
    }
    Ok(stages)
}
