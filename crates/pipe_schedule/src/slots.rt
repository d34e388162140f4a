//! Nodes put one after the other into their earliest stages.

ghost use Rattle.std.specs.Prelude.{◌≡◌, ◌≤◌, ◌+◌, ◌*◌, ◌<◌, ◌^◌, ◌∷◌, [], ◌++◌, OnOk, IfOk, IfErr, length};
ghost use Rattle.ir_tree.specs.NodeValues.{role_of};
ghost use Rattle.pipe_schedule.specs.Timed.{nodes_among, if_there, sources_of};
ghost use Rattle.pipe_schedule.specs.Inner.Delays.{delay_within, timed_within};
ghost use Rattle.pipe_schedule.specs.Inner.Slots.{latest, lowest, slotted, slots_of, AreUpTo, AreSlotsInTime, IsFirstSlow};

use crate::delays::delay;
use crate::schedule::NoSchedule;
use crate::slot::{Floor, Slot};
use ir_tree::{Attributes, Node, Operand, Proc};
use std::alloc::{AllocError, Global};

/// The slot of each node, or the first node that takes longer than the clock.
pub fn slots_of(alloc: Global, proc: &Proc, clock: u32) -> Result<Vec<Slot>, NoSchedule>
    ensures slots { IfOk result (λ slots. AreSlotsInTime (timed_within proc.now) clock slots.items) }
    ensures slow { IfErr result (λ error. IsFirstSlow (timed_within proc.now) clock error) }
{
    let nodes = proc.nodes.as_slice();
    let mut slots = Vec::new(alloc);
    let mut floor = Floor {
        send: 0,
        receive: 0,
    };
    'nodes: for i in 0..nodes.len() {
        let node = &nodes[i];
        let delay = delay(&proc.state, nodes, node);
        if clock < delay {
            return Err(NoSchedule::TooSlow { node: i, delay });
        }
        let slot = latest(&slots, floor.start(node.role()), node).place(clock, delay);
        push(&mut slots, slot)?;
        floor = floor.raise(node.role(), slot.stage);
    }
    Ok(slots)
}

fn push(slots: &mut Vec<Slot>, slot: Slot) -> Result<(), AllocError>
    ensures { OnOk result (slots.new.items ≡ slots.old.items ++ slot ∷ []) }
{
    slots.push(slot)?;
    Ok(())
}

/// The latest of a slot and those of the operands of a node.
#[tactic(auto, using(crate::proofs::Operands::latest_append))]
fn latest(slots: &[Slot], start: Slot, node: &Node) -> Slot
    ensures { result ≡ latest slots.now start (sources_of node.now) }
{
    let at = later_operands(slots, start, node.operands.as_slice());
    match &node.attributes {
        Attributes::Cases(cases, default) => {
            later_optional(slots, later_operands(slots, at, cases.as_slice()), *default)
        }
        Attributes::Indices(index) => later_operand(slots, at, *index),
        Attributes::Channel(predicate, _) => later_optional(slots, at, *predicate),
        _ => at,
    }
}

#[tactic(auto, using(crate::proofs::Operands::latest_more))]
fn later_operands(slots: &[Slot], start: Slot, operands: &[Operand]) -> Slot
    ensures { result ≡ latest slots.now start (nodes_among operands.now) }
{
    let mut at = start;
    'operands: for operand in operands {
        at = later_operand(slots, at, *operand);
    }
    at
}

fn later_optional(slots: &[Slot], at: Slot, operand: Option<Operand>) -> Slot
    ensures { result ≡ latest slots.now at (nodes_among (if_there operand)) }
{
    match operand {
        None => at,
        Some(operand) => later_operand(slots, at, operand),
    }
}

fn later_operand(slots: &[Slot], at: Slot, operand: Operand) -> Slot
    ensures { result ≡ latest slots.now at (nodes_among (operand ∷ [])) }
{
    match operand {
        Operand::State => at,
        Operand::Node(place) => match slots.get(place as usize) {
            None => at,
            Some(slot) => at.later(*slot),
        },
    }
}
