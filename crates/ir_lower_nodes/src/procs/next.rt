//! The nodes of a proc's activation.

ghost use Rattle.std.specs.Prelude.{◌≡◌, [], IfOk};
ghost use Rattle.ir_rebuild.specs.Putting.Types.{ir_type_of};
ghost use Rattle.ir_rebuild.specs.Putting.Given.{PutsNode};
ghost use Rattle.ir_lower_nodes.specs.Procs.Instances.{start_node, ActivationLowers};

use crate::exprs::lower;
use crate::steps::lower_steps;
use delay_model::Op;
use dslx_core::{Function, Instance};
use ir_rebuild::putting::Nodes;
use ir_tree::{Attributes, IrType, Operand};
use std::alloc::{AllocError, Global};
use xb_value::Seq;

/// The token with which an activation begins.
fn put_start(alloc: Global, nodes: &mut Nodes) -> Result<Operand, AllocError>
    ensures { IfOk result (λ o. PutsNode nodes.old nodes.new start_node o) }
{
    nodes.put(
        IrType::Token(Seq::new(alloc)),
        Op::AfterAll,
        &[],
        Attributes::None,
    )
}

/// Puts the nodes of an instance's activation into a list that has none, whose members are ends of these channels, and answers what
/// the next state is. What is so deep as said counts as want of memory.
pub fn lower_next(
    alloc: Global,
    functions: &[Function],
    depth: u64,
    channels: &[u32],
    nodes: &mut Nodes,
    instance: &Instance,
) -> Result<Operand, AllocError>
    ensures { IfOk result (λ o. nodes.old.list.items ≡ [] → nodes.old.state ≡ ir_type_of instance.now.state → ActivationLowers functions.now channels.now instance.now nodes.new o) }
{
    let start = put_start(alloc, nodes)?;
    let mut slots = Vec::new(alloc);
    slots.push(Operand::State)?;
    let steps = instance.steps.as_slice();
    lower_steps(
        alloc, functions, depth, channels, nodes, &mut slots, start, steps,
    )?;
    lower(alloc, functions, depth, nodes, &mut slots, &instance.next)
}
