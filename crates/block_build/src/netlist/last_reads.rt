//! The last stage in which each value of a proc is read: up to there stages carry it on.

ghost use Rattle.std.specs.Prelude.{◌≡◌, [], ◌∷◌, length, get_or, replicate, IfOk};
ghost use Rattle.ir_tree.specs.declared.node.Operand.{Operand as SomeOperand};
ghost use Rattle.block_build.specs.Netlist.LastReads.{stage_by, read_at, raised, ReadsNoted};
ghost use Rattle.block_build.specs.Netlist.Layout.{last_read, proc_readers};
ghost use Rattle.block_build.specs.Netlist.Nodes.{IsEarlier, operands_read, attributes_read, optional_read};

use ir_tree::{Attributes, Node, Operand, Proc};
use std::alloc::{AllocError, Global};

/// The last stage in which each value is read, 0 where it isn't.
#[derive(Drop)]
pub struct LastReads {
    pub state: u32,
    pub nodes: Vec<u32>,
}

/// The last reads of a proc whose nodes stand in these stages, and whose activations give the turn back in this one.
pub fn last_reads(
    alloc: Global,
    proc: &Proc,
    stages: &[u32],
    last: u32,
) -> Result<LastReads, AllocError>
    ensures count { IfOk result (λ reads. length reads.nodes.items ≡ length proc.now.nodes) }
    ensures last { IfOk result (λ reads. (o : SomeOperand) → IsEarlier (length proc.now.nodes) o → read_at reads o ≡ last_read (proc_readers (stage_by stages.now) proc.now last) o) }
{
    let nodes = proc.nodes.as_slice();
    let mut reads = LastReads {
        state: 0,
        nodes: no_reads(alloc, nodes.len())?,
    };
    note(&mut reads, last, proc.next);
    'nodes: for i in 0..nodes.len() {
        note_node(&mut reads, stage_at(stages, i), &nodes[i]);
    }
    Ok(reads)
}

/// So many zeros.
fn no_reads(alloc: Global, count: usize) -> Result<Vec<u32>, AllocError>
    ensures { IfOk result (λ reads. reads.items ≡ replicate count 0) }
{
    let reads = vec![in alloc; 0; count]?;
    Ok(reads)
}

/// The stage of a node, 0 where it isn't there.
fn stage_at(stages: &[u32], node: usize) -> u32
    ensures { result ≡ get_or stages.now node 0 }
{
    match stages.get(node) {
        Some(stage) => *stage,
        None => 0,
    }
}

/// A node reads its operands in its stage, and what its attributes name.
fn note_node(reads: &mut LastReads, stage: u32, node: &Node)
    ensures { ReadsNoted reads.old reads.new stage (operands_read node.now) }
{
    note_all(reads, stage, node.operands.as_slice());
    note_attributes(reads, stage, &node.attributes);
}

/// What a node's attributes name.
fn note_attributes(reads: &mut LastReads, stage: u32, attributes: &Attributes)
    ensures { ReadsNoted reads.old reads.new stage (attributes_read attributes.now) }
{
    match attributes {
        Attributes::Cases(cases, default) => {
            note_all(reads, stage, cases.as_slice());
            note_optional(reads, stage, *default);
        }
        Attributes::Indices(index) => note(reads, stage, *index),
        Attributes::Channel(predicate, _) => note_optional(reads, stage, *predicate),
        _ => {}
    }
}

fn note_optional(reads: &mut LastReads, stage: u32, operand: Option<Operand>)
    ensures { ReadsNoted reads.old reads.new stage (optional_read operand) }
{
    if let Some(operand) = operand {
        note(reads, stage, operand);
    }
}

fn note_all(reads: &mut LastReads, stage: u32, operands: &[Operand])
    ensures { ReadsNoted reads.old reads.new stage operands.now }
{
    'operands: for i in 0..operands.len() {
        note(reads, stage, operands[i]);
    }
}

/// An operand is read in a stage.
fn note(reads: &mut LastReads, stage: u32, operand: Operand)
    ensures { ReadsNoted reads.old reads.new stage (operand ∷ []) }
{
    match operand {
        Operand::State => reads.state = reads.state.max(stage),
        Operand::Node(node) => raise(&mut reads.nodes, node as usize, stage),
    }
}

/// The number of an index is at least this, if it is there.
fn raise(numbers: &mut Vec<u32>, index: usize, least: u32)
    ensures { numbers.new.items ≡ raised numbers.old.items index least }
{
    if index < numbers.len() {
        numbers[index] = numbers[index].max(least);
    }
}
