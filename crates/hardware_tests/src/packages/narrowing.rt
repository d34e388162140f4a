//! Narrowing of as many nodes as a package holds, whose text would be too long to be read.

use crate::packages::sample::{node, package};
use delay_model::{Extend, Op};
use ir_rebuild::append;
use ir_tree::rules::verify;
use ir_tree::{Attributes, Node, Operand, Package};
use std::alloc::{AllocError, Global};
use std::test::Fail;

fn add(
    alloc: Global,
    nodes: &mut Vec<Node>,
    width: u128,
    op: Op,
    operands: &[Operand],
    attributes: Attributes,
) -> Result<Operand, AllocError> {
    let node = node(alloc, 0, width, op, operands, attributes)?;
    append(nodes, node)
}

fn zero_ext(
    alloc: Global,
    nodes: &mut Vec<Node>,
    x: Operand,
    width: u128,
) -> Result<Operand, AllocError> {
    let attributes = Attributes::NewBitCount(width);
    add(
        alloc,
        nodes,
        width,
        Op::Extend(Extend::Zero),
        &[x],
        attributes,
    )
}

fn bit_slice(
    alloc: Global,
    nodes: &mut Vec<Node>,
    x: Operand,
    start: u128,
    width: u128,
) -> Result<Operand, AllocError> {
    let attributes = Attributes::StartAndWidth(start, width);
    add(alloc, nodes, width, Op::BitSlice, &[x], attributes)
}

/// A chain of so many extensions to 16 bits, each with a slice of the lower 8 behind it.
fn chain(alloc: Global, count: u32) -> Result<Package, AllocError> {
    let mut nodes = Vec::new(alloc);
    let mut last = Operand::State;
    'turns: for _ in 0..count {
        let long = zero_ext(alloc, &mut nodes, last, 16)?;
        last = bit_slice(alloc, &mut nodes, long, 0, 8)?;
    }
    package(alloc, nodes, last)
}

fn node_count(ir: &Package) -> usize {
    match ir.procs.as_slice() {
        [proc] => proc.nodes.len(),
        _ => 0,
    }
}

#[test]
fn as_many_nodes_as_a_package_holds(rt: HostRuntime) -> Result<(), Fail> {
    let alloc = rt.alloc();
    let ir = chain(alloc, 32_768)?;
    verify(alloc, &ir)?;
    let ir = pass_narrow::run(alloc, ir)?;
    let count = node_count(&ir);
    assert_eq!(rt; count, 32_768);
    Ok(())
}
