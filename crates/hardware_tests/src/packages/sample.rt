//! Packages of one proc over a state of 8 bits, with an input `a` and an output `b` of 8 bits.

use delay_model::Op;
use ir_tree::{
    Attributes, Channel, Constant, Ends, IrType, Node, Operand, Operands, Package, Proc,
};
use net_core::Name;
use std::alloc::{AllocError, Global};
use xb_value::Seq;

/// The type of so many bits.
pub fn bits(alloc: Global, width: u128) -> IrType {
    IrType::Bits(width, Seq::new(alloc))
}

/// A node of so many bits.
pub fn node(
    alloc: Global,
    id: u32,
    width: u128,
    op: Op,
    operands: &[Operand],
    attributes: Attributes,
) -> Result<Node, AllocError> {
    Ok(Node {
        id,
        ty: bits(alloc, width),
        op,
        operands: Operands::from_slice(alloc, operands)?,
        attributes,
    })
}

/// The package with these nodes.
pub fn package(alloc: Global, nodes: Vec<Node>, next: Operand) -> Result<Package, AllocError> {
    let mut channels = Vec::new(alloc);
    channels.push(channel(alloc, "a", 0, Ends::Input)?)?;
    channels.push(channel(alloc, "b", 1, Ends::Output)?)?;
    let mut procs = Vec::new(alloc);
    procs.push(Proc {
        name: name(alloc, "P")?,
        state: bits(alloc, 8),
        init: Constant::Number(0),
        nodes: Seq::from_vec(nodes),
        next,
    })?;
    Ok(Package {
        name: name(alloc, "Sample")?,
        channels: Seq::from_vec(channels),
        procs: Seq::from_vec(procs),
    })
}

fn channel(alloc: Global, text: &str, id: u32, ends: Ends) -> Result<Channel, AllocError> {
    Ok(Channel {
        name: name(alloc, text)?,
        id,
        ty: bits(alloc, 8),
        ends,
    })
}

fn name(alloc: Global, text: &str) -> Result<Name, AllocError> {
    Ok(Name::from_string(String::from_str(alloc, text)?))
}
