//! Where the registers of a proc's pipeline stand.

ghost use Rattle.std.specs.Prelude.{◌≡◌, ◌-◌, ◌++◌, [], ◌∷◌, suc, map, IfOk, OnOk};
ghost use Rattle.ir_tree.specs.Constants.{constant_value};
ghost use Rattle.ir_tree.specs.NodeValues.{role_of};
ghost use Rattle.ir_tree.specs.Types.{ty_of};
ghost use Rattle.block_build.specs.Netlist.Leaves.{leaf_widths, literals_of};
ghost use Rattle.block_build.specs.Netlist.ProcRegisters.{registers_of, state_registers, full_register, full_registers, channel_bits, site_registers, sites_registers, site_at, sites_at, copy_registers, node_registers, nodes_registers, copies_at};
ghost use Rattle.block_build.specs.Netlist.Registers.{next_register, Lays, zero_register};

use crate::netlist::leaves::{push_literals, widths_of};
use crate::netlist::literals::{literal, zeros};
use crate::netlist::nexts::is_literal;
use crate::netlist::registers::RegisterList;
use ir_tree::node_types::width_of;
use ir_tree::{Channel, IrType, Node, Proc, Role};
use std::alloc::{AllocError, Global};
use vlog_tree::{Atom, Signal};
use xb_value::at;

/// The registers of a site: its done bit, and of a receive the word that it keeps.
#[derive(Clone, Copy)]
pub struct SiteRegisters {
    pub done: Signal,
    pub kept: Signal,
}

/// Lays out the registers of a proc's state, with its first one.
pub fn lay_state(alloc: Global, registers: &mut RegisterList, proc: &Proc) -> Result<(), AllocError>
    ensures { OnOk result (Lays registers.old registers.new (state_registers proc.now)) }
{
    let widths = widths_of(alloc, &proc.state)?;
    let resets = opening(alloc, proc)?;
    lay_numbers(registers, widths.as_slice(), resets.as_slice())
}

/// The numbers of the first state.
fn opening(alloc: Global, proc: &Proc) -> Result<Vec<Atom>, AllocError>
    ensures { IfOk result (λ atoms. atoms.items ≡ literals_of (constant_value (ty_of proc.now.state) proc.now.init)) }
{
    let ty = proc.state.to_ty(alloc)?;
    let value = proc.init.to_value(alloc, &ty)?;
    let mut atoms = Vec::new(alloc);
    push_literals(&value, &mut atoms)?;
    Ok(atoms)
}

/// Registers of these widths, which are reset to these. It recurses once a number of a type.
fn lay_numbers(
    registers: &mut RegisterList,
    widths: &[u64],
    resets: &[Atom],
) -> Result<(), AllocError>
    ensures { OnOk result (Lays registers.old registers.new (registers_of widths.now resets.now)) }
{
    match widths {
        [] => Ok(()),
        [width, widths @ ..] => match resets {
            [] => Ok(()),
            [reset, resets @ ..] => {
                registers.register(*width, *reset)?;
                lay_numbers(registers, widths, resets)
            }
        },
    }
}

/// Lays out the full bits of stages. The turn stands in the first. The number of the first.
pub fn lay_full(registers: &mut RegisterList, stages: u32) -> Result<u32, AllocError>
    ensures number { IfOk result (λ full. full ≡ next_register registers.old) }
    ensures lays { OnOk result (Lays registers.old registers.new (full_registers 0 stages)) }
{
    let full = registers.next()?;
    'stages: for stage in 0..stages {
        registers.register(1, full_bit(stage))?;
    }
    Ok(full)
}

/// What the full bit of a stage is reset to.
fn full_bit(stage: u32) -> Atom
    ensures { result ≡ (full_register stage).reset }
{
    literal(1, if stage == 0 { 1 } else { 0 })
}

/// Lays out the registers of the sites among nodes.
pub fn lay_sites(
    alloc: Global,
    registers: &mut RegisterList,
    channels: &[Channel],
    nodes: &[Node],
) -> Result<Vec<SiteRegisters>, AllocError>
    ensures sites { IfOk result (λ sites. sites.items ≡ sites_at channels.now (next_register registers.old) nodes.now) }
    ensures lays { OnOk result (Lays registers.old registers.new (sites_registers channels.now nodes.now)) }
{
    let mut sites = Vec::new(alloc);
    'nodes: for i in 0..nodes.len() {
        lay_site(registers, channels, nodes[i].role(), &mut sites)?;
    }
    Ok(sites)
}

/// Those of a site, if the node is one.
fn lay_site(
    registers: &mut RegisterList,
    channels: &[Channel],
    role: Role,
    sites: &mut Vec<SiteRegisters>,
) -> Result<(), AllocError>
    ensures sites { OnOk result (sites.new.items ≡ sites.old.items ++ site_at (next_register registers.old) role) }
    ensures lays { OnOk result (Lays registers.old registers.new (site_registers channels.now role)) }
{
    match role {
        Role::Pure => Ok(()),
        Role::Receive(_, channel) => {
            let own = lay_receive(registers, channel_width(channels, channel))?;
            sites.push(own)?;
            Ok(())
        }
        Role::Send(_, _) => {
            let done = registers.register(1, zeros(1))?;
            sites.push(SiteRegisters { done, kept: done })?;
            Ok(())
        }
    }
}

/// The done bit of a receive, and the word that it keeps.
fn lay_receive(registers: &mut RegisterList, width: u64) -> Result<SiteRegisters, AllocError>
    ensures site { IfOk result (λ site. (site.done.0 ≡ next_register registers.old) × (site.kept.0 ≡ suc (next_register registers.old))) }
    ensures lays { OnOk result (Lays registers.old registers.new (zero_register 1 ∷ zero_register width ∷ [])) }
{
    let done = registers.register(1, zeros(1))?;
    let kept = registers.register(width, zeros(width))?;
    Ok(SiteRegisters { done, kept })
}

/// How many bits the flat words of a channel have, 0 where it isn't there. No channel of a verified package has more than 128.
pub fn channel_width(channels: &[Channel], channel: u32) -> u64
    ensures { result ≡ channel_bits channels.now channel }
{
    match at(channels, channel as usize) {
        Some(channel) => width_of(&channel.ty),
        None => 0,
    }
}

/// Lays out the copies of a value of a type that comes to be in one stage and is last read in another. The number of the first.
pub fn lay_copies(
    alloc: Global,
    registers: &mut RegisterList,
    ty: &IrType,
    from: u32,
    to: u32,
) -> Result<u32, AllocError>
    ensures number { IfOk result (λ first. first ≡ next_register registers.old) }
    ensures lays { OnOk result (Lays registers.old registers.new (copy_registers (leaf_widths (ty_of ty.now)) (to - from))) }
{
    let first = registers.next()?;
    let widths = widths_of(alloc, ty)?;
    let count = to.saturating_sub(from);
    'stages: for _ in 0..count {
        lay_copy(registers, widths.as_slice())?;
    }
    Ok(first)
}

/// A copy of a value with numbers of these widths. It recurses once a number of a type.
fn lay_copy(registers: &mut RegisterList, widths: &[u64]) -> Result<(), AllocError>
    ensures { OnOk result (Lays registers.old registers.new (map zero_register widths.now)) }
{
    match widths {
        [] => Ok(()),
        [width, widths @ ..] => {
            registers.register(*width, zeros(*width))?;
            lay_copy(registers, widths)
        }
    }
}

/// Lays out the copies of the values of nodes in these stages, which are last read in these. Of literals there are none.
pub fn lay_nodes(
    alloc: Global,
    registers: &mut RegisterList,
    nodes: &[Node],
    stages: &[u32],
    lasts: &[u32],
) -> Result<Vec<u32>, AllocError>
    ensures copies { IfOk result (λ copies. copies.items ≡ copies_at (next_register registers.old) nodes.now stages.now lasts.now) }
    ensures lays { OnOk result (Lays registers.old registers.new (nodes_registers nodes.now stages.now lasts.now)) }
{
    let mut copies = Vec::new(alloc);
    let count = nodes.len().min(stages.len()).min(lasts.len());
    'nodes: for i in 0..count {
        let first = lay_node(alloc, registers, &nodes[i], stages[i], lasts[i])?;
        copies.push(first)?;
    }
    Ok(copies)
}

/// Those of a node.
fn lay_node(
    alloc: Global,
    registers: &mut RegisterList,
    node: &Node,
    stage: u32,
    last: u32,
) -> Result<u32, AllocError>
    ensures number { IfOk result (λ first. first ≡ next_register registers.old) }
    ensures lays { OnOk result (Lays registers.old registers.new (node_registers node.now stage last)) }
{
    if is_literal(node) {
        registers.next()
    } else {
        lay_copies(alloc, registers, &node.ty, stage, last)
    }
}
