//! Where the registers of a scheduled proc stand.

ghost use Rattle.std.specs.Prelude.{◌≡◌, ◌<◌, ◌^◌, IfOk, OnOk};
ghost use Rattle.block_build.specs.Netlist.Registers.{next_register, Lays};
ghost use Rattle.block_verilog.specs.Pipelines.Pipelines.{scheduled, proc_registers, RegistersStand, IsLaidOut};

use crate::signals::layout::{ProcRegisters, Staging};
use block_build::netlist::last_reads::{LastReads, last_reads};
use block_build::netlist::layout::{
    SiteRegisters, lay_copies, lay_full, lay_nodes, lay_sites, lay_state,
};
use block_build::netlist::registers::RegisterList;
use ir_tree::{Channel, Proc};
use std::alloc::{AllocError, Global};
use xb_value::Seq;

/// The registers of a proc, and the last stage in which each of its values is read.
#[derive(Drop)]
pub struct ProcLayout {
    pub registers: ProcRegisters,
    pub reads: LastReads,
}

/// Lays out the registers of a proc.
pub fn lay_out(
    alloc: Global,
    registers: &mut RegisterList,
    channels: &[Channel],
    proc: &Proc,
    staging: Staging,
) -> Result<ProcLayout, AllocError>
    ensures laid { IfOk result (λ layout. IsLaidOut (scheduled channels.now proc.now staging.entry) (next_register registers.old) layout) }
    ensures lays { IfOk result (λ layout. Lays registers.old registers.new (proc_registers (scheduled channels.now proc.now staging.entry) layout.reads)) }
{
    let reads = last_reads(alloc, proc, staging.stage, staging.last)?;
    let registers = lay_registers(alloc, registers, channels, proc, staging, &reads)?;
    Ok(ProcLayout { registers, reads })
}

/// The same, where values are last read in these stages.
fn lay_registers(
    alloc: Global,
    registers: &mut RegisterList,
    channels: &[Channel],
    proc: &Proc,
    staging: Staging,
    reads: &LastReads,
) -> Result<ProcRegisters, AllocError>
    ensures laid { IfOk result (λ laid. RegistersStand (scheduled channels.now proc.now staging.entry) reads.now (next_register registers.old) laid) }
    ensures lays { OnOk result (Lays registers.old registers.new (proc_registers (scheduled channels.now proc.now staging.entry) reads.now)) }
{
    let nodes = proc.nodes.as_slice();
    let state = registers.next()?;
    lay_state(alloc, registers, proc)?;
    let full = lay_full(registers, staging.stages)?;
    let sites = lay_sites(alloc, registers, channels, nodes)?;
    let state_copies = lay_copies(alloc, registers, &proc.state, 0, reads.state)?;
    let copies = lay_nodes(
        alloc,
        registers,
        nodes,
        staging.stage,
        reads.nodes.as_slice(),
    )?;
    Ok(registers_from(state, full, sites, state_copies, copies))
}

/// The registers of a proc, by the first ones of each kind.
fn registers_from(
    state: u32,
    full: u32,
    sites: Vec<SiteRegisters>,
    state_copies: u32,
    copies: Vec<u32>,
) -> ProcRegisters
    ensures are { result ≡ record { state = state; full = full; sites = sites.items; state_copies = state_copies; copies = copies.items } }
    ensures few { result.state_copies < 2 ^ 32 }
{
    ProcRegisters {
        state,
        full,
        sites: Seq::from_vec(sites),
        state_copies,
        copies: Seq::from_vec(copies),
    }
}
