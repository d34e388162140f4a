//! The wires of a scheduled proc, and of what its registers hold next.

ghost use Rattle.std.specs.Prelude.{◌≡◌, ◌-◌, ◌++◌, length, List, IfOk, OnOk};
ghost use Rattle.ir_tree.specs.declared.package.Channel.{Channel as SomeChannel};
ghost use Rattle.ir_tree.specs.Types.{ty_of};
ghost use Rattle.block_build.specs.Netlist.Added.{next_number, AddsWires, Puts};
ghost use Rattle.block_build.specs.Netlist.Choices.{choice_wires};
ghost use Rattle.block_build.specs.Netlist.Leaves.{leaf_widths, nets};
ghost use Rattle.block_build.specs.Netlist.Nexts.{move_of, copies_wires};
ghost use Rattle.block_build.specs.Netlist.Places.{shown_at};
ghost use Rattle.block_verilog.specs.Pipelines.Pipelines.{scheduled, StageNumbers, HasStages, ProcDriven, NextNumbers, NextsDriven, next_nets};

use crate::pipelines::layout::ProcLayout;
use crate::signals::layout::Staging;
use crate::signals::procs::{NodeWires, node_wires};
use block_build::netlist::choices::choose;
use block_build::netlist::fifos::ChannelView;
use block_build::netlist::leaves::widths_of;
use block_build::netlist::nexts::{copy_nexts, move_at, node_nexts, site_nexts};
use block_build::netlist::places::{Place, Places};
use block_build::netlist::stages::{StageWires, full_nexts, stage_wires};
use block_build::netlist::wires::WireList;
use ir_tree::{Channel, IrType, Proc};
use std::alloc::{AllocError, Global};
use vlog_tree::Atom;

/// The wires of a proc's nodes, and of its stages.
#[derive(Drop)]
pub struct ProcWires {
    pub nodes: NodeWires,
    pub stages: StageWires,
}

/// The wires of a proc whose registers are laid out and which finds this at its channels, where `run` says that there is no reset.
pub fn proc_wires(
    alloc: Global,
    wires: &mut WireList,
    run: Atom,
    channels: &[Channel],
    proc: &Proc,
    staging: Staging,
    layout: &ProcLayout,
    views: &[ChannelView],
) -> Result<ProcWires, AllocError>
    ensures { IfOk result (λ made. (at : StageNumbers) × HasStages (scheduled channels.now proc.now staging.entry) layout.now made at ×
        AddsWires wires.old wires.new (λ v. ProcDriven v run (scheduled channels.now proc.now staging.entry) layout.now views.now made at)) }
{
    let registers = &layout.registers;
    let nodes = node_wires(alloc, wires, channels, proc, staging, registers, views)?;
    let sites = nodes.sites.as_slice();
    let stages = stage_wires(alloc, wires, run, registers.full, staging.stages, sites)?;
    Ok(ProcWires { nodes, stages })
}

/// The wires of what the registers of a proc hold next. Their signals are put behind those that are there, in the order of the registers.
pub fn proc_nexts(
    alloc: Global,
    wires: &mut WireList,
    nexts: &mut Vec<Atom>,
    proc: &Proc,
    staging: Staging,
    layout: &ProcLayout,
    made: &ProcWires,
) -> Result<(), AllocError>
    ensures { OnOk result ((nums : NextNumbers) × ((channels : List SomeChannel) (at : StageNumbers) → let s = scheduled channels proc.now staging.entry in
        HasStages s layout.now made.now at → (nexts.new.items ≡ nexts.old.items ++ next_nets s layout.now made.now at nums) ×
        AddsWires wires.old wires.new (λ v. NextsDriven v s layout.now made.now at nums))) }
{
    let places = &made.nodes.places;
    let moves = made.stages.moves.as_slice();
    let comes = move_at(moves, staging.last);
    state_nexts(alloc, wires, nexts, proc, staging.last, places, comes)?;
    full_nexts(wires, nexts, layout.registers.full, comes, moves)?;
    let sites = made.nodes.sites.as_slice();
    let handshakes = made.stages.handshakes.as_slice();
    site_nexts(wires, nexts, sites, handshakes, moves)?;
    state_copies(
        alloc,
        wires,
        nexts,
        &proc.state,
        &places.state,
        layout.reads.state,
        moves,
    )?;
    let nodes = proc.nodes.as_slice();
    let lasts = layout.reads.nodes.as_slice();
    node_nexts(
        alloc,
        wires,
        nexts,
        nodes,
        places.nodes.as_slice(),
        lasts,
        moves,
    )
}

/// The state: the next one where an activation gives the turn back, else the one that there is.
fn state_nexts(
    alloc: Global,
    wires: &mut WireList,
    nexts: &mut Vec<Atom>,
    proc: &Proc,
    last: u32,
    places: &Places,
    comes: Atom,
) -> Result<(), AllocError>
    ensures nexts { OnOk result (nexts.new.items ≡ nexts.old.items ++ nets (next_number wires.old) (length (choice_wires comes (leaf_widths (ty_of proc.now.state)) (shown_at places.now last proc.now.next) places.now.state.own))) }
    ensures puts { OnOk result (Puts wires.old wires.new (choice_wires comes (leaf_widths (ty_of proc.now.state)) (shown_at places.now last proc.now.next) places.now.state.own)) }
{
    let widths = widths_of(alloc, &proc.state)?;
    let next = places.operand(alloc, last, proc.next)?;
    let held = places.state.own.as_slice();
    choose(
        wires,
        comes,
        widths.as_slice(),
        next.as_slice(),
        held,
        nexts,
    )
}

/// The copies of the state, up to the stage in which it is last read.
fn state_copies(
    alloc: Global,
    wires: &mut WireList,
    nexts: &mut Vec<Atom>,
    state: &IrType,
    place: &Place,
    last: u32,
    moves: &[Atom],
) -> Result<(), AllocError>
    ensures nexts { OnOk result (nexts.new.items ≡ nexts.old.items ++ nets (next_number wires.old) (length (copies_wires (leaf_widths (ty_of state.now)) place.now moves.now place.now.stage (last - place.now.stage)))) }
    ensures puts { OnOk result (Puts wires.old wires.new (copies_wires (leaf_widths (ty_of state.now)) place.now moves.now place.now.stage (last - place.now.stage))) }
{
    let widths = widths_of(alloc, state)?;
    copy_nexts(alloc, wires, nexts, widths.as_slice(), place, last, moves)
}
