//! The FIFOs of inner channels.

ghost use Rattle.std.specs.Prelude.{◌≡◌, ◌++◌, length, get_or, min, IfOk, OnOk};
ghost use Rattle.block_build.specs.Netlist.Added.{next_number, AddsWires};
ghost use Rattle.block_build.specs.Netlist.Registers.{next_register, Lays};
ghost use Rattle.block_verilog.specs.Each.{EachFrom};
ghost use Rattle.block_verilog.specs.Ports.{flat_bits};
ghost use Rattle.block_verilog.specs.Queues.{fifo_registers, fifo_by, all_registers, fifos_from, input_view as at_input, output_view as at_output, IsShown, ViewIs, ShownBy, ViewedBy, IsViewOf, IsViewed, next_of, GoesBy, AreShown, FifosGo};

use crate::ports::number_behind;
use block_build::netlist::fifos::{ChannelEnds, ChannelView, Fifo};
use block_build::netlist::literals::zeros;
use block_build::netlist::registers::{RegisterList, lay_fifo};
use block_build::netlist::wires::WireList;
use ir_tree::node_types::width_of;
use ir_tree::{Channel, Ends};
use std::alloc::{AllocError, Global};
use vlog_tree::{Atom, Signal};
use xb_value::at;

/// The depth of the FIFO of a channel, 0 where none is given.
pub fn depth_at(depths: &[u32], channel: usize) -> u32
    ensures { result ≡ get_or depths.now channel 0 }
{
    match at(depths, channel) {
        Some(depth) => *depth,
        None => 0,
    }
}

/// Lays out the registers of a channel's FIFO of so many words, if it is an inner channel.
fn lay_channel(
    registers: &mut RegisterList,
    channel: &Channel,
    depth: u32,
) -> Result<Option<Fifo>, AllocError>
    ensures fifo { IfOk result (λ fifo. fifo ≡ fifo_by channel.now.ends depth (flat_bits channel.now) (next_register registers.old)) }
    ensures lays { OnOk result (Lays registers.old registers.new (fifo_registers channel.now.ends depth (flat_bits channel.now))) }
{
    match channel.ends {
        Ends::Input => Ok(None),
        Ends::Output => Ok(None),
        Ends::Inner(_) => {
            let fifo = lay_fifo(registers, depth, width_of(&channel.ty))?;
            Ok(Some(fifo))
        }
    }
}

/// Lays out the registers of all FIFOs. What is found of each channel: its FIFO, if it is an inner one.
pub fn lay_fifos(
    alloc: Global,
    registers: &mut RegisterList,
    channels: &[Channel],
    depths: &[u32],
) -> Result<Vec<Option<Fifo>>, AllocError>
    ensures fifos { IfOk result (λ fifos. fifos.items ≡ fifos_from depths.now 0 (next_register registers.old) channels.now) }
    ensures lays { OnOk result (Lays registers.old registers.new (all_registers depths.now 0 channels.now)) }
{
    let mut fifos = Vec::new(alloc);
    'channels: for i in 0..channels.len() {
        let depth = depth_at(depths, i);
        let fifo = lay_channel(registers, &channels[i], depth)?;
        fifos.push(fifo)?;
    }
    Ok(fifos)
}

/// What a proc finds at an input.
fn input_view(port: u32) -> Result<ChannelView, AllocError>
    ensures { IfOk result (λ view. view ≡ at_input port) }
{
    let valid = number_behind(port, 1)?;
    Ok(ChannelView {
        valid: Atom::Signal(Signal(valid)),
        word: Atom::Signal(Signal(port)),
        room: zeros(1),
    })
}

/// What it finds at an output, of so many bits.
fn output_view(port: u32, width: u64) -> Result<ChannelView, AllocError>
    ensures { IfOk result (λ view. view ≡ at_output port width) }
{
    let ready = number_behind(port, 2)?;
    Ok(ChannelView {
        valid: zeros(1),
        word: zeros(width),
        room: Atom::Signal(Signal(ready)),
    })
}

/// What it finds at an inner channel, whose FIFO this is.
fn inner_view(wires: &mut WireList, fifo: Option<Fifo>) -> Result<ChannelView, AllocError>
    ensures is { IfOk result (IsShown fifo) }
    ensures wired { IfOk result (λ view. AddsWires wires.old wires.new (λ v. ShownBy v fifo view)) }
{
    match fifo {
        Some(fifo) => fifo.view(wires),
        None => output_view(0, 1),
    }
}

/// What a proc finds at a channel, whose first port has this number.
fn view(
    wires: &mut WireList,
    channel: &Channel,
    port: u32,
    fifo: Option<Fifo>,
) -> Result<ChannelView, AllocError>
    ensures is { IfOk result (ViewIs channel.now.ends port (flat_bits channel.now) fifo) }
    ensures wired { IfOk result (λ view. AddsWires wires.old wires.new (λ v. ViewedBy v channel.now.ends fifo view)) }
{
    match channel.ends {
        Ends::Input => input_view(port),
        Ends::Output => output_view(port, width_of(&channel.ty)),
        Ends::Inner(_) => inner_view(wires, fifo),
    }
}

/// What procs find at all channels, whose first ports have these numbers.
pub fn views(
    alloc: Global,
    wires: &mut WireList,
    channels: &[Channel],
    ports: &[u32],
    fifos: &[Option<Fifo>],
) -> Result<Vec<ChannelView>, AllocError>
    ensures count { IfOk result (λ views. length views.items ≡ min (min (length channels.now) (length ports.now)) (length fifos.now)) }
    ensures are { IfOk result (λ views. EachFrom (IsViewOf channels.now ports.now fifos.now) 0 views.items) }
    ensures wired { IfOk result (λ views. AddsWires wires.old wires.new (λ v. EachFrom (IsViewed v channels.now fifos.now) 0 views.items)) }
{
    let mut views = Vec::new(alloc);
    let count = channels.len().min(ports.len()).min(fifos.len());
    'channels: for i in 0..count {
        let view = view(wires, &channels[i], ports[i], fifos[i])?;
        views.push(view)?;
    }
    Ok(views)
}

/// What the registers of a FIFO hold next, if there is one.
fn fifo_next(
    wires: &mut WireList,
    nexts: &mut Vec<Atom>,
    fifo: Option<Fifo>,
    view: ChannelView,
    end: ChannelEnds,
) -> Result<(), AllocError>
    ensures nexts { OnOk result (nexts.new.items ≡ nexts.old.items ++ next_of fifo end (next_number wires.old)) }
    ensures wired { OnOk result (IsShown fifo view → AddsWires wires.old wires.new (λ v. GoesBy v fifo view end (next_number wires.old))) }
{
    match fifo {
        Some(fifo) => fifo.go_on(wires, nexts, view, end),
        None => Ok(()),
    }
}

/// What the registers of all FIFOs hold next, in their order, where this is found at channels and stands at their ends.
pub fn fifo_nexts(
    wires: &mut WireList,
    nexts: &mut Vec<Atom>,
    fifos: &[Option<Fifo>],
    views: &[ChannelView],
    ends: &[ChannelEnds],
) -> Result<(), AllocError>
    ensures { OnOk result (AreShown fifos.now views.now → FifosGo wires.old wires.new fifos.now views.now ends.now nexts.old.items nexts.new.items) }
{
    let count = fifos.len().min(views.len()).min(ends.len());
    'channels: for i in 0..count {
        fifo_next(wires, nexts, fifos[i], views[i], ends[i])?;
    }
    Ok(())
}
