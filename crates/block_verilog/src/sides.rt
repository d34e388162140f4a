//! What stands at the ends of channels.

ghost use Rattle.std.specs.Prelude.{◌≡◌, [], length, slice_get, IfOk};
ghost use Rattle.std.specs.List.{list_any};
ghost use Rattle.ir_tree.specs.Activations.{sites_by};
ghost use Rattle.ir_tree.specs.NodeValues.{role_of};
ghost use Rattle.block_build.specs.Netlist.Added.{AddsWires};
ghost use Rattle.block_verilog.specs.Each.{EachFrom};
ghost use Rattle.block_verilog.specs.Ports.{flat_bits};
ghost use Rattle.block_verilog.specs.Sides.{stands_at, has_site, proc_at as index_of_proc, SomeAt, WordAt, EndsAt, IsEnd};

use crate::pipelines::pipelines::ProcWires;
use block_build::netlist::ends::{Sites, asserted_word, some_asserted};
use block_build::netlist::fifos::ChannelEnds;
use block_build::netlist::literals::zeros;
use block_build::netlist::wires::WireList;
use ir_tree::node_types::width_of;
use ir_tree::{Channel, Node, Proc, Role};
use std::alloc::{AllocError, Global};
use vlog_tree::Atom;
use xb_value::at;

/// Whether a node is a site at this end of a channel.
fn node_stands_at(node: &Node, channel: u32, sends: bool) -> bool
    ensures { result ≡ list_any (stands_at sends channel) (sites_by (role_of node.now) []) }
{
    match node.role() {
        Role::Pure => false,
        Role::Receive(_, own) => !sends && own == channel,
        Role::Send(_, own) => sends && own == channel,
    }
}

/// Whether a proc has a site there.
fn stands(proc: &Proc, channel: u32, sends: bool) -> bool
    ensures { result ≡ has_site sends channel proc.now }
{
    let nodes = proc.nodes.as_slice();
    'nodes: for i in 0..nodes.len() {
        if node_stands_at(&nodes[i], channel, sends) {
            return true;
        }
    }
    false
}

/// The index of the proc that has, or the number of procs.
fn proc_at(procs: &[Proc], channel: u32, sends: bool) -> usize
    ensures { result ≡ index_of_proc procs.now sends channel }
{
    'procs: for i in 0..procs.len() {
        if stands(&procs[i], channel, sends) {
            return i;
        }
    }
    procs.len()
}

/// The sites of a proc, with the wires of their handshakes.
fn sites_of(made: &ProcWires) -> Sites<'_>
    ensures sites { result.sites.now ≡ made.now.nodes.sites }
    ensures shaken { result.shaken.now ≡ made.now.stages.handshakes.items }
{
    Sites {
        sites: made.nodes.sites.as_slice(),
        shaken: made.stages.handshakes.as_slice(),
    }
}

/// Whether a site of the proc of an index is asserted at this end of a channel.
fn some_at(
    wires: &mut WireList,
    made: &[ProcWires],
    proc: usize,
    channel: u32,
    sends: bool,
) -> Result<Atom, AllocError>
    ensures { IfOk result (λ signal. AddsWires wires.old wires.new (λ v. SomeAt v (slice_get made.now proc) channel sends signal)) }
{
    match at(made, proc) {
        Some(made) => some_asserted(wires, sites_of(made), channel, sends),
        None => Ok(zeros(1)),
    }
}

/// The word of the one that is, of so many bits.
fn word_at(
    wires: &mut WireList,
    made: &[ProcWires],
    proc: usize,
    channel: u32,
    width: u64,
) -> Result<Atom, AllocError>
    ensures { IfOk result (λ signal. AddsWires wires.old wires.new (λ v. WordAt v (slice_get made.now proc) channel width signal)) }
{
    match at(made, proc) {
        Some(made) => asserted_word(wires, sites_of(made), channel, width),
        None => Ok(zeros(width)),
    }
}

/// What stands at the ends of a channel, which these procs read and write.
fn channel_ends(
    wires: &mut WireList,
    made: &[ProcWires],
    reader: usize,
    writer: usize,
    channel: u32,
    width: u64,
) -> Result<ChannelEnds, AllocError>
    ensures { IfOk result (λ end. AddsWires wires.old wires.new (λ v. EndsAt v made.now reader writer channel width end)) }
{
    let ready = some_at(wires, made, reader, channel, false)?;
    let offered = some_at(wires, made, writer, channel, true)?;
    let word = word_at(wires, made, writer, channel, width)?;
    Ok(ChannelEnds {
        ready,
        offered,
        word,
    })
}

/// A number of a channel. There are fewer than 2^32.
fn number_of(channel: usize) -> Result<u32, AllocError>
    ensures { IfOk result (λ number. number ≡ channel) }
{
    if (channel as u64) < 0xffff_ffff {
        Ok(channel as u32)
    } else {
        Err(AllocError)
    }
}

/// What stands at the ends of all channels of these procs.
pub fn all_ends(
    alloc: Global,
    wires: &mut WireList,
    channels: &[Channel],
    procs: &[Proc],
    made: &[ProcWires],
) -> Result<Vec<ChannelEnds>, AllocError>
    ensures count { IfOk result (λ ends. length ends.items ≡ length channels.now) }
    ensures wired { IfOk result (λ ends. AddsWires wires.old wires.new (λ v. EachFrom (IsEnd v procs.now made.now channels.now) 0 ends.items)) }
{
    let mut ends = Vec::new(alloc);
    'channels: for i in 0..channels.len() {
        let channel = number_of(i)?;
        let reader = proc_at(procs, channel, false);
        let writer = proc_at(procs, channel, true);
        let width = width_of(&channels[i].ty);
        let end = channel_ends(wires, made, reader, writer, channel, width)?;
        ends.push(end)?;
    }
    Ok(ends)
}
