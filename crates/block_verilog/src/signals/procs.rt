//! The signals of a proc's nodes, and its sites.

ghost use Rattle.std.specs.Prelude.{◌≡◌, ◌∷◌, [], length, IfOk, OnOk};
ghost use Rattle.ir_tree.specs.NodeValues.{role_of};
ghost use Rattle.ir_tree.specs.Types.{ty_of};
ghost use Rattle.vlog_tree.specs.declared.expression.Atom.TheVariants as atom;
ghost use Rattle.block_build.specs.Netlist.Added.{next_number, AddsWires, Puts};
ghost use Rattle.block_build.specs.Netlist.Gates.{choice_gate};
ghost use Rattle.block_build.specs.Netlist.Leaves.{leaf_widths};
ghost use Rattle.block_verilog.specs.Signals.Nodes.{nothing_there, channel_view, receive_site_of, send_site_of, with_node, PurePut, ReceivePut, SendPut, NodePut, NodesMade};
ghost use Rattle.block_verilog.specs.Signals.Registers.{state_place as place_of_state};

use crate::signals::layout::{ProcRegisters, Staging};
use block_build::netlist::fifos::ChannelView;
use block_build::netlist::layout::{SiteRegisters, channel_width};
use block_build::netlist::leaves::{push_signals, widths_of};
use block_build::netlist::literals::zeros;
use block_build::netlist::nexts::is_literal;
use block_build::netlist::nodes::pure;
use block_build::netlist::places::{Place, Places};
use block_build::netlist::scopes::Scope;
use block_build::netlist::sites::Site;
use block_build::netlist::wires::WireList;
use block_build::netlist::words::{on_of, received, sent};
use ir_tree::{Channel, IrType, Node, Operand, Proc, Role};
use std::alloc::{AllocError, Global};
use vlog_tree::{Atom, Expr, Signal, Simple};
use xb_value::{Seq, at};

/// Where the values of a proc stand, and its sites in line order.
#[derive(Drop)]
pub struct NodeWires {
    pub places: Places,
    pub sites: Seq<Site>,
}

/// The signals of a node, and if it is a site those of that.
#[derive(Drop)]
pub struct OwnSignals {
    pub signals: Seq<Atom>,
    pub site: Option<Site>,
}

/// The view of a channel that isn't there.
fn no_view() -> ChannelView
    ensures { result ≡ nothing_there }
{
    let zero = zeros(1);
    ChannelView {
        valid: zero,
        word: zero,
        room: zero,
    }
}

/// What a proc finds at a channel.
fn view_of(views: &[ChannelView], channel: u32) -> ChannelView
    ensures { result ≡ channel_view views.now channel }
{
    match at(views, channel as usize) {
        Some(view) => *view,
        None => no_view(),
    }
}

/// The signals of a receive's site, on whose own wire the word stands.
fn receive_site(
    stage: u32,
    registers: SiteRegisters,
    view: ChannelView,
    channel: u32,
    width: u64,
    on: Atom,
    has: Signal,
) -> Site
    ensures { result ≡ receive_site_of stage registers view channel width on has }
{
    Site {
        channel,
        sends: false,
        stage,
        on,
        done: Atom::Signal(registers.done),
        kept: Atom::Signal(registers.kept),
        partner: view.valid,
        word: view.word,
        width,
        own: Atom::Signal(has),
    }
}

/// Those of a send's, which sends this word.
fn send_site(
    stage: u32,
    registers: SiteRegisters,
    view: ChannelView,
    channel: u32,
    width: u64,
    on: Atom,
    word: Atom,
) -> Site
    ensures { result ≡ send_site_of stage registers view channel width on word }
{
    Site {
        channel,
        sends: true,
        stage,
        on,
        done: Atom::Signal(registers.done),
        kept: Atom::Signal(registers.kept),
        partner: view.room,
        word: view.word,
        width,
        own: word,
    }
}

/// The word that a receive has: the one that it keeps where it is done, else its channel's.
fn has_word(
    wires: &mut WireList,
    width: u64,
    registers: SiteRegisters,
    view: ChannelView,
) -> Result<Signal, AllocError>
    ensures number { IfOk result (λ has. has.0 ≡ next_number wires.old) }
    ensures puts { OnOk result (Puts wires.old wires.new (choice_gate width (atom.Signal registers.done) (atom.Signal registers.kept) view.word ∷ [])) }
{
    let done = Atom::Signal(registers.done);
    let kept = Atom::Signal(registers.kept);
    wires.wire(
        width,
        Expr::Choice(done, Simple::Atom(kept), Simple::Atom(view.word)),
    )
}

/// The signals of a node that is no site.
fn pure_signals(
    alloc: Global,
    wires: &mut WireList,
    scope: Scope,
    node: &Node,
) -> Result<OwnSignals, AllocError>
    ensures { IfOk result (λ own. AddsWires wires.old wires.new (λ v. PurePut v scope.entry node.now own)) }
{
    let signals = pure(alloc, wires, scope, node)?;
    Ok(OwnSignals {
        signals,
        site: None,
    })
}

/// Those of a receive.
fn receive_signals(
    alloc: Global,
    wires: &mut WireList,
    scope: Scope,
    registers: SiteRegisters,
    views: &[ChannelView],
    predicate: Option<Operand>,
    channel: u32,
) -> Result<OwnSignals, AllocError>
    ensures { IfOk result (λ own. AddsWires wires.old wires.new (λ v. ReceivePut v scope.entry registers (channel_view views.now channel) predicate channel own)) }
{
    let on = on_of(alloc, scope, predicate)?;
    let view = view_of(views, channel);
    let width = channel_width(scope.channels, channel);
    let has = has_word(wires, width, registers, view)?;
    let signals = received(alloc, wires, scope.channels, channel, has, on)?;
    let site = receive_site(scope.stage, registers, view, channel, width, on, has);
    Ok(OwnSignals {
        signals,
        site: Some(site),
    })
}

/// Those of a send.
fn send_signals(
    alloc: Global,
    wires: &mut WireList,
    scope: Scope,
    registers: SiteRegisters,
    views: &[ChannelView],
    operands: &[Operand],
    predicate: Option<Operand>,
    channel: u32,
) -> Result<OwnSignals, AllocError>
    ensures { IfOk result (λ own. AddsWires wires.old wires.new (λ v. SendPut v scope.entry registers (channel_view views.now channel) operands.now predicate channel own)) }
{
    let on = on_of(alloc, scope, predicate)?;
    let view = view_of(views, channel);
    let width = channel_width(scope.channels, channel);
    let word = sent(alloc, wires, scope, operands, width)?;
    let site = send_site(scope.stage, registers, view, channel, width, on, word);
    Ok(OwnSignals {
        signals: Seq::new(alloc),
        site: Some(site),
    })
}

/// The signals of a node, as many as the numbers in its value.
fn own_signals(
    alloc: Global,
    wires: &mut WireList,
    scope: Scope,
    registers: SiteRegisters,
    views: &[ChannelView],
    node: &Node,
) -> Result<OwnSignals, AllocError>
    ensures put { IfOk result (λ own. AddsWires wires.old wires.new (λ v. NodePut v scope.entry registers views.now node.now own (role_of node.now))) }
    ensures count { IfOk result (λ own. length own.signals ≡ length (leaf_widths (ty_of node.now.ty))) }
{
    let count = widths_of(alloc, &node.ty)?.len();
    let own = role_signals(alloc, wires, scope, registers, views, node)?;
    counted(own, count)
}

/// The signals, where there are so many. Those of a node of a verified proc always are as many as the numbers in its value.
fn counted(own: OwnSignals, count: usize) -> Result<OwnSignals, AllocError>
    ensures same { IfOk result (λ counted. counted ≡ own) }
    ensures count { IfOk result (λ counted. length counted.signals ≡ count) }
{
    if own.signals.len() == count {
        Ok(own)
    } else {
        Err(AllocError)
    }
}

/// The signals of a node, by what it is to the outside.
fn role_signals(
    alloc: Global,
    wires: &mut WireList,
    scope: Scope,
    registers: SiteRegisters,
    views: &[ChannelView],
    node: &Node,
) -> Result<OwnSignals, AllocError>
    ensures { IfOk result (λ own. AddsWires wires.old wires.new (λ v. NodePut v scope.entry registers views.now node.now own (role_of node.now))) }
{
    match node.role() {
        Role::Pure => pure_signals(alloc, wires, scope, node),
        Role::Receive(predicate, channel) => {
            receive_signals(alloc, wires, scope, registers, views, predicate, channel)
        }
        Role::Send(predicate, channel) => {
            let operands = node.operands.as_slice();
            send_signals(
                alloc, wires, scope, registers, views, operands, predicate, channel,
            )
        }
    }
}

/// Where the state stands.
fn state_place(
    alloc: Global,
    state: &IrType,
    registers: &ProcRegisters,
) -> Result<Place, AllocError>
    ensures { IfOk result (λ place. place ≡ place_of_state state.now registers.now) }
{
    let widths = widths_of(alloc, state)?;
    let mut own = Vec::new(alloc);
    push_signals(registers.state, widths.len(), &mut own)?;
    Ok(Place {
        stage: 0,
        own: Seq::from_vec(own),
        copies: registers.state_copies,
        constant: false,
    })
}

/// Keeps the place of a node, and its site.
fn keep(
    made: &mut NodeWires,
    own: OwnSignals,
    stage: u32,
    copies: u32,
    constant: bool,
) -> Result<(), AllocError>
    ensures { OnOk result (made.new ≡ with_node made.old own stage copies constant) }
{
    let OwnSignals { signals, site } = own;
    made.places.nodes.push(Place {
        stage,
        own: signals,
        copies,
        constant,
    })?;
    match site {
        Some(site) => made.sites.push(site),
        None => Ok(()),
    }
}

/// The wires of all nodes of a proc, in line order. Each reads registers and nodes before it.
pub fn node_wires(
    alloc: Global,
    wires: &mut WireList,
    channels: &[Channel],
    proc: &Proc,
    staging: Staging,
    registers: &ProcRegisters,
    views: &[ChannelView],
) -> Result<NodeWires, AllocError>
    ensures { IfOk result (λ made. AddsWires wires.old wires.new (λ v. NodesMade v channels.now proc.now staging.entry.stage.now registers.now views.now made)) }
{
    let state = state_place(alloc, &proc.state, registers)?;
    let mut made = NodeWires {
        places: Places {
            state,
            nodes: Seq::new(alloc),
        },
        sites: Seq::new(alloc),
    };
    let nodes = proc.nodes.as_slice();
    'nodes: for i in 0..nodes.len() {
        let stage = staging.of(i);
        let scope = Scope {
            channels,
            state: &proc.state,
            before: &nodes[..i],
            places: &made.places,
            stage,
        };
        let node = &nodes[i];
        let site = registers.of_site(made.sites.len());
        let own = own_signals(alloc, wires, scope, site, views, node)?;
        keep(
            &mut made,
            own,
            stage,
            registers.copies_of(i),
            is_literal(node),
        )?;
    }
    Ok(made)
}
