//! What the registers of a pipeline hold next, in their order.

ghost use Rattle.std.specs.Prelude.{◌≡◌, ◌<◌, ◌-◌, ◌^◌, ◌++◌, [], ◌∷◌, suc, length, IfOk, OnOk};
ghost use Rattle.ir_tree.specs.Types.{ty_of};
ghost use Rattle.block_build.specs.Netlist.Added.{next_number, Puts};
ghost use Rattle.block_build.specs.Netlist.Choices.{choice_wires};
ghost use Rattle.block_build.specs.Netlist.Gates.{net};
ghost use Rattle.block_build.specs.Netlist.Leaves.{leaf_widths, nets};
ghost use Rattle.block_build.specs.Netlist.Nexts.{move_of, done_next_wires, kept_wires, kept_nets, site_next_wires, site_next_nets, sites_next_wires, sites_next_nets, copies_wires, node_copies, nodes_copies, is_literal as has_value};
ghost use Rattle.block_build.specs.Netlist.Places.{place_at};

use crate::netlist::choices::choose;
use crate::netlist::leaves::widths_of;
use crate::netlist::literals::zeros;
use crate::netlist::places::Place;
use crate::netlist::sites::{Handshake, Site};
use crate::netlist::wires::WireList;
use ir_tree::{Attributes, Node};
use std::alloc::{AllocError, Global};
use vlog_tree::Atom;

/// Whether a stage moves. One that isn't there doesn't.
pub fn move_at(moves: &[Atom], stage: u32) -> Atom
    ensures { result ≡ move_of moves.now stage }
{
    match moves.get(stage as usize) {
        Some(moves) => *moves,
        None => zeros(1),
    }
}

/// What the registers of all sites hold next: of each its done bit, and of a receive the word that it keeps.
pub fn site_nexts(
    wires: &mut WireList,
    nexts: &mut Vec<Atom>,
    sites: &[Site],
    handshakes: &[Handshake],
    moves: &[Atom],
) -> Result<(), AllocError>
    ensures nexts { OnOk result (nexts.new.items ≡ nexts.old.items ++ sites_next_nets (next_number wires.old) sites.now handshakes.now) }
    ensures puts { OnOk result (Puts wires.old wires.new (sites_next_wires (next_number wires.old) moves.now sites.now handshakes.now)) }
{
    let count = sites.len().min(handshakes.len());
    'sites: for i in 0..count {
        let site = sites[i];
        let handshake = handshakes[i];
        site_next(
            wires,
            nexts,
            site,
            handshake.goes,
            move_at(moves, site.stage),
        )?;
    }
    Ok(())
}

/// Those of a site that goes or not, whose stage moves or not.
fn site_next(
    wires: &mut WireList,
    nexts: &mut Vec<Atom>,
    site: Site,
    goes: Atom,
    moves: Atom,
) -> Result<(), AllocError>
    ensures nexts { OnOk result (nexts.new.items ≡ nexts.old.items ++ site_next_nets (next_number wires.old) site) }
    ensures puts { OnOk result (Puts wires.old wires.new (site_next_wires (next_number wires.old) site goes moves)) }
{
    let done = done_next(wires, site.done, goes, moves)?;
    nexts.push(done)?;
    kept_next(wires, nexts, site, goes)
}

/// Whether a site is done next.
fn done_next(wires: &mut WireList, done: Atom, goes: Atom, moves: Atom) -> Result<Atom, AllocError>
    ensures signal { IfOk result (λ next. next ≡ net (suc (suc (next_number wires.old)))) }
    ensures puts { OnOk result (Puts wires.old wires.new (done_next_wires (next_number wires.old) done goes moves)) }
{
    let acts = wires.either(done, goes)?;
    let stays = wires.inverse(moves)?;
    wires.both(acts, stays)
}

/// The word that a receive keeps next.
fn kept_next(
    wires: &mut WireList,
    nexts: &mut Vec<Atom>,
    site: Site,
    goes: Atom,
) -> Result<(), AllocError>
    ensures nexts { OnOk result (nexts.new.items ≡ nexts.old.items ++ kept_nets (next_number wires.old) site) }
    ensures puts { OnOk result (Puts wires.old wires.new (kept_wires site goes)) }
{
    if site.sends {
        Ok(())
    } else {
        let kept = wires.choice(site.width, goes, site.word, site.kept)?;
        nexts.push(kept)?;
        Ok(())
    }
}

/// The copies of a value with numbers of these widths, up to the stage in which it is last read.
pub fn copy_nexts(
    alloc: Global,
    wires: &mut WireList,
    nexts: &mut Vec<Atom>,
    widths: &[u64],
    place: &Place,
    last: u32,
    moves: &[Atom],
) -> Result<(), AllocError>
    ensures nexts { OnOk result (nexts.new.items ≡ nexts.old.items ++ nets (next_number wires.old) (length (copies_wires widths.now place.now moves.now place.now.stage (last - place.now.stage)))) }
    ensures puts { OnOk result (Puts wires.old wires.new (copies_wires widths.now place.now moves.now place.now.stage (last - place.now.stage))) }
{
    'stages: for stage in place.stage..last {
        copy_next(
            alloc,
            wires,
            nexts,
            widths,
            place,
            stage,
            move_at(moves, stage),
        )?;
    }
    Ok(())
}

/// The copy behind a stage that moves or not.
fn copy_next(
    alloc: Global,
    wires: &mut WireList,
    nexts: &mut Vec<Atom>,
    widths: &[u64],
    place: &Place,
    stage: u32,
    moves: Atom,
) -> Result<(), AllocError>
    requires { suc stage < 2 ^ 32 }
    ensures nexts { OnOk result (nexts.new.items ≡ nexts.old.items ++ nets (next_number wires.old) (length (choice_wires moves widths.now (place_at stage place.now) (place_at (suc stage) place.now)))) }
    ensures puts { OnOk result (Puts wires.old wires.new (choice_wires moves widths.now (place_at stage place.now) (place_at (suc stage) place.now))) }
{
    let source = place.at(alloc, stage)?;
    let held = place.at(alloc, stage + 1)?;
    choose(
        wires,
        moves,
        widths,
        source.as_slice(),
        held.as_slice(),
        nexts,
    )
}

/// The copies of the values of all nodes.
pub fn node_nexts(
    alloc: Global,
    wires: &mut WireList,
    nexts: &mut Vec<Atom>,
    nodes: &[Node],
    places: &[Place],
    lasts: &[u32],
    moves: &[Atom],
) -> Result<(), AllocError>
    ensures nexts { OnOk result (nexts.new.items ≡ nexts.old.items ++ nets (next_number wires.old) (length (nodes_copies moves.now nodes.now places.now lasts.now))) }
    ensures puts { OnOk result (Puts wires.old wires.new (nodes_copies moves.now nodes.now places.now lasts.now)) }
{
    let count = nodes.len().min(places.len()).min(lasts.len());
    'nodes: for i in 0..count {
        node_next(alloc, wires, nexts, &nodes[i], &places[i], lasts[i], moves)?;
    }
    Ok(())
}

/// Those of a node's value, unless it is a literal.
fn node_next(
    alloc: Global,
    wires: &mut WireList,
    nexts: &mut Vec<Atom>,
    node: &Node,
    place: &Place,
    last: u32,
    moves: &[Atom],
) -> Result<(), AllocError>
    ensures nexts { OnOk result (nexts.new.items ≡ nexts.old.items ++ nets (next_number wires.old) (length (node_copies moves.now node.now place.now last))) }
    ensures puts { OnOk result (Puts wires.old wires.new (node_copies moves.now node.now place.now last)) }
{
    if is_literal(node) {
        Ok(())
    } else {
        let widths = widths_of(alloc, &node.ty)?;
        copy_nexts(alloc, wires, nexts, widths.as_slice(), place, last, moves)
    }
}

/// Whether the node is a literal, whose value is the same in all stages.
pub fn is_literal(node: &Node) -> bool
    ensures { result ≡ has_value node.now.attributes }
{
    matches!(node.attributes, Attributes::Value(_))
}
