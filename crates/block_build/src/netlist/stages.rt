//! The wires of a pipeline's stages.

ghost use Rattle.std.specs.Prelude.{◌≡◌, ◌+◌, ◌*◌, ◌++◌, [], ◌∷◌, ℕ, suc, List, length, take, drop, map, Some, IfOk, OnOk};
ghost use Rattle.block_build.specs.Netlist.Added.{next_number, AddsWires, Puts};
ghost use Rattle.block_build.specs.Netlist.Ends.{all_sites};
ghost use Rattle.block_build.specs.Netlist.Gates.{net};
ghost use Rattle.vlog_tree.specs.Value.{Values};
ghost use Rattle.block_build.specs.declared.netlist.sites.Site.{Site as SiteSignals};
ghost use Rattle.block_build.specs.Netlist.Nexts.{sites_next_wires, done_at};
ghost use Rattle.block_build.specs.Netlist.Stages.{StageNets, keep_wires, AreStages, AreNext, passed as passes_by};
ghost use Rattle.block_build.specs.Netlist.Wires.{AreWired};
ghost use Rattle.block_build.specs.Netlist.Staging.{Later, full_bit, leading_sites, stage_nets, stages_from, IsActing, AreActing, shaken_at, move_nets, AreAllMoving, IsMove, MoveFrom, KeepFrom, FullBitsGoOn, kept_net, AllKeepWords};

use crate::netlist::sites::{Handshake, Site, chain};
use crate::netlist::wires::WireList;
use std::alloc::{AllocError, Global};
use vlog_tree::{Atom, Signal};

/// What a pipeline's stages say: of each site its handshake, and of each stage whether it moves.
#[derive(Drop)]
pub struct StageWires {
    pub handshakes: Vec<Handshake>,
    pub moves: Vec<Atom>,
}

/// Of each site its handshake, and of each stage whether it holds an activation that stalls at no site.
#[derive(Drop)]
struct Acting {
    handshakes: Vec<Handshake>,
    passed: Vec<Atom>,
}

/// The registers of stages go on by the wires of what they hold next: full bits and done bits as a pipeline's control has them, and the
/// words of receives.
pub fn stages_go_on()
    ensures { (v : Values) (full k n at : ℕ) (sites : List SiteSignals) (comes : Atom) (moving next : ℕ → ℕ) →
        let stages = stages_from full (record { moving = moving; next = next; done = done_at at sites }) k 0 0 n sites in
        FullBitsGoOn v comes stages → AreWired v at (sites_next_wires at (move_nets stages) sites (map shaken_at (all_sites stages))) →
        AreNext v comes stages × AllKeepWords v (done_at at sites) k 0 0 n sites }
{}

/// The full bit of a stage, where those of all stages stand from a register on.
pub fn full_at(full: u32, stage: usize) -> Atom
    ensures { result ≡ full_bit full stage }
{
    let number = u64::from(full).saturating_add(stage as u64);
    Atom::Signal(Signal(number.min(0xffff_ffff) as u32))
}

/// The wires of all stages and their sites, where `run` says that there is no reset and the full bits stand from a register on.
pub fn stage_wires(
    alloc: Global,
    wires: &mut WireList,
    run: Atom,
    full: u32,
    stages: u32,
    sites: &[Site],
) -> Result<StageWires, AllocError>
    ensures { IfOk result (λ made. (moving : ℕ → ℕ) × ((next done : ℕ → ℕ) →
        let them = stages_from full (record { moving = moving; next = next; done = done }) (next_number wires.old) 0 0 stages sites.now in
        (made.handshakes.items ≡ map shaken_at (all_sites them)) × (made.moves.items ≡ move_nets them) × AddsWires wires.old wires.new (λ v. AreStages v run them))) }
{
    let acting = act(alloc, wires, run, full, stages, sites)?;
    let moves = move_all(alloc, wires, full, acting.passed.as_slice())?;
    Ok(StageWires {
        handshakes: acting.handshakes,
        moves,
    })
}

/// The wires that say which stages act and what their sites do.
fn act(
    alloc: Global,
    wires: &mut WireList,
    run: Atom,
    full: u32,
    stages: u32,
    sites: &[Site],
) -> Result<Acting, AllocError>
    ensures handshakes { IfOk result (λ acting. (later : Later) → acting.handshakes.items ≡ map shaken_at (all_sites (stages_from full later (next_number wires.old) 0 0 stages sites.now))) }
    ensures passed { IfOk result (λ acting. (later : Later) → acting.passed.items ≡ map passes_by (stages_from full later (next_number wires.old) 0 0 stages sites.now)) }
    ensures wired { OnOk result ((later : Later) → AddsWires wires.old wires.new (λ v. AreActing v run (stages_from full later (next_number wires.old) 0 0 stages sites.now))) }
{
    let mut handshakes = Vec::new(alloc);
    let mut passed = Vec::new(alloc);
    let mut rest = sites;
    'stages: for stage in 0..stages {
        let count = leading(rest, stage);
        let own = first_sites(rest, count);
        let passes = act_at(wires, run, full, stage, own, &mut handshakes)?;
        passed.push(passes)?;
        rest = sites_behind(rest, count);
    }
    Ok(Acting { handshakes, passed })
}

/// How many of the first sites stand in a stage.
fn leading(sites: &[Site], stage: u32) -> usize
    ensures { result ≡ leading_sites stage sites.now }
{
    'sites: for i in 0..sites.len() {
        if sites[i].stage != stage {
            return i;
        }
    }
    sites.len()
}

/// The first sites.
fn first_sites(sites: &[Site], count: usize) -> &[Site]
    ensures { result.now ≡ take count sites.now }
{
    &sites[..count.min(sites.len())]
}

/// Those behind so many.
fn sites_behind(sites: &[Site], count: usize) -> &[Site]
    ensures { result.now ≡ drop count sites.now }
{
    &sites[count.min(sites.len())..]
}

/// The wires that say whether a stage acts and what its sites do. Whether it passes them all.
fn act_at(
    wires: &mut WireList,
    run: Atom,
    full: u32,
    stage: u32,
    sites: &[Site],
    handshakes: &mut Vec<Handshake>,
) -> Result<Atom, AllocError>
    ensures handshakes { OnOk result ((later : Later) (i : ℕ) → handshakes.new.items ≡ handshakes.old.items ++ map shaken_at (stage_nets full later (next_number wires.old) i stage sites.now).sites) }
    ensures passes { IfOk result (λ passes. (later : Later) (i : ℕ) → passes ≡ passes_by (stage_nets full later (next_number wires.old) i stage sites.now)) }
    ensures wired { OnOk result ((later : Later) (i : ℕ) → AddsWires wires.old wires.new (λ v. IsActing v run (stage_nets full later (next_number wires.old) i stage sites.now))) }
    ensures number { OnOk result (next_number wires.new ≡ suc (next_number wires.old) + 7 * length sites.now) }
{
    let acts = wires.both(run, full_at(full, stage as usize))?;
    let passes = chain(wires, acts, sites, handshakes)?;
    Ok(passes)
}

/// Which stages move, those being given that pass all their sites.
fn move_all(
    alloc: Global,
    wires: &mut WireList,
    full: u32,
    passed: &[Atom],
) -> Result<Vec<Atom>, AllocError>
    ensures moves { IfOk result (λ moves. (stages : List StageNets) → map passes_by stages ≡ passed.now → MoveFrom full (next_number wires.old) stages → moves.items ≡ move_nets stages) }
    ensures wired { OnOk result ((stages : List StageNets) → map passes_by stages ≡ passed.now → MoveFrom full (next_number wires.old) stages →
        AddsWires wires.old wires.new (λ v. AreAllMoving v stages)) }
{
    let mut moves = Vec::new(alloc);
    let mut behind = None;
    'stages: for i in 0..passed.len() {
        let before = passed.len() - i - 1;
        let own = move_one(wires, full_at(full, before + 1), passed[before], behind)?;
        moves.push(own)?;
        behind = Some(own);
    }
    moves.reverse();
    Ok(moves)
}

/// Whether a stage moves that passes all its sites or doesn't, where the one behind it has this full bit and moves or doesn't, if
/// there is one.
fn move_one(
    wires: &mut WireList,
    full: Atom,
    passed: Atom,
    behind: Option<Atom>,
) -> Result<Atom, AllocError>
    ensures { IfOk result (IsMove wires.old wires.new full passed behind) }
{
    match behind {
        None => Ok(passed),
        Some(moves) => move_before(wires, full, passed, moves),
    }
}

/// The same, where there is one behind it.
fn move_before(
    wires: &mut WireList,
    full: Atom,
    passed: Atom,
    behind: Atom,
) -> Result<Atom, AllocError>
    ensures { IfOk result (IsMove wires.old wires.new full passed (Some behind)) }
{
    let free = wires.inverse(full)?;
    let clear = wires.either(free, behind)?;
    wires.both(passed, clear)
}

/// Whether each stage holds an activation next, where one comes into the first or doesn't.
pub fn full_nexts(
    wires: &mut WireList,
    nexts: &mut Vec<Atom>,
    full: u32,
    comes: Atom,
    moves: &[Atom],
) -> Result<(), AllocError>
    ensures nexts { OnOk result ((stages : List StageNets) → moves.now ≡ move_nets stages → KeepFrom full (next_number wires.old) stages → nexts.new.items ≡ nexts.old.items ++ map kept_net stages) }
    ensures wired { OnOk result ((stages : List StageNets) → moves.now ≡ move_nets stages → KeepFrom full (next_number wires.old) stages →
        AddsWires wires.old wires.new (λ v. FullBitsGoOn v comes stages)) }
    ensures number { OnOk result (next_number wires.new ≡ next_number wires.old + 3 * length moves.now) }
{
    let mut comes = comes;
    'stages: for stage in 0..moves.len() {
        let leaves = moves[stage];
        let next = keep(wires, comes, full_at(full, stage), leaves)?;
        nexts.push(next)?;
        comes = leaves;
    }
    Ok(())
}

/// Whether a stage holds an activation next, where one comes in or doesn't, and its own moves or doesn't.
fn keep(wires: &mut WireList, comes: Atom, full: Atom, moves: Atom) -> Result<Atom, AllocError>
    ensures signal { IfOk result (λ next. next ≡ net (suc (suc (next_number wires.old)))) }
    ensures puts { OnOk result (Puts wires.old wires.new (keep_wires (next_number wires.old) comes full moves)) }
{
    let stays = wires.inverse(moves)?;
    let keeps = wires.both(full, stays)?;
    wires.either(comes, keeps)
}
