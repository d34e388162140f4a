//! The wires of a stage's sites.

ghost use Rattle.std.specs.Prelude.{◌≡◌, [], ◌∷◌, ◌++◌, ◌+◌, ◌*◌, ℕ, suc, length, IfOk, OnOk};
ghost use Rattle.block_build.specs.Netlist.Added.{next_number, AddsWires, Puts};
ghost use Rattle.block_build.specs.Netlist.Gates.{net, not_gate, and_gate, or_gate};
ghost use Rattle.block_build.specs.Netlist.Handshakes.{site_wires, AreSites, chain_ready};
ghost use Rattle.block_build.specs.Netlist.Sites.{site_nets, handshake_at, nets_from, handshakes_from};

use crate::netlist::wires::WireList;
use std::alloc::AllocError;
use vlog_tree::Atom;

/// The signals of a site, before those of its handshake.
#[derive(Clone, Copy)]
pub struct Site {
    pub channel: u32,
    pub sends: bool,
    pub stage: u32,
    pub on: Atom,
    /// Whether it is done, and the word that it keeps.
    pub done: Atom,
    pub kept: Atom,
    /// Whether the partner is there.
    pub partner: Atom,
    /// The channel's word, and how many bits it has.
    pub word: Atom,
    pub width: u64,
    /// The word that is sent, or that it has received.
    pub own: Atom,
}

/// The wires of a site's handshake that are read further on: whether it is asserted, whether it goes, and whether the stage
/// stalls at no site so far.
#[derive(Clone, Copy)]
pub struct Handshake {
    pub asserted: Atom,
    pub goes: Atom,
    pub ready: Atom,
}

/// The wires of a site, where `ready` says that its stage holds an activation which stalls at no earlier one.
fn shake(wires: &mut WireList, ready: Atom, site: Site) -> Result<Handshake, AllocError>
    ensures signals { IfOk result (λ shaken. shaken ≡ handshake_at (next_number wires.old)) }
    ensures puts { OnOk result (Puts wires.old wires.new (site_wires (next_number wires.old) ready (site_nets site (next_number wires.old) 0))) }
{
    let undone = wires.inverse(site.done)?;
    let due = wires.both(site.on, undone)?;
    let asserted = wires.both(ready, due)?;
    let goes = wires.both(asserted, site.partner)?;
    let ready = pass(wires, ready, due, goes)?;
    Ok(Handshake {
        asserted,
        goes,
        ready,
    })
}

/// Whether a stage that stalled at no earlier site stalls at none up to this one, which is due or not, and goes or not: what was
/// passed so far, and what is next is closed, or goes.
pub fn pass(wires: &mut WireList, ready: Atom, due: Atom, goes: Atom) -> Result<Atom, AllocError>
    ensures signal { IfOk result (λ passed. passed ≡ net (suc (suc (next_number wires.old)))) }
    ensures puts { OnOk result (Puts wires.old wires.new (not_gate due ∷ or_gate (net (next_number wires.old)) goes ∷ and_gate ready (net (suc (next_number wires.old))) ∷ [])) }
{
    let closed = wires.inverse(due)?;
    let passed = wires.either(closed, goes)?;
    wires.both(ready, passed)
}

/// The wires of the sites of a stage that acts or not, and whether it stalls at none of them.
pub fn chain(
    wires: &mut WireList,
    acts: Atom,
    sites: &[Site],
    shaken: &mut Vec<Handshake>,
) -> Result<Atom, AllocError>
    ensures signals { OnOk result (shaken.new.items ≡ shaken.old.items ++ handshakes_from (next_number wires.old) sites.now) }
    ensures wired { IfOk result (λ passed. (next : ℕ → ℕ) (i : ℕ) → AddsWires wires.old wires.new (λ v. AreSites v acts (nets_from (next_number wires.old) next i sites.now))) }
    ensures number { OnOk result (next_number wires.new ≡ next_number wires.old + 7 * length sites.now) }
    ensures passed { IfOk result (λ passed. (next : ℕ → ℕ) (i : ℕ) → passed ≡ chain_ready acts (nets_from (next_number wires.old) next i sites.now)) }
{
    let mut ready = acts;
    'sites: for i in 0..sites.len() {
        let handshake = shake(wires, ready, sites[i])?;
        ready = handshake.ready;
        shaken.push(handshake)?;
    }
    Ok(ready)
}
