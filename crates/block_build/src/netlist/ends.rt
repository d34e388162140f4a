//! The wires of the ends of channels.

ghost use Rattle.std.specs.Prelude.{◌≡◌, [], ◌∷◌, true, IfOk, OnOk};
ghost use Rattle.block_build.specs.Netlist.Added.{next_number, Puts};
ghost use Rattle.block_build.specs.Netlist.Ends.{some_wires, some_net, word_wires, word_net};
ghost use Rattle.block_build.specs.Netlist.Literals.{literal_atom};
ghost use Rattle.block_build.specs.Netlist.Requests.{is_end, requests_at};

use crate::netlist::literals::zeros;
use crate::netlist::sites::{Handshake, Site};
use crate::netlist::wires::WireList;
use std::alloc::AllocError;
use vlog_tree::Atom;

/// A proc's sites, with the wires of their handshakes.
#[derive(Clone, Copy)]
pub struct Sites<'a> {
    pub sites: &'a [Site],
    pub shaken: &'a [Handshake],
}

/// Whether the site stands at this end of a channel.
fn stands_at(site: &Site, channel: u32, sends: bool) -> bool
    ensures { result ≡ is_end channel sends site.now }
{
    site.channel == channel && (if sends { site.sends } else { !site.sends })
}

/// Whether one of the sites at an end is asserted.
pub fn some_asserted(
    wires: &mut WireList,
    proc: Sites,
    channel: u32,
    sends: bool,
) -> Result<Atom, AllocError>
    ensures signal { IfOk result (λ some. some ≡ some_net (next_number wires.old) (literal_atom 1 0) (requests_at channel sends proc.entry.sites.now proc.entry.shaken.now)) }
    ensures puts { OnOk result (Puts wires.old wires.new (some_wires (next_number wires.old) (literal_atom 1 0) (requests_at channel sends proc.entry.sites.now proc.entry.shaken.now))) }
{
    let mut some = zeros(1);
    let count = proc.sites.len().min(proc.shaken.len());
    'sites: for i in 0..count {
        some = some_more(wires, some, proc.sites[i], proc.shaken[i], channel, sends)?;
    }
    Ok(some)
}

/// Or this site, if it stands there.
fn some_more(
    wires: &mut WireList,
    some: Atom,
    site: Site,
    handshake: Handshake,
    channel: u32,
    sends: bool,
) -> Result<Atom, AllocError>
    ensures signal { IfOk result (λ more. more ≡ some_net (next_number wires.old) some (requests_at channel sends (site ∷ []) (handshake ∷ []))) }
    ensures puts { OnOk result (Puts wires.old wires.new (some_wires (next_number wires.old) some (requests_at channel sends (site ∷ []) (handshake ∷ [])))) }
{
    if stands_at(&site, channel, sends) {
        wires.either(some, handshake.asserted)
    } else {
        Ok(some)
    }
}

/// The word of the last one that is.
pub fn asserted_word(
    wires: &mut WireList,
    proc: Sites,
    channel: u32,
    width: u64,
) -> Result<Atom, AllocError>
    ensures signal { IfOk result (λ word. word ≡ word_net (next_number wires.old) (literal_atom width 0) (requests_at channel true proc.entry.sites.now proc.entry.shaken.now)) }
    ensures puts { OnOk result (Puts wires.old wires.new (word_wires width (next_number wires.old) (literal_atom width 0) (requests_at channel true proc.entry.sites.now proc.entry.shaken.now))) }
{
    let mut word = zeros(width);
    let count = proc.sites.len().min(proc.shaken.len());
    'sites: for i in 0..count {
        word = word_more(wires, word, proc.sites[i], proc.shaken[i], channel, width)?;
    }
    Ok(word)
}

/// Or that of this site, if it stands there.
fn word_more(
    wires: &mut WireList,
    word: Atom,
    site: Site,
    handshake: Handshake,
    channel: u32,
    width: u64,
) -> Result<Atom, AllocError>
    ensures signal { IfOk result (λ more. more ≡ word_net (next_number wires.old) word (requests_at channel true (site ∷ []) (handshake ∷ []))) }
    ensures puts { OnOk result (Puts wires.old wires.new (word_wires width (next_number wires.old) word (requests_at channel true (site ∷ []) (handshake ∷ [])))) }
{
    if stands_at(&site, channel, true) {
        wires.choice(width, handshake.asserted, site.own, word)
    } else {
        Ok(word)
    }
}
