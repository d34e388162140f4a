//! Tests of the conditions of a run, for networks whose states and channels are bits.

ghost use Rattle.std.specs.Prelude.{◌≡◌, IsTrue, map, nat_le};
ghost use Rattle.std.specs.List.{list_all};
ghost use Rattle.xb_value.specs.Typing.{is_word_of};
ghost use Rattle.net_core.specs.WellFormed.{IsNet, IsInputs, IsDepths, AreBehaviorsOf};
ghost use Rattle.net_samples.specs.Checks.{opens_well, site_fits, head_fits, chan_fits, differ, apart, own_ends, other_name, own_names, body_fits, same_sites, each_fits, given, each_given};
ghost use Rattle.net_samples.specs.Behaviors.{behavior_of};

use crate::sample::{Port, Sample, Step};
use net_core::{Chan, Inputs, Kind, Net, ProcHead, Site};
use xb_bits::Bits;
use xb_value::{Seq, Ty, Value, at};

/// The opening state is bits of the type's width.
fn opens_well(head: &ProcHead) -> bool
    ensures { result ≡ opens_well head.now }
{
    match (&head.state, &head.init) {
        (Ty::Bits(width), Value::Bits(bits)) => *width == u64::from(bits.width()),
        _ => false,
    }
}

/// A site's channel is there and may be used in its direction.
fn site_fits(site: Site, chans: &[Chan]) -> bool
    ensures { result ≡ site_fits chans.now site }
{
    match at(chans, site.chan as usize) {
        None => false,
        Some(chan) => match chan.kind {
            Kind::Input => !site.sends,
            Kind::Output => site.sends,
            Kind::Inner => true,
        },
    }
}

fn head_fits(head: &ProcHead, chans: &[Chan]) -> bool
    ensures { result ≡ head_fits chans.now head.now }
{
    let sites = head.sites.as_slice();
    sites.len() < 1 << 30 && opens_well(head) && sites_fit(sites, chans)
}

fn sites_fit(sites: &[Site], chans: &[Chan]) -> bool
    ensures { result ≡ list_all (site_fits chans.now) sites.now }
{
    sites.iter().all(|site| site_fits(*site, chans))
}

/// A channel of 8 bits.
fn chan_fits(chan: &Chan) -> bool
    ensures { result ≡ chan_fits chan.now }
{
    match chan.ty {
        Ty::Bits(width) => width == 8,
        _ => false,
    }
}

/// The sites are of different ends of channels.
fn differ(one: Site, other: Site) -> bool
    ensures { result ≡ differ one other }
{
    one.chan != other.chan || one.sends != other.sends
}

fn none_is(one: Site, others: &[Site]) -> bool
    ensures { result ≡ list_all (differ one) others.now }
{
    others.iter().all(|other| differ(one, *other))
}

/// No site of the one is at the same end of a channel as a site of the other.
fn apart(one: &[Site], others: &[Site]) -> bool
    ensures { result ≡ apart one.now others.now }
{
    one.iter().all(|site| none_is(*site, others))
}

fn apart_from(one: &ProcHead, others: &[ProcHead]) -> bool
    ensures { result ≡ list_all (λ other. apart one.now.sites other.sites) others.now }
{
    let sites = one.sites.as_slice();
    others
        .iter()
        .all(|other| apart(sites, other.sites.as_slice()))
}

fn own_ends(heads: &[ProcHead]) -> bool
    ensures { result ≡ own_ends heads.now }
{
    match heads {
        [] => true,
        [first, rest @ ..] => apart_from(first, rest) && own_ends(rest),
    }
}

fn other_name(one: &Chan, other: &Chan) -> bool
    ensures { result ≡ other_name one.now other.now }
{
    one.name.as_str() != other.name.as_str()
}

fn other_names(one: &Chan, others: &[Chan]) -> bool
    ensures { result ≡ list_all (other_name one.now) others.now }
{
    others.iter().all(|other| other_name(one, other))
}

fn own_names(chans: &[Chan]) -> bool
    ensures { result ≡ own_names chans.now }
{
    match chans {
        [] => true,
        [first, rest @ ..] => other_names(first, rest) && own_names(rest),
    }
}

fn heads_fit(heads: &[ProcHead], chans: &[Chan]) -> bool
    ensures { result ≡ list_all (head_fits chans.now) heads.now }
{
    heads.iter().all(|head| head_fits(head, chans))
}

fn chans_fit(chans: &[Chan]) -> bool
    ensures { result ≡ list_all chan_fits chans.now }
{
    chans.iter().all(|chan| chan_fits(chan))
}

/// Whether the parts of a network fit. It takes time as the square of the network is large.
pub fn net_fits(net: &Net) -> bool
    ensures { IsTrue result → IsNet net.now }
{
    let procs = net.procs.as_slice();
    let chans = net.chans.as_slice();
    if procs.len() >= 1 << 32 {
        return false;
    }
    if chans.len() >= 1 << 32 {
        return false;
    }
    if !heads_fit(procs, chans) {
        return false;
    }
    if !chans_fit(chans) {
        return false;
    }
    if !own_ends(procs) {
        return false;
    }
    own_names(chans)
}

/// The proc of a head is this sample.
fn body_fits(head: &ProcHead, sample: &Sample) -> bool
    ensures { result ≡ body_fits head.now sample.now }
{
    let width = match sample.step {
        Step::Stay | Step::Flip => 1,
        Step::Count(_) => 8,
    };
    let typed = match head.state {
        Ty::Bits(bits) => bits == width,
        _ => false,
    };
    typed && same_sites(head.sites.as_slice(), sample.ports.as_slice())
}

fn same_sites(sites: &[Site], ports: &[Port]) -> bool
    ensures { result ≡ same_sites sites.now ports.now }
{
    match (sites, ports) {
        ([], []) => true,
        ([], [_, ..]) => false,
        ([_first, _rest @ ..], []) => false,
        ([site, sites @ ..], [port, ports @ ..]) => !differ(*site, port.site)
            && same_sites(sites, ports),
    }
}

fn each_fits(heads: &[ProcHead], samples: &[Sample]) -> bool
    ensures { result ≡ each_fits heads.now samples.now }
{
    match (heads, samples) {
        ([], []) => true,
        ([], [_, ..]) => false,
        ([_first, _rest @ ..], []) => false,
        ([head, heads @ ..], [sample, samples @ ..]) => body_fits(head, sample)
            && each_fits(heads, samples),
    }
}

/// Whether the procs of a network are these samples, in order.
pub fn bodies_fit(net: &Net, samples: &[Sample]) -> bool
    ensures { IsTrue result → AreBehaviorsOf net.now (map behavior_of samples.now) }
{
    chans_fit(net.chans.as_slice()) && each_fits(net.procs.as_slice(), samples)
}

fn is_byte(word: Bits) -> bool
    ensures { result ≡ is_word_of 8 word }
{
    word.width() == 8
}

fn are_bytes(words: &[Bits]) -> bool
    ensures { result ≡ list_all (is_word_of 8) words.now }
{
    words.iter().all(|word| is_byte(*word))
}

fn each_given(chans: &[Chan], inputs: &[Seq<Bits>]) -> bool
    ensures { result ≡ each_given chans.now inputs.now }
{
    match (chans, inputs) {
        ([], []) => true,
        ([], [_, ..]) => false,
        ([_first, _rest @ ..], []) => false,
        ([chan, chans @ ..], [words, inputs @ ..]) => given(chan, words.as_slice())
            && each_given(chans, inputs),
    }
}

/// Words of 8 bits, and none but on an input.
fn given(chan: &Chan, words: &[Bits]) -> bool
    ensures { result ≡ given chan.now words.now }
{
    let outside = match chan.kind {
        Kind::Input => true,
        Kind::Output | Kind::Inner => words.is_empty(),
    };
    outside && are_bytes(words)
}

/// Whether these are inputs of a network.
pub fn inputs_fit(net: &Net, inputs: &Inputs) -> bool
    ensures { IsTrue result → IsInputs net.now inputs.now.words }
{
    chans_fit(net.chans.as_slice()) && each_given(net.chans.as_slice(), inputs.words.as_slice())
}

/// Whether these are depths of a network.
pub fn depths_fit(net: &Net, depths: &[u32]) -> bool
    ensures { IsTrue result → IsDepths net.now depths.now }
{
    depths.len() == net.chans.len() && each_positive(depths)
}

fn each_positive(depths: &[u32]) -> bool
    ensures { result ≡ list_all (nat_le 1) depths.now }
{
    depths.iter().all(|depth| *depth >= 1)
}
