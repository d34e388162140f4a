//! The rules and limits of a package.

ghost use Rattle.std.specs.Prelude.{◌≡◌, ◌⊎◌, ◌<◌, ◌≤◌, ◌^◌, ◌+◌, [], take, ℕ, List, true, not, length, get_or, slice_set, IfOk, OnOk, IfErr, Some, None, map, option_map};
ghost use Rattle.xb_span.specs.Spans.{nowhere};
ghost use Rattle.xb_span.specs.Fault.{error_of};
ghost use Rattle.xb_span.specs.declared.read_error.ReadError.TheVariants.{OutOfMemory};
ghost use Rattle.xb_span.specs.declared.fault.Fault.TheVariants as fault;
ghost use Rattle.ir_tree.specs.declared.ir_type.IrType.{Token};
ghost use Rattle.ir_tree.specs.Activations.{sites_of};
ghost use Rattle.ir_tree.specs.Rules.Checks.{noted};
ghost use Rattle.ir_tree.specs.Rules.Lines.{is_among};
ghost use Rattle.ir_tree.specs.Rules.Inner.Scopes.{seen_by};
ghost use Rattle.ir_tree.specs.Rules.Verified.{IsVerified, nowhere_proc, nowhere_at_all, channels_checks, nodes_checks, seen_after, at_start, proc_checks, procs_checks, last_end, nothing_seen, first_fault};

use crate::rules::checks::note;
use crate::rules::fitting::Scope;
use crate::rules::line_spans::{LineSpans, ProcSpans};
use crate::rules::lines::{
    Seen, is_after_all, note_channel, note_head, note_next, note_node, note_package,
};
use crate::rules::names::Names;
use crate::{Channel, IrType, Node, Package, Proc, Role};
use std::alloc::{AllocError, Global};
use xb_span::{Fault, Limit, ReadError, Span, What};
use xb_value::Seq;

/// Whether the package breaks no rule and passes no limit. Its lines count as standing at 0..0, so the rule of the least
/// number is named, or the first limit.
///
/// It takes time as the package is long, and memory as it has channels and procs.
pub fn verify(alloc: Global, ir: &Package) -> Result<(), ReadError>
    ensures ok { OnOk result (IsVerified ir.now) }
    ensures refused { IfErr result (λ error. (error ≡ OutOfMemory) ⊎ (option_map error_of (first_fault ir.now nowhere_at_all) ≡ Some error)) }
{
    let line_spans = LineSpans {
        name: nowhere(),
        channels: Seq::new(alloc),
        procs: Seq::new(alloc),
    };
    check(alloc, ir, &line_spans)
}

/// The same for a package that stands in a text, whose lines have these spans.
pub fn check(alloc: Global, ir: &Package, line_spans: &LineSpans) -> Result<(), ReadError>
    ensures ok { OnOk result (first_fault ir.now line_spans.now ≡ None) }
    ensures refused { IfErr result (λ error. (error ≡ OutOfMemory) ⊎ (option_map error_of (first_fault ir.now line_spans.now) ≡ Some error)) }
{
    match first_fault(alloc, ir, line_spans) {
        Err(_) => Err(ReadError::OutOfMemory),
        Ok(None) => Ok(()),
        Ok(Some(fault)) => Err(fault.error()),
    }
}

fn nowhere() -> Span
    ensures { result ≡ nowhere }
{
    Span { from: 0, to: 0 }
}

/// The span of a line.
fn span_at(spans: &[Span], place: usize) -> Span
    ensures { result ≡ get_or spans.now place nowhere }
{
    match spans.get(place) {
        Some(span) => *span,
        None => nowhere(),
    }
}

/// The fault that is named, if there is one.
fn first_fault(
    alloc: Global,
    ir: &Package,
    line_spans: &LineSpans,
) -> Result<Option<Fault>, AllocError>
    ensures { IfOk result (λ fault. fault ≡ first_fault ir.now line_spans.now) }
{
    let channels = ir.channels.as_slice();
    let procs = ir.procs.as_slice();
    let held = note_package(None, line_spans.name, ir.name.as_str(), procs);
    let held = note_channels(alloc, held, line_spans.channels.as_slice(), channels)?;
    let held = note_procs(alloc, held, line_spans.procs.as_slice(), channels, procs)?;
    let end = last_end(line_spans.procs.as_slice());
    let held = note(held, 256 < procs.len(), passed(end, What::Procs, 256));
    Ok(note(
        held,
        1024 < channels.len(),
        passed(end, What::Channels, 1024),
    ))
}

/// A count that passed its limit is found to be one more.
fn passed(end: u32, what: What, most: u64) -> Fault
    requires { most < 2 ^ 16 }
    ensures { result ≡ fault.Passed end (record { what = what; found = most + 1; most = most }) }
{
    Fault::Passed(
        end,
        Limit {
            what,
            found: most + 1,
            most,
        },
    )
}

fn last_end(procs: &[ProcSpans]) -> u32
    ensures { result ≡ last_end procs.now }
{
    match procs.last() {
        Some(proc) => proc.end,
        None => 0,
    }
}

fn note_channels(
    alloc: Global,
    held: Option<Fault>,
    spans: &[Span],
    channels: &[Channel],
) -> Result<Option<Fault>, AllocError>
    ensures { IfOk result (λ fault. fault ≡ noted held (channels_checks spans.now [] 0 channels.now)) }
{
    let mut names = Names::new(alloc);
    let mut held = held;
    'channels: for i in 0..channels.len() {
        let channel = &channels[i];
        let is_new = names.insert(channel.name.as_str())?;
        held = note_channel(held, span_at(spans, i), is_new, i, channel);
    }
    Ok(held)
}

impl Seen {
    ghost use Rattle.std.specs.Prelude.{◌≡◌, IfOk};
    ghost use Rattle.ir_tree.specs.Rules.Lines.{see};
    ghost use Rattle.ir_tree.specs.Rules.Verified.{at_start, nothing_seen};
    ghost use Rattle.ir_tree.specs.Rules.Inner.Scopes.{seen_by};

    /// Before the first proc.
    fn nothing(alloc: Global, channels: &[Channel]) -> Result<Seen, AllocError>
        ensures { IfOk result (λ seen. seen_by seen ≡ nothing_seen channels.now) }
    {
        Ok(Seen {
            after_all: false,
            site: None,
            received: vec![in alloc; false; channels.len()]?,
            sent: vec![in alloc; false; channels.len()]?,
        })
    }

    /// Begins another proc.
    fn start(&mut self)
        ensures { seen_by self.new ≡ at_start (seen_by self.old) }
    {
        self.after_all = false;
        self.site = None;
    }

    /// Sees the node of an index.
    fn see(&mut self, place: usize, node: &Node)
        ensures { seen_by self.new ≡ see place node.now (seen_by self.old) }
    {
        match node.role() {
            Role::Pure => {}
            Role::Receive(_, channel) => {
                self.site = Some(place);
                take_end(&mut self.received, channel);
            }
            Role::Send(_, channel) => {
                self.site = Some(place);
                take_end(&mut self.sent, channel);
            }
        }
        if is_after_all(node.op) {
            self.after_all = true;
        }
    }
}

/// Says that the end of a channel has a site.
fn take_end(taken: &mut Vec<bool>, channel: u32)
    ensures { taken.new.items ≡ slice_set taken.old.items channel true }
{
    let place = channel as usize;
    if place < taken.len() {
        taken[place] = true;
    }
}

/// The nodes before an index.
fn nodes_before(nodes: &[Node], place: usize) -> &[Node]
    requires { place ≤ length nodes.now }
    ensures nodes { result.now ≡ take place nodes.now }
    ensures count { length result.now ≡ place }
{
    &nodes[..place]
}

fn note_nodes(
    held: Option<Fault>,
    spans: &[Span],
    channels: &[Channel],
    state: &IrType,
    missing: &IrType,
    seen: &mut Seen,
    nodes: &[Node],
) -> Option<Fault>
    requires { missing.now ≡ Token [] }
    ensures fault { result ≡ noted held (nodes_checks channels.now state.now spans.now [] 0 (seen_by seen.old) nodes.now) }
    ensures seen { seen_by seen.new ≡ seen_after 0 (seen_by seen.old) nodes.now }
{
    let mut held = held;
    'nodes: for i in 0..nodes.len() {
        let node = &nodes[i];
        let scope = Scope {
            state,
            before: nodes_before(nodes, i),
            missing,
        };
        held = note_node(held, span_at(spans, i), channels, &scope, seen, node);
        seen.see(i, node);
    }
    held
}

/// How many sites there are.
fn count_sites(nodes: &[Node]) -> usize
    ensures { result ≡ length (sites_of nodes.now) }
{
    let mut count = 0;
    'nodes: for node in nodes {
        match node.role() {
            Role::Pure => {}
            _ => count += 1,
        }
    }
    count
}

fn note_proc(
    alloc: Global,
    held: Option<Fault>,
    line_spans: &ProcSpans,
    channels: &[Channel],
    is_new: bool,
    seen: &mut Seen,
    proc: &Proc,
) -> Option<Fault>
    ensures fault { (names : List (List ℕ)) → is_new ≡ not (is_among names proc.now.name) →
        result ≡ noted held (proc_checks channels.now line_spans.now names (seen_by seen.old) proc.now) }
    ensures seen { seen_by seen.new ≡ seen_after 0 (at_start (seen_by seen.old)) proc.now.nodes }
{
    let missing = IrType::Token(Seq::new(alloc));
    let nodes = proc.nodes.as_slice();
    let held = note_head(held, line_spans.head, is_new, proc);
    seen.start();
    let held = note_nodes(
        held,
        line_spans.nodes.as_slice(),
        channels,
        &proc.state,
        &missing,
        seen,
        nodes,
    );
    let scope = Scope {
        state: &proc.state,
        before: nodes,
        missing: &missing,
    };
    let held = note_next(held, line_spans.next, &scope, proc);
    note(
        held,
        32 < count_sites(nodes),
        passed(line_spans.end, What::Sites, 32),
    )
}

/// The lines of a proc that no text shows.
fn nowhere_proc(alloc: Global) -> ProcSpans
    ensures { result ≡ nowhere_proc }
{
    ProcSpans {
        head: nowhere(),
        nodes: Seq::new(alloc),
        next: nowhere(),
        end: 0,
    }
}

/// The spans of the lines of a proc.
fn spans_at<'a>(line_spans: &'a [ProcSpans], proc: usize, elsewhere: &'a ProcSpans) -> &'a ProcSpans
    ensures { result.now ≡ get_or line_spans.now proc elsewhere.now }
{
    match line_spans.get(proc) {
        Some(place) => place,
        None => elsewhere,
    }
}

fn note_procs(
    alloc: Global,
    held: Option<Fault>,
    line_spans: &[ProcSpans],
    channels: &[Channel],
    procs: &[Proc],
) -> Result<Option<Fault>, AllocError>
    ensures { IfOk result (λ fault. fault ≡ noted held (procs_checks channels.now line_spans.now [] 0 (nothing_seen channels.now) procs.now)) }
{
    let elsewhere = nowhere_proc(alloc);
    let mut names = Names::new(alloc);
    let mut seen = Seen::nothing(alloc, channels)?;
    let mut held = held;
    'procs: for i in 0..procs.len() {
        let proc = &procs[i];
        let is_new = names.insert(proc.name.as_str())?;
        let place = spans_at(line_spans, i, &elsewhere);
        held = note_proc(alloc, held, place, channels, is_new, &mut seen, proc);
    }
    Ok(held)
}
