ghost use Rattle.std.specs.Prelude.{◌≡◌, get_or};
ghost use Rattle.xb_span.specs.Spans.{nowhere};
ghost use Rattle.vlog_tree.specs.Verifier.WithSpans.{signal_span};

use crate::VModule;
use sqlite_items::Items;
use std::alloc::Global;
use xb_span::Span;

/// Where the parts of a module stand in its text, in the order of the parts. A part that has no span here counts as
/// standing at 0..0.
#[derive(Drop)]
pub struct PartSpans {
    pub ports: Items<Span>,
    pub declarations: Items<Span>,
    pub assignments: Items<Span>,
    pub at_reset: Items<Span>,
    pub at_clock: Items<Span>,
    /// Where each literal ends: those of the assignments, then those of the sets.
    pub literals: Items<u32>,
}

impl PartSpans {
    ghost use Rattle.std.specs.Prelude.{◌≡◌};
    ghost use Rattle.vlog_tree.specs.Verifier.WithSpans.{no_spans};

    /// No part has a span.
    pub fn none(alloc: Global) -> PartSpans
        ensures { result ≡ no_spans }
    {
        PartSpans {
            ports: Items::new(alloc),
            declarations: Items::new(alloc),
            assignments: Items::new(alloc),
            at_reset: Items::new(alloc),
            at_clock: Items::new(alloc),
            literals: Items::new(alloc),
        }
    }
}

/// The span of a part.
pub fn span_at(spans: &[Span], place: usize) -> Span
    ensures { result ≡ get_or spans.now place nowhere }
{
    match spans.get(place) {
        Some(span) => *span,
        None => Span { from: 0, to: 0 },
    }
}

/// Where a literal ends.
pub fn end_at(ends: &[u32], place: usize) -> u32
    ensures { result ≡ get_or ends.now place 0 }
{
    match ends.get(place) {
        Some(end) => *end,
        None => 0,
    }
}

/// The span of a port or a declaration.
pub fn signal_span(design: &VModule, part_spans: &PartSpans, signal: usize) -> Span
    ensures { result ≡ signal_span design.now part_spans.now signal }
{
    let ports = design.ports.as_slice().len();
    if signal < ports {
        span_at(part_spans.ports.as_slice(), signal)
    } else {
        span_at(part_spans.declarations.as_slice(), signal - ports)
    }
}
