use xb_span::Span;
use xb_value::Seq;

/// Where the lines of a package stand in its text. A line that has no span here counts as standing at 0..0.
#[derive(Drop)]
pub struct LineSpans {
    /// `package NAME`
    pub name: Span,
    pub channels: Seq<Span>,
    pub procs: Seq<ProcSpans>,
}

/// Where the lines of a proc stand.
#[derive(Drop)]
pub struct ProcSpans {
    /// From `proc` to `{`.
    pub head: Span,
    pub nodes: Seq<Span>,
    /// `next(..)`
    pub next: Span,
    /// Where the closing brace ends.
    pub end: u32,
}
