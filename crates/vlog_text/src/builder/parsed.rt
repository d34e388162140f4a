use vlog_tree::VModule;
use vlog_tree::verifier::PartSpans;

/// A module that was read, and where its parts stand in its text.
#[derive(Drop)]
pub struct Parsed {
    pub design: VModule,
    pub part_spans: PartSpans,
}
