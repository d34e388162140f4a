//! Where the registers of a proc's pipeline stand, and in which stages its nodes do.

ghost use Rattle.std.specs.Prelude.{◌≡◌};
ghost use Rattle.block_verilog.specs.Signals.Registers.{stage_at, registers_of_site, copies_from};

use block_build::netlist::layout::SiteRegisters;
use vlog_tree::Signal;
use xb_value::{Seq, at};

/// A schedule: the stage of each node, how many stages there are, and the one in which an activation gives the turn back.
#[derive(Clone, Copy)]
pub struct Staging<'a> {
    pub stage: &'a [u32],
    pub stages: u32,
    pub last: u32,
}

impl Staging<'_> {
    /// The stage of a node.
    pub fn of(self, node: usize) -> u32
        ensures { result ≡ stage_at self.entry.stage.now node }
    {
        match at(self.stage, node) {
            Some(stage) => *stage,
            None => 0,
        }
    }
}

/// The registers of a proc's pipeline: the first of those of its state, the full bit of its first stage, those of its sites,
/// and the first copy of the state and of each node's value.
#[derive(Drop)]
pub struct ProcRegisters {
    pub state: u32,
    pub full: u32,
    pub sites: Seq<SiteRegisters>,
    pub state_copies: u32,
    pub copies: Seq<u32>,
}

impl ProcRegisters {
    /// The registers of a site.
    pub fn of_site(&self, site: usize) -> SiteRegisters
        ensures { result ≡ registers_of_site self.now site }
    {
        match self.sites.get(site) {
            Some(registers) => *registers,
            None => SiteRegisters {
                done: Signal(0),
                kept: Signal(0),
            },
        }
    }

    /// The first copy of a node's value.
    pub fn copies_of(&self, node: usize) -> u32
        ensures { result ≡ copies_from self.now node }
    {
        match self.copies.get(node) {
            Some(first) => *first,
            None => 0,
        }
    }
}
