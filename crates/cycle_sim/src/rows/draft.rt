//! A row that is being read.

ghost use Rattle.std.specs.Prelude.{◌≡◌, List, map, slice_set, true, IfOk, Some};
ghost use Rattle.vlog_tree.specs.Signals.{Channel};
ghost use Rattle.cycle_sim.specs.Rows.Inner.Known.{shape_of};
ghost use Rattle.cycle_sim.specs.Rows.Said.{blank_draft, noted, rank, rest_at, worse, was_named};

use crate::rows::channels::Shape;
use crate::rows::drives::Drives;
use crate::rows::item::Said;
use chan_file::Cause;
use sqlite_items::Items;
use std::alloc::{AllocError, Global};
use vlog_tree::{Direction, Drive};

/// What the items of a row said so far.
#[derive(Drop)]
pub struct Draft {
    /// For each channel, whether the row has named it.
    pub named: Items<bool>,
    pub drives: Drives,
    /// The fault that is named, if there is one.
    pub worst: Option<Cause>,
}

impl Draft {
    /// A row without items.
    pub fn new(alloc: Global, shapes: &[Shape]) -> Result<Draft, AllocError>
        ensures { IfOk result (λ draft. (channels : List Channel) → shapes.now ≡ map shape_of channels → draft ≡ blank_draft channels) }
    {
        let mut named = Items::new(alloc);
        let mut drives = Drives::new(alloc);
        'shapes: for shape in shapes {
            named.push(false)?;
            drives.push(rest_at(shape.direction))?;
        }
        Ok(Draft {
            named,
            drives,
            worst: None,
        })
    }

    /// Whether it has named the channel.
    pub fn has(&self, channel: usize) -> bool
        ensures { result ≡ was_named self.now.named channel }
    {
        self.named.get(channel).copied().unwrap_or(false)
    }

    /// One item more.
    pub fn note(&mut self, said: Said)
        ensures { self.new ≡ noted said self.old }
    {
        match said {
            Said::Drives(channel, drive) => {
                self.name(channel);
                self.drives.set(channel, drive);
            }
            Said::Misfit(channel) => {
                self.name(channel);
                self.worst = Some(worse(self.worst, Cause::Kind));
            }
            Said::Wrong(cause) => self.worst = Some(worse(self.worst, cause)),
        }
    }

    fn name(&mut self, channel: usize)
        ensures { self.new ≡ record self.old { named = slice_set self.old.named channel true } }
    {
        if channel < self.named.len() {
            self.named.set(channel, true);
        }
    }
}

fn rest_at(direction: Direction) -> Drive
    ensures { result ≡ rest_at direction }
{
    match direction {
        Direction::Input => Drive::Offer(None),
        Direction::Output => Drive::Ready(false),
    }
}

fn rank(cause: Cause) -> u8
    ensures { result ≡ rank cause }
{
    match cause {
        Cause::Syntax => 0,
        Cause::Name => 1,
        Cause::Twice => 2,
        Cause::Kind => 3,
    }
}

/// Of two faults of a row the one that is named.
fn worse(held: Option<Cause>, cause: Cause) -> Cause
    ensures { Some result ≡ worse held cause }
{
    match held {
        None => cause,
        Some(held) => if rank(cause) < rank(held) {
            cause
        } else {
            held
        },
    }
}
