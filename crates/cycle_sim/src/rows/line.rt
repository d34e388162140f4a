//! What a line says.

ghost use Rattle.std.specs.Prelude.{◌≡◌, ◌<◌, ◌≤◌, ◌^◌, ℕ, List, length, IfOk, Some};
ghost use Rattle.std.specs.List.{AllByRecursion};
ghost use Rattle.vlog_tree.specs.Signals.{Channel};
ghost use Rattle.cycle_sim.specs.Rows.Inner.Known.{AreKnown};
ghost use Rattle.cycle_sim.specs.Rows.Inner.Rows.{RowSays};
ghost use Rattle.cycle_sim.specs.Rows.RowFile.{SaysRowLine, row_by};

use crate::rows::channels::Channels;
use crate::rows::draft::Draft;
use crate::rows::form::{is_remark, is_repeat, repeats_of, reset_of};
use crate::rows::item::{Said, read_item};
use crate::rows::pieces::Pieces;
use crate::rows::rows::Repeated;
use chan_file::Cause;
use std::alloc::{AllocError, Global};
use vlog_tree::{Drive, Row};

/// What a line says.
#[derive(Drop)]
pub enum LineSaid {
    /// Nothing: it is empty, or a comment.
    Nothing,
    Repeat(Repeated),
    /// It is at fault.
    Fault(Cause),
}

/// What a line says.
pub fn read_line(alloc: Global, known: &Channels<'_>, line: &[u8]) -> Result<LineSaid, AllocError>
    requires { length line.now < 2 ^ 32 }
    ensures { IfOk result (λ said. (channels : List Channel) → AreKnown channels known.now → SaysRowLine channels line.now said) }
{
    if is_remark(line) {
        return Ok(LineSaid::Nothing);
    }
    let mut pieces = Pieces::new(line);
    match pieces.next() {
        None => Ok(LineSaid::Fault(Cause::Syntax)),
        Some(head) => match reset_of(head) {
            None => Ok(LineSaid::Fault(Cause::Syntax)),
            Some(reset) => read_row(alloc, known, reset, pieces),
        },
    }
}

/// The row of these items.
fn read_row(
    alloc: Global,
    known: &Channels<'_>,
    reset: bool,
    items: Pieces<'_>,
) -> Result<LineSaid, AllocError>
    requires { AllByRecursion (λ piece. length piece < 2 ^ 32) items }
    ensures { IfOk result (λ said. (channels : List Channel) → AreKnown channels known.now → RowSays channels reset items.entry said) }
{
    let mut items = items;
    let mut draft = Draft::new(alloc, &known.shapes)?;
    'items: while let Some(piece) = items.next() {
        if items.is_done() && is_repeat(piece) {
            return Ok(row_by(reset, repeats_of(piece), draft));
        }
        // An arm of its own names the word, whose type the borrow checker doesn't find otherwise.
        match read_item(alloc, known, &draft, piece)? {
            Said::Drives(channel, Drive::Offer(word)) => draft.note(Said::Drives(
                channel,
                Drive::Offer(word),
            )),
            said => draft.note(said),
        }
    }
    Ok(row_by(reset, 1, draft))
}

/// A row whose items were all read.
fn row_by(reset: bool, times: u32, draft: Draft) -> LineSaid
    ensures { result ≡ row_by reset times draft }
{
    match draft.worst {
        Some(cause) => LineSaid::Fault(cause),
        None => LineSaid::Repeat(Repeated {
            row: Row {
                reset,
                channels: draft.drives.into_items(),
            },
            times,
        }),
    }
}
