//! What an item of a row says.

ghost use Rattle.std.specs.Prelude.{◌≡◌, ◌<◌, ◌≤◌, ◌^◌, ℕ, List, length, IfOk};
ghost use Rattle.vlog_tree.specs.Signals.{Channel};
ghost use Rattle.cycle_sim.specs.Rows.Inner.Known.{AreKnown};
ghost use Rattle.cycle_sim.specs.declared.rows.item.Valued.TheVariants.{Misfit, Word};
ghost use Rattle.cycle_sim.specs.Rows.Said.{SaysItem, SaysValue, offer_said, ready_said, channel_named, width_at};

use crate::rows::channels::Channels;
use crate::rows::draft::Draft;
use crate::rows::form::{Form, item_form};
use chan_file::Cause;
use std::alloc::{AllocError, Global};
use vlog_tree::{Direction, Drive};
use xb_bits::Bits;
use xb_value::{Ty, ValueError, flat, read_value};

/// What an item says.
#[derive(Clone, Copy)]
pub enum Said {
    /// What the outside does at this channel.
    Drives(usize, Drive),
    /// A value that is none of this channel's.
    Misfit(usize),
    /// It has another fault.
    Wrong(Cause),
}

/// What a text says as a word.
#[derive(Clone, Copy)]
pub enum Valued {
    Word(Bits),
    /// It is no value text.
    NoValue,
    /// It is one, but says no word of the width.
    Misfit,
}

/// What an item says, where the row has named some channels before.
pub fn read_item(
    alloc: Global,
    known: &Channels<'_>,
    draft: &Draft,
    piece: &[u8],
) -> Result<Said, AllocError>
    requires { length piece.now < 2 ^ 32 }
    ensures { IfOk result (λ said. (channels : List Channel) → AreKnown channels known.now → SaysItem channels draft.now.named piece.now said) }
{
    match item_form(piece) {
        Form::None => Ok(Said::Wrong(Cause::Syntax)),
        Form::Ready(name) => Ok(ready_said(draft, known.number(name, Direction::Output))),
        Form::Offer(name, text) => {
            let number = known.number(name, Direction::Input);
            let valued = value_of(alloc, known.width(number), text)?;
            Ok(offer_said(draft, number, valued))
        }
    }
}

fn ready_said(draft: &Draft, number: Option<usize>) -> Said
    ensures { result ≡ ready_said draft.now.named number }
{
    match number {
        None => Said::Wrong(Cause::Name),
        Some(number) => if draft.has(number) {
            Said::Wrong(Cause::Twice)
        } else {
            Said::Drives(number, Drive::Ready(true))
        },
    }
}

fn offer_said(draft: &Draft, number: Option<usize>, valued: Valued) -> Said
    ensures { result ≡ offer_said draft.now.named number valued }
{
    match valued {
        Valued::NoValue => Said::Wrong(Cause::Syntax),
        Valued::Word(word) => word_said(draft, number, word),
        Valued::Misfit => misfit_said(draft, number),
    }
}

fn word_said(draft: &Draft, number: Option<usize>, word: Bits) -> Said
    ensures { result ≡ offer_said draft.now.named number (Word word) }
{
    match number {
        None => Said::Wrong(Cause::Name),
        Some(number) => if draft.has(number) {
            Said::Wrong(Cause::Twice)
        } else {
            Said::Drives(number, Drive::Offer(Some(word)))
        },
    }
}

fn misfit_said(draft: &Draft, number: Option<usize>) -> Said
    ensures { result ≡ offer_said draft.now.named number Misfit }
{
    match number {
        None => Said::Wrong(Cause::Name),
        Some(number) => if draft.has(number) {
            Said::Wrong(Cause::Twice)
        } else {
            Said::Misfit(number)
        },
    }
}

/// What a text says as a word of the width.
fn value_of(alloc: Global, width: u64, text: &[u8]) -> Result<Valued, AllocError>
    requires short { length text.now < 2 ^ 32 }
    requires some_width { 1 ≤ width }
    requires most_width { width ≤ 128 }
    ensures { IfOk result (SaysValue width text.now) }
{
    let Ok(text) = str::from_utf8(text) else {
        return Ok(Valued::NoValue);
    };
    match read_value(alloc, text, &Ty::Bits(width)) {
        Ok(value) => Ok(Valued::Word(flat(&value))),
        Err(ValueError::Syntax(_)) => Ok(Valued::NoValue),
        Err(ValueError::Shape(_)) => Ok(Valued::Misfit),
        Err(ValueError::OutOfMemory) => Err(AllocError),
    }
}
