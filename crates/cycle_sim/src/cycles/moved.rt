//! What goes through the channels.

ghost use Rattle.std.specs.Prelude.{◌≡◌, ◌++◌, length, OnOk};
ghost use Rattle.vlog_tree.specs.Rows.{outs_of, transferred};
ghost use Rattle.vlog_tree.specs.Settled.{values_of};
ghost use Rattle.vlog_tree.specs.Signals.{channels_of};
ghost use Rattle.cycle_sim.specs.Cycles.CycleText.{moved_at, moved_by, moved_text, moved_texts};

use crate::Sim;
use crate::cycles::words::{push_number, push_words};
use sqlite_items::Items;
use std::alloc::{AllocError, Global};
use vlog_tree::{Drive, Row, Shown};
use xb_bits::Bits;

/// The word that goes through a channel in a cycle without reset.
fn transferred(drive: Drive, shown: Shown) -> Option<Bits>
    ensures { result ≡ transferred drive shown }
{
    match shown {
        Shown::Input { ready } => match drive {
            Drive::Offer(offered) => if ready { offered } else { None },
            Drive::Ready(_) => None,
        },
        Shown::Output { word, valid } => match drive {
            Drive::Ready(ready) => if ready && valid { Some(word) } else { None },
            Drive::Offer(_) => None,
        },
    }
}

/// One more cycle at a channel.
fn move_at(
    alloc: Global,
    words: &mut Items<Bits>,
    reset: bool,
    drive: Drive,
    shown: Shown,
) -> Result<(), AllocError>
    ensures { OnOk result (words.new ≡ moved_at reset drive shown words.old) }
{
    if reset {
        *words = Items::new(alloc);
        return Ok(());
    }
    match transferred(drive, shown) {
        Some(word) => words.push(word),
        None => Ok(()),
    }
}

/// One more cycle at all channels.
pub fn move_all(
    alloc: Global,
    moved: &mut Vec<Items<Bits>>,
    row: &Row,
    sim: &Sim,
) -> Result<(), AllocError>
    requires drives { length row.now.channels ≡ length (channels_of sim.now.design) }
    requires moved { length moved.old.items ≡ length (channels_of sim.now.design) }
    ensures { OnOk result (moved.new.items ≡ moved_by row.now.reset row.now.channels (outs_of sim.now.design (values_of sim.now.words)).channels moved.old.items) }
{
    let drives = row.channels.as_slice();
    'channels: for channel in 0..drives.len() {
        move_at(
            alloc,
            &mut moved[channel],
            row.reset,
            drives[channel],
            sim.shown(channel),
        )?;
    }
    Ok(())
}

/// Appends the line of a channel.
#[tactic(auto, unfolding(crate::specs::Cycles::CycleText::moved_text))]
fn push_moved(
    alloc: Global,
    text: &mut Vec<u8>,
    name: &[u8],
    words: &[Bits],
) -> Result<(), AllocError>
    ensures { OnOk result (text.new.items ≡ text.old.items ++ moved_text name.now words.now) }
{
    text.extend_from_slice(b"moved ")?;
    text.extend_from_slice(name)?;
    text.push(b' ')?;
    push_number(alloc, text, words.len() as u64)?;
    text.push(b':')?;
    push_words(alloc, text, words)?;
    text.push(b'\n')?;
    Ok(())
}

/// Appends the lines of the channels.
pub fn push_all_moved(
    alloc: Global,
    text: &mut Vec<u8>,
    names: &[Items<u8>],
    moved: &[Items<Bits>],
) -> Result<(), AllocError>
    requires { length moved.now ≡ length names.now }
    ensures { OnOk result (text.new.items ≡ text.old.items ++ moved_texts names.now moved.now) }
{
    'channels: for channel in 0..names.len() {
        push_moved(
            alloc,
            text,
            names[channel].as_slice(),
            moved[channel].as_slice(),
        )?;
    }
    Ok(())
}
