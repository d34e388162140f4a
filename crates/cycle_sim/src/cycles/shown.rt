//! A line for each row.

ghost use Rattle.std.specs.Prelude.{◌≡◌, ◌++◌, OnOk};
ghost use Rattle.vlog_tree.specs.Rows.{outs_of};
ghost use Rattle.vlog_tree.specs.Settled.{values_of};
ghost use Rattle.cycle_sim.specs.Cycles.CycleText.{names_of, output_text, ready_text, row_text, shown_text, shown_texts};

use crate::Sim;
use crate::cycles::words::{push_number, push_word};
use sqlite_items::Items;
use std::alloc::{AllocError, Global};
use vlog_tree::Shown;
use xb_bits::Bits;

/// Appends that an input is ready.
fn push_ready(text: &mut Vec<u8>, name: &[u8]) -> Result<(), AllocError>
    ensures { OnOk result (text.new.items ≡ text.old.items ++ ready_text name.now) }
{
    text.push(b' ')?;
    text.extend_from_slice(name)?;
    text.push(b'!')?;
    Ok(())
}

/// Appends the word of an output.
fn push_output(alloc: Global, text: &mut Vec<u8>, name: &[u8], word: Bits) -> Result<(), AllocError>
    ensures { OnOk result (text.new.items ≡ text.old.items ++ output_text name.now word) }
{
    text.push(b' ')?;
    text.extend_from_slice(name)?;
    text.push(b'=')?;
    push_word(alloc, text, word)
}

/// Appends what a channel shows.
fn push_shown(
    alloc: Global,
    text: &mut Vec<u8>,
    name: &[u8],
    shown: Shown,
) -> Result<(), AllocError>
    ensures { OnOk result (text.new.items ≡ text.old.items ++ shown_text name.now shown) }
{
    match shown {
        Shown::Input { ready } => if ready {
            push_ready(text, name)
        } else {
            Ok(())
        },
        Shown::Output { word, valid } => if valid {
            push_output(alloc, text, name, word)
        } else {
            Ok(())
        },
    }
}

/// Appends what the channels of a module showed in the last cycle.
fn push_channels(
    alloc: Global,
    text: &mut Vec<u8>,
    names: &[Items<u8>],
    sim: &Sim,
) -> Result<(), AllocError>
    requires { names.now ≡ names_of sim.now.design }
    ensures { OnOk result (text.new.items ≡ text.old.items ++ shown_texts names.now (outs_of sim.now.design (values_of sim.now.words)).channels) }
{
    'channels: for channel in 0..names.len() {
        push_shown(alloc, text, names[channel].as_slice(), sim.shown(channel))?;
    }
    Ok(())
}

/// Appends the line of the last cycle, which has this number.
#[tactic(auto, unfolding(crate::specs::Cycles::CycleText::row_text))]
pub fn push_row(
    alloc: Global,
    text: &mut Vec<u8>,
    names: &[Items<u8>],
    number: u64,
    sim: &Sim,
) -> Result<(), AllocError>
    requires { names.now ≡ names_of sim.now.design }
    ensures { OnOk result (text.new.items ≡ text.old.items ++ row_text names.now number (outs_of sim.now.design (values_of sim.now.words))) }
{
    push_number(alloc, text, number)?;
    push_channels(alloc, text, names, sim)?;
    text.push(b'\n')?;
    Ok(())
}
