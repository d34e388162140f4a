//! The words of a network's inputs, from a channel file.

ghost use Rattle.std.specs.Prelude.{◌≡◌, ◌<◌, ◌^◌, [], ◌∷◌, ◌++◌, Ok, length, replicate, get_or, set, IfOk, OnOk, MatchResult};
ghost use Rattle.net_core.specs.WellFormed.{IsNet, IsInputs};
ghost use Rattle.chan_file.specs.ChannelFile.{Reads, IsRefusal};

use crate::line::{Said, number_line, read_line};
use crate::named::{Named, input_numbers};
use crate::refusal::InputError;
use base::texts::Lines;
use net_core::{Inputs, Net};
use std::alloc::{AllocError, Global};
use xb_bits::Bits;
use xb_value::Seq;

/// The words that a channel file gives to a network's inputs. A channel that it does not name has none.
pub fn read_inputs(alloc: Global, text: &[u8], net: &Net) -> Result<Inputs, InputError>
    requires net { IsNet net.now }
    requires short { length text.now < 2 ^ 32 }
    ensures reads { MatchResult result (λ inputs. Reads net.now text.now (Ok inputs)) (IsRefusal net.now text.now) }
    ensures inputs { IfOk result (λ inputs. IsInputs net.now inputs.words) }
{
    let numbers = input_numbers(alloc, net)?;
    let mut named = Named::new(alloc, net.chans.len())?;
    let mut words = no_words(alloc, net.chans.len())?;
    let mut lines = Lines::new(text);
    'lines: while let Some(line) = lines.next() {
        if let Some(said) = number_line(net, &named, line.bytes) {
            push_word(&mut words, said.chan, said.word)?;
            continue;
        }
        match read_line(alloc, net, &numbers, &named, line.bytes)? {
            Said::Nothing => {}
            Said::Channel(chan) => named.name(chan),
            Said::Word(chan, word) => push_word(&mut words, chan, word)?,
            Said::Fault(cause) => return Err(InputError::Input(cause, line.at as u32)),
        }
    }
    Ok(Inputs {
        words: Seq::from_vec(words),
    })
}

/// An empty list for each of so many channels.
fn no_words(alloc: Global, count: usize) -> Result<Vec<Seq<Bits>>, AllocError>
    ensures { IfOk result (λ words. words.items ≡ replicate count []) }
{
    let mut words = Vec::new(alloc);
    'words: for _made in 0..count {
        words.push(Seq::new(alloc))?;
    }
    Ok(words)
}

/// Appends a word to those of a channel. Where it is called the word need not lie in memory first.
#[inline(always)]
fn push_word(words: &mut Vec<Seq<Bits>>, chan: u32, word: Bits) -> Result<(), AllocError>
    requires { chan < length words.old.items }
    ensures { OnOk result (words.new.items ≡ set words.old.items chan (get_or words.old.items chan [] ++ word ∷ [])) }
{
    words[chan as usize].push(word)?;
    Ok(())
}
