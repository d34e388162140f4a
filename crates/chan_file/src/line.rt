//! What one line of a channel file says.

ghost use Rattle.std.specs.Prelude.{◌≡◌, ◌<◌, ◌≤◌, ◌^◌, ℕ, List, codes, bytes_eq, take, length, IsTrue, IfOk, IfSome};
ghost use Rattle.std.specs.List.{list_all};
ghost use Rattle.net_core.specs.WellFormed.{IsNet};
ghost use Rattle.xb_value.specs.Width.{width_of};
ghost use Rattle.chan_file.specs.ChannelFile.{SaysLine, SaysWord, says_input, input_named};
ghost use Rattle.chan_file.specs.Line.{other, line_form, says_nothing, is_name_byte, is_channel_name, is_channel_line};
ghost use Rattle.chan_file.specs.Inner.Named.{KnowsInputs, HasNamed};
ghost use Rattle.chan_file.specs.Inner.Form.{form_of};
ghost use Rattle.net_core.specs.declared.net.Net.{Net};
ghost use Rattle.chan_file.specs.declared.line.Said.TheVariants.{Word};

use crate::named::{Named, Numbers, number_of};
use crate::number::word_in;
use crate::refusal::Cause;
use base::texts::{begins_word, is_utf8, is_word_byte};
use net_core::Net;
use std::alloc::{AllocError, Global};
use xb_bits::Bits;
use xb_value::{Ty, ValueError, at, flat, read_value};

/// What a line says.
#[derive(Clone, Copy)]
pub enum Said {
    /// Nothing: it is empty, or a comment.
    Nothing,
    /// The words of this channel follow.
    Channel(u32),
    /// A word of this channel.
    Word(u32, Bits),
    /// It is at fault.
    Fault(Cause),
}

/// A word of a channel.
#[derive(Clone, Copy)]
pub struct ChannelWord {
    pub chan: u32,
    pub word: Bits,
}

/// The word that a line says, if it is a number and the channel named last is of a number type. `read_line` says what any
/// other line does. It takes no memory, and hands the word on as it is: most lines of a long file are such.
pub fn number_line(net: &Net, named: &Named, line: &[u8]) -> Option<ChannelWord>
    requires { IsNet net.now }
    ensures { IfSome result (λ said. (before : List ℕ) → HasNamed (length net.now.chans) before named.now → SaysLine net.now before line.now (Word said.chan said.word)) }
{
    let chan = named.last?;
    let of = at(net.chans.as_slice(), chan as usize)?;
    match of.ty {
        Ty::Bits(width) => {
            let word = word_in(width, line)?;
            Some(ChannelWord { chan, word })
        }
        _ => None,
    }
}

/// What a line says, where these channels were named before it.
pub fn read_line(
    alloc: Global,
    net: &Net,
    numbers: &Numbers<'_>,
    named: &Named,
    line: &[u8],
) -> Result<Said, AllocError>
    requires net { IsNet net.now }
    requires short { length line.now < 2 ^ 32 }
    requires numbers { KnowsInputs net.now numbers.now }
    ensures { IfOk result (λ said. (before : List ℕ) → HasNamed (length net.now.chans) before named.now → SaysLine net.now before line.now said) }
{
    match line_form(line) {
        LineForm::Blank => Ok(Said::Nothing),
        LineForm::Channel(name) => Ok(said_of_name(numbers, named, name)),
        LineForm::Other => said_of_word(alloc, net, named, line),
    }
}

/// What the name of a channel says.
fn said_of_name(numbers: &Numbers<'_>, named: &Named, name: &[u8]) -> Said
    ensures { (net : Net) (before : List ℕ) → KnowsInputs net numbers.now → HasNamed (length net.chans) before named.now
        → result ≡ says_input before (input_named net name.now) }
{
    match number_of(numbers, name) {
        None => Said::Fault(Cause::Name),
        Some(chan) if named.has(chan) => Said::Fault(Cause::Twice),
        Some(chan) => Said::Channel(chan),
    }
}

/// What a line says that can only be a word.
fn said_of_word(alloc: Global, net: &Net, named: &Named, line: &[u8]) -> Result<Said, AllocError>
    requires net { IsNet net.now }
    requires short { length line.now < 2 ^ 32 }
    requires other { line_form line.now ≡ other }
    ensures { IfOk result (λ said. (before : List ℕ) → HasNamed (length net.now.chans) before named.now → SaysLine net.now before line.now said) }
{
    match named.last {
        None => Ok(Said::Fault(Cause::Syntax)),
        Some(chan) => match at(net.chans.as_slice(), chan as usize) {
            None => Ok(Said::Fault(Cause::Syntax)),
            Some(of) => read_word(alloc, &of.ty, chan, line),
        },
    }
}

/// What a line says as a word of a channel of the type.
fn read_word(alloc: Global, ty: &Ty, chan: u32, line: &[u8]) -> Result<Said, AllocError>
    requires short { length line.now < 2 ^ 32 }
    requires some_width { 1 ≤ width_of ty.now }
    requires most_width { width_of ty.now ≤ 128 }
    ensures { IfOk result (SaysWord chan ty.now line.now) }
{
    let Ok(text) = str::from_utf8(line) else {
        return Ok(Said::Fault(Cause::Syntax));
    };
    match read_value(alloc, text, ty) {
        Ok(value) => Ok(Said::Word(chan, flat(&value))),
        Err(ValueError::Syntax(_)) => Ok(Said::Fault(Cause::Syntax)),
        Err(ValueError::Shape(_)) => Ok(Said::Fault(Cause::Kind)),
        Err(ValueError::OutOfMemory) => Err(AllocError),
    }
}

/// The form of a line.
#[derive(Clone, Copy)]
enum LineForm<'a> {
    Blank,
    /// `chan NAME`
    Channel(&'a [u8]),
    Other,
}

fn line_form(line: &[u8]) -> LineForm<'_>
    ensures { form_of result ≡ line_form line.now }
{
    if says_nothing(line) {
        LineForm::Blank
    } else if is_channel_line(line) {
        LineForm::Channel(&line[5..])
    } else {
        LineForm::Other
    }
}

/// Whether the line is empty, or a comment.
fn says_nothing(line: &[u8]) -> bool
    ensures { result ≡ says_nothing line.now }
{
    match line.first() {
        None => true,
        Some(first) => *first == b'#' && is_utf8(line),
    }
}

/// Whether the line is `chan`, one space and a name.
fn is_channel_line(line: &[u8]) -> bool
    ensures { result ≡ is_channel_line line.now }
{
    begins_channel(line) && is_channel_name(&line[5..])
}

fn begins_channel(line: &[u8]) -> bool
    ensures value { result ≡ bytes_eq (codes "chan ") (take 5 line.now) }
    ensures long { IsTrue result → 5 ≤ length line.now }
{
    line.starts_with(b"chan ")
}

/// A letter or `_`, and then letters, digits, `_`, `.` and `/`.
fn is_channel_name(name: &[u8]) -> bool
    ensures { result ≡ is_channel_name name.now }
{
    match name.split_first() {
        None => false,
        Some((first, rest)) => begins_word(*first) && are_name_bytes(rest),
    }
}

fn are_name_bytes(bytes: &[u8]) -> bool
    ensures { result ≡ list_all is_name_byte bytes.now }
{
    bytes.iter().all(|byte| is_name_byte(*byte))
}

fn is_name_byte(byte: u8) -> bool
    ensures { result ≡ is_name_byte byte }
{
    is_word_byte(byte) || byte == b'.' || byte == b'/'
}
