//! The text of an outcome.

ghost use Rattle.std.specs.Prelude.{◌≡◌, ◌++◌, ℕ, slice_get, Some, OnOk, IfOk, string_bytes, flat_map, length};
ghost use Rattle.net_core.specs.WellFormed.{IsNet, IsOutcome, AreWordsOf};
ghost use Rattle.net_core.specs.declared.net.Chan.{Chan};
ghost use Rattle.net_core.specs.declared.outcome.Stream.{Stream};
ghost use Rattle.xb_value.specs.Width.{width_of, HasWidths};
ghost use Rattle.chan_file.specs.OutcomeText.{outcome_text, stream_head, stream_line, proc_line, lines_by, word_text, kind_text, counts_text, end_text, chan_name};

use crate::number::push_number;
use base::texts::push_decimal;
use net_core::{Chan, Kind, Net, Outcome, ProcEnd, ProcHead, Stall, Stream};
use std::alloc::{AllocError, Global};
use xb_bits::Bits;
use xb_value::{Ty, at, push_value, unflat};

/// What a run shows: a line for each channel, and then a line for each proc.
pub fn outcome_text(alloc: Global, net: &Net, outcome: &Outcome) -> Result<String, AllocError>
    requires net { IsNet net.now }
    requires outcome { IsOutcome net.now outcome.now }
    ensures { IfOk result (λ text. string_bytes text ≡ outcome_text net.now outcome.now) }
{
    let mut text = String::new(alloc);
    push_streams(
        alloc,
        &mut text,
        net.chans.as_slice(),
        outcome.streams.as_slice(),
    )?;
    push_procs(
        &mut text,
        net.chans.as_slice(),
        net.procs.as_slice(),
        outcome.procs.as_slice(),
    )?;
    Ok(text)
}

/// Appends a line for each channel.
fn push_streams(
    alloc: Global,
    text: &mut String,
    chans: &[Chan],
    streams: &[Stream],
) -> Result<(), AllocError>
    requires widths { (c : ℕ) (chan : Chan) → slice_get chans.now c ≡ Some chan → HasWidths chan.ty }
    requires words { (c : ℕ) (chan : Chan) (stream : Stream) → slice_get chans.now c ≡ Some chan → slice_get streams.now c ≡ Some stream
        → AreWordsOf (width_of chan.ty) stream.words }
    ensures { OnOk result (string_bytes text.new ≡ string_bytes text.old ++ lines_by stream_line chans.now streams.now) }
{
    'chans: for c in 0..usize::min(chans.len(), streams.len()) {
        push_stream(alloc, text, &chans[c], &streams[c])?;
    }
    Ok(())
}

/// Appends a line for each proc.
fn push_procs(
    text: &mut String,
    chans: &[Chan],
    heads: &[ProcHead],
    ends: &[ProcEnd],
) -> Result<(), AllocError>
    ensures { OnOk result (string_bytes text.new ≡ string_bytes text.old ++ lines_by (proc_line chans.now) heads.now ends.now) }
{
    'procs: for p in 0..usize::min(heads.len(), ends.len()) {
        push_proc(text, chans, &heads[p], &ends[p])?;
    }
    Ok(())
}

/// Appends the line of a channel.
fn push_stream(
    alloc: Global,
    text: &mut String,
    chan: &Chan,
    stream: &Stream,
) -> Result<(), AllocError>
    requires widths { HasWidths chan.now.ty }
    requires words { AreWordsOf (width_of chan.now.ty) stream.now.words }
    ensures { OnOk result (string_bytes text.new ≡ string_bytes text.old ++ stream_line chan.now stream.now) }
{
    push_head(text, chan, stream.words.len() as u64, stream.received)?;
    push_words(alloc, text, chan, stream.words.as_slice())?;
    text.push_str("\n")
}

/// Appends what stands before a channel's words.
fn push_head(text: &mut String, chan: &Chan, count: u64, received: u64) -> Result<(), AllocError>
    ensures { OnOk result (string_bytes text.new ≡ string_bytes text.old ++ stream_head chan.now count received) }
{
    text.push_str(kind_text(chan.kind))?;
    text.push_str(chan.name.as_str())?;
    text.push_str(" ")?;
    push_counts(text, chan.kind, count, received)?;
    text.push_str(":")
}

fn kind_text(kind: Kind) -> &'static str
    ensures { result.now ≡ kind_text kind }
{
    match kind {
        Kind::Input => "in ",
        Kind::Output => "out ",
        Kind::Inner => "chan ",
    }
}

/// Appends how many words there are, and of an inner channel how many of them were received.
fn push_counts(text: &mut String, kind: Kind, count: u64, received: u64) -> Result<(), AllocError>
    ensures { OnOk result (string_bytes text.new ≡ string_bytes text.old ++ counts_text kind count received) }
{
    push_decimal(text, count)?;
    match kind {
        Kind::Input => Ok(()),
        Kind::Output => Ok(()),
        Kind::Inner => {
            text.push_str("/")?;
            push_decimal(text, received)
        }
    }
}

/// Appends words, each with a space before it.
fn push_words(
    alloc: Global,
    text: &mut String,
    chan: &Chan,
    words: &[Bits],
) -> Result<(), AllocError>
    requires widths { HasWidths chan.now.ty }
    requires words { AreWordsOf (width_of chan.now.ty) words.now }
    ensures { OnOk result (string_bytes text.new ≡ string_bytes text.old ++ flat_map (word_text chan.now) words.now) }
{
    'words: for i in 0..words.len() {
        push_word(alloc, text, chan, words[i])?;
    }
    Ok(())
}

/// Appends a space and a word as a value of its channel's type. A word of a number type takes no memory but the text's.
fn push_word(alloc: Global, text: &mut String, chan: &Chan, word: Bits) -> Result<(), AllocError>
    requires widths { HasWidths chan.now.ty }
    requires fits { width_of chan.now.ty ≡ word.width }
    ensures { OnOk result (string_bytes text.new ≡ string_bytes text.old ++ word_text chan.now word) }
{
    match &chan.ty {
        Ty::Bits(_) => push_number(text, word),
        _ => push_value_word(alloc, text, chan, word),
    }
}

/// The same of a word of any type, by way of its value.
fn push_value_word(
    alloc: Global,
    text: &mut String,
    chan: &Chan,
    word: Bits,
) -> Result<(), AllocError>
    requires widths { HasWidths chan.now.ty }
    requires fits { width_of chan.now.ty ≡ word.width }
    ensures { OnOk result (string_bytes text.new ≡ string_bytes text.old ++ word_text chan.now word) }
{
    let value = unflat(alloc, &chan.ty, word)?;
    text.push_str(" ")?;
    push_value(text, &value)
}

/// Appends the line of a proc.
fn push_proc(
    text: &mut String,
    chans: &[Chan],
    head: &ProcHead,
    end: &ProcEnd,
) -> Result<(), AllocError>
    ensures { OnOk result (string_bytes text.new ≡ string_bytes text.old ++ proc_line chans.now head.now end.now) }
{
    text.push_str("proc ")?;
    text.push_str(head.path.as_str())?;
    text.push_str(" state ")?;
    push_value(text, &end.state)?;
    push_end(text, chans, end.stall)?;
    text.push_str("\n")
}

/// Appends whether the proc is done, or how it stalled.
fn push_end(text: &mut String, chans: &[Chan], stall: Option<Stall>) -> Result<(), AllocError>
    ensures { OnOk result (string_bytes text.new ≡ string_bytes text.old ++ end_text chans.now stall) }
{
    match stall {
        None => text.push_str(" done"),
        Some(stall) => push_stall(text, chans, stall),
    }
}

/// Appends how a proc stalled: its activation, the direction and the channel.
fn push_stall(text: &mut String, chans: &[Chan], stall: Stall) -> Result<(), AllocError>
    ensures { OnOk result (string_bytes text.new ≡ string_bytes text.old ++ end_text chans.now (Some stall)) }
{
    text.push_str(" stalled ")?;
    push_decimal(text, u64::from(stall.activation))?;
    text.push_str(if stall.sends { " send " } else { " recv " })?;
    text.push_str(chan_name(chans, stall.chan))
}

/// The name of the channel of that number.
fn chan_name(chans: &[Chan], chan: u32) -> &str
    ensures { result.now ≡ chan_name chans.now chan }
{
    match at(chans, chan as usize) {
        Some(chan) => chan.name.as_str(),
        None => "",
    }
}
