//! The channels of a module, by their ports.

ghost use Rattle.std.specs.Prelude.{◌≡◌, ◌==◌, ◌<◌, ◌++◌, ◌∷◌, [], length, map, slice_get, Some, IfOk, OnOk};
ghost use Rattle.std.specs.List.{list_all};
ghost use Rattle.xb_bits.specs.Word.{Word};
ghost use Rattle.vlog_tree.specs.declared.module.Direction.TheVariants as ways;
ghost use Rattle.vlog_tree.specs.Signals.{Channel, channel_of, channels_of};
ghost use Rattle.cycle_sim.specs.Rows.Said.{directed, is_direction};
ghost use Rattle.xls_gen.specs.Feed.Feeding.{is_feedable, takes_words};
ghost use Rattle.xls_gen.specs.Feed.Inner.Standing.{idle_drive};

use sqlite_items::Items;
use std::alloc::{AllocError, Global};
use vlog_tree::{Direction, Drive, Port, VModule};
use xb_bits::Bits;

/// Whether a module can be fed with these words at the channel of index `input`, and its words be taken at the one of index
/// `output`: the first is an input of the words' width, the second an output.
pub fn can_be_fed(design: &VModule, input: usize, output: usize, words: &[Bits]) -> bool
    ensures { result ≡ is_feedable design.now input output words.now }
{
    can_take(design, input, words) && can_give(design, output)
}

/// Whether a channel is an input of the words' width.
fn can_take(design: &VModule, channel: usize, words: &[Bits]) -> bool
    ensures { result ≡ takes_words (slice_get (channels_of design.now) channel) words.now }
{
    if channel >= count_channels(design) {
        return false;
    }
    let port = data_port(design, channel);
    is_input(port.direction) && have_width(words, port.width)
}

/// Whether a channel is an output.
fn can_give(design: &VModule, channel: usize) -> bool
    ensures { result ≡ directed ways.Output (slice_get (channels_of design.now) channel) }
{
    if channel >= count_channels(design) {
        return false;
    }
    is_output(data_port(design, channel).direction)
}

fn is_input(direction: Direction) -> bool
    ensures { result ≡ is_direction ways.Input direction }
{
    matches!(direction, Direction::Input)
}

fn is_output(direction: Direction) -> bool
    ensures { result ≡ is_direction ways.Output direction }
{
    matches!(direction, Direction::Output)
}

/// Whether words are so wide.
fn have_width(words: &[Bits], width: u64) -> bool
    ensures { result ≡ list_all (λ (w : Word). w.width == width) words.now }
{
    words.iter().all(|word| u64::from(word.width()) == width)
}

/// What the outside does at each channel of a module where no word is offered.
pub fn idle_drives(alloc: Global, design: &VModule) -> Result<Items<Drive>, AllocError>
    ensures { IfOk result (λ drives. drives ≡ map (λ (c : Channel). idle_drive c.direction) (channels_of design.now)) }
{
    let mut drives = Items::new(alloc);
    'channels: for channel in 0..count_channels(design) {
        push_idle(&mut drives, data_port(design, channel).direction)?;
    }
    Ok(drives)
}

/// Appends what the outside does at a channel where no word is offered.
fn push_idle(drives: &mut Items<Drive>, direction: Direction) -> Result<(), AllocError>
    ensures { OnOk result (drives.new ≡ drives.old ++ idle_drive direction ∷ []) }
{
    match direction {
        Direction::Input => drives.push(Drive::Offer(None)),
        Direction::Output => drives.push(Drive::Ready(true)),
    }
}

/// How many channels a module has: each has three ports, behind the clock and the reset.
fn count_channels(design: &VModule) -> usize
    ensures { result ≡ length (channels_of design.now) }
{
    design.ports.len().saturating_sub(2) / 3
}

/// The data port of a channel.
fn data_port(design: &VModule, channel: usize) -> &Port
    requires { channel < length (channels_of design.now) }
    ensures { slice_get (channels_of design.now) channel ≡ Some (channel_of result.now) }
{
    &design.ports.as_slice()[2 + 3 * channel]
}
