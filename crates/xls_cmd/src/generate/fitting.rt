//! Whether a network takes the words that are made for it.

ghost use Rattle.std.specs.Prelude.{◌≡◌, ℕ, [], true, get_or, length, slice_get, Some};
ghost use Rattle.net_core.specs.WellFormed.{AreWordsOf, IsInputs};
ghost use Rattle.net_core.specs.declared.net.Chan.{Chan as AnyChan};
ghost use Rattle.net_core.specs.declared.net.Kind.TheVariants as kinds;
ghost use Rattle.xb_value.specs.Width.{width_of};
ghost use Rattle.xls_cmd.specs.Gen.Inner.{FitsChannel};
ghost use Rattle.xls_cmd.specs.Gen.Told.{HasChannel, TakesItsWords};

use net_core::{Chan, Inputs, Kind, Net};
use xb_bits::Bits;
use xb_value::{Seq, Ty, at};

/// Whether the words are those of the network's inputs, of which channel 0 is one, and channel 1 is an output.
pub fn takes_its_words(net: &Net, inputs: &Inputs) -> bool
    ensures { result ≡ true → TakesItsWords net.now inputs.now.words }
{
    has_ends(net) && are_inputs(net, inputs)
}

/// Whether channel 0 is an input, and channel 1 an output.
fn has_ends(net: &Net) -> bool
    ensures { result ≡ true → HasChannel net.now 0 kinds.Input × HasChannel net.now 1 kinds.Output }
{
    has_channel(net, 0, Kind::Input) && has_channel(net, 1, Kind::Output)
}

/// Whether the channel of this number is there and of this kind.
fn has_channel(net: &Net, number: usize, kind: Kind) -> bool
    ensures { result ≡ true → HasChannel net.now number kind }
{
    match at(net.chans.as_slice(), number) {
        Some(chan) => chan.kind == kind,
        None => false,
    }
}

/// Whether there are words for each channel, none but for inputs.
fn are_inputs(net: &Net, inputs: &Inputs) -> bool
    ensures { result ≡ true → IsInputs net.now inputs.now.words }
{
    let chans = net.chans.as_slice();
    let words = inputs.words.as_slice();
    chans.len() == words.len() && all_fit(chans, words)
}

/// Whether the words of each channel are such as it takes.
fn all_fit(chans: &[Chan], words: &[Seq<Bits>]) -> bool
    requires { length words.now ≡ length chans.now }
    ensures { result ≡ true → (c : ℕ) (chan : AnyChan) → slice_get chans.now c ≡ Some chan → FitsChannel chan (get_or words.now c []) }
{
    'channels: for c in 0..chans.len() {
        if !fits_channel(&chans[c], words[c].as_slice()) {
            return false;
        }
    }
    true
}

/// Whether the words are such as a channel takes from the outside.
fn fits_channel(chan: &Chan, words: &[Bits]) -> bool
    ensures { result ≡ true → FitsChannel chan.now words.now }
{
    match chan.kind {
        Kind::Input => are_words_of(&chan.ty, words),
        Kind::Output => words.is_empty(),
        Kind::Inner => words.is_empty(),
    }
}

/// Whether all words are as wide as values of a type.
fn are_words_of(ty: &Ty, words: &[Bits]) -> bool
    ensures { result ≡ true → AreWordsOf (width_of ty.now) words.now }
{
    let width = ty.width();
    'words: for word in words {
        if u64::from(word.width()) != width {
            return false;
        }
    }
    true
}
