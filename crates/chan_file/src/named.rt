//! The inputs of a network by their names, and which of them were named.

ghost use Rattle.std.specs.Prelude.{◌≡◌, ◌<◌, ◌≤◌, ◌^◌, ◌∷◌, [], ℕ, List, length, IfOk};
ghost use Rattle.net_core.specs.declared.net.Net.{Net};
ghost use Rattle.chan_file.specs.ChannelFile.{input_named, is_input, was_named};
ghost use Rattle.chan_file.specs.Inner.Named.{KnowsInputs, HasNamed};

use net_core::{Kind, Net};
use std::alloc::{AllocError, Global};
use std::collections::BTreeMap;

/// The numbers of a network's inputs by their names.
pub type Numbers<'a> = BTreeMap<&'a [u8], u32>;

/// The numbers of the network's inputs.
pub fn input_numbers<'a>(alloc: Global, net: &'a Net) -> Result<Numbers<'a>, AllocError>
    requires { length net.now.chans < 2 ^ 32 }
    ensures { IfOk result (KnowsInputs net.now) }
{
    let mut numbers = BTreeMap::new(alloc);
    let chans = net.chans.as_slice();
    let count = chans.len();
    'chans: for i in 0..count {
        let c = count - 1 - i;
        let chan = &chans[c];
        if is_input(chan.kind) {
            numbers.insert(chan.name.as_str().as_bytes(), c as u32)?;
        }
    }
    Ok(numbers)
}

fn is_input(kind: Kind) -> bool
    ensures { result ≡ is_input kind }
{
    match kind {
        Kind::Input => true,
        Kind::Output => false,
        Kind::Inner => false,
    }
}

/// The number of the input of that name.
pub fn number_of(numbers: &Numbers<'_>, name: &[u8]) -> Option<u32>
    ensures { (net : Net) → KnowsInputs net numbers.now → result ≡ input_named net name.now }
{
    numbers.get(name).copied()
}

/// Which channels of a network were named, and which of them last.
#[derive(Drop)]
pub struct Named {
    pub flags: Vec<bool>,
    pub last: Option<u32>,
}

impl Named {
    /// None of so many channels.
    pub fn new(alloc: Global, count: usize) -> Result<Named, AllocError>
        ensures { IfOk result (HasNamed count []) }
    {
        let mut flags = Vec::new(alloc);
        'flags: for _made in 0..count {
            flags.push(false)?;
        }
        Ok(Named { flags, last: None })
    }

    /// Whether the channel was named.
    pub fn has(&self, chan: u32) -> bool
        ensures { (count : ℕ) (named : List ℕ) → HasNamed count named self.now → chan < count → result ≡ was_named chan named }
    {
        self.flags.get(chan as usize).copied().unwrap_or(false)
    }

    /// Names one more.
    pub fn name(&mut self, chan: u32)
        requires { chan < length self.old.flags.items }
        ensures { (count : ℕ) (named : List ℕ) → HasNamed count named self.old → HasNamed count (chan ∷ named) self.new }
    {
        self.flags[chan as usize] = true;
        self.last = Some(chan);
    }
}
