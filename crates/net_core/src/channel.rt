ghost use Rattle.std.specs.Prelude.{◌≡◌, take};

use crate::net::Kind;
use crate::outcome::Stream;
use std::alloc::AllocError;
use xb_bits::Bits;
use xb_value::Seq;

/// All words that were sent on a channel, those of an input from the start, and how many were received.
#[derive(Drop)]
pub(crate) struct Channel {
    kind: Kind,
    depth: u32,
    words: Seq<Bits>,
    received: u64,
}

/// The first `count` words, in the memory of all.
pub(crate) fn front(mut words: Seq<Bits>, count: u64) -> Seq<Bits>
    ensures { result ≡ take count words }
{
    while words.len() as u64 > count {
        words.pop();
    }
    words
}

impl Channel {
    ghost use Rattle.std.specs.Prelude.{◌≡◌, ◌≤◌, ◌++◌, ◌∷◌, [], suc, IsTrue, OnOk, OnErr, length, slice_get, Some};
    ghost use Rattle.net_core.specs.Inner.Making.{has_word, has_room, stream_in};

    /// A channel on which these words were sent, of which none was received.
    pub(crate) fn new(kind: Kind, depth: u32, words: Seq<Bits>) -> Channel
        ensures { result ≡ record { kind = kind; depth = depth; words = words; received = 0 } }
    {
        Channel {
            kind,
            depth,
            words,
            received: 0,
        }
    }

    /// What went over the channel: of an input the words that were received.
    pub(crate) fn into_stream(self) -> Stream
        ensures { result ≡ stream_in self }
    {
        let Channel {
            kind,
            depth: _,
            words,
            received,
        } = self;
        match kind {
            Kind::Input => Stream {
                words: front(words, received),
                received,
            },
            Kind::Output => Stream { words, received: 0 },
            Kind::Inner => Stream { words, received },
        }
    }

    /// A word is there that wasn't received.
    pub(crate) fn has_word(&self) -> bool
        ensures { result ≡ has_word self.now }
    {
        self.received < self.words.len() as u64
    }

    /// One more word may be sent.
    pub(crate) fn has_room(&self) -> bool
        requires { self.now.received ≤ length self.now.words }
        ensures { result ≡ has_room self.now }
    {
        match self.kind {
            Kind::Input | Kind::Output => true,
            Kind::Inner => self.words.len() as u64 - self.received < u64::from(self.depth),
        }
    }

    /// The word that is received next.
    pub(crate) fn next_word(&self) -> Bits
        requires { IsTrue (has_word self.now) }
        ensures { slice_get self.now.words self.now.received ≡ Some result }
    {
        self.words.as_slice()[self.received as usize]
    }

    /// The next word is received.
    pub(crate) fn receive(&mut self)
        requires { IsTrue (has_word self.old) }
        ensures { self.new ≡ record self.old { received = suc self.old.received } }
    {
        let sent = self.words.len() as u64;
        prove!(self.received < sent);
        self.received += 1;
    }

    /// A word is sent.
    pub(crate) fn send(&mut self, word: Bits) -> Result<(), AllocError>
        ensures ok { OnOk result (self.new ≡ record self.old { words = self.old.words ++ word ∷ [] }) }
        ensures err { OnErr result (self.new ≡ self.old) }
    {
        self.words.push(word)
    }
}
