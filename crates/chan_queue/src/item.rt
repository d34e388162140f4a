use xb_bits::Bits;

/// What gives each channel of a run its stream, as a reference to what the run is made of. It is for contracts alone.
pub trait Streams: Drop {
    ghost use Rattle.std.specs.Prelude.{ℕ};
    ghost use Rattle.chan_queue.specs.Stream.{Stream};

    /// The stream of a channel, by its number.
    ghost stream: { Self → ℕ → Stream };
}

/// What lies in a channel's queue: at first that it opens, which tells its passes what its stream is, and then words.
#[derive(Drop)]
pub enum Item<S> {
    Opening(Opening<S>),
    Word(Bits),
}

/// A channel of a run, and how many words it holds.
#[derive(Drop)]
pub struct Opening<S> {
    pub run: S,
    pub chan: u32,
    pub depth: u32,
}

impl<S: Streams> Item<S> {
    ghost use Rattle.std.specs.Prelude.{◌≡◌};
    ghost use Rattle.xb_bits.specs.Word.{Word};
    ghost use Rattle.chan_queue.specs.Steps.{IsItemOf};

    /// The word.
    pub(crate) fn into_word(self) -> Bits
        requires { (word : Word) × IsItemOf self word }
        ensures { (word : Word) → IsItemOf self word → result ≡ word }
    {
        match self {
            Item::Word(word) => word,
            Item::Opening(_) => unreachable!(),
        }
    }
}
