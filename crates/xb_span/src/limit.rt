ghost use Rattle.std.specs.Prelude.{◌≡◌, Some};
ghost use Rattle.xb_span.specs.Limit.{index_of, word_of};

use std::fmt;

/// What a limit counts, in the order in which limits at one position are looked at.
#[derive(Clone, Copy, Debug, PartialEq, Eq, Hash)]
pub enum What {
    /// Bytes of a file.
    File,
    /// Constructs that are open at a token.
    Nesting,
    /// Bits of a leaf.
    Width,
    /// Leaves of a type.
    Leaves,
    /// Tuples, structs and arrays one in another.
    Levels,
    /// Flat bits of a channel's type.
    Word,
    /// Turns of a `for`.
    Turns,
    /// Nodes of a body or a constant.
    Size,
    /// Sites of a proc.
    Sites,
    /// Words that a FIFO holds.
    Depth,
    /// Instances of functions and procs.
    Instances,
    /// Procs of a network.
    Procs,
    /// Channels of a network.
    Channels,
    /// Rows of a cycle file, repeats counted.
    Cycles,
}

impl What {
    /// Its index among the limits: of those that one end passes, the first is named.
    pub fn index(self) -> u8
        ensures { result ≡ index_of self }
    {
        self as u8
    }

    /// The word that messages name it by.
    pub fn word(self) -> &'static str
        ensures { result.now ≡ word_of self }
    {
        match self {
            What::File => "file",
            What::Nesting => "nesting",
            What::Width => "width",
            What::Leaves => "leaves",
            What::Levels => "levels",
            What::Word => "word",
            What::Turns => "turns",
            What::Size => "size",
            What::Sites => "sites",
            What::Depth => "depth",
            What::Instances => "instances",
            What::Procs => "procs",
            What::Channels => "channels",
            What::Cycles => "cycles",
        }
    }
}

impl fmt::Display for What {
    ghost output = { λ w. Some (word_of w) };

    fn fmt<W: fmt::Write>(&self, f: &mut fmt::Formatter<W>) -> fmt::Result {
        let word = self.word();
        write!(f, "{word}")
    }
}

/// A quantity that passed its limit: `found` of it, where at most `most` are taken.
#[derive(Clone, Copy, Debug, PartialEq, Eq, Hash)]
pub struct Limit {
    pub what: What,
    pub found: u64,
    pub most: u64,
}

/// `limit WHAT: FOUND, at most MOST`; an error means that the writer refused.
impl fmt::Display for Limit {
    ghost use Rattle.xb_span.specs.LimitText.{limit_text};

    ghost output = { λ l. Some (limit_text l) };

    fn fmt<W: fmt::Write>(&self, f: &mut fmt::Formatter<W>) -> fmt::Result {
        let what = self.what.word();
        let found = self.found;
        let most = self.most;
        write!(f, "limit {what}: {found}, at most {most}")
    }
}
