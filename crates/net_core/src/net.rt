use base::texts::Name;
use xb_bits::Bits;
use xb_value::{Seq, Ty, Value};

/// A network of procs that speak over channels. Procs and channels are named by their index in the two lists.
#[derive(Drop)]
pub struct Net {
    pub name: Name,
    pub procs: Seq<ProcHead>,
    pub chans: Seq<Chan>,
}

/// What a network knows of a proc: all but what its sites do.
#[derive(Drop)]
pub struct ProcHead {
    /// Its parent's path, a dot, and its number among the parent's children; the top proc's is its name.
    pub path: Name,
    /// The type of its states.
    pub state: Ty,
    /// The state in which its first activation begins.
    pub init: Value,
    /// Its receives and sends in the order in which an activation comes to them.
    pub sites: Seq<Site>,
}

/// A place at which a proc receives from a channel or sends on it.
#[derive(Clone, Copy, PartialEq, Eq, Hash)]
pub struct Site {
    /// The channel's number.
    pub chan: u32,
    pub sends: bool,
}

/// A channel of words, each of its type's flat width.
#[derive(Drop)]
pub struct Chan {
    pub name: Name,
    pub ty: Ty,
    pub kind: Kind,
    /// How many words an inner channel holds. Those of the others don't count.
    pub depth: u32,
}

/// Who is at the ends of a channel.
#[derive(Clone, Copy, PartialEq, Eq, Hash)]
pub enum Kind {
    /// The outside sends, a proc receives.
    Input,
    /// A proc sends, the outside receives.
    Output,
    /// Procs are at both ends.
    Inner,
}

/// The words that the outside sends: for each channel, by its number, a list, empty where it is no input.
#[derive(Drop)]
pub struct Inputs {
    pub words: Seq<Seq<Bits>>,
}
