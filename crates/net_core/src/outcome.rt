use xb_bits::Bits;
use xb_value::{Seq, Value};

/// What a run leaves: a stream for each channel and an end for each proc, by their numbers.
#[derive(Drop)]
pub struct Outcome {
    pub streams: Seq<Stream>,
    pub procs: Seq<ProcEnd>,
}

/// What went over a channel.
#[derive(Drop)]
pub struct Stream {
    /// The words that were sent; of an input those that were received.
    pub words: Seq<Bits>,
    /// How many words procs received.
    pub received: u64,
}

/// Where a proc stands when a run is over.
#[derive(Drop)]
pub struct ProcEnd {
    /// The state after its last activation that ended.
    pub state: Value,
    /// How many activations ended.
    pub ends: u32,
    /// What it waits for, unless it is done.
    pub stall: Option<Stall>,
}

/// What a proc that isn't done waits for.
#[derive(Clone, Copy, Debug, PartialEq, Eq, Hash)]
pub struct Stall {
    /// The activation that is open, from 0.
    pub activation: u32,
    /// It waits for room to send, else for a word.
    pub sends: bool,
    /// The channel's number.
    pub chan: u32,
}
