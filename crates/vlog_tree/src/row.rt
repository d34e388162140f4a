use sqlite_items::Items;
use xb_bits::Bits;

/// What the outside does in one cycle.
#[derive(Drop)]
pub struct Row {
    /// The reset is 1.
    pub reset: bool,
    /// What it does at each channel, in the order of the ports.
    pub channels: Items<Drive>,
}

/// What the outside does at a channel in one cycle.
#[derive(Clone, Copy, Debug, PartialEq, Eq)]
pub enum Drive {
    /// At an input: the valid word, if there is one: `vld` is 1 with it.
    Offer(Option<Bits>),
    /// At an output: its `rdy`.
    Ready(bool),
}

/// What a module drives in one cycle, at each channel in the order of the ports.
#[derive(Drop)]
pub struct Outs {
    pub channels: Items<Shown>,
}

/// What a module drives at a channel in one cycle.
#[derive(Clone, Copy, PartialEq, Eq)]
pub enum Shown {
    Output { word: Bits, valid: bool },
    Input { ready: bool },
}
