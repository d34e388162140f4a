//! The rule of a channel, as the queue takes it: what holds of the queue and of what its passes know, and what each step
//! tells the pass that makes it.

use crate::item::{Item, Streams};
use crossbeam_queue::protocol::{Join, Lesson, Outcome, Protocol, Split};
use std::collections::LinkedList;
use xb_bits::Bits;

// What a pass of a channel knows. No value of it is made.
pub struct View {
    pub sends: bool,
    pub receives: bool,
    // the queue holds that the channel opens
    pub opens: bool,
    // the stream: all words that are ever sent, and how many are ever received
    pub words: LinkedList<Bits>,
    pub limit: u64,
    pub depth: u64,
    // how many were sent, and how many receipts the sender was told of
    pub sent: u64,
    pub told_received: u64,
    // how many were received, and how many sends the receiver was told of
    pub received: u64,
    pub told_sent: u64,
}

pub struct ChannelRule;

impl<S> Protocol<Item<S>, View> for ChannelRule {
    ghost use Rattle.chan_queue.specs.Channel.{IsChannel, unopened};

    ghost holds = { IsChannel };

    ghost first = { unopened };
}

// That the channel opens is put into the empty queue.
pub struct Opens;

impl<S: Streams> Outcome<Item<S>, View> for Opens {
    ghost use Rattle.chan_queue.specs.Steps.{Opens};

    ghost then = { Opens S.stream };
}

impl<S> Lesson<Item<S>, View> for Opens {
    ghost use Rattle.std.specs.Prelude.{◌≡◌, length};

    ghost fact = { λ v items. length items ≡ 0 };
}

// And taken out again.
pub struct Opened;

impl<S> Outcome<Item<S>, View> for Opened {
    ghost use Rattle.std.specs.Prelude.{◌≡◌, false};

    ghost then = { λ v x w. w ≡ record v { opens = false } };
}

impl<S> Lesson<Item<S>, View> for Opened {
    ghost use Rattle.std.specs.Prelude.{◌≡◌, length};

    ghost fact = { λ v items. length items ≡ 1 };
}

// A word is sent, or finds no room.
pub struct Sends;

impl<S> Outcome<Item<S>, View> for Sends {
    ghost use Rattle.chan_queue.specs.Steps.{Sends};

    ghost then = { Sends };
}

impl<S> Lesson<Item<S>, View> for Sends {
    ghost use Rattle.std.specs.Prelude.{◌≤◌, ◌+◌, length};

    ghost fact = { λ v items. v.told_received + length items ≤ v.sent };
}

// A word is received, or there is none.
pub struct Receives;

impl<S> Outcome<Item<S>, View> for Receives {
    ghost use Rattle.chan_queue.specs.Steps.{Receives};

    ghost then = { Receives };
}

impl<S> Lesson<Item<S>, View> for Receives {
    ghost use Rattle.std.specs.Prelude.{◌≤◌, ◌+◌, length};

    ghost fact = { λ v items. v.told_sent ≤ v.received + length items };
}

// The two ends go to different hands, and come together again.
pub struct Ends;

impl Split<View> for Ends {
    ghost use Rattle.chan_queue.specs.Channel.{sending, receiving};

    ghost left = { sending };

    ghost right = { receiving };
}

impl Join<View> for Ends {
    ghost use Rattle.chan_queue.specs.Channel as channel;

    ghost both = { channel.both };

    ghost spent = { channel.spent };
}

// What both ends know together.
pub struct Meets;

impl<S> Lesson<Item<S>, View> for Meets {
    ghost use Rattle.chan_queue.specs.Channel.{IsTold};

    ghost fact = { λ v items. IsTold v };
}
