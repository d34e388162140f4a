ghost use Rattle.std.specs.Prelude.{◌≡◌, ◌<◌, ◌≤◌, ◌+◌, suc, IfOk, MatchResult, MatchOption, slice_get, Some};
ghost use Rattle.chan_queue.specs.Channel.{sending, receiving, both, MaySend, MayReceive, IsTold};
ghost use Rattle.chan_queue.specs.Passes.{IsSender, IsReceiver, sender_knows, receiver_knows, sender_of, receiver_of};

use crate::item::{Item, Opening, Streams};
use crate::pass::{RecvPass, SendPass};
use crate::view::{ChannelRule, Ends, Meets, Opened, Opens, Receives, Sends, View};
use crossbeam_queue::RuledArrayQueue;
use std::alloc::{AllocError, Global};
use std::sync::Wait;
use xb_bits::Bits;

/// The queue of a channel between two procs.
#[derive(Drop)]
pub struct ChanQueue<S> {
    line: RuledArrayQueue<Item<S>, View, ChannelRule>,
    chan: u32,
}

/// A new channel of a run, with room for `depth` words, and the passes of its two ends.
///
/// It takes all the memory that the channel ever needs.
pub fn make<S: Streams, R: Wait>(
    rt: &R,
    alloc: Global,
    run: S,
    chan: u32,
    depth: u32,
) -> Result<(ChanQueue<S>, SendPass<S>, RecvPass<S>), AllocError>
    requires { 0 < depth }
    ensures { IfOk result (λ made. IsSender made.0 made.1 × IsReceiver made.0 made.2 × (made.0.chan ≡ chan)
        × (sender_knows made.1 ≡ sender_of (S.stream run chan) depth 0 0)
        × (receiver_knows made.2 ≡ receiver_of (S.stream run chan) depth 0 0)) }
{
    let (line, mut pass) = RuledArrayQueue::ruled(alloc, depth as usize)?;
    let item = Item::Opening(Opening { run, chan, depth });
    match line.push_as::<Opens, R>(rt, &mut pass, item) {
        Ok(()) => {}
        Err(_) => unreachable!(),
    }
    match line.pop_as::<Opened, R>(rt, &mut pass) {
        Some(_) => {}
        None => unreachable!(),
    }
    let receiver = line.another::<Ends>(&mut pass);
    Ok((
        ChanQueue { line, chan },
        SendPass { pass },
        RecvPass { pass: receiver },
    ))
}

impl<S: Streams> ChanQueue<S> {
    /// The channel's number in its run.
    pub fn chan(&self) -> u32
        ensures { result ≡ self.now.chan }
    {
        self.chan
    }

    /// Sends the next word of the stream. Where the channel holds as many words as its depth, the word comes back.
    ///
    /// It answers `Ok` where fewer words were sent past those of which the pass was told that they were received.
    pub fn send<R: Wait>(&self, rt: &R, sender: &mut SendPass<S>, word: Bits) -> Result<(), Bits>
        requires pass { IsSender self.now sender.old }
        requires word { MaySend (sender_knows sender.old) word }
        ensures pass { IsSender self.now sender.new }
        ensures word { MatchResult result
            (λ _. (slice_get (sender_knows sender.old).words (sender_knows sender.old).sent ≡ Some word)
            × (sender_knows sender.new ≡ record (sender_knows sender.old) { sent = suc (sender_knows sender.old).sent }))
            (λ back. (back ≡ word) × (sender_knows sender.new ≡ sender_knows sender.old)
            × ((sender_knows sender.old).told_received + (sender_knows sender.old).depth ≤ (sender_knows sender.old).sent)) }
    {
        match self
            .line
            .push_as::<Sends, R>(rt, &mut sender.pass, Item::Word(word))
        {
            Ok(()) => Ok(()),
            Err(_) => Err(word),
        }
    }

    /// Receives the next word of the stream, unless the channel holds none.
    ///
    /// It answers a word where the pass was told of more sends than it received.
    pub fn recv<R: Wait>(&self, rt: &R, receiver: &mut RecvPass<S>) -> Option<Bits>
        requires pass { IsReceiver self.now receiver.old }
        requires word { MayReceive (receiver_knows receiver.old) }
        ensures pass { IsReceiver self.now receiver.new }
        ensures word { MatchOption result
            ((receiver_knows receiver.new ≡ receiver_knows receiver.old) × ((receiver_knows receiver.old).told_sent ≤ (receiver_knows receiver.old).received))
            (λ word. (slice_get (receiver_knows receiver.old).words (receiver_knows receiver.old).received ≡ Some word)
            × (receiver_knows receiver.new ≡ record (receiver_knows receiver.old) { received = suc (receiver_knows receiver.old).received })) }
    {
        match self.line.pop_as::<Receives, R>(rt, &mut receiver.pass) {
            Some(item) => Some(item.into_word()),
            None => None,
        }
    }

    /// The two ends tell each other how many words they sent and received.
    pub fn meet(&self, sender: SendPass<S>, receiver: RecvPass<S>) -> (SendPass<S>, RecvPass<S>)
        requires sender { IsSender self.now sender }
        requires receiver { IsReceiver self.now receiver }
        ensures sender { IsSender self.now result.0
            × (sender_knows result.0 ≡ sending (both (sender_knows sender) (receiver_knows receiver))) }
        ensures receiver { IsReceiver self.now result.1
            × (receiver_knows result.1 ≡ receiving (both (sender_knows sender) (receiver_knows receiver))) }
        ensures told { IsTold (both (sender_knows sender) (receiver_knows receiver)) }
    {
        let SendPass { mut pass } = sender;
        let RecvPass { pass: other } = receiver;
        self.line.absorb::<Ends>(&mut pass, other);
        self.line.learn_as::<Meets>(&mut pass);
        let receiver = self.line.another::<Ends>(&mut pass);
        (SendPass { pass }, RecvPass { pass: receiver })
    }
}
