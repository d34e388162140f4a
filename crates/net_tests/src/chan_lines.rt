ghost use Rattle.std.specs.Prelude.{◌≡◌, length, IfOk};
ghost use Rattle.chan_queue.specs.Passes.{IsSender, IsReceiver, sender_knows, receiver_knows, sender_of, receiver_of};

use chan_queue::{ChanQueue, RecvPass, SendPass, Streams, make};
use std::alloc::{AllocError, Global};
use std::sync::Wait;
use std::test::Fail;
use std::thread;
use std::thread::Threads;
use xb_bits::Bits;

/// A run in which 7, 9 and then 12 go over each channel.
#[derive(Drop)]
struct ThreeWords;

impl Streams for ThreeWords {
    ghost use Rattle.std.specs.Prelude.{[], ◌∷◌};
    ghost use Rattle.xb_bits.specs.Word.{word};

    ghost stream = { λ run chan. record { words = word 8 7 ∷ (word 8 9 ∷ (word 8 12 ∷ [])); received = 3 } };
}

#[test]
fn a_channel_of_depth_two_holds_two_words(rt: HostRuntime) -> Result<(), Fail> {
    let (queue, mut sender, mut receiver) = make(&rt, rt.alloc(), ThreeWords, 3, 2)?;
    assert_eq!(rt; queue.chan(), 3);
    let landed = queue.send(&rt, &mut sender, Bits::new(8, 7));
    assert!(rt; landed.is_ok());
    let landed = queue.send(&rt, &mut sender, Bits::new(8, 9));
    assert!(rt; landed.is_ok());
    let full = queue.send(&rt, &mut sender, Bits::new(8, 12));
    assert_eq!(rt; full.err(), Some(Bits::new(8, 12)));
    let got = queue.recv(&rt, &mut receiver);
    assert_eq!(rt; got, Some(Bits::new(8, 7)));
    let got = queue.recv(&rt, &mut receiver);
    assert_eq!(rt; got, Some(Bits::new(8, 9)));
    assert_eq!(rt; queue.recv(&rt, &mut receiver), None);
    Ok(())
}

/// A run in which these words go over each channel, and all are received.
#[derive(Drop)]
struct Given<'a> {
    words: &'a [Bits],
}

impl<'a> Streams for Given<'a> {
    ghost use Rattle.std.specs.Prelude.{length};

    ghost stream = { λ run chan. record { words = run.words.now; received = length run.words.now } };
}

/// Sends all words, each as soon as there is room.
fn send_all<S: Streams, R: Wait>(
    rt: &R,
    line: &ChanQueue<S>,
    mut sender: SendPass<S>,
    words: &[Bits],
) -> SendPass<S>
    requires { IsSender line.now sender × (sender_knows sender ≡ sender_of (record { words = words.now; received = length words.now }) 2 0 0) }
    ensures { IsSender line.now result }
{
    let mut next = 0;
    for _ in rt.forever() {
        if next >= words.len() {
            break;
        }
        match line.send(rt, &mut sender, words[next]) {
            Ok(()) => next += 1,
            Err(_) => thread::yield_now(),
        }
    }
    sender
}

/// Receives as many words as there are.
fn receive_all<S: Streams, R: Wait>(
    rt: &R,
    alloc: Global,
    line: &ChanQueue<S>,
    mut receiver: RecvPass<S>,
    words: &[Bits],
) -> Result<Vec<Bits>, AllocError>
    requires { IsReceiver line.now receiver × (receiver_knows receiver ≡ receiver_of (record { words = words.now; received = length words.now }) 2 0 0) }
    ensures { IfOk result (λ got. got.items ≡ words.now) }
{
    let mut got = Vec::new(alloc);
    for _ in rt.forever() {
        if got.len() >= words.len() {
            break;
        }
        match line.recv(rt, &mut receiver) {
            Some(word) => got.push(word)?,
            None => thread::yield_now(),
        }
    }
    Ok(got)
}

/// One thread sends the words, and another one receives them.
fn in_two_threads<S: Streams + Send + Sync, R: Threads + Wait + Sync>(
    rt: &R,
    alloc: Global,
    line: &ChanQueue<S>,
    sender: SendPass<S>,
    receiver: RecvPass<S>,
    words: &[Bits],
) -> Result<Vec<Bits>, AllocError>
    requires sender { IsSender line.now sender × (sender_knows sender ≡ sender_of (record { words = words.now; received = length words.now }) 2 0 0) }
    requires receiver { IsReceiver line.now receiver × (receiver_knows receiver ≡ receiver_of (record { words = words.now; received = length words.now }) 2 0 0) }
    ensures { IfOk result (λ got. got.items ≡ words.now) }
{
    let (_, got) = thread::join(
        rt,
        move ||
            requires { IsSender line.now sender × (sender_knows sender ≡ sender_of (record { words = words.now; received = length words.now }) 2 0 0) }
            ensures { IsSender line.entry.now result }
        { send_all(rt, line, sender, words) },
        move ||
            requires { IsReceiver line.now receiver × (receiver_knows receiver ≡ receiver_of (record { words = words.now; received = length words.now }) 2 0 0) }
            ensures { IfOk result (λ got. got.items ≡ words.entry.now) }
        { receive_all(rt, alloc, line, receiver, words) },
    );
    got
}

/// What one thread sends over a channel of depth 2 arrives at another one whole and in order.
fn pass_on<R: Threads + Wait + Sync>(
    rt: &R,
    alloc: Global,
    words: &[Bits],
) -> Result<Vec<Bits>, AllocError>
    ensures { IfOk result (λ got. got.items ≡ words.now) }
{
    let run = Given { words };
    let (queue, sender, receiver) = make(rt, alloc, run, 0, 2)?;
    in_two_threads(rt, alloc, &queue, sender, receiver, words)
}

#[test]
fn two_threads_pass_all_words_on(rt: HostRuntime) -> Result<(), Fail> {
    let mut words = Vec::new(rt.alloc());
    for k in 0..1000u32 {
        words.push(Bits::new(32, u128::from(k)))?;
    }
    let got = pass_on(&rt, rt.alloc(), words.as_slice())?;
    assert_eq!(rt; got.len(), 1000);
    for (word, sent) in got.as_slice().iter().zip(words.as_slice()) {
        assert_eq!(rt; word.value(), sent.value());
    }
    Ok(())
}
