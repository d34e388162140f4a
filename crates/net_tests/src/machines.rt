use block_stage::fifo::RowFifo;
use block_stage::machine::{Handling, Logic, Table2, Table3, pipeline_logic};
use net_samples::blocks::{Action, Asserted, Machine, Next, Ports, Sample, SampleSite, word};
use xb_bits::Bits;

/// What stands at the ports of channels 0 and 1.
fn ports(first: Option<Bits>, second: Option<Bits>, first_room: bool, second_room: bool) -> Ports {
    Ports {
        valid_word: [first, second, None, None],
        room: [first_room, second_room, false, false],
    }
}

/// The number of a word, or 999 where there is none.
fn number(word: Option<Bits>) -> u128 {
    match word {
        Some(word) => word.value(),
        None => 999,
    }
}

/// A receive from channel 0 in stage 0, and a send of 3 more on channel 1 in stage 2.
const ADDING: [SampleSite; 2] = [
    SampleSite {
        chan: 0,
        stage: 0,
        action: Action::Receive,
    },
    SampleSite {
        chan: 1,
        stage: 2,
        action: Action::SendWord(3),
    },
];

/// One cycle of it with this word at its input: whether it is ready for it, and its valid word.
fn add(machine: &mut Machine, input: u128, ready: bool) -> (bool, u128) {
    let sample = Sample {
        sites: &ADDING,
        stages: 3,
        last: 0,
        next: Next::Add(0),
    };
    let asserted = machine.cycle(
        &pipeline_logic(),
        &sample,
        &ports(Some(word(input)), None, false, ready),
    );
    (asserted.ready[0], number(asserted.words[1]))
}

#[test]
fn an_output_waits_a_cycle(rt: HostRuntime) {
    let mut machine = Machine::reset(word(0));
    assert_eq!(rt; add(&mut machine, 1, true), (true, 999));
    assert_eq!(rt; machine.full, [true, true, false, false]);
    assert_eq!(rt; add(&mut machine, 2, true), (true, 999));
    assert_eq!(rt; machine.full, [true, true, true, false]);
    assert_eq!(rt; add(&mut machine, 3, false), (true, 4));
    assert_eq!(rt; machine.done, [true, false, false, false]);
    assert_eq!(rt; add(&mut machine, 4, true), (false, 4));
    assert_eq!(rt; machine.full, [true, true, true, false]);
    assert_eq!(rt; add(&mut machine, 4, true), (true, 5));
    assert_eq!(rt; add(&mut machine, 5, true), (true, 6));
}

#[test]
fn word_i_moves_in_cycle_i_and_two(rt: HostRuntime) {
    let mut machine = Machine::reset(word(0));
    assert_eq!(rt; add(&mut machine, 1, true), (true, 999));
    assert_eq!(rt; add(&mut machine, 2, true), (true, 999));
    assert_eq!(rt; add(&mut machine, 3, true), (true, 4));
    assert_eq!(rt; add(&mut machine, 4, true), (true, 5));
}

/// Sends its state on channel 0 in stage 0, and begins again with the word of channel 1, which it receives in stage 1.
const ASKING: [SampleSite; 2] = [
    SampleSite {
        chan: 0,
        stage: 0,
        action: Action::SendState(0),
    },
    SampleSite {
        chan: 1,
        stage: 1,
        action: Action::Receive,
    },
];

fn ask(machine: &mut Machine) -> (u128, bool) {
    let sample = Sample {
        sites: &ASKING,
        stages: 2,
        last: 1,
        next: Next::Word,
    };
    let asserted = machine.cycle(&pipeline_logic(), &sample, &ports(None, None, true, false));
    (number(asserted.words[0]), asserted.ready[1])
}

#[test]
fn a_request_is_sent_once_before_its_reply(rt: HostRuntime) {
    let mut machine = Machine::reset(word(0));
    assert_eq!(rt; ask(&mut machine), (0, false));
    for _ in 0..9 {
        assert_eq!(rt; ask(&mut machine), (999, true));
    }
    machine = Machine::reset(word(0));
    assert_eq!(rt; ask(&mut machine), (0, false));
}

/// Two sites on one channel, each in a stage of its own.
const TWICE: [SampleSite; 2] = [
    SampleSite {
        chan: 0,
        stage: 0,
        action: Action::SendState(0),
    },
    SampleSite {
        chan: 0,
        stage: 1,
        action: Action::SendState(1),
    },
];

/// Its valid word in a cycle in which there is room.
fn send_twice(machine: &mut Machine) -> u128 {
    let sample = Sample {
        sites: &TWICE,
        stages: 2,
        last: 1,
        next: Next::Add(2),
    };
    let asserted = machine.cycle(&pipeline_logic(), &sample, &ports(None, None, true, false));
    number(asserted.words[0])
}

#[test]
fn two_sites_send_in_turn(rt: HostRuntime) {
    let mut machine = Machine::reset(word(0));
    assert_eq!(rt; send_twice(&mut machine), 0);
    assert_eq!(rt; send_twice(&mut machine), 1);
    assert_eq!(rt; send_twice(&mut machine), 2);
    assert_eq!(rt; send_twice(&mut machine), 3);
}

/// Receives from channel 0, and sends one more on channel 1.
const RING: [SampleSite; 2] = [
    SampleSite {
        chan: 0,
        stage: 0,
        action: Action::Receive,
    },
    SampleSite {
        chan: 1,
        stage: 1,
        action: Action::SendWord(1),
    },
];

/// One cycle of a pipeline between two FIFOs.
fn between(machine: &mut Machine, sample: &Sample, from: &RowFifo<1>, to: &RowFifo<1>) -> Asserted {
    machine.cycle(
        &pipeline_logic(),
        sample,
        &ports(
            from.valid_word(),
            from.valid_word(),
            to.has_room(),
            to.has_room(),
        ),
    )
}

#[test]
fn a_ring_without_a_word_waits(rt: HostRuntime) {
    let sample = Sample {
        sites: &RING,
        stages: 2,
        last: 0,
        next: Next::Add(0),
    };
    let mut machine = Machine::reset(word(0));
    let mut other = Machine::reset(word(0));
    let mut to = RowFifo::<1>::new();
    let mut back = RowFifo::<1>::new();
    for _ in 0..6 {
        let first = between(&mut machine, &sample, &back, &to);
        let second = between(&mut other, &sample, &to, &back);
        let _to = to.cycle(second.ready[0], first.words[1]);
        let _back = back.cycle(first.ready[0], second.words[1]);
        assert_eq!(rt; (first.ready[0], number(first.words[1])), (true, 999));
        assert_eq!(rt; (second.ready[0], number(second.words[1])), (true, 999));
    }
}

#[test]
fn a_ring_with_a_word_counts(rt: HostRuntime) {
    let asker = Sample {
        sites: &ASKING,
        stages: 2,
        last: 1,
        next: Next::Word,
    };
    let adder = Sample {
        sites: &RING,
        stages: 2,
        last: 0,
        next: Next::Add(0),
    };
    let mut machine = Machine::reset(word(0));
    let mut other = Machine::reset(word(0));
    let mut to = RowFifo::<1>::new();
    let mut back = RowFifo::<1>::new();
    let mut wanted: u128 = 0;
    for _ in 0..20 {
        let first = between(&mut machine, &asker, &back, &to);
        let second = between(&mut other, &adder, &to, &back);
        if let Some(sent) = first.words[0] {
            assert_eq!(rt; sent.value(), wanted);
            wanted = wanted.wrapping_add(1);
        }
        let _to = to.cycle(second.ready[0], first.words[0]);
        let _back = back.cycle(first.ready[1], second.words[1]);
    }
    assert!(rt; wanted > 2);
}

#[test]
fn a_full_fifo_takes_no_word(rt: HostRuntime) {
    let mut fifo = RowFifo::<2>::new();
    assert_eq!(rt; fifo.cycle(true, Some(word(1))), None);
    assert_eq!(rt; fifo.cycle(false, Some(word(2))), None);
    assert!(rt; !fifo.has_room());
    assert_eq!(rt; fifo.cycle(true, Some(word(3))), Some(word(1)));
    assert_eq!(rt; fifo.cycle(true, Some(word(4))), Some(word(2)));
    assert_eq!(rt; fifo.cycle(true, None), Some(word(4)));
    assert_eq!(rt; fifo.cycle(true, None), None);
}

/// Whether the words that were sent, with 999 for a cycle without one, are a prefix of those of the trace.
fn is_prefix(sent: &[u128], trace: &[u128]) -> bool {
    let mut next: usize = 0;
    for word in sent {
        if *word != 999 {
            match trace.get(next) {
                Some(wanted) if *wanted == *word => next = next.wrapping_add(1),
                _ => return false,
            }
        }
    }
    true
}

/// What the adding pipeline sends in eight cycles by this logic, where the output isn't ready in cycles 2 and 3. Each
/// word stands at the input until it is taken.
fn stalled(logic: &Logic) -> [u128; 8] {
    let sample = Sample {
        sites: &ADDING,
        stages: 3,
        last: 0,
        next: Next::Add(0),
    };
    let mut machine = Machine::reset(word(0));
    let mut input: u128 = 1;
    let mut sent = [999; 8];
    for (k, slot) in sent.iter_mut().enumerate() {
        let ready = k != 2 && k != 3;
        let at = ports(Some(word(input)), None, false, ready);
        let asserted = machine.cycle(logic, &sample, &at);
        if asserted.ready[0] {
            input = input.wrapping_add(1);
        }
        if ready {
            *slot = number(asserted.words[1]);
        }
    }
    sent
}

/// What it sends over the words 1, 2, 3 and so on.
const ADDED: [u128; 8] = [4, 5, 6, 7, 8, 9, 10, 11];

#[test]
fn the_right_logic_sends_a_prefix(rt: HostRuntime) {
    let sent = stalled(&pipeline_logic());
    assert_eq!(rt; sent, [999, 999, 999, 999, 4, 5, 6, 7]);
    assert!(rt; is_prefix(&sent, &ADDED));
}

#[test]
fn without_done_bits_it_takes_words_twice(rt: HostRuntime) {
    let mut logic = pipeline_logic();
    logic.done_next = Table3::of(|done, _goes, moves| done && !moves);
    assert!(rt; !is_prefix(&stalled(&logic), &ADDED));
}

#[test]
fn a_word_kept_in_every_cycle_is_lost(rt: HostRuntime) {
    let mut logic = pipeline_logic();
    logic.keeps = Table2::of(|_goes, there| there);
    assert!(rt; !is_prefix(&stalled(&logic), &ADDED));
}

#[test]
fn moving_into_a_full_stage_loses_a_word(rt: HostRuntime) {
    let mut logic = pipeline_logic();
    logic.frees = Table2::of(|_next_full, _next_moves| true);
    assert!(rt; !is_prefix(&stalled(&logic), &ADDED));
}

#[test]
fn moving_while_it_waits_loses_a_word(rt: HostRuntime) {
    let mut logic = pipeline_logic();
    logic.leaves = Table2::of(|full, _waits| full);
    assert!(rt; !is_prefix(&stalled(&logic), &ADDED));
}

/// How many words the adding pipeline sends in eight cycles by this logic, always fed and its words always taken.
fn count_sent(logic: &Logic) -> u32 {
    let sample = Sample {
        sites: &ADDING,
        stages: 3,
        last: 0,
        next: Next::Add(0),
    };
    let mut machine = Machine::reset(word(0));
    let mut count: u32 = 0;
    for _ in 0..8 {
        let at = ports(Some(word(1)), None, false, true);
        if machine.cycle(logic, &sample, &at).words[1].is_some() {
            count = count.wrapping_add(1);
        }
    }
    count
}

#[test]
fn done_bits_that_stay_stop_it(rt: HostRuntime) {
    let mut logic = pipeline_logic();
    assert_eq!(rt; count_sent(&logic), 6);
    logic.done_next = Table3::of(|done, goes, _moves| done || goes);
    assert!(rt; count_sent(&logic) < 6);
}

/// What the pipeline with two sites on one channel sends in four cycles by this logic.
fn sent_twice(logic: &Logic) -> [u128; 4] {
    let sample = Sample {
        sites: &TWICE,
        stages: 2,
        last: 1,
        next: Next::Add(2),
    };
    let mut machine = Machine::reset(word(0));
    let mut sent = [999; 4];
    for slot in sent.iter_mut() {
        let asserted = machine.cycle(logic, &sample, &ports(None, None, true, false));
        *slot = number(asserted.words[0]);
    }
    sent
}

#[test]
fn without_a_turn_bit_activations_overtake(rt: HostRuntime) {
    let mut logic = pipeline_logic();
    assert_eq!(rt; sent_twice(&logic), [0, 1, 2, 3]);
    logic.turn_next = Table3::of(|ends, turn, _moves| ends || turn);
    assert!(rt; !is_prefix(&sent_twice(&logic), &[0, 1, 2, 3]));
}

/// Receives from channel 0 where its state is odd.
const SOMETIMES: [SampleSite; 1] = [SampleSite {
    chan: 0,
    stage: 0,
    action: Action::ReceiveIfOdd,
}];

/// How many words it takes in four cycles by this logic, from state 0 on, always fed.
fn count_taken(logic: &Logic) -> u32 {
    let sample = Sample {
        sites: &SOMETIMES,
        stages: 1,
        last: 0,
        next: Next::Add(1),
    };
    let mut machine = Machine::reset(word(0));
    let mut count: u32 = 0;
    for _ in 0..4 {
        let at = ports(Some(word(7)), None, false, false);
        if machine.cycle(logic, &sample, &at).ready[0] {
            count = count.wrapping_add(1);
        }
    }
    count
}

#[test]
fn a_receive_that_is_off_takes_nothing(rt: HostRuntime) {
    let mut logic = pipeline_logic();
    assert_eq!(rt; count_taken(&logic), 2);
    logic.off = Handling::Take;
    assert_eq!(rt; count_taken(&logic), 4);
}

/// Sends its state on channel 0, and then receives from channel 1, in one stage.
const WAITING: [SampleSite; 2] = [
    SampleSite {
        chan: 0,
        stage: 0,
        action: Action::SendState(0),
    },
    SampleSite {
        chan: 1,
        stage: 0,
        action: Action::Receive,
    },
];

/// How often it sends while no word comes, in four cycles by this logic.
fn count_requests(logic: &Logic) -> u32 {
    let sample = Sample {
        sites: &WAITING,
        stages: 1,
        last: 0,
        next: Next::Word,
    };
    let mut machine = Machine::reset(word(0));
    let mut count: u32 = 0;
    for _ in 0..4 {
        let asserted = machine.cycle(logic, &sample, &ports(None, None, true, false));
        if asserted.words[0].is_some() {
            count = count.wrapping_add(1);
        }
    }
    count
}

#[test]
fn a_word_that_was_sent_is_not_offered_again(rt: HostRuntime) {
    let mut logic = pipeline_logic();
    assert_eq!(rt; count_requests(&logic), 1);
    logic.sent = Handling::Put;
    assert_eq!(rt; count_requests(&logic), 4);
}
