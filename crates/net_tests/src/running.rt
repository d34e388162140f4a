//! Two procs that send their numbers to each other, by several workers.

ghost use Rattle.std.specs.Prelude.{◌≡◌, ◌<◌, ◌≤◌, ◌^◌, length, map};
ghost use Rattle.net_core.specs.WellFormed.{IsNet, IsInputs, IsDepths, AreBehaviorsOf};
ghost use Rattle.net_samples.specs.Behaviors.{behavior_of};

use crate::held::Pair;
use crate::meeting::Meeting;
use net_core::{Body, Chan, Inputs, Kind, Name, Net, Outcome, ProcHead, Site};
use net_samples::{Port, Sample, Source, Step, When, bodies_fit, depths_fit, inputs_fit, net_fits};
use proc_runner::run_threads;
use std::alloc::{AllocError, Global};
use std::process::Abort;
use std::sync::Wait;
use std::sync::atomic::Ordering;
use std::test::Fail;
use std::thread::Threads;
use xb_bits::Bits;
use xb_io::{Gate, OpenGate};
use xb_value::{Seq, Ty, Value};

/// A network, what its procs do, its inputs, and the depths of its channels.
#[derive(Drop)]
struct Fixture {
    net: Net,
    samples: Vec<Sample>,
    inputs: Inputs,
    depths: Vec<u32>,
}

/// A name of so many letters.
fn name(alloc: Global, letters: usize) -> Result<Name, AllocError> {
    let mut text = String::new(alloc);
    for _ in 0..letters {
        text.push('x')?;
    }
    Ok(Name::from_string(text))
}

/// It sends its state on a channel and receives from another one; the next state is one more than what it received.
fn ports(to: u32, from: u32) -> [Port; 2] {
    [
        Port {
            site: Site {
                chan: to,
                sends: true,
            },
            when: When::Always,
            source: Source::State,
        },
        Port {
            site: Site {
                chan: from,
                sends: false,
            },
            when: When::Always,
            source: Source::Last,
        },
    ]
}

fn head(alloc: Global, ports: &[Port]) -> Result<ProcHead, AllocError> {
    let mut sites = Vec::new(alloc);
    for port in ports {
        sites.push(port.site)?;
    }
    Ok(ProcHead {
        path: name(alloc, 0)?,
        state: Ty::Bits(8),
        init: Value::Bits(Bits::new(8, 0)),
        sites: Seq::from_vec(sites),
    })
}

fn sample(alloc: Global, ports: &[Port]) -> Result<Sample, AllocError>
    requires { length ports.now < 2 ^ 30 }
{
    Ok(Sample {
        ports: Seq::from_slice(alloc, ports)?,
        step: Step::Count(Source::Last),
    })
}

/// Two procs, each with a channel of depth 2 to the other.
fn both_ways(alloc: Global) -> Result<Fixture, Fail> {
    let mut heads = Vec::new(alloc);
    let mut samples = Vec::new(alloc);
    let mut chans = Vec::new(alloc);
    let mut words = Vec::new(alloc);
    let mut depths = Vec::new(alloc);
    for p in 0..2u32 {
        let ports = ports(p, 1 - p);
        heads.push(head(alloc, &ports)?)?;
        samples.push(sample(alloc, &ports)?)?;
        chans.push(Chan {
            name: name(alloc, p as usize)?,
            ty: Ty::Bits(8),
            kind: Kind::Inner,
            depth: 2,
        })?;
        words.push(Seq::from_vec(Vec::new(alloc)))?;
        depths.push(2)?;
    }
    let net = Net {
        name: name(alloc, 0)?,
        procs: Seq::from_vec(heads),
        chans: Seq::from_vec(chans),
    };
    let inputs = Inputs {
        words: Seq::from_vec(words),
    };
    Ok(Fixture {
        net,
        samples,
        inputs,
        depths,
    })
}

/// The parts of a fixture belong together.
fn assert_fits(rt: &impl Abort, fixture: &Fixture)
    ensures net { IsNet fixture.now.net }
    ensures samples { AreBehaviorsOf fixture.now.net (map behavior_of fixture.now.samples.items) }
    ensures inputs { IsInputs fixture.now.net fixture.now.inputs.words }
    ensures depths { IsDepths fixture.now.net fixture.now.depths.items }
{
    assert!(rt; net_fits(&fixture.net));
    assert!(rt; bodies_fit(&fixture.net, fixture.samples.as_slice()));
    assert!(rt; inputs_fit(&fixture.net, &fixture.inputs));
    assert!(rt; depths_fit(&fixture.net, fixture.depths.as_slice()));
}

/// The outcome of 16 activations by so many workers.
fn run<B: Body + Sync, R: Threads + Wait + Sync, G: Gate + Sync>(
    rt: &R,
    alloc: Global,
    fixture: &Fixture,
    bodies: &[B],
    workers: u32,
    gate: &G,
) -> Result<Outcome, AllocError>
    requires net { IsNet fixture.now.net }
    requires bodies { AreBehaviorsOf fixture.now.net (map B.behavior bodies.now) }
    requires inputs { IsInputs fixture.now.net fixture.now.inputs.words }
    requires depths { IsDepths fixture.now.net fixture.now.depths.items }
    requires workers { (1 ≤ workers) × (workers ≤ 16) }
{
    let depths = fixture.depths.as_slice();
    run_threads(
        rt,
        alloc,
        &fixture.net,
        bodies,
        &fixture.inputs,
        16,
        depths,
        workers,
        gate,
    )
}

/// The same by two workers, where the calls of each proc are held for those of the other.
fn run_pair<B: Body + Sync, R: Threads + Wait + Sync>(
    rt: &R,
    alloc: Global,
    fixture: &Fixture,
    bodies: &[B],
    pair: &Pair,
) -> Result<Outcome, AllocError>
    requires net { IsNet fixture.now.net }
    requires bodies { AreBehaviorsOf fixture.now.net (map B.behavior bodies.now) }
    requires inputs { IsInputs fixture.now.net fixture.now.inputs.words }
    requires depths { IsDepths fixture.now.net fixture.now.depths.items }
{
    let mut held = Vec::new(alloc);
    for (p, body) in bodies.iter().enumerate() {
        held.push(pair.hold(body, p == 0))?;
    }
    run(rt, alloc, fixture, held.as_slice(), 2, &OpenGate)
}

/// Each channel had the words 0 to 15, all received, and each proc ended its 16 activations.
fn assert_done(rt: &impl Abort, outcome: &Outcome) -> Result<(), Fail> {
    assert_eq!(rt; outcome.streams.len(), 2);
    for stream in outcome.streams.as_slice() {
        assert_eq!(rt; stream.words.len(), 16);
        for (number, word) in stream.words.as_slice().iter().enumerate() {
            assert_eq!(rt; word.value(), number as u128);
        }
        assert_eq!(rt; stream.received, 16);
    }
    assert_eq!(rt; outcome.procs.len(), 2);
    for end in outcome.procs.as_slice() {
        let number = match &end.state {
            Value::Bits(bits) => Some(bits.value()),
            _ => None,
        };
        assert_eq!(rt; number, Some(16));
        assert_eq!(rt; end.ends, 16);
        assert_eq!(rt; end.stall, None);
    }
    Ok(())
}

#[test]
fn two_workers_meet_at_a_gate(rt: HostRuntime) -> Result<(), Fail> {
    let alloc = rt.alloc();
    let fixture = both_ways(alloc)?;
    assert_fits(&rt, &fixture);
    let gate = Meeting::new();
    let samples = fixture.samples.as_slice();
    let outcome = run(&rt, alloc, &fixture, samples, 2, &gate)?;
    assert_done(&rt, &outcome)?;
    assert!(rt; gate.has_met());
    Ok(())
}

#[test]
fn two_procs_are_asked_side_by_side(rt: HostRuntime) -> Result<(), Fail> {
    let alloc = rt.alloc();
    let fixture = both_ways(alloc)?;
    assert_fits(&rt, &fixture);
    let pair = Pair::new();
    let outcome = run_pair(&rt, alloc, &fixture, fixture.samples.as_slice(), &pair)?;
    assert_done(&rt, &outcome)?;
    assert!(rt; !pair.missed.load(Ordering::SeqCst));
    assert_eq!(rt; pair.first.calls.load(Ordering::SeqCst), 48);
    assert_eq!(rt; pair.second.calls.load(Ordering::SeqCst), 48);
    Ok(())
}
