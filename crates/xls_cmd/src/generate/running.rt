//! The lines of runs.

ghost use Rattle.std.specs.Prelude.{◌≡◌, IfOk, map};
ghost use Rattle.net_core.specs.WellFormed.{AreBehaviorsOf, IsInputs, IsNet};
ghost use Rattle.xls_cmd.specs.Gen.Inner.{TellsRun};
ghost use Rattle.xls_cmd.specs.Gen.Told.{run_line, words_of_b};
ghost use Rattle.xls_gen.specs.Level.{level_line};
ghost use Rattle.xls_gen.specs.declared.level.Level.TheVariants.{Threads as AtThreads};

use crate::design::depths;
use net_core::{Body, Inputs, Net, Outcome};
use proc_runner::run_threads;
use std::alloc::{AllocError, Global};
use std::sync::Wait;
use std::thread::Threads;
use xb_bits::Bits;
use xb_io::Gate;
use xb_value::at;
use xls_gen::events::run_counted;
use xls_gen::level::{Level, push_line};

/// How many activations each proc makes at most.
const ACTIVATIONS: u32 = 64;

/// By how many workers the source is run at the level of threads.
const WORKERS: u32 = 4;

/// The line of a run, and how many events it has.
#[derive(Drop)]
pub struct Told {
    pub line: Vec<u8>,
    pub events: u64,
}

/// What is told of a run of a network, in one thread.
pub fn told_alone<B: Body>(
    alloc: Global,
    level: Level,
    net: &Net,
    bodies: &[B],
    inputs: &Inputs,
) -> Result<Told, AllocError>
    requires net { IsNet net.now }
    requires bodies { AreBehaviorsOf net.now (map B.behavior bodies.now) }
    requires inputs { IsInputs net.now inputs.now.words }
    ensures { IfOk result (λ told. TellsRun level inputs.now.words net.now (map B.behavior bodies.now) told) }
{
    let depths = depths(alloc, net, None)?;
    let counted = run_counted(alloc, net, bodies, inputs, ACTIVATIONS, depths.as_slice())?;
    let (outcome, events) = counted;
    let line = outcome_line(alloc, level, &outcome)?;
    Ok(Told { line, events })
}

/// The line of a run of a network by several workers.
pub fn line_by_workers<B: Body + Sync, R: Threads + Wait + Sync, G: Gate + Sync>(
    rt: &R,
    alloc: Global,
    net: &Net,
    bodies: &[B],
    inputs: &Inputs,
    gate: &G,
) -> Result<Vec<u8>, AllocError>
    requires net { IsNet net.now }
    requires bodies { AreBehaviorsOf net.now (map B.behavior bodies.now) }
    requires inputs { IsInputs net.now inputs.now.words }
    ensures { IfOk result (λ line. line.items ≡ run_line AtThreads inputs.now.words net.now (map B.behavior bodies.now)) }
{
    let depths = depths(alloc, net, None)?;
    let outcome = run_threads(
        rt,
        alloc,
        net,
        bodies,
        inputs,
        ACTIVATIONS,
        depths.as_slice(),
        WORKERS,
        gate,
    )?;
    outcome_line(alloc, Level::Threads, &outcome)
}

/// The line of an outcome.
fn outcome_line(alloc: Global, level: Level, outcome: &Outcome) -> Result<Vec<u8>, AllocError>
    ensures { IfOk result (λ line. line.items ≡ level_line level (words_of_b outcome.now)) }
{
    line_of(alloc, level, words_of_b(outcome))
}

/// The line of these words.
pub fn line_of(alloc: Global, level: Level, words: &[Bits]) -> Result<Vec<u8>, AllocError>
    ensures { IfOk result (λ line. line.items ≡ level_line level words.now) }
{
    let mut line = Vec::new(alloc);
    push_line(alloc, &mut line, level, words)?;
    Ok(line)
}

/// The words that were sent on channel `b`.
fn words_of_b(outcome: &Outcome) -> &[Bits]
    ensures { result.now ≡ words_of_b outcome.now }
{
    match at(outcome.streams.as_slice(), 1) {
        Some(stream) => stream.words.as_slice(),
        None => &[],
    }
}
