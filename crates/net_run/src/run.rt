ghost use Rattle.std.specs.Prelude.{◌≡◌, ◌<◌, ◌∷◌, ◌++◌, [], ℕ, Bool, false, List, IfOk, OnOk, MatchBool, map, length};
ghost use Rattle.net_core.specs.Cuts.{Run, Cut, final_cut};
ghost use Rattle.net_core.specs.Machine.{goes};
ghost use Rattle.net_core.specs.Outcomes.{behaviors_of, outcome_of};
ghost use Rattle.net_core.specs.WellFormed.{IsNet, IsInputs, IsDepths, IsOutcome, AreBehaviorsOf, run_of};
ghost use Rattle.net_core.specs.Shows.{Shows, IsAskedWith, WhereAsked, IsRunWith, WhereRun, events_left};
ghost use Rattle.net_run.specs.Rounds.{Advances, AllAdvance};

use net_core::{Activation, Body, Config, Inputs, Net, Outcome};
use std::alloc::{AllocError, Global};

/// Runs a network in which each proc makes at most `n` activations, until no proc can go.
///
/// It goes round the procs, each of which makes all events that it can, and ends with a round without an event. So it
/// asks the bodies once for each event, and at most once more for each proc in each round. A body works each step of an
/// activation out at most once in a round.
pub fn run_one<B: Body>(
    alloc: Global,
    net: &Net,
    bodies: &[B],
    inputs: &Inputs,
    n: u32,
    depths: &[u32],
) -> Result<Outcome, AllocError>
    requires net { IsNet net.now }
    requires bodies { AreBehaviorsOf net.now (map B.behavior bodies.now) }
    requires inputs { IsInputs net.now inputs.now.words }
    requires depths { IsDepths net.now depths.now }
    ensures outcome { IfOk result (λ outcome.
        let run = run_of net.now (map B.behavior bodies.now) inputs.now.words n depths.now in
        outcome ≡ outcome_of run (final_cut run)) }
    ensures fits { IfOk result (λ outcome. IsOutcome net.now outcome) }
{
    let mut config = Config::new(alloc, net, inputs, n, depths)?;
    run_to_end(alloc, &mut config, bodies)?;
    config.outcome(alloc, bodies)
}

/// Goes round the procs until a round makes no event.
fn run_to_end<B: Body>(alloc: Global, config: &mut Config, bodies: &[B]) -> Result<(), AllocError>
    requires { IsRunWith config.old (map B.behavior bodies.now) }
    ensures { OnOk result (WhereRun config.old (map B.behavior bodies.now) (λ run cut. Shows run (final_cut run) config.new)) }
{
    while round(alloc, config, bodies)? {}
    Ok(())
}

/// Each proc in turn makes all events that it can, and the answer is whether there was one.
fn round<B: Body>(alloc: Global, config: &mut Config, bodies: &[B]) -> Result<bool, AllocError>
    requires { IsRunWith config.old (map B.behavior bodies.now) }
    ensures passes { IfOk result (λ moved. WhereRun config.old (map B.behavior bodies.now) (λ run cut.
        AllAdvance run cut (length bodies.now) config.new moved)) }
    ensures falls { IfOk result (λ moved.
        MatchBool moved (events_left config.new < events_left config.old) (events_left config.new ≡ events_left config.old)) }
{
    let mut moved = false;
    for (p, body) in bodies.iter().enumerate() {
        if advance(alloc, config, p as u32, body)? {
            moved = true;
        }
    }
    Ok(moved)
}

/// A proc makes all events that it can, and the answer is whether there was one. Each step of an activation is worked out
/// once.
fn advance<B: Body>(
    alloc: Global,
    config: &mut Config,
    p: u32,
    body: &B,
) -> Result<bool, AllocError>
    requires { IsAskedWith config.old p (B.behavior body.now) }
    ensures advances { IfOk result (λ moved. WhereAsked config.old p (B.behavior body.now) (λ run cut.
        Advances run cut p config.new moved)) }
    ensures falls { IfOk result (λ moved.
        MatchBool moved (events_left config.new < events_left config.old) (events_left config.new ≡ events_left config.old)) }
{
    let mut kept = Activation::new(alloc);
    let mut went = false;
    while config.step(alloc, p, body, &mut kept)? {
        went = true;
    }
    Ok(went)
}
