ghost use Rattle.std.specs.Prelude.{◌≡◌, ◌<◌, IfOk, length, map};
ghost use Rattle.net_core.specs.WellFormed.{IsNet, IsInputs, IsDepths, AreBehaviorsOf};
ghost use Rattle.net_samples.specs.Behaviors.{behavior_of};

use crate::sample::Sample;
use net_core::{Activation, Config, Inputs, Net};
use std::alloc::{AllocError, Global};

/// Asks the first proc of a network whether it can go, and then makes its first event. The answers are the same.
pub fn ask_and_step(
    alloc: Global,
    net: &Net,
    samples: &[Sample],
    inputs: &Inputs,
    depths: &[u32],
) -> Result<(bool, bool), AllocError>
    requires net { IsNet net.now }
    requires samples { AreBehaviorsOf net.now (map behavior_of samples.now) }
    requires some { 0 < length samples.now }
    requires inputs { IsInputs net.now inputs.now.words }
    requires depths { IsDepths net.now depths.now }
    ensures { IfOk result (λ answers. answers.0 ≡ answers.1) }
{
    let mut config = Config::new(alloc, net, inputs, 1, depths)?;
    let can = config.can(alloc, 0, &samples[0])?;
    let mut kept = Activation::new(alloc);
    let made = config.step(alloc, 0, &samples[0], &mut kept)?;
    Ok((can, made))
}
