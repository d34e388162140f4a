//! The network by which a design is run.

ghost use Rattle.std.specs.Prelude.{◌<◌, ◌^◌, Ok, length, map, IfOk, IfErr};
ghost use Rattle.net_core.specs.WellFormed.{IsInputs};
ghost use Rattle.dslx_core.specs.Designs.{core_network};
ghost use Rattle.dslx_elab.specs.Runs.{IsOfAccepted};
ghost use Rattle.dslx_interp.specs.Network.DslxBodies.{behavior_of};
ghost use Rattle.xls_cmd.specs.Shared.Done.{StopsBy};
ghost use Rattle.xls_cmd.specs.Design.Commands.{ReadsInputs};
ghost use Rattle.xls_cmd.specs.Design.Inner.{RunsDesign};

use crate::design::source::inputs_of;
use crate::shared::Refusal;
use dslx_core::Design;
use dslx_elab::{Network, network_there};
use net_core::Inputs;
use std::alloc::{AllocError, Global};

/// The network of an accepted design, with its procs.
pub fn made_network<'a>(alloc: Global, design: &'a Design) -> Result<Network<'a>, AllocError>
    requires { IsOfAccepted design.now }
    ensures { IfOk result (λ made. RunsDesign design.now made.net (map behavior_of made.bodies.items)) }
{
    dslx_elab::runs::accepted_texts_run();
    match network_there(alloc, design) {
        Ok(made) => Ok(made),
        Err(_) => Err(AllocError),
    }
}

/// The words that a channel file says for the inputs of a design's network. The network is made for this alone: it has 256 procs and 1,024
/// channels at most.
pub fn inputs_of_design<'a>(
    alloc: Global,
    name: &'a str,
    file: &[u8],
    design: &Design,
) -> Result<Inputs, Refusal<'a>>
    requires design { IsOfAccepted design.now }
    requires short { length file.now < 2 ^ 32 }
    ensures says { IfOk result (λ inputs. ReadsInputs name.entry.now file.now (core_network design.now) (Ok inputs)) }
    ensures fits { IfOk result (λ inputs. IsInputs (core_network design.now) inputs.words) }
    ensures refused { IfErr result (StopsBy (ReadsInputs name.entry.now file.now (core_network design.now))) }
{
    let made = made_network(alloc, design)?;
    inputs_of(alloc, name, file, &made.net)
}
