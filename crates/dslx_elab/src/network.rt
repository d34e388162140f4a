//! The network of a checked text with its procs as bodies, by which the text is run.

ghost use Rattle.std.specs.Prelude.{◌≡◌, ℕ, List, Option, map, IfOk, IfErr};
ghost use Rattle.xb_span.specs.declared.read_error.ReadError.TheVariants.{OutOfMemory};
ghost use Rattle.dslx_tree.specs.declared.item.Module.{Module};
ghost use Rattle.dslx_core.specs.Networks.Assembly.{IsDesignFrom};
ghost use Rattle.dslx_interp.specs.Network.DslxBodies.{behavior_of};
ghost use Rattle.dslx_total.specs.Instances.Checked.{AreOfChecked};
ghost use Rattle.dslx_elab.specs.Runs.{IsAcceptedText, IsOfAccepted, RunsText};

use dslx_core::Design;
use dslx_interp::network::{DslxBody, Elaborated, bodies_of, elaborate};
use net_core::Net;
use std::alloc::Global;
use xb_span::ReadError;

/// A network, and its procs in their order.
#[derive(Drop)]
pub struct Network<'a> {
    pub net: Net,
    pub bodies: Vec<DslxBody<'a>>,
}

/// The network of a checked text that is made of the instances of an accepted text (`design_of`), with its procs. It is the text's
/// network, each proc does what the text's does, and each run has the outcome of the text's run (`RunsText`), as `run` says it.
///
/// It gives up only for want of memory. It takes time as the network is large.
pub fn network_there<'a>(alloc: Global, design: &'a Design) -> Result<Network<'a>, ReadError>
    requires { IsOfAccepted design.now }
    ensures runs { IfOk result (λ made. (m : Module) (top : Option (List ℕ)) → IsAcceptedText m top → (from : IsDesignFrom m top design.now) → AreOfChecked m top from.named_functions → RunsText m top made.net (map behavior_of made.bodies.items)) }
    ensures refused { IfErr result (λ e. e ≡ OutOfMemory) }
{
    crate::runs::accepted_texts_run();
    let Elaborated { net, instances } = elaborate(alloc, design)?;
    let bodies = bodies_of(alloc, design, instances.as_slice())?;
    Ok(Network { net, bodies })
}
