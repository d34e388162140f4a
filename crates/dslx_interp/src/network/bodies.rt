//! All procs of a network as bodies.

ghost use Rattle.std.specs.Prelude.{◌≡◌, ◌<◌, ◌^◌, Some, length, map, slice_get, IfOk};
ghost use Rattle.net_core.specs.WellFormed.{EachKeepsTypes};
ghost use Rattle.dslx_core.specs.Designs.{core_behaviors, core_family};
ghost use Rattle.dslx_core.specs.declared.design.Instance.{Instance};
ghost use Rattle.dslx_interp.specs.Network.Bodies.{ReceivesWords, own_instance};
ghost use Rattle.dslx_interp.specs.Network.DslxBodies.{behavior_of};

use crate::network::body::DslxBody;
use dslx_core::{Design, Instance};
use std::alloc::{AllocError, Global};

/// The procs of a checked text's network, in their order, by the numbers of their instances.
pub fn bodies_of<'a>(
    alloc: Global,
    design: &'a Design,
    instances: &[u64],
) -> Result<Vec<DslxBody<'a>>, AllocError>
    requires instances { map (slice_get design.now.procs) instances.now ≡ map own_instance (core_family design.now).procs }
    requires words { ReceivesWords design.now }
    requires keep { EachKeepsTypes (core_behaviors design.now) }
    requires few { length instances.now < 2 ^ 32 }
    ensures { IfOk result (λ bodies. map behavior_of bodies.items ≡ core_behaviors design.now) }
{
    let procs = design.procs.as_slice();
    let mut bodies = Vec::new(alloc);
    'procs: for number in 0..instances.len() {
        let instance = instance_at(procs, instances[number]);
        bodies.push(DslxBody::new(design, number as u32, instance))?;
    }
    Ok(bodies)
}

/// The instance of this number.
fn instance_at<'a>(instances: &'a [Instance], number: u64) -> &'a Instance
    requires { (i : Instance) × (slice_get instances.now number ≡ Some i) }
    ensures { slice_get instances.now number ≡ Some result.now }
{
    &instances[number as usize]
}
