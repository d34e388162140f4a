//! The procs of a checked text, as bodies that runs take.

ghost use Rattle.std.specs.Prelude.{◌≡◌, ◌<◌, length, IsTrue};
ghost use Rattle.std.specs.List.{list_all};
ghost use Rattle.net_core.specs.Behavior.{KeepsTypes};
ghost use Rattle.dslx_core.specs.Designs.{core_family};
ghost use Rattle.dslx_interp.specs.Network.Bodies.{behavior_at, proc_at, receives_word};
ghost use Rattle.dslx_interp.specs.Network.KeepsTypes.{KeepsTypes-prop};

use crate::network::walk::{Walk, is_at_site};
use dslx_core::{Design, Instance};
use net_core::{Activation, Body, Event};
use std::alloc::{AllocError, Global};
use xb_bits::Bits;
use xb_value::Value;

/// A proc of a checked text, as what its sites do. It borrows the text, and takes no memory of its own.
#[derive(Drop)]
pub struct DslxBody<'a> {
    design: &'a Design,
    number: u32,
    instance: &'a Instance,
    ghost within: { number < length (core_family design.now).procs },
    ghost is: { (proc_at design.now number instance.now).instance ≡ instance.now },
    ghost words: { IsTrue (list_all receives_word instance.now.steps) },
    ghost keeps: { KeepsTypes (behavior_at design.now number instance.now) } by { KeepsTypes-prop (behavior_at design.now number instance.now) },
}

impl<'a> DslxBody<'a> {
    ghost use Rattle.std.specs.Prelude.{◌≡◌, slice_get, Some};
    ghost use Rattle.dslx_core.specs.Designs.{core_behaviors};
    ghost use Rattle.dslx_interp.specs.Network.DslxBodies.{behavior_of};

    /// The proc of this number in the network, which is of this instance.
    pub fn new(design: &'a Design, number: u32, instance: &'a Instance) -> DslxBody<'a>
        requires within { number < length (core_family design.now).procs }
        requires is { (proc_at design.now number instance.now).instance ≡ instance.now }
        requires words { IsTrue (list_all receives_word instance.now.steps) }
        requires keeps { KeepsTypes (behavior_at design.now number instance.now) }
        ensures { slice_get (core_behaviors design.now) number ≡ Some (behavior_of result) }
    {
        DslxBody {
            design,
            number,
            instance,
        }
    }
}

impl Body for DslxBody<'_> {
    ghost use Rattle.dslx_interp.specs.Network.DslxBodies.{behavior_of};
    ghost use Rattle.dslx_interp.specs.Network.Inner.Keeps.{KeepsWalk};
    ghost use Rattle.dslx_interp.specs.Network.Inner.Kept.{keeps_begin, keeps_stay};

    ghost behavior = { behavior_of };

    ghost keeps = { λ body kept. KeepsWalk body.design.now body.number body.instance.now kept };

    /// The steps up to the event are gone through, once an activation, from a copy of the state. The word of a send is worked out
    /// once, however often it is asked for.
    fn next(
        &self,
        alloc: Global,
        kept: &mut Activation,
        state: &Value,
        got: &[Bits],
        done: u32,
    ) -> Result<Event, AllocError> {
        let functions = self.design.functions.as_slice();
        let steps = self.instance.steps.as_slice();
        let first = kept.steps;
        let mut sent = kept.sent;
        let mut walk = Walk::resume(alloc, kept, state)?;
        'steps: for number in first..steps.len() {
            match walk.step(alloc, functions, got, done, &mut sent, &steps[number])? {
                None => {}
                Some(event) => {
                    if is_at_site(&event) {
                        walk.keep(kept, number, sent);
                    }
                    return Ok(event);
                }
            }
        }
        walk.end(alloc, functions, &self.instance.next, kept)
    }

    ghost begins = { λ body kept state got done nothing. keeps_begin body.design.now body.number body.instance.now kept state got done nothing };

    ghost stays = { λ body kept state got more done later longer right. keeps_stay body.design.now body.number body.instance.now kept state got more done later longer right };

    ghost keeps_types = { λ body. body.keeps };
}
