//! What is held while a step is done: it is small, or in a box, so that letting it go is one call.

ghost use Rattle.std.specs.Prelude.{◌≡◌, ◌∷◌, [], IfOk, OnOk, MatchOption};
ghost use Rattle.dslx_core.specs.Machines.Machine.Bodies.{doing, restores};
ghost use Rattle.dslx_core.specs.Machines.Machine.Tasks.{Restores};
ghost use Rattle.dslx_instance.specs.Tasks.Shown.{body_shown};

use base::stacks::Stack;
use dslx_instance::tasks::{LowerTask, OpenBody};
use std::alloc::{AllocError, Global};
use xb_value::Boxed;

/// How many names and values are bound where something begins, to go back to.
#[derive(Clone, Copy)]
pub(crate) struct Mark {
    pub(crate) names: usize,
    pub(crate) count: u64,
}

/// What is bound here.
pub(crate) fn mark_of(body: &OpenBody) -> Mark
    ensures { Restores result.names result.count ≡ restores (body_shown body.now) }
{
    Mark {
        names: body.locals.len(),
        count: body.count,
    }
}

/// Then what is bound now goes back to what was bound there.
pub(crate) fn go_back<'a>(body: &mut OpenBody<'a>, mark: Mark) -> Result<(), AllocError>
    ensures { OnOk result (body_shown body.new ≡ doing (Restores mark.names mark.count ∷ []) (body_shown body.old)) }
{
    body.first(LowerTask::Restore(mark.names, mark.count))
}

/// Takes off the top in a box, if there is one.
pub(crate) fn take_boxed<T: Drop>(
    stack: &mut Stack<T>,
    alloc: Global,
) -> Result<Option<Boxed<T>>, AllocError>
    ensures { IfOk result (λ o. MatchOption o ((stack.old ≡ []) × (stack.new ≡ [])) (λ top. stack.old ≡ top ∷ stack.new)) }
{
    match stack.take_off() {
        Some(top) => Ok(Some(Boxed::new(alloc, top)?)),
        None => Ok(None),
    }
}
