//! Bodies of functions and procs.

ghost use Rattle.std.specs.Prelude.{IfOk};
ghost use Rattle.dslx_check_facts.specs.Walks.{shown};
ghost use Rattle.dslx_check_judge.specs.Instances.Inner.Bodies.{JudgesBody};

use dslx_check_facts::{Facts, TypeEnv, Walk, reached_since};
use dslx_check_leaves::named::size_limited;
use dslx_check_parts::block;
use dslx_check_rules::{TypeId, Typing, wanted_faults};
use dslx_tree::Block;
use std::alloc::AllocError;

/// A body whose value has to be of this type: rule 9 at the whole block, and the limit on its size.
pub(crate) fn body_seen<'a>(
    f: &Facts<'a>,
    w: &mut Walk,
    s: &mut TypeEnv<'a>,
    on_top: bool,
    wanted: Option<TypeId>,
    body: &'a Block,
) -> Result<Typing, AllocError>
    ensures { IfOk result (λ j. JudgesBody f.now s.old s.new (shown w.old) (shown w.new) j wanted on_top body.now) }
{
    let from = w.reached.len();
    let typing = block(f, w, s, body, on_top)?;
    let wrong = wanted_faults(&w.types, body.span, wanted, typing.ty);
    let reached = reached_since(f, w, from)?;
    Ok(size_limited(reached, body.span.to, typing.with(wrong)))
}
