//! Patterns whose names are bound.

ghost use Rattle.std.specs.Prelude.{IfOk, false};
ghost use Rattle.dslx_check_facts.specs.Walks.{shown};
ghost use Rattle.dslx_check_leaves.specs.Fits.Typed.{pattern_typed};
ghost use Rattle.dslx_check_parts.specs.Parts.{JudgedBinding};

use crate::patterns::pattern;
use dslx_check_facts::{Bindings, Facts, TypeEnv, Walk};
use dslx_check_rules::TypeId;
use dslx_check_rules::control::patterns::PatternTyping;
use dslx_tree::Pattern;
use std::alloc::AllocError;

/// A pattern of its own that may not fail, whose names are in scope from here on.
#[cycle(parts)]
pub(crate) fn bind_pattern<'a>(
    f: &Facts<'a>,
    w: &mut Walk,
    s: &mut TypeEnv<'a>,
    ty: Option<TypeId>,
    p: &'a Pattern,
) -> Result<PatternTyping, AllocError>
    ensures { IfOk result (λ bound. JudgedBinding f.now s.old s.new (shown w.old) (shown w.new) bound ty ((pattern_typed p.now).1 false)) }
{
    let mut names = Bindings::new(f.alloc);
    let bound = pattern(f, w, s, false, ty, p, &mut names)?;
    s.locals.bind_all(names)?;
    Ok(bound)
}
