//! Written types without parts.

ghost use Rattle.std.specs.Prelude.{IfOk};
ghost use Rattle.dslx_check_facts.specs.Walks.{shown};
ghost use Rattle.dslx_check_leaves.specs.Named.TypeNames.{name_at};
ghost use Rattle.dslx_check_leaves.specs.Walked.{JudgesPart};

use crate::named::type_named;
use base::texts::Name;
use dslx_check_facts::{Facts, TypeEnv, Walk};
use dslx_check_rules::Typing;
use std::alloc::AllocError;
use xb_span::Span;

/// A type by its name: an alias, a struct or an enum.
pub fn type_of_name<'a>(
    f: &Facts<'a>,
    w: &mut Walk,
    s: &mut TypeEnv<'a>,
    span: Span,
    name: &Name,
) -> Result<Typing, AllocError>
    ensures { IfOk result (λ j. JudgesPart f.now s.old s.new (shown w.old) (shown w.new) j (λ context. name_at span name.now context)) }
{
    type_named(f, w, s, span, name)
}
