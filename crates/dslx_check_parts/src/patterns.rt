//! Patterns.

ghost use Rattle.std.specs.Prelude.{IfOk};
ghost use Rattle.dslx_check_facts.specs.Walks.{shown};
ghost use Rattle.dslx_check_leaves.specs.Fits.Typed as fits;
ghost use Rattle.dslx_check_leaves.specs.Fits.Typed.{pattern_typed};
ghost use Rattle.dslx_check_leaves.specs.Typed as tree;
ghost use Rattle.dslx_check_leaves.specs.Walked.{JudgedPattern};

use crate::numbers::number_value;
use dslx_check_facts::{Facts, TypeEnv, Walk};
use dslx_check_leaves::{Names, bool_pattern, has_type, member_pattern, name_pattern};
use dslx_check_rules::TypeId;
use dslx_check_rules::control::patterns::{
    self, PatternTyping, part_type_of, value_pattern, wild_pattern,
};
use dslx_tree::{Number, Pattern, Shape};
use std::alloc::AllocError;
use xb_span::Span;

/// A pattern against a value of this type, where it may fail or not. What it binds comes behind the names that are bound before.
#[cycle(parts)]
pub fn pattern<'a>(
    f: &Facts<'a>,
    w: &mut Walk,
    s: &mut TypeEnv<'a>,
    may_fail: bool,
    ty: Option<TypeId>,
    p: &'a Pattern,
    names: &mut Names<'a>,
) -> Result<PatternTyping, AllocError>
    ensures { IfOk result (λ j. JudgedPattern f.now s.old s.new (shown w.old) (shown w.new) j ty names.old names.new ((pattern_typed p.now).1 may_fail)) }
{
    match &p.shape {
        Shape::Wild => Ok(wild_pattern()),
        Shape::Bool(_) => bool_pattern(f, w, s, p.span, may_fail, ty, names),
        Shape::Number(number) => number_pattern(f, w, s, p.span, may_fail, ty, number, names),
        Shape::Name(name) => name_pattern(f, w, s, p.span, may_fail, ty, name, names),
        Shape::Member(choice, member) => {
            member_pattern(f, w, s, p.span, may_fail, ty, choice, member, names)
        }
        Shape::Tuple(parts) => {
            tuple_pattern(f, w, s, p.span, may_fail, ty, parts.as_slice(), names)
        }
    }
}

/// A number, which has a type.
#[cycle(parts)]
fn number_pattern<'a>(
    f: &Facts<'a>,
    w: &mut Walk,
    s: &mut TypeEnv<'a>,
    span: Span,
    may_fail: bool,
    ty: Option<TypeId>,
    number: &'a Number,
    names: &mut Names<'a>,
) -> Result<PatternTyping, AllocError>
    ensures { IfOk result (λ j. JudgedPattern f.now s.old s.new (shown w.old) (shown w.new) j ty names.old names.new (fits.number_pattern_at span may_fail number.now)) }
{
    let own = number_value(f, w, s, span, number)?;
    let is_known = has_type(own.ty);
    Ok(value_pattern(&w.types, span, may_fail, ty, own, is_known))
}

/// A tuple: each part sees what those before it bind.
#[cycle(parts)]
fn tuple_pattern<'a>(
    f: &Facts<'a>,
    w: &mut Walk,
    s: &mut TypeEnv<'a>,
    span: Span,
    may_fail: bool,
    ty: Option<TypeId>,
    parts: &'a [Pattern],
    names: &mut Names<'a>,
) -> Result<PatternTyping, AllocError>
    ensures { IfOk result (λ j. JudgedPattern f.now s.old s.new (shown w.old) (shown w.new) j ty names.old names.new (tree.tuple_pattern_at span may_fail parts.now)) }
{
    let mut all = patterns::tuple_pattern(&w.types, span, ty, parts.len());
    'parts: for i in 0..parts.len() {
        let of = part_type_of(&w.types, ty, parts.len(), i);
        let next = pattern(f, w, s, may_fail, of, &parts[i], names)?;
        all = all.and(next);
    }
    Ok(all)
}
