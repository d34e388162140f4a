//! Expressions that are lowered one after another.

ghost use Rattle.std.specs.Prelude.{◌≡◌, Some, IfOk};
ghost use Rattle.dslx_meaning.specs.Lists.{where_true};
ghost use Rattle.dslx_core.specs.Lowering.Trees.{lower_expression, of_type as the_one_of_type};
ghost use Rattle.dslx_next.specs.Opening.Opened.{conditional};
ghost use Rattle.dslx_next.specs.Opening.Works.{HasTable, BodyMakes, scope_at};

use dslx_core::lowering::LoweredExpr;
use dslx_core_exprs::alike::equal_type;
use dslx_instance::tasks::BodyWork;
use dslx_meaning::DslxType;
use dslx_param::lower_in;
use dslx_tree::{End, Expr, Module};
use std::alloc::{AllocError, Global};
use xb_value::Boxed;

/// The environment of all of a `next`: the text, how many instances of functions there may be, and the members.
#[derive(Clone, Copy)]
pub struct NextScope<'a> {
    pub text: &'a Module,
    pub limit: usize,
    pub ends: &'a [End],
}

/// A condition, and a value that goes with it.
#[derive(Drop)]
pub struct Conditional {
    pub condition: LoweredExpr,
    pub value: LoweredExpr,
}

/// An expression.
pub fn lower<'a>(
    alloc: Global,
    known: NextScope<'a>,
    work: BodyWork<'a>,
    expr: &'a Expr,
) -> Result<Option<(LoweredExpr, BodyWork<'a>)>, AllocError>
    requires has_table { HasTable known work }
    ensures { IfOk result (λ o. BodyMakes known.entry work.entry (λ table. lower_expression expr.now (scope_at known.entry work.entry table)) o) }
{
    lower_in(alloc, known.text, known.limit, work, expr)
}

/// An expression of this type.
pub fn lower_of_type<'a>(
    alloc: Global,
    known: NextScope<'a>,
    work: BodyWork<'a>,
    expr: &'a Expr,
    ty: &DslxType,
) -> Result<Option<(LoweredExpr, BodyWork<'a>)>, AllocError>
    requires has_table { HasTable known work }
    ensures { IfOk result (λ o. BodyMakes known.entry work.entry (λ table. the_one_of_type ty.now (lower_expression expr.now (scope_at known.entry work.entry table))) o) }
{
    match lower(alloc, known, work, expr)? {
        Some((value, work)) => {
            let alike = equal_type(ty, &value.ty);
            Ok(where_holds(alike, (value, work)))
        }
        None => Ok(None),
    }
}

/// What is there where this holds. It is generic, so what it lets go costs the prover nothing.
fn where_holds<T: Drop>(holds: bool, made: T) -> Option<T>
    ensures { result ≡ where_true holds (Some made) }
{
    if holds { Some(made) } else { None }
}

/// A condition, and then a value of this type.
pub fn lower_conditional<'a>(
    alloc: Global,
    known: NextScope<'a>,
    work: BodyWork<'a>,
    condition: &'a Expr,
    value: &'a Expr,
    ty: &DslxType,
) -> Result<Option<(Conditional, BodyWork<'a>)>, AllocError>
    requires has_table { HasTable known work }
    ensures { IfOk result (λ o. BodyMakes known.entry work.entry (λ table. conditional ty.now condition.now value.now (scope_at known.entry work.entry table)) o) }
{
    match lower(alloc, known, work, condition)? {
        Some((condition, work)) => {
            let condition = Boxed::new(alloc, condition)?;
            match lower_of_type(alloc, known, work, value, ty)? {
                Some((value, work)) => {
                    let condition = condition.into_inner();
                    Ok(Some((Conditional { condition, value }, work)))
                }
                None => Ok(None),
            }
        }
        None => Ok(None),
    }
}
