//! Expressions in order, and what is made of them.

ghost use Rattle.std.specs.Prelude.{◌≡◌, ◌∷◌, ◌++◌, [], List, Some, IfOk};
ghost use Rattle.dslx_meaning.specs.Lists.{and_then, where_true};
ghost use Rattle.dslx_core.specs.Lowering.Functions.{CoreInstance};
ghost use Rattle.dslx_core.specs.Lowering.Lowering.{LoweredExpr};
ghost use Rattle.dslx_core.specs.Machines.Machine.Bodies.{doing, with_last, with_made};
ghost use Rattle.dslx_core.specs.Machines.Machine.Parts.{gathers, made_of_parts, part_begins, part_taken};
ghost use Rattle.dslx_core.specs.Machines.Machine.Tasks.{Gathers};
ghost use Rattle.dslx_instance.specs.Tasks.Shown.{body_shown, parts_shown, parts_task_shown, instance_env_of};
ghost use Rattle.dslx_instance_parts.specs.Inner.Elements.{begins_by, element_by, number_by};

use crate::call::begin_call;
use dslx_const_tasks::items::{number_of, untyped_of};
use dslx_core::lowering::LoweredExpr;
use dslx_core_exprs::aggregates::{lower_array_elements, lower_filled, lower_tuple};
use dslx_instance::steps::fits_part;
use dslx_instance::tasks::{LowerTask, OpenBody, PartsMaker, PartsTask};
use dslx_meaning::{DslxType, UntypedLiteral};
use dslx_scope_names::scopes::literal_if;
use dslx_tree::{Expr, Module};
use std::alloc::{AllocError, Global};

/// Goes on with the expressions that are left, behind these; whether there is what is made of them.
pub fn gather<'a>(
    body: &mut OpenBody<'a>,
    alloc: Global,
    text: &'a Module,
    before: Vec<LoweredExpr>,
    exprs: &'a [Expr],
    maker: PartsMaker<'a>,
) -> Result<bool, AllocError>
    ensures { IfOk result (λ is. (table : List CoreInstance) → where_true is (Some (body_shown body.new)) ≡ gathers (instance_env_of text.now table) before.items exprs.now (parts_shown maker.entry) (body_shown body.old)) }
{
    match exprs {
        [] => make_parts(body, alloc, text, maker, before),
        [first, rest @ ..] => begin_part(body, alloc, before, first, rest, maker),
    }
}

/// Lowers the next of several expressions; a number without a type has the one of an array's elements.
#[tactic(auto, using(crate::proofs::Elements::begins_part))]
fn begin_part<'a>(
    body: &mut OpenBody<'a>,
    alloc: Global,
    before: Vec<LoweredExpr>,
    first: &'a Expr,
    rest: &'a [Expr],
    maker: PartsMaker<'a>,
) -> Result<bool, AllocError>
    ensures { IfOk result (λ is. where_true is (Some (body_shown body.new)) ≡ part_begins (parts_shown maker.entry) first.now (doing (Gathers before.items rest.now (parts_shown maker.entry) ∷ []) (body_shown body.old))) }
{
    let number = element_number(alloc, &maker, first)?;
    begin_by(
        body,
        alloc,
        number,
        first,
        PartsTask::Gather(before, rest, maker),
    )
}

/// Lowers an expression, or has it at once, and then does a task.
fn begin_by<'a>(
    body: &mut OpenBody<'a>,
    alloc: Global,
    number: Option<Option<LoweredExpr>>,
    expr: &'a Expr,
    then: PartsTask<'a>,
) -> Result<bool, AllocError>
    ensures { IfOk result (λ is. where_true is (Some (body_shown body.new)) ≡ begins_by number expr.now (doing (parts_task_shown then.entry ∷ []) (body_shown body.old))) }
{
    body.first_parts(alloc, then)?;
    match number {
        Some(number) => body.give_if(number),
        None => {
            body.first(LowerTask::Expr(expr))?;
            Ok(true)
        }
    }
}

/// The element that a number without a type is, in an array of a type.
fn element_number(
    alloc: Global,
    maker: &PartsMaker,
    expr: &Expr,
) -> Result<Option<Option<LoweredExpr>>, AllocError>
    ensures { IfOk result (λ o. o ≡ element_by (parts_shown maker.now) expr.now) }
{
    match maker {
        PartsMaker::Fill(ty, _, _) => number_in(alloc, ty, untyped_of(expr)),
        _ => Ok(None),
    }
}

/// The number of a type.
fn number_in(
    alloc: Global,
    ty: &DslxType,
    number: Option<UntypedLiteral>,
) -> Result<Option<Option<LoweredExpr>>, AllocError>
    ensures { IfOk result (λ o. o ≡ number_by ty.now number) }
{
    match number {
        Some(number) => {
            let value = number_of(ty, number)?;
            Ok(Some(literal_if(alloc, value)?))
        }
        None => Ok(None),
    }
}

/// Puts what was made last behind those before it, if it is of the type that is wanted, and goes on with the next.
pub fn take_part<'a>(
    body: &mut OpenBody<'a>,
    alloc: Global,
    text: &'a Module,
    before: Vec<LoweredExpr>,
    rest: &'a [Expr],
    maker: PartsMaker<'a>,
) -> Result<bool, AllocError>
    ensures { IfOk result (λ is. (table : List CoreInstance) → where_true is (Some (body_shown body.new)) ≡ with_last (body_shown body.old).made (λ e made. and_then (part_taken (parts_shown maker.entry) e) (λ e. gathers (instance_env_of text.now table) (before.items ++ e ∷ []) rest.now (parts_shown maker.entry) (with_made made (body_shown body.old))))) }
{
    match body.made.take_off() {
        Some(last) => put_part(body, alloc, text, before, last, rest, maker),
        None => Ok(false),
    }
}

fn put_part<'a>(
    body: &mut OpenBody<'a>,
    alloc: Global,
    text: &'a Module,
    before: Vec<LoweredExpr>,
    last: LoweredExpr,
    rest: &'a [Expr],
    maker: PartsMaker<'a>,
) -> Result<bool, AllocError>
    ensures { IfOk result (λ is. (table : List CoreInstance) → where_true is (Some (body_shown body.new)) ≡ and_then (part_taken (parts_shown maker.entry) last) (λ e. gathers (instance_env_of text.now table) (before.items ++ e ∷ []) rest.now (parts_shown maker.entry) (body_shown body.old))) }
{
    if fits_part(&maker, &last) {
        gather(body, alloc, text, put_behind(before, last)?, rest, maker)
    } else {
        Ok(false)
    }
}

/// The expressions, and one more behind them.
pub(crate) fn put_behind(
    mut exprs: Vec<LoweredExpr>,
    expr: LoweredExpr,
) -> Result<Vec<LoweredExpr>, AllocError>
    ensures { IfOk result (λ more. more.items ≡ exprs.items ++ expr ∷ []) }
{
    exprs.push(expr)?;
    Ok(exprs)
}

/// What is made of all expressions of a list.
fn make_parts<'a>(
    body: &mut OpenBody<'a>,
    alloc: Global,
    text: &'a Module,
    maker: PartsMaker<'a>,
    exprs: Vec<LoweredExpr>,
) -> Result<bool, AllocError>
    ensures { IfOk result (λ is. (table : List CoreInstance) → where_true is (Some (body_shown body.new)) ≡ made_of_parts (parts_shown maker.entry) (instance_env_of text.now table) exprs.items (body_shown body.old)) }
{
    match maker {
        PartsMaker::Tuple => {
            body.give(lower_tuple(alloc, exprs)?)?;
            Ok(true)
        }
        PartsMaker::Array => {
            let array = lower_array_elements(alloc, exprs)?;
            body.give_if(array)
        }
        PartsMaker::Fill(ty, size, dots) => {
            let array = lower_filled(alloc, body.count, ty, dots, size, exprs)?;
            body.give_if(array)
        }
        PartsMaker::Call(name, parametric_args) => begin_call(
            body,
            alloc,
            text,
            name,
            parametric_args,
            exprs,
        ),
    }
}
