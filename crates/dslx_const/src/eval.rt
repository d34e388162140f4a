ghost use Rattle.std.specs.Prelude.{◌≡◌, IfOk, length};
ghost use Rattle.dslx_meaning.specs.Items.{meanings_of};
ghost use Rattle.dslx_meaning.specs.Names.ConstMachine.Kept.{kept_within};
ghost use Rattle.dslx_const_tasks.specs.Values.{values_kept};
ghost use Rattle.dslx_meaning.specs.Meaning.{bound_of, denotation, size_of, value_of, value_of_block, written_type};

use crate::found::{count_found, found_by, machine_over, run, type_found, value_found};
use dslx_const_tasks::{Kept, Task, TypeTask, ValueTask};
use dslx_meaning::names::Scope;
use dslx_meaning::{DslxType, DslxValue};
use dslx_tree::{Block, Expr, Module, TypeExpr};
use std::alloc::{AllocError, Global};

/// The value that an expression of a text means where these names are bound; `None` where it has none, so nothing is required of
/// the text. An effect has no value.
///
/// It takes a step for each part of the expression, anew in each turn of a loop and at each use of a constant. A name's value is
/// copied where it is used, that of a `match` for each pattern that is tried. A name is looked up among those that are bound there,
/// an item among those before it. Memory is taken for what is open at once. Past 2^64 - 1 steps, and where a word would have more
/// than 128 bits, which no checked text needs, it gives up as for want of memory.
pub fn const_eval<'a>(
    alloc: Global,
    text: &'a Module,
    bound: Scope<'a>,
    expr: &'a Expr,
) -> Result<Option<DslxValue>, AllocError>
    ensures { IfOk result (λ v. v ≡ value_of expr.now (record { items = meanings_of text.now; bound = bound.entry })) }
{
    let found = found_by(alloc, text, bound, Task::Eval(expr))?;
    Ok(value_found(found))
}

/// The same where the values of constants and members are kept: each use of one is a look-up and a copy of its value. What is kept may be less
/// than what the text's items denote, and then the expression has the value that it denotes by these.
pub fn const_eval_over<'a>(
    alloc: Global,
    text: &'a Module,
    kept: &'a Kept<'a>,
    bound: Scope<'a>,
    expr: &'a Expr,
) -> Result<Option<DslxValue>, AllocError>
    ensures { IfOk result (λ v. v ≡ value_of expr.now (record { items = kept_within (values_kept kept.now) text.now (length text.now.items); bound = bound.entry })) }
{
    let mut machine = machine_over(alloc, text, kept, bound);
    machine.first(Task::Eval(expr))?;
    let found = run(alloc, machine)?;
    Ok(value_found(found))
}

/// The value of a block, where these names are bound.
pub fn block_eval<'a>(
    alloc: Global,
    text: &'a Module,
    bound: Scope<'a>,
    block: &'a Block,
) -> Result<Option<DslxValue>, AllocError>
    ensures { IfOk result (λ v. v ≡ value_of_block block.now (record { items = meanings_of text.now; bound = bound.entry })) }
{
    let task = Task::value(alloc, ValueTask::Block(block))?;
    let found = found_by(alloc, text, bound, task)?;
    Ok(value_found(found))
}

/// The type that is written, where these names are bound; `None` where it has no meaning.
pub fn type_eval<'a>(
    alloc: Global,
    text: &'a Module,
    bound: Scope<'a>,
    ty: &'a TypeExpr,
) -> Result<Option<DslxType>, AllocError>
    ensures { IfOk result (λ t. t ≡ written_type ty.now (record { items = meanings_of text.now; bound = bound.entry })) }
{
    let task = Task::ty(alloc, TypeTask::Find(ty))?;
    let found = found_by(alloc, text, bound, task)?;
    Ok(type_found(found))
}

/// The size that an expression gives, as of an array or the width of a type.
pub fn size_eval<'a>(
    alloc: Global,
    text: &'a Module,
    bound: Scope<'a>,
    size: &'a Expr,
) -> Result<Option<u128>, AllocError>
    ensures { IfOk result (λ n. n ≡ size_of (denotation size.now) (record { items = meanings_of text.now; bound = bound.entry })) }
{
    let task = Task::ty(alloc, TypeTask::CountSize(size))?;
    let found = found_by(alloc, text, bound, task)?;
    Ok(count_found(found))
}

/// The bound of a slice that an expression gives.
pub fn bound_eval<'a>(
    alloc: Global,
    text: &'a Module,
    bound: Scope<'a>,
    end: &'a Expr,
) -> Result<Option<u128>, AllocError>
    ensures { IfOk result (λ n. n ≡ bound_of (denotation end.now) (record { items = meanings_of text.now; bound = bound.entry })) }
{
    let task = Task::ty(alloc, TypeTask::CountBound(end))?;
    let found = found_by(alloc, text, bound, task)?;
    Ok(count_found(found))
}
