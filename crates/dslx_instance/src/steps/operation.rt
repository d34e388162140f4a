//! Operations on what was made last. Each says whether there is what it makes.

ghost use Rattle.std.specs.Prelude.{◌≡◌, ◌∷◌, Some, IfOk};
ghost use Rattle.dslx_meaning.specs.Lists.{and_then, where_true};
ghost use Rattle.dslx_core.specs.Lowering.Lowering as lowering;
ghost use Rattle.dslx_core.specs.Machines.Machine.Steps.{of_last, of_last_two, of_last_three};

use base::stacks::Stack;
use dslx_core::lowering::LoweredExpr;
use dslx_core_exprs::control::{lower_choice, lower_element, lower_index};
use dslx_core_exprs::operators::{lower_binary, lower_cast, lower_part, lower_prefix, lower_slice};
use dslx_meaning::DslxType;
use dslx_tree::{Binary, Prefix};
use std::alloc::{AllocError, Global};

/// This is what was made last, if there is anything.
fn put(made: &mut Stack<LoweredExpr>, expr: Option<LoweredExpr>) -> Result<bool, AllocError>
    ensures { IfOk result (λ is. where_true is (Some made.new) ≡ and_then expr (λ e. Some (e ∷ made.old))) }
{
    match expr {
        Some(expr) => {
            made.push(expr)?;
            Ok(true)
        }
        None => Ok(false),
    }
}

/// What stands before an operand.
pub fn make_prefix(
    made: &mut Stack<LoweredExpr>,
    alloc: Global,
    prefix: Prefix,
) -> Result<bool, AllocError>
    ensures { IfOk result (λ is. where_true is (Some made.new) ≡ of_last made.old (λ e. lowering.lower_prefix prefix (Some e))) }
{
    match made.take_off() {
        Some(operand) => {
            made.push(lower_prefix(alloc, prefix, operand)?)?;
            Ok(true)
        }
        None => Ok(false),
    }
}

/// An operator between two operands.
pub fn make_binary(
    made: &mut Stack<LoweredExpr>,
    alloc: Global,
    operator: Binary,
) -> Result<bool, AllocError>
    ensures { IfOk result (λ is. where_true is (Some made.new) ≡ of_last_two made.old (λ l r. lowering.lower_binary operator (Some l) (Some r))) }
{
    match made.take_off() {
        Some(right) => match made.take_off() {
            Some(left) => {
                let expr = lower_binary(alloc, operator, left, right)?;
                put(made, expr)
            }
            None => Ok(false),
        },
        None => Ok(false),
    }
}

/// An operand as bits of a type, if that is known.
pub fn make_cast(
    made: &mut Stack<LoweredExpr>,
    alloc: Global,
    ty: Option<DslxType>,
) -> Result<bool, AllocError>
    ensures { IfOk result (λ is. where_true is (Some made.new) ≡ of_last made.old (λ e. lowering.lower_cast (Some e) ty)) }
{
    match made.take_off() {
        Some(operand) => match ty {
            Some(ty) => {
                let expr = lower_cast(alloc, operand, ty)?;
                put(made, expr)
            }
            None => Ok(false),
        },
        None => Ok(false),
    }
}

/// The bits from one bound to before another, if both are known.
pub fn make_slice(
    made: &mut Stack<LoweredExpr>,
    alloc: Global,
    from: Option<u128>,
    to: Option<u128>,
) -> Result<bool, AllocError>
    ensures { IfOk result (λ is. where_true is (Some made.new) ≡ of_last made.old (λ e. lowering.lower_slice (Some e) from to)) }
{
    match made.take_off() {
        Some(operand) => match (from, to) {
            (Some(from), Some(to)) => {
                let expr = lower_slice(alloc, operand, from, to)?;
                put(made, expr)
            }
            _ => Ok(false),
        },
        None => Ok(false),
    }
}

/// Bits of a type, if that is known.
pub fn make_part(
    made: &mut Stack<LoweredExpr>,
    alloc: Global,
    ty: &Option<DslxType>,
) -> Result<bool, AllocError>
    ensures { IfOk result (λ is. where_true is (Some made.new) ≡ of_last_two made.old (λ e i. lowering.lower_part (Some e) (Some i) ty.now)) }
{
    match made.take_off() {
        Some(start) => match made.take_off() {
            Some(operand) => part_of(made, alloc, operand, start, ty),
            None => Ok(false),
        },
        None => Ok(false),
    }
}

fn part_of(
    made: &mut Stack<LoweredExpr>,
    alloc: Global,
    operand: LoweredExpr,
    start: LoweredExpr,
    ty: &Option<DslxType>,
) -> Result<bool, AllocError>
    ensures { IfOk result (λ is. where_true is (Some made.new) ≡ and_then (lowering.lower_part (Some operand) (Some start) ty.now) (λ e. Some (e ∷ made.old))) }
{
    match ty {
        Some(ty) => {
            let expr = lower_part(alloc, operand, start, ty)?;
            put(made, expr)
        }
        None => Ok(false),
    }
}

/// The second of the last three where the first is 1, else the third.
pub fn make_choice(made: &mut Stack<LoweredExpr>, alloc: Global) -> Result<bool, AllocError>
    ensures { IfOk result (λ is. where_true is (Some made.new) ≡ of_last_three made.old (λ c a b. lowering.lower_choice (Some c) (Some a) (Some b))) }
{
    match made.take_off() {
        Some(no) => match made.take_off() {
            Some(yes) => choice_of(made, alloc, yes, no),
            None => Ok(false),
        },
        None => Ok(false),
    }
}

fn choice_of(
    made: &mut Stack<LoweredExpr>,
    alloc: Global,
    yes: LoweredExpr,
    no: LoweredExpr,
) -> Result<bool, AllocError>
    ensures { IfOk result (λ is. where_true is (Some made.new) ≡ of_last_three (no ∷ yes ∷ made.old) (λ c a b. lowering.lower_choice (Some c) (Some a) (Some b))) }
{
    match made.take_off() {
        Some(condition) => {
            let expr = lower_choice(alloc, condition, yes, no)?;
            put(made, expr)
        }
        None => Ok(false),
    }
}

/// The element of an array at an index.
pub fn make_indexed(made: &mut Stack<LoweredExpr>, alloc: Global) -> Result<bool, AllocError>
    ensures { IfOk result (λ is. where_true is (Some made.new) ≡ of_last_two made.old (λ e i. lowering.lower_index (Some e) (Some i))) }
{
    match made.take_off() {
        Some(index) => match made.take_off() {
            Some(array) => {
                let expr = lower_index(alloc, array, index)?;
                put(made, expr)
            }
            None => Ok(false),
        },
        None => Ok(false),
    }
}

/// The part of a tuple of this number. Past 2^64 - 1, which no tuple has, it gives up as for want of memory.
pub fn make_element(
    made: &mut Stack<LoweredExpr>,
    alloc: Global,
    place: u128,
) -> Result<bool, AllocError>
    ensures { IfOk result (λ is. where_true is (Some made.new) ≡ of_last made.old (λ e. lowering.lower_element (Some e) place)) }
{
    if place > u64::MAX as u128 {
        return Err(AllocError);
    }
    match made.take_off() {
        Some(tuple) => {
            let expr = lower_element(alloc, tuple, place as u64)?;
            put(made, expr)
        }
        None => Ok(false),
    }
}
