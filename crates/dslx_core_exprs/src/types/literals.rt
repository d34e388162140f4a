//! Values as literals.

ghost use Rattle.std.specs.Prelude.{◌≡◌, [], map, Some, IfOk};
ghost use Rattle.dslx_core.specs.declared.expr.CoreExpr.{Tuple as tuple_of};
ghost use Rattle.dslx_core.specs.Lowering.Lowering.{literal as the_literal, lowered};
ghost use Rattle.dslx_meaning.specs.Types.{unit_type};
ghost use Rattle.dslx_meaning.specs.Values.{plain_value as the_plain_value};

use dslx_core::CoreExpr;
use dslx_core::lowering::LoweredExpr;
use dslx_meaning::{DslxType, DslxValue};
use dslx_values::type_of_value;
use std::alloc::{AllocError, Global};
use xb_value::{Boxed, Seq, Value};

/// A value without signs and names. It takes time and memory as the value is large.
#[cycle(plain_value)]
pub fn plain_value(alloc: Global, value: &DslxValue) -> Result<Value, AllocError>
    ensures { IfOk result (λ v. v ≡ the_plain_value value.now) }
{
    match value {
        DslxValue::Bits(_, word) => Ok(Value::Bits(*word)),
        DslxValue::Tuple(parts) => Ok(Value::Tuple(plain_values(alloc, parts.as_slice())?)),
        DslxValue::Array(parts) => Ok(Value::Array(plain_values(alloc, parts.as_slice())?)),
        DslxValue::Struct(_, _, parts) => Ok(Value::Tuple(plain_values(alloc, parts.as_slice())?)),
        DslxValue::Enum(_, _, word) => Ok(Value::Bits(*word)),
        DslxValue::Token => Ok(Value::Tuple(Seq::new(alloc))),
    }
}

/// The same of each value.
#[cycle(plain_value)]
fn plain_values(alloc: Global, values: &[DslxValue]) -> Result<Seq<Value>, AllocError>
    ensures { IfOk result (λ vs. vs ≡ map the_plain_value values.now) }
{
    let mut plain = Vec::new(alloc);
    'values: for value in values {
        plain.push(plain_value(alloc, value)?)?;
    }
    Ok(Seq::from_vec(plain))
}

/// A value as a literal.
pub fn literal(alloc: Global, value: &DslxValue) -> Result<LoweredExpr, AllocError>
    ensures { IfOk result (λ e. Some e ≡ the_literal value.now) }
{
    Ok(LoweredExpr {
        core: Boxed::new(alloc, CoreExpr::Literal(plain_value(alloc, value)?))?,
        ty: type_of_value(alloc, value)?,
    })
}

/// The value of a block without a last expression.
pub fn lower_unit(alloc: Global) -> Result<LoweredExpr, AllocError>
    ensures { IfOk result (λ e. Some e ≡ lowered (tuple_of []) unit_type) }
{
    Ok(LoweredExpr {
        core: Boxed::new(alloc, CoreExpr::Tuple(Seq::new(alloc)))?,
        ty: DslxType::Tuple(Seq::new(alloc)),
    })
}
