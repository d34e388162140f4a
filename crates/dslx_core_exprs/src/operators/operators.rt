//! Operators, casts and parts of bits.

ghost use Rattle.std.specs.Prelude.{◌≡◌, ◌+◌, Some, true, IfOk, nat_le};
ghost use Rattle.dslx_core.specs.declared.expr.CoreExpr.{Binary as binary_of, Slice as slice_core, Unary as unary_of};
ghost use Rattle.dslx_meaning.specs.Types.{bool_type as one_bit, unsigned as unsigned_bits};
ghost use Rattle.dslx_core.specs.Lowering.Lowering as lowering;
ghost use Rattle.dslx_core.specs.Lowering.Lowering.{fits_operands as are_operands, result_of_binary as the_result, binary_core as the_operator, sign_of as the_sign};

use crate::alike::equal_type;
use crate::types::{bool_type, sign_of, unsigned, width_of_type, word_width};
use dslx_core::lowering::LoweredExpr;
use dslx_core::{CoreBinary, CoreExpr, CoreUnary, Sign};
use dslx_meaning::DslxType;
use dslx_tree::{Binary, Prefix};
use std::alloc::{AllocError, Global};
use xb_value::Boxed;

/// What stands before an operand.
pub fn lower_prefix(
    alloc: Global,
    prefix: Prefix,
    operand: LoweredExpr,
) -> Result<LoweredExpr, AllocError>
    ensures { IfOk result (λ e. Some e ≡ lowering.lower_prefix prefix (Some operand)) }
{
    let operator = match prefix {
        Prefix::Minus => CoreUnary::Neg,
        Prefix::Not => CoreUnary::Not,
    };
    lower_counted(alloc, operator, operand)
}

/// An operation that gives a value of its operand's type.
pub fn lower_counted(
    alloc: Global,
    operator: CoreUnary,
    operand: LoweredExpr,
) -> Result<LoweredExpr, AllocError>
    ensures { IfOk result (λ e. Some e ≡ lowering.lowered (unary_of operator operand.core) operand.ty) }
{
    Ok(LoweredExpr {
        core: Boxed::new(alloc, CoreExpr::Unary(operator, operand.core))?,
        ty: operand.ty,
    })
}

/// An operation that gives one bit.
pub fn lower_reduced(
    alloc: Global,
    operator: CoreUnary,
    operand: LoweredExpr,
) -> Result<LoweredExpr, AllocError>
    ensures { IfOk result (λ e. Some e ≡ lowering.lowered (unary_of operator operand.core) one_bit) }
{
    Ok(LoweredExpr {
        core: Boxed::new(alloc, CoreExpr::Unary(operator, operand.core))?,
        ty: bool_type(),
    })
}

/// An operator between two operands.
pub fn lower_binary(
    alloc: Global,
    operator: Binary,
    left: LoweredExpr,
    right: LoweredExpr,
) -> Result<Option<LoweredExpr>, AllocError>
    ensures { IfOk result (λ e. e ≡ lowering.lower_binary operator (Some left) (Some right)) }
{
    if fits_operands(operator, &left.ty, &right.ty) {
        Ok(Some(operation_of(alloc, operator, left, right)?))
    } else {
        Ok(None)
    }
}

/// The operation on operands that fit the operator.
fn operation_of(
    alloc: Global,
    operator: Binary,
    left: LoweredExpr,
    right: LoweredExpr,
) -> Result<LoweredExpr, AllocError>
    requires { are_operands operator left.ty right.ty ≡ true }
    ensures { IfOk result (λ e. Some e ≡ lowering.lowered (binary_of (the_operator operator (the_sign left.ty)) left.core right.core) (the_result operator left.ty right.ty)) }
{
    let operation = binary_core(operator, sign_of(&left.ty));
    Ok(LoweredExpr {
        core: Boxed::new(alloc, CoreExpr::Binary(operation, left.core, right.core))?,
        ty: result_of_binary(operator, left.ty, &right.ty),
    })
}

/// Whether words side by side have at most 128 bits, and what is compared is of one type.
fn fits_operands(operator: Binary, left: &DslxType, right: &DslxType) -> bool
    ensures { result ≡ are_operands operator left.now right.now }
{
    match operator {
        Binary::Concat => fit_together(width_of_type(left), width_of_type(right)),
        Binary::Eq => equal_type(left, right),
        Binary::Ne => equal_type(left, right),
        _ => true,
    }
}

/// Whether the two widths are 128 bits or fewer together.
#[tactic(auto, using(crate::proofs::OnOperators::Widths::fits_together))]
fn fit_together(left: u128, right: u128) -> bool
    ensures { result ≡ nat_le (left + right) 128 }
{
    left.saturating_add(right) <= 128
}

/// The operator, where the left operand is read so.
fn binary_core(operator: Binary, sign: Sign) -> CoreBinary
    ensures { result ≡ the_operator operator sign }
{
    match operator {
        Binary::Mul => CoreBinary::Mul,
        Binary::Div => CoreBinary::Div,
        Binary::Rem => CoreBinary::Rem,
        Binary::Add => CoreBinary::Add,
        Binary::Sub => CoreBinary::Sub,
        Binary::Concat => CoreBinary::Concat,
        Binary::Shl => CoreBinary::Shl,
        Binary::Shr => CoreBinary::Shr(sign),
        Binary::And => CoreBinary::And,
        Binary::Xor => CoreBinary::Xor,
        Binary::Or => CoreBinary::Or,
        Binary::Eq => CoreBinary::Eq,
        Binary::Ne => CoreBinary::Ne,
        Binary::Lt => CoreBinary::Lt(sign),
        Binary::Le => CoreBinary::Le(sign),
        Binary::Gt => CoreBinary::Gt(sign),
        Binary::Ge => CoreBinary::Ge(sign),
        Binary::Both => CoreBinary::And,
        Binary::Either => CoreBinary::Or,
    }
}

/// The type of what an operator gives for operands that fit it.
fn result_of_binary(operator: Binary, left: DslxType, right: &DslxType) -> DslxType
    requires { are_operands operator left right.now ≡ true }
    ensures { result ≡ the_result operator left right.now }
{
    match operator {
        Binary::Mul => left,
        Binary::Div => left,
        Binary::Rem => left,
        Binary::Add => left,
        Binary::Sub => left,
        Binary::Concat => unsigned(width_of_type(&left) + width_of_type(right)),
        Binary::Shl => left,
        Binary::Shr => left,
        Binary::And => left,
        Binary::Xor => left,
        Binary::Or => left,
        _ => bool_type(),
    }
}

/// An operand as bits of a type.
pub fn lower_cast(
    alloc: Global,
    operand: LoweredExpr,
    ty: DslxType,
) -> Result<Option<LoweredExpr>, AllocError>
    ensures { IfOk result (λ e. e ≡ lowering.lower_cast (Some operand) (Some ty)) }
{
    match word_width(&ty) {
        Some(width) => {
            let sign = sign_of(&operand.ty);
            let core = Boxed::new(alloc, CoreExpr::Cast(sign, width, operand.core))?;
            Ok(Some(LoweredExpr { core, ty }))
        }
        None => Ok(None),
    }
}

/// The bits of an operand from one bound to before another.
pub fn lower_slice(
    alloc: Global,
    operand: LoweredExpr,
    from: u128,
    to: u128,
) -> Result<Option<LoweredExpr>, AllocError>
    ensures { IfOk result (λ e. e ≡ lowering.lower_slice (Some operand) (Some from) (Some to)) }
{
    if !(from < to && to <= 128) {
        return Ok(None);
    }
    let width = (to - from) as u8;
    Ok(Some(slice_of(alloc, operand, from as u8, width)?))
}

/// So many bits of an operand from this one on.
fn slice_of(
    alloc: Global,
    operand: LoweredExpr,
    from: u8,
    width: u8,
) -> Result<LoweredExpr, AllocError>
    ensures { IfOk result (λ e. Some e ≡ lowering.lowered (slice_core operand.core from width) (unsigned_bits width)) }
{
    Ok(LoweredExpr {
        core: Boxed::new(alloc, CoreExpr::Slice(operand.core, from, width))?,
        ty: unsigned(u128::from(width)),
    })
}

/// Bits of a type, from a bit on that another operand gives.
#[tactic(auto, using(crate::proofs::OnOperators::Widths::part_none, crate::proofs::OnOperators::Widths::part_some))]
pub fn lower_part(
    alloc: Global,
    operand: LoweredExpr,
    start: LoweredExpr,
    ty: &DslxType,
) -> Result<Option<LoweredExpr>, AllocError>
    ensures { IfOk result (λ e. e ≡ lowering.lower_part (Some operand) (Some start) (Some ty.now)) }
{
    match word_width(ty) {
        Some(width) => Ok(Some(LoweredExpr {
            core: Boxed::new(alloc, CoreExpr::Part(operand.core, start.core, width))?,
            ty: unsigned(u128::from(width)),
        })),
        None => Ok(None),
    }
}
