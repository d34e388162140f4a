//! Binary operators.

ghost use Rattle.std.specs.Prelude.{◌≡◌, MatchResult, false};
ghost use Rattle.xb_bits.specs.Operations as op;
ghost use Rattle.dslx_meaning.specs.Operators.{binary_value as the_value, bits_binary as of_bits, enum_binary as of_enums, arithmetic as arithmetic_of, division as division_of, joining, shift_left as shifted_left, shift_right as shifted_right, comparison as comparison_of, order_of as the_order, is_less as less, is_equal as equal, both_true as both, one_true as one};
ghost use Rattle.dslx_values.specs.Operators.Widths.{is_held};
ghost use Rattle.dslx_values.specs.Operators.Inner.Binaries.{worked as worked_by, holds_at as holds_by};

use crate::operators::numbers::{of_one_type, truth_of};
use crate::operators::width::WidthOutOfRange;
use crate::{based_bits, bits_of, bool_value, same_value};
use dslx_meaning::{DslxValue, SignedWord};
use dslx_tree::Binary;
use std::cmp::Ordering;
use xb_bits::{
    Bits, add, and, cmp_s, cmp_u, concat, mul, or, shll, shra, shrl, sub, udiv, umod, xor,
};

/// What an operator gives for its two operands. A quotient by 0 is all ones, and a remainder by 0 is 0.
pub fn binary_value(
    op: Binary,
    left: &DslxValue,
    right: &DslxValue,
) -> Result<Option<DslxValue>, WidthOutOfRange>
    ensures { MatchResult result (λ v. v ≡ the_value op left.now right.now) (λ e. is_held (the_value op left.now right.now) ≡ false) }
{
    match (bits_of(left), bits_of(right)) {
        (Some(x), Some(y)) => bits_binary(op, &x, &y),
        (None, None) => match (based_bits(left), based_bits(right)) {
            (Some(_), Some(_)) => Ok(enum_binary(op, left, right)),
            _ => Ok(None),
        },
        _ => Ok(None),
    }
}

/// What an operator gives for two values of enums.
fn enum_binary(op: Binary, left: &DslxValue, right: &DslxValue) -> Option<DslxValue>
    ensures { result ≡ of_enums op left.now right.now }
{
    match op {
        Binary::Eq => Some(bool_value(same_value(left, right))),
        Binary::Ne => Some(bool_value(!same_value(left, right))),
        _ => None,
    }
}

/// What an operator gives for bits.
fn bits_binary(
    op: Binary,
    x: &SignedWord,
    y: &SignedWord,
) -> Result<Option<DslxValue>, WidthOutOfRange>
    ensures { MatchResult result (λ v. v ≡ of_bits op x.now y.now) (λ e. is_held (of_bits op x.now y.now) ≡ false) }
{
    match op {
        Binary::Mul | Binary::Add | Binary::Sub | Binary::And | Binary::Xor | Binary::Or => {
            Ok(arithmetic(op, x, y))
        }
        Binary::Div | Binary::Rem => Ok(division(op, x, y)),
        Binary::Concat => joined(x, y),
        Binary::Shl => Ok(shift_left(x, y)),
        Binary::Shr => Ok(shift_right(x, y)),
        Binary::Eq | Binary::Ne | Binary::Lt | Binary::Le | Binary::Gt | Binary::Ge => {
            Ok(comparison(op, x, y))
        }
        Binary::Both => Ok(both_true(x, y)),
        Binary::Either => Ok(one_true(x, y)),
    }
}

fn arithmetic(op: Binary, x: &SignedWord, y: &SignedWord) -> Option<DslxValue>
    ensures { result ≡ arithmetic_of (worked_by op) x.now y.now }
{
    if of_one_type(x, y) {
        Some(DslxValue::Bits(x.signed, worked(op, x.word, y.word)))
    } else {
        None
    }
}

fn division(op: Binary, x: &SignedWord, y: &SignedWord) -> Option<DslxValue>
    ensures { result ≡ division_of (worked_by op) x.now y.now }
{
    if of_one_type(x, y) && !x.signed {
        Some(DslxValue::Bits(false, worked(op, x.word, y.word)))
    } else {
        None
    }
}

/// What an operator makes of two words of one width.
fn worked(op: Binary, x: Bits, y: Bits) -> Bits
    requires { x.width ≡ y.width }
    ensures { result ≡ worked_by op x y }
{
    match op {
        Binary::Mul => mul(x, y),
        Binary::Div => udiv(x, y),
        Binary::Rem => umod(x, y),
        Binary::Add => add(x, y),
        Binary::Sub => sub(x, y),
        Binary::And => and(x, y),
        Binary::Xor => xor(x, y),
        Binary::Or => or(x, y),
        _ => x,
    }
}

/// Two unsigned words side by side.
#[tactic(auto, using(crate::proofs::OnOperators::Helds::bits_held))]
fn joined(x: &SignedWord, y: &SignedWord) -> Result<Option<DslxValue>, WidthOutOfRange>
    ensures { MatchResult result (λ v. v ≡ joining x.now y.now) (λ e. is_held (joining x.now y.now) ≡ false) }
{
    if x.signed || y.signed {
        return Ok(None);
    }
    if u16::from(x.word.width()) + u16::from(y.word.width()) <= 128 {
        Ok(Some(DslxValue::Bits(false, concat(x.word, y.word))))
    } else {
        Err(WidthOutOfRange)
    }
}

fn shift_left(x: &SignedWord, amount: &SignedWord) -> Option<DslxValue>
    ensures { result ≡ shifted_left x.now amount.now }
{
    if amount.signed {
        None
    } else {
        Some(DslxValue::Bits(x.signed, shll(x.word, amount.word)))
    }
}

/// Copies of the sign come into a signed number.
fn shift_right(x: &SignedWord, amount: &SignedWord) -> Option<DslxValue>
    ensures { result ≡ shifted_right x.now amount.now }
{
    if amount.signed {
        return None;
    }
    let word = if x.signed {
        shra(x.word, amount.word)
    } else {
        shrl(x.word, amount.word)
    };
    Some(DslxValue::Bits(x.signed, word))
}

fn comparison(op: Binary, x: &SignedWord, y: &SignedWord) -> Option<DslxValue>
    ensures { result ≡ comparison_of (holds_by op) x.now y.now }
{
    if of_one_type(x, y) {
        Some(bool_value(holds_at(op, order(x, y))))
    } else {
        None
    }
}

/// The order of two words, by signed values where they are signed.
fn order(x: &SignedWord, y: &SignedWord) -> Ordering
    requires { x.now.word.width ≡ y.now.word.width }
    ensures { result ≡ the_order x.now y.now }
{
    if x.signed {
        cmp_s(x.word, y.word)
    } else {
        cmp_u(x.word, y.word)
    }
}

/// Whether a comparison holds for operands that stand in this order.
fn holds_at(op: Binary, order: Ordering) -> bool
    ensures { result ≡ holds_by op order }
{
    match op {
        Binary::Eq => is_equal(order),
        Binary::Ne => !is_equal(order),
        Binary::Lt => is_less(order),
        Binary::Le => is_less(order) || is_equal(order),
        Binary::Gt => !(is_less(order) || is_equal(order)),
        Binary::Ge => !is_less(order),
        _ => false,
    }
}

fn is_less(order: Ordering) -> bool
    ensures { result ≡ less order }
{
    match order {
        Ordering::Less => true,
        Ordering::Equal => false,
        Ordering::Greater => false,
    }
}

fn is_equal(order: Ordering) -> bool
    ensures { result ≡ equal order }
{
    match order {
        Ordering::Less => false,
        Ordering::Equal => true,
        Ordering::Greater => false,
    }
}

fn both_true(x: &SignedWord, y: &SignedWord) -> Option<DslxValue>
    ensures { result ≡ both x.now y.now }
{
    match (truth_of(x), truth_of(y)) {
        (Some(p), Some(q)) => Some(bool_value(p && q)),
        _ => None,
    }
}

fn one_true(x: &SignedWord, y: &SignedWord) -> Option<DslxValue>
    ensures { result ≡ one x.now y.now }
{
    match (truth_of(x), truth_of(y)) {
        (Some(p), Some(q)) => Some(bool_value(p || q)),
        _ => None,
    }
}
