//! Operations on values. Where values don't fit, the answer is `()`.

ghost use Rattle.std.specs.Prelude.{◌≡◌, ◌≤◌, [], true};
ghost use Rattle.ir_tree.specs.Constants.{bits_where};
ghost use Rattle.ir_tree.specs.Operations.{binary_word, unary_word, holds, bit, shift_word, reduce_word, extend_word, is_less, is_equal, is_greater, on_word, on_words, binary_value, compare_value, slice_value, dyn_slice_value, extend_value};

use delay_model::{Binary, Compare, Extend, Reduce, Shift, Unary};
use std::alloc::Global;
use std::cmp::Ordering;
use xb_bits::Bits;
use xb_value::{Seq, Value};

pub fn nothing(alloc: Global) -> Value
    ensures { result ≡ Value.Tuple [] }
{
    Value::Tuple(Seq::new(alloc))
}

pub fn binary_word(op: Binary, a: Bits, b: Bits) -> Bits
    requires { a.width ≡ b.width }
    ensures { result ≡ binary_word op a b }
{
    match op {
        Binary::Add => xb_bits::add(a, b),
        Binary::Sub => xb_bits::sub(a, b),
        Binary::Umul => xb_bits::mul(a, b),
        Binary::Udiv => xb_bits::udiv(a, b),
        Binary::Umod => xb_bits::umod(a, b),
        Binary::And => xb_bits::and(a, b),
        Binary::Or => xb_bits::or(a, b),
        Binary::Xor => xb_bits::xor(a, b),
    }
}

pub fn unary_word(op: Unary, a: Bits) -> Bits
    ensures { result ≡ unary_word op a }
{
    match op {
        Unary::Not => xb_bits::not(a),
        Unary::Neg => xb_bits::neg(a),
        Unary::Reverse => xb_bits::rev(a),
    }
}

pub fn is_less(order: Ordering) -> bool
    ensures { result ≡ is_less order }
{
    match order {
        Ordering::Less => true,
        Ordering::Equal => false,
        Ordering::Greater => false,
    }
}

pub fn is_equal(order: Ordering) -> bool
    ensures { result ≡ is_equal order }
{
    match order {
        Ordering::Less => false,
        Ordering::Equal => true,
        Ordering::Greater => false,
    }
}

pub fn is_greater(order: Ordering) -> bool
    ensures { result ≡ is_greater order }
{
    match order {
        Ordering::Less => false,
        Ordering::Equal => false,
        Ordering::Greater => true,
    }
}

pub fn holds(op: Compare, a: Bits, b: Bits) -> bool
    requires { a.width ≡ b.width }
    ensures { result ≡ holds op a b }
{
    match op {
        Compare::Eq => is_equal(xb_bits::cmp_u(a, b)),
        Compare::Ne => !is_equal(xb_bits::cmp_u(a, b)),
        Compare::Ult => is_less(xb_bits::cmp_u(a, b)),
        Compare::Ule => !is_greater(xb_bits::cmp_u(a, b)),
        Compare::Ugt => is_greater(xb_bits::cmp_u(a, b)),
        Compare::Uge => !is_less(xb_bits::cmp_u(a, b)),
        Compare::Slt => is_less(xb_bits::cmp_s(a, b)),
        Compare::Sle => !is_greater(xb_bits::cmp_s(a, b)),
        Compare::Sgt => is_greater(xb_bits::cmp_s(a, b)),
        Compare::Sge => !is_less(xb_bits::cmp_s(a, b)),
    }
}

pub fn bit(value: bool) -> Bits
    ensures { result ≡ bit value }
{
    Bits::new(1, if value { 1 } else { 0 })
}

pub fn shift_word(op: Shift, a: Bits, amount: Bits) -> Bits
    ensures { result ≡ shift_word op a amount }
{
    match op {
        Shift::Shll => xb_bits::shll(a, amount),
        Shift::Shrl => xb_bits::shrl(a, amount),
        Shift::Shra => xb_bits::shra(a, amount),
    }
}

pub fn reduce_word(op: Reduce, a: Bits) -> Bits
    ensures { result ≡ reduce_word op a }
{
    match op {
        Reduce::And => xb_bits::and_reduce(a),
        Reduce::Or => xb_bits::or_reduce(a),
        Reduce::Xor => xb_bits::xor_reduce(a),
    }
}

pub fn binary(alloc: Global, op: Binary, a: &Value, b: &Value) -> Value
    ensures { result ≡ on_words (binary_value op) a.now b.now }
{
    match (a, b) {
        (Value::Bits(a), Value::Bits(b)) => {
            if a.width() == b.width() {
                Value::Bits(binary_word(op, *a, *b))
            } else {
                nothing(alloc)
            }
        }
        _ => nothing(alloc),
    }
}

pub fn unary(alloc: Global, op: Unary, a: &Value) -> Value
    ensures { result ≡ on_word (λ x. bits_where true (unary_word op x)) a.now }
{
    match a {
        Value::Bits(a) => Value::Bits(unary_word(op, *a)),
        _ => nothing(alloc),
    }
}

pub fn compare(alloc: Global, op: Compare, a: &Value, b: &Value) -> Value
    ensures { result ≡ on_words (compare_value op) a.now b.now }
{
    match (a, b) {
        (Value::Bits(a), Value::Bits(b)) => {
            if a.width() == b.width() {
                Value::Bits(bit(holds(op, *a, *b)))
            } else {
                nothing(alloc)
            }
        }
        _ => nothing(alloc),
    }
}

pub fn shift(alloc: Global, op: Shift, a: &Value, amount: &Value) -> Value
    ensures { result ≡ on_words (λ x k. bits_where true (shift_word op x k)) a.now amount.now }
{
    match (a, amount) {
        (Value::Bits(a), Value::Bits(amount)) => Value::Bits(shift_word(op, *a, *amount)),
        _ => nothing(alloc),
    }
}

pub fn reduce(alloc: Global, op: Reduce, a: &Value) -> Value
    ensures { result ≡ on_word (λ x. bits_where true (reduce_word op x)) a.now }
{
    match a {
        Value::Bits(a) => Value::Bits(reduce_word(op, *a)),
        _ => nothing(alloc),
    }
}

pub fn slice(alloc: Global, start: u128, width: u128, a: &Value) -> Value
    ensures { result ≡ on_word (slice_value start width) a.now }
{
    match a {
        Value::Bits(a) => {
            let own = u128::from(a.width());
            if 1 <= width && start <= own && width <= own - start {
                Value::Bits(xb_bits::slice(*a, start as u8, width as u8))
            } else {
                nothing(alloc)
            }
        }
        _ => nothing(alloc),
    }
}

pub fn dynamic_slice(alloc: Global, width: u128, a: &Value, start: &Value) -> Value
    ensures { result ≡ on_words (dyn_slice_value width) a.now start.now }
{
    match (a, start) {
        (Value::Bits(a), Value::Bits(start)) => {
            if 1 <= width && width <= 128 {
                Value::Bits(xb_bits::dyn_slice(*a, *start, width as u8))
            } else {
                nothing(alloc)
            }
        }
        _ => nothing(alloc),
    }
}

pub fn extend_word(op: Extend, a: Bits, width: u8) -> Bits
    requires longer { a.width ≤ width }
    requires most { width ≤ 128 }
    ensures { result ≡ extend_word op a width }
{
    match op {
        Extend::Zero => xb_bits::zext(a, width),
        Extend::Sign => xb_bits::sext(a, width),
    }
}

pub fn extend(alloc: Global, op: Extend, width: u128, a: &Value) -> Value
    ensures { result ≡ on_word (extend_value op width) a.now }
{
    match a {
        Value::Bits(a) => {
            if u128::from(a.width()) <= width && width <= 128 {
                Value::Bits(extend_word(op, *a, width as u8))
            } else {
                nothing(alloc)
            }
        }
        _ => nothing(alloc),
    }
}
