//! What is equal. Structs and enums are compared by their names; a comparison takes time as the smaller of the two is large.

ghost use Rattle.std.specs.Prelude.{◌≡◌, map};
ghost use Rattle.dslx_meaning.specs.Lists.{pairwise};
ghost use Rattle.dslx_meaning.specs.Types.{same_bool, same_type as is_same_type};
ghost use Rattle.dslx_meaning.specs.Values.{same_word as is_same_word, same_value as is_same_value};

use dslx_meaning::{DslxType, DslxValue};
use xb_bits::Bits;

/// Whether the two are one value.
#[cycle(same_value)]
pub fn same_value(a: &DslxValue, b: &DslxValue) -> bool
    ensures { result ≡ is_same_value a.now b.now }
{
    match (a, b) {
        (DslxValue::Bits(s, x), DslxValue::Bits(t, y)) => same_sign(*s, *t) && same_word(*x, *y),
        (DslxValue::Tuple(xs), DslxValue::Tuple(ys)) => same_values(xs.as_slice(), ys.as_slice()),
        (DslxValue::Array(xs), DslxValue::Array(ys)) => same_values(xs.as_slice(), ys.as_slice()),
        (DslxValue::Struct(m, _, xs), DslxValue::Struct(n, _, ys)) => m == n
            && same_values(xs.as_slice(), ys.as_slice()),
        (DslxValue::Enum(m, _, x), DslxValue::Enum(n, _, y)) => m == n && same_word(*x, *y),
        (DslxValue::Token, DslxValue::Token) => true,
        _ => false,
    }
}

/// Whether the two lists have the same values.
#[cycle(same_value)]
fn same_values(a: &[DslxValue], b: &[DslxValue]) -> bool
    ensures { result ≡ pairwise (λ p v. p v) (map is_same_value a.now) b.now }
{
    if a.len() != b.len() {
        return false;
    }
    'parts: for i in 0..a.len() {
        if !same_value(&a[i], &b[i]) {
            return false;
        }
    }
    true
}

/// Whether the two are one type.
#[cycle(same_type)]
pub fn same_type(a: &DslxType, b: &DslxType) -> bool
    ensures { result ≡ is_same_type a.now b.now }
{
    match (a, b) {
        (DslxType::Bits(s, v), DslxType::Bits(t, w)) => same_sign(*s, *t) && *v == *w,
        (DslxType::Tuple(xs), DslxType::Tuple(ys)) => same_types(xs.as_slice(), ys.as_slice()),
        (DslxType::Array(x, m), DslxType::Array(y, n)) => same_type(x.get(), y.get()) && *m == *n,
        (DslxType::Struct(m, _, _), DslxType::Struct(n, _, _)) => m == n,
        (DslxType::Enum(m, _, _), DslxType::Enum(n, _, _)) => m == n,
        (DslxType::Token, DslxType::Token) => true,
        _ => false,
    }
}

/// Whether the two lists have the same types.
#[cycle(same_type)]
fn same_types(a: &[DslxType], b: &[DslxType]) -> bool
    ensures { result ≡ pairwise (λ p t. p t) (map is_same_type a.now) b.now }
{
    if a.len() != b.len() {
        return false;
    }
    'parts: for i in 0..a.len() {
        if !same_type(&a[i], &b[i]) {
            return false;
        }
    }
    true
}

pub(crate) fn same_sign(a: bool, b: bool) -> bool
    ensures { result ≡ same_bool a b }
{
    if a { b } else { !b }
}

pub(crate) fn same_word(a: Bits, b: Bits) -> bool
    ensures { result ≡ is_same_word a b }
{
    a.width() == b.width() && a.value() == b.value()
}
