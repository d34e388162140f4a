//! Values that are equal in all their parts. A comparison takes time as the smaller of the two is large.

ghost use Rattle.std.specs.Prelude.{◌≡◌, map};
ghost use Rattle.std.specs.Str.{bytes_eq};
ghost use Rattle.dslx_meaning.specs.Lists.{pairwise};
ghost use Rattle.dslx_meaning.specs.Rules.EqualValues.{equal_value as is_equal_value};

use crate::same::{same_sign, same_word};
use base::texts::Name;
use dslx_meaning::DslxValue;

/// Whether the two lists have equal values.
#[tactic(auto, using(crate::proofs::Lemmas::Pairs::each_applied))]
pub fn equal_values(a: &[DslxValue], b: &[DslxValue]) -> bool
    ensures { result ≡ pairwise is_equal_value a.now b.now }
{
    equal_parts(a, b)
}

/// Whether the two are one value in all their parts.
#[cycle(equal_value)]
pub fn equal_value(a: &DslxValue, b: &DslxValue) -> bool
    ensures { result ≡ is_equal_value a.now b.now }
{
    match (a, b) {
        (DslxValue::Bits(s, x), DslxValue::Bits(t, y)) => same_sign(*s, *t) && same_word(*x, *y),
        (DslxValue::Tuple(xs), DslxValue::Tuple(ys)) => equal_parts(xs.as_slice(), ys.as_slice()),
        (DslxValue::Array(xs), DslxValue::Array(ys)) => equal_parts(xs.as_slice(), ys.as_slice()),
        (DslxValue::Struct(m, fs, xs), DslxValue::Struct(n, gs, ys)) => m == n
            && same_names(fs.as_slice(), gs.as_slice())
            && equal_parts(xs.as_slice(), ys.as_slice()),
        (DslxValue::Enum(m, s, x), DslxValue::Enum(n, t, y)) => m == n
            && (same_sign(*s, *t) && same_word(*x, *y)),
        (DslxValue::Token, DslxValue::Token) => true,
        _ => false,
    }
}

#[cycle(equal_value)]
fn equal_parts(a: &[DslxValue], b: &[DslxValue]) -> bool
    ensures { result ≡ pairwise (λ p v. p v) (map is_equal_value a.now) b.now }
{
    if a.len() != b.len() {
        return false;
    }
    'parts: for i in 0..a.len() {
        if !equal_value(&a[i], &b[i]) {
            return false;
        }
    }
    true
}

fn same_names(a: &[Name], b: &[Name]) -> bool
    ensures { result ≡ pairwise bytes_eq a.now b.now }
{
    if a.len() != b.len() {
        return false;
    }
    'names: for i in 0..a.len() {
        if a[i] != b[i] {
            return false;
        }
    }
    true
}
