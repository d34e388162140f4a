//! Types that are equal in all their parts. A comparison takes time as the smaller of the two is large.

ghost use Rattle.std.specs.Prelude.{◌≡◌, map};
ghost use Rattle.dslx_core.specs.Lowering.EqualTypes.{equal_type as is_equal_type};
ghost use Rattle.dslx_meaning.specs.Lists.{pairwise};
ghost use Rattle.dslx_meaning.specs.Types.{same_bool};
ghost use Rattle.dslx_core.specs.Typing.Typed.Kinds.{same_names as are_same_names};

use base::texts::Name;
use dslx_meaning::DslxType;

/// Whether the two are one type in all their parts.
#[cycle(equal_type)]
pub fn equal_type(a: &DslxType, b: &DslxType) -> bool
    ensures { result ≡ is_equal_type a.now b.now }
{
    match (a, b) {
        (DslxType::Bits(s, v), DslxType::Bits(t, w)) => same_sign(*s, *t) && *v == *w,
        (DslxType::Tuple(xs), DslxType::Tuple(ys)) => equal_types(xs.as_slice(), ys.as_slice()),
        (DslxType::Array(x, m), DslxType::Array(y, n)) => equal_type(x.get(), y.get()) && *m == *n,
        (DslxType::Struct(m, fs, xs), DslxType::Struct(n, gs, ys)) => m == n
            && same_names(fs.as_slice(), gs.as_slice())
            && equal_types(xs.as_slice(), ys.as_slice()),
        (DslxType::Enum(m, s, v), DslxType::Enum(n, t, w)) => m == n
            && (same_sign(*s, *t) && *v == *w),
        (DslxType::Token, DslxType::Token) => true,
        _ => false,
    }
}

/// Whether the two lists have equal types.
#[cycle(equal_type)]
pub fn equal_types(a: &[DslxType], b: &[DslxType]) -> bool
    ensures { result ≡ pairwise (λ p t. p t) (map is_equal_type a.now) b.now }
{
    if a.len() != b.len() {
        return false;
    }
    'parts: for i in 0..a.len() {
        if !equal_type(&a[i], &b[i]) {
            return false;
        }
    }
    true
}

pub(crate) fn same_sign(a: bool, b: bool) -> bool
    ensures { result ≡ same_bool a b }
{
    if a { b } else { !b }
}

/// Whether the two lists have the same names.
pub(crate) fn same_names(a: &[Name], b: &[Name]) -> bool
    ensures { result ≡ are_same_names a.now b.now }
{
    if a.len() != b.len() {
        return false;
    }
    'names: for i in 0..a.len() {
        if a[i] != b[i] {
            return false;
        }
    }
    true
}
