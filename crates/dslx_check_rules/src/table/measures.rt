//! How large types are.

ghost use Rattle.std.specs.Prelude.{◌≡◌, Option, min};
ghost use Rattle.dslx_meaning.specs.Rules.TypeEnvs.{found_number};
ghost use Rattle.dslx_check_rules.specs.Measures.{least as least_of};
ghost use Rattle.dslx_check_rules.specs.Inner.Measured as the;

/// How large a type is. Numbers past 2^64 - 1 are that.
#[derive(Clone, Copy)]
pub struct TypeMeasures {
    /// Leaves, arrays multiplied out.
    pub leaves: u64,
    /// Tuples, structs and arrays one in another.
    pub levels: u64,
    /// Bits of a flat word.
    pub flat: u64,
    /// The least width of a leaf that has more than 128 bits, if one has.
    pub too_wide: Option<u64>,
    pub is_token: bool,
}

impl TypeMeasures {
    /// Those of no parts.
    pub(crate) fn of_nothing() -> TypeMeasures
        ensures { result ≡ the.of_nothing }
    {
        TypeMeasures {
            leaves: 0,
            levels: 0,
            flat: 0,
            too_wide: None,
            is_token: false,
        }
    }

    /// Those of bits, or of an enum, of a width.
    pub(crate) fn of_leaf(width: u128) -> TypeMeasures
        ensures { result ≡ the.of_leaf width }
    {
        TypeMeasures {
            leaves: 1,
            levels: 0,
            flat: capped(width),
            too_wide: wide(width),
            is_token: false,
        }
    }

    /// Those of a token.
    pub(crate) fn of_token() -> TypeMeasures
        ensures { result ≡ the.of_token }
    {
        TypeMeasures {
            leaves: 0,
            levels: 0,
            flat: 0,
            too_wide: None,
            is_token: true,
        }
    }

    /// Those of `()`.
    pub(crate) fn of_unit() -> TypeMeasures
        ensures { result ≡ the.raised the.of_nothing }
    {
        TypeMeasures::of_nothing().raised()
    }

    /// Those of these parts and one more.
    pub(crate) fn joined(self, other: TypeMeasures) -> TypeMeasures
        ensures { result ≡ the.joined self other }
    {
        TypeMeasures {
            leaves: self.leaves.saturating_add(other.leaves),
            levels: self.levels.max(other.levels),
            flat: self.flat.saturating_add(other.flat),
            too_wide: least(self.too_wide, other.too_wide),
            is_token: false,
        }
    }

    /// Those of what these parts stand in.
    pub(crate) fn raised(self) -> TypeMeasures
        ensures { result ≡ the.raised self }
    {
        TypeMeasures {
            leaves: self.leaves,
            levels: self.levels.saturating_add(1),
            flat: self.flat,
            too_wide: self.too_wide,
            is_token: false,
        }
    }

    /// Those of an array of so many elements.
    pub(crate) fn of_array(self, count: u128) -> TypeMeasures
        ensures { result ≡ the.of_array self count }
    {
        TypeMeasures {
            leaves: times(self.leaves, count),
            levels: self.levels.saturating_add(1),
            flat: times(self.flat, count),
            too_wide: self.too_wide,
            is_token: false,
        }
    }
}

/// The less of the two that are there.
fn least(a: Option<u64>, b: Option<u64>) -> Option<u64>
    ensures { result ≡ least_of a b }
{
    match (a, b) {
        (None, other) => other,
        (held, None) => held,
        (Some(a), Some(b)) => Some(a.min(b)),
    }
}

/// A width past the limit.
fn wide(width: u128) -> Option<u64>
    ensures { result ≡ the.wide width }
{
    if 128 < width {
        Some(capped(width))
    } else {
        None
    }
}

fn capped(number: u128) -> u64
    ensures { result ≡ found_number number }
{
    number.min(u64::MAX as u128) as u64
}

fn times(number: u64, count: u128) -> u64
    ensures { result ≡ the.times number count }
{
    capped((number as u128).saturating_mul(count))
}
