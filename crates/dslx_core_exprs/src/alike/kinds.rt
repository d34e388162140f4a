//! Values that are of a type. A test takes time as the smaller of the two is large.

ghost use Rattle.std.specs.Prelude.{◌≡◌, ◌==◌, ◌&&◌, map};
ghost use Rattle.std.specs.List.{list_all};
ghost use Rattle.dslx_meaning.specs.Types.{same_bool};
ghost use Rattle.dslx_core.specs.Typing.Typed.Kinds.{each_of, is_of as the_value_is_of, lies_in};

use crate::alike::equal::{same_names, same_sign};
use dslx_meaning::{DslxType, DslxValue};
use xb_bits::Bits;

/// Whether the value is of this type.
#[cycle(is_of)]
pub fn is_of(ty: &DslxType, value: &DslxValue) -> bool
    ensures { result ≡ the_value_is_of ty.now value.now }
{
    match (ty, value) {
        (DslxType::Bits(s, w), DslxValue::Bits(t, x)) => is_word_of(*s, *w, *t, *x),
        (DslxType::Tuple(types), DslxValue::Tuple(values)) => {
            are_of(types.as_slice(), values.as_slice())
        }
        (DslxType::Array(part, count), DslxValue::Array(values)) => {
            *count != 0 && *count == values.len() as u128 && all_of(part.get(), values.as_slice())
        }
        (DslxType::Struct(m, fs, types), DslxValue::Struct(n, gs, values)) => m == n
            && same_names(fs.as_slice(), gs.as_slice())
            && are_of(types.as_slice(), values.as_slice()),
        (DslxType::Enum(m, s, w), DslxValue::Enum(n, t, x)) => m == n && is_word_of(*s, *w, *t, *x),
        (DslxType::Token, DslxValue::Token) => true,
        _ => false,
    }
}

/// Whether the word is of bits of this sign and width.
fn is_word_of(signed: bool, width: u128, sign: bool, word: Bits) -> bool
    ensures { result ≡ (same_bool signed sign && width == word.width) && lies_in word }
{
    same_sign(signed, sign) && width == u128::from(word.width()) && lies(word)
}

/// A word lies in its width.
fn lies(word: Bits) -> bool
    ensures { result ≡ lies_in word }
{
    true
}

/// Whether each of the values is of its type, and there are as many.
#[cycle(is_of)]
fn are_of(types: &[DslxType], values: &[DslxValue]) -> bool
    ensures { result ≡ each_of (map the_value_is_of types.now) values.now }
{
    if types.len() != values.len() {
        return false;
    }
    'parts: for i in 0..types.len() {
        if !is_of(&types[i], &values[i]) {
            return false;
        }
    }
    true
}

/// Whether each of the values is of the type.
#[cycle(is_of)]
fn all_of(ty: &DslxType, values: &[DslxValue]) -> bool
    ensures { result ≡ list_all (the_value_is_of ty.now) values.now }
{
    'values: for value in values {
        if !is_of(ty, value) {
            return false;
        }
    }
    true
}
