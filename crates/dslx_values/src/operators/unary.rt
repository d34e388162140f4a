//! Unary operators.

ghost use Rattle.std.specs.Prelude.{◌≡◌};
ghost use Rattle.dslx_meaning.specs.Operators.{prefix_value as the_value, prefix_word as the_word};

use crate::bits_of;
use dslx_meaning::DslxValue;
use dslx_tree::Prefix;
use xb_bits::{Bits, neg, not};

/// What an operator before its operand gives for it.
pub fn prefix_value(op: Prefix, value: &DslxValue) -> Option<DslxValue>
    ensures { result ≡ the_value op value.now }
{
    match bits_of(value) {
        Some(x) => Some(DslxValue::Bits(x.signed, prefix_word(op, x.word))),
        None => None,
    }
}

fn prefix_word(op: Prefix, word: Bits) -> Bits
    ensures { result ≡ the_word op word }
{
    match op {
        Prefix::Minus => neg(word),
        Prefix::Not => not(word),
    }
}
