//! How many turns a loop has.

ghost use Rattle.std.specs.Prelude.{◌≡◌, ◌+◌, ◌-◌, ◌^◌, ◌≤◌, suc};
ghost use Rattle.dslx_meaning.specs.Operators.{whole_number};
ghost use Rattle.dslx_core_exprs.specs.Calls.Inner.Turns.{few as if_few, few_turns as turns_if_few, integer_of, turns_between as the_turns};

use dslx_meaning::SignedWord;
use xb_bits::{Bits, not};

/// A whole number.
#[derive(Clone, Copy)]
pub(crate) enum Whole {
    /// One that isn't negative.
    Natural(u128),
    /// So many below -1.
    Below(u128),
}

/// How many turns there are from one bound to before another, if fewer than 2^64: none where they don't rise.
#[tactic(auto, using(crate::proofs::OnCalls::TurnLemmas::turns_are))]
pub(crate) fn few_turns(from: &SignedWord, to: &SignedWord) -> Option<u64>
    ensures { result ≡ turns_if_few from.now to.now }
{
    turns_between(number_of(from), number_of(to))
}

/// How far the second is above the first, if by less than 2^64: 0 where it isn't.
fn turns_between(from: Whole, to: Whole) -> Option<u64>
    ensures { result ≡ if_few (the_turns (integer_of from) (integer_of to)) }
{
    match (from, to) {
        (Whole::Natural(from), Whole::Natural(to)) => few(to.saturating_sub(from)),
        (Whole::Natural(_), Whole::Below(_)) => Some(0),
        (Whole::Below(from), Whole::Natural(to)) => one_more(from, to),
        (Whole::Below(from), Whole::Below(to)) => few(from.saturating_sub(to)),
    }
}

/// A number that is less than 2^64.
fn few(number: u128) -> Option<u64>
    ensures { result ≡ if_few number }
{
    if number <= u64::MAX as u128 {
        Some(number as u64)
    } else {
        None
    }
}

/// One more than two numbers together, if that is less than 2^64.
#[tactic(auto, using(crate::proofs::OnCalls::TurnLemmas::sum_is))]
fn one_more(a: u128, b: u128) -> Option<u64>
    ensures { result ≡ if_few (suc (a + b)) }
{
    few(a.saturating_add(b).saturating_add(1))
}

/// The number that a word stands for.
fn number_of(x: &SignedWord) -> Whole
    ensures { integer_of result ≡ whole_number x.now }
{
    if x.signed && half(x.word.width()) <= x.word.value() {
        Whole::Below(below(x.word))
    } else {
        Whole::Natural(x.word.value())
    }
}

/// How far a word is below -1, where it is negative.
#[tactic(auto, using(crate::proofs::OnCalls::TurnLemmas::complement_is))]
fn below(x: Bits) -> u128
    ensures { result ≡ 2 ^ x.width - suc x.value }
{
    not(x).value()
}

/// The least number of so many bits that is negative where they are signed.
fn half(width: u8) -> u128
    requires some_width { 1 ≤ width }
    requires most_width { width ≤ 128 }
    ensures { result ≡ 2 ^ (width - 1) }
{
    1u128 << (width - 1)
}
