//! What values say as numbers and as conditions.

ghost use Rattle.std.specs.Prelude.{◌≡◌, ◌^◌, ◌-◌, ◌≤◌, Some, IsTrue};
ghost use Rattle.xb_bits.specs.Word.{IsWord};
ghost use Rattle.dslx_meaning.specs.Lists.{where_true};
ghost use Rattle.dslx_meaning.specs.Types.{same_bool};
ghost use Rattle.dslx_meaning.specs.Operators.{truth as the_truth, truth_of as truth_of_word, index_number as the_index, natural, whole_number, of_one_type as are_of_one_type};
ghost use Rattle.dslx_meaning.specs.Meaning.{turn_count};
ghost use Rattle.dslx_values.specs.Operators.Inner.Ranges.{rank_of};

use crate::bits_of;
use dslx_meaning::{DslxValue, SignedWord};

/// The truth of a bool.
pub fn truth(value: &DslxValue) -> Option<bool>
    ensures { result ≡ the_truth value.now }
{
    match bits_of(value) {
        Some(x) => truth_of(&x),
        None => None,
    }
}

/// Whether an unsigned word of one bit is 1.
pub(crate) fn truth_of(x: &SignedWord) -> Option<bool>
    ensures { result ≡ truth_of_word x.now }
{
    if !x.signed && x.word.width() == 1 {
        Some(x.word.value() == 1)
    } else {
        None
    }
}

/// The whole number that a value is, where it is bits and not negative.
pub fn index_number(value: &DslxValue) -> Option<u128>
    ensures { result ≡ the_index value.now }
{
    match bits_of(value) {
        Some(x) => natural_number(&x),
        None => None,
    }
}

fn natural_number(x: &SignedWord) -> Option<u128>
    ensures { result ≡ natural (whole_number x.now) }
{
    if x.signed && half(x.word.width()) <= x.word.value() {
        None
    } else {
        Some(x.word.value())
    }
}

/// Whether two words are bits of one sign and one width.
pub fn of_one_type(x: &SignedWord, y: &SignedWord) -> bool
    ensures same { result ≡ are_of_one_type x.now y.now }
    ensures widths { IsTrue result → x.now.word.width ≡ y.now.word.width }
    ensures signs { IsTrue result → x.now.signed ≡ y.now.signed }
{
    x.signed == y.signed && x.word.width() == y.word.width()
}

/// How many turns a loop from one bound to another has, if both are bits of one type: none where they don't rise.
#[tactic(auto, using(crate::proofs::OnOperators::TurnLemmas::turns_by_ranks))]
pub fn turns(from: &SignedWord, to: &SignedWord) -> Option<u128>
    ensures { result ≡ where_true (are_of_one_type from.now to.now) (Some (turn_count from.now to.now)) }
{
    if of_one_type(from, to) {
        Some(rank(to).saturating_sub(rank(from)))
    } else {
        None
    }
}

/// The index of a word among all of its type, the least one first.
fn rank(x: &SignedWord) -> u128
    ensures rank { result ≡ rank_of x.now }
    ensures is_word { IsWord x.now.word }
{
    let half = half(x.word.width());
    if !x.signed {
        x.word.value()
    } else if x.word.value() < half {
        x.word.value() + half
    } else {
        x.word.value() - half
    }
}

/// The least number of so many bits that is negative where they are signed.
fn half(width: u8) -> u128
    requires some_width { 1 ≤ width }
    requires most_width { width ≤ 128 }
    ensures { result ≡ 2 ^ (width - 1) }
{
    1u128 << (width - 1)
}
