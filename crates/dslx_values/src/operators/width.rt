//! Widths of words.

ghost use Rattle.std.specs.Prelude.{◌≡◌, ◌≤◌, MatchOption, false};
ghost use Rattle.dslx_values.specs.Operators.Widths.{is_width};

/// A word would have no bits, or more than 128, and no `Bits` holds it.
#[derive(Clone, Copy, PartialEq, Eq, Drop)]
pub struct WidthOutOfRange;

/// The width as one of words, if a word may have it.
pub fn word_width(width: u128) -> Option<u8>
    ensures { MatchOption result (is_width width ≡ false) (λ w. (w ≡ width) × (1 ≤ w) × (w ≤ 128)) }
{
    if 1 <= width && width <= 128 {
        Some(width as u8)
    } else {
        None
    }
}
