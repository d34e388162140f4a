//! What literals and numbers stand for.

ghost use Rattle.std.specs.Prelude.{◌≡◌, ◌≤◌, ◌<◌, ◌^◌, if◌then◌else◌, nat_lt, min};
ghost use Rattle.std.specs.Str.Parse.{digits_value};
ghost use Rattle.vlog_text.specs.Builder.Parts.{literal_of, literal_said, literal_value, most};
ghost use Rattle.vlog_text.specs.Builder.Empty.{no_literal};

use crate::token::Token;
use vlog_tree::Literal;

/// A number, or 2^64 - 1 where it is more.
pub fn short(digits: &[u8]) -> u64
    ensures { result ≡ min (digits_value 10 digits.now) most }
{
    match base::texts::number(10, digits) {
        Some(number) => number.min(0xffff_ffff_ffff_ffff) as u64,
        None => 0xffff_ffff_ffff_ffff,
    }
}

/// The number, or 0 where it doesn't fit the width.
fn fitting(width: u32, digits: &[u8]) -> u128
    requires { width ≤ 128 }
    ensures { result ≡ (if nat_lt (digits_value 10 digits.now) (2 ^ width) then digits_value 10 digits.now else 0) }
{
    match base::texts::number(10, digits) {
        Some(value) => if width == 128 || value < 1 << width {
            value
        } else {
            0
        },
        None => 0,
    }
}

/// The value of a literal, or 0 where its width is past 128.
fn value(width: u64, digits: &[u8]) -> u128
    ensures { result ≡ literal_value width (digits_value 10 digits.now) }
{
    if width <= 128 {
        fitting(width as u32, digits)
    } else {
        0
    }
}

/// A literal of this width, and with these digits.
fn said(width: u64, digits: &[u8]) -> Literal
    ensures { result ≡ literal_said width (digits_value 10 digits.now) }
{
    Literal {
        width: width.max(1),
        value: value(width, digits),
    }
}

/// What a literal says.
pub fn literal(token: &Token) -> Literal
    ensures { result ≡ literal_of token.now.bytes }
{
    said(short(token.prefix_digits()), token.value_digits())
}

/// What stands for a literal that isn't there.
pub fn no_literal() -> Literal
    ensures { result ≡ no_literal }
{
    said(1, b"0")
}
