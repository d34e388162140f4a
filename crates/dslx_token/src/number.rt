//! Numbers: how far they go, and what they stand for.

ghost use Rattle.std.specs.Prelude.{◌≡◌, ◌↔◌, IsTrue, ◌<◌, ◌≤◌, ◌^◌, true, slice_index};
ghost use Rattle.std.specs.Char.{digit_value, is_ascii_digit, is_ascii_hexdigit};
ghost use Rattle.std.specs.List.{prefix_len};
ghost use Rattle.std.specs.Option.{SomeIff};
ghost use Rattle.dslx_token.specs.Characters.{is_binary_digit};
ghost use Rattle.dslx_token.specs.Inner.TokenPrefixes.{HasPrefix, IsTokenPrefixLen, goes_on_decimal, goes_on_hexadecimal, goes_on_binary};
ghost use Rattle.dslx_token.specs.Lexical.{grouped_value, number_value};

use crate::characters::{byte_at, is_binary_digit};

/// The length of the number at the front of a text that begins with a digit.
pub fn number_len(text: &[u8]) -> usize
    requires { is_ascii_digit (slice_index text.now 0) ≡ true }
    ensures { IsTokenPrefixLen text.now result }
{
    if begins_hexadecimal(text) {
        2 + hexadecimal_len(&text[2..])
    } else if begins_binary(text) {
        2 + binary_len(&text[2..])
    } else {
        decimal_len(text)
    }
}

fn begins_hexadecimal(text: &[u8]) -> bool
    ensures { IsTrue result ↔ HasPrefix 120 is_ascii_hexdigit text.now }
{
    byte_at(text, 0) == b'0' && byte_at(text, 1) == b'x' && byte_at(text, 2).is_ascii_hexdigit()
}

fn begins_binary(text: &[u8]) -> bool
    ensures { IsTrue result ↔ HasPrefix 98 is_binary_digit text.now }
{
    byte_at(text, 0) == b'0' && byte_at(text, 1) == b'b' && is_binary_digit(byte_at(text, 2))
}

fn decimal_len(text: &[u8]) -> usize
    ensures { result ≡ prefix_len goes_on_decimal text.now }
{
    text.iter()
        .take_while(|byte| byte.is_ascii_digit() || **byte == b'_')
        .count()
}

fn hexadecimal_len(text: &[u8]) -> usize
    ensures { result ≡ prefix_len goes_on_hexadecimal text.now }
{
    text.iter()
        .take_while(|byte| byte.is_ascii_hexdigit() || **byte == b'_')
        .count()
}

fn binary_len(text: &[u8]) -> usize
    ensures { result ≡ prefix_len goes_on_binary text.now }
{
    text.iter()
        .take_while(|byte| is_binary_digit(**byte) || **byte == b'_')
        .count()
}

/// What a number stands for, where that is below 2^128.
pub fn number_value(number: &[u8]) -> Option<u128>
    ensures { SomeIff result (number_value number.now < 2 ^ 128) (number_value number.now) }
{
    if number.starts_with(b"0x") {
        grouped_value(16, &number[2..])
    } else if number.starts_with(b"0b") {
        grouped_value(2, &number[2..])
    } else {
        grouped_value(10, number)
    }
}

/// What digits stand for, where that is below 2^128; `_` between them says nothing.
pub fn grouped_value(radix: u8, digits: &[u8]) -> Option<u128>
    requires { 1 ≤ radix }
    ensures { SomeIff result (grouped_value radix digits.now < 2 ^ 128) (grouped_value radix digits.now) }
{
    let mut value = 0u128;
    for digit in digits {
        if *digit != b'_' {
            let shifted = value.checked_mul(u128::from(radix))?;
            value = shifted.checked_add(u128::from(digit_value(*digit)))?;
        }
    }
    Some(value)
}

/// What a digit stands for; a letter is a digit of a larger base.
fn digit_value(digit: u8) -> u8
    ensures { result ≡ digit_value digit }
{
    match digit {
        b'0'..=b'9' => digit - b'0',
        b'A'..=b'Z' => digit - b'A' + 10,
        b'a'..=b'z' => digit - b'a' + 10,
        _ => 36,
    }
}
