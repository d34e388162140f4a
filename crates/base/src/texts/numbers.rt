//! Numbers in digits.

ghost use Rattle.std.specs.Prelude.{◌≡◌, ◌<◌, ◌≤◌, ◌+◌, ◌*◌, ◌/◌, ◌%◌, ◌^◌, [], ◌∷◌, ◌++◌, decimal, OnOk, MatchOption, string_bytes};
ghost use Rattle.std.specs.Char.{digit_char, digit_value};
ghost use Rattle.std.specs.Str.Parse.{digits_value};
ghost use Rattle.base.specs.Texts.Hexadecimal.{hex_digits};

use itoa::Buffer;
use std::alloc::AllocError;

/// Appends a number in decimal digits.
pub fn push_decimal(text: &mut String, number: u64) -> Result<(), AllocError>
    ensures { OnOk result (string_bytes text.new ≡ string_bytes text.old ++ decimal number) }
{
    let mut buffer = Buffer::new();
    text.push_str(buffer.format(number))
}

/// Appends the low digits of a number in hexadecimal, the highest first, in lower case.
pub fn push_hex(text: &mut String, count: u32, number: u128) -> Result<(), AllocError>
    requires { count ≤ 32 }
    ensures { OnOk result (string_bytes text.new ≡ string_bytes text.old ++ hex_digits count number) }
{
    'digits: for i in 0..count {
        push_digit(text, count - 1 - i, number)?;
    }
    Ok(())
}

/// Appends the hexadecimal digit of a number at an offset, which is 0 for the lowest.
fn push_digit(text: &mut String, offset: u32, number: u128) -> Result<(), AllocError>
    requires { offset < 32 }
    ensures { OnOk result (string_bytes text.new ≡ string_bytes text.old ++ digit_char (number / 2 ^ (4 * offset) % 16) ∷ []) }
{
    let digit = (number >> (4 * offset)) % 16;
    text.push(digit_char(digit as u8))
}

/// A hexadecimal digit in lower case.
fn digit_char(digit: u8) -> char
    requires { digit < 16 }
    ensures value { result ≡ digit_char digit }
    ensures ascii { result < 128 }
{
    if digit < 10 {
        char::from(b'0' + digit)
    } else {
        char::from(b'a' + (digit - 10))
    }
}

/// The number that digits of the radix write, where it is below 2^128.
pub fn number(radix: u8, digits: &[u8]) -> Option<u128>
    requires { 1 ≤ radix }
    ensures { MatchOption result (2 ^ 128 ≤ digits_value radix digits.now) (λ n. n ≡ digits_value radix digits.now) }
{
    let mut value = 0u128;
    for digit in digits {
        match appended(value, radix, digit_value(*digit)) {
            Some(longer) => value = longer,
            None => return None,
        }
    }
    Some(value)
}

/// The number with one more digit behind it.
fn appended(value: u128, radix: u8, digit: u8) -> Option<u128>
    ensures { MatchOption result (2 ^ 128 ≤ value * radix + digit) (λ n. n ≡ value * radix + digit) }
{
    value
        .checked_mul(u128::from(radix))?
        .checked_add(u128::from(digit))
}

/// The value of a digit or a letter, which is 10 for `a` and `A`, and 36 for any other byte.
pub fn digit_value(byte: u8) -> u8
    ensures { result ≡ digit_value byte }
{
    match byte {
        b'0'..=b'9' => byte - b'0',
        b'a'..=b'z' => byte - b'a' + 10,
        b'A'..=b'Z' => byte - b'A' + 10,
        _ => 36,
    }
}
