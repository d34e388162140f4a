//! Words of a number type as texts, without tokens and values between: read in one loop over the digits, and written by one
//! append. Nothing here allocates but the text that grows.

ghost use Rattle.std.specs.Prelude.{◌≡◌, ◌<◌, ◌≤◌, ◌+◌, ◌-◌, ◌/◌, ◌^◌, ◌∷◌, ◌++◌, Some, OnOk, codes, bytes_eq, string_bytes, take, drop, length, IsTrue, IsAscii};
ghost use Rattle.std.specs.Char.{digit_char, digit_value};
ghost use Rattle.base.specs.Texts.Hexadecimal.{hex_digits};
ghost use Rattle.chan_file.specs.Inner.Number.{number_of, number_in, held_in, word_in};

use std::alloc::AllocError;
use xb_bits::Bits;

/// The word of `width` bits that a text is, if it is `0x` and digits of one.
pub fn word_in(width: u64, text: &[u8]) -> Option<Bits>
    requires some_width { 1 ≤ width }
    requires most_width { width ≤ 128 }
    ensures { result ≡ word_in width text.now }
{
    match number_in(text) {
        None => None,
        Some(number) => held_in(width as u8, number),
    }
}

/// The number in bits of the width, if they hold it.
fn held_in(width: u8, number: u128) -> Option<Bits>
    requires some_width { 1 ≤ width }
    requires most_width { width ≤ 128 }
    ensures { result ≡ held_in width (Some number) }
{
    if number > u128::MAX >> (128 - width) {
        return None;
    }
    Some(Bits::new(width, number))
}

/// The number that a text is, if it is `0x` and digits of one.
fn number_in(text: &[u8]) -> Option<u128>
    ensures { result ≡ number_in text.now }
{
    if begins_number(text) {
        number_of(&text[2..])
    } else {
        None
    }
}

fn begins_number(text: &[u8]) -> bool
    ensures value { result ≡ bytes_eq (codes "0x") (take 2 text.now) }
    ensures long { IsTrue result → 2 ≤ length text.now }
{
    text.starts_with(b"0x")
}

/// The number that 1 to 32 hexadecimal digits of either case write, if these are such.
fn number_of(digits: &[u8]) -> Option<u128>
    ensures { result ≡ number_of digits.now }
{
    if digits.is_empty() || digits.len() > 32 {
        return None;
    }
    let mut number = 0u128;
    'digits: for byte in digits {
        let digit = value_at(*byte);
        if digit >= 16 {
            return None;
        }
        number = number * 16 + u128::from(digit);
    }
    Some(number)
}

/// The value of a digit or a letter, and 36 for any other byte. It is looked up, since a processor can't foresee how tests of
/// a number's digits end.
fn value_at(byte: u8) -> u8
    ensures { result ≡ digit_value byte }
{
    VALUES[byte as usize]
}

/// The value of each byte.
static VALUES: [u8; 256] = [
    36, 36, 36, 36, 36, 36, 36, 36, 36, 36, 36, 36, 36, 36, 36, 36, 36, 36, 36, 36, 36, 36, 36, 36,
    36, 36, 36, 36, 36, 36, 36, 36, 36, 36, 36, 36, 36, 36, 36, 36, 36, 36, 36, 36, 36, 36, 36, 36,
    0, 1, 2, 3, 4, 5, 6, 7, 8, 9, 36, 36, 36, 36, 36, 36, 36, 10, 11, 12, 13, 14, 15, 16, 17, 18,
    19, 20, 21, 22, 23, 24, 25, 26, 27, 28, 29, 30, 31, 32, 33, 34, 35, 36, 36, 36, 36, 36, 36, 10,
    11, 12, 13, 14, 15, 16, 17, 18, 19, 20, 21, 22, 23, 24, 25, 26, 27, 28, 29, 30, 31, 32, 33, 34,
    35, 36, 36, 36, 36, 36, 36, 36, 36, 36, 36, 36, 36, 36, 36, 36, 36, 36, 36, 36, 36, 36, 36, 36,
    36, 36, 36, 36, 36, 36, 36, 36, 36, 36, 36, 36, 36, 36, 36, 36, 36, 36, 36, 36, 36, 36, 36, 36,
    36, 36, 36, 36, 36, 36, 36, 36, 36, 36, 36, 36, 36, 36, 36, 36, 36, 36, 36, 36, 36, 36, 36, 36,
    36, 36, 36, 36, 36, 36, 36, 36, 36, 36, 36, 36, 36, 36, 36, 36, 36, 36, 36, 36, 36, 36, 36, 36,
    36, 36, 36, 36, 36, 36, 36, 36, 36, 36, 36, 36, 36, 36, 36, 36, 36, 36, 36, 36, 36, 36, 36, 36,
    36, 36, 36, 36, 36, 36, 36, 36, 36, 36, 36, 36, 36, 36,
];

/// Appends a space, `0x` and as many digits as the word's width needs.
pub fn push_number(text: &mut String, word: Bits) -> Result<(), AllocError>
    ensures text { OnOk result (string_bytes text.new ≡ string_bytes text.old ++ (32 ∷ codes "0x" ++ hex_digits ((word.width + 3) / 4) word.value)) }
    ensures in_range { word.value < 2 ^ word.width }
{
    let count = (usize::from(word.width()) + 3) / 4;
    let mut bytes = [0u8; 35];
    put_digits(&mut bytes, count, word.value());
    bytes[34 - count] = b'x';
    bytes[33 - count] = b'0';
    bytes[32 - count] = b' ';
    push_ascii(text, &bytes[32 - count..])
}

/// Puts the low hexadecimal digits of a number at the end of the bytes, in lower case.
fn put_digits(bytes: &mut [u8; 35], count: usize, number: u128)
    requires { count ≤ 32 }
    ensures { drop (35 - count) bytes.new ≡ hex_digits count number }
{
    let mut left = number;
    'digits: for i in 0..count {
        bytes[34 - i] = digit_char((left % 16) as u8);
        left /= 16;
    }
}

/// A hexadecimal digit in lower case.
fn digit_char(digit: u8) -> u8
    requires { digit < 16 }
    ensures { result ≡ digit_char digit }
{
    if digit < 10 {
        b'0' + digit
    } else {
        b'a' + (digit - 10)
    }
}

/// Appends bytes that are ASCII. They are UTF-8 then, so no byte is tested again.
fn push_ascii(text: &mut String, bytes: &[u8]) -> Result<(), AllocError>
    requires { IsAscii bytes.now }
    ensures { OnOk result (string_bytes text.new ≡ string_bytes text.old ++ bytes.now) }
{
    text.push_str(unsafe { str::from_utf8_unchecked(bytes) })
}
