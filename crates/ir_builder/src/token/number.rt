//! Numbers: how far they go, and what they stand for.

ghost use Rattle.std.specs.Prelude.{◌≡◌, ◌≤◌, ◌^◌, length, MatchOption};
ghost use Rattle.std.specs.List.{prefix_len};
ghost use Rattle.std.specs.Char.{is_ascii_digit, is_ascii_hexdigit};
ghost use Rattle.ir_builder.specs.Token.TokenPrefixes.{begins_hexadecimal, digits_len, value_of_number};

use dslx_token::byte_at;

pub fn begins_hexadecimal(text: &[u8]) -> bool
    ensures { result ≡ begins_hexadecimal text.now }
{
    byte_at(text, 0) == b'0' && byte_at(text, 1) == b'x' && byte_at(text, 2).is_ascii_hexdigit()
}

/// How far the number at the front of a text goes.
pub fn digits_len(text: &[u8]) -> usize
    ensures len { result ≡ digits_len text.now }
    ensures within { result ≤ length text.now }
{
    if begins_hexadecimal(text) {
        2 + hexadecimal_len(&text[2..])
    } else {
        decimal_len(text)
    }
}

fn decimal_len(text: &[u8]) -> usize
    ensures len { result ≡ prefix_len is_ascii_digit text.now }
    ensures within { result ≤ length text.now }
{
    text.iter().take_while(|byte| byte.is_ascii_digit()).count()
}

fn hexadecimal_len(text: &[u8]) -> usize
    ensures len { result ≡ prefix_len is_ascii_hexdigit text.now }
    ensures within { result ≤ length text.now }
{
    text.iter()
        .take_while(|byte| byte.is_ascii_hexdigit())
        .count()
}

/// What a number stands for, where that is below 2^128.
pub fn value_of_number(number: &[u8]) -> Option<u128>
    ensures { MatchOption result (2 ^ 128 ≤ value_of_number number.now) (λ n. n ≡ value_of_number number.now) }
{
    if begins_hexadecimal(number) {
        base::texts::number(16, &number[2..])
    } else {
        base::texts::number(10, number)
    }
}
