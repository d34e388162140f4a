//! Which characters tokens are made of.

ghost use Rattle.std.specs.Prelude.{◌≡◌, slice_index};
ghost use Rattle.dslx_token.specs.Characters.{is_binary_digit, is_white};

pub fn is_white(byte: u8) -> bool
    ensures { result ≡ is_white byte }
{
    matches!(byte, b' ' | b'\t' | b'\r' | b'\n')
}

pub fn is_binary_digit(byte: u8) -> bool
    ensures { result ≡ is_binary_digit byte }
{
    byte == b'0' || byte == b'1'
}

/// The byte at that index, or 0 past the end: no token has that byte.
pub fn byte_at(text: &[u8], at: usize) -> u8
    ensures { result ≡ slice_index text.now at }
{
    text.get(at).copied().unwrap_or(0)
}
