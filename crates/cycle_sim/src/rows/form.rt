//! The forms of lines and items.

ghost use Rattle.std.specs.Prelude.{◌≡◌, ◌≤◌, length, min, take, drop};
ghost use Rattle.std.specs.List.{list_all};
ghost use Rattle.std.specs.Char.{is_ascii_digit};
ghost use Rattle.std.specs.Str.Parse.{digits_value};
ghost use Rattle.cycle_sim.specs.Rows.Forms.{form_behind, is_remark, is_repeat, item_form, name_len, repeats_of, reset_of};
ghost use Rattle.cycle_sim.specs.Rows.Inner.Known.{form_of};

use base::texts::{is_utf8, is_word, is_word_byte};

/// Whether the line is empty, or a comment.
pub fn is_remark(line: &[u8]) -> bool
    ensures { result ≡ is_remark line.now }
{
    match line.first() {
        None => true,
        Some(first) => *first == b'#' && is_utf8(line),
    }
}

/// Whether `rst` is 1, by the first piece of a row.
pub fn reset_of(piece: &[u8]) -> Option<bool>
    ensures { result ≡ reset_of piece.now }
{
    if piece == b"R".as_slice() {
        Some(true)
    } else if piece == b"-".as_slice() {
        Some(false)
    } else {
        None
    }
}

/// The form of an item.
#[derive(Clone, Copy)]
pub enum Form<'a> {
    /// `NAME=VALUE`
    Offer(&'a [u8], &'a [u8]),
    /// `NAME!`
    Ready(&'a [u8]),
    None,
}

pub fn item_form(piece: &[u8]) -> Form<'_>
    ensures { form_of result ≡ item_form piece.now }
{
    let len = name_len(piece);
    let (name, behind) = piece.split_at(len);
    if is_word(name) {
        form_behind(name, behind)
    } else {
        Form::None
    }
}

/// How far a name at the front of an item goes.
fn name_len(piece: &[u8]) -> usize
    ensures len { result ≡ name_len piece.now }
    ensures within { result ≤ length piece.now }
{
    piece.iter().take_while(|byte| is_word_byte(**byte)).count()
}

fn form_behind<'a>(name: &'a [u8], behind: &'a [u8]) -> Form<'a>
    ensures { form_of result ≡ form_behind name.entry.now behind.entry.now }
{
    match behind.split_first() {
        None => Form::None,
        Some((first, rest)) => if *first == b'=' {
            Form::Offer(name, rest)
        } else if behind == b"!".as_slice() {
            Form::Ready(name)
        } else {
            Form::None
        },
    }
}

/// `x`, and a number of 1 or more without a leading zero.
pub fn is_repeat(piece: &[u8]) -> bool
    ensures { result ≡ is_repeat piece.now }
{
    match piece {
        [b'x', first, ..] => *first != b'0' && are_digits(&piece[1..]),
        _ => false,
    }
}

fn are_digits(bytes: &[u8]) -> bool
    ensures { result ≡ list_all is_ascii_digit bytes.now }
{
    bytes.iter().all(|byte| byte.is_ascii_digit())
}

/// How often a row is repeated.
pub fn repeats_of(piece: &[u8]) -> u32
    ensures { result ≡ repeats_of piece.now }
{
    match piece.split_first() {
        None => 0,
        Some((_, digits)) => repeats(digits),
    }
}

fn repeats(digits: &[u8]) -> u32
    ensures { result ≡ min (digits_value 10 digits.now) 1048577 }
{
    match base::texts::number(10, digits) {
        Some(number) => number.min(1048577) as u32,
        None => 1048577,
    }
}
