//! Values from texts.

ghost use Rattle.std.specs.Prelude.{◌≡◌, ◌<◌, ◌^◌, List, ◌∷◌, false, IfOk, MatchResult, MatchOption, length, map, IsTrue};
ghost use Rattle.xb_bits.specs.Word.{word};
ghost use Rattle.xb_value.specs.Form.{Spells};
ghost use Rattle.xb_value.specs.Reads.{Reads};
ghost use Rattle.xb_value.specs.Inner.Reading.{reading, read_as, read_each, read_times, read_bits, read_tuple, read_array, parts_at};
ghost use Rattle.xb_value.specs.Refusal.{IsRefusal};
ghost use Rattle.xb_value.specs.Inner.Answers.{IsAnswer, IsFaultOrNoMemory, IsNoBracket, IsUnclosed};
ghost use Rattle.xb_value.specs.Shape.{Says};
ghost use Rattle.xb_value.specs.Typing.{IsOfType, is_word_of};
ghost use Rattle.xb_value.specs.declared.value.Value.{Value};
ghost use Rattle.xb_value.specs.declared.token.Token.{Token};

use crate::scan::{Scanned, scan};
use crate::token::{Bracket, Token};
use crate::ty::Ty;
use crate::value::Value;
use sqlite_items::Items as Seq;
use std::alloc::{AllocError, AllocFailed, Global};
use xb_bits::Bits;

/// Why a text is not read as a value of a type.
#[derive(Clone, Copy, Debug, PartialEq, Eq)]
pub enum ValueError {
    /// The first byte with which the text is a prefix of no value text, or its length where it ends too early.
    Syntax(u32),
    /// The position of the first number or opening bracket that is no value of its part of the type: another kind, a
    /// number past its width, or another count of elements.
    Shape(u32),
    /// There was no memory to answer.
    OutOfMemory,
}

impl From<AllocError> for ValueError {
    ghost use Rattle.std.specs.Prelude.{◌≡◌};
    ghost use Rattle.xb_value.specs.declared.reader.ValueError.TheVariants.{OutOfMemory};

    ghost from_gives = { λ _ e. e ≡ OutOfMemory };

    fn from(_error: AllocError) -> ValueError {
        ValueError::OutOfMemory
    }
}

impl<T: Drop> From<AllocFailed<T>> for ValueError {
    ghost use Rattle.std.specs.Prelude.{◌≡◌};
    ghost use Rattle.xb_value.specs.declared.reader.ValueError.TheVariants.{OutOfMemory};

    ghost from_gives = { λ _ e. e ≡ OutOfMemory };

    fn from(_error: AllocFailed<T>) -> ValueError {
        ValueError::OutOfMemory
    }
}

/// A value, and the numbers and brackets behind it.
#[derive(Drop)]
struct Taken<'a> {
    value: Value,
    rest: &'a [Token],
}

/// Several values, and the numbers and brackets behind them.
#[derive(Drop)]
struct TakenAll<'a> {
    values: Seq<Value>,
    rest: &'a [Token],
}

/// The numbers and brackets inside a bracket, and the position where it opens.
#[derive(Clone, Copy)]
struct Inside<'a> {
    at: u32,
    count: u64,
    rest: &'a [Token],
}

/// Reads a value of the type.
#[cycle(read)]
fn take_value<'a>(alloc: Global, ty: &Ty, tokens: &'a [Token]) -> Result<Taken<'a>, ValueError>
    ensures { MatchResult result (λ taken. read_as ty.now tokens.now ≡ Ok (taken.value, taken.rest.now)) (λ e. IsFaultOrNoMemory e (read_as ty.now tokens.now)) }
{
    match ty {
        Ty::Bits(width) => take_bits(*width, tokens),
        Ty::Tuple(parts) => take_tuple(alloc, parts.as_slice(), tokens),
        Ty::Array(part, count) => take_array(alloc, part.get(), *count, tokens),
    }
}

/// Reads a tuple of values of the types.
#[cycle(read)]
fn take_tuple<'a>(alloc: Global, parts: &[Ty], tokens: &'a [Token]) -> Result<Taken<'a>, ValueError>
    ensures { MatchResult result (λ taken. read_tuple (map read_as parts.now) tokens.now ≡ Ok (taken.value, taken.rest.now)) (λ e. IsFaultOrNoMemory e (read_tuple (map read_as parts.now) tokens.now)) }
{
    let inside = enter(tokens, Bracket::Round)?;
    if inside.count != parts.len() as u64 {
        return Err(ValueError::Shape(inside.at));
    }
    let all = take_each(alloc, parts, inside.rest)?;
    Ok(Taken {
        value: Value::Tuple(all.values),
        rest: leave(inside.at, all.rest)?,
    })
}

/// Reads an array of values of the type.
#[cycle(read)]
fn take_array<'a>(
    alloc: Global,
    part: &Ty,
    count: u64,
    tokens: &'a [Token],
) -> Result<Taken<'a>, ValueError>
    ensures { MatchResult result (λ taken. read_array (read_as part.now) count tokens.now ≡ Ok (taken.value, taken.rest.now)) (λ e. IsFaultOrNoMemory e (read_array (read_as part.now) count tokens.now)) }
{
    let inside = enter(tokens, Bracket::Square)?;
    if inside.count != count {
        return Err(ValueError::Shape(inside.at));
    }
    let all = take_times(alloc, inside.count, part, inside.rest)?;
    Ok(Taken {
        value: Value::Array(all.values),
        rest: leave(inside.at, all.rest)?,
    })
}

/// Reads a value of each type.
#[cycle(read)]
fn take_each<'a>(
    alloc: Global,
    parts: &[Ty],
    tokens: &'a [Token],
) -> Result<TakenAll<'a>, ValueError>
    ensures { MatchResult result (λ taken. read_each (map read_as parts.now) tokens.now ≡ Ok (taken.values, taken.rest.now)) (λ e. IsFaultOrNoMemory e (read_each (map read_as parts.now) tokens.now)) }
{
    let mut values = Seq::new(alloc);
    let mut rest = tokens;
    'parts: for part in parts {
        let taken = take_value(alloc, part, rest)?;
        values.push(taken.value)?;
        rest = taken.rest;
    }
    Ok(TakenAll { values, rest })
}

/// Reads as many values of one type.
#[cycle(read)]
fn take_times<'a>(
    alloc: Global,
    count: u64,
    part: &Ty,
    tokens: &'a [Token],
) -> Result<TakenAll<'a>, ValueError>
    ensures { MatchResult result (λ taken. read_times count (read_as part.now) tokens.now ≡ Ok (taken.values, taken.rest.now)) (λ e. IsFaultOrNoMemory e (read_times count (read_as part.now) tokens.now)) }
{
    let mut values = Seq::new(alloc);
    let mut rest = tokens;
    'turns: for _ in 0..count {
        let taken = take_value(alloc, part, rest)?;
        values.push(taken.value)?;
        rest = taken.rest;
    }
    Ok(TakenAll { values, rest })
}

/// Reads a number of the width.
fn take_bits<'a>(width: u64, tokens: &'a [Token]) -> Result<Taken<'a>, ValueError>
    ensures { MatchResult result (λ taken. read_bits width tokens.now ≡ Ok (taken.value, taken.rest.now)) (λ e. IsFaultOrNoMemory e (read_bits width tokens.now)) }
{
    match tokens.split_first() {
        Some((Token::Number(at, number), rest)) => match bits_of(width, *number) {
            Some(bits) => Ok(Taken {
                value: Value::Bits(bits),
                rest,
            }),
            None => Err(ValueError::Shape(*at)),
        },
        Some((Token::Open(at, _), _)) => Err(ValueError::Shape(*at)),
        _ => Err(ValueError::Shape(0)),
    }
}

/// The number in bits of the width, if they hold it.
fn bits_of(width: u64, number: u128) -> Option<Bits>
    ensures { MatchOption result (is_word_of width (word width number) ≡ false) (λ b. (b ≡ word width number) × IsTrue (is_word_of width (word width number))) }
{
    if width == 0 || width > 128 {
        return None;
    }
    let width = width as u8;
    if number > u128::MAX >> (128 - width) {
        return None;
    }
    Some(Bits::new(width, number))
}

/// How many values stand before the bracket that closes, and what stands behind the opening one.
fn enter<'a>(tokens: &'a [Token], bracket: Bracket) -> Result<Inside<'a>, ValueError>
    ensures { MatchResult result (λ i. (tokens.now ≡ Token.Open i.at bracket ∷ i.rest.now) × (i.count ≡ parts_at 0 i.rest.now)) (IsNoBracket tokens.now bracket) }
{
    match tokens.split_first() {
        Some((Token::Open(at, open), rest)) if *open == bracket => Ok(Inside {
            at: *at,
            count: count_parts(rest),
            rest,
        }),
        Some((Token::Open(at, _), _)) => Err(ValueError::Shape(*at)),
        Some((Token::Number(at, _), _)) => Err(ValueError::Shape(*at)),
        _ => Err(ValueError::Shape(0)),
    }
}

/// What stands behind the bracket that closes.
fn leave<'a>(at: u32, tokens: &'a [Token]) -> Result<&'a [Token], ValueError>
    ensures { MatchResult result (λ rest. tokens.now ≡ Token.Close ∷ rest.now) (λ e. IsUnclosed e at tokens.now) }
{
    match tokens.split_first() {
        Some((Token::Close, rest)) => Ok(rest),
        _ => Err(ValueError::Shape(at)),
    }
}

/// How many values stand before the bracket that closes.
fn count_parts(tokens: &[Token]) -> u64
    ensures { result ≡ parts_at 0 tokens.now }
{
    let mut count = 0u64;
    let mut depth = 0u64;
    'tokens: for token in tokens {
        match token {
            Token::Number(_, _) => {
                if depth == 0 {
                    count += 1;
                }
            }
            Token::Open(_, _) => {
                if depth == 0 {
                    count += 1;
                }
                depth += 1;
            }
            Token::Close => {
                if depth == 0 {
                    return count;
                }
                depth -= 1;
            }
        }
    }
    count
}

/// The value that the numbers and brackets of a text say at the type.
fn read_tokens(alloc: Global, ty: &Ty, tokens: &[Token]) -> Result<Value, ValueError>
    ensures { IsAnswer result (reading ty.now tokens.now) }
{
    let taken = take_value(alloc, ty, tokens)?;
    if !taken.rest.is_empty() {
        return Err(ValueError::Shape(0));
    }
    Ok(taken.value)
}

/// Reads the text of a value of the type: numbers of 1 to 32 digits of either case, and spaces anywhere inside brackets.
///
/// It takes time and memory as the text is long, and time besides as the text is long and the type deep. Its recursion is
/// as deep as the type, whatever the text.
pub fn read_value(alloc: Global, text: &str, ty: &Ty) -> Result<Value, ValueError>
    requires { length text.now < 2 ^ 32 }
    ensures answer { MatchResult result (Reads text.now ty.now) (IsRefusal text.now ty.now) }
    ensures of_type { IfOk result (IsOfType ty.now) }
{
    match scan(alloc, text.as_bytes())? {
        Scanned::Tokens(tokens) => read_tokens(alloc, ty, tokens.as_slice()),
        Scanned::Fault(at) => Err(ValueError::Syntax(at)),
    }
}
