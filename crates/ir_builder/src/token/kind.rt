//! The kind of a token, by itself and in a text.

ghost use Rattle.std.specs.Prelude.{◌≡◌, ◌≤◌, ◌^◌, length, map, nat_lt};
ghost use Rattle.std.specs.List.{list_all, prefix_len};
ghost use Rattle.std.specs.Str.Parse.{digits_value};
ghost use Rattle.std.specs.Char.{is_ascii_digit};
ghost use Rattle.delay_model.specs.Names.{op_named};
ghost use Rattle.dslx_token.specs.Spelling.{kind_among};
ghost use Rattle.ir_builder.specs.Token.Inner.Entries.{entry_of};
ghost use Rattle.ir_builder.specs.Token.Kinds.{ir_words, is_no_dot, op_part, id_part, is_id, is_op_id, ir_word_kind, ir_number_kind, ir_plain_kind, class_by, class_of};

use crate::token::characters::mark_kind;
use crate::token::number::value_of_number;
use crate::token::rules::kind::{
    ARRAYAT, BITS, CASES, CHAN, CHANNEL, COUNT, DEFAULT, DEPTH, DYNAMIC, END, EXTEND, ID, INDEX,
    INDICES, INIT, INNER, INPUT, KIND, LARGE, LITERAL, NAME, NEXT, OPID, OUTPUT, PACKAGE, PLAIN,
    PREDICATE, PROC, SEL, SITE, SLICE, SMALL, ST, START, TOKEN, TUPLEINDEX, VALUE, WIDTH,
};
use base::texts::begins_word;
use delay_model::{AttributeKind, Op};

const WORDS: [(&[u8], u8); 24] = [
    (b"package", PACKAGE),
    (b"chan", CHAN),
    (b"proc", PROC),
    (b"st", ST),
    (b"init", INIT),
    (b"next", NEXT),
    (b"id", ID),
    (b"kind", KIND),
    (b"input", INPUT),
    (b"output", OUTPUT),
    (b"inner", INNER),
    (b"depth", DEPTH),
    (b"bits", BITS),
    (b"token", TOKEN),
    (b"predicate", PREDICATE),
    (b"channel", CHANNEL),
    (b"cases", CASES),
    (b"default", DEFAULT),
    (b"indices", INDICES),
    (b"index", INDEX),
    (b"start", START),
    (b"width", WIDTH),
    (b"new_bit_count", COUNT),
    (b"value", VALUE),
];

/// The kind of a word that is no `OP.ID`.
fn listed_kind(word: &[u8]) -> u8
    ensures { result ≡ kind_among ir_words word.now NAME }
{
    kind_among(&WORDS, word, NAME)
}

/// The kind of what is spelled so, or another one where it isn't among these.
fn kind_among(spellings: &[(&[u8], u8)], bytes: &[u8], other: u8) -> u8
    ensures { result ≡ kind_among (map entry_of spellings.now) bytes.now other }
{
    for (spelled, kind) in spellings {
        if *spelled == bytes {
            return *kind;
        }
    }
    other
}

fn dot_at(word: &[u8]) -> usize
    ensures len { result ≡ prefix_len is_no_dot word.now }
    ensures within { result ≤ length word.now }
{
    word.iter().take_while(|byte| **byte != b'.').count()
}

/// What stands before the first `.` of a word.
pub fn op_part(word: &[u8]) -> &[u8]
    ensures { result.now ≡ op_part word.now }
{
    &word[..dot_at(word)]
}

/// What stands behind the first `.` of a word.
pub fn id_part(word: &[u8]) -> &[u8]
    ensures { result.now ≡ id_part word.now }
{
    let dot = dot_at(word);
    if dot < word.len() {
        &word[dot + 1..]
    } else {
        &word[word.len()..]
    }
}

/// The operation of this name.
pub fn op_named(name: &[u8]) -> Option<Op>
    ensures { result ≡ op_named name.now }
{
    Op::ALL
        .iter()
        .copied()
        .find(|op| op.name().as_bytes() == name)
}

fn are_digits(bytes: &[u8]) -> bool
    ensures { result ≡ list_all is_ascii_digit bytes.now }
{
    bytes.iter().all(|byte| byte.is_ascii_digit())
}

/// The digits of a number below 2^32.
fn is_small(digits: &[u8]) -> bool
    ensures { result ≡ nat_lt (digits_value 10 digits.now) (2 ^ 32) }
{
    match base::texts::number(10, digits) {
        Some(number) => number < 1 << 32,
        None => false,
    }
}

/// The same without leading zeros.
fn is_id(digits: &[u8]) -> bool
    ensures { result ≡ is_id digits.now }
{
    match digits.split_first() {
        Some((first, rest)) => are_digits(digits)
            && (*first != b'0' || rest.len() == 0)
            && is_small(digits),
        None => false,
    }
}

/// An operation, a `.` and an id.
fn is_op_id(word: &[u8]) -> bool
    ensures { result ≡ is_op_id word.now }
{
    op_named(op_part(word)).is_some() && is_id(id_part(word))
}

#[tactic(auto, unfolding(crate::specs::Token::Kinds::ir_word_kind))]
fn word_kind(word: &[u8]) -> u8
    ensures { result ≡ ir_word_kind word.now }
{
    if is_op_id(word) {
        OPID
    } else {
        listed_kind(word)
    }
}

fn number_kind(number: &[u8]) -> u8
    ensures { result ≡ ir_number_kind number.now }
{
    match value_of_number(number) {
        Some(value) => if value < 1 << 32 { SMALL } else { LARGE },
        None => LARGE,
    }
}

/// The kind of a token by itself.
pub fn plain_kind(bytes: &[u8]) -> u8
    ensures { result ≡ ir_plain_kind bytes.now }
{
    let Some(first) = bytes.first() else {
        return END;
    };
    if begins_word(*first) {
        word_kind(bytes)
    } else if first.is_ascii_digit() {
        number_kind(bytes)
    } else {
        mark_kind(*first)
    }
}

/// The class of an operation with such attributes.
fn class_by(kind: AttributeKind) -> u8
    ensures { result ≡ class_by kind }
{
    match kind {
        AttributeKind::None => PLAIN,
        AttributeKind::StartAndWidth => SLICE,
        AttributeKind::Width => DYNAMIC,
        AttributeKind::NewBitCount => EXTEND,
        AttributeKind::Cases => SEL,
        AttributeKind::Index => TUPLEINDEX,
        AttributeKind::Indices => ARRAYAT,
        AttributeKind::Value => LITERAL,
        AttributeKind::Channel => SITE,
    }
}

/// The class of an operation.
pub fn class_of(op: Option<Op>) -> u8
    ensures { result ≡ class_of op }
{
    match op {
        Some(op) => class_by(op.attribute_kind()),
        None => NAME,
    }
}
