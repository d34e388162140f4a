//! The kind of a token.

ghost use Rattle.std.specs.Prelude.{◌≡◌, map};
ghost use Rattle.dslx_token.specs.Spelling.{kind_among};
ghost use Rattle.vlog_text.specs.Token.Inner.Entries.{entry_of};
ghost use Rattle.vlog_text.specs.Token.Kinds.{verilog_words, digits_kind, mark_kind, verilog_kind};

use crate::token::characters::{double_kind, single_kind};
use crate::token::front::{begins_literal, prefix_digits};
use crate::token::rules::kind::{
    ALWAYS, ASHR, ASSIGN, BEGIN, CLK, ELSE, END, ENDBLOCK, ENDMODULE, IF, INPUT, LITERAL, MODULE,
    NAME, NUMBER, OUTPUT, POSEDGE, REG, RST, SIGNED, WIRE, ZERO,
};
use base::texts::begins_word;
use dslx_token::byte_at;

const WORDS: [(&[u8], u8); 15] = [
    (b"assign", ASSIGN),
    (b"wire", WIRE),
    (b"reg", REG),
    (b"clk", CLK),
    (b"rst", RST),
    (b"input", INPUT),
    (b"output", OUTPUT),
    (b"module", MODULE),
    (b"endmodule", ENDMODULE),
    (b"always", ALWAYS),
    (b"posedge", POSEDGE),
    (b"begin", BEGIN),
    (b"end", ENDBLOCK),
    (b"if", IF),
    (b"else", ELSE),
];

fn word_kind(word: &[u8]) -> u8
    ensures { result ≡ kind_among verilog_words word.now NAME }
{
    kind_among(&WORDS, word, NAME)
}

/// The kind of what is spelled so, or another one where it isn't among these.
fn kind_among(spellings: &[(&[u8], u8)], bytes: &[u8], other: u8) -> u8
    ensures { result ≡ kind_among (map entry_of spellings.now) bytes.now other }
{
    for (spelled, kind) in spellings {
        if *spelled == bytes {
            return *kind;
        }
    }
    other
}

#[tactic(auto, unfolding(crate::specs::Token::Kinds::digits_kind))]
fn digits_kind(bytes: &[u8]) -> u8
    ensures { result ≡ digits_kind bytes.now }
{
    if begins_literal(bytes) {
        LITERAL
    } else if base::texts::number(10, prefix_digits(bytes)) == Some(0) {
        ZERO
    } else {
        NUMBER
    }
}

#[tactic(auto, unfolding(crate::specs::Token::Kinds::mark_kind))]
fn mark_kind(bytes: &[u8]) -> u8
    ensures { result ≡ mark_kind bytes.now }
{
    match bytes.len() {
        1 => single_kind(byte_at(bytes, 0)),
        2 => double_kind(byte_at(bytes, 0), byte_at(bytes, 1)),
        _ => ASHR,
    }
}

/// The kind of a token.
pub fn kind_of(bytes: &[u8]) -> u8
    ensures { result ≡ verilog_kind bytes.now }
{
    let Some(first) = bytes.first() else {
        return END;
    };
    if begins_word(*first) {
        word_kind(bytes)
    } else if first.is_ascii_digit() {
        digits_kind(bytes)
    } else if *first == b'$' {
        SIGNED
    } else {
        mark_kind(bytes)
    }
}
