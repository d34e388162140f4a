//! Texts whose tokens were worked by hand.

use std::alloc::Global;
use std::test::Fail;
use vlog_text::token::rules::kind::{
    AMP, ASHR, ASSIGN, CLK, EQUALS, LBRACKET, LE, LITERAL, LT, NAME, NE, NUMBER, SHL, SIGNED, ZERO,
};
use vlog_text::token::{Token, tokens};
use xb_span::ReadError;

/// The tokens of a short text.
fn read<'a>(alloc: Global, text: &'a [u8]) -> Result<Vec<Token<'a>>, ReadError> {
    if text.len() > 200 {
        return Err(ReadError::OutOfMemory);
    }
    tokens(alloc, text)
}

/// Whether a text's tokens are those, each of that kind and with those bytes.
fn are_tokens(alloc: Global, text: &[u8], wanted: &[(u8, &[u8])]) -> Result<bool, ReadError> {
    let found = read(alloc, text)?;
    for (token, (kind, bytes)) in found.iter().zip(wanted) {
        if token.kind() != *kind || token.bytes() != *bytes {
            return Ok(false);
        }
    }
    Ok(found.len() == wanted.len() + 1)
}

#[test]
fn tokens_are_the_longest_ones(rt: HostRuntime) -> Result<(), Fail> {
    let wanted: [(u8, &[u8]); 15] = [
        (SHL, b"<<"),
        (LT, b"<"),
        (ASHR, b">>>"),
        (LE, b"<="),
        (AMP, b"&"),
        (AMP, b"&"),
        (NE, b"!="),
        (EQUALS, b"="),
        (SIGNED, b"$signed"),
        (NAME, b"x"),
        (LITERAL, b"8'd5"),
        (NAME, b"x"),
        (ZERO, b"00"),
        (LBRACKET, b"["),
        (NUMBER, b"07"),
    ];
    let text = b"<<< >>>// & \n<=&&!==$signedx 8'd5x\t00[07";
    assert!(rt; are_tokens(rt.alloc(), text, &wanted)?);
    Ok(())
}

#[test]
fn words_have_their_kinds(rt: HostRuntime) -> Result<(), Fail> {
    let wanted: [(u8, &[u8]); 4] = [
        (ASSIGN, b"assign"),
        (CLK, b"clk"),
        (NAME, b"signed"),
        (NAME, b"ends_2"),
    ];
    assert!(rt; are_tokens(rt.alloc(), b"assign clk signed ends_2", &wanted)?);
    Ok(())
}
