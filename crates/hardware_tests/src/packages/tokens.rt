//! Texts whose tokens were worked by hand.

ghost use Rattle.std.specs.Prelude.{◌<◌, ◌^◌, length};

use ir_builder::token::rules::kind::{
    ASSIGN, COLON, COMMA, END, ID, LARGE, LBRACE, LPAREN, NAME, OPID, OWN, PLAIN, RPAREN, SITE,
    SMALL, ST, TOKEN,
};
use ir_builder::token::tokens;
use std::alloc::Global;
use std::test::Fail;
use xb_span::ReadError;

fn kinds_are(alloc: Global, text: &[u8], kinds: &[u8]) -> Result<bool, ReadError>
    requires { length text.now < 2 ^ 32 }
{
    let found = tokens(alloc, text)?;
    if found.len() != kinds.len() {
        return Ok(false);
    }
    for (token, kind) in found.iter().zip(kinds) {
        if token.kind() != *kind {
            return Ok(false);
        }
    }
    Ok(true)
}

#[test]
fn words_go_on_with_dots_and_slashes_and_end_before_comments(rt: HostRuntime) -> Result<(), Fail> {
    let found = tokens(rt.alloc(), b" a/b//c\n a/ add.06 12ab")?;
    let texts: [&[u8]; 6] = [b"a/b", b"a/", b"add.06", b"12", b"ab", b""];
    assert_eq!(rt; found.len(), texts.len());
    for (token, text) in found.iter().zip(&texts) {
        assert!(rt; token.bytes() == *text);
    }
    Ok(())
}

#[test]
fn kinds_depend_on_the_node(rt: HostRuntime) -> Result<(), Fail> {
    let alike = kinds_are(
        rt.alloc(),
        b"{ not.5: token = not(st, id=5) add.6 = neg(id=05, add = send",
        &[
            LBRACE, OPID, COLON, TOKEN, ASSIGN, PLAIN, LPAREN, ST, COMMA, ID, ASSIGN, OWN, RPAREN,
            OPID, ASSIGN, NAME, LPAREN, ID, ASSIGN, SMALL, COMMA, NAME, ASSIGN, NAME, END,
        ],
    )?;
    assert!(rt; alike);
    Ok(())
}

#[test]
fn a_site_is_a_site_where_it_is_its_own(rt: HostRuntime) -> Result<(), Fail> {
    let alike = kinds_are(
        rt.alloc(),
        b"{ send.1 = send add.4294967296 0x1_0 4294967296",
        &[LBRACE, OPID, ASSIGN, SITE, NAME, SMALL, NAME, LARGE, END],
    )?;
    assert!(rt; alike);
    Ok(())
}

#[test]
fn a_number_past_128_bits_begins_no_token(rt: HostRuntime) -> Result<(), Fail> {
    let text = b"value=340282366920938463463374607431768211456";
    let place = match tokens(rt.alloc(), text) {
        Err(ReadError::Syntax(at)) => at,
        _ => 0,
    };
    assert_eq!(rt; place, 6);
    Ok(())
}
