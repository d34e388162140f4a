//! The grammar of DSLX: the derivation of a constant, and a long text. What texts the grammar has, and where others have their fault, is in
//! tests/dslx.

use base::grammar::ParseError;
use dslx_token::rules::kind::*;
use dslx_token::rules::{parse, parse_tree, production};
use std::alloc::Global;
use std::test::Fail;

/// The index of the fault, or the length where there is none.
fn place_of(alloc: Global, kinds: &[u8]) -> Result<usize, Fail> {
    let Some(&last) = kinds.last() else {
        return Err("no end mark".into());
    };
    if last != END {
        return Err("another mark at the end".into());
    }
    match parse(alloc, kinds) {
        Ok(_) => Ok(kinds.len()),
        Err(ParseError::Fault(fault)) => Ok(fault.place),
        Err(ParseError::OutOfMemory) => Err("out of memory".into()),
    }
}

#[test]
fn derivation_of_a_constant(rt: HostRuntime) -> Result<(), Fail> {
    // const A = -1;
    let kinds = [CONST, NAME, ASSIGN, MINUS, NUMBER, SEMI, END];
    let found = parse(rt.alloc(), &kinds)?;
    let derivation = [
        production::MODULE,
        production::ITEMS__ITEM,
        production::ITEM__DEFINITION,
        production::DEFINITION__CONSTANT,
        production::CONSTANT,
        production::ANY_NAME__NAME,
        production::CONSTANT_TYPE__NONE,
        production::EXPR,
        production::OPERAND,
        production::PREFIXED__MINUS,
        production::PREFIXED__ATOM,
        production::ATOM__NUMBER,
        production::POSTS__NONE,
        production::CASTS__NONE,
        production::OPERANDS__NONE,
        production::ITEMS__NONE,
    ];
    assert_eq!(rt; found.as_slice(), derivation.as_slice());
    let nodes = parse_tree(rt.alloc(), &found, &kinds)?;
    assert_eq!(rt; nodes.len(), 16);
    // the expression
    assert_eq!(rt; nodes[7].end, 15);
    assert_eq!(rt; nodes[7].tokens, 2);
    Ok(())
}

#[test]
fn a_million_tokens(rt: HostRuntime) -> Result<(), Fail> {
    let mut kinds = Vec::new(rt.alloc());
    for _ in 0..100_000 {
        for kind in [
            CONST, NAME, ASSIGN, NUMBER, PLUS, LPAREN, NAME, RPAREN, LBRACKET, NUMBER,
        ] {
            kinds.push(kind)?;
        }
        kinds.push(RBRACKET)?;
        kinds.push(SEMI)?;
    }
    kinds.push(END)?;
    assert_eq!(rt; place_of(rt.alloc(), &kinds)?, 1_200_001);
    Ok(())
}
