//! Written by tools/grammar_tables.py from docs/ir.grammar.
//!
//! The kinds of token.

pub const ARRAYAT: u8 = 0;

pub const ASSIGN: u8 = 1;

pub const BITS: u8 = 2;

pub const CASES: u8 = 3;

pub const CHAN: u8 = 4;

pub const CHANNEL: u8 = 5;

pub const COLON: u8 = 6;

pub const COMMA: u8 = 7;

pub const COUNT: u8 = 8;

pub const DEFAULT: u8 = 9;

pub const DEPTH: u8 = 10;

pub const DYNAMIC: u8 = 11;

pub const EXTEND: u8 = 12;

pub const ID: u8 = 13;

pub const INDEX: u8 = 14;

pub const INDICES: u8 = 15;

pub const INIT: u8 = 16;

pub const INNER: u8 = 17;

pub const INPUT: u8 = 18;

pub const KIND: u8 = 19;

pub const LARGE: u8 = 20;

pub const LBRACE: u8 = 21;

pub const LBRACKET: u8 = 22;

pub const LITERAL: u8 = 23;

pub const LPAREN: u8 = 24;

pub const NAME: u8 = 25;

pub const NEXT: u8 = 26;

pub const OPID: u8 = 27;

pub const OUTPUT: u8 = 28;

pub const OWN: u8 = 29;

pub const PACKAGE: u8 = 30;

pub const PLAIN: u8 = 31;

pub const PREDICATE: u8 = 32;

pub const PROC: u8 = 33;

pub const RBRACE: u8 = 34;

pub const RBRACKET: u8 = 35;

pub const RPAREN: u8 = 36;

pub const SEL: u8 = 37;

pub const SITE: u8 = 38;

pub const SLICE: u8 = 39;

pub const SMALL: u8 = 40;

pub const ST: u8 = 41;

pub const START: u8 = 42;

pub const TOKEN: u8 = 43;

pub const TUPLEINDEX: u8 = 44;

pub const VALUE: u8 = 45;

pub const WIDTH: u8 = 46;

pub const END: u8 = 47;
