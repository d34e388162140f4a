//! Written by tools/grammar_tables.py from docs/verilog.grammar.
//!
//! The kinds of token.

pub const ALWAYS: u8 = 0;

pub const AMP: u8 = 1;

pub const ASHR: u8 = 2;

pub const ASSIGN: u8 = 3;

pub const AT: u8 = 4;

pub const BEGIN: u8 = 5;

pub const CARET: u8 = 6;

pub const CLK: u8 = 7;

pub const COLON: u8 = 8;

pub const COMMA: u8 = 9;

pub const ELSE: u8 = 10;

pub const ENDBLOCK: u8 = 11;

pub const ENDMODULE: u8 = 12;

pub const EQ: u8 = 13;

pub const EQUALS: u8 = 14;

pub const GE: u8 = 15;

pub const GT: u8 = 16;

pub const IF: u8 = 17;

pub const INPUT: u8 = 18;

pub const LBRACE: u8 = 19;

pub const LBRACKET: u8 = 20;

pub const LE: u8 = 21;

pub const LITERAL: u8 = 22;

pub const LPAREN: u8 = 23;

pub const LT: u8 = 24;

pub const MINUS: u8 = 25;

pub const MODULE: u8 = 26;

pub const NAME: u8 = 27;

pub const NE: u8 = 28;

pub const NUMBER: u8 = 29;

pub const OUTPUT: u8 = 30;

pub const PERCENT: u8 = 31;

pub const PIPE: u8 = 32;

pub const PLUS: u8 = 33;

pub const POSEDGE: u8 = 34;

pub const QUESTION: u8 = 35;

pub const RBRACE: u8 = 36;

pub const RBRACKET: u8 = 37;

pub const REG: u8 = 38;

pub const RPAREN: u8 = 39;

pub const RST: u8 = 40;

pub const SEMI: u8 = 41;

pub const SHL: u8 = 42;

pub const SHR: u8 = 43;

pub const SIGNED: u8 = 44;

pub const SLASH: u8 = 45;

pub const STAR: u8 = 46;

pub const TILDE: u8 = 47;

pub const WIRE: u8 = 48;

pub const ZERO: u8 = 49;

pub const END: u8 = 50;
