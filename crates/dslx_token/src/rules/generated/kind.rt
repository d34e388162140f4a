//! Written by tools/grammar_tables.py from docs/dslx.grammar.
//!
//! The kinds of token.

pub const AMP: u8 = 0;

pub const ANDAND: u8 = 1;

pub const ARGS: u8 = 2;

pub const ARROW: u8 = 3;

pub const AS: u8 = 4;

pub const ASSIGN: u8 = 5;

pub const BANG: u8 = 6;

pub const BOOL: u8 = 7;

pub const BOTHNAME: u8 = 8;

pub const CARET: u8 = 9;

pub const CHAN: u8 = 10;

pub const COLON: u8 = 11;

pub const COMMA: u8 = 12;

pub const CONCAT: u8 = 13;

pub const CONFIG: u8 = 14;

pub const CONST: u8 = 15;

pub const DARROW: u8 = 16;

pub const DOT: u8 = 17;

pub const DOTS: u8 = 18;

pub const ELSE: u8 = 19;

pub const ENUM: u8 = 20;

pub const EQ: u8 = 21;

pub const FALSE: u8 = 22;

pub const FIELDS: u8 = 23;

pub const FN: u8 = 24;

pub const FOR: u8 = 25;

pub const FUNNAME: u8 = 26;

pub const GE: u8 = 27;

pub const GT: u8 = 28;

pub const IF: u8 = 29;

pub const IN: u8 = 30;

pub const INIT: u8 = 31;

pub const LBRACE: u8 = 32;

pub const LBRACKET: u8 = 33;

pub const LE: u8 = 34;

pub const LET: u8 = 35;

pub const LPAREN: u8 = 36;

pub const LT: u8 = 37;

pub const MATCH: u8 = 38;

pub const MINUS: u8 = 39;

pub const NAME: u8 = 40;

pub const NE: u8 = 41;

pub const NEXT: u8 = 42;

pub const NUMBER: u8 = 43;

pub const OROR: u8 = 44;

pub const OUT: u8 = 45;

pub const PATH: u8 = 46;

pub const PERCENT: u8 = 47;

pub const PIPE: u8 = 48;

pub const PLUS: u8 = 49;

pub const PLUSCOLON: u8 = 50;

pub const PROC: u8 = 51;

pub const PUB: u8 = 52;

pub const RBRACE: u8 = 53;

pub const RBRACKET: u8 = 54;

pub const REST: u8 = 55;

pub const RPAREN: u8 = 56;

pub const SEMI: u8 = 57;

pub const SHL: u8 = 58;

pub const SHR: u8 = 59;

pub const SIGNED: u8 = 60;

pub const SLASH: u8 = 61;

pub const SPAWN: u8 = 62;

pub const STAR: u8 = 63;

pub const STRING: u8 = 64;

pub const STRUCT: u8 = 65;

pub const STRUCTNAME: u8 = 66;

pub const TRUE: u8 = 67;

pub const TYPE: u8 = 68;

pub const TYPENAME: u8 = 69;

pub const UNSIGNED: u8 = 70;

pub const WIDE: u8 = 71;

pub const WILD: u8 = 72;

pub const END: u8 = 73;
