//! Written by tools/grammar_tables.py from docs/verilog.grammar.
//!
//! The nonterminals.

pub const MODULE: u8 = 0;

pub const ITEMS: u8 = 1;

pub const NAME: u8 = 2;

pub const NUMBER: u8 = 3;

pub const RANGE: u8 = 4;

pub const PORT: u8 = 5;

pub const DIRECTION: u8 = 6;

pub const PORTS_MORE: u8 = 7;

pub const DECLARATIONS: u8 = 8;

pub const DECLARATION: u8 = 9;

pub const STORAGE: u8 = 10;

pub const ASSIGNMENTS: u8 = 11;

pub const ASSIGNMENT: u8 = 12;

pub const CLOCKED: u8 = 13;

pub const EDGE: u8 = 14;

pub const RESET_BRANCH: u8 = 15;

pub const CLOCK_BRANCH: u8 = 16;

pub const SETS: u8 = 17;

pub const SET: u8 = 18;

pub const ATOM: u8 = 19;

pub const EXPR: u8 = 20;

pub const SIMPLE: u8 = 21;

pub const OTHER: u8 = 22;

pub const ATOMS_MORE: u8 = 23;

pub const NAME_WHOLE: u8 = 24;

pub const LITERAL_WHOLE: u8 = 25;

pub const NAME_END: u8 = 26;

pub const LITERAL_END: u8 = 27;

pub const CONDITION: u8 = 28;

pub const SLICE: u8 = 29;

pub const SIGNED_END: u8 = 30;

pub const UNARY: u8 = 31;

pub const BINARY: u8 = 32;

pub const COMPARISON: u8 = 33;
