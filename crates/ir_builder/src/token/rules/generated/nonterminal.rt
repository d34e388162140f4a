//! Written by tools/grammar_tables.py from docs/ir.grammar.
//!
//! The nonterminals.

pub const PACKAGE: u8 = 0;

pub const PROCS: u8 = 1;

pub const CHANNELS: u8 = 2;

pub const ANY_NAME: u8 = 3;

pub const HEAD_WORD: u8 = 4;

pub const ATTRIBUTE_WORD: u8 = 5;

pub const NUMBER: u8 = 6;

pub const CHANNEL: u8 = 7;

pub const CHANNEL_ID: u8 = 8;

pub const CHANNEL_KIND: u8 = 9;

pub const KIND: u8 = 10;

pub const TYPE: u8 = 11;

pub const ELEMENT: u8 = 12;

pub const SIZES: u8 = 13;

pub const TYPES: u8 = 14;

pub const TYPES_MORE: u8 = 15;

pub const VALUE: u8 = 16;

pub const VALUES: u8 = 17;

pub const VALUES_MORE: u8 = 18;

pub const PROC: u8 = 19;

pub const PROC_HEAD: u8 = 20;

pub const STATE: u8 = 21;

pub const INIT: u8 = 22;

pub const NEXT: u8 = 23;

pub const NODES: u8 = 24;

pub const NODE: u8 = 25;

pub const OPERAND: u8 = 26;

pub const CALL: u8 = 27;

pub const OPERANDS: u8 = 28;

pub const ID: u8 = 29;

pub const START: u8 = 30;

pub const WIDTH: u8 = 31;

pub const COUNT: u8 = 32;

pub const INDEX: u8 = 33;

pub const LITERAL_VALUE: u8 = 34;

pub const SITE_CHANNEL: u8 = 35;

pub const PREDICATE: u8 = 36;

pub const DEFAULT: u8 = 37;

pub const INDICES: u8 = 38;

pub const CASES: u8 = 39;

pub const CASE_LIST: u8 = 40;

pub const CASE_MORE: u8 = 41;
