//! Written by tools/grammar_tables.py from docs/dslx.grammar.
//!
//! The nonterminals.

pub const MODULE: u8 = 0;

pub const ITEMS: u8 = 1;

pub const ITEM: u8 = 2;

pub const DEFINITION: u8 = 3;

pub const ANY_NAME: u8 = 4;

pub const OPEN_BRACE: u8 = 5;

pub const OPEN_ANGLE: u8 = 6;

pub const FUNCTION: u8 = 7;

pub const RESULT_TYPE: u8 = 8;

pub const PARAMETERS: u8 = 9;

pub const PARAMETERS_MORE: u8 = 10;

pub const PARAMETER: u8 = 11;

pub const PARAMETER_DEFAULT: u8 = 12;

pub const ARGUMENTS_DECLARED: u8 = 13;

pub const ARGUMENTS_DECLARED_MORE: u8 = 14;

pub const ARGUMENT_DECLARED: u8 = 15;

pub const CONSTANT: u8 = 16;

pub const CONSTANT_TYPE: u8 = 17;

pub const ALIAS: u8 = 18;

pub const STRUCTURE: u8 = 19;

pub const ENUMERATION: u8 = 20;

pub const MEMBERS: u8 = 21;

pub const MEMBERS_MORE: u8 = 22;

pub const MEMBER: u8 = 23;

pub const PROC: u8 = 24;

pub const PROC_MEMBERS: u8 = 25;

pub const PROC_MEMBER: u8 = 26;

pub const END: u8 = 27;

pub const DIRECTION: u8 = 28;

pub const PARTS: u8 = 29;

pub const PARTS_INIT_NEXT: u8 = 30;

pub const PARTS_CONFIG_NEXT: u8 = 31;

pub const PARTS_CONFIG_INIT: u8 = 32;

pub const CONFIG: u8 = 33;

pub const ENDS: u8 = 34;

pub const ENDS_MORE: u8 = 35;

pub const END_DECLARED: u8 = 36;

pub const MAKINGS: u8 = 37;

pub const CHANNEL: u8 = 38;

pub const CHANNEL_MADE: u8 = 39;

pub const CHANNEL_END: u8 = 40;

pub const CHANNEL_DEPTH: u8 = 41;

pub const SPAWN: u8 = 42;

pub const SPAWN_ARGS: u8 = 43;

pub const CONFIG_RESULT: u8 = 44;

pub const NAMES: u8 = 45;

pub const NAMES_MORE: u8 = 46;

pub const INIT: u8 = 47;

pub const NEXT: u8 = 48;

pub const ARGS_MORE: u8 = 49;

pub const ARG: u8 = 50;

pub const ARG_NAME: u8 = 51;

pub const SIGNED: u8 = 52;

pub const TYPE: u8 = 53;

pub const BASE: u8 = 54;

pub const BASE_KEYWORD: u8 = 55;

pub const TYPE_TAIL: u8 = 56;

pub const SIZE: u8 = 57;

pub const NAME_SIZE: u8 = 58;

pub const TYPES: u8 = 59;

pub const TYPES_MORE: u8 = 60;

pub const BLOCK: u8 = 61;

pub const STATEMENTS: u8 = 62;

pub const STATEMENT_END: u8 = 63;

pub const BARE: u8 = 64;

pub const LET: u8 = 65;

pub const LET_PATTERN: u8 = 66;

pub const LET_NAME: u8 = 67;

pub const LET_COLON: u8 = 68;

pub const LET_TYPE: u8 = 69;

pub const PATTERN: u8 = 70;

pub const PLAIN_PATTERN: u8 = 71;

pub const PATTERN_NAME: u8 = 72;

pub const PATTERNS: u8 = 73;

pub const PATTERNS_MORE: u8 = 74;

pub const EXPR: u8 = 75;

pub const OPERANDS: u8 = 76;

pub const BINARY: u8 = 77;

pub const OPERAND: u8 = 78;

pub const PREFIXED: u8 = 79;

pub const CASTS: u8 = 80;

pub const CAST: u8 = 81;

pub const POSTS: u8 = 82;

pub const INDEX_END: u8 = 83;

pub const PART: u8 = 84;

pub const ATOM: u8 = 85;

pub const ALIAS_NAME: u8 = 86;

pub const TYPED: u8 = 87;

pub const NAME_TAIL: u8 = 88;

pub const FUNCTION_TAIL: u8 = 89;

pub const STRUCT_TAIL: u8 = 90;

pub const BOTH_TAIL: u8 = 91;

pub const CALL: u8 = 92;

pub const CALL_WITH_ARGS: u8 = 93;

pub const EXPRS: u8 = 94;

pub const EXPRS_MORE: u8 = 95;

pub const FIELDS: u8 = 96;

pub const FIELD_LIST: u8 = 97;

pub const FIELD_VALUE: u8 = 98;

pub const FIELD_MORE: u8 = 99;

pub const PARENTHESIS: u8 = 100;

pub const PARENTHESIS_END: u8 = 101;

pub const ELEMENTS: u8 = 102;

pub const ELEMENTS_MORE: u8 = 103;

pub const ELEMENTS_NEXT: u8 = 104;

pub const ELEMENTS_END: u8 = 105;

pub const IF: u8 = 106;

pub const ELSE: u8 = 107;

pub const MATCH: u8 = 108;

pub const ARMS: u8 = 109;

pub const ARMS_MORE: u8 = 110;

pub const ARM: u8 = 111;

pub const ALTERNATIVES: u8 = 112;

pub const FOR: u8 = 113;

pub const FOR_TYPE: u8 = 114;

pub const FOR_RANGE: u8 = 115;

pub const HEADED_BLOCK: u8 = 116;
