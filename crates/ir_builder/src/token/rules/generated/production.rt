//! Written by tools/grammar_tables.py from docs/ir.grammar.
//!
//! The productions.

/// `package = PACKAGE any_name channels proc procs`
pub const PACKAGE: u16 = 0;

/// `procs = proc procs`
pub const PROCS__PROC: u16 = 1;

/// `procs = (nothing)`
pub const PROCS__NONE: u16 = 2;

/// `channels = channel channels`
pub const CHANNELS__CHANNEL: u16 = 3;

/// `channels = (nothing)`
pub const CHANNELS__NONE: u16 = 4;

/// `any_name = NAME`
pub const ANY_NAME__NAME: u16 = 5;

/// `any_name = OPID`
pub const ANY_NAME__OPID: u16 = 6;

/// `any_name = SITE`
pub const ANY_NAME__SITE: u16 = 7;

/// `any_name = head_word`
pub const ANY_NAME__HEAD_WORD: u16 = 8;

/// `any_name = attribute_word`
pub const ANY_NAME__ATTRIBUTE_WORD: u16 = 9;

/// `head_word = PACKAGE`
pub const HEAD_WORD__PACKAGE: u16 = 10;

/// `head_word = CHAN`
pub const HEAD_WORD__CHAN: u16 = 11;

/// `head_word = PROC`
pub const HEAD_WORD__PROC: u16 = 12;

/// `head_word = ST`
pub const HEAD_WORD__ST: u16 = 13;

/// `head_word = INIT`
pub const HEAD_WORD__INIT: u16 = 14;

/// `head_word = NEXT`
pub const HEAD_WORD__NEXT: u16 = 15;

/// `head_word = ID`
pub const HEAD_WORD__ID: u16 = 16;

/// `head_word = KIND`
pub const HEAD_WORD__KIND: u16 = 17;

/// `head_word = INPUT`
pub const HEAD_WORD__INPUT: u16 = 18;

/// `head_word = OUTPUT`
pub const HEAD_WORD__OUTPUT: u16 = 19;

/// `head_word = INNER`
pub const HEAD_WORD__INNER: u16 = 20;

/// `head_word = DEPTH`
pub const HEAD_WORD__DEPTH: u16 = 21;

/// `head_word = BITS`
pub const HEAD_WORD__BITS: u16 = 22;

/// `head_word = TOKEN`
pub const HEAD_WORD__TOKEN: u16 = 23;

/// `attribute_word = PREDICATE`
pub const ATTRIBUTE_WORD__PREDICATE: u16 = 24;

/// `attribute_word = CHANNEL`
pub const ATTRIBUTE_WORD__CHANNEL: u16 = 25;

/// `attribute_word = CASES`
pub const ATTRIBUTE_WORD__CASES: u16 = 26;

/// `attribute_word = DEFAULT`
pub const ATTRIBUTE_WORD__DEFAULT: u16 = 27;

/// `attribute_word = INDICES`
pub const ATTRIBUTE_WORD__INDICES: u16 = 28;

/// `attribute_word = INDEX`
pub const ATTRIBUTE_WORD__INDEX: u16 = 29;

/// `attribute_word = START`
pub const ATTRIBUTE_WORD__START: u16 = 30;

/// `attribute_word = WIDTH`
pub const ATTRIBUTE_WORD__WIDTH: u16 = 31;

/// `attribute_word = COUNT`
pub const ATTRIBUTE_WORD__COUNT: u16 = 32;

/// `attribute_word = VALUE`
pub const ATTRIBUTE_WORD__VALUE: u16 = 33;

/// `number = SMALL`
pub const NUMBER__SMALL: u16 = 34;

/// `number = LARGE`
pub const NUMBER__LARGE: u16 = 35;

/// `channel = CHAN any_name LPAREN type COMMA channel_id channel_kind RPAREN`
pub const CHANNEL: u16 = 36;

/// `channel_id = ID ASSIGN SMALL COMMA`
pub const CHANNEL_ID: u16 = 37;

/// `channel_kind = KIND ASSIGN kind`
pub const CHANNEL_KIND: u16 = 38;

/// `kind = INPUT`
pub const KIND__INPUT: u16 = 39;

/// `kind = OUTPUT`
pub const KIND__OUTPUT: u16 = 40;

/// `kind = INNER COMMA DEPTH ASSIGN number`
pub const KIND__INNER: u16 = 41;

/// `type = element sizes`
pub const TYPE: u16 = 42;

/// `element = BITS LBRACKET number RBRACKET`
pub const ELEMENT__BITS: u16 = 43;

/// `element = TOKEN`
pub const ELEMENT__TOKEN: u16 = 44;

/// `element = LPAREN types RPAREN`
pub const ELEMENT__LPAREN: u16 = 45;

/// `sizes = LBRACKET number RBRACKET sizes`
pub const SIZES__LBRACKET: u16 = 46;

/// `sizes = (nothing)`
pub const SIZES__NONE: u16 = 47;

/// `types = type types_more`
pub const TYPES__TYPE: u16 = 48;

/// `types = (nothing)`
pub const TYPES__NONE: u16 = 49;

/// `types_more = COMMA type types_more`
pub const TYPES_MORE__COMMA: u16 = 50;

/// `types_more = (nothing)`
pub const TYPES_MORE__NONE: u16 = 51;

/// `value = number`
pub const VALUE__NUMBER: u16 = 52;

/// `value = LPAREN values RPAREN`
pub const VALUE__LPAREN: u16 = 53;

/// `value = LBRACKET values RBRACKET`
pub const VALUE__LBRACKET: u16 = 54;

/// `values = value values_more`
pub const VALUES__VALUE: u16 = 55;

/// `values = (nothing)`
pub const VALUES__NONE: u16 = 56;

/// `values_more = COMMA value values_more`
pub const VALUES_MORE__COMMA: u16 = 57;

/// `values_more = (nothing)`
pub const VALUES_MORE__NONE: u16 = 58;

/// `proc = proc_head nodes next RBRACE`
pub const PROC: u16 = 59;

/// `proc_head = PROC any_name LPAREN state COMMA init RPAREN LBRACE`
pub const PROC_HEAD: u16 = 60;

/// `state = ST COLON type`
pub const STATE: u16 = 61;

/// `init = INIT ASSIGN value`
pub const INIT: u16 = 62;

/// `next = NEXT LPAREN operand RPAREN`
pub const NEXT: u16 = 63;

/// `nodes = node nodes`
pub const NODES__NODE: u16 = 64;

/// `nodes = (nothing)`
pub const NODES__NONE: u16 = 65;

/// `node = OPID COLON type ASSIGN call`
pub const NODE: u16 = 66;

/// `operand = ST`
pub const OPERAND__ST: u16 = 67;

/// `operand = OPID`
pub const OPERAND__OPID: u16 = 68;

/// `call = PLAIN LPAREN operands id`
pub const CALL__PLAIN: u16 = 69;

/// `call = SLICE LPAREN operands start width id`
pub const CALL__SLICE: u16 = 70;

/// `call = DYNAMIC LPAREN operands width id`
pub const CALL__DYNAMIC: u16 = 71;

/// `call = EXTEND LPAREN operands count id`
pub const CALL__EXTEND: u16 = 72;

/// `call = SEL LPAREN operands cases default id`
pub const CALL__SEL: u16 = 73;

/// `call = TUPLEINDEX LPAREN operands index id`
pub const CALL__TUPLEINDEX: u16 = 74;

/// `call = ARRAYAT LPAREN operands indices id`
pub const CALL__ARRAYAT: u16 = 75;

/// `call = LITERAL LPAREN operands literal_value id`
pub const CALL__LITERAL: u16 = 76;

/// `call = SITE LPAREN operands predicate site_channel id`
pub const CALL__SITE: u16 = 77;

/// `operands = operand COMMA operands`
pub const OPERANDS__OPERAND: u16 = 78;

/// `operands = (nothing)`
pub const OPERANDS__NONE: u16 = 79;

/// `id = ID ASSIGN OWN RPAREN`
pub const ID: u16 = 80;

/// `start = START ASSIGN number COMMA`
pub const START: u16 = 81;

/// `width = WIDTH ASSIGN number COMMA`
pub const WIDTH: u16 = 82;

/// `count = COUNT ASSIGN number COMMA`
pub const COUNT: u16 = 83;

/// `index = INDEX ASSIGN number COMMA`
pub const INDEX: u16 = 84;

/// `literal_value = VALUE ASSIGN value COMMA`
pub const LITERAL_VALUE: u16 = 85;

/// `site_channel = CHANNEL ASSIGN any_name COMMA`
pub const SITE_CHANNEL: u16 = 86;

/// `predicate = PREDICATE ASSIGN operand COMMA`
pub const PREDICATE__PREDICATE: u16 = 87;

/// `predicate = (nothing)`
pub const PREDICATE__NONE: u16 = 88;

/// `default = DEFAULT ASSIGN operand COMMA`
pub const DEFAULT__DEFAULT: u16 = 89;

/// `default = (nothing)`
pub const DEFAULT__NONE: u16 = 90;

/// `indices = INDICES ASSIGN LBRACKET operand RBRACKET COMMA`
pub const INDICES: u16 = 91;

/// `cases = CASES ASSIGN LBRACKET case_list RBRACKET COMMA`
pub const CASES: u16 = 92;

/// `case_list = operand case_more`
pub const CASE_LIST__OPERAND: u16 = 93;

/// `case_list = (nothing)`
pub const CASE_LIST__NONE: u16 = 94;

/// `case_more = COMMA operand case_more`
pub const CASE_MORE__COMMA: u16 = 95;

/// `case_more = (nothing)`
pub const CASE_MORE__NONE: u16 = 96;
