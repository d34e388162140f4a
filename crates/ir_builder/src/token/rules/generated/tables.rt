//! Written by tools/grammar_tables.py from docs/ir.grammar.
//!
//! The tables of the grammar.

use super::{kind, nonterminal};
use base::grammar::Symbol::{Nonterminal, Terminal};
use base::grammar::{Production, Span, Symbol};

/// The bodies of the productions, one behind the other.
pub static SYMBOLS: [Symbol; 227] = [
    // package = PACKAGE any_name channels proc procs
    Terminal(kind::PACKAGE),
    Nonterminal(nonterminal::ANY_NAME),
    Nonterminal(nonterminal::CHANNELS),
    Nonterminal(nonterminal::PROC),
    Nonterminal(nonterminal::PROCS),
    // procs = proc procs
    Nonterminal(nonterminal::PROC),
    Nonterminal(nonterminal::PROCS),
    // procs = (nothing)
    // channels = channel channels
    Nonterminal(nonterminal::CHANNEL),
    Nonterminal(nonterminal::CHANNELS),
    // channels = (nothing)
    // any_name = NAME
    Terminal(kind::NAME),
    // any_name = OPID
    Terminal(kind::OPID),
    // any_name = SITE
    Terminal(kind::SITE),
    // any_name = head_word
    Nonterminal(nonterminal::HEAD_WORD),
    // any_name = attribute_word
    Nonterminal(nonterminal::ATTRIBUTE_WORD),
    // head_word = PACKAGE
    Terminal(kind::PACKAGE),
    // head_word = CHAN
    Terminal(kind::CHAN),
    // head_word = PROC
    Terminal(kind::PROC),
    // head_word = ST
    Terminal(kind::ST),
    // head_word = INIT
    Terminal(kind::INIT),
    // head_word = NEXT
    Terminal(kind::NEXT),
    // head_word = ID
    Terminal(kind::ID),
    // head_word = KIND
    Terminal(kind::KIND),
    // head_word = INPUT
    Terminal(kind::INPUT),
    // head_word = OUTPUT
    Terminal(kind::OUTPUT),
    // head_word = INNER
    Terminal(kind::INNER),
    // head_word = DEPTH
    Terminal(kind::DEPTH),
    // head_word = BITS
    Terminal(kind::BITS),
    // head_word = TOKEN
    Terminal(kind::TOKEN),
    // attribute_word = PREDICATE
    Terminal(kind::PREDICATE),
    // attribute_word = CHANNEL
    Terminal(kind::CHANNEL),
    // attribute_word = CASES
    Terminal(kind::CASES),
    // attribute_word = DEFAULT
    Terminal(kind::DEFAULT),
    // attribute_word = INDICES
    Terminal(kind::INDICES),
    // attribute_word = INDEX
    Terminal(kind::INDEX),
    // attribute_word = START
    Terminal(kind::START),
    // attribute_word = WIDTH
    Terminal(kind::WIDTH),
    // attribute_word = COUNT
    Terminal(kind::COUNT),
    // attribute_word = VALUE
    Terminal(kind::VALUE),
    // number = SMALL
    Terminal(kind::SMALL),
    // number = LARGE
    Terminal(kind::LARGE),
    // channel = CHAN any_name LPAREN type COMMA channel_id channel_kind RPAREN
    Terminal(kind::CHAN),
    Nonterminal(nonterminal::ANY_NAME),
    Terminal(kind::LPAREN),
    Nonterminal(nonterminal::TYPE),
    Terminal(kind::COMMA),
    Nonterminal(nonterminal::CHANNEL_ID),
    Nonterminal(nonterminal::CHANNEL_KIND),
    Terminal(kind::RPAREN),
    // channel_id = ID ASSIGN SMALL COMMA
    Terminal(kind::ID),
    Terminal(kind::ASSIGN),
    Terminal(kind::SMALL),
    Terminal(kind::COMMA),
    // channel_kind = KIND ASSIGN kind
    Terminal(kind::KIND),
    Terminal(kind::ASSIGN),
    Nonterminal(nonterminal::KIND),
    // kind = INPUT
    Terminal(kind::INPUT),
    // kind = OUTPUT
    Terminal(kind::OUTPUT),
    // kind = INNER COMMA DEPTH ASSIGN number
    Terminal(kind::INNER),
    Terminal(kind::COMMA),
    Terminal(kind::DEPTH),
    Terminal(kind::ASSIGN),
    Nonterminal(nonterminal::NUMBER),
    // type = element sizes
    Nonterminal(nonterminal::ELEMENT),
    Nonterminal(nonterminal::SIZES),
    // element = BITS LBRACKET number RBRACKET
    Terminal(kind::BITS),
    Terminal(kind::LBRACKET),
    Nonterminal(nonterminal::NUMBER),
    Terminal(kind::RBRACKET),
    // element = TOKEN
    Terminal(kind::TOKEN),
    // element = LPAREN types RPAREN
    Terminal(kind::LPAREN),
    Nonterminal(nonterminal::TYPES),
    Terminal(kind::RPAREN),
    // sizes = LBRACKET number RBRACKET sizes
    Terminal(kind::LBRACKET),
    Nonterminal(nonterminal::NUMBER),
    Terminal(kind::RBRACKET),
    Nonterminal(nonterminal::SIZES),
    // sizes = (nothing)
    // types = type types_more
    Nonterminal(nonterminal::TYPE),
    Nonterminal(nonterminal::TYPES_MORE),
    // types = (nothing)
    // types_more = COMMA type types_more
    Terminal(kind::COMMA),
    Nonterminal(nonterminal::TYPE),
    Nonterminal(nonterminal::TYPES_MORE),
    // types_more = (nothing)
    // value = number
    Nonterminal(nonterminal::NUMBER),
    // value = LPAREN values RPAREN
    Terminal(kind::LPAREN),
    Nonterminal(nonterminal::VALUES),
    Terminal(kind::RPAREN),
    // value = LBRACKET values RBRACKET
    Terminal(kind::LBRACKET),
    Nonterminal(nonterminal::VALUES),
    Terminal(kind::RBRACKET),
    // values = value values_more
    Nonterminal(nonterminal::VALUE),
    Nonterminal(nonterminal::VALUES_MORE),
    // values = (nothing)
    // values_more = COMMA value values_more
    Terminal(kind::COMMA),
    Nonterminal(nonterminal::VALUE),
    Nonterminal(nonterminal::VALUES_MORE),
    // values_more = (nothing)
    // proc = proc_head nodes next RBRACE
    Nonterminal(nonterminal::PROC_HEAD),
    Nonterminal(nonterminal::NODES),
    Nonterminal(nonterminal::NEXT),
    Terminal(kind::RBRACE),
    // proc_head = PROC any_name LPAREN state COMMA init RPAREN LBRACE
    Terminal(kind::PROC),
    Nonterminal(nonterminal::ANY_NAME),
    Terminal(kind::LPAREN),
    Nonterminal(nonterminal::STATE),
    Terminal(kind::COMMA),
    Nonterminal(nonterminal::INIT),
    Terminal(kind::RPAREN),
    Terminal(kind::LBRACE),
    // state = ST COLON type
    Terminal(kind::ST),
    Terminal(kind::COLON),
    Nonterminal(nonterminal::TYPE),
    // init = INIT ASSIGN value
    Terminal(kind::INIT),
    Terminal(kind::ASSIGN),
    Nonterminal(nonterminal::VALUE),
    // next = NEXT LPAREN operand RPAREN
    Terminal(kind::NEXT),
    Terminal(kind::LPAREN),
    Nonterminal(nonterminal::OPERAND),
    Terminal(kind::RPAREN),
    // nodes = node nodes
    Nonterminal(nonterminal::NODE),
    Nonterminal(nonterminal::NODES),
    // nodes = (nothing)
    // node = OPID COLON type ASSIGN call
    Terminal(kind::OPID),
    Terminal(kind::COLON),
    Nonterminal(nonterminal::TYPE),
    Terminal(kind::ASSIGN),
    Nonterminal(nonterminal::CALL),
    // operand = ST
    Terminal(kind::ST),
    // operand = OPID
    Terminal(kind::OPID),
    // call = PLAIN LPAREN operands id
    Terminal(kind::PLAIN),
    Terminal(kind::LPAREN),
    Nonterminal(nonterminal::OPERANDS),
    Nonterminal(nonterminal::ID),
    // call = SLICE LPAREN operands start width id
    Terminal(kind::SLICE),
    Terminal(kind::LPAREN),
    Nonterminal(nonterminal::OPERANDS),
    Nonterminal(nonterminal::START),
    Nonterminal(nonterminal::WIDTH),
    Nonterminal(nonterminal::ID),
    // call = DYNAMIC LPAREN operands width id
    Terminal(kind::DYNAMIC),
    Terminal(kind::LPAREN),
    Nonterminal(nonterminal::OPERANDS),
    Nonterminal(nonterminal::WIDTH),
    Nonterminal(nonterminal::ID),
    // call = EXTEND LPAREN operands count id
    Terminal(kind::EXTEND),
    Terminal(kind::LPAREN),
    Nonterminal(nonterminal::OPERANDS),
    Nonterminal(nonterminal::COUNT),
    Nonterminal(nonterminal::ID),
    // call = SEL LPAREN operands cases default id
    Terminal(kind::SEL),
    Terminal(kind::LPAREN),
    Nonterminal(nonterminal::OPERANDS),
    Nonterminal(nonterminal::CASES),
    Nonterminal(nonterminal::DEFAULT),
    Nonterminal(nonterminal::ID),
    // call = TUPLEINDEX LPAREN operands index id
    Terminal(kind::TUPLEINDEX),
    Terminal(kind::LPAREN),
    Nonterminal(nonterminal::OPERANDS),
    Nonterminal(nonterminal::INDEX),
    Nonterminal(nonterminal::ID),
    // call = ARRAYAT LPAREN operands indices id
    Terminal(kind::ARRAYAT),
    Terminal(kind::LPAREN),
    Nonterminal(nonterminal::OPERANDS),
    Nonterminal(nonterminal::INDICES),
    Nonterminal(nonterminal::ID),
    // call = LITERAL LPAREN operands literal_value id
    Terminal(kind::LITERAL),
    Terminal(kind::LPAREN),
    Nonterminal(nonterminal::OPERANDS),
    Nonterminal(nonterminal::LITERAL_VALUE),
    Nonterminal(nonterminal::ID),
    // call = SITE LPAREN operands predicate site_channel id
    Terminal(kind::SITE),
    Terminal(kind::LPAREN),
    Nonterminal(nonterminal::OPERANDS),
    Nonterminal(nonterminal::PREDICATE),
    Nonterminal(nonterminal::SITE_CHANNEL),
    Nonterminal(nonterminal::ID),
    // operands = operand COMMA operands
    Nonterminal(nonterminal::OPERAND),
    Terminal(kind::COMMA),
    Nonterminal(nonterminal::OPERANDS),
    // operands = (nothing)
    // id = ID ASSIGN OWN RPAREN
    Terminal(kind::ID),
    Terminal(kind::ASSIGN),
    Terminal(kind::OWN),
    Terminal(kind::RPAREN),
    // start = START ASSIGN number COMMA
    Terminal(kind::START),
    Terminal(kind::ASSIGN),
    Nonterminal(nonterminal::NUMBER),
    Terminal(kind::COMMA),
    // width = WIDTH ASSIGN number COMMA
    Terminal(kind::WIDTH),
    Terminal(kind::ASSIGN),
    Nonterminal(nonterminal::NUMBER),
    Terminal(kind::COMMA),
    // count = COUNT ASSIGN number COMMA
    Terminal(kind::COUNT),
    Terminal(kind::ASSIGN),
    Nonterminal(nonterminal::NUMBER),
    Terminal(kind::COMMA),
    // index = INDEX ASSIGN number COMMA
    Terminal(kind::INDEX),
    Terminal(kind::ASSIGN),
    Nonterminal(nonterminal::NUMBER),
    Terminal(kind::COMMA),
    // literal_value = VALUE ASSIGN value COMMA
    Terminal(kind::VALUE),
    Terminal(kind::ASSIGN),
    Nonterminal(nonterminal::VALUE),
    Terminal(kind::COMMA),
    // site_channel = CHANNEL ASSIGN any_name COMMA
    Terminal(kind::CHANNEL),
    Terminal(kind::ASSIGN),
    Nonterminal(nonterminal::ANY_NAME),
    Terminal(kind::COMMA),
    // predicate = PREDICATE ASSIGN operand COMMA
    Terminal(kind::PREDICATE),
    Terminal(kind::ASSIGN),
    Nonterminal(nonterminal::OPERAND),
    Terminal(kind::COMMA),
    // predicate = (nothing)
    // default = DEFAULT ASSIGN operand COMMA
    Terminal(kind::DEFAULT),
    Terminal(kind::ASSIGN),
    Nonterminal(nonterminal::OPERAND),
    Terminal(kind::COMMA),
    // default = (nothing)
    // indices = INDICES ASSIGN LBRACKET operand RBRACKET COMMA
    Terminal(kind::INDICES),
    Terminal(kind::ASSIGN),
    Terminal(kind::LBRACKET),
    Nonterminal(nonterminal::OPERAND),
    Terminal(kind::RBRACKET),
    Terminal(kind::COMMA),
    // cases = CASES ASSIGN LBRACKET case_list RBRACKET COMMA
    Terminal(kind::CASES),
    Terminal(kind::ASSIGN),
    Terminal(kind::LBRACKET),
    Nonterminal(nonterminal::CASE_LIST),
    Terminal(kind::RBRACKET),
    Terminal(kind::COMMA),
    // case_list = operand case_more
    Nonterminal(nonterminal::OPERAND),
    Nonterminal(nonterminal::CASE_MORE),
    // case_list = (nothing)
    // case_more = COMMA operand case_more
    Terminal(kind::COMMA),
    Nonterminal(nonterminal::OPERAND),
    Nonterminal(nonterminal::CASE_MORE),
    // case_more = (nothing)
];

/// The productions, with the kinds before which each is taken.
pub static PRODUCTIONS: [Production; 97] = [
    // package = PACKAGE any_name channels proc procs
    Production {
        head: nonterminal::PACKAGE,
        first: 0,
        end: 5,
        chosen: 0x40000000,
    },
    // procs = proc procs
    Production {
        head: nonterminal::PROCS,
        first: 5,
        end: 7,
        chosen: 0x200000000,
    },
    // procs = (nothing)
    Production {
        head: nonterminal::PROCS,
        first: 7,
        end: 7,
        chosen: 0x800000000000,
    },
    // channels = channel channels
    Production {
        head: nonterminal::CHANNELS,
        first: 7,
        end: 9,
        chosen: 0x10,
    },
    // channels = (nothing)
    Production {
        head: nonterminal::CHANNELS,
        first: 9,
        end: 9,
        chosen: 0x200000000,
    },
    // any_name = NAME
    Production {
        head: nonterminal::ANY_NAME,
        first: 9,
        end: 10,
        chosen: 0x2000000,
    },
    // any_name = OPID
    Production {
        head: nonterminal::ANY_NAME,
        first: 10,
        end: 11,
        chosen: 0x8000000,
    },
    // any_name = SITE
    Production {
        head: nonterminal::ANY_NAME,
        first: 11,
        end: 12,
        chosen: 0x4000000000,
    },
    // any_name = head_word
    Production {
        head: nonterminal::ANY_NAME,
        first: 12,
        end: 13,
        chosen: 0xa02540f2414,
    },
    // any_name = attribute_word
    Production {
        head: nonterminal::ANY_NAME,
        first: 13,
        end: 14,
        chosen: 0x64010000c328,
    },
    // head_word = PACKAGE
    Production {
        head: nonterminal::HEAD_WORD,
        first: 14,
        end: 15,
        chosen: 0x40000000,
    },
    // head_word = CHAN
    Production {
        head: nonterminal::HEAD_WORD,
        first: 15,
        end: 16,
        chosen: 0x10,
    },
    // head_word = PROC
    Production {
        head: nonterminal::HEAD_WORD,
        first: 16,
        end: 17,
        chosen: 0x200000000,
    },
    // head_word = ST
    Production {
        head: nonterminal::HEAD_WORD,
        first: 17,
        end: 18,
        chosen: 0x20000000000,
    },
    // head_word = INIT
    Production {
        head: nonterminal::HEAD_WORD,
        first: 18,
        end: 19,
        chosen: 0x10000,
    },
    // head_word = NEXT
    Production {
        head: nonterminal::HEAD_WORD,
        first: 19,
        end: 20,
        chosen: 0x4000000,
    },
    // head_word = ID
    Production {
        head: nonterminal::HEAD_WORD,
        first: 20,
        end: 21,
        chosen: 0x2000,
    },
    // head_word = KIND
    Production {
        head: nonterminal::HEAD_WORD,
        first: 21,
        end: 22,
        chosen: 0x80000,
    },
    // head_word = INPUT
    Production {
        head: nonterminal::HEAD_WORD,
        first: 22,
        end: 23,
        chosen: 0x40000,
    },
    // head_word = OUTPUT
    Production {
        head: nonterminal::HEAD_WORD,
        first: 23,
        end: 24,
        chosen: 0x10000000,
    },
    // head_word = INNER
    Production {
        head: nonterminal::HEAD_WORD,
        first: 24,
        end: 25,
        chosen: 0x20000,
    },
    // head_word = DEPTH
    Production {
        head: nonterminal::HEAD_WORD,
        first: 25,
        end: 26,
        chosen: 0x400,
    },
    // head_word = BITS
    Production {
        head: nonterminal::HEAD_WORD,
        first: 26,
        end: 27,
        chosen: 0x4,
    },
    // head_word = TOKEN
    Production {
        head: nonterminal::HEAD_WORD,
        first: 27,
        end: 28,
        chosen: 0x80000000000,
    },
    // attribute_word = PREDICATE
    Production {
        head: nonterminal::ATTRIBUTE_WORD,
        first: 28,
        end: 29,
        chosen: 0x100000000,
    },
    // attribute_word = CHANNEL
    Production {
        head: nonterminal::ATTRIBUTE_WORD,
        first: 29,
        end: 30,
        chosen: 0x20,
    },
    // attribute_word = CASES
    Production {
        head: nonterminal::ATTRIBUTE_WORD,
        first: 30,
        end: 31,
        chosen: 0x8,
    },
    // attribute_word = DEFAULT
    Production {
        head: nonterminal::ATTRIBUTE_WORD,
        first: 31,
        end: 32,
        chosen: 0x200,
    },
    // attribute_word = INDICES
    Production {
        head: nonterminal::ATTRIBUTE_WORD,
        first: 32,
        end: 33,
        chosen: 0x8000,
    },
    // attribute_word = INDEX
    Production {
        head: nonterminal::ATTRIBUTE_WORD,
        first: 33,
        end: 34,
        chosen: 0x4000,
    },
    // attribute_word = START
    Production {
        head: nonterminal::ATTRIBUTE_WORD,
        first: 34,
        end: 35,
        chosen: 0x40000000000,
    },
    // attribute_word = WIDTH
    Production {
        head: nonterminal::ATTRIBUTE_WORD,
        first: 35,
        end: 36,
        chosen: 0x400000000000,
    },
    // attribute_word = COUNT
    Production {
        head: nonterminal::ATTRIBUTE_WORD,
        first: 36,
        end: 37,
        chosen: 0x100,
    },
    // attribute_word = VALUE
    Production {
        head: nonterminal::ATTRIBUTE_WORD,
        first: 37,
        end: 38,
        chosen: 0x200000000000,
    },
    // number = SMALL
    Production {
        head: nonterminal::NUMBER,
        first: 38,
        end: 39,
        chosen: 0x10000000000,
    },
    // number = LARGE
    Production {
        head: nonterminal::NUMBER,
        first: 39,
        end: 40,
        chosen: 0x100000,
    },
    // channel = CHAN any_name LPAREN type COMMA channel_id channel_kind RPAREN
    Production {
        head: nonterminal::CHANNEL,
        first: 40,
        end: 48,
        chosen: 0x10,
    },
    // channel_id = ID ASSIGN SMALL COMMA
    Production {
        head: nonterminal::CHANNEL_ID,
        first: 48,
        end: 52,
        chosen: 0x2000,
    },
    // channel_kind = KIND ASSIGN kind
    Production {
        head: nonterminal::CHANNEL_KIND,
        first: 52,
        end: 55,
        chosen: 0x80000,
    },
    // kind = INPUT
    Production {
        head: nonterminal::KIND,
        first: 55,
        end: 56,
        chosen: 0x40000,
    },
    // kind = OUTPUT
    Production {
        head: nonterminal::KIND,
        first: 56,
        end: 57,
        chosen: 0x10000000,
    },
    // kind = INNER COMMA DEPTH ASSIGN number
    Production {
        head: nonterminal::KIND,
        first: 57,
        end: 62,
        chosen: 0x20000,
    },
    // type = element sizes
    Production {
        head: nonterminal::TYPE,
        first: 62,
        end: 64,
        chosen: 0x80001000004,
    },
    // element = BITS LBRACKET number RBRACKET
    Production {
        head: nonterminal::ELEMENT,
        first: 64,
        end: 68,
        chosen: 0x4,
    },
    // element = TOKEN
    Production {
        head: nonterminal::ELEMENT,
        first: 68,
        end: 69,
        chosen: 0x80000000000,
    },
    // element = LPAREN types RPAREN
    Production {
        head: nonterminal::ELEMENT,
        first: 69,
        end: 72,
        chosen: 0x1000000,
    },
    // sizes = LBRACKET number RBRACKET sizes
    Production {
        head: nonterminal::SIZES,
        first: 72,
        end: 76,
        chosen: 0x400000,
    },
    // sizes = (nothing)
    Production {
        head: nonterminal::SIZES,
        first: 76,
        end: 76,
        chosen: 0x1000000082,
    },
    // types = type types_more
    Production {
        head: nonterminal::TYPES,
        first: 76,
        end: 78,
        chosen: 0x80001000004,
    },
    // types = (nothing)
    Production {
        head: nonterminal::TYPES,
        first: 78,
        end: 78,
        chosen: 0x1000000000,
    },
    // types_more = COMMA type types_more
    Production {
        head: nonterminal::TYPES_MORE,
        first: 78,
        end: 81,
        chosen: 0x80,
    },
    // types_more = (nothing)
    Production {
        head: nonterminal::TYPES_MORE,
        first: 81,
        end: 81,
        chosen: 0x1000000000,
    },
    // value = number
    Production {
        head: nonterminal::VALUE,
        first: 81,
        end: 82,
        chosen: 0x10000100000,
    },
    // value = LPAREN values RPAREN
    Production {
        head: nonterminal::VALUE,
        first: 82,
        end: 85,
        chosen: 0x1000000,
    },
    // value = LBRACKET values RBRACKET
    Production {
        head: nonterminal::VALUE,
        first: 85,
        end: 88,
        chosen: 0x400000,
    },
    // values = value values_more
    Production {
        head: nonterminal::VALUES,
        first: 88,
        end: 90,
        chosen: 0x10001500000,
    },
    // values = (nothing)
    Production {
        head: nonterminal::VALUES,
        first: 90,
        end: 90,
        chosen: 0x1800000000,
    },
    // values_more = COMMA value values_more
    Production {
        head: nonterminal::VALUES_MORE,
        first: 90,
        end: 93,
        chosen: 0x80,
    },
    // values_more = (nothing)
    Production {
        head: nonterminal::VALUES_MORE,
        first: 93,
        end: 93,
        chosen: 0x1800000000,
    },
    // proc = proc_head nodes next RBRACE
    Production {
        head: nonterminal::PROC,
        first: 93,
        end: 97,
        chosen: 0x200000000,
    },
    // proc_head = PROC any_name LPAREN state COMMA init RPAREN LBRACE
    Production {
        head: nonterminal::PROC_HEAD,
        first: 97,
        end: 105,
        chosen: 0x200000000,
    },
    // state = ST COLON type
    Production {
        head: nonterminal::STATE,
        first: 105,
        end: 108,
        chosen: 0x20000000000,
    },
    // init = INIT ASSIGN value
    Production {
        head: nonterminal::INIT,
        first: 108,
        end: 111,
        chosen: 0x10000,
    },
    // next = NEXT LPAREN operand RPAREN
    Production {
        head: nonterminal::NEXT,
        first: 111,
        end: 115,
        chosen: 0x4000000,
    },
    // nodes = node nodes
    Production {
        head: nonterminal::NODES,
        first: 115,
        end: 117,
        chosen: 0x8000000,
    },
    // nodes = (nothing)
    Production {
        head: nonterminal::NODES,
        first: 117,
        end: 117,
        chosen: 0x4000000,
    },
    // node = OPID COLON type ASSIGN call
    Production {
        head: nonterminal::NODE,
        first: 117,
        end: 122,
        chosen: 0x8000000,
    },
    // operand = ST
    Production {
        head: nonterminal::OPERAND,
        first: 122,
        end: 123,
        chosen: 0x20000000000,
    },
    // operand = OPID
    Production {
        head: nonterminal::OPERAND,
        first: 123,
        end: 124,
        chosen: 0x8000000,
    },
    // call = PLAIN LPAREN operands id
    Production {
        head: nonterminal::CALL,
        first: 124,
        end: 128,
        chosen: 0x80000000,
    },
    // call = SLICE LPAREN operands start width id
    Production {
        head: nonterminal::CALL,
        first: 128,
        end: 134,
        chosen: 0x8000000000,
    },
    // call = DYNAMIC LPAREN operands width id
    Production {
        head: nonterminal::CALL,
        first: 134,
        end: 139,
        chosen: 0x800,
    },
    // call = EXTEND LPAREN operands count id
    Production {
        head: nonterminal::CALL,
        first: 139,
        end: 144,
        chosen: 0x1000,
    },
    // call = SEL LPAREN operands cases default id
    Production {
        head: nonterminal::CALL,
        first: 144,
        end: 150,
        chosen: 0x2000000000,
    },
    // call = TUPLEINDEX LPAREN operands index id
    Production {
        head: nonterminal::CALL,
        first: 150,
        end: 155,
        chosen: 0x100000000000,
    },
    // call = ARRAYAT LPAREN operands indices id
    Production {
        head: nonterminal::CALL,
        first: 155,
        end: 160,
        chosen: 0x1,
    },
    // call = LITERAL LPAREN operands literal_value id
    Production {
        head: nonterminal::CALL,
        first: 160,
        end: 165,
        chosen: 0x800000,
    },
    // call = SITE LPAREN operands predicate site_channel id
    Production {
        head: nonterminal::CALL,
        first: 165,
        end: 171,
        chosen: 0x4000000000,
    },
    // operands = operand COMMA operands
    Production {
        head: nonterminal::OPERANDS,
        first: 171,
        end: 174,
        chosen: 0x20008000000,
    },
    // operands = (nothing)
    Production {
        head: nonterminal::OPERANDS,
        first: 174,
        end: 174,
        chosen: 0x64010000e128,
    },
    // id = ID ASSIGN OWN RPAREN
    Production {
        head: nonterminal::ID,
        first: 174,
        end: 178,
        chosen: 0x2000,
    },
    // start = START ASSIGN number COMMA
    Production {
        head: nonterminal::START,
        first: 178,
        end: 182,
        chosen: 0x40000000000,
    },
    // width = WIDTH ASSIGN number COMMA
    Production {
        head: nonterminal::WIDTH,
        first: 182,
        end: 186,
        chosen: 0x400000000000,
    },
    // count = COUNT ASSIGN number COMMA
    Production {
        head: nonterminal::COUNT,
        first: 186,
        end: 190,
        chosen: 0x100,
    },
    // index = INDEX ASSIGN number COMMA
    Production {
        head: nonterminal::INDEX,
        first: 190,
        end: 194,
        chosen: 0x4000,
    },
    // literal_value = VALUE ASSIGN value COMMA
    Production {
        head: nonterminal::LITERAL_VALUE,
        first: 194,
        end: 198,
        chosen: 0x200000000000,
    },
    // site_channel = CHANNEL ASSIGN any_name COMMA
    Production {
        head: nonterminal::SITE_CHANNEL,
        first: 198,
        end: 202,
        chosen: 0x20,
    },
    // predicate = PREDICATE ASSIGN operand COMMA
    Production {
        head: nonterminal::PREDICATE,
        first: 202,
        end: 206,
        chosen: 0x100000000,
    },
    // predicate = (nothing)
    Production {
        head: nonterminal::PREDICATE,
        first: 206,
        end: 206,
        chosen: 0x20,
    },
    // default = DEFAULT ASSIGN operand COMMA
    Production {
        head: nonterminal::DEFAULT,
        first: 206,
        end: 210,
        chosen: 0x200,
    },
    // default = (nothing)
    Production {
        head: nonterminal::DEFAULT,
        first: 210,
        end: 210,
        chosen: 0x2000,
    },
    // indices = INDICES ASSIGN LBRACKET operand RBRACKET COMMA
    Production {
        head: nonterminal::INDICES,
        first: 210,
        end: 216,
        chosen: 0x8000,
    },
    // cases = CASES ASSIGN LBRACKET case_list RBRACKET COMMA
    Production {
        head: nonterminal::CASES,
        first: 216,
        end: 222,
        chosen: 0x8,
    },
    // case_list = operand case_more
    Production {
        head: nonterminal::CASE_LIST,
        first: 222,
        end: 224,
        chosen: 0x20008000000,
    },
    // case_list = (nothing)
    Production {
        head: nonterminal::CASE_LIST,
        first: 224,
        end: 224,
        chosen: 0x800000000,
    },
    // case_more = COMMA operand case_more
    Production {
        head: nonterminal::CASE_MORE,
        first: 224,
        end: 227,
        chosen: 0x80,
    },
    // case_more = (nothing)
    Production {
        head: nonterminal::CASE_MORE,
        first: 227,
        end: 227,
        chosen: 0x800000000,
    },
];

/// Where the alternatives of each nonterminal stand.
pub static SPANS: [Span; 42] = [
    // package
    Span { first: 0, end: 1 },
    // procs
    Span { first: 1, end: 3 },
    // channels
    Span { first: 3, end: 5 },
    // any_name
    Span { first: 5, end: 10 },
    // head_word
    Span { first: 10, end: 24 },
    // attribute_word
    Span { first: 24, end: 34 },
    // number
    Span { first: 34, end: 36 },
    // channel
    Span { first: 36, end: 37 },
    // channel_id
    Span { first: 37, end: 38 },
    // channel_kind
    Span { first: 38, end: 39 },
    // kind
    Span { first: 39, end: 42 },
    // type
    Span { first: 42, end: 43 },
    // element
    Span { first: 43, end: 46 },
    // sizes
    Span { first: 46, end: 48 },
    // types
    Span { first: 48, end: 50 },
    // types_more
    Span { first: 50, end: 52 },
    // value
    Span { first: 52, end: 55 },
    // values
    Span { first: 55, end: 57 },
    // values_more
    Span { first: 57, end: 59 },
    // proc
    Span { first: 59, end: 60 },
    // proc_head
    Span { first: 60, end: 61 },
    // state
    Span { first: 61, end: 62 },
    // init
    Span { first: 62, end: 63 },
    // next
    Span { first: 63, end: 64 },
    // nodes
    Span { first: 64, end: 66 },
    // node
    Span { first: 66, end: 67 },
    // operand
    Span { first: 67, end: 69 },
    // call
    Span { first: 69, end: 78 },
    // operands
    Span { first: 78, end: 80 },
    // id
    Span { first: 80, end: 81 },
    // start
    Span { first: 81, end: 82 },
    // width
    Span { first: 82, end: 83 },
    // count
    Span { first: 83, end: 84 },
    // index
    Span { first: 84, end: 85 },
    // literal_value
    Span { first: 85, end: 86 },
    // site_channel
    Span { first: 86, end: 87 },
    // predicate
    Span { first: 87, end: 89 },
    // default
    Span { first: 89, end: 91 },
    // indices
    Span { first: 91, end: 92 },
    // cases
    Span { first: 92, end: 93 },
    // case_list
    Span { first: 93, end: 95 },
    // case_more
    Span { first: 95, end: 97 },
];
