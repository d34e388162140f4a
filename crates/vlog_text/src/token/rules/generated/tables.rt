//! Written by tools/grammar_tables.py from docs/verilog.grammar.
//!
//! The tables of the grammar.

use super::{kind, nonterminal};
use base::grammar::Symbol::{Nonterminal, Terminal};
use base::grammar::{Production, Span, Symbol};

/// The bodies of the productions, one behind the other.
pub static SYMBOLS: [Symbol; 146] = [
    // module = MODULE name LPAREN port ports_more RPAREN SEMI items
    Terminal(kind::MODULE),
    Nonterminal(nonterminal::NAME),
    Terminal(kind::LPAREN),
    Nonterminal(nonterminal::PORT),
    Nonterminal(nonterminal::PORTS_MORE),
    Terminal(kind::RPAREN),
    Terminal(kind::SEMI),
    Nonterminal(nonterminal::ITEMS),
    // items = declarations assignments clocked ENDMODULE
    Nonterminal(nonterminal::DECLARATIONS),
    Nonterminal(nonterminal::ASSIGNMENTS),
    Nonterminal(nonterminal::CLOCKED),
    Terminal(kind::ENDMODULE),
    // name = NAME
    Terminal(kind::NAME),
    // name = CLK
    Terminal(kind::CLK),
    // name = RST
    Terminal(kind::RST),
    // number = NUMBER
    Terminal(kind::NUMBER),
    // number = ZERO
    Terminal(kind::ZERO),
    // range = LBRACKET number COLON ZERO RBRACKET
    Terminal(kind::LBRACKET),
    Nonterminal(nonterminal::NUMBER),
    Terminal(kind::COLON),
    Terminal(kind::ZERO),
    Terminal(kind::RBRACKET),
    // range = (nothing)
    // port = direction WIRE range name
    Nonterminal(nonterminal::DIRECTION),
    Terminal(kind::WIRE),
    Nonterminal(nonterminal::RANGE),
    Nonterminal(nonterminal::NAME),
    // direction = INPUT
    Terminal(kind::INPUT),
    // direction = OUTPUT
    Terminal(kind::OUTPUT),
    // ports_more = COMMA port ports_more
    Terminal(kind::COMMA),
    Nonterminal(nonterminal::PORT),
    Nonterminal(nonterminal::PORTS_MORE),
    // ports_more = (nothing)
    // declarations = declaration declarations
    Nonterminal(nonterminal::DECLARATION),
    Nonterminal(nonterminal::DECLARATIONS),
    // declarations = (nothing)
    // declaration = storage range name SEMI
    Nonterminal(nonterminal::STORAGE),
    Nonterminal(nonterminal::RANGE),
    Nonterminal(nonterminal::NAME),
    Terminal(kind::SEMI),
    // storage = WIRE
    Terminal(kind::WIRE),
    // storage = REG
    Terminal(kind::REG),
    // assignments = assignment assignments
    Nonterminal(nonterminal::ASSIGNMENT),
    Nonterminal(nonterminal::ASSIGNMENTS),
    // assignments = (nothing)
    // assignment = ASSIGN name EQUALS expr SEMI
    Terminal(kind::ASSIGN),
    Nonterminal(nonterminal::NAME),
    Terminal(kind::EQUALS),
    Nonterminal(nonterminal::EXPR),
    Terminal(kind::SEMI),
    // clocked = ALWAYS edge BEGIN reset_branch clock_branch ENDBLOCK
    Terminal(kind::ALWAYS),
    Nonterminal(nonterminal::EDGE),
    Terminal(kind::BEGIN),
    Nonterminal(nonterminal::RESET_BRANCH),
    Nonterminal(nonterminal::CLOCK_BRANCH),
    Terminal(kind::ENDBLOCK),
    // clocked = (nothing)
    // edge = AT LPAREN POSEDGE CLK RPAREN
    Terminal(kind::AT),
    Terminal(kind::LPAREN),
    Terminal(kind::POSEDGE),
    Terminal(kind::CLK),
    Terminal(kind::RPAREN),
    // reset_branch = IF LPAREN RST RPAREN BEGIN sets ENDBLOCK
    Terminal(kind::IF),
    Terminal(kind::LPAREN),
    Terminal(kind::RST),
    Terminal(kind::RPAREN),
    Terminal(kind::BEGIN),
    Nonterminal(nonterminal::SETS),
    Terminal(kind::ENDBLOCK),
    // clock_branch = ELSE BEGIN sets ENDBLOCK
    Terminal(kind::ELSE),
    Terminal(kind::BEGIN),
    Nonterminal(nonterminal::SETS),
    Terminal(kind::ENDBLOCK),
    // sets = set sets
    Nonterminal(nonterminal::SET),
    Nonterminal(nonterminal::SETS),
    // sets = (nothing)
    // set = name LE atom SEMI
    Nonterminal(nonterminal::NAME),
    Terminal(kind::LE),
    Nonterminal(nonterminal::ATOM),
    Terminal(kind::SEMI),
    // atom = name
    Nonterminal(nonterminal::NAME),
    // atom = LITERAL
    Terminal(kind::LITERAL),
    // expr = name name_whole
    Nonterminal(nonterminal::NAME),
    Nonterminal(nonterminal::NAME_WHOLE),
    // expr = LITERAL literal_whole
    Terminal(kind::LITERAL),
    Nonterminal(nonterminal::LITERAL_WHOLE),
    // expr = other
    Nonterminal(nonterminal::OTHER),
    // expr = SIGNED LPAREN name RPAREN signed_end
    Terminal(kind::SIGNED),
    Terminal(kind::LPAREN),
    Nonterminal(nonterminal::NAME),
    Terminal(kind::RPAREN),
    Nonterminal(nonterminal::SIGNED_END),
    // simple = name name_end
    Nonterminal(nonterminal::NAME),
    Nonterminal(nonterminal::NAME_END),
    // simple = LITERAL literal_end
    Terminal(kind::LITERAL),
    Nonterminal(nonterminal::LITERAL_END),
    // simple = other
    Nonterminal(nonterminal::OTHER),
    // other = unary atom
    Nonterminal(nonterminal::UNARY),
    Nonterminal(nonterminal::ATOM),
    // other = LBRACE atom atoms_more RBRACE
    Terminal(kind::LBRACE),
    Nonterminal(nonterminal::ATOM),
    Nonterminal(nonterminal::ATOMS_MORE),
    Terminal(kind::RBRACE),
    // atoms_more = COMMA atom atoms_more
    Terminal(kind::COMMA),
    Nonterminal(nonterminal::ATOM),
    Nonterminal(nonterminal::ATOMS_MORE),
    // atoms_more = (nothing)
    // name_whole = condition
    Nonterminal(nonterminal::CONDITION),
    // name_whole = name_end
    Nonterminal(nonterminal::NAME_END),
    // literal_whole = condition
    Nonterminal(nonterminal::CONDITION),
    // literal_whole = literal_end
    Nonterminal(nonterminal::LITERAL_END),
    // name_end = slice
    Nonterminal(nonterminal::SLICE),
    // name_end = literal_end
    Nonterminal(nonterminal::LITERAL_END),
    // literal_end = binary atom
    Nonterminal(nonterminal::BINARY),
    Nonterminal(nonterminal::ATOM),
    // literal_end = (nothing)
    // condition = QUESTION simple COLON simple
    Terminal(kind::QUESTION),
    Nonterminal(nonterminal::SIMPLE),
    Terminal(kind::COLON),
    Nonterminal(nonterminal::SIMPLE),
    // slice = LBRACKET number COLON number RBRACKET
    Terminal(kind::LBRACKET),
    Nonterminal(nonterminal::NUMBER),
    Terminal(kind::COLON),
    Nonterminal(nonterminal::NUMBER),
    Terminal(kind::RBRACKET),
    // signed_end = comparison SIGNED LPAREN name RPAREN
    Nonterminal(nonterminal::COMPARISON),
    Terminal(kind::SIGNED),
    Terminal(kind::LPAREN),
    Nonterminal(nonterminal::NAME),
    Terminal(kind::RPAREN),
    // signed_end = ASHR atom
    Terminal(kind::ASHR),
    Nonterminal(nonterminal::ATOM),
    // unary = MINUS
    Terminal(kind::MINUS),
    // unary = TILDE
    Terminal(kind::TILDE),
    // unary = AMP
    Terminal(kind::AMP),
    // unary = PIPE
    Terminal(kind::PIPE),
    // unary = CARET
    Terminal(kind::CARET),
    // binary = PLUS
    Terminal(kind::PLUS),
    // binary = MINUS
    Terminal(kind::MINUS),
    // binary = STAR
    Terminal(kind::STAR),
    // binary = SLASH
    Terminal(kind::SLASH),
    // binary = PERCENT
    Terminal(kind::PERCENT),
    // binary = AMP
    Terminal(kind::AMP),
    // binary = PIPE
    Terminal(kind::PIPE),
    // binary = CARET
    Terminal(kind::CARET),
    // binary = EQ
    Terminal(kind::EQ),
    // binary = NE
    Terminal(kind::NE),
    // binary = SHL
    Terminal(kind::SHL),
    // binary = SHR
    Terminal(kind::SHR),
    // binary = comparison
    Nonterminal(nonterminal::COMPARISON),
    // comparison = LT
    Terminal(kind::LT),
    // comparison = LE
    Terminal(kind::LE),
    // comparison = GT
    Terminal(kind::GT),
    // comparison = GE
    Terminal(kind::GE),
];

/// The productions, with the kinds before which each is taken.
pub static PRODUCTIONS: [Production; 77] = [
    // module = MODULE name LPAREN port ports_more RPAREN SEMI items
    Production {
        head: nonterminal::MODULE,
        first: 0,
        end: 8,
        chosen: 0x4000000,
    },
    // items = declarations assignments clocked ENDMODULE
    Production {
        head: nonterminal::ITEMS,
        first: 8,
        end: 12,
        chosen: 0x1004000001009,
    },
    // name = NAME
    Production {
        head: nonterminal::NAME,
        first: 12,
        end: 13,
        chosen: 0x8000000,
    },
    // name = CLK
    Production {
        head: nonterminal::NAME,
        first: 13,
        end: 14,
        chosen: 0x80,
    },
    // name = RST
    Production {
        head: nonterminal::NAME,
        first: 14,
        end: 15,
        chosen: 0x10000000000,
    },
    // number = NUMBER
    Production {
        head: nonterminal::NUMBER,
        first: 15,
        end: 16,
        chosen: 0x20000000,
    },
    // number = ZERO
    Production {
        head: nonterminal::NUMBER,
        first: 16,
        end: 17,
        chosen: 0x2000000000000,
    },
    // range = LBRACKET number COLON ZERO RBRACKET
    Production {
        head: nonterminal::RANGE,
        first: 17,
        end: 22,
        chosen: 0x100000,
    },
    // range = (nothing)
    Production {
        head: nonterminal::RANGE,
        first: 22,
        end: 22,
        chosen: 0x10008000080,
    },
    // port = direction WIRE range name
    Production {
        head: nonterminal::PORT,
        first: 22,
        end: 26,
        chosen: 0x40040000,
    },
    // direction = INPUT
    Production {
        head: nonterminal::DIRECTION,
        first: 26,
        end: 27,
        chosen: 0x40000,
    },
    // direction = OUTPUT
    Production {
        head: nonterminal::DIRECTION,
        first: 27,
        end: 28,
        chosen: 0x40000000,
    },
    // ports_more = COMMA port ports_more
    Production {
        head: nonterminal::PORTS_MORE,
        first: 28,
        end: 31,
        chosen: 0x200,
    },
    // ports_more = (nothing)
    Production {
        head: nonterminal::PORTS_MORE,
        first: 31,
        end: 31,
        chosen: 0x8000000000,
    },
    // declarations = declaration declarations
    Production {
        head: nonterminal::DECLARATIONS,
        first: 31,
        end: 33,
        chosen: 0x1004000000000,
    },
    // declarations = (nothing)
    Production {
        head: nonterminal::DECLARATIONS,
        first: 33,
        end: 33,
        chosen: 0x1009,
    },
    // declaration = storage range name SEMI
    Production {
        head: nonterminal::DECLARATION,
        first: 33,
        end: 37,
        chosen: 0x1004000000000,
    },
    // storage = WIRE
    Production {
        head: nonterminal::STORAGE,
        first: 37,
        end: 38,
        chosen: 0x1000000000000,
    },
    // storage = REG
    Production {
        head: nonterminal::STORAGE,
        first: 38,
        end: 39,
        chosen: 0x4000000000,
    },
    // assignments = assignment assignments
    Production {
        head: nonterminal::ASSIGNMENTS,
        first: 39,
        end: 41,
        chosen: 0x8,
    },
    // assignments = (nothing)
    Production {
        head: nonterminal::ASSIGNMENTS,
        first: 41,
        end: 41,
        chosen: 0x1001,
    },
    // assignment = ASSIGN name EQUALS expr SEMI
    Production {
        head: nonterminal::ASSIGNMENT,
        first: 41,
        end: 46,
        chosen: 0x8,
    },
    // clocked = ALWAYS edge BEGIN reset_branch clock_branch ENDBLOCK
    Production {
        head: nonterminal::CLOCKED,
        first: 46,
        end: 52,
        chosen: 0x1,
    },
    // clocked = (nothing)
    Production {
        head: nonterminal::CLOCKED,
        first: 52,
        end: 52,
        chosen: 0x1000,
    },
    // edge = AT LPAREN POSEDGE CLK RPAREN
    Production {
        head: nonterminal::EDGE,
        first: 52,
        end: 57,
        chosen: 0x10,
    },
    // reset_branch = IF LPAREN RST RPAREN BEGIN sets ENDBLOCK
    Production {
        head: nonterminal::RESET_BRANCH,
        first: 57,
        end: 64,
        chosen: 0x20000,
    },
    // clock_branch = ELSE BEGIN sets ENDBLOCK
    Production {
        head: nonterminal::CLOCK_BRANCH,
        first: 64,
        end: 68,
        chosen: 0x400,
    },
    // sets = set sets
    Production {
        head: nonterminal::SETS,
        first: 68,
        end: 70,
        chosen: 0x10008000080,
    },
    // sets = (nothing)
    Production {
        head: nonterminal::SETS,
        first: 70,
        end: 70,
        chosen: 0x800,
    },
    // set = name LE atom SEMI
    Production {
        head: nonterminal::SET,
        first: 70,
        end: 74,
        chosen: 0x10008000080,
    },
    // atom = name
    Production {
        head: nonterminal::ATOM,
        first: 74,
        end: 75,
        chosen: 0x10008000080,
    },
    // atom = LITERAL
    Production {
        head: nonterminal::ATOM,
        first: 75,
        end: 76,
        chosen: 0x400000,
    },
    // expr = name name_whole
    Production {
        head: nonterminal::EXPR,
        first: 76,
        end: 78,
        chosen: 0x10008000080,
    },
    // expr = LITERAL literal_whole
    Production {
        head: nonterminal::EXPR,
        first: 78,
        end: 80,
        chosen: 0x400000,
    },
    // expr = other
    Production {
        head: nonterminal::EXPR,
        first: 80,
        end: 81,
        chosen: 0x800102080042,
    },
    // expr = SIGNED LPAREN name RPAREN signed_end
    Production {
        head: nonterminal::EXPR,
        first: 81,
        end: 86,
        chosen: 0x100000000000,
    },
    // simple = name name_end
    Production {
        head: nonterminal::SIMPLE,
        first: 86,
        end: 88,
        chosen: 0x10008000080,
    },
    // simple = LITERAL literal_end
    Production {
        head: nonterminal::SIMPLE,
        first: 88,
        end: 90,
        chosen: 0x400000,
    },
    // simple = other
    Production {
        head: nonterminal::SIMPLE,
        first: 90,
        end: 91,
        chosen: 0x800102080042,
    },
    // other = unary atom
    Production {
        head: nonterminal::OTHER,
        first: 91,
        end: 93,
        chosen: 0x800102000042,
    },
    // other = LBRACE atom atoms_more RBRACE
    Production {
        head: nonterminal::OTHER,
        first: 93,
        end: 97,
        chosen: 0x80000,
    },
    // atoms_more = COMMA atom atoms_more
    Production {
        head: nonterminal::ATOMS_MORE,
        first: 97,
        end: 100,
        chosen: 0x200,
    },
    // atoms_more = (nothing)
    Production {
        head: nonterminal::ATOMS_MORE,
        first: 100,
        end: 100,
        chosen: 0x1000000000,
    },
    // name_whole = condition
    Production {
        head: nonterminal::NAME_WHOLE,
        first: 100,
        end: 101,
        chosen: 0x800000000,
    },
    // name_whole = name_end
    Production {
        head: nonterminal::NAME_WHOLE,
        first: 101,
        end: 102,
        chosen: 0x6e039331a042,
    },
    // literal_whole = condition
    Production {
        head: nonterminal::LITERAL_WHOLE,
        first: 102,
        end: 103,
        chosen: 0x800000000,
    },
    // literal_whole = literal_end
    Production {
        head: nonterminal::LITERAL_WHOLE,
        first: 103,
        end: 104,
        chosen: 0x6e039321a042,
    },
    // name_end = slice
    Production {
        head: nonterminal::NAME_END,
        first: 104,
        end: 105,
        chosen: 0x100000,
    },
    // name_end = literal_end
    Production {
        head: nonterminal::NAME_END,
        first: 105,
        end: 106,
        chosen: 0x6e039321a142,
    },
    // literal_end = binary atom
    Production {
        head: nonterminal::LITERAL_END,
        first: 106,
        end: 108,
        chosen: 0x6c039321a042,
    },
    // literal_end = (nothing)
    Production {
        head: nonterminal::LITERAL_END,
        first: 108,
        end: 108,
        chosen: 0x20000000100,
    },
    // condition = QUESTION simple COLON simple
    Production {
        head: nonterminal::CONDITION,
        first: 108,
        end: 112,
        chosen: 0x800000000,
    },
    // slice = LBRACKET number COLON number RBRACKET
    Production {
        head: nonterminal::SLICE,
        first: 112,
        end: 117,
        chosen: 0x100000,
    },
    // signed_end = comparison SIGNED LPAREN name RPAREN
    Production {
        head: nonterminal::SIGNED_END,
        first: 117,
        end: 122,
        chosen: 0x1218000,
    },
    // signed_end = ASHR atom
    Production {
        head: nonterminal::SIGNED_END,
        first: 122,
        end: 124,
        chosen: 0x4,
    },
    // unary = MINUS
    Production {
        head: nonterminal::UNARY,
        first: 124,
        end: 125,
        chosen: 0x2000000,
    },
    // unary = TILDE
    Production {
        head: nonterminal::UNARY,
        first: 125,
        end: 126,
        chosen: 0x800000000000,
    },
    // unary = AMP
    Production {
        head: nonterminal::UNARY,
        first: 126,
        end: 127,
        chosen: 0x2,
    },
    // unary = PIPE
    Production {
        head: nonterminal::UNARY,
        first: 127,
        end: 128,
        chosen: 0x100000000,
    },
    // unary = CARET
    Production {
        head: nonterminal::UNARY,
        first: 128,
        end: 129,
        chosen: 0x40,
    },
    // binary = PLUS
    Production {
        head: nonterminal::BINARY,
        first: 129,
        end: 130,
        chosen: 0x200000000,
    },
    // binary = MINUS
    Production {
        head: nonterminal::BINARY,
        first: 130,
        end: 131,
        chosen: 0x2000000,
    },
    // binary = STAR
    Production {
        head: nonterminal::BINARY,
        first: 131,
        end: 132,
        chosen: 0x400000000000,
    },
    // binary = SLASH
    Production {
        head: nonterminal::BINARY,
        first: 132,
        end: 133,
        chosen: 0x200000000000,
    },
    // binary = PERCENT
    Production {
        head: nonterminal::BINARY,
        first: 133,
        end: 134,
        chosen: 0x80000000,
    },
    // binary = AMP
    Production {
        head: nonterminal::BINARY,
        first: 134,
        end: 135,
        chosen: 0x2,
    },
    // binary = PIPE
    Production {
        head: nonterminal::BINARY,
        first: 135,
        end: 136,
        chosen: 0x100000000,
    },
    // binary = CARET
    Production {
        head: nonterminal::BINARY,
        first: 136,
        end: 137,
        chosen: 0x40,
    },
    // binary = EQ
    Production {
        head: nonterminal::BINARY,
        first: 137,
        end: 138,
        chosen: 0x2000,
    },
    // binary = NE
    Production {
        head: nonterminal::BINARY,
        first: 138,
        end: 139,
        chosen: 0x10000000,
    },
    // binary = SHL
    Production {
        head: nonterminal::BINARY,
        first: 139,
        end: 140,
        chosen: 0x40000000000,
    },
    // binary = SHR
    Production {
        head: nonterminal::BINARY,
        first: 140,
        end: 141,
        chosen: 0x80000000000,
    },
    // binary = comparison
    Production {
        head: nonterminal::BINARY,
        first: 141,
        end: 142,
        chosen: 0x1218000,
    },
    // comparison = LT
    Production {
        head: nonterminal::COMPARISON,
        first: 142,
        end: 143,
        chosen: 0x1000000,
    },
    // comparison = LE
    Production {
        head: nonterminal::COMPARISON,
        first: 143,
        end: 144,
        chosen: 0x200000,
    },
    // comparison = GT
    Production {
        head: nonterminal::COMPARISON,
        first: 144,
        end: 145,
        chosen: 0x10000,
    },
    // comparison = GE
    Production {
        head: nonterminal::COMPARISON,
        first: 145,
        end: 146,
        chosen: 0x8000,
    },
];

/// Where the alternatives of each nonterminal stand.
pub static SPANS: [Span; 34] = [
    // module
    Span { first: 0, end: 1 },
    // items
    Span { first: 1, end: 2 },
    // name
    Span { first: 2, end: 5 },
    // number
    Span { first: 5, end: 7 },
    // range
    Span { first: 7, end: 9 },
    // port
    Span { first: 9, end: 10 },
    // direction
    Span { first: 10, end: 12 },
    // ports_more
    Span { first: 12, end: 14 },
    // declarations
    Span { first: 14, end: 16 },
    // declaration
    Span { first: 16, end: 17 },
    // storage
    Span { first: 17, end: 19 },
    // assignments
    Span { first: 19, end: 21 },
    // assignment
    Span { first: 21, end: 22 },
    // clocked
    Span { first: 22, end: 24 },
    // edge
    Span { first: 24, end: 25 },
    // reset_branch
    Span { first: 25, end: 26 },
    // clock_branch
    Span { first: 26, end: 27 },
    // sets
    Span { first: 27, end: 29 },
    // set
    Span { first: 29, end: 30 },
    // atom
    Span { first: 30, end: 32 },
    // expr
    Span { first: 32, end: 36 },
    // simple
    Span { first: 36, end: 39 },
    // other
    Span { first: 39, end: 41 },
    // atoms_more
    Span { first: 41, end: 43 },
    // name_whole
    Span { first: 43, end: 45 },
    // literal_whole
    Span { first: 45, end: 47 },
    // name_end
    Span { first: 47, end: 49 },
    // literal_end
    Span { first: 49, end: 51 },
    // condition
    Span { first: 51, end: 52 },
    // slice
    Span { first: 52, end: 53 },
    // signed_end
    Span { first: 53, end: 55 },
    // unary
    Span { first: 55, end: 60 },
    // binary
    Span { first: 60, end: 73 },
    // comparison
    Span { first: 73, end: 77 },
];
