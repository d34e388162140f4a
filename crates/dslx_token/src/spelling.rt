//! The words and marks that have a kind of their own.

ghost use Rattle.std.specs.Prelude.{◌≡◌, map};
ghost use Rattle.dslx_token.specs.Inner.TokenPrefixes.{first_prefix, spelling_of};
ghost use Rattle.dslx_token.specs.Spelling.{keywords, kind_among, marks};

use crate::rules::kind::{
    AMP, ANDAND, ARROW, AS, ASSIGN, BANG, BOOL, CARET, CHAN, COLON, COMMA, CONCAT, CONFIG, CONST,
    DARROW, DOT, DOTS, ELSE, END, ENUM, EQ, FALSE, FN, FOR, GE, GT, IF, IN, INIT, LBRACE, LBRACKET,
    LE, LET, LPAREN, LT, MATCH, MINUS, NAME, NE, NEXT, OROR, OUT, PATH, PERCENT, PIPE, PLUS,
    PLUSCOLON, PROC, PUB, RBRACE, RBRACKET, REST, RPAREN, SEMI, SHL, SHR, SLASH, SPAWN, STAR,
    STRUCT, TRUE, TYPE, WIDE, WILD,
};

const KEYWORDS: [(&[u8], u8); 27] = [
    (b"_", WILD),
    (b"as", AS),
    (b"bits", WIDE),
    (b"bool", BOOL),
    (b"chan", CHAN),
    (b"config", CONFIG),
    (b"const", CONST),
    (b"else", ELSE),
    (b"enum", ENUM),
    (b"false", FALSE),
    (b"fn", FN),
    (b"for", FOR),
    (b"if", IF),
    (b"in", IN),
    (b"init", INIT),
    (b"let", LET),
    (b"match", MATCH),
    (b"next", NEXT),
    (b"out", OUT),
    (b"proc", PROC),
    (b"pub", PUB),
    (b"spawn", SPAWN),
    (b"struct", STRUCT),
    (b"true", TRUE),
    (b"type", TYPE),
    (b"uN", WIDE),
    (b"sN", WIDE),
];

/// The longer ones first.
const MARKS: [(&[u8], u8); 37] = [
    (b"...", DOTS),
    (b"::", PATH),
    (b"..", REST),
    (b"+:", PLUSCOLON),
    (b"++", CONCAT),
    (b"->", ARROW),
    (b"&&", ANDAND),
    (b"||", OROR),
    (b"==", EQ),
    (b"!=", NE),
    (b"<=", LE),
    (b">=", GE),
    (b"<<", SHL),
    (b">>", SHR),
    (b"=>", DARROW),
    (b"(", LPAREN),
    (b")", RPAREN),
    (b"[", LBRACKET),
    (b"]", RBRACKET),
    (b"{", LBRACE),
    (b"}", RBRACE),
    (b"<", LT),
    (b">", GT),
    (b",", COMMA),
    (b";", SEMI),
    (b":", COLON),
    (b".", DOT),
    (b"+", PLUS),
    (b"-", MINUS),
    (b"*", STAR),
    (b"/", SLASH),
    (b"%", PERCENT),
    (b"&", AMP),
    (b"|", PIPE),
    (b"^", CARET),
    (b"!", BANG),
    (b"=", ASSIGN),
];

/// The kind of a keyword, or that of a name.
pub fn keyword_kind(word: &[u8]) -> u8
    ensures { result ≡ kind_among keywords word.now NAME }
{
    kind_among(&KEYWORDS, word, NAME)
}

/// The kind of a mark.
pub fn mark_kind(mark: &[u8]) -> u8
    ensures { result ≡ kind_among marks mark.now END }
{
    kind_among(&MARKS, mark, END)
}

/// The length of the first mark that begins the text.
pub fn first_mark(text: &[u8]) -> Option<usize>
    ensures { result ≡ first_prefix marks text.now }
{
    first_prefix(&MARKS, text)
}

/// The kind of what is spelled so, or another one where it isn't among these.
fn kind_among(spellings: &[(&[u8], u8)], bytes: &[u8], other: u8) -> u8
    ensures { result ≡ kind_among (map spelling_of spellings.now) bytes.now other }
{
    for (spelled, kind) in spellings {
        if *spelled == bytes {
            return *kind;
        }
    }
    other
}

/// The length of the first of these that begins the text.
fn first_prefix(spellings: &[(&[u8], u8)], text: &[u8]) -> Option<usize>
    ensures { result ≡ first_prefix (map spelling_of spellings.now) text.now }
{
    for (spelled, _kind) in spellings {
        if text.starts_with(spelled) {
            return Some(spelled.len());
        }
    }
    None
}
