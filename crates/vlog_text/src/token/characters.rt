//! Which characters tokens are made of.

ghost use Rattle.std.specs.Prelude.{◌≡◌};
ghost use Rattle.vlog_text.specs.Token.TokenPrefixes.{single_kind, double_kind, is_triple};

use crate::token::rules::kind::{
    AMP, AT, CARET, COLON, COMMA, END, EQ, EQUALS, GE, GT, LBRACE, LBRACKET, LE, LPAREN, LT, MINUS,
    NE, PERCENT, PIPE, PLUS, QUESTION, RBRACE, RBRACKET, RPAREN, SEMI, SHL, SHR, SLASH, STAR,
    TILDE,
};

/// The kind of a mark of one character; of what is none that of the end.
pub fn single_kind(byte: u8) -> u8
    ensures { result ≡ single_kind byte }
{
    match byte {
        b';' => SEMI,
        b'=' => EQUALS,
        b'[' => LBRACKET,
        b']' => RBRACKET,
        b':' => COLON,
        b'(' => LPAREN,
        b')' => RPAREN,
        b',' => COMMA,
        b'{' => LBRACE,
        b'}' => RBRACE,
        b'?' => QUESTION,
        b'+' => PLUS,
        b'-' => MINUS,
        b'*' => STAR,
        b'/' => SLASH,
        b'%' => PERCENT,
        b'&' => AMP,
        b'|' => PIPE,
        b'^' => CARET,
        b'~' => TILDE,
        b'<' => LT,
        b'>' => GT,
        b'@' => AT,
        _ => END,
    }
}

/// The same of two characters.
pub fn double_kind(first: u8, second: u8) -> u8
    ensures { result ≡ double_kind first second }
{
    if second == b'=' {
        match first {
            b'<' => LE,
            b'>' => GE,
            b'=' => EQ,
            b'!' => NE,
            _ => END,
        }
    } else if second == b'<' {
        if first == b'<' { SHL } else { END }
    } else if second == b'>' {
        if first == b'>' { SHR } else { END }
    } else {
        END
    }
}

/// `>>>`
pub fn is_triple(first: u8, second: u8, third: u8) -> bool
    ensures { result ≡ is_triple first second third }
{
    first == b'>' && second == b'>' && third == b'>'
}
