//! Which characters tokens are made of.

ghost use Rattle.std.specs.Prelude.{◌≡◌};
ghost use Rattle.ir_builder.specs.Token.TokenPrefixes.{mark_kind};

use crate::token::rules::kind::{
    ASSIGN, COLON, COMMA, END, LBRACE, LBRACKET, LPAREN, RBRACE, RBRACKET, RPAREN,
};

/// The kind of a mark; of what is none that of the end.
pub fn mark_kind(byte: u8) -> u8
    ensures { result ≡ mark_kind byte }
{
    match byte {
        b'(' => LPAREN,
        b')' => RPAREN,
        b'[' => LBRACKET,
        b']' => RBRACKET,
        b'{' => LBRACE,
        b'}' => RBRACE,
        b':' => COLON,
        b'=' => ASSIGN,
        b',' => COMMA,
        _ => END,
    }
}
