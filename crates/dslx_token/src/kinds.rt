//! The tokens of a text with their kinds.

ghost use Rattle.std.specs.Prelude.{◌≡◌, ◌<◌, ◌^◌, ◌⊎◌, ℕ, List, length, map, IfErr, IfOk, IsErrAnd, MatchResult, OnOk};
ghost use Rattle.base.specs.Grammar.Answer.{EndsWith};
ghost use Rattle.dslx_token.specs.Inner.Names.{kind_by};
ghost use Rattle.dslx_token.specs.Kinds.{name_kind, settled};
ghost use Rattle.dslx_token.specs.Lexeme.{Lexeme};
ghost use Rattle.dslx_token.specs.Refusal.{IsRefusal};
ghost use Rattle.dslx_token.specs.Tokens.{IsFirstOdd, Tokens};
ghost use Rattle.xb_span.specs.declared.read_error.ReadError.TheVariants.{OutOfMemory, Syntax};

use crate::declared::Declared;
use crate::lexer::plain_tokens;
use crate::rules::kind::END;
use crate::token::Token;
use std::alloc::{AllocError, Global};
use xb_span::ReadError;

/// The tokens of a text, with the mark at its end, or the position of the first character that begins no token.
///
/// The work and the memory are linear in the text's length.
pub fn tokens(alloc: Global, text: &str) -> Result<Vec<Token<'_>>, ReadError>
    requires { length text.now < 2 ^ 32 }

    // What is found are the text's tokens.
    ensures found { IfOk result (λ tokens. Tokens text.now tokens.items) }

    // The last of them is the mark at the text's end.
    ensures ended { IfOk result (λ tokens. EndsWith (map (λ l. l.kind) tokens.items) END) }

    // Whatever list is the text's tokens is found, unless memory ran out.
    ensures only { (ls : List Lexeme) → Tokens text.now ls
        → MatchResult result (λ tokens. tokens.items ≡ ls) (λ e. e ≡ OutOfMemory) }

    // A refusal names the first character that begins no token,
    ensures refused { IfErr result (λ e. IsRefusal text.now e) }

    // and where there is one, the text is refused.
    ensures odd { (at : ℕ) → IsFirstOdd text.now at
        → IsErrAnd result (λ e. (e ≡ Syntax at) ⊎ (e ≡ OutOfMemory)) }
{
    read_tokens(alloc, text.as_bytes())
}

/// The tokens of a text, given as its bytes.
fn read_tokens(alloc: Global, text: &[u8]) -> Result<Vec<Token<'_>>, ReadError>
    requires { length text.now < 2 ^ 32 }
    ensures found { IfOk result (λ tokens. Tokens text.now tokens.items) }
    ensures refused { IfErr result (λ e. IsRefusal text.now e) }
{
    let mut tokens = plain_tokens(alloc, text)?;
    settle_all(alloc, &mut tokens)?;
    Ok(tokens)
}

/// Gives each of a text's tokens its kind in the text.
fn settle_all(alloc: Global, tokens: &mut [Token]) -> Result<(), AllocError>
    ensures { OnOk result (tokens.new ≡ settled (name_kind tokens.old) END tokens.old) }
{
    let declared = Declared::by(alloc, tokens)?;
    settle(&declared, tokens);
    Ok(())
}

/// Gives each token its kind in the text.
fn settle(declared: &Declared, tokens: &mut [Token])
    ensures { tokens.new ≡ settled (kind_by declared.now.types declared.now.callables declared.now.structs) END tokens.old }
{
    let mut before = END;
    for token in tokens.iter_mut() {
        before = declared.kind_behind(before, token.kind(), token.bytes());
        token.settle(before);
    }
}
