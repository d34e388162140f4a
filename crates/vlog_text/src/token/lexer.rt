//! Cutting a text into its tokens.

ghost use Rattle.std.specs.Prelude.{◌≡◌, ◌<◌, ◌^◌, ◌⊎◌, ℕ, List, length, IfErr, IfOk, IsErrAnd, MatchResult};
ghost use Rattle.xb_span.specs.declared.read_error.ReadError.TheVariants.{OutOfMemory, Syntax};
ghost use Rattle.dslx_token.specs.Lexeme.{Lexeme};
ghost use Rattle.vlog_text.specs.Token.Tokens.{HasTokens, BreaksAt, IsBroken};

use crate::token::front::token_len;
use crate::token::token::Token;
use dslx_token::skip_blank;
use std::alloc::Global;
use xb_span::ReadError;

/// The tokens of a text, with the mark at its end, or the position of the first character that begins no token.
///
/// The work and the memory are linear in the text's length, but for long literals.
pub fn tokens(alloc: Global, text: &[u8]) -> Result<Vec<Token<'_>>, ReadError>
    requires { length text.now < 2 ^ 32 }

    // What is found are the text's tokens.
    ensures found { IfOk result (λ tokens. HasTokens text.now text.now tokens.items) }

    // Whatever list is the text's tokens is found, unless memory ran out.
    ensures only { (ls : List Lexeme) → HasTokens text.now text.now ls
        → MatchResult result (λ tokens. tokens.items ≡ ls) (λ e. e ≡ OutOfMemory) }

    // A refusal names the first character that begins no token,
    ensures refused { IfErr result (λ e. IsBroken text.now e) }

    // and where there is one, the text is refused.
    ensures odd { (at : ℕ) → BreaksAt text.now text.now at
        → IsErrAnd result (λ e. (e ≡ Syntax at) ⊎ (e ≡ OutOfMemory)) }
{
    found_tokens(alloc, text)
}

/// [`tokens`], without that there is but one list of them.
fn found_tokens(alloc: Global, text: &[u8]) -> Result<Vec<Token<'_>>, ReadError>
    requires { length text.now < 2 ^ 32 }
    ensures found { IfOk result (λ tokens. HasTokens text.now text.now tokens.items) }
    ensures refused { IfErr result (λ e. IsBroken text.now e) }
{
    let mut tokens = Vec::new(alloc);
    let mut rest = skip_blank(text);
    'text: while !rest.is_empty() {
        let from = (text.len() - rest.len()) as u32;
        let Some(len) = token_len(alloc, rest)? else {
            return Err(ReadError::Syntax(from));
        };
        let (bytes, behind) = rest.split_at(len);
        tokens.push(Token::new(from, bytes))?;
        rest = skip_blank(behind);
    }
    tokens.push(Token::new(text.len() as u32, rest))?;
    Ok(tokens)
}
