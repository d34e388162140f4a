//! Cutting a text into its tokens.

ghost use Rattle.std.specs.Prelude.{◌≡◌, ◌<◌, ◌^◌, ◌⊎◌, ℕ, List, length, IfErr, IfOk, IsErrAnd, MatchResult};
ghost use Rattle.xb_span.specs.declared.read_error.ReadError.TheVariants.{OutOfMemory, Syntax};
ghost use Rattle.dslx_token.specs.Lexeme.{Lexeme};
ghost use Rattle.ir_builder.specs.Token.Kinds.{Context, kind_in, begins_node, context_behind, no_context, settled_in};
ghost use Rattle.ir_builder.specs.Token.Tokens.{IsCutInto, AreIrTokens, IsCutOffAt, IsTokenRefusal};

use crate::token::front::token_len;
use crate::token::kind::{class_of, id_part, op_named, op_part};
use crate::token::rules::kind::{ASSIGN, END, ID, LARGE, LBRACE, NAME, OPID, OWN, RPAREN, SMALL};
use crate::token::token::Token;
use dslx_token::skip_blank;
use std::alloc::Global;
use xb_span::ReadError;

/// The tokens of a text, with the mark at its end, or the position of the first character that begins no token.
///
/// The work and the memory are linear in the text's length.
pub fn tokens(alloc: Global, text: &[u8]) -> Result<Vec<Token<'_>>, ReadError>
    requires { length text.now < 2 ^ 32 }

    // What is found are the text's tokens.
    ensures found { IfOk result (λ tokens. AreIrTokens text.now tokens.items) }

    // Whatever list is the text's tokens is found, unless memory ran out.
    ensures only { (ls : List Lexeme) → AreIrTokens text.now ls
        → MatchResult result (λ tokens. tokens.items ≡ ls) (λ e. e ≡ OutOfMemory) }

    // A refusal names the first character that begins no token,
    ensures refused { IfErr result (λ e. IsTokenRefusal text.now e) }

    // and where there is one, the text is refused.
    ensures odd { (at : ℕ) → IsCutOffAt text.now text.now at
        → IsErrAnd result (λ e. (e ≡ Syntax at) ⊎ (e ≡ OutOfMemory)) }
{
    settled_tokens(alloc, text)
}

/// [`tokens`], without that there is but one list of them.
fn settled_tokens(alloc: Global, text: &[u8]) -> Result<Vec<Token<'_>>, ReadError>
    requires { length text.now < 2 ^ 32 }
    ensures found { IfOk result (λ tokens. AreIrTokens text.now tokens.items) }
    ensures refused { IfErr result (λ e. IsTokenRefusal text.now e) }
{
    let mut tokens = plain_tokens(alloc, text)?;
    settle(&mut tokens);
    Ok(tokens)
}

/// The tokens of a text, each with the kind that it has by itself, and the mark at the text's end.
fn plain_tokens(alloc: Global, text: &[u8]) -> Result<Vec<Token<'_>>, ReadError>
    requires { length text.now < 2 ^ 32 }
    ensures found { IfOk result (λ tokens. IsCutInto text.now text.now tokens.items) }
    ensures refused { IfErr result (λ e. IsTokenRefusal text.now e) }
{
    let mut tokens = Vec::new(alloc);
    let mut rest = skip_blank(text);
    'text: while !rest.is_empty() {
        let from = (text.len() - rest.len()) as u32;
        let Some(len) = token_len(rest) else {
            return Err(ReadError::Syntax(from));
        };
        let (bytes, behind) = rest.split_at(len);
        tokens.push(Token::plain(from, bytes))?;
        rest = skip_blank(behind);
    }
    tokens.push(Token::plain(text.len() as u32, rest))?;
    Ok(tokens)
}

/// What stands before a token: the last kind, the one before, and the `OP.ID` of the node.
#[derive(Clone, Copy)]
struct Before<'a> {
    last: u8,
    second: u8,
    node: &'a [u8],
}

impl<'a> Before<'a> {
    ghost use Rattle.std.specs.Prelude.{◌≡◌};
    ghost use Rattle.ir_builder.specs.Token.Kinds.{kind_in, begins_node, context_behind};

    /// The kind of a token here.
    fn kind(&self, kind: u8, bytes: &[u8]) -> u8
        ensures { result ≡ kind_in (record { last = self.now.last; second = self.now.second; node = self.now.node.now }) kind bytes.now }
    {
        if kind == NAME && (self.last == ASSIGN && bytes == op_part(self.node)) {
            class_of(op_named(bytes))
        } else if (kind == SMALL || kind == LARGE)
            && (self.last == ASSIGN && (self.second == ID && bytes == id_part(self.node)))
        {
            OWN
        } else {
            kind
        }
    }

    /// Whether a token of this kind begins a node here.
    fn begins_node(&self, kind: u8) -> bool
        ensures { result ≡ begins_node (record { last = self.now.last; second = self.now.second; node = self.now.node.now }) kind }
    {
        kind == OPID && (self.last == LBRACE || self.last == RPAREN)
    }
}

/// Gives each token its kind in the text.
fn settle(tokens: &mut [Token])
    ensures { tokens.new ≡ settled_in no_context tokens.old }
{
    let mut last = END;
    let mut second = END;
    let mut node: &[u8] = &[];
    'tokens: for token in tokens.iter_mut() {
        let before = Before { last, second, node };
        let kind = before.kind(token.kind(), token.bytes());
        if before.begins_node(kind) {
            node = token.bytes();
        }
        second = last;
        last = kind;
        token.settle(kind);
    }
}
