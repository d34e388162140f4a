//! Reading the tokens of a text.

ghost use Rattle.std.specs.Prelude.{◌≡◌, ◌<◌, ℕ, List, length, map, slice_get, IfErr, IfOk, IfSome, MatchResult};
ghost use Rattle.base.specs.Grammar.Answer.{EndsWith, IfFault};
ghost use Rattle.base.specs.Grammar.Derivation.{IsDerivation, IsSentence};
ghost use Rattle.base.specs.Lists.Fault.{IsFirstFault};
ghost use Rattle.vlog_text.specs.Token.Rules.Verilog.{verilog};
ghost use Rattle.vlog_text.specs.declared.builder.parsed.Parsed.{Parsed as AnyParsed};
ghost use Rattle.vlog_text.specs.Parser.Reads.{IsRefusal, Reads, kinds_of};
ghost use Rattle.xb_span.specs.declared.read_error.ReadError.TheVariants.{OutOfMemory};

use crate::builder::{Parsed, build};
use crate::token::Token;
use crate::token::rules::kind::END;
use base::grammar::ParseError;
use std::alloc::{AllocError, Global};
use xb_span::ReadError;

/// The module of the tokens of a text, which end with the mark at its end.
///
/// The work and the memory are linear in the tokens.
pub fn parse(alloc: Global, tokens: &[Token]) -> Result<Parsed, ReadError>
    requires { EndsWith (kinds_of tokens.now) END }

    // What is found is the module of the tokens.
    ensures reads { IfOk result (λ p. Reads tokens.now p) }

    // Whatever they read as is found, unless memory ran out.
    ensures only { (p : AnyParsed) → Reads tokens.now p
        → MatchResult result (λ found. found ≡ p) (λ e. e ≡ OutOfMemory) }

    // A refusal names the first token with which no text goes on.
    ensures refused { IfErr result (λ e. IsRefusal tokens.now e) }
{
    crate::token::rules::one_derivation();
    base::grammar::one_tree();
    read(alloc, tokens)
}

/// [`parse`], without that there is but one module.
fn read(alloc: Global, tokens: &[Token]) -> Result<Parsed, ReadError>
    requires { EndsWith (kinds_of tokens.now) END }
    ensures reads { IfOk result (λ p. Reads tokens.now p) }
    ensures refused { IfErr result (λ e. IsRefusal tokens.now e) }
{
    let kinds = kinds(alloc, tokens)?;
    judged(alloc, tokens, &kinds)
}

/// [`read`], with the kinds of the tokens.
fn judged(alloc: Global, tokens: &[Token], kinds: &[u8]) -> Result<Parsed, ReadError>
    requires same { kinds.now ≡ kinds_of tokens.now }
    requires ended { EndsWith (kinds_of tokens.now) END }
    ensures reads { IfOk result (λ p. Reads tokens.now p) }
    ensures refused { IfErr result (λ e. IsRefusal tokens.now e) }
{
    match crate::token::rules::parse(alloc, kinds) {
        Ok(productions) => Ok(tree(alloc, tokens, kinds, &productions)?),
        Err(ParseError::OutOfMemory) => Err(ReadError::OutOfMemory),
        Err(ParseError::Fault(fault)) => Err(refusal(tokens, kinds, fault.place)),
    }
}

/// The module of the tokens by their derivation.
fn tree(
    alloc: Global,
    tokens: &[Token],
    kinds: &[u8],
    productions: &[u16],
) -> Result<Parsed, AllocError>
    requires same { kinds.now ≡ kinds_of tokens.now }
    requires derived { IsDerivation verilog productions.now kinds.now }
    ensures { IfOk result (λ p. Reads tokens.now p) }
{
    base::grammar::one_tree();
    let steps = crate::token::rules::steps(alloc, productions)?;
    build(alloc, &steps, tokens)
}

/// The refusal of tokens with a fault at this index.
fn refusal(tokens: &[Token], kinds: &[u8], place: usize) -> ReadError
    requires same { kinds.now ≡ kinds_of tokens.now }
    requires within { place < length kinds.now }
    requires fault { IsFirstFault (IsSentence verilog) kinds.now place }
    ensures { IsRefusal tokens.now result }
{
    ReadError::Syntax(start_of(tokens, place))
}

/// Where the token at an index begins.
fn start_of(tokens: &[Token], place: usize) -> u32
    requires { place < length tokens.now }
    ensures { IfSome (slice_get tokens.now place) (λ token. result ≡ token.span.from) }
{
    tokens[place].span().from
}

fn kinds(alloc: Global, tokens: &[Token]) -> Result<Vec<u8>, AllocError>
    ensures { IfOk result (λ kinds. kinds.items ≡ kinds_of tokens.now) }
{
    tokens.iter().map(|token| token.kind()).collect(alloc)
}
