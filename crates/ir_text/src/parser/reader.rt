//! Reading the tokens of a text.

ghost use Rattle.std.specs.Prelude.{◌≡◌, ◌≤◌, ◌<◌, ℕ, List, None, Some, length, map, slice_get, IfErr, IfOk, IfSome};
ghost use Rattle.base.specs.Grammar.Answer.{EndsWith, IfFault};
ghost use Rattle.base.specs.Grammar.Derivation.{IsDerivation, IsSentence};
ghost use Rattle.base.specs.Lists.Fault.{IsFirstFault};
ghost use Rattle.xb_span.specs.Nesting.Nesting.{first_past};
ghost use Rattle.ir_builder.specs.Token.Rules.Ir.{ir};
ghost use Rattle.ir_text.specs.Parser.Reads.{AreShallow, IsRefusal, Reads, kinds_of, bracket_classes_of};
ghost use Rattle.ir_text.specs.Parser.BracketClasses.{role_of};

use base::grammar::ParseError;
use ir_builder::token::Token;
use ir_builder::token::rules::kind::{END, LBRACE, LBRACKET, LPAREN, RBRACE, RBRACKET, RPAREN};
use ir_builder::{Spanned, build};
use std::alloc::{AllocError, Global};
use xb_span::nesting::{BracketClass, first_over};
use xb_span::{Limit, ReadError, What};

/// The package of the tokens of a text, which end with the mark at its end.
pub fn read_tokens(alloc: Global, tokens: &[Token]) -> Result<Spanned, ReadError>
    requires { EndsWith (kinds_of tokens.now) END }
    ensures reads { IfOk result (λ spanned. Reads tokens.now spanned) }
    ensures shallow { IfOk result (λ _. AreShallow tokens.now) }
    ensures refused { IfErr result (λ e. IsRefusal tokens.now e) }
{
    let kinds = kinds(alloc, tokens)?;
    let deep = too_deep(alloc, tokens)?;
    judged(alloc, tokens, &kinds, deep)
}

/// [`read_tokens`], with the kinds of the tokens, and the index of the first one that is nested too deep.
fn judged(
    alloc: Global,
    tokens: &[Token],
    kinds: &[u8],
    deep: Option<usize>,
) -> Result<Spanned, ReadError>
    requires same { kinds.now ≡ kinds_of tokens.now }
    requires ended { EndsWith (kinds_of tokens.now) END }
    requires deep { deep ≡ first_past (bracket_classes_of tokens.now) }
    ensures reads { IfOk result (λ spanned. Reads tokens.now spanned) }
    ensures shallow { IfOk result (λ _. AreShallow tokens.now) }
    ensures refused { IfErr result (λ e. IsRefusal tokens.now e) }
{
    match ir_builder::token::rules::parse(alloc, kinds) {
        Ok(productions) => match deep {
            None => Ok(tree(alloc, tokens, kinds, &productions)?),
            Some(deep) => Err(depth_fault(tokens, kinds, &productions, deep)),
        },
        Err(ParseError::OutOfMemory) => Err(ReadError::OutOfMemory),
        Err(ParseError::Fault(fault)) => Err(refusal(tokens, kinds, deep, fault.place)),
    }
}

/// The package of the tokens by their derivation.
fn tree(
    alloc: Global,
    tokens: &[Token],
    kinds: &[u8],
    productions: &[u16],
) -> Result<Spanned, AllocError>
    requires same { kinds.now ≡ kinds_of tokens.now }
    requires derived { IsDerivation ir productions.now kinds.now }
    ensures { IfOk result (λ spanned. Reads tokens.now spanned) }
{
    base::grammar::one_tree();
    let steps = ir_builder::token::rules::steps(alloc, productions)?;
    build(alloc, &steps, tokens)
}

/// The refusal of a sentence with a token that is nested too deep.
fn depth_fault(tokens: &[Token], kinds: &[u8], productions: &[u16], deep: usize) -> ReadError
    requires same { kinds.now ≡ kinds_of tokens.now }
    requires derived { IsDerivation ir productions.now kinds.now }
    requires deep { Some deep ≡ first_past (bracket_classes_of tokens.now) }
    ensures { IsRefusal tokens.now result }
{
    ReadError::Over(NESTING)
}

/// The limit that a token nested too deep passes.
const NESTING: Limit = Limit {
    what: What::Nesting,
    found: 129,
    most: 128,
};

/// Why tokens are refused with a fault at this index, and perhaps one that is nested too deep.
fn refusal(tokens: &[Token], kinds: &[u8], deep: Option<usize>, place: usize) -> ReadError
    requires same { kinds.now ≡ kinds_of tokens.now }
    requires within { place < length kinds.now }
    requires fault { IsFirstFault (IsSentence ir) kinds.now place }
    requires deep { deep ≡ first_past (bracket_classes_of tokens.now) }
    ensures { IsRefusal tokens.now result }
{
    match deep {
        Some(deep) => {
            if deep < place {
                ReadError::Over(NESTING)
            } else {
                syntax_fault(tokens, kinds, place)
            }
        }
        None => syntax_fault(tokens, kinds, place),
    }
}

/// The refusal of tokens with a fault at this index, before which none is nested too deep.
fn syntax_fault(tokens: &[Token], kinds: &[u8], place: usize) -> ReadError
    requires same { kinds.now ≡ kinds_of tokens.now }
    requires within { place < length kinds.now }
    requires fault { IsFirstFault (IsSentence ir) kinds.now place }
    requires first { (deep : ℕ) → first_past (bracket_classes_of tokens.now) ≡ Some deep → place ≤ deep }
    ensures { IsRefusal tokens.now result }
{
    ReadError::Syntax(start_of(tokens, place))
}

/// Where the token at an index begins.
fn start_of(tokens: &[Token], place: usize) -> u32
    requires { place < length tokens.now }
    ensures { IfSome (slice_get tokens.now place) (λ token. result ≡ token.span.from) }
{
    tokens[place].span().from
}

fn kinds(alloc: Global, tokens: &[Token]) -> Result<Vec<u8>, AllocError>
    ensures { IfOk result (λ kinds. kinds.items ≡ kinds_of tokens.now) }
{
    tokens.iter().map(|token| token.kind()).collect(alloc)
}

/// The index of the first token that is nested too deep.
fn too_deep(alloc: Global, tokens: &[Token]) -> Result<Option<usize>, AllocError>
    ensures { IfOk result (λ place. place ≡ first_past (bracket_classes_of tokens.now)) }
{
    let bracket_classes = bracket_classes(alloc, tokens)?;
    first_over(alloc, &bracket_classes)
}

fn bracket_classes(alloc: Global, tokens: &[Token]) -> Result<Vec<BracketClass>, AllocError>
    ensures { IfOk result (λ bracket_classes. bracket_classes.items ≡ bracket_classes_of tokens.now) }
{
    tokens
        .iter()
        .map(|token| role_of(token.kind()))
        .collect(alloc)
}

/// What a token does to the nesting of those behind it.
fn role_of(kind: u8) -> BracketClass
    ensures { result ≡ role_of kind }
{
    match kind {
        LPAREN | LBRACKET | LBRACE => BracketClass::Open,
        RPAREN | RBRACKET | RBRACE => BracketClass::Close,
        _ => BracketClass::Plain,
    }
}
