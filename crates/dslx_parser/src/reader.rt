//! Reading the tokens of a text.

ghost use Rattle.std.specs.Prelude.{◌≡◌, ◌<◌, None, Some, length, slice_get, take, IfErr, IfOk, IfSome, MatchResult};
ghost use Rattle.base.specs.Grammar.Answer.{EndsWith};
ghost use Rattle.base.specs.Grammar.Derivation.{IsBeginning, IsDerivation, IsSentence};
ghost use Rattle.base.specs.Lists.Fault.{IsFirstFault};
ghost use Rattle.xb_span.specs.Nesting.Nesting.{first_past};
ghost use Rattle.dslx_token.specs.Rules.Dslx.{dslx};
ghost use Rattle.dslx_token.specs.BracketClasses.BracketClasses.{bracket_classes_of};
ghost use Rattle.dslx_tree.specs.declared.item.Module.{Module};
ghost use Rattle.dslx_parser.specs.Reads.{IsRefusal, NestsWithin, Reads, kinds_of};
ghost use Rattle.xb_span.specs.declared.read_error.ReadError.TheVariants.{OutOfMemory};

use crate::builder::build;
use base::grammar::ParseError;
use dslx_token::Token;
use dslx_token::bracket_classes::bracket_classes;
use dslx_token::rules::kind::END;
use dslx_tree::Module;
use std::alloc::{AllocError, Global};
use xb_span::nesting::first_over;
use xb_span::{Limit, ReadError, What};

/// The tree of the tokens of a text, which end with the mark at its end.
///
/// The work and the memory are linear in the tokens, but for a chain of operators, whose tree takes that for each of the
/// nine levels. Recursion is no deeper than the limit on nesting.
pub fn parse(alloc: Global, tokens: &[Token]) -> Result<Module, ReadError>
    requires { EndsWith (kinds_of tokens.now) END }

    // What is found is the tree of the tokens, and none of them is nested deeper than the limit.
    ensures reads { IfOk result (λ m. Reads tokens.now m) }
    ensures within { IfOk result (λ _. NestsWithin tokens.now) }

    // Whatever they read as is found, unless memory ran out or one of them is nested too deep.
    ensures only { (m : Module) → Reads tokens.now m → NestsWithin tokens.now
        → MatchResult result (λ found. found ≡ m) (λ e. e ≡ OutOfMemory) }

    // A refusal names the first token with which no text goes on, or a limit that an earlier one passes.
    ensures refused { IfErr result (λ e. IsRefusal tokens.now e) }
{
    dslx_token::rules::one_derivation();
    crate::built::built_is_made();
    base::grammar::one_tree();
    read_tokens(alloc, tokens)
}

/// [`parse`], without that there is but one tree.
fn read_tokens(alloc: Global, tokens: &[Token]) -> Result<Module, ReadError>
    requires { EndsWith (kinds_of tokens.now) END }
    ensures reads { IfOk result (λ m. Reads tokens.now m) }
    ensures within { IfOk result (λ _. NestsWithin tokens.now) }
    ensures refused { IfErr result (λ e. IsRefusal tokens.now e) }
{
    let kinds = kinds(alloc, tokens)?;
    judged(alloc, tokens, &kinds)
}

/// [`read_tokens`], with the kinds of the tokens.
fn judged(alloc: Global, tokens: &[Token], kinds: &[u8]) -> Result<Module, ReadError>
    requires same { kinds.now ≡ kinds_of tokens.now }
    requires ended { EndsWith (kinds_of tokens.now) END }
    ensures reads { IfOk result (λ m. Reads tokens.now m) }
    ensures within { IfOk result (λ _. NestsWithin tokens.now) }
    ensures refused { IfErr result (λ e. IsRefusal tokens.now e) }
{
    match dslx_token::rules::parse(alloc, kinds) {
        Ok(productions) => sentence(alloc, tokens, kinds, &productions),
        Err(ParseError::OutOfMemory) => Err(ReadError::OutOfMemory),
        Err(ParseError::Fault(fault)) => Err(refusal(
            alloc,
            tokens,
            kinds,
            &fault.productions,
            fault.place,
        )),
    }
}

/// [`read_tokens`], where the tokens are derived by these productions.
fn sentence(
    alloc: Global,
    tokens: &[Token],
    kinds: &[u8],
    productions: &[u16],
) -> Result<Module, ReadError>
    requires same { kinds.now ≡ kinds_of tokens.now }
    requires derived { IsDerivation dslx productions.now kinds.now }
    ensures reads { IfOk result (λ m. Reads tokens.now m) }
    ensures within { IfOk result (λ _. NestsWithin tokens.now) }
    ensures refused { IfErr result (λ e. IsRefusal tokens.now e) }
{
    let deep = too_deep(alloc, productions, kinds)?;
    nested(alloc, tokens, kinds, productions, deep)
}

/// [`sentence`], with the index of the first token that is nested too deep.
fn nested(
    alloc: Global,
    tokens: &[Token],
    kinds: &[u8],
    productions: &[u16],
    deep: Option<usize>,
) -> Result<Module, ReadError>
    requires same { kinds.now ≡ kinds_of tokens.now }
    requires derived { IsDerivation dslx productions.now kinds.now }
    requires deep { deep ≡ first_past (bracket_classes_of productions.now kinds.now) }
    ensures reads { IfOk result (λ m. Reads tokens.now m) }
    ensures within { IfOk result (λ _. NestsWithin tokens.now) }
    ensures refused { IfErr result (λ e. IsRefusal tokens.now e) }
{
    match deep {
        None => {
            nests_within(tokens, kinds, productions);
            Ok(tree(alloc, tokens, kinds, productions)?)
        }
        Some(deep) => Err(depth_fault(tokens, kinds, productions, deep)),
    }
}

/// The tree of the tokens by their derivation.
fn tree(
    alloc: Global,
    tokens: &[Token],
    kinds: &[u8],
    productions: &[u16],
) -> Result<Module, AllocError>
    requires same { kinds.now ≡ kinds_of tokens.now }
    requires derived { IsDerivation dslx productions.now kinds.now }
    ensures { IfOk result (λ m. Reads tokens.now m) }
{
    crate::built::built_is_made();
    base::grammar::one_tree();
    let steps = dslx_token::rules::steps(alloc, productions)?;
    build(alloc, &steps, tokens)
}

/// No token is nested too deep, by the derivation.
fn nests_within(tokens: &[Token], kinds: &[u8], productions: &[u16])
    requires same { kinds.now ≡ kinds_of tokens.now }
    requires derived { IsDerivation dslx productions.now kinds.now }
    requires none { None ≡ first_past (bracket_classes_of productions.now kinds.now) }
    ensures { NestsWithin tokens.now }
{
    dslx_token::rules::one_derivation();
}

/// The refusal of tokens that are derived, with one that is nested too deep.
fn depth_fault(tokens: &[Token], kinds: &[u8], productions: &[u16], deep: usize) -> ReadError
    requires same { kinds.now ≡ kinds_of tokens.now }
    requires derived { IsDerivation dslx productions.now kinds.now }
    requires deep { Some deep ≡ first_past (bracket_classes_of productions.now kinds.now) }
    ensures { IsRefusal tokens.now result }
{
    ReadError::Over(NESTING)
}

/// The limit that a token nested too deep passes.
const NESTING: Limit = Limit {
    what: What::Nesting,
    found: 129,
    most: 128,
};

/// Why tokens are refused with a fault at this index, where these productions lead to those before it.
fn refusal(
    alloc: Global,
    tokens: &[Token],
    kinds: &[u8],
    productions: &[u16],
    place: usize,
) -> ReadError
    requires same { kinds.now ≡ kinds_of tokens.now }
    requires inside { place < length kinds.now }
    requires fault { IsFirstFault (IsSentence dslx) kinds.now place }
    requires so_far { IsBeginning dslx productions.now (take place kinds.now) }
    ensures { IsRefusal tokens.now result }
{
    let front = front(kinds, place);
    match too_deep(alloc, productions, front) {
        Ok(deep) => first_fault(tokens, kinds, front, productions, place, deep),
        Err(_) => ReadError::OutOfMemory,
    }
}

/// The first so many kinds.
fn front(kinds: &[u8], count: usize) -> &[u8]
    ensures { result.now ≡ take count kinds.now }
{
    if count < kinds.len() {
        &kinds[..count]
    } else {
        kinds
    }
}

/// [`refusal`], with the kinds before the fault, and the index of the first token there that is nested too deep.
fn first_fault(
    tokens: &[Token],
    kinds: &[u8],
    front: &[u8],
    productions: &[u16],
    place: usize,
    deep: Option<usize>,
) -> ReadError
    requires same { kinds.now ≡ kinds_of tokens.now }
    requires front { front.now ≡ take place kinds.now }
    requires inside { place < length kinds.now }
    requires fault { IsFirstFault (IsSentence dslx) kinds.now place }
    requires so_far { IsBeginning dslx productions.now (take place kinds.now) }
    requires deep { deep ≡ first_past (bracket_classes_of productions.now front.now) }
    ensures { IsRefusal tokens.now result }
{
    match deep {
        None => {
            nests_within_before(tokens, kinds, front, productions, place);
            syntax_fault(tokens, kinds, place)
        }
        Some(deep) => depth_fault_before(tokens, kinds, front, productions, place, deep),
    }
}

/// No token before the fault is nested too deep.
fn nests_within_before(
    tokens: &[Token],
    kinds: &[u8],
    front: &[u8],
    productions: &[u16],
    place: usize,
)
    requires same { kinds.now ≡ kinds_of tokens.now }
    requires front { front.now ≡ take place kinds.now }
    requires fault { IsFirstFault (IsSentence dslx) kinds.now place }
    requires so_far { IsBeginning dslx productions.now (take place kinds.now) }
    requires none { None ≡ first_past (bracket_classes_of productions.now front.now) }
    ensures { NestsWithin tokens.now }
{
    dslx_token::rules::one_beginning();
}

/// The refusal of tokens with one before the fault that is nested too deep.
fn depth_fault_before(
    tokens: &[Token],
    kinds: &[u8],
    front: &[u8],
    productions: &[u16],
    place: usize,
    deep: usize,
) -> ReadError
    requires same { kinds.now ≡ kinds_of tokens.now }
    requires front { front.now ≡ take place kinds.now }
    requires fault { IsFirstFault (IsSentence dslx) kinds.now place }
    requires so_far { IsBeginning dslx productions.now (take place kinds.now) }
    requires deep { Some deep ≡ first_past (bracket_classes_of productions.now front.now) }
    ensures { IsRefusal tokens.now result }
{
    ReadError::Over(NESTING)
}

/// The refusal of tokens with a fault at this index, where none before it is nested too deep.
fn syntax_fault(tokens: &[Token], kinds: &[u8], place: usize) -> ReadError
    requires same { kinds.now ≡ kinds_of tokens.now }
    requires inside { place < length kinds.now }
    requires fault { IsFirstFault (IsSentence dslx) kinds.now place }
    requires within { NestsWithin tokens.now }
    ensures { IsRefusal tokens.now result }
{
    ReadError::Syntax(start_of(tokens, place))
}

/// Where the token at an index begins.
fn start_of(tokens: &[Token], place: usize) -> u32
    requires { place < length tokens.now }
    ensures { IfSome (slice_get tokens.now place) (λ token. result ≡ token.span.from) }
{
    tokens[place].span().from
}

fn kinds(alloc: Global, tokens: &[Token]) -> Result<Vec<u8>, AllocError>
    ensures { IfOk result (λ kinds. kinds.items ≡ kinds_of tokens.now) }
{
    tokens.iter().map(|token| token.kind()).collect(alloc)
}

/// The index of the first token that is nested too deep, of those to which the productions lead.
fn too_deep(alloc: Global, productions: &[u16], kinds: &[u8]) -> Result<Option<usize>, AllocError>
    ensures { IfOk result (λ place. place ≡ first_past (bracket_classes_of productions.now kinds.now)) }
{
    let bracket_classes = bracket_classes(alloc, productions, kinds)?;
    first_over(alloc, &bracket_classes)
}
