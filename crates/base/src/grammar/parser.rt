//! Reading a list of tokens by a grammar.

ghost use Rattle.std.specs.Prelude.{◌≡◌, ℕ, ◌<◌, List, [], ◌∷◌, ◌++◌, length, take, reverse, Some, IfOk, OnOk, MatchResult};
ghost use Rattle.std.specs.Bool.{OnTrue, OnFalse};
ghost use Rattle.base.specs.Grammar.Syntax.{rules_of, syntax_of};
ghost use Rattle.base.specs.Grammar.Derivation.{IsDerivation, IsSentence, IsBeginning, StartsWith};
ghost use Rattle.base.specs.Lists.Fault.{IsFirstFault};
ghost use Rattle.base.specs.Grammar.Inner.Reading.{IsLeft, ReadsOne, ReadsNone};
ghost use Rattle.base.specs.Grammar.Ll1.{IsLl1};
ghost use Rattle.base.specs.Grammar.Answer.{IfFault, EndsWith, error_text};
ghost use Rattle.base.specs.declared.grammar.parser.ParseError.TheVariants.{OutOfMemory};

use crate::grammar::table::{Grammar, Symbol};
use std::alloc::{AllocError, AllocFailed, Global};
use std::error::Error;
use std::fmt;

/// Why a list of tokens has no derivation.
#[derive(Debug, Drop)]
pub enum ParseError {
    /// No memory was left for the derivation.
    OutOfMemory,
    /// It is no sentence of the grammar.
    Fault(Fault),
}

/// Where a list of tokens stops being a prefix of a sentence.
#[derive(Debug, Drop)]
pub struct Fault {
    /// The index of the first token with which no sentence goes on.
    pub place: usize,
    /// The productions that lead to the tokens before it.
    pub productions: Vec<u16>,
}

impl fmt::Display for ParseError {
    ghost output = { λ e. Some (error_text e) };

    fn fmt<W: fmt::Write>(&self, f: &mut fmt::Formatter<W>) -> fmt::Result {
        match self {
            ParseError::OutOfMemory => write!(f, "out of memory"),
            ParseError::Fault(_) => write!(f, "no sentence of the grammar"),
        }
    }
}

impl Error for ParseError {}

impl From<AllocError> for ParseError {
    ghost from_gives = { λ _ e. e ≡ OutOfMemory };

    fn from(_error: AllocError) -> ParseError {
        ParseError::OutOfMemory
    }
}

impl<T: Drop> From<AllocFailed<T>> for ParseError {
    ghost from_gives = { λ _ e. e ≡ OutOfMemory };

    fn from(_error: AllocFailed<T>) -> ParseError {
        ParseError::OutOfMemory
    }
}

/// The leftmost derivation of a list of kinds of token, as the numbers of its productions.
///
/// The work and the memory are linear in the number of tokens.
pub fn parse(alloc: Global, grammar: &Grammar, kinds: &[u8]) -> Result<Vec<u16>, ParseError>
    requires valid { IsLl1 grammar.now }
    requires ended { EndsWith kinds.now grammar.now.end }

    // What is found derives exactly these tokens.
    ensures found { IfOk result (λ found. IsDerivation (syntax_of grammar.now) found.items kinds.now) }

    // Whatever derives them is found, unless memory ran out.
    ensures only { (ps : List ℕ) → IsDerivation (syntax_of grammar.now) ps kinds.now
        → MatchResult result (λ found. found.items ≡ ps) (λ e. e ≡ OutOfMemory) }

    // A fault is at the first token with which no sentence goes on.
    ensures place { IfFault result
        (λ fault. IsFirstFault (IsSentence (syntax_of grammar.now)) kinds.now fault.place) }
    ensures within { IfFault result (λ fault. fault.place < length kinds.now) }

    // Beside it are the productions that lead to the tokens before it,
    ensures so_far { IfFault result
        (λ fault. IsBeginning (syntax_of grammar.now) fault.productions.items (take fault.place kinds.now)) }

    // with which each derivation of a sentence with this prefix begins.
    ensures forced { IfFault result (λ fault. (more ps : List ℕ)
        → IsDerivation (syntax_of grammar.now) ps (take fault.place kinds.now ++ more)
        → StartsWith ps fault.productions.items) }
{
    let mut stack = Vec::new(alloc);
    stack.push(Symbol::Terminal(grammar.end))?;
    stack.push(Symbol::Nonterminal(0))?;
    let mut productions = Vec::new(alloc);
    for (place, &kind) in kinds.iter().enumerate() {
        let known = productions.len();
        if !read(grammar, kind, &mut stack, &mut productions)? {
            productions.truncate(known);
            return Err(ParseError::Fault(Fault { place, productions }));
        }
    }
    Ok(productions)
}

/// ReadsTo one token: rewrites the nonterminal on top of the stack until the top is this kind, and takes
/// it off. Says whether the token may stand here.
fn read(
    grammar: &Grammar,
    kind: u8,
    stack: &mut Vec<Symbol>,
    productions: &mut Vec<u16>,
) -> Result<bool, AllocError>
    requires valid { IsLl1 grammar.now }
    requires left { IsLeft (syntax_of grammar.now) (reverse stack.old.items) }
    ensures yes { IfOk result (λ yes. OnTrue yes (ReadsOne (rules_of grammar.now) kind
        (reverse stack.old.items) (reverse stack.new.items) productions.old.items productions.new.items)) }
    ensures no { IfOk result (λ yes. OnFalse yes (ReadsNone (rules_of grammar.now) kind
        (reverse stack.old.items) productions.old.items productions.new.items)) }
{
    while let Some(symbol) = stack.pop() {
        match symbol {
            Symbol::Terminal(wanted) => return Ok(wanted == kind),
            Symbol::Nonterminal(nonterminal) => {
                let Some(number) = grammar.choose(nonterminal, kind) else {
                    return Ok(false);
                };
                productions.push(number)?;
                push_reversed(stack, grammar.body(number))?;
            }
        }
    }
    Ok(false)
}

/// Puts symbols on the stack so that the first one is on top.
fn push_reversed(stack: &mut Vec<Symbol>, symbols: &[Symbol]) -> Result<(), AllocError>
    ensures { OnOk result (reverse stack.new.items ≡ symbols.now ++ reverse stack.old.items) }
{
    for symbol in symbols.iter().rev() {
        stack.push(*symbol)?;
    }
    Ok(())
}
