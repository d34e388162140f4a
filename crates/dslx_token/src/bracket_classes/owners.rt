//! Which rule took each token.

ghost use Rattle.std.specs.Prelude.{◌≡◌, ◌++◌, drop, reverse, take, IfOk, OnOk};
ghost use Rattle.dslx_token.specs.BracketClasses.Takers.{behind_nonterminal, body_of, prefix_takers, owned_by, takers_of};
ghost use Rattle.base.specs.Grammar.Syntax.{rules_of, syntax_of};
ghost use Rattle.dslx_token.specs.Rules.Dslx.{dslx};

use crate::rules::kind::END;
use base::grammar::{Grammar, Symbol};
use std::alloc::{AllocError, Global};

/// A symbol of the body of a rule.
#[derive(Clone, Copy)]
pub struct Owned {
    /// The number of the rule.
    pub rule: u16,
    pub symbol: Symbol,
}

/// The rule of each token that the productions lead to. The work is linear.
pub fn takers(alloc: Global, productions: &[u16]) -> Result<Vec<u16>, AllocError>
    ensures { IfOk result (λ takers. takers.items ≡ takers_of productions.now) }
{
    let grammar = crate::rules::grammar();
    let mut ahead = Vec::new(alloc);
    push_body(
        &mut ahead,
        0,
        &[Symbol::Nonterminal(0), Symbol::Terminal(END)],
    )?;
    let mut takers = Vec::new(alloc);
    for &number in productions {
        take_prefix(&mut ahead, &mut takers)?;
        push_body(&mut ahead, number, body(&grammar, number))?;
    }
    take_prefix(&mut ahead, &mut takers)?;
    Ok(takers)
}

/// Takes the symbols up to the first nonterminal, of those that are ahead, the first one last.
fn take_prefix(ahead: &mut Vec<Owned>, takers: &mut Vec<u16>) -> Result<(), AllocError>
    ensures takers { OnOk result (takers.new.items ≡ takers.old.items ++ prefix_takers (reverse ahead.old.items)) }
    ensures ahead { OnOk result (reverse ahead.new.items ≡ behind_nonterminal (reverse ahead.old.items)) }
{
    while let Some(owned) = ahead.pop() {
        match owned.symbol {
            Symbol::Terminal(_) => takers.push(owned.rule)?,
            Symbol::Nonterminal(_) => return Ok(()),
        }
    }
    Ok(())
}

/// Opens the symbols of a rule's body.
fn push_body(ahead: &mut Vec<Owned>, rule: u16, symbols: &[Symbol]) -> Result<(), AllocError>
    ensures { OnOk result (ahead.new.items ≡ ahead.old.items ++ owned_by rule (reverse symbols.now)) }
{
    for &symbol in symbols.iter().rev() {
        ahead.push(Owned { rule, symbol })?;
    }
    Ok(())
}

/// What the rule may be rewritten to.
fn body<'a>(grammar: &Grammar<'a>, number: u16) -> &'a [Symbol]
    ensures { result.now ≡ body_of (rules_of grammar.now) number }
{
    match grammar.productions.get(usize::from(number)) {
        Some(production) => {
            let first = usize::from(production.first);
            let end = usize::from(production.end);
            front(behind(grammar.symbols, first), end.saturating_sub(first))
        }
        None => &[],
    }
}

fn behind(symbols: &[Symbol], count: usize) -> &[Symbol]
    ensures { result.now ≡ drop count symbols.now }
{
    if count < symbols.len() {
        &symbols[count..]
    } else {
        &[]
    }
}

fn front(symbols: &[Symbol], count: usize) -> &[Symbol]
    ensures { result.now ≡ take count symbols.now }
{
    if count < symbols.len() {
        &symbols[..count]
    } else {
        symbols
    }
}
