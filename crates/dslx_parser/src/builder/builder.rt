//! Building the tree.

ghost use Rattle.std.specs.Prelude.{◌≡◌, ◌∷◌, List, drop, IfOk, OnOk};
ghost use Rattle.base.specs.declared.grammar.bottom_up.Step.{Step};
ghost use Rattle.dslx_token.specs.Lexeme.{Lexeme};
ghost use Rattle.dslx_parser.specs.Builder.Building.{built, module_of};
ghost use Rattle.dslx_actions.specs.Empty.{empty};

use crate::builder::rule::reduce;
use crate::builder::table::rule_of;
use base::grammar::Step;
use dslx_actions::{SemanticStacks, Stack};
use dslx_token::Token;
use dslx_tree::Module;
use std::alloc::{AllocError, Global};
use xb_value::Seq;

/// The tree that the steps make of the tokens.
pub fn build(alloc: Global, steps: &[Step], tokens: &[Token]) -> Result<Module, AllocError>
    ensures { IfOk result (λ m. m ≡ module_of (built steps.now tokens.now empty)) }
{
    let mut parts = SemanticStacks::new(alloc);
    run(alloc, steps, tokens, &mut parts)?;
    Ok(take_items(alloc, &mut parts))
}

/// Goes through the steps.
fn run(
    alloc: Global,
    steps: &[Step],
    tokens: &[Token],
    parts: &mut SemanticStacks,
) -> Result<(), AllocError>
    ensures { OnOk result (parts.new ≡ built steps.now tokens.now parts.old) }
{
    let mut next = 0usize;
    for step in steps {
        let after = take_step(alloc, *step, tokens, next, parts)?;
        next = after;
    }
    Ok(())
}

/// Takes a step, and says which token comes next.
fn take_step(
    alloc: Global,
    step: Step,
    tokens: &[Token],
    next: usize,
    parts: &mut SemanticStacks,
) -> Result<usize, AllocError>
    ensures { IfOk result (λ after. (rest : List Step)
        → built (step ∷ rest) (drop next tokens.now) parts.old ≡ built rest (drop after tokens.now) parts.new) }
{
    match step {
        Step::Shift => shift_next(alloc, tokens, next, parts),
        Step::Reduce(production) => {
            reduce_one(alloc, production, parts)?;
            Ok(next)
        }
    }
}

/// Does what is done where a tree of the production is complete.
fn reduce_one(alloc: Global, production: u16, parts: &mut SemanticStacks) -> Result<(), AllocError>
    ensures { OnOk result ((rest : List Step) (ls : List Lexeme)
        → built (Step.Reduce production ∷ rest) ls parts.old ≡ built rest ls parts.new) }
{
    reduce(parts, alloc, rule_of(production))?;
    Ok(())
}

/// Adds the next token, if there is one, and says which one comes behind it.
fn shift_next(
    alloc: Global,
    tokens: &[Token],
    next: usize,
    parts: &mut SemanticStacks,
) -> Result<usize, AllocError>
    ensures { IfOk result (λ after. (rest : List Step)
        → built (Step.Shift ∷ rest) (drop next tokens.now) parts.old ≡ built rest (drop after tokens.now) parts.new) }
{
    if next < tokens.len() {
        parts.shift(alloc, &tokens[next])?;
        Ok(next + 1)
    } else {
        Ok(next)
    }
}

/// Takes the items that have been built, as a tree.
fn take_items(alloc: Global, parts: &mut SemanticStacks) -> Module
    ensures { result ≡ module_of parts.old }
{
    let items = std::mem::replace(&mut parts.items, Stack::new(alloc));
    Module {
        items: Seq::from_vec(items.into_items()),
    }
}
