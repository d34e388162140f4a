//! Building the module.

ghost use Rattle.std.specs.Prelude.{◌≡◌, ◌∷◌, ℕ, List, drop, IfOk, OnOk};
ghost use Rattle.base.specs.declared.grammar.bottom_up.Step.{Step};
ghost use Rattle.dslx_token.specs.Lexeme.{Lexeme};
ghost use Rattle.vlog_text.specs.Builder.Building.{built, design_by, parsed_of, spans_by};
ghost use Rattle.vlog_text.specs.Builder.Empty.{empty};

use crate::builder::ident::Ident;
use crate::builder::parsed::Parsed;
use crate::builder::rule::rule_of;
use crate::builder::state::State;
use crate::token::Token;
use base::grammar::Step;
use base::texts::Name;
use sqlite_items::Items;
use std::alloc::{AllocError, Global};
use vlog_tree::VModule;
use vlog_tree::verifier::PartSpans;

/// The module that the steps make of the tokens.
pub fn build<'a>(alloc: Global, steps: &[Step], tokens: &[Token<'a>]) -> Result<Parsed, AllocError>
    ensures { IfOk result (λ p. p ≡ parsed_of (built steps.now tokens.now empty)) }
{
    let mut state = State::new(alloc);
    run(alloc, steps, tokens, &mut state)?;
    parsed_of(alloc, &mut state)
}

/// Goes through the steps.
fn run<'a>(
    alloc: Global,
    steps: &[Step],
    tokens: &[Token<'a>],
    state: &mut State<'a>,
) -> Result<(), AllocError>
    ensures { OnOk result (state.new ≡ built steps.now tokens.now state.old) }
{
    let mut next = 0usize;
    for step in steps {
        let after = take_step(alloc, *step, tokens, next, state)?;
        next = after;
    }
    Ok(())
}

/// Takes a step, and says which token comes next.
fn take_step<'a>(
    alloc: Global,
    step: Step,
    tokens: &[Token<'a>],
    next: usize,
    state: &mut State<'a>,
) -> Result<usize, AllocError>
    ensures { IfOk result (λ after. (rest : List Step)
        → built (step ∷ rest) (drop next tokens.now) state.old ≡ built rest (drop after tokens.now) state.new) }
{
    match step {
        Step::Shift => shift_next(tokens, next, state),
        Step::Reduce(production) => {
            reduce_one(alloc, production, state)?;
            Ok(next)
        }
    }
}

/// Does what is done where a tree of the production is complete.
fn reduce_one<'a>(alloc: Global, production: u16, state: &mut State<'a>) -> Result<(), AllocError>
    ensures { OnOk result ((rest : List Step) (ls : List Lexeme)
        → built (Step.Reduce production ∷ rest) ls state.old ≡ built rest ls state.new) }
{
    state.reduce(alloc, rule_of(production))?;
    Ok(())
}

/// Adds the next token, if there is one, and says which one comes behind it.
fn shift_next<'a>(
    tokens: &[Token<'a>],
    next: usize,
    state: &mut State<'a>,
) -> Result<usize, AllocError>
    ensures { IfOk result (λ after. (rest : List Step)
        → built (Step.Shift ∷ rest) (drop next tokens.now) state.old ≡ built rest (drop after tokens.now) state.new) }
{
    if next < tokens.len() {
        state.shift(&tokens[next])?;
        Ok(next + 1)
    } else {
        Ok(next)
    }
}

/// The module that has been built, and where its parts stand.
fn parsed_of<'a>(alloc: Global, state: &mut State<'a>) -> Result<Parsed, AllocError>
    ensures { IfOk result (λ p. p ≡ parsed_of state.old) }
{
    let ident = state.idents.pop_or(Ident::none());
    let name = Name::from_string(String::from_str(alloc, ident.name())?);
    let part_spans = spans_of(alloc, state);
    let design = design_of(alloc, name, state);
    Ok(Parsed { design, part_spans })
}

/// Takes the parts of the module.
fn design_of<'a>(alloc: Global, name: Name, state: &mut State<'a>) -> VModule
    ensures { result ≡ design_by name state.old }
{
    VModule {
        name,
        ports: std::mem::replace(&mut state.ports, Items::new(alloc)),
        declarations: std::mem::replace(&mut state.declarations, Items::new(alloc)),
        assignments: std::mem::replace(&mut state.assignments, Items::new(alloc)),
        at_reset: std::mem::replace(&mut state.resets, Items::new(alloc)),
        at_clock: std::mem::replace(&mut state.clocks, Items::new(alloc)),
    }
}

/// Takes the spans of the parts. The parts stay.
fn spans_of<'a>(alloc: Global, state: &mut State<'a>) -> PartSpans
    ensures part_spans { result ≡ spans_by state.old }
    ensures design { (name : List ℕ) → design_by name state.new ≡ design_by name state.old }
{
    PartSpans {
        ports: std::mem::replace(&mut state.port_spans, Items::new(alloc)),
        declarations: std::mem::replace(&mut state.declaration_spans, Items::new(alloc)),
        assignments: std::mem::replace(&mut state.assignment_spans, Items::new(alloc)),
        at_reset: std::mem::replace(&mut state.reset_spans, Items::new(alloc)),
        at_clock: std::mem::replace(&mut state.clock_spans, Items::new(alloc)),
        literals: std::mem::replace(&mut state.literal_ends, Items::new(alloc)),
    }
}
