//! Building the package.

ghost use Rattle.std.specs.Prelude.{◌≡◌, ◌∷◌, List, drop, reverse, IfOk, OnOk};
ghost use Rattle.base.specs.declared.grammar.bottom_up.Step.{Step};
ghost use Rattle.dslx_token.specs.Lexeme.{Lexeme};
ghost use Rattle.ir_builder.specs.Building.{built, spanned_of};
ghost use Rattle.ir_builder.specs.Empty.{empty};

use crate::lines::name_of;
use crate::rule::rule_of;
use crate::state::{NOWHERE, State};
use crate::token::Token;
use base::grammar::Step;
use base::stacks::Stack;
use ir_tree::Package;
use ir_tree::rules::LineSpans;
use std::alloc::{AllocError, Global};
use xb_value::Seq;

/// A package, and where its lines stand in the text.
#[derive(Drop)]
pub struct Spanned {
    pub tree: Package,
    pub line_spans: LineSpans,
}

/// The package that the steps make of the tokens.
pub fn build(alloc: Global, steps: &[Step], tokens: &[Token]) -> Result<Spanned, AllocError>
    ensures { IfOk result (λ spanned. spanned ≡ spanned_of (built steps.now tokens.now empty)) }
{
    let mut state = State::new(alloc);
    run(alloc, steps, tokens, &mut state)?;
    spanned_of(alloc, &mut state)
}

/// Goes through the steps.
fn run<'a>(
    alloc: Global,
    steps: &[Step],
    tokens: &[Token<'a>],
    state: &mut State<'a>,
) -> Result<(), AllocError>
    ensures { OnOk result (state.new ≡ built steps.now tokens.now state.old) }
{
    let mut next = 0usize;
    for step in steps {
        let after = take_step(alloc, *step, tokens, next, state)?;
        next = after;
    }
    Ok(())
}

/// Takes a step, and says which token comes next.
fn take_step<'a>(
    alloc: Global,
    step: Step,
    tokens: &[Token<'a>],
    next: usize,
    state: &mut State<'a>,
) -> Result<usize, AllocError>
    ensures { IfOk result (λ after. (rest : List Step)
        → built (step ∷ rest) (drop next tokens.now) state.old ≡ built rest (drop after tokens.now) state.new) }
{
    match step {
        Step::Shift => shift_next(tokens, next, state),
        Step::Reduce(production) => {
            reduce_one(alloc, production, state)?;
            Ok(next)
        }
    }
}

/// Does what is done where a tree of the production is complete.
fn reduce_one(alloc: Global, production: u16, state: &mut State) -> Result<(), AllocError>
    ensures { OnOk result ((rest : List Step) (ls : List Lexeme)
        → built (Step.Reduce production ∷ rest) ls state.old ≡ built rest ls state.new) }
{
    state.reduce(alloc, rule_of(production))?;
    Ok(())
}

/// Adds the next token, if there is one, and says which one comes behind it.
fn shift_next<'a>(
    tokens: &[Token<'a>],
    next: usize,
    state: &mut State<'a>,
) -> Result<usize, AllocError>
    ensures { IfOk result (λ after. (rest : List Step)
        → built (Step.Shift ∷ rest) (drop next tokens.now) state.old ≡ built rest (drop after tokens.now) state.new) }
{
    if next < tokens.len() {
        state.shift(&tokens[next])?;
        Ok(next + 1)
    } else {
        Ok(next)
    }
}

impl<'a> State<'a> {
    ghost use Rattle.std.specs.Prelude.{◌≡◌, OnOk};
    ghost use Rattle.ir_builder.specs.Building.{shifted};

    /// Adds a token.
    fn shift(&mut self, token: &Token<'a>) -> Result<(), AllocError>
        ensures { OnOk result (self.new ≡ shifted token.now self.old) }
    {
        self.tokens.push(token.again())
    }
}

/// The package whose lines have been built.
fn spanned_of(alloc: Global, state: &mut State) -> Result<Spanned, AllocError>
    ensures { IfOk result (λ spanned. spanned ≡ spanned_of state.old) }
{
    let name = state.names.pop_or(Token::nothing());
    let line = state.heads.pop_or(NOWHERE);
    let tree = Package {
        name: name_of(alloc, &name)?,
        channels: take_all(alloc, &mut state.channels),
        procs: take_all(alloc, &mut state.procs),
    };
    let line_spans = LineSpans {
        name: line,
        channels: take_all(alloc, &mut state.channel_spans),
        procs: take_all(alloc, &mut state.proc_spans),
    };
    Ok(Spanned { tree, line_spans })
}

/// Takes all parts of a stack, the lowest first.
fn take_all<T: Drop>(alloc: Global, stack: &mut Stack<T>) -> Seq<T>
    ensures { result ≡ reverse stack.old }
{
    Seq::from_vec(std::mem::replace(stack, Stack::new(alloc)).into_items())
}
