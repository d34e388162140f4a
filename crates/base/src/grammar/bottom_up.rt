//! The order in which a tree is built from the bottom up.

ghost use Rattle.std.specs.Prelude.{◌≡◌, ℕ, ◌++◌, List, IfOk, OnOk, map, reverse};
ghost use Rattle.base.specs.Grammar.Syntax.{syntax_of};
ghost use Rattle.base.specs.Grammar.Derivation.{IsDerivation};
ghost use Rattle.base.specs.Grammar.Ll1.{IsLl1};
ghost use Rattle.base.specs.Grammar.Tree.{Forest, IsParseTree};
ghost use Rattle.base.specs.Grammar.Steps.{steps_of};
ghost use Rattle.base.specs.Grammar.Inner.Tasks.{reads};

use crate::grammar::table::{Grammar, Symbol};
use std::alloc::{AllocError, Global};

/// A step of a builder that keeps what it has built on a stack.
#[derive(Clone, Copy, PartialEq, Eq)]
pub enum Step {
    /// The next token comes on the stack.
    Shift,
    /// What stands on top for the symbols of this production's body, the last one topmost, is replaced by what stands
    /// for its nonterminal.
    Reduce(u16),
}

/// What is still to be done for the steps of a tree.
#[derive(Clone, Copy, PartialEq, Eq)]
enum Task {
    /// To go through the tree of a symbol.
    Visit(Symbol),
    /// To end the tree of a production.
    Reduce(u16),
}

/// The steps in which the tree of a derivation is built, from the left and from the bottom up.
///
/// The work and the memory are linear in the tokens and productions.
pub fn steps(alloc: Global, grammar: &Grammar, productions: &[u16]) -> Result<Vec<Step>, AllocError>
    requires valid { IsLl1 grammar.now }
    requires derivation { (ts : List ℕ) × IsDerivation (syntax_of grammar.now) productions.now ts }
    ensures { IfOk result (λ steps. (ts : List ℕ) (f : Forest)
        → IsParseTree (syntax_of grammar.now) productions.now ts f → steps.items ≡ steps_of f) }
{
    let mut tasks = Vec::new(alloc);
    tasks.push(Task::Visit(Symbol::Terminal(grammar.end)))?;
    tasks.push(Task::Visit(Symbol::Nonterminal(0)))?;
    let mut steps = Vec::new(alloc);
    let mut next = 0usize;
    while let Some(task) = tasks.pop() {
        match task {
            Task::Visit(symbol) => match symbol {
                Symbol::Terminal(_) => steps.push(Step::Shift)?,
                Symbol::Nonterminal(_) => {
                    let number = productions[next];
                    next += 1;
                    tasks.push(Task::Reduce(number))?;
                    push_visits(&mut tasks, grammar.body(number))?;
                }
            },
            Task::Reduce(number) => steps.push(Step::Reduce(number))?,
        }
    }
    Ok(steps)
}

/// Puts visits of the symbols on the stack so that the first one is on top.
fn push_visits(tasks: &mut Vec<Task>, symbols: &[Symbol]) -> Result<(), AllocError>
    ensures { OnOk result (tasks.new.items ≡ tasks.old.items ++ reads (reverse symbols.now)) }
{
    for symbol in symbols.iter().rev() {
        tasks.push(Task::Visit(*symbol))?;
    }
    Ok(())
}
