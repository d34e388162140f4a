//! What is done where a rule of the grammar is complete.

ghost use Rattle.std.specs.Prelude.{◌≡◌, OnOk};
ghost use Rattle.dslx_parser.specs.Builder.Building.{reduced};
ghost use Rattle.dslx_parser.specs.Builder.Common.{reduced_common};

use dslx_actions::SemanticStacks;
use dslx_actions::types::{PatternAction, TypeAction, reduce_pattern, reduce_type};
use dslx_node_actions::exprs::atoms::{ArgAction, AtomAction, reduce_arg, reduce_atom};
use dslx_node_actions::exprs::braces::{BraceAction, reduce_brace};
use dslx_node_actions::exprs::operators::{OperatorAction, reduce_operator};
use dslx_node_actions::items::{ItemAction, ProcAction, reduce_item, reduce_proc};
use std::alloc::{AllocError, Global};

/// What is done where a tree of a rule is complete.
#[derive(Clone, Copy)]
pub enum Rule {
    /// Nothing: the parts stay.
    Keep,
    Common(CommonAction),
    TypeExpr(TypeAction),
    Pattern(PatternAction),
    Atom(AtomAction),
    Arg(ArgAction),
    Operator(OperatorAction),
    Brace(BraceAction),
    Item(ItemAction),
    Proc(ProcAction),
}

/// What rules of several sorts do where their symbols are complete.
#[derive(Clone, Copy)]
pub enum CommonAction {
    /// So many tokens say nothing.
    Skip(usize),
    /// Of so many tokens only the span of the last one matters.
    LastMark(usize),
    /// A list ends, and so far has no element.
    Start,
    /// The list has one element more.
    More,
    /// So many tokens say nothing, and the list has one element more.
    SkipMore(usize),
    /// A list ends, and nothing stands behind it.
    NothingMore,
    /// A token and a type.
    Annotation,
    /// A type is left out.
    NoAnnotation,
    /// So many tokens and an expression.
    Given(usize),
    /// An expression is left out.
    LeftOut,
}

/// Does what is done where a tree is complete.
pub fn reduce(parts: &mut SemanticStacks, alloc: Global, rule: Rule) -> Result<(), AllocError>
    ensures { OnOk result (parts.new ≡ reduced rule parts.old) }
{
    match rule {
        Rule::Keep => Ok(()),
        Rule::Common(rule) => reduce_common(parts, rule),
        Rule::TypeExpr(rule) => reduce_type(parts, alloc, rule),
        Rule::Pattern(rule) => reduce_pattern(parts, alloc, rule),
        Rule::Atom(rule) => reduce_atom(parts, alloc, rule),
        Rule::Arg(rule) => reduce_arg(parts, alloc, rule),
        Rule::Operator(rule) => reduce_operator(parts, alloc, rule),
        Rule::Brace(rule) => reduce_brace(parts, alloc, rule),
        Rule::Item(rule) => reduce_item(parts, alloc, rule),
        Rule::Proc(rule) => reduce_proc(parts, alloc, rule),
    }
}

/// Does what is done where a tree of a rule of several sorts is complete.
fn reduce_common(parts: &mut SemanticStacks, rule: CommonAction) -> Result<(), AllocError>
    ensures { OnOk result (parts.new ≡ reduced_common rule parts.old) }
{
    match rule {
        CommonAction::Skip(count) => {
            parts.skip(count);
            Ok(())
        }
        CommonAction::LastMark(count) => parts.last_mark(count),
        CommonAction::Start => parts.start(),
        CommonAction::More => parts.more(),
        CommonAction::SkipMore(count) => {
            parts.skip(count);
            parts.more()
        }
        CommonAction::NothingMore => parts.nothing_more(),
        CommonAction::Annotation => parts.annotation(),
        CommonAction::NoAnnotation => parts.no_annotation(),
        CommonAction::Given(count) => parts.given(count),
        CommonAction::LeftOut => parts.left_out(),
    }
}
