//! Expressions without parts.

ghost use Rattle.std.specs.Prelude.{◌≡◌, IfOk};
ghost use Rattle.dslx_meaning.specs.Meaning.{denotation};
ghost use Rattle.dslx_meaning.specs.Rules.TypeEnvs as env;
ghost use Rattle.dslx_meaning.specs.Rules.NameRules as names;
ghost use Rattle.dslx_meaning.specs.Names.ConstMachine.Layers.{untyped_of as untyped_by_node};
ghost use Rattle.dslx_check_facts.specs.Walks.{shown};
ghost use Rattle.dslx_check_leaves.specs.Walked.{JudgesPart};

use base::texts::Name;
use dslx_check_facts::{Facts, TypeEnv, Walk, member_typing, name_typing};
use dslx_check_rules::{Typing, limited};
use dslx_meaning::UntypedLiteral;
use dslx_tree::{Expr, Ident, Node};
use std::alloc::AllocError;
use xb_span::Span;

/// A name as a value.
pub fn name_node<'a>(
    f: &Facts<'a>,
    w: &mut Walk,
    s: &mut TypeEnv<'a>,
    span: Span,
    name: &Name,
) -> Result<Typing, AllocError>
    ensures { IfOk result (λ j. JudgesPart f.now s.old s.new (shown w.old) (shown w.new) j (λ context. names.name_typing span context name.now)) }
{
    name_typing(f, w, s, span, name)
}

/// A member of an enum as a value.
pub fn member_node<'a>(
    f: &Facts<'a>,
    w: &mut Walk,
    s: &mut TypeEnv<'a>,
    span: Span,
    choice: &Ident,
    member: &Ident,
) -> Result<Typing, AllocError>
    ensures { IfOk result (λ j. JudgesPart f.now s.old s.new (shown w.old) (shown w.new) j (λ context. env.limited span (names.member_typing context choice.now member.now))) }
{
    let value = member_typing(f, w, s, choice, member)?;
    Ok(limited(&w.types, span, value))
}

/// The number that it is, if it is one without a type.
#[tactic(auto, using(crate::proofs::Untyped::untyped_by_node))]
pub fn untyped_of(e: &Expr) -> Option<UntypedLiteral>
    ensures { result ≡ (denotation e.now).bare }
{
    untyped_at(e)
}

fn untyped_at(e: &Expr) -> Option<UntypedLiteral>
    ensures { result ≡ untyped_by_node e.now }
{
    match &e.node {
        Node::Number(number) => match &number.ty {
            Some(_) => None,
            None => Some(UntypedLiteral {
                is_negative: number.is_negative,
                value: number.value,
            }),
        },
        _ => None,
    }
}
