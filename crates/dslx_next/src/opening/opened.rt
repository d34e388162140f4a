//! Steps that bind nothing yet.

ghost use Rattle.std.specs.Prelude.{◌≡◌, Some, IfOk};
ghost use Rattle.dslx_meaning.specs.Types.{plain_type as without_names, received as the_pair};
ghost use Rattle.dslx_next.specs.Opening.Opened.{computing, receiving, sending, with_shape as the_step_with};

use dslx_config::channels::plain_type;
use dslx_core::lowering::{CoreMember, LoweredExpr};
use dslx_core::{CoreExpr, Receive, Send, Shape, Step};
use dslx_meaning::DslxType;
use std::alloc::{AllocError, Global};
use xb_value::{Boxed, Seq, Ty};

/// A step that binds nothing yet, and the type of the value that it gives.
#[derive(Drop)]
pub struct OpenStep {
    pub step: Step,
    pub ty: DslxType,
}

/// The value of an expression.
pub fn compute(value: LoweredExpr) -> OpenStep
    ensures { Some result ≡ computing value }
{
    OpenStep {
        step: Step::Bind(value.core.into_inner(), Shape::Wild),
        ty: value.ty,
    }
}

/// A token and a word of the member, or the value that the condition has beside it.
pub fn receive(
    alloc: Global,
    member: CoreMember,
    condition: Option<(Boxed<CoreExpr>, Boxed<CoreExpr>)>,
) -> Result<OpenStep, AllocError>
    ensures { IfOk result (λ step. Some step ≡ receiving member condition) }
{
    let number = member.number;
    let (word, ty) = word_types(alloc, member.word)?;
    Ok(OpenStep {
        step: Step::Receive(Receive {
            member: number,
            word,
            condition: unboxed_pair(condition),
            shape: Shape::Wild,
        }),
        ty,
    })
}

/// The type of words without signs and names, and that of a token and a word.
fn word_types(alloc: Global, word: DslxType) -> Result<(Ty, DslxType), AllocError>
    ensures { IfOk result (λ types. types ≡ (without_names word, the_pair word)) }
{
    let plain = plain_type(alloc, &word)?;
    Ok((plain, pair_of(alloc, word)?))
}

/// A token and a word.
fn pair_of(alloc: Global, word: DslxType) -> Result<DslxType, AllocError>
    ensures { IfOk result (λ t. t ≡ the_pair word) }
{
    let mut parts = Vec::new(alloc);
    parts.push(DslxType::Token)?;
    parts.push(word)?;
    Ok(DslxType::Tuple(Seq::from_vec(parts)))
}

/// A token, where the word is sent.
pub fn send(member: CoreMember, condition: Option<Boxed<CoreExpr>>, word: LoweredExpr) -> OpenStep
    ensures { Some result ≡ sending member condition word }
{
    OpenStep {
        step: Step::Send(Send {
            member: member.number,
            condition: unboxed(condition),
            word: word.core.into_inner(),
            shape: Shape::Wild,
        }),
        ty: DslxType::Token,
    }
}

/// What is in the box, if there is one.
fn unboxed<T>(boxed: Option<Boxed<T>>) -> Option<T>
    ensures { result ≡ boxed }
{
    match boxed {
        Some(boxed) => Some(boxed.into_inner()),
        None => None,
    }
}

/// What is in both boxes, if there are such.
fn unboxed_pair<T>(boxed: Option<(Boxed<T>, Boxed<T>)>) -> Option<(T, T)>
    ensures { result ≡ boxed }
{
    match boxed {
        Some((first, second)) => Some((first.into_inner(), second.into_inner())),
        None => None,
    }
}

/// The step with what it binds.
pub fn with_shape(step: Step, shape: Shape) -> Step
    ensures { result ≡ the_step_with step shape }
{
    match step {
        Step::Bind(value, _) => Step::Bind(value, shape),
        Step::Receive(receive) => Step::Receive(Receive { shape, ..receive }),
        Step::Send(send) => Step::Send(Send { shape, ..send }),
    }
}
