//! What expressions do as statements.

ghost use Rattle.std.specs.Prelude.{◌≡◌};
ghost use Rattle.std.specs.Option.{option_copied};
ghost use Rattle.dslx_meaning.specs.Activation.{SendsWord, SendsWordIf, TakesWord, TakesWordIf, act_of as the_act, act_of_call as the_act_of_call, at_channel, name_in_node, node_of};
ghost use Rattle.dslx_meaning.specs.Names.Called.{kind_of};
ghost use Rattle.dslx_meaning.specs.Names.Sites.Acts.{act_shown};

use crate::names::{Callee, callee_of};
use base::texts::Name;
use dslx_tree::{Expr, Node};

/// What an expression does as a statement or as the whole value of a `let`.
pub enum Act<'a> {
    /// It has a value alone.
    Compute,
    /// It receives from the channel of this name.
    Receive(&'a Name),
    /// Where the first expression holds; else it gives the value of the second one and receives nothing.
    ReceiveIf(&'a Name, &'a Expr, &'a Expr),
    /// It sends the value of the expression there.
    Send(&'a Name, &'a Expr),
    /// Where the first expression holds.
    SendIf(&'a Name, &'a Expr, &'a Expr),
}

/// What an expression does as a statement or as the whole value of a `let`.
pub fn act_of<'a>(expr: &'a Expr) -> Act<'a>
    ensures { act_shown result ≡ the_act expr.now }
{
    match &expr.node {
        Node::Call(name, _, operands) => act_of_call(callee_of(&name.name), operands.as_slice()),
        _ => Act::Compute,
    }
}

fn act_of_call<'a>(callee: Callee, operands: &'a [Expr]) -> Act<'a>
    ensures { act_shown result ≡ the_act_of_call (kind_of callee) operands.now }
{
    match (callee, operands) {
        (Callee::Receive, [_, channel]) => receive(channel),
        (Callee::ReceiveIf, [_, channel, condition, other]) => {
            receive_if(channel, condition, other)
        }
        (Callee::Send, [_, channel, word]) => send(channel, word),
        (Callee::SendIf, [_, channel, condition, word]) => send_if(channel, condition, word),
        _ => Act::Compute,
    }
}

fn receive<'a>(channel: &'a Expr) -> Act<'a>
    ensures { act_shown result ≡ at_channel channel.now TakesWord }
{
    match &channel.node {
        Node::Name(name) => Act::Receive(name),
        _ => Act::Compute,
    }
}

fn receive_if<'a>(channel: &'a Expr, condition: &'a Expr, other: &'a Expr) -> Act<'a>
    ensures { act_shown result ≡ at_channel channel.now (λ name. TakesWordIf name condition.now other.now) }
{
    match &channel.node {
        Node::Name(name) => Act::ReceiveIf(name, condition, other),
        _ => Act::Compute,
    }
}

fn send<'a>(channel: &'a Expr, word: &'a Expr) -> Act<'a>
    ensures { act_shown result ≡ at_channel channel.now (λ name. SendsWord name word.now) }
{
    match &channel.node {
        Node::Name(name) => Act::Send(name, word),
        _ => Act::Compute,
    }
}

fn send_if<'a>(channel: &'a Expr, condition: &'a Expr, word: &'a Expr) -> Act<'a>
    ensures { act_shown result ≡ at_channel channel.now (λ name. SendsWordIf name condition.now word.now) }
{
    match &channel.node {
        Node::Name(name) => Act::SendIf(name, condition, word),
        _ => Act::Compute,
    }
}
