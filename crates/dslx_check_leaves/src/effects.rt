//! Effects, and the channels that they use.

ghost use Rattle.std.specs.Prelude.{◌≡◌, ◌&&◌, OnOk};
ghost use Rattle.std.specs.Option.{option_copied};
ghost use Rattle.dslx_meaning.specs.Rules.EffectNames as effects;
ghost use Rattle.dslx_meaning.specs.Names.Called.{kind_of};
ghost use Rattle.dslx_check_rules.specs.Nodes.Parts.{FromOne};
ghost use Rattle.dslx_check_leaves.specs.Typed as tree;
ghost use Rattle.dslx_check_leaves.specs.Walked.{used_now};

use base::texts::Name;
use dslx_check_facts::TypeEnv;
use dslx_check_rules::nodes::aggregates::no_token;
use dslx_check_rules::{TypeTable, Typing};
use dslx_check_uses::name_of;
use dslx_meaning::names::{Callee, callee_of};
use dslx_tree::{Arg, Expr, Node};
use std::alloc::AllocError;

/// Whether an expression is a receive or a send.
pub fn is_effect(e: &Expr) -> bool
    ensures { result ≡ effects.is_effect e.now }
{
    match &e.node {
        Node::Call(name, _, _) => is_effect_callee(callee_of(&name.name)),
        _ => false,
    }
}

fn is_effect_callee(callee: Callee) -> bool
    ensures { result ≡ effects.is_effect_kind (kind_of callee) }
{
    match callee {
        Callee::Receive | Callee::ReceiveIf | Callee::Send | Callee::SendIf => true,
        _ => false,
    }
}

/// The name of an effect's channel, if it is an effect whose channel is a name.
fn effect_channel(e: &Expr) -> Option<&Name>
    ensures { option_copied result ≡ effects.effect_channel e.now }
{
    match &e.node {
        Node::Call(name, _, operands) => channel_if(
            is_effect_callee(callee_of(&name.name)),
            operands.as_slice(),
        ),
        _ => None,
    }
}

fn channel_if(is_effect: bool, operands: &[Expr]) -> Option<&Name>
    ensures { option_copied result ≡ effects.channel_if is_effect operands.now }
{
    if is_effect {
        second_name(operands)
    } else {
        None
    }
}

/// The name that the second operand is.
fn second_name(operands: &[Expr]) -> Option<&Name>
    ensures { option_copied result ≡ effects.second_name operands.now }
{
    match operands {
        [_, channel, ..] => name_of(channel),
        _ => None,
    }
}

/// The channel of an effect has a site from here on.
pub fn use_channel<'a>(s: &mut TypeEnv<'a>, e: &'a Expr) -> Result<(), AllocError>
    ensures { OnOk result (s.new ≡ record (s.old) { used = used_now (effects.effect_channel e.now) s.old.used }) }
{
    match effect_channel(e) {
        Some(name) => s.used.bind(name, ()),
        None => Ok(()),
    }
}

/// An effect drops what it gives; no other token is dropped.
pub fn bare_value(types: &TypeTable, on_top: bool, e: &Expr, value: Typing) -> Typing
    ensures { FromOne (tree.bare_half on_top e.now) types.now types.now value result }
{
    if is_effect_on_top(on_top, e) {
        value
    } else {
        no_token(types, e.span, value)
    }
}

/// Whether it is an effect where effects may stand.
fn is_effect_on_top(on_top: bool, e: &Expr) -> bool
    ensures { result ≡ (on_top && effects.is_effect e.now) }
{
    on_top && is_effect(e)
}

/// No parametric arguments, and this number of others.
pub fn fits_effect(count: usize, args: &[Arg], operands: &[Expr]) -> bool
    ensures { result ≡ tree.fits_effect count args.now operands.now }
{
    match args {
        [] => operands.len() == count,
        [_, ..] => false,
    }
}
