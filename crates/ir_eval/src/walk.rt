//! An activation, node by node.

ghost use Rattle.std.specs.Prelude.{◌≡◌, ◌==◌, ◌&&◌, nat_le, [], drop, if◌then◌else◌, IfOk};
ghost use Rattle.xb_value.specs.declared.value.Value.{Tuple};
ghost use Rattle.xb_value.specs.Unflat.{unflat_of};
ghost use Rattle.xb_value.specs.Width.{width_of};
ghost use Rattle.ir_tree.specs.NodeValues.{heard, channel_type};
ghost use Rattle.ir_tree.specs.Activations.{sent_by, first_word};
ghost use Rattle.ir_tree.specs.Rules.Typed.Typed.{AreChannels, IsWordType};
ghost use Rattle.ir_eval.specs.Bodies.{word_or, received_word};

use crate::operation::nothing;
use crate::scope::{Scope, is_on, pure_value};
use crate::width::sent;
use ir_tree::{Channel, Node, Operand, Role};
use net_core::{Activation, Event};
use std::alloc::{AllocError, Global};
use xb_bits::Bits;
use xb_value::{Seq, Ty, Value, at, unflat};

/// How far an activation has come: the values of the nodes so far, how many sites were among them, and how many words they received.
#[derive(Drop)]
pub struct Walk {
    pub values: Vec<Value>,
    pub site: usize,
    pub taken: usize,
}

/// The value of the type that a word says; without a word of its width, 0 in every leaf.
fn word_value(alloc: Global, ty: &Ty, word: Option<Bits>) -> Result<Value, AllocError>
    requires { IsWordType ty.now }
    ensures { IfOk result (λ v. v ≡ unflat_of ty.now (if (word_or word).width == width_of ty.now then (word_or word).value else 0)) }
{
    let width = ty.width() as u8;
    let number = match word {
        None => 0,
        Some(word) => if word.width() == width {
            word.value()
        } else {
            0
        },
    };
    unflat(alloc, ty, Bits::new(width, number))
}

/// What a receive got.
fn heard(
    alloc: Global,
    channels: &[Channel],
    channel: u32,
    word: Option<Bits>,
) -> Result<Value, AllocError>
    requires { AreChannels channels.now }
    ensures { IfOk result (λ v. v ≡ heard (channel_type channels.now channel) (word_or word)) }
{
    match at(channels, channel as usize) {
        None => Ok(nothing(alloc)),
        Some(channel) => {
            let ty = channel.ty.to_ty(alloc)?;
            word_value(alloc, &ty, word)
        }
    }
}

/// What a receive gives: a token, and what it got.
fn received(
    alloc: Global,
    channels: &[Channel],
    channel: u32,
    word: Option<Bits>,
) -> Result<Value, AllocError>
    requires { AreChannels channels.now }
    ensures { IfOk result (λ v. v ≡ received_word channels.now channel (word_or word)) }
{
    let value = heard(alloc, channels, channel, word)?;
    let mut parts = Vec::new(alloc);
    parts.push(nothing(alloc))?;
    parts.push(value)?;
    Ok(Value::Tuple(Seq::from_vec(parts)))
}

/// What a send carries.
fn sent_by(scope: &Scope, node: &Node) -> Bits
    requires { scope.now.nothing.now ≡ Tuple [] }
    ensures { result ≡ sent_by node.now scope.now.state.now scope.now.values.now }
{
    match node.operands.as_slice().get(1) {
        None => sent(scope.nothing),
        Some(operand) => sent(scope.value_of(*operand)),
    }
}

impl Walk {
    ghost use Rattle.std.specs.Prelude.{◌≡◌, ◌<◌, ◌≤◌, ◌+◌, ◌^◌, ◌∷◌, ◌++◌, [], length, List, IfOk, OnOk, MatchOption};
    ghost use Rattle.net_core.specs.declared.event.Event.TheVariants.{End};
    ghost use Rattle.ir_tree.specs.NodeValues.{operand_value, role_of};
    ghost use Rattle.net_core.specs.Behavior.{next_event};
    ghost use Rattle.ir_tree.specs.declared.node.Node.{Node};
    ghost use Rattle.ir_tree.specs.declared.package.Proc.{Proc};
    ghost use Rattle.ir_tree.specs.Activations.{activation, sites_by};
    ghost use Rattle.ir_tree.specs.Rules.Typed.Typed.{AreChannels};
    ghost use Rattle.net_core.specs.Keeps.{IsNothing};
    ghost use Rattle.ir_eval.specs.Inner.Walks.{StandsFor, StaysIf};

    /// Where an activation stood. Nothing is kept of it then, until the walk is kept again.
    pub fn resume(alloc: Global, kept: &mut Activation) -> Walk
        ensures values { result.values.items ≡ kept.old.values.items }
        ensures site { result.site ≡ kept.old.sites }
        ensures taken { result.taken ≡ kept.old.words }
        ensures nothing { IsNothing kept.new }
    {
        let walk = Walk {
            values: std::mem::replace(&mut kept.values, Vec::new(alloc)),
            site: kept.sites as usize,
            taken: kept.words,
        };
        kept.clear();
        walk
    }

    /// Keeps the walk, which stands behind this many nodes.
    pub fn keep(self, kept: &mut Activation, steps: usize)
        requires { self.site < 2 ^ 32 }
        ensures values { kept.new.values.items ≡ self.values.items }
        ensures steps { kept.new.steps ≡ steps }
        ensures sites { kept.new.sites ≡ self.site }
        ensures words { kept.new.words ≡ self.taken }
    {
        kept.values = self.values;
        kept.steps = steps;
        kept.sites = self.site as u32;
        kept.words = self.taken;
    }

    /// Adds the value of a node that is no site.
    fn add(&mut self, value: Value) -> Result<(), AllocError>
        ensures values { OnOk result (self.new.values.items ≡ self.old.values.items ++ value ∷ []) }
        ensures site { self.new.site ≡ self.old.site }
        ensures taken { self.new.taken ≡ self.old.taken }
    {
        self.values.push(value)?;
        Ok(())
    }

    /// Adds the value of a site.
    fn add_site(&mut self, value: Value) -> Result<(), AllocError>
        requires { self.old.site < 2 ^ 32 }
        ensures values { OnOk result (self.new.values.items ≡ self.old.values.items ++ value ∷ []) }
        ensures site { self.new.site ≡ self.old.site + 1 }
        ensures taken { self.new.taken ≡ self.old.taken }
    {
        self.site += 1;
        self.values.push(value)?;
        Ok(())
    }

    /// Evaluates a node, or answers the event at it.
    pub fn step(
        &mut self,
        alloc: Global,
        channels: &[Channel],
        state: &Value,
        got: &[Bits],
        done: u32,
        node: &Node,
    ) -> Result<Option<Event>, AllocError>
        requires channels { AreChannels channels.now }
        requires site { self.old.site < 2 ^ 32 }
        requires taken { self.old.taken + 1 < 2 ^ 64 }
        ensures step { IfOk result (λ step. (proc : Proc) (left : List Node) → StandsFor channels.now proc state.now got.now done self.old (node.now ∷ left) →
            MatchOption step (StandsFor channels.now proc state.now got.now done self.new left) (λ event. event ≡ next_event (activation channels.now proc) state.now got.now done)) }
        ensures site { self.new.site ≤ self.old.site + length (sites_by (role_of node.now) []) }
        ensures taken { self.new.taken ≤ self.old.taken + 1 }
        ensures waits { IfOk result (StaysIf self.old self.new) }
    {
        let nothing_there = nothing(alloc);
        let scope = Scope {
            state,
            values: self.values.as_slice(),
            nothing: &nothing_there,
        };
        match node.role() {
            Role::Pure => {
                let value = pure_value(alloc, &scope, node)?;
                self.add(value)?;
                Ok(None)
            }
            Role::Receive(predicate, channel) => {
                if !is_on(&scope, predicate) {
                    let value = received(alloc, channels, channel, None)?;
                    self.add_site(value)?;
                    return Ok(None);
                }
                if done as usize <= self.site {
                    return Ok(Some(Event::Recv(self.site as u32)));
                }
                let value = received(alloc, channels, channel, word_at(got, self.taken))?;
                self.taken += 1;
                self.add_site(value)?;
                Ok(None)
            }
            Role::Send(predicate, _) => {
                if asks(is_on(&scope, predicate), done, self.site) {
                    return Ok(Some(Event::Send(self.site as u32, sent_by(&scope, node))));
                }
                self.add_site(nothing(alloc))?;
                Ok(None)
            }
        }
    }

    /// The end of an activation, past all nodes.
    pub fn end(&self, alloc: Global, state: &Value, next: Operand) -> Result<Event, AllocError>
        ensures { IfOk result (λ event. event ≡ End (operand_value state.now self.now.values.items next)) }
    {
        let nothing_there = nothing(alloc);
        let scope = Scope {
            state,
            values: self.values.as_slice(),
            nothing: &nothing_there,
        };
        Ok(Event::End(scope.value_of(next).copy(alloc)?))
    }
}

/// Whether the site of this index is on, and its event not done.
fn asks(on: bool, done: u32, site: usize) -> bool
    ensures { result ≡ (on && nat_le done site) }
{
    on && done as usize <= site
}

/// The word at an index.
fn word_at(words: &[Bits], place: usize) -> Option<Bits>
    ensures { word_or result ≡ first_word (drop place words.now) }
{
    words.get(place).copied()
}
