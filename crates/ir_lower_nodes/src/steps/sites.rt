//! The nodes of sites, and what they bind.

ghost use Rattle.std.specs.Prelude.{◌≡◌, List, map, [], ◌∷◌, get_or, true, IfOk, OnOk, Some};
ghost use Rattle.xb_value.specs.declared.ty.Ty.{Ty};
ghost use Rattle.ir_tree.specs.declared.ir_type.IrType.{Token, Tuple};
ghost use Rattle.ir_tree.specs.NodeValues.{operand_value};
ghost use Rattle.ir_rebuild.specs.Putting.Types.{ir_type_of};
ghost use Rattle.ir_rebuild.specs.Putting.Given.{IsNodeType, IsBuilt, HasType, OperandsHaveTypes, PutsNode};
ghost use Rattle.dslx_core.specs.Designs.{token, with_token};
ghost use Rattle.dslx_core.specs.Types.Designs.{token_type};
ghost use Rattle.dslx_core.specs.Types.Typing.{binds_types};
ghost use Rattle.ir_lower_nodes.specs.Patterns.Shapes.{parts_of};
ghost use Rattle.ir_lower_nodes.specs.Patterns.Given.{AddsOperands, StandBehind};
ghost use Rattle.ir_lower_nodes.specs.Steps.StepTypes.{pair_type};
ghost use Rattle.ir_lower_nodes.specs.Steps.Steps.{receive_node, send_node};

use crate::patterns::bind;
use delay_model::Op;
use dslx_core::Shape;
use ir_rebuild::putting::{Nodes, ir_type};
use ir_tree::{Attributes, IrType, Operand};
use std::alloc::{AllocError, Global};
use xb_value::{Seq, Ty};

/// The channel of a member.
pub(crate) fn channel_of(channels: &[u32], member: u64) -> u32
    ensures { result ≡ get_or channels.now member 0 }
{
    match channels.get(member as usize) {
        Some(channel) => *channel,
        None => 0,
    }
}

/// What a receive of words of this type gives: a token and a word.
fn received_type(alloc: Global, word: &Ty) -> Result<IrType, AllocError>
    ensures { IfOk result (λ t. t ≡ Tuple (Token [] ∷ ir_type_of word.now ∷ []) []) }
{
    let mut types = Vec::new(alloc);
    types.push(IrType::Token(Seq::new(alloc)))?;
    types.push(ir_type(alloc, word)?)?;
    Ok(IrType::Tuple(Seq::from_vec(types), Seq::new(alloc)))
}

/// A receive behind a token, on under a predicate.
pub(crate) fn put_receive(
    alloc: Global,
    nodes: &mut Nodes,
    token: Operand,
    predicate: Option<Operand>,
    channel: u32,
    word: &Ty,
) -> Result<Operand, AllocError>
    ensures { IfOk result (λ o. PutsNode nodes.old nodes.new (receive_node (ir_type_of word.now) token predicate channel) o) }
{
    let ty = received_type(alloc, word)?;
    nodes.put(
        ty,
        Op::Receive,
        &[token],
        Attributes::Channel(predicate, channel),
    )
}

/// A send behind a token, on under a predicate.
pub(crate) fn put_send(
    alloc: Global,
    nodes: &mut Nodes,
    token: Operand,
    predicate: Option<Operand>,
    channel: u32,
    word: Operand,
) -> Result<Operand, AllocError>
    ensures { IfOk result (λ o. PutsNode nodes.old nodes.new (send_node token word predicate channel) o) }
{
    nodes.put(
        IrType::Token(Seq::new(alloc)),
        Op::Send,
        &[token, word],
        Attributes::Channel(predicate, channel),
    )
}

/// Binds the parts of a token.
pub(crate) fn bind_token(
    nodes: &mut Nodes,
    shape: &Shape,
    slots: &mut Vec<Operand>,
) -> Result<(), AllocError>
    ensures kept { OnOk result (AddsOperands slots.old.items slots.new.items) }
    ensures binds { OnOk result ((ts us : List Ty) → IsBuilt nodes.old → OperandsHaveTypes nodes.old slots.old.items (map ir_type_of ts) → binds_types true shape.now token_type ts ≡ Some us →
        StandBehind nodes.old nodes.new slots.old.items slots.new.items us (λ s values. parts_of shape.now token)) }
{
    let unit = nodes.unit()?;
    bind(nodes, shape, unit, slots)
}

/// Binds the parts of a token and a value.
pub(crate) fn bind_pair(
    nodes: &mut Nodes,
    shape: &Shape,
    value: Operand,
    slots: &mut Vec<Operand>,
) -> Result<(), AllocError>
    ensures kept { OnOk result (AddsOperands slots.old.items slots.new.items) }
    ensures binds { OnOk result ((t : Ty) (ts us : List Ty) → IsBuilt nodes.old → HasType nodes.old value (ir_type_of t) → OperandsHaveTypes nodes.old slots.old.items (map ir_type_of ts) → IsNodeType (ir_type_of (pair_type t)) → binds_types true shape.now (pair_type t) ts ≡ Some us →
        StandBehind nodes.old nodes.new slots.old.items slots.new.items us (λ s values. parts_of shape.now (with_token (operand_value s values value)))) }
{
    let unit = nodes.unit()?;
    let pair = nodes.tuple(&[unit, value])?;
    bind(nodes, shape, pair, slots)
}
