//! What stands for a node.

ghost use Rattle.std.specs.Prelude.{◌≡◌, ℕ, ◌+◌, ◌<◌, ◌≤◌, max, nat_lt, true, List, length, None, IfOk, IfSome, MatchOption};
ghost use Rattle.ir_tree.specs.declared.ir_type.IrType.{IrType};
ghost use Rattle.ir_tree.specs.declared.node.Node.{Node};
ghost use Rattle.ir_rebuild.specs.Built.{AreBuilt, FitsAt, is_plain_op};
ghost use Rattle.pass_narrow.specs.declared.rewritten_node.RewrittenNode.TheVariants as rewritten_node;
ghost use Rattle.pass_narrow.specs.declared.node_pattern.NodeReplacement.TheVariants as right;
ghost use Rattle.pass_narrow.specs.Numbers.{number};
ghost use Rattle.pass_narrow.specs.Narrowing.{IsRewrittenNode, Narrows};
ghost use Rattle.pass_narrow.specs.Nodes.{zero_node, extension_node};
ghost use Rattle.pass_narrow.specs.Inner.Meant.{GivesNumber, IsReplacement, IsOperation, IsComparison, IsSliceOf, SaysOfSlice, IsInnermost, IsWhole, HasLonger};
ghost use Rattle.ir_rebuild.specs.Normal.Normal.{AreNormal};
ghost use Rattle.pass_narrow.specs.KeepsNormal.{HasNoPattern, KeepsNormal};
ghost use Rattle.pass_narrow.specs.Replacements.{slice_of};
ghost use Rattle.pass_narrow.specs.Slices.{inner_part, depth, inner_of, slice_itself, whole, last_part, last_slice, narrowed_slice};
ghost use Rattle.pass_narrow.specs.Narrowings.{narrowing_of, made_of, IsNarrowing, IsMadeLonger};
ghost use Rattle.pass_narrow.specs.Inner.Bare.{IsBare, AreBare, IsLonger, IsNormalSide, row_test};

use crate::node_pattern::{NodeReplacement, replacement_for, slice_of};
use crate::nodes::{comparison, extension, operation, slice, zero};
use crate::operands::{bits_width, extended, width_of};
use delay_model::{Binary, Compare, Extend};
use ir_rebuild::append;
use ir_tree::{IrType, Node, Operand};
use std::alloc::{AllocError, Global};

/// What stands for a node.
#[derive(Drop)]
pub enum RewrittenNode {
    /// An operand.
    Operand(Operand),
    /// A node that is to be appended.
    Node(Node),
    /// A node that is to be appended, and an extension of it by zeros to so many bits.
    Extended(Node, u128),
}

/// `width` bits of an operand from a place on, with zeros before them up to `total` bits.
#[derive(Clone, Copy)]
pub struct LongSlice {
    pub operand: Operand,
    pub start: u128,
    pub width: u128,
    pub total: u128,
}

/// What stands for a node that would be appended to these. Of what it needs, what stands for a node's operands is appended, each
/// a plain node.
pub fn narrowed(
    alloc: Global,
    state: &IrType,
    nodes: &mut Vec<Node>,
    node: Node,
) -> Result<RewrittenNode, AllocError>
    requires built { AreBuilt state.now nodes.old.items }
    requires fits_at { FitsAt state.now nodes.old.items (length nodes.old.items) node }
    requires plain { is_plain_op node.op ≡ true }
    ensures narrows { IfOk result (λ x. Narrows state.now nodes.old.items nodes.new.items node x) }
    ensures normal { IfOk result (λ x. KeepsNormal state.now nodes.old.items nodes.new.items node x) }
    ensures few { IfOk result (λ _. length nodes.new.items ≤ length nodes.old.items + 2) }
    ensures is { IfOk result (λ x. IsNarrowing nodes.new.items x (narrowing_of state.now nodes.old.items node)) }
{
    match replacement_for(state, nodes.as_slice(), &node) {
        None => Ok(RewrittenNode::Node(node)),
        Some(right) => made(alloc, state, nodes, right, bits_width(&node.ty)),
    }
}

/// What the replacement makes for a node of `total` bits.
fn made(
    alloc: Global,
    state: &IrType,
    nodes: &mut Vec<Node>,
    right: NodeReplacement,
    total: u128,
) -> Result<RewrittenNode, AllocError>
    requires { AreBuilt state.now nodes.old.items }
    ensures narrows { IfOk result (λ x. (n : Node) → IsReplacement state.now nodes.old.items n total right → Narrows state.now nodes.old.items nodes.new.items n x) }
    ensures normal { IfOk result (λ x. (n : Node) → IsReplacement state.now nodes.old.items n total right → (AreNormal state.now nodes.old.items → IsNormalSide state.now nodes.old.items total right) → KeepsNormal state.now nodes.old.items nodes.new.items n x) }
    ensures few { IfOk result (λ _. length nodes.new.items ≤ length nodes.old.items + 2) }
    ensures made { IfOk result (λ x. IsNarrowing nodes.new.items x (made_of state.now nodes.old.items total right)) }
{
    match right {
        NodeReplacement::Operand(operand) => Ok(RewrittenNode::Operand(operand)),
        NodeReplacement::Zero => zero_of(alloc, total),
        NodeReplacement::Extension(kind, a) => extension_of(alloc, kind, a, total),
        NodeReplacement::Slice(operand, start) => {
            slice_within(alloc, state, nodes.as_slice(), operand, start, total, total)
        }
        NodeReplacement::LongerSlice(operand, start, width) => {
            slice_within(alloc, state, nodes.as_slice(), operand, start, width, total)
        }
        NodeReplacement::Operation(op, a, b, least) => {
            operation_of(alloc, state, nodes, op, a, b, least, total)
        }
        NodeReplacement::Comparison(op, a, b, least) => {
            comparison_of(alloc, state, nodes, op, a, b, least)
        }
    }
}

fn zero_of(alloc: Global, total: u128) -> Result<RewrittenNode, AllocError>
    ensures { IfOk result (λ x. x ≡ rewritten_node.Node (zero_node total)) }
{
    Ok(RewrittenNode::Node(zero(alloc, total)?))
}

fn extension_of(
    alloc: Global,
    kind: Extend,
    a: Operand,
    total: u128,
) -> Result<RewrittenNode, AllocError>
    ensures { IfOk result (λ x. x ≡ rewritten_node.Node (extension_node kind a total)) }
{
    Ok(RewrittenNode::Node(extension(alloc, kind, a, total)?))
}

/// The operation on the operands, made longer.
fn operation_of(
    alloc: Global,
    state: &IrType,
    nodes: &mut Vec<Node>,
    op: Binary,
    a: Operand,
    b: Operand,
    least: u128,
    total: u128,
) -> Result<RewrittenNode, AllocError>
    requires { AreBuilt state.now nodes.old.items }
    ensures narrows { IfOk result (λ x. (n : Node) → IsOperation state.now nodes.old.items n op a b least total → Narrows state.now nodes.old.items nodes.new.items n x) }
    ensures normal { IfOk result (λ x. (n : Node) → IsOperation state.now nodes.old.items n op a b least total → AreBare state.now nodes.old.items a b (row_test op least) → KeepsNormal state.now nodes.old.items nodes.new.items n x) }
    ensures few { IfOk result (λ _. length nodes.new.items ≤ length nodes.old.items + 2) }
    ensures made { IfOk result (λ x. IsNarrowing nodes.new.items x (made_of state.now nodes.old.items total (right.Operation op a b least))) }
{
    let a = longer(alloc, state, nodes, a, least)?;
    let b = longer(alloc, state, nodes, b, least)?;
    Ok(RewrittenNode::Extended(operation(alloc, op, a, b, least)?, total))
}

/// The comparison of the operands, made longer.
fn comparison_of(
    alloc: Global,
    state: &IrType,
    nodes: &mut Vec<Node>,
    op: Compare,
    a: Operand,
    b: Operand,
    least: u128,
) -> Result<RewrittenNode, AllocError>
    requires { AreBuilt state.now nodes.old.items }
    ensures narrows { IfOk result (λ x. (n : Node) → IsComparison state.now nodes.old.items n op a b least → Narrows state.now nodes.old.items nodes.new.items n x) }
    ensures normal { IfOk result (λ x. (n : Node) → IsComparison state.now nodes.old.items n op a b least → AreBare state.now nodes.old.items a b (λ p q. nat_lt (max p q) least) → KeepsNormal state.now nodes.old.items nodes.new.items n x) }
    ensures few { IfOk result (λ _. length nodes.new.items ≤ length nodes.old.items + 2) }
    ensures made { (total : ℕ) → IfOk result (λ x. IsNarrowing nodes.new.items x (made_of state.now nodes.old.items total (right.Comparison op a b least))) }
{
    let a = longer(alloc, state, nodes, a, least)?;
    let b = longer(alloc, state, nodes, b, least)?;
    Ok(RewrittenNode::Node(comparison(alloc, op, a, b)?))
}

/// The operand with zeros before it up to so many bits: itself where it has as many.
fn longer(
    alloc: Global,
    state: &IrType,
    nodes: &mut Vec<Node>,
    operand: Operand,
    width: u128,
) -> Result<Operand, AllocError>
    ensures gives { IfOk result (λ o. AreBuilt state.now nodes.old.items → HasLonger state.now nodes.old.items operand width → GivesNumber state.now nodes.old.items nodes.new.items o width (λ s values. number s values operand)) }
    ensures normal { IfOk result (λ o. AreBuilt state.now nodes.old.items → AreNormal state.now nodes.old.items → HasLonger state.now nodes.old.items operand width → IsBare state.now nodes.old.items operand → IsLonger state.now nodes.new.items operand o) }
    ensures few { IfOk result (λ _. length nodes.new.items ≤ length nodes.old.items + 1) }
    ensures made { IfOk result (λ o. IsMadeLonger state.now nodes.old.items nodes.new.items operand width o) }
{
    if width_of(state, nodes.as_slice(), operand) == width {
        return Ok(operand);
    }
    let node = extension(alloc, Extend::Zero, operand, width)?;
    append(nodes, node)
}

/// What stands for a slice.
fn slice_within(
    alloc: Global,
    state: &IrType,
    nodes: &[Node],
    operand: Operand,
    start: u128,
    width: u128,
    total: u128,
) -> Result<RewrittenNode, AllocError>
    requires { AreBuilt state.now nodes.now }
    ensures stands { IfOk result (λ x. (n : Node) → IsSliceOf state.now nodes.now n (record { operand = operand; start = start; width = width; total = total }) → IsRewrittenNode state.now nodes.now n x) }
    ensures normal { IfOk result (λ x. (n : Node) → IsSliceOf state.now nodes.now n (record { operand = operand; start = start; width = width; total = total }) → AreNormal state.now nodes.now → HasNoPattern state.now nodes.now n x) }
    ensures is { IfOk result (λ x. x ≡ narrowed_slice state.now nodes.now (record { operand = operand; start = start; width = width; total = total })) }
{
    let part = LongSlice {
        operand,
        start,
        width,
        total,
    };
    narrowed_slice(alloc, state, nodes, part)
}

/// What stands for a slice: it goes to what its operand is made of as long as it can.
fn narrowed_slice(
    alloc: Global,
    state: &IrType,
    nodes: &[Node],
    part: LongSlice,
) -> Result<RewrittenNode, AllocError>
    requires { AreBuilt state.now nodes.now }
    ensures stands { IfOk result (λ x. (n : Node) → IsSliceOf state.now nodes.now n part → IsRewrittenNode state.now nodes.now n x) }
    ensures normal { IfOk result (λ x. (n : Node) → IsSliceOf state.now nodes.now n part → AreNormal state.now nodes.now → HasNoPattern state.now nodes.now n x) }
    ensures is { IfOk result (λ x. x ≡ narrowed_slice state.now nodes.now part) }
{
    let mut within = part;
    'parts: while let Some(inner) = inner_slice(state, nodes, within) {
        within = inner;
    }
    last_slice(alloc, state, nodes, within)
}

/// The slice inside a slice. Its operand stands before.
fn inner_slice(state: &IrType, nodes: &[Node], part: LongSlice) -> Option<LongSlice>
    requires { AreBuilt state.now nodes.now }
    ensures before { IfSome result (λ inner. depth inner.operand < depth part.operand) }
    ensures within { IfSome result (λ inner. (n : Node) → IsSliceOf state.now nodes.now n part → IsSliceOf state.now nodes.now n inner) }
    ensures last { MatchOption result (IsInnermost state.now nodes.now part) (λ _. Unit {0}) }
    ensures is { result ≡ inner_of state.now nodes.now part }
{
    match slice_of(state, nodes, part.start, part.width, part.operand) {
        None => None,
        Some(right) => inner_part(right, part),
    }
}

/// The slice that a replacement is.
fn inner_part(right: NodeReplacement, part: LongSlice) -> Option<LongSlice>
    ensures { result ≡ inner_part right part }
{
    match right {
        NodeReplacement::Slice(operand, start) => Some(LongSlice {
            operand,
            start,
            width: part.width,
            total: part.total,
        }),
        NodeReplacement::LongerSlice(operand, start, width) => Some(LongSlice {
            operand,
            start,
            width,
            total: part.total,
        }),
        _ => None,
    }
}

/// What stands for a slice with none inside.
fn last_slice(
    alloc: Global,
    state: &IrType,
    nodes: &[Node],
    part: LongSlice,
) -> Result<RewrittenNode, AllocError>
    requires { AreBuilt state.now nodes.now }
    ensures stands { IfOk result (λ x. (n : Node) → IsSliceOf state.now nodes.now n part → IsRewrittenNode state.now nodes.now n x) }
    ensures normal { IfOk result (λ x. (n : Node) → IsInnermost state.now nodes.now part → IsSliceOf state.now nodes.now n part → AreNormal state.now nodes.now → HasNoPattern state.now nodes.now n x) }
    ensures is { IfOk result (λ x. x ≡ last_slice state.now nodes.now part) }
{
    match slice_of(state, nodes, part.start, part.width, part.operand) {
        None => slice_itself(alloc, part),
        Some(right) => last_part(alloc, nodes, right, part),
    }
}

/// What stands for a slice that is an operand, or nothing but zeros.
fn last_part(
    alloc: Global,
    nodes: &[Node],
    right: NodeReplacement,
    part: LongSlice,
) -> Result<RewrittenNode, AllocError>
    ensures stands { IfOk result (λ x. (state : IrType) (n : Node) → AreBuilt state nodes.now → IsSliceOf state nodes.now n part → SaysOfSlice state nodes.now n part right → IsRewrittenNode state nodes.now n x) }
    ensures normal { IfOk result (λ x. (state : IrType) (n : Node) → AreBuilt state nodes.now → IsSliceOf state nodes.now n part → SaysOfSlice state nodes.now n part right → inner_part right part ≡ None → AreNormal state nodes.now → HasNoPattern state nodes.now n x) }
    ensures is { IfOk result (λ x. x ≡ last_part nodes.now part right) }
{
    match right {
        NodeReplacement::Operand(_) => whole(alloc, nodes, part.operand, part.width, part.total),
        NodeReplacement::Zero => zero_of(alloc, part.total),
        NodeReplacement::Extension(_, _) => slice_itself(alloc, part),
        NodeReplacement::Slice(_, _) => slice_itself(alloc, part),
        NodeReplacement::LongerSlice(_, _, _) => slice_itself(alloc, part),
        NodeReplacement::Operation(_, _, _, _) => slice_itself(alloc, part),
        NodeReplacement::Comparison(_, _, _, _) => slice_itself(alloc, part),
    }
}

/// The slice, with zeros before it.
fn slice_itself(alloc: Global, part: LongSlice) -> Result<RewrittenNode, AllocError>
    ensures stands { IfOk result (λ x. (state : IrType) (nodes : List Node) (n : Node) → IsSliceOf state nodes n part → IsRewrittenNode state nodes n x) }
    ensures normal { IfOk result (λ x. (state : IrType) (nodes : List Node) (n : Node) → AreBuilt state nodes → IsSliceOf state nodes n part → slice_of state nodes part.start part.width part.operand ≡ None → HasNoPattern state nodes n x) }
    ensures is { IfOk result (λ x. x ≡ slice_itself part) }
{
    let node = slice(alloc, part.operand, part.start, part.width)?;
    if part.width == part.total {
        Ok(RewrittenNode::Node(node))
    } else {
        Ok(RewrittenNode::Extended(node, part.total))
    }
}

/// An operand of `width` bits with zeros before it up to `total` bits, in one extension.
fn whole(
    alloc: Global,
    nodes: &[Node],
    operand: Operand,
    width: u128,
    total: u128,
) -> Result<RewrittenNode, AllocError>
    ensures stands { IfOk result (λ x. (state : IrType) (n : Node) → AreBuilt state nodes.now → IsWhole state nodes.now n operand width total → IsRewrittenNode state nodes.now n x) }
    ensures normal { IfOk result (λ x. (state : IrType) (n : Node) → AreBuilt state nodes.now → IsWhole state nodes.now n operand width total → AreNormal state nodes.now → HasNoPattern state nodes.now n x) }
    ensures is { IfOk result (λ x. x ≡ whole nodes.now operand width total) }
{
    if width == total {
        return Ok(RewrittenNode::Operand(operand));
    }
    match extended(nodes, Extend::Zero, operand) {
        Some(a) => extension_of(alloc, Extend::Zero, a, total),
        None => extension_of(alloc, Extend::Zero, operand, total),
    }
}
