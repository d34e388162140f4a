//! Lines.

ghost use Rattle.std.specs.Prelude.{◌≡◌, ◌++◌, [], map, codes, decimal, OnOk, string_bytes, slice_get};
ghost use Rattle.xb_value.specs.Text.{listed};
ghost use Rattle.ir_text.specs.Printer.Parts.{operand_text};
ghost use Rattle.ir_text.specs.Printer.Lines.{depth_text, inner_text, ends_text, channel_start, channel_id, channel_kind, channel_text, node_start, node_call, node_end, default_text, predicate_text, channel_name, attributes_text, node_text};

use crate::printer::part::{
    push_before, push_constant, push_name, push_number, push_operand, push_operands, push_type,
};
use ir_tree::{Attributes, Channel, Ends, Node, Operand};
use std::alloc::AllocError;

fn push_inner(text: &mut String, depth: u128) -> Result<(), AllocError>
    ensures { OnOk result (string_bytes text.new ≡ string_bytes text.old ++ inner_text depth) }
{
    text.push_str("inner, ")?;
    push_depth(text, depth)
}

fn push_depth(text: &mut String, depth: u128) -> Result<(), AllocError>
    ensures { OnOk result (string_bytes text.new ≡ string_bytes text.old ++ depth_text depth) }
{
    text.push_str("depth=")?;
    push_number(text, depth)
}

fn push_ends(text: &mut String, ends: Ends) -> Result<(), AllocError>
    ensures { OnOk result (string_bytes text.new ≡ string_bytes text.old ++ ends_text ends) }
{
    match ends {
        Ends::Input => text.push_str("input"),
        Ends::Output => text.push_str("output"),
        Ends::Inner(depth) => push_inner(text, depth),
    }
}

/// Appends `chan NAME(TYPE`.
#[tactic(auto, unfolding(crate::specs::Printer::Lines::channel_start))]
fn push_channel_start(text: &mut String, channel: &Channel) -> Result<(), AllocError>
    ensures { OnOk result (string_bytes text.new ≡ string_bytes text.old ++ channel_start channel.now) }
{
    text.push_str("chan ")?;
    text.push_str(channel.name.as_str())?;
    text.push_str("(")?;
    push_type(text, &channel.ty)
}

/// Appends `, id=N`.
#[tactic(auto, unfolding(crate::specs::Printer::Lines::channel_id))]
fn push_channel_id(text: &mut String, channel: &Channel) -> Result<(), AllocError>
    ensures { OnOk result (string_bytes text.new ≡ string_bytes text.old ++ channel_id channel.now) }
{
    text.push_str(", id=")?;
    push_number(text, u128::from(channel.id))
}

/// Appends `, kind=..)`.
#[tactic(auto, unfolding(crate::specs::Printer::Lines::channel_kind))]
fn push_channel_kind(text: &mut String, channel: &Channel) -> Result<(), AllocError>
    ensures { OnOk result (string_bytes text.new ≡ string_bytes text.old ++ channel_kind channel.now) }
{
    text.push_str(", kind=")?;
    push_ends(text, channel.ends)?;
    text.push_str(")\n")
}

/// Appends the line of a channel.
pub fn push_channel(text: &mut String, channel: &Channel) -> Result<(), AllocError>
    ensures { OnOk result (string_bytes text.new ≡ string_bytes text.old ++ channel_text channel.now) }
{
    push_channel_start(text, channel)?;
    push_channel_id(text, channel)?;
    push_channel_kind(text, channel)
}

fn push_default(
    text: &mut String,
    nodes: &[Node],
    default: Option<Operand>,
) -> Result<(), AllocError>
    ensures { OnOk result (string_bytes text.new ≡ string_bytes text.old ++ default_text nodes.now default) }
{
    match default {
        None => Ok(()),
        Some(operand) => {
            text.push_str("default=")?;
            push_operand(text, nodes, operand)?;
            text.push_str(", ")
        }
    }
}

fn push_predicate(
    text: &mut String,
    nodes: &[Node],
    predicate: Option<Operand>,
) -> Result<(), AllocError>
    ensures { OnOk result (string_bytes text.new ≡ string_bytes text.old ++ predicate_text nodes.now predicate) }
{
    match predicate {
        None => Ok(()),
        Some(operand) => {
            text.push_str("predicate=")?;
            push_operand(text, nodes, operand)?;
            text.push_str(", ")
        }
    }
}

fn push_channel_name(
    text: &mut String,
    channels: &[Channel],
    channel: u32,
) -> Result<(), AllocError>
    ensures { OnOk result (string_bytes text.new ≡ string_bytes text.old ++ channel_name (slice_get channels.now channel)) }
{
    match channels.get(channel as usize) {
        None => Ok(()),
        Some(channel) => text.push_str(channel.name.as_str()),
    }
}

/// Appends a number under its name.
fn push_named(text: &mut String, name: &str, number: u128) -> Result<(), AllocError>
    ensures { OnOk result (string_bytes text.new ≡ string_bytes text.old ++ (name.now ++ (decimal number ++ codes ", "))) }
{
    text.push_str(name)?;
    push_number(text, number)?;
    text.push_str(", ")
}

fn push_cases(
    text: &mut String,
    nodes: &[Node],
    cases: &[Operand],
    default: Option<Operand>,
) -> Result<(), AllocError>
    ensures { OnOk result (string_bytes text.new ≡ string_bytes text.old ++ (codes "cases=[" ++ (listed [] (map (operand_text nodes.now) cases.now) ++ (codes "], " ++ default_text nodes.now default)))) }
{
    text.push_str("cases=[")?;
    push_operands(text, nodes, cases)?;
    text.push_str("], ")?;
    push_default(text, nodes, default)
}

/// Appends attributes, each with `, ` behind it.
fn push_attributes(
    text: &mut String,
    channels: &[Channel],
    nodes: &[Node],
    attributes: &Attributes,
) -> Result<(), AllocError>
    ensures { OnOk result (string_bytes text.new ≡ string_bytes text.old ++ attributes_text channels.now nodes.now attributes.now) }
{
    match attributes {
        Attributes::None => Ok(()),
        Attributes::StartAndWidth(start, width) => {
            push_named(text, "start=", *start)?;
            push_named(text, "width=", *width)
        }
        Attributes::Width(width) => push_named(text, "width=", *width),
        Attributes::NewBitCount(width) => push_named(text, "new_bit_count=", *width),
        Attributes::Cases(cases, default) => { push_cases(text, nodes, cases.as_slice(), *default) }
        Attributes::Index(index) => push_named(text, "index=", *index),
        Attributes::Indices(index) => {
            text.push_str("indices=[")?;
            push_operand(text, nodes, *index)?;
            text.push_str("], ")
        }
        Attributes::Value(constant) => {
            text.push_str("value=")?;
            push_constant(text, constant)?;
            text.push_str(", ")
        }
        Attributes::Channel(predicate, channel) => {
            push_predicate(text, nodes, *predicate)?;
            text.push_str("channel=")?;
            push_channel_name(text, channels, *channel)?;
            text.push_str(", ")
        }
    }
}

/// Appends `  OP.ID: TYPE`.
#[tactic(auto, unfolding(crate::specs::Printer::Lines::node_start))]
fn push_node_start(text: &mut String, node: &Node) -> Result<(), AllocError>
    ensures { OnOk result (string_bytes text.new ≡ string_bytes text.old ++ node_start node.now) }
{
    text.push_str("  ")?;
    push_name(text, node)?;
    text.push_str(": ")?;
    push_type(text, &node.ty)
}

/// Appends ` = OP(`.
#[tactic(auto, unfolding(crate::specs::Printer::Lines::node_call))]
fn push_node_call(text: &mut String, node: &Node) -> Result<(), AllocError>
    ensures { OnOk result (string_bytes text.new ≡ string_bytes text.old ++ node_call node.now) }
{
    text.push_str(" = ")?;
    text.push_str(node.op.name())?;
    text.push_str("(")
}

/// Appends `id=ID)`.
#[tactic(auto, unfolding(crate::specs::Printer::Lines::node_end))]
fn push_node_end(text: &mut String, node: &Node) -> Result<(), AllocError>
    ensures { OnOk result (string_bytes text.new ≡ string_bytes text.old ++ node_end node.now) }
{
    text.push_str("id=")?;
    push_number(text, u128::from(node.id))?;
    text.push_str(")\n")
}

/// Appends the line of a node.
pub fn push_node(
    text: &mut String,
    channels: &[Channel],
    nodes: &[Node],
    node: &Node,
) -> Result<(), AllocError>
    ensures { OnOk result (string_bytes text.new ≡ string_bytes text.old ++ node_text channels.now nodes.now node.now) }
{
    push_node_start(text, node)?;
    push_node_call(text, node)?;
    push_before(text, nodes, node.operands.as_slice())?;
    push_attributes(text, channels, nodes, &node.attributes)?;
    push_node_end(text, node)
}
