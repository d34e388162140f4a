//! Numbers, types, constants and operands.

ghost use Rattle.std.specs.Prelude.{◌≡◌, ◌++◌, [], map, decimal, OnOk, string_bytes, slice_get};
ghost use Rattle.xb_value.specs.Text.{listed};
ghost use Rattle.ir_text.specs.Printer.Parts.{sizes_text, type_text, constant_text, node_name, operand_text, operands_text};

use ir_tree::{Constant, IrType, Node, Operand};
use itoa::Buffer;
use std::alloc::AllocError;

/// Appends a number in decimal.
pub fn push_number(text: &mut String, number: u128) -> Result<(), AllocError>
    ensures { OnOk result (string_bytes text.new ≡ string_bytes text.old ++ decimal number) }
{
    let mut buffer = Buffer::new();
    text.push_str(buffer.format(number))
}

/// Appends the sizes of arrays, the innermost first.
fn push_sizes(text: &mut String, sizes: &[u128]) -> Result<(), AllocError>
    ensures { OnOk result (string_bytes text.new ≡ string_bytes text.old ++ sizes_text sizes.now) }
{
    'sizes: for i in 0..sizes.len() {
        text.push_str("[")?;
        push_number(text, sizes[sizes.len() - 1 - i])?;
        text.push_str("]")?;
    }
    Ok(())
}

/// Appends a type.
#[cycle(types)]
pub fn push_type(text: &mut String, ty: &IrType) -> Result<(), AllocError>
    ensures { OnOk result (string_bytes text.new ≡ string_bytes text.old ++ type_text ty.now) }
{
    match ty {
        IrType::Bits(width, sizes) => {
            text.push_str("bits[")?;
            push_number(text, *width)?;
            text.push_str("]")?;
            push_sizes(text, sizes.as_slice())
        }
        IrType::Token(sizes) => {
            text.push_str("token")?;
            push_sizes(text, sizes.as_slice())
        }
        IrType::Tuple(parts, sizes) => {
            text.push_str("(")?;
            push_types(text, parts.as_slice())?;
            text.push_str(")")?;
            push_sizes(text, sizes.as_slice())
        }
    }
}

/// Appends types, with `, ` between them.
#[cycle(types)]
fn push_types(text: &mut String, parts: &[IrType]) -> Result<(), AllocError>
    ensures { OnOk result (string_bytes text.new ≡ string_bytes text.old ++ listed [] (map type_text parts.now)) }
{
    let mut separator = "";
    'parts: for part in parts {
        text.push_str(separator)?;
        push_type(text, part)?;
        separator = ", ";
    }
    Ok(())
}

/// Appends a constant.
#[cycle(constants)]
pub fn push_constant(text: &mut String, constant: &Constant) -> Result<(), AllocError>
    ensures { OnOk result (string_bytes text.new ≡ string_bytes text.old ++ constant_text constant.now) }
{
    match constant {
        Constant::Number(number) => push_number(text, *number),
        Constant::Tuple(parts) => {
            text.push_str("(")?;
            push_constants(text, parts.as_slice())?;
            text.push_str(")")
        }
        Constant::Array(parts) => {
            text.push_str("[")?;
            push_constants(text, parts.as_slice())?;
            text.push_str("]")
        }
    }
}

/// Appends constants, with `, ` between them.
#[cycle(constants)]
fn push_constants(text: &mut String, parts: &[Constant]) -> Result<(), AllocError>
    ensures { OnOk result (string_bytes text.new ≡ string_bytes text.old ++ listed [] (map constant_text parts.now)) }
{
    let mut separator = "";
    'parts: for part in parts {
        text.push_str(separator)?;
        push_constant(text, part)?;
        separator = ", ";
    }
    Ok(())
}

/// Appends the name of a node: its operation, a dot, and its id.
pub fn push_name(text: &mut String, node: &Node) -> Result<(), AllocError>
    ensures { OnOk result (string_bytes text.new ≡ string_bytes text.old ++ node_name node.now) }
{
    text.push_str(node.op.name())?;
    text.push_str(".")?;
    push_number(text, u128::from(node.id))
}

/// Appends an operand of a proc of these nodes.
pub fn push_operand(text: &mut String, nodes: &[Node], operand: Operand) -> Result<(), AllocError>
    ensures { OnOk result (string_bytes text.new ≡ string_bytes text.old ++ operand_text nodes.now operand) }
{
    match operand {
        Operand::State => text.push_str("st"),
        Operand::Node(place) => match nodes.get(place as usize) {
            None => Ok(()),
            Some(node) => push_name(text, node),
        },
    }
}

/// Appends operands, with `, ` between them.
pub fn push_operands(
    text: &mut String,
    nodes: &[Node],
    operands: &[Operand],
) -> Result<(), AllocError>
    ensures { OnOk result (string_bytes text.new ≡ string_bytes text.old ++ listed [] (map (operand_text nodes.now) operands.now)) }
{
    let mut separator = "";
    'operands: for operand in operands {
        text.push_str(separator)?;
        push_operand(text, nodes, *operand)?;
        separator = ", ";
    }
    Ok(())
}

/// Appends operands, each with `, ` behind it.
pub fn push_before(
    text: &mut String,
    nodes: &[Node],
    operands: &[Operand],
) -> Result<(), AllocError>
    ensures { OnOk result (string_bytes text.new ≡ string_bytes text.old ++ operands_text nodes.now operands.now) }
{
    'operands: for operand in operands {
        push_operand(text, nodes, *operand)?;
        text.push_str(", ")?;
    }
    Ok(())
}
