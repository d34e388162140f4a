//! The numbers of a package are in the range of their types.
//!
//! Laws speak of all packages, whose numbers have no bounds. Going through a package shows that those in it have.

ghost use Rattle.std.specs.Prelude.{◌≡◌, true};
ghost use Rattle.std.specs.List.{list_all};
ghost use Rattle.ir_text.specs.RoundTrip.InRange.{IsInRange, attributes_in_range, channel_in_range, constant_in_range, is_held, node_in_range, proc_in_range, type_in_range};

use ir_tree::{Attributes, Channel, Constant, IrType, Node, Package, Proc};

/// Goes through the numbers of a package, each of which is in the range of its type. It takes time as the package is long.
pub fn in_range(ir: &Package)
    ensures { IsInRange ir.now }
{
    channels_in_range(ir.channels.as_slice());
    procs_in_range(ir.procs.as_slice());
}

fn channels_in_range(channels: &[Channel])
    ensures { list_all channel_in_range channels.now ≡ true }
{
    'channels: for channel in channels {
        type_in_range(&channel.ty);
    }
}

fn procs_in_range(procs: &[Proc])
    ensures { list_all proc_in_range procs.now ≡ true }
{
    'procs: for proc in procs {
        proc_in_range(proc);
    }
}

fn proc_in_range(proc: &Proc)
    ensures { proc_in_range proc.now ≡ true }
{
    type_in_range(&proc.state);
    constant_in_range(&proc.init);
    nodes_in_range(proc.nodes.as_slice());
}

fn nodes_in_range(nodes: &[Node])
    ensures { list_all node_in_range nodes.now ≡ true }
{
    'nodes: for node in nodes {
        node_in_range(node);
    }
}

fn node_in_range(node: &Node)
    ensures { node_in_range node.now ≡ true }
{
    let _id = node.id;
    type_in_range(&node.ty);
    attributes_in_range(&node.attributes);
}

fn attributes_in_range(attributes: &Attributes)
    ensures { attributes_in_range attributes.now ≡ true }
{
    match attributes {
        Attributes::None => {}
        Attributes::StartAndWidth(start, width) => {
            number_in_range(*start);
            number_in_range(*width);
        }
        Attributes::Width(width) => number_in_range(*width),
        Attributes::NewBitCount(width) => number_in_range(*width),
        Attributes::Cases(_, _) => {}
        Attributes::Index(index) => number_in_range(*index),
        Attributes::Indices(_) => {}
        Attributes::Value(constant) => constant_in_range(constant),
        Attributes::Channel(_, _) => {}
    }
}

#[cycle(types)]
fn type_in_range(ty: &IrType)
    ensures { type_in_range ty.now ≡ true }
{
    match ty {
        IrType::Bits(width, sizes) => {
            number_in_range(*width);
            numbers_in_range(sizes.as_slice());
        }
        IrType::Token(sizes) => numbers_in_range(sizes.as_slice()),
        IrType::Tuple(parts, sizes) => {
            types_in_range(parts.as_slice());
            numbers_in_range(sizes.as_slice());
        }
    }
}

#[cycle(types)]
fn types_in_range(types: &[IrType])
    ensures { list_all type_in_range types.now ≡ true }
{
    'types: for ty in types {
        type_in_range(ty);
    }
}

#[cycle(constants)]
fn constant_in_range(constant: &Constant)
    ensures { constant_in_range constant.now ≡ true }
{
    match constant {
        Constant::Number(number) => number_in_range(*number),
        Constant::Tuple(parts) => constants_in_range(parts.as_slice()),
        Constant::Array(elements) => constants_in_range(elements.as_slice()),
    }
}

#[cycle(constants)]
fn constants_in_range(constants: &[Constant])
    ensures { list_all constant_in_range constants.now ≡ true }
{
    'constants: for constant in constants {
        constant_in_range(constant);
    }
}

fn numbers_in_range(numbers: &[u128])
    ensures { list_all is_held numbers.now ≡ true }
{
    'numbers: for number in numbers {
        number_in_range(*number);
    }
}

fn number_in_range(number: u128)
    ensures { is_held number ≡ true }
{
    let _ = number;
}
