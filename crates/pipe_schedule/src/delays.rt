//! How long nodes take.

ghost use Rattle.std.specs.Prelude.{◌≡◌};
ghost use Rattle.pipe_schedule.specs.Timed.{first_type};
ghost use Rattle.pipe_schedule.specs.Inner.Delays.{type_width, delay_within};

use delay_model::TimedBy;
use ir_tree::node_types::width_of;
use ir_tree::{IrType, Node, Operand};

/// How wide the types of verified packages are at most: 256 leaves of 128 bits.
const WIDEST: u64 = 32768;

/// How many picoseconds a node takes, among the nodes of a proc whose states have this type.
pub fn delay(state: &IrType, nodes: &[Node], node: &Node) -> u32
    ensures { result ≡ delay_within state.now nodes.now node.now }
{
    let width = match node.op.timed_by() {
        TimedBy::Result => width_of(&node.ty),
        TimedBy::FirstOperand => first_width(state, nodes, node),
    };
    node.op.delay(width.min(WIDEST) as u32)
}

/// How wide the first operand of a node is; one that isn't there is as wide as the node.
fn first_width(state: &IrType, nodes: &[Node], node: &Node) -> u64
    ensures { result ≡ type_width (first_type state.now nodes.now node.now.ty node.now.operands) }
{
    match node.operands.as_slice().first() {
        None => width_of(&node.ty),
        Some(Operand::State) => width_of(state),
        Some(Operand::Node(place)) => match nodes.get(*place as usize) {
            None => width_of(&node.ty),
            Some(source) => width_of(&source.ty),
        },
    }
}
