//! What a select always chooses.

ghost use Rattle.std.specs.Prelude.{◌≡◌};
ghost use Rattle.std.specs.List.{list_all};
ghost use Rattle.ir_tree.specs.Operations.{chosen};
ghost use Rattle.pass_select.specs.Choices.{literal_number, literal_at, literal_of, one_of, choice_of, choice_among, is_default};
ghost use Rattle.ir_rebuild.specs.Normal.Normal.{same_operand};

use delay_model::Op;
use ir_rebuild::node_of;
use ir_tree::{Attributes, Constant, Node, Operand};

/// The operand that a node gives whatever its operands' values are, if it is a select that shows one.
pub fn choice(nodes: &[Node], node: &Node) -> Option<Operand>
    ensures { result ≡ choice_of nodes.now node.now }
{
    match &node.attributes {
        Attributes::Cases(cases, default) => {
            choice_among(nodes, node.operands.as_slice(), cases.as_slice(), *default)
        }
        _ => None,
    }
}

fn choice_among(
    nodes: &[Node],
    operands: &[Operand],
    cases: &[Operand],
    default: Option<Operand>,
) -> Option<Operand>
    ensures { result ≡ choice_among nodes.now cases.now default operands.now }
{
    match operands {
        [selector] => match literal_number(nodes, *selector) {
            Some(number) => chosen(cases, default, number),
            None => one_of(cases, default),
        },
        _ => None,
    }
}

/// The number of a literal.
fn literal_number(nodes: &[Node], operand: Operand) -> Option<u128>
    ensures { result ≡ literal_number nodes.now operand }
{
    match node_of(nodes, operand) {
        None => None,
        Some(node) => literal_at(node.op, &node.attributes),
    }
}

fn literal_at(op: Op, attributes: &Attributes) -> Option<u128>
    ensures { result ≡ literal_at op attributes.now }
{
    match op {
        Op::Literal => literal_of(attributes),
        _ => None,
    }
}

fn literal_of(attributes: &Attributes) -> Option<u128>
    ensures { result ≡ literal_of attributes.now }
{
    match attributes {
        Attributes::Value(constant) => match constant {
            Constant::Number(number) => Some(*number),
            Constant::Tuple(_) => None,
            Constant::Array(_) => None,
        },
        _ => None,
    }
}

/// The case of a number, else the default.
#[tactic(auto, using(crate::proofs::Chosen::chosen_cases))]
fn chosen(cases: &[Operand], default: Option<Operand>, number: u128) -> Option<Operand>
    ensures { result ≡ chosen cases.now default number }
{
    if number < cases.len() as u128 {
        Some(cases[number as usize])
    } else {
        default
    }
}

/// The operand that all cases and the default are.
fn one_of(cases: &[Operand], default: Option<Operand>) -> Option<Operand>
    ensures { result ≡ one_of cases.now default }
{
    match cases {
        [] => None,
        [first, ..] => {
            if is_default(*first, default) && are_all(*first, cases) {
                Some(*first)
            } else {
                None
            }
        }
    }
}

fn is_default(first: Operand, default: Option<Operand>) -> bool
    ensures { result ≡ is_default first default }
{
    match default {
        None => true,
        Some(operand) => same_operand(first, operand),
    }
}

fn are_all(first: Operand, cases: &[Operand]) -> bool
    ensures { result ≡ list_all (same_operand first) cases.now }
{
    cases.iter().all(|case| same_operand(first, *case))
}

fn same_operand(a: Operand, b: Operand) -> bool
    ensures { result ≡ same_operand a b }
{
    match a {
        Operand::State => match b {
            Operand::State => true,
            Operand::Node(_) => false,
        },
        Operand::Node(i) => match b {
            Operand::State => false,
            Operand::Node(j) => i == j,
        },
    }
}
