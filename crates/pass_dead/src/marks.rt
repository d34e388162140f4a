//! Nodes that are live, found from the last line to the first.

ghost use Rattle.std.specs.Prelude.{◌≡◌, ◌++◌, ◌<◌, true, false, length, replicate, get_or, slice_set, IfOk};
ghost use Rattle.ir_tree.specs.NodeValues.{role_of};
ghost use Rattle.ir_rebuild.specs.Operands.{operands_in, attribute_operands, optional_operand};
ghost use Rattle.ir_rebuild.specs.Kept.{is_site, AreKept, StandBefore};
ghost use Rattle.ir_rebuild.specs.Normal.Normal.{AreLive};
ghost use Rattle.pass_dead.specs.Inner.Marks.{marked, marked_all, visited};

use ir_tree::{Attributes, Node, Operand, Proc, Role};
use std::alloc::{AllocError, Global};

/// For each node whether it is live: read by a site, by the next state, or by a node that is live. It takes time linear in the operands.
pub fn live(alloc: Global, proc: &Proc) -> Result<Vec<bool>, AllocError>
    requires { StandBefore proc.now }
    ensures kept { IfOk result (λ kept. AreKept proc.now kept.items) }
    ensures live { IfOk result (λ kept. AreLive proc.now kept.items) }
{
    let nodes = proc.nodes.as_slice();
    let mut kept = none_marked(alloc, nodes.len())?;
    mark(&mut kept, proc.next);
    'nodes: for k in 0..nodes.len() {
        let place = nodes.len() - 1 - k;
        visit(&mut kept, place, &nodes[place]);
    }
    Ok(kept)
}

fn none_marked(alloc: Global, count: usize) -> Result<Vec<bool>, AllocError>
    ensures { IfOk result (λ kept. kept.items ≡ replicate count false) }
{
    vec![in alloc; false; count]
}

/// Marks a node that is a site, and the operands of a marked node.
fn visit(kept: &mut Vec<bool>, place: usize, node: &Node)
    requires { place < length kept.old.items }
    ensures { kept.new.items ≡ visited kept.old.items place node.now }
{
    if is_marked(kept.as_slice(), place) || is_site(node) {
        mark_needs(kept, place, node);
    }
}

fn is_marked(kept: &[bool], place: usize) -> bool
    ensures { result ≡ get_or kept.now place false }
{
    match kept.get(place) {
        None => false,
        Some(kept) => *kept,
    }
}

/// Marks a node and its operands.
#[tactic(auto, using(crate::proofs::MarkSteps::marked_parts))]
fn mark_needs(kept: &mut Vec<bool>, place: usize, node: &Node)
    requires { place < length kept.old.items }
    ensures { kept.new.items ≡ marked_all (slice_set kept.old.items place true) (operands_in node.now) }
{
    kept[place] = true;
    mark_all(kept, node.operands.as_slice());
    mark_attributes(kept, &node.attributes);
}

fn is_site(node: &Node) -> bool
    ensures { result ≡ is_site (role_of node.now) }
{
    match node.role() {
        Role::Pure => false,
        Role::Receive(_, _) => true,
        Role::Send(_, _) => true,
    }
}

fn mark(kept: &mut Vec<bool>, operand: Operand)
    ensures { kept.new.items ≡ marked kept.old.items operand }
{
    match operand {
        Operand::State => {}
        Operand::Node(place) => mark_index(kept, place),
    }
}

fn mark_index(kept: &mut Vec<bool>, place: u32)
    ensures { kept.new.items ≡ slice_set kept.old.items place true }
{
    let place = place as usize;
    if place < kept.len() {
        kept[place] = true;
    }
}

fn mark_if(kept: &mut Vec<bool>, operand: Option<Operand>)
    ensures { kept.new.items ≡ marked_all kept.old.items (optional_operand operand) }
{
    match operand {
        None => {}
        Some(operand) => mark(kept, operand),
    }
}

#[tactic(auto, using(crate::proofs::MarkSteps::marked_step))]
fn mark_all(kept: &mut Vec<bool>, operands: &[Operand])
    ensures { kept.new.items ≡ marked_all kept.old.items operands.now }
{
    'operands: for operand in operands {
        mark(kept, *operand);
    }
}

fn mark_attributes(kept: &mut Vec<bool>, attributes: &Attributes)
    ensures { kept.new.items ≡ marked_all kept.old.items (attribute_operands attributes.now) }
{
    match attributes {
        Attributes::Cases(cases, default) => mark_cases(kept, cases.as_slice(), *default),
        Attributes::Indices(index) => mark(kept, *index),
        Attributes::Channel(predicate, _) => mark_if(kept, *predicate),
        Attributes::None | Attributes::StartAndWidth(_, _) | Attributes::Width(_) => {}
        Attributes::NewBitCount(_) | Attributes::Index(_) | Attributes::Value(_) => {}
    }
}

#[tactic(auto, using(crate::proofs::MarkSteps::marked_parts))]
fn mark_cases(kept: &mut Vec<bool>, cases: &[Operand], default: Option<Operand>)
    ensures { kept.new.items ≡ marked_all kept.old.items (cases.now ++ optional_operand default) }
{
    mark_all(kept, cases);
    mark_if(kept, default);
}
