//! Procs and packages, rebuilt.

ghost use Rattle.std.specs.Prelude.{◌≡◌, true, false, get_or, length, IfOk, List};
ghost use Rattle.ir_tree.specs.declared.package.Channel.{Channel};
ghost use Rattle.ir_tree.specs.declared.node.Operand.TheVariants as operands;
ghost use Rattle.ir_tree.specs.SameBehavior.{SameBehavior};
ghost use Rattle.ir_tree.specs.Rules.Verified.{IsVerified};
ghost use Rattle.ir_rebuild.specs.Operands.{node_of};
ghost use Rattle.ir_rebuild.specs.Moves.{moved, moved_node};
ghost use Rattle.ir_rebuild.specs.Built.{is_plain_op, AreBuilt, FitsAt};
ghost use Rattle.ir_rebuild.specs.Fixed.{is_receive_op, is_receive, is_one_receive, is_part_of_receive, is_fixed};
ghost use Rattle.ir_rebuild.specs.Inner.Appended.{SimulatesInRebuild};
ghost use Rattle.ir_rebuild.specs.Inner.Rebuilt.{IsCheckedProc, IsRebuilt};
ghost use Rattle.ir_rebuild.specs.Walks.{ProcRebuildsTo, EachProcRebuildsTo, SameHead};

use crate::copies::{constant_copy, name_copy, type_copy};
use crate::moves::{moved, moved_node};
use crate::nodes::{append, node_of};
use crate::pass::Rewrite;
use delay_model::Op;
use ir_tree::{Attributes, IrType, Node, Operand, Package, Proc};
use std::alloc::{AllocError, Global};
use xb_value::Seq;

/// The package after a pass: verified, and of the same behavior. It takes time as the package is long and the pass takes at
/// each node, and memory for the new package beside the old.
pub fn rebuild<R: Rewrite>(alloc: Global, pass: &R, ir: Package) -> Result<Package, AllocError>
    requires { IsVerified ir }
    ensures verified { IfOk result (λ new. IsVerified new) }
    ensures same { IfOk result (λ new. SameBehavior ir new) }
    ensures head { IfOk result (λ new. SameHead ir new) }
    ensures became { IfOk result (λ new. EachProcRebuildsTo R.marks R.gives ir.procs new.procs) }
{
    let mut all = Vec::new(alloc);
    'procs: for proc in ir.procs.as_slice() {
        all.push(rebuilt(alloc, pass, proc)?)?;
    }
    let Package {
        name,
        channels,
        procs: _,
    } = ir;
    Ok(Package {
        name,
        channels,
        procs: Seq::from_vec(all),
    })
}

/// The proc after a pass.
fn rebuilt<R: Rewrite>(alloc: Global, pass: &R, proc: &Proc) -> Result<Proc, AllocError>
    requires { (channels : List Channel) × IsCheckedProc channels proc.now }
    ensures rebuilt { IfOk result (λ new. (channels : List Channel) → IsCheckedProc channels proc.now → IsRebuilt channels proc.now new) }
    ensures became { IfOk result (λ new. ProcRebuildsTo R.marks R.gives proc.now new) }
{
    let kept = pass.kept(alloc, proc)?;
    let mut nodes = Vec::new(alloc);
    let mut places = Vec::new(alloc);
    let old = proc.nodes.as_slice();
    'nodes: for i in 0..old.len() {
        let is_kept = is_kept(kept.as_slice(), i);
        let place = read_one(
            alloc,
            pass,
            &proc.state,
            is_kept,
            places.as_slice(),
            &mut nodes,
            &old[i],
        )?;
        places.push(place)?;
    }
    Ok(Proc {
        name: name_copy(alloc, &proc.name)?,
        state: type_copy(alloc, &proc.state)?,
        init: constant_copy(alloc, &proc.init)?,
        nodes: Seq::from_vec(nodes),
        next: moved(places.as_slice(), proc.next),
    })
}

fn is_kept(kept: &[bool], place: usize) -> bool
    ensures { result ≡ get_or kept.now place false }
{
    match kept.get(place) {
        None => false,
        Some(kept) => *kept,
    }
}

/// What stands for a node that is read, over what stands for the nodes before. For one that isn't kept nothing is appended, and
/// the state is answered, which nothing reads.
fn read_one<R: Rewrite>(
    alloc: Global,
    pass: &R,
    state: &IrType,
    is_kept: bool,
    places: &[Operand],
    nodes: &mut Vec<Node>,
    node: &Node,
) -> Result<Operand, AllocError>
    requires built { AreBuilt state.now nodes.old.items }
    requires fits_at { is_kept ≡ true → is_plain_op node.now.op ≡ true →
        FitsAt state.now nodes.old.items (length nodes.old.items) (moved_node (moved places.now) node.now) }
    ensures kept { is_kept ≡ true → IfOk result (λ o. SimulatesInRebuild state.now nodes.old.items nodes.new.items (moved_node (moved places.now) node.now) o) }
    ensures dropped { is_kept ≡ false → nodes.new.items ≡ nodes.old.items }
    ensures nothing { is_kept ≡ false → IfOk result (λ o. o ≡ operands.State) }
    ensures gives { is_kept ≡ true → is_fixed nodes.old.items (moved_node (moved places.now) node.now) ≡ false →
        IfOk result (λ o. R.gives state.now nodes.old.items nodes.new.items (moved_node (moved places.now) node.now) o) }
{
    if !is_kept {
        return Ok(Operand::State);
    }
    let node = moved_node(alloc, places, node)?;
    rewritten_node(alloc, pass, state, nodes, node)
}

/// Appends a node, or what stands for it.
fn rewritten_node<R: Rewrite>(
    alloc: Global,
    pass: &R,
    state: &IrType,
    nodes: &mut Vec<Node>,
    node: Node,
) -> Result<Operand, AllocError>
    requires built { AreBuilt state.now nodes.old.items }
    requires fits_at { is_plain_op node.op ≡ true → FitsAt state.now nodes.old.items (length nodes.old.items) node }
    ensures stands { IfOk result (λ o. SimulatesInRebuild state.now nodes.old.items nodes.new.items node o) }
    ensures gives { is_fixed nodes.old.items node ≡ false → IfOk result (λ o. R.gives state.now nodes.old.items nodes.new.items node o) }
{
    if is_fixed(nodes.as_slice(), &node) {
        append(nodes, node)
    } else {
        pass.rewrite(alloc, state, nodes, node)
    }
}

/// Whether the node stays as it is: sites and `after_all`, and the parts of what a receive gives.
fn is_fixed(nodes: &[Node], node: &Node) -> bool
    ensures { result ≡ is_fixed nodes.now node.now }
{
    !is_plain(node.op) || is_part_of_receive(nodes, &node.attributes, node.operands.as_slice())
}

fn is_plain(op: Op) -> bool
    ensures { result ≡ is_plain_op op }
{
    match op {
        Op::AfterAll | Op::Receive | Op::Send => false,
        _ => true,
    }
}

fn is_part_of_receive(nodes: &[Node], attributes: &Attributes, operands: &[Operand]) -> bool
    ensures { result ≡ is_part_of_receive nodes.now attributes.now operands.now }
{
    match attributes {
        Attributes::Index(_) => is_one_receive(nodes, operands),
        _ => false,
    }
}

fn is_one_receive(nodes: &[Node], operands: &[Operand]) -> bool
    ensures { result ≡ is_one_receive nodes.now operands.now }
{
    match operands {
        [operand] => is_receive(nodes, *operand),
        _ => false,
    }
}

fn is_receive(nodes: &[Node], operand: Operand) -> bool
    ensures { result ≡ is_receive (node_of nodes.now operand) }
{
    match node_of(nodes, operand) {
        None => false,
        Some(node) => is_receive_op(node.op),
    }
}

fn is_receive_op(op: Op) -> bool
    ensures { result ≡ is_receive_op op }
{
    match op {
        Op::Receive => true,
        _ => false,
    }
}
