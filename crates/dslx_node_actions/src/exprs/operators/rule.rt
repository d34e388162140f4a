ghost use Rattle.std.specs.Prelude.{◌≡◌, OnOk};
ghost use Rattle.dslx_node_actions.specs.Exprs.Operators.Rules.{reduced_operator};

use crate::exprs::operators::chain::chain;
use crate::exprs::operators::operators::{
    cast_expr, element_expr, field_expr, index_expr, operator, part_expr, prefixed, slice_expr,
};
use dslx_actions::SemanticStacks;
use dslx_tree::{Binary, Prefix};
use std::alloc::{AllocError, Global};

/// What rules of operators and of what stands behind an atom do where their symbols are complete.
#[derive(Clone, Copy)]
pub enum OperatorAction {
    Sign(Binary),
    Chain,
    Prefixed(Prefix),
    Cast,
    Index,
    Slice,
    Part,
    Field,
    Element,
}

/// Does what is done where a tree of such a rule is complete.
pub fn reduce_operator(
    parts: &mut SemanticStacks,
    alloc: Global,
    rule: OperatorAction,
) -> Result<(), AllocError>
    ensures { OnOk result (parts.new ≡ reduced_operator rule parts.old) }
{
    match rule {
        OperatorAction::Sign(sign) => operator(parts, sign),
        OperatorAction::Chain => chain(parts, alloc),
        OperatorAction::Prefixed(sign) => prefixed(parts, alloc, sign),
        OperatorAction::Cast => cast_expr(parts, alloc),
        OperatorAction::Index => index_expr(parts, alloc),
        OperatorAction::Slice => slice_expr(parts, alloc),
        OperatorAction::Part => part_expr(parts, alloc),
        OperatorAction::Field => field_expr(parts, alloc),
        OperatorAction::Element => element_expr(parts, alloc),
    }
}
