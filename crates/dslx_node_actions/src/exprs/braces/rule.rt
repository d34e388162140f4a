ghost use Rattle.std.specs.Prelude.{◌≡◌, OnOk};
ghost use Rattle.dslx_node_actions.specs.Exprs.Braces.Rules.{reduced_brace};

use crate::exprs::braces::braces::{arm, block_expr, for_expr, if_expr, match_expr};
use crate::exprs::braces::fields::{field_name, field_value, struct_expr};
use dslx_actions::SemanticStacks;
use std::alloc::{AllocError, Global};

/// What rules of expressions with braces do where their symbols are complete.
#[derive(Clone, Copy)]
pub enum BraceAction {
    Block,
    FieldValue,
    FieldName,
    /// What gives the other fields of a struct value.
    Others,
    Struct,
    If,
    Arm,
    Match,
    For,
}

/// Does what is done where a tree of such a rule is complete.
pub fn reduce_brace(
    parts: &mut SemanticStacks,
    alloc: Global,
    rule: BraceAction,
) -> Result<(), AllocError>
    ensures { OnOk result (parts.new ≡ reduced_brace rule parts.old) }
{
    match rule {
        BraceAction::Block => block_expr(parts, alloc),
        BraceAction::FieldValue => field_value(parts, alloc),
        BraceAction::FieldName => field_name(parts, alloc),
        BraceAction::Others => {
            parts.given(1)?;
            parts.start()
        }
        BraceAction::Struct => struct_expr(parts, alloc),
        BraceAction::If => if_expr(parts, alloc),
        BraceAction::Arm => arm(parts),
        BraceAction::Match => match_expr(parts, alloc),
        BraceAction::For => for_expr(parts, alloc),
    }
}
