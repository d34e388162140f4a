ghost use Rattle.std.specs.Prelude.{◌≡◌, OnOk};
ghost use Rattle.dslx_node_actions.specs.Exprs.Atoms.Rules.{reduced_arg, reduced_atom};

use crate::exprs::atoms::args::{bare_arg, braced_arg};
use crate::exprs::atoms::atoms::{
    array_expr, bare_number, bool_expr, grouped, last_element, member_expr, name_expr, repeated,
    tuple_expr, typed_array, typed_number, unit_expr,
};
use crate::exprs::atoms::calls::{call_expr, call_with_args};
use dslx_actions::SemanticStacks;
use dslx_actions::types::named_type;
use std::alloc::{AllocError, Global};

/// What rules of atoms do where their symbols are complete.
#[derive(Clone, Copy)]
pub enum AtomAction {
    BareNumber,
    TypedNumber,
    Bool(bool),
    LastElement,
    Repeated,
    Array,
    TypedArray,
    Name,
    Member,
    Call,
    CallWithArgs,
    Unit,
    Grouped,
    Tuple,
}

/// What rules of arguments between `<` and `>` do where their symbols are complete.
#[derive(Clone, Copy)]
pub enum ArgAction {
    Number,
    Typed,
    /// The number behind the name of its type.
    NamedTyped,
    Name,
    Braced,
}

/// Does what is done where a tree of a rule of atoms is complete.
pub fn reduce_atom(
    parts: &mut SemanticStacks,
    alloc: Global,
    rule: AtomAction,
) -> Result<(), AllocError>
    ensures { OnOk result (parts.new ≡ reduced_atom rule parts.old) }
{
    match rule {
        AtomAction::BareNumber => bare_number(parts),
        AtomAction::TypedNumber => typed_number(parts, alloc),
        AtomAction::Bool(value) => bool_expr(parts, value),
        AtomAction::LastElement => last_element(parts),
        AtomAction::Repeated => repeated(parts),
        AtomAction::Array => array_expr(parts),
        AtomAction::TypedArray => typed_array(parts, alloc),
        AtomAction::Name => name_expr(parts, alloc),
        AtomAction::Member => member_expr(parts, alloc),
        AtomAction::Call => call_expr(parts, alloc),
        AtomAction::CallWithArgs => call_with_args(parts, alloc),
        AtomAction::Unit => unit_expr(parts, alloc),
        AtomAction::Grouped => grouped(parts),
        AtomAction::Tuple => tuple_expr(parts),
    }
}

/// Does what is done where a tree of a rule of arguments is complete.
pub fn reduce_arg(
    parts: &mut SemanticStacks,
    alloc: Global,
    rule: ArgAction,
) -> Result<(), AllocError>
    ensures { OnOk result (parts.new ≡ reduced_arg rule parts.old) }
{
    match rule {
        ArgAction::Number => {
            bare_number(parts)?;
            bare_arg(parts)
        }
        ArgAction::Typed => {
            typed_number(parts, alloc)?;
            bare_arg(parts)
        }
        ArgAction::NamedTyped => {
            named_type(parts, alloc)?;
            typed_number(parts, alloc)?;
            bare_arg(parts)
        }
        ArgAction::Name => {
            name_expr(parts, alloc)?;
            bare_arg(parts)
        }
        ArgAction::Braced => braced_arg(parts),
    }
}
