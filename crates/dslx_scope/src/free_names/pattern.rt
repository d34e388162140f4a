//! Types and patterns.

ghost use Rattle.std.specs.Prelude.{◌≡◌, OnOk};
ghost use Rattle.dslx_meaning.specs.Names.ConstMachine.Layers.{shape_of, type_of};
ghost use Rattle.dslx_scope.specs.FreeNames.Plain.{shown};
ghost use Rattle.dslx_scope.specs.FreeNames.Steps.{type_opens, types_open, shape_opens, patterns_open, shape_binds, patterns_bind};

use crate::free_names::machine::Machine;
use crate::free_names::task::Task;
use dslx_tree::{Pattern, Shape, TypeExpr, TypeNode};
use std::alloc::AllocError;

/// Visits the parts of a type.
pub(crate) fn open_type<'a>(machine: &mut Machine<'a>, ty: &'a TypeExpr) -> Result<(), AllocError>
    ensures { OnOk result (shown machine.new ≡ type_opens (type_of ty.now) (shown machine.old)) }
{
    match &ty.node {
        TypeNode::Wide(_, width) => machine.first(Task::Expr(width.get())),
        TypeNode::Tuple(parts) => machine.first(Task::Types(parts.as_slice())),
        TypeNode::Array(element, size) => {
            machine.both(Task::Type(element.get()), Task::Expr(size.get()))
        }
        _ => Ok(()),
    }
}

/// Visits types in order.
pub(crate) fn open_types<'a>(
    machine: &mut Machine<'a>,
    types: &'a [TypeExpr],
) -> Result<(), AllocError>
    ensures { OnOk result (shown machine.new ≡ types_open types.now (shown machine.old)) }
{
    match types {
        [ty, rest @ ..] => machine.both(Task::Type(ty), Task::Types(rest)),
        [] => Ok(()),
    }
}

/// Visits what a pattern mentions.
pub(crate) fn open_pattern<'a>(
    machine: &mut Machine<'a>,
    pattern: &'a Pattern,
) -> Result<(), AllocError>
    ensures { OnOk result (shown machine.new ≡ shape_opens (shape_of pattern.now) (shown machine.old)) }
{
    match &pattern.shape {
        Shape::Number(number) => machine.type_first(&number.ty),
        Shape::Tuple(parts) => machine.first(Task::Patterns(parts.as_slice())),
        _ => Ok(()),
    }
}

/// Visits what patterns mention, in order.
pub(crate) fn open_patterns<'a>(
    machine: &mut Machine<'a>,
    patterns: &'a [Pattern],
) -> Result<(), AllocError>
    ensures { OnOk result (shown machine.new ≡ patterns_open patterns.now (shown machine.old)) }
{
    match patterns {
        [pattern, rest @ ..] => machine.both(Task::Pattern(pattern), Task::Patterns(rest)),
        [] => Ok(()),
    }
}

/// Binds the names of a pattern.
pub(crate) fn bind_pattern<'a>(
    machine: &mut Machine<'a>,
    pattern: &'a Pattern,
) -> Result<(), AllocError>
    ensures { OnOk result (shown machine.new ≡ shape_binds (shape_of pattern.now) (shown machine.old)) }
{
    match &pattern.shape {
        Shape::Name(name) => machine.bind(name),
        Shape::Tuple(parts) => machine.first(Task::BindAll(parts.as_slice())),
        _ => Ok(()),
    }
}

/// Binds the names of patterns, those of the first one last.
pub(crate) fn bind_patterns<'a>(
    machine: &mut Machine<'a>,
    patterns: &'a [Pattern],
) -> Result<(), AllocError>
    ensures { OnOk result (shown machine.new ≡ patterns_bind patterns.now (shown machine.old)) }
{
    match patterns {
        [pattern, rest @ ..] => machine.both(Task::BindAll(rest), Task::Bind(pattern)),
        [] => Ok(()),
    }
}
