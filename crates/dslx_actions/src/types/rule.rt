ghost use Rattle.std.specs.Prelude.{◌≡◌, OnOk};
ghost use Rattle.dslx_actions.specs.Types.Rules.{reduced_pattern, reduced_type};

use crate::SemanticStacks;
use crate::types::patterns::{
    bool_pattern, member_pattern, name_pattern, tuple_pattern, typed_pattern, wild_pattern,
};
use crate::types::types::{array_type, named_type, negative, tuple_type, wide_type};
use std::alloc::{AllocError, Global};

/// What rules of types do where their symbols are complete.
#[derive(Clone, Copy, PartialEq, Eq)]
pub enum TypeAction {
    Negative,
    Named,
    Wide,
    Tuple,
    Array,
    /// The size of an array behind the name of its elements' type.
    NamedArray,
}

/// What rules of patterns do where their symbols are complete.
#[derive(Clone, Copy, PartialEq, Eq)]
pub enum PatternAction {
    Wild,
    Bool(bool),
    Typed,
    /// The number behind the name of its type.
    NamedTyped,
    Name,
    Member,
    Tuple,
    /// A name, and no type behind it.
    NameAlone,
    /// A name, and a type behind it.
    NameAnnotated,
}

/// Does what is done where a tree of a rule of types is complete.
pub fn reduce_type(
    parts: &mut SemanticStacks,
    alloc: Global,
    rule: TypeAction,
) -> Result<(), AllocError>
    ensures { OnOk result (parts.new ≡ reduced_type rule parts.old) }
{
    match rule {
        TypeAction::Negative => negative(parts),
        TypeAction::Named => named_type(parts, alloc),
        TypeAction::Wide => wide_type(parts, alloc),
        TypeAction::Tuple => tuple_type(parts),
        TypeAction::Array => array_type(parts, alloc),
        TypeAction::NamedArray => {
            named_type(parts, alloc)?;
            array_type(parts, alloc)
        }
    }
}

/// Does what is done where a tree of a rule of patterns is complete.
pub fn reduce_pattern(
    parts: &mut SemanticStacks,
    alloc: Global,
    rule: PatternAction,
) -> Result<(), AllocError>
    ensures { OnOk result (parts.new ≡ reduced_pattern rule parts.old) }
{
    match rule {
        PatternAction::Wild => wild_pattern(parts),
        PatternAction::Bool(value) => bool_pattern(parts, value),
        PatternAction::Typed => typed_pattern(parts, alloc),
        PatternAction::NamedTyped => {
            named_type(parts, alloc)?;
            typed_pattern(parts, alloc)
        }
        PatternAction::Name => name_pattern(parts, alloc),
        PatternAction::Member => member_pattern(parts, alloc),
        PatternAction::Tuple => tuple_pattern(parts),
        PatternAction::NameAlone => {
            name_pattern(parts, alloc)?;
            parts.no_annotation()
        }
        PatternAction::NameAnnotated => {
            name_pattern(parts, alloc)?;
            parts.annotation()
        }
    }
}
