//! What patterns, parameters and arguments bind. Of several names the first one is bound last, so that it stands first.

ghost use Rattle.std.specs.Prelude.{◌≡◌, flat_map, map, OnOk};
ghost use Rattle.dslx_tree.specs.declared.pattern.Shape.{out-Shape};
ghost use Rattle.dslx_meaning.specs.Rules.Mentions.{bound_behind, field_names, parametric_names};
ghost use Rattle.dslx_check_items.specs.Inner.Walks.{binding};
ghost use Rattle.dslx_check_items.specs.Inner.Parts.{in_pattern, pattern_names, shape_names};
ghost use Rattle.dslx_check_items.specs.Inner.Plain.{walk_shown};

use crate::walk::Walk;
use dslx_tree::{Field, Parametric, Pattern, Shape};
use std::alloc::AllocError;

/// Binds the names in a pattern.
#[cycle(bind)]
#[tactic(auto, using(crate::proofs::OnMentions::Opened::names_by_shape))]
pub(crate) fn bind_pattern<'a>(w: &mut Walk<'a>, pattern: &'a Pattern) -> Result<(), AllocError>
    ensures { OnOk result (walk_shown w.new ≡ binding (pattern_names pattern.now) (walk_shown w.old)) }
{
    bind_shape(w, &pattern.shape)
}

#[cycle(bind)]
#[tactic(auto, unfolding(crate::specs::Inner::Walks::binding))]
fn bind_shape<'a>(w: &mut Walk<'a>, shape: &'a Shape) -> Result<(), AllocError>
    ensures { OnOk result (walk_shown w.new ≡ binding (shape_names (out-Shape shape.now)) (walk_shown w.old)) }
{
    match shape {
        Shape::Name(name) => w.bind(name),
        Shape::Tuple(parts) => bind_patterns(w, parts.as_slice()),
        _ => Ok(()),
    }
}

#[cycle(bind)]
fn bind_patterns<'a>(w: &mut Walk<'a>, patterns: &'a [Pattern]) -> Result<(), AllocError>
    ensures { OnOk result (walk_shown w.new ≡ binding (flat_map pattern_names patterns.now) (walk_shown w.old)) }
{
    let count = patterns.len();
    'patterns: for i in 0..count {
        let at = count - 1 - i;
        bind_pattern(w, &patterns[at])?;
    }
    Ok(())
}

/// Binds what is in sight behind the alternatives of an arm.
#[tactic(auto, unfolding(crate::specs::Inner::Walks::binding))]
pub(crate) fn bind_behind<'a>(
    w: &mut Walk<'a>,
    alternatives: &'a [Pattern],
) -> Result<(), AllocError>
    ensures { OnOk result (walk_shown w.new ≡ binding (bound_behind (map in_pattern alternatives.now)) (walk_shown w.old)) }
{
    match alternatives {
        [] => Ok(()),
        [pattern] => bind_pattern(w, pattern),
        [_, _, ..] => Ok(()),
    }
}

/// Binds the names of parameters.
pub(crate) fn bind_parametrics<'a>(
    w: &mut Walk<'a>,
    parametrics: &'a [Parametric],
) -> Result<(), AllocError>
    ensures { OnOk result (walk_shown w.new ≡ binding (parametric_names parametrics.now) (walk_shown w.old)) }
{
    let count = parametrics.len();
    'parametrics: for i in 0..count {
        let at = count - 1 - i;
        w.bind(&parametrics[at].name.name)?;
    }
    Ok(())
}

/// Binds the names of arguments.
pub(crate) fn bind_arguments<'a>(w: &mut Walk<'a>, arguments: &'a [Field]) -> Result<(), AllocError>
    ensures { OnOk result (walk_shown w.new ≡ binding (field_names arguments.now) (walk_shown w.old)) }
{
    let count = arguments.len();
    'arguments: for i in 0..count {
        let at = count - 1 - i;
        w.bind(&arguments[at].name.name)?;
    }
    Ok(())
}
