//! Constants.

ghost use Rattle.std.specs.Prelude.{IfOk};
ghost use Rattle.dslx_tree.specs.declared.item.Definition.TheVariants as d;
ghost use Rattle.dslx_check_facts.specs.Walks.{shown};
ghost use Rattle.dslx_check_declarations.specs.Scopes.{outside};
ghost use Rattle.dslx_check_leaves.specs.Walked.{WalksTo};
ghost use Rattle.dslx_check_judge.specs.Items.Inner.Kinds.{JudgesNamed, TypesNamedValue, TypesWritten};

use crate::items::members::if_fine;
use dslx_check_declarations::{ItemSeen, annotation_of, typed_value, written_faults};
use dslx_check_facts::{Facts, TypeEnv, Walk};
use dslx_check_parts::{constant, type_expr};
use dslx_check_rules::nodes::ConstantTyping;
use dslx_check_rules::{Faults, Typing};
use dslx_meaning::DslxValue;
use dslx_tree::{Constant, TypeExpr};
use std::alloc::AllocError;

/// What a constant comes to: what it breaks, and its value.
#[derive(Drop)]
struct ConstantParts {
    faults: Faults,
    value: Option<DslxValue>,
}

/// A constant. Its value has to be of the type that is written, if one is.
pub(crate) fn constant_seen<'a>(
    f: &Facts<'a>,
    w: &mut Walk,
    item: u32,
    own: &'a Constant,
) -> Result<ItemSeen, AllocError>
    ensures { IfOk result (λ j. JudgesNamed f.now (shown w.old) (shown w.new) item (d.Constant own.now) j) }
{
    let ConstantParts { faults, value } = constant_parts(f, w, item, own)?;
    let value_type = typed_value(f, &mut w.types, &value)?;
    Ok(ItemSeen {
        faults,
        named_type: None,
        value_type,
        value,
        members: Vec::new(f.alloc),
    })
}

fn constant_parts<'a>(
    f: &Facts<'a>,
    w: &mut Walk,
    item: u32,
    own: &'a Constant,
) -> Result<ConstantParts, AllocError>
    ensures { IfOk result (λ p. WalksTo f.now (outside item) (outside item) (shown w.old) (shown w.new) (TypesNamedValue p own.now)) }
{
    let mut s = TypeEnv::new(f.alloc, item);
    let written = written_type(f, w, &mut s, &own.ty)?;
    let ConstantTyping {
        typing,
        untyped: _,
        value,
    } = constant(f, w, &mut s, &own.value)?;
    let by = annotation_of(&w.types, own.value.span, written, typing.ty);
    let first = written_faults(written);
    let both = first.and(typing.faults);
    let faults = both.and(by.faults);
    let value = if_fine(by.is_fine, value);
    Ok(ConstantParts { faults, value })
}

/// The type that is written for a constant, if one is.
fn written_type<'a>(
    f: &Facts<'a>,
    w: &mut Walk,
    s: &mut TypeEnv<'a>,
    ty: &'a Option<TypeExpr>,
) -> Result<Option<Typing>, AllocError>
    ensures { IfOk result (λ j. WalksTo f.now s.old s.new (shown w.old) (shown w.new) (TypesWritten j ty.now)) }
{
    match ty {
        None => Ok(None),
        Some(ty) => {
            let typing = type_expr(f, w, s, ty)?;
            Ok(Some(typing))
        }
    }
}
