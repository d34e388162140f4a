//! Structs.

ghost use Rattle.std.specs.Prelude.{◌≡◌, ◌==◌, [], IfOk, OnOk, length};
ghost use Rattle.dslx_tree.specs.declared.item.Definition.TheVariants as d;
ghost use Rattle.dslx_check_facts.specs.Walks.{WalkGrows, shown};
ghost use Rattle.dslx_check_declarations.specs.Items.{FindsStruct};
ghost use Rattle.dslx_check_judge.specs.Items.Inner.Kinds.{JudgesNamed, StructNamed};

use crate::items::fields::fields_seen;
use dslx_check_declarations::{ItemSeen, struct_type};
use dslx_check_facts::{Facts, TypeEnv, Walk};
use dslx_check_rules::{Faults, TypeId, rule, type_limits};
use dslx_tree::{Field, Struct};
use std::alloc::AllocError;

/// Rule 31: a struct without fields. The limits on its type stand at its end.
pub(crate) fn struct_seen<'a>(
    f: &Facts<'a>,
    w: &mut Walk,
    item: u32,
    structure: &'a Struct,
) -> Result<ItemSeen, AllocError>
    ensures { IfOk result (λ j. JudgesNamed f.now (shown w.old) (shown w.new) item (d.Struct structure.now) j) }
{
    let mut s = TypeEnv::new(f.alloc, item);
    let fields = structure.fields.as_slice();
    let seen = fields_seen(f, w, &mut s, fields)?;
    let own = Faults::breaks_if(has_none(fields), rule::NO_UNIT_INSIDE, structure.span);
    struct_of(
        f,
        w,
        item,
        structure,
        seen.faults.and(own),
        seen.types.as_slice(),
    )
}

fn has_none(fields: &[Field]) -> bool
    ensures { result ≡ (length fields.now == 0) }
{
    fields.len() == 0
}

/// A struct whose fields have these types, with all that it breaks but for the limits.
fn struct_of(
    f: &Facts,
    w: &mut Walk,
    item: u32,
    structure: &Struct,
    faults: Faults,
    types: &[Option<TypeId>],
) -> Result<ItemSeen, AllocError>
    ensures { IfOk result (λ j. StructNamed (shown w.old) (shown w.new) item structure.now.span.to faults types.now j) }
{
    let ty = type_if_whole(f, w, item, faults, types)?;
    let limits = type_limits(&w.types, structure.span.to, ty);
    Ok(ItemSeen::of_type(f.alloc, faults.and(limits), ty))
}

/// Its type, if nothing is missing.
fn type_if_whole(
    f: &Facts,
    w: &mut Walk,
    item: u32,
    faults: Faults,
    types: &[Option<TypeId>],
) -> Result<Option<TypeId>, AllocError>
    ensures finds { IfOk result (λ t. FindsStruct (shown w.old) (shown w.new) item faults types.now t) }
    ensures postponed { OnOk result (((shown w.new).missing ≡ [] → ⊥) → WalkGrows (shown w.old) (shown w.new)) }
{
    if is_whole(w) {
        struct_type(f, w, item, faults, types)
    } else {
        Ok(None)
    }
}

/// Whether nothing is missing.
pub(crate) fn is_whole(w: &Walk) -> bool
    ensures { result ≡ (length (shown w.now).missing == 0) }
{
    w.missing.len() == 0
}
