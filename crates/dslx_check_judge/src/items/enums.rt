//! Enums.

ghost use Rattle.std.specs.Prelude.{◌≡◌, [], IfOk, OnOk};
ghost use Rattle.dslx_tree.specs.declared.item.Definition.TheVariants as d;
ghost use Rattle.dslx_check_facts.specs.Walks.{WalkGrows, shown};
ghost use Rattle.dslx_check_declarations.specs.Scopes.{outside};
ghost use Rattle.dslx_check_declarations.specs.Items.{FindsEnum};
ghost use Rattle.dslx_check_leaves.specs.Walked.{WalksTo};
ghost use Rattle.dslx_check_judge.specs.Items.Inner.Kinds.{EnumNamed, TypesEnum};
ghost use Rattle.dslx_check_judge.specs.Items.Judged.{JudgesItem};

use crate::items::members::{MembersSeen, members_seen};
use crate::items::structs::is_whole;
use base::texts::Name;
use dslx_check_declarations::{ItemSeen, base_if_bits, enum_of_type, member_faults, type_of_enum};
use dslx_check_facts::{Facts, TypeEnv, Walk};
use dslx_check_parts::type_expr;
use dslx_check_rules::{Faults, TypeId};
use dslx_meaning::DslxValue;
use dslx_tree::Enum;
use std::alloc::AllocError;

/// What the parts of an enum come to: what it breaks, its base, and the values of its members.
#[derive(Drop)]
struct EnumParts {
    faults: Faults,
    base: Option<TypeId>,
    values: Vec<Option<DslxValue>>,
}

/// An enum. It names a type only as the first item of its name.
pub(crate) fn enum_seen<'a>(
    f: &Facts<'a>,
    w: &mut Walk,
    item: u32,
    is_first: bool,
    choice: &'a Enum,
) -> Result<ItemSeen, AllocError>
    ensures { IfOk result (λ j. JudgesItem f.now (shown w.old) (shown w.new) item is_first (d.Enum choice.now) j) }
{
    let EnumParts {
        faults,
        base,
        values,
    } = enum_parts(f, w, item, choice)?;
    if is_first {
        enum_of(
            f,
            w,
            item,
            &choice.name.name,
            faults,
            base,
            values.as_slice(),
        )
    } else {
        Ok(ItemSeen::of_type(f.alloc, faults, None))
    }
}

fn enum_parts<'a>(
    f: &Facts<'a>,
    w: &mut Walk,
    item: u32,
    choice: &'a Enum,
) -> Result<EnumParts, AllocError>
    ensures { IfOk result (λ p. WalksTo f.now (outside item) (outside item) (shown w.old) (shown w.new) (TypesEnum p choice.now)) }
{
    let mut s = TypeEnv::new(f.alloc, item);
    let base = type_expr(f, w, &mut s, &choice.base)?;
    let of = base_if_bits(&w.types, base.ty);
    let all = choice.members.as_slice();
    let MembersSeen { faults, values } = members_seen(f, w, &mut s, of, all)?;
    let own = member_faults(f, &w.types, choice.span, base.ty, values.as_slice())?;
    let both = base.faults.and(faults);
    let faults = both.and(own);
    let base = base.ty;
    Ok(EnumParts {
        faults,
        base,
        values,
    })
}

/// An enum of this name with these parts.
fn enum_of(
    f: &Facts,
    w: &mut Walk,
    item: u32,
    name: &Name,
    faults: Faults,
    base: Option<TypeId>,
    values: &[Option<DslxValue>],
) -> Result<ItemSeen, AllocError>
    ensures { IfOk result (λ j. EnumNamed (shown w.old) (shown w.new) item name.now faults base values.now j) }
{
    let ty = type_if_whole(w, item, faults, base)?;
    enum_of_type(f.alloc, name, faults, ty, values)
}

/// Its type, if nothing is missing.
fn type_if_whole(
    w: &mut Walk,
    item: u32,
    faults: Faults,
    base: Option<TypeId>,
) -> Result<Option<TypeId>, AllocError>
    ensures finds { IfOk result (λ t. FindsEnum (shown w.old) (shown w.new) item faults base t) }
    ensures postponed { OnOk result (((shown w.new).missing ≡ [] → ⊥) → WalkGrows (shown w.old) (shown w.new)) }
{
    if is_whole(w) {
        type_of_enum(w, item, faults, base)
    } else {
        Ok(None)
    }
}
