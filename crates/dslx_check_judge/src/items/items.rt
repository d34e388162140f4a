//! Constants, aliases, structs and enums.

ghost use Rattle.std.specs.Prelude.{None, IfOk};
ghost use Rattle.dslx_tree.specs.declared.item.Definition.TheVariants as d;
ghost use Rattle.dslx_check_facts.specs.Walks.{shown};
ghost use Rattle.dslx_check_judge.specs.Items.Inner.Kinds.{JudgesNamed};
ghost use Rattle.dslx_check_judge.specs.Items.Judged.{JudgesItem};

use crate::items::constants::constant_seen;
use crate::items::enums::enum_seen;
use crate::items::structs::struct_seen;
use dslx_check_declarations::{ItemSeen, unless_broken};
use dslx_check_facts::{Facts, TypeEnv, Walk};
use dslx_check_parts::type_expr;
use dslx_check_rules::Faults;
use dslx_tree::{Alias, Definition};
use std::alloc::AllocError;

/// What an item comes to, whether something names it or not. A function or a proc comes to nothing but in its instances. Of items of one
/// name the first alone names a type that is an enum.
pub fn item_seen<'a>(
    f: &Facts<'a>,
    w: &mut Walk,
    item: u32,
    is_first: bool,
    definition: &'a Definition,
) -> Result<ItemSeen, AllocError>
    ensures { IfOk result (λ j. JudgesItem f.now (shown w.old) (shown w.new) item is_first definition.now j) }
{
    match definition {
        Definition::Constant(own) => constant_seen(f, w, item, own),
        Definition::Alias(own) => alias_seen(f, w, item, own),
        Definition::Struct(own) => struct_seen(f, w, item, own),
        Definition::Enum(own) => enum_seen(f, w, item, is_first, own),
        Definition::Function(_) => Ok(ItemSeen::of_type(f.alloc, Faults::none(), None)),
        Definition::Proc(_) => Ok(ItemSeen::of_type(f.alloc, Faults::none(), None)),
    }
}

fn alias_seen<'a>(
    f: &Facts<'a>,
    w: &mut Walk,
    item: u32,
    alias: &'a Alias,
) -> Result<ItemSeen, AllocError>
    ensures { IfOk result (λ j. JudgesNamed f.now (shown w.old) (shown w.new) item (d.Alias alias.now) j) }
{
    let mut s = TypeEnv::new(f.alloc, item);
    let ty = type_expr(f, w, &mut s, &alias.ty)?;
    let named = unless_broken(ty.faults, ty.ty);
    Ok(ItemSeen::of_type(f.alloc, ty.faults, named))
}
