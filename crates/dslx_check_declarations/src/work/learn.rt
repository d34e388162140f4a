//! What is learnt of a text.

ghost use Rattle.std.specs.Prelude.{◌≡◌, OnOk};
ghost use Rattle.dslx_check_declarations.specs.Work.Learnt.{LearnsInstance, LearnsItem, LearnsPart, PutsItem};

use crate::ItemSeen;
use crate::work::places::{put, put_there};
use crate::work::settling::{is_to_hide, note_settled};
use dslx_check_facts::{Facts, ForeignSeen, Sums};
use std::alloc::AllocError;

/// An item is judged: what it comes to is known from here on.
pub fn learn_item(f: &mut Facts, item: u32, seen: ItemSeen) -> Result<(), AllocError>
    ensures { OnOk result (LearnsItem f.old f.new item seen) }
{
    put_item(f, item, seen)?;
    note_settled(f, item)
}

fn put_item(f: &mut Facts, item: u32, seen: ItemSeen) -> Result<(), AllocError>
    ensures { OnOk result (PutsItem f.old f.new item seen) }
{
    let hides = is_to_hide(f, item, seen.named_type);
    put(&mut f.named_types, item, seen.named_type)?;
    put(&mut f.value_types, item, seen.value_type)?;
    put(&mut f.kept.constants, item, seen.value)?;
    put(&mut f.kept.members, item, seen.members)?;
    put(&mut f.kept.hidden, item, hides)?;
    put(&mut f.judged, item, true)
}

/// An instance is done.
pub fn learn_instance(f: &mut Facts, instance: u32, sums: Sums) -> Result<(), AllocError>
    ensures { OnOk result (LearnsInstance f.old f.new instance sums) }
{
    put_there(&mut f.done, instance, sums)
}

/// A part of a declaration is judged.
pub fn learn_part(f: &mut Facts, number: u32, there: ForeignSeen) -> Result<(), AllocError>
    ensures { OnOk result (LearnsPart f.old f.new number there) }
{
    put_there(&mut f.foreign, number, there)
}
