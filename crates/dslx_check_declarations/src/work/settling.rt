//! Which items are known with all that they mention.

ghost use Rattle.std.specs.Prelude.{◌≡◌, Some, OnOk};
ghost use Rattle.std.specs.List.{list_all};
ghost use Rattle.base.specs.TopoOrder.Needs.{needs_of};
ghost use Rattle.dslx_check_facts.specs.Known.{is_judged as is_judged_item, names_type, settled_at, text_of};
ghost use Rattle.dslx_check_facts.specs.Names.{definition_at};
ghost use Rattle.dslx_check_declarations.specs.Work.Learnt.{NotesSettled};
ghost use Rattle.dslx_check_declarations.specs.Work.Settling.{is_to_hide as is_hidden, may_settle as the_test};

use crate::work::places::put;
use dslx_check_facts::Facts;
use dslx_check_rules::TypeId;
use dslx_tree::Definition;
use std::alloc::AllocError;

/// Notes that an item is judged with all that it mentions, if it is.
#[tactic(auto, using(crate::proofs::OnWork::OnSettled::flag_left, crate::proofs::OnWork::OnSettled::flag_set))]
pub(crate) fn note_settled(f: &mut Facts, item: u32) -> Result<(), AllocError>
    ensures { OnOk result (NotesSettled f.old f.new item) }
{
    if may_settle(f, item) {
        put(&mut f.settled, item, true)
    } else {
        Ok(())
    }
}

/// It is judged, and of what it mentions nothing more is to be known.
fn may_settle(f: &Facts, item: u32) -> bool
    ensures { result ≡ the_test f.now item }
{
    needs_settled(f, item) && is_judged(f, item)
}

fn needs_settled(f: &Facts, item: u32) -> bool
    ensures { result ≡ list_all (settled_at f.now) (needs_of f.now.reaching.needs.items item) }
{
    match f.reaching.needs.get(item as usize) {
        Some(needs) => all_settled(f, needs.as_slice()),
        None => true,
    }
}

fn all_settled(f: &Facts, items: &[u32]) -> bool
    ensures { result ≡ list_all (settled_at f.now) items.now }
{
    items.iter().all(|item| f.is_settled(*item))
}

fn is_judged(f: &Facts, item: u32) -> bool
    ensures { result ≡ is_judged_item f.now item }
{
    match f.judged.get(item as usize) {
        Some(judged) => *judged,
        None => false,
    }
}

/// Whether the values of constants are to be found as if the item were not there: it reaches itself, or it is a type and is refused.
pub(crate) fn is_to_hide(f: &Facts, item: u32, ty: Option<TypeId>) -> bool
    ensures { result ≡ is_hidden f.now item ty }
{
    f.is_looping(item) || names_type_at(f, item) && !ty.is_some()
}

fn names_type_at(f: &Facts, item: u32) -> bool
    ensures { result ≡ names_type (definition_at (text_of f.now).items item) }
{
    if item < f.kept.items.len() {
        is_type(f.kept.items.get(item))
    } else {
        false
    }
}

fn is_type(definition: &Definition) -> bool
    ensures { result ≡ names_type (Some definition.now) }
{
    match definition {
        Definition::Alias(_) => true,
        Definition::Struct(_) => true,
        Definition::Enum(_) => true,
        _ => false,
    }
}
