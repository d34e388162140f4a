//! Items are judged.

ghost use Rattle.std.specs.Prelude.{◌≡◌, Some, false, true, OnOk};
ghost use Rattle.dslx_meaning.specs.Items.{name_of_definition};
ghost use Rattle.dslx_check_facts.specs.Known.{is_judged as is_judged_item, item_names, text_of};
ghost use Rattle.dslx_check_facts.specs.Names.{definition_at};
ghost use Rattle.dslx_check_facts.specs.Walks.{OnlyMisses, shown};
ghost use Rattle.dslx_check_judge.specs.Items.Judged.{is_learnt};
ghost use Rattle.dslx_check_tasks.specs.Standing.{WorkGoesOn};
ghost use Rattle.dslx_check_tasks.specs.Told.{TellsItem};

use crate::laws::what_is_known;
use crate::work::{Work, begin, is_missing, there, walked};
use dslx_check_declarations::ItemSeen;
use dslx_check_declarations::work::learn_item;
use dslx_check_declarations::work::places::put_there;
use dslx_check_facts::{Facts, Need, Walk, is_known};
use dslx_check_items::ident_of;
use dslx_check_judge::items::item_seen;
use dslx_check_uses::definition;
use dslx_tree::Definition;
use std::alloc::AllocError;

impl<'a> Work<'a> {
    /// Judges an item, unless it is judged, or puts it back.
    pub(crate) fn judge_item(&mut self, item: u32) -> Result<(), AllocError>
        ensures { OnOk result (WorkGoesOn self.old self.new) }
    {
        if there(self.items.as_slice(), item).is_some() {
            return Ok(());
        }
        if is_judged(&self.facts, item) {
            return Err(AllocError);
        }
        if self.waits(item)? {
            return self.postpone(Need::Item(item));
        }
        match definition(&self.facts, item) {
            None => Err(AllocError),
            Some(own) => self.walk_item(item, own),
        }
    }

    /// Whether it mentions items that are to be judged before it: constants that mention it are evaluated over all of them.
    fn waits(&mut self, item: u32) -> Result<bool, AllocError>
        ensures goes { OnOk result (WorkGoesOn self.old self.new) }
        ensures rest { OnOk result (self.new ≡ record self.old { walk = self.new.walk }) }
    {
        what_is_known();
        begin(&mut self.walk);
        miss_mentioned(&self.facts, &mut self.walk, item)?;
        Ok(is_missing(&self.walk))
    }

    /// Walks over the text of an item.
    fn walk_item(&mut self, item: u32, own: &'a Definition) -> Result<(), AllocError>
        requires new { is_judged_item self.now.facts item ≡ false }
        requires own { definition_at (text_of self.now.facts).items item ≡ Some own.now }
        ensures { OnOk result (WorkGoesOn self.old self.new) }
    {
        what_is_known();
        begin(&mut self.walk);
        let is_first = is_first(&self.facts, item, own);
        let seen = item_seen(&self.facts, &mut self.walk, item, is_first, own)?;
        if is_missing(&self.walk) {
            self.postpone(Need::Item(item))
        } else {
            let learns = may_be_learnt(is_first, own);
            self.tell_item(item, learns, seen)
        }
    }

    /// What an item comes to is known from here on.
    fn tell_item(&mut self, item: u32, learns: bool, seen: ItemSeen) -> Result<(), AllocError>
        ensures { OnOk result (TellsItem self.old self.new item learns seen) }
    {
        let reaches = walked(self.facts.alloc, &self.walk, seen.faults)?;
        put_there(&mut self.items, item, reaches)?;
        if learns {
            learn_item(&mut self.facts, item, seen)
        } else {
            Ok(())
        }
    }
}

/// Notes the items that an item mentions and that aren't judged, but for those that reach themselves.
fn miss_mentioned(f: &Facts, w: &mut Walk, item: u32) -> Result<(), AllocError>
    ensures { OnOk result (OnlyMisses (shown w.old) (shown w.new)) }
{
    match f.reaching.needs.get(item as usize) {
        None => Ok(()),
        Some(needs) => miss_all(f, w, needs.as_slice()),
    }
}

fn miss_all(f: &Facts, w: &mut Walk, items: &[u32]) -> Result<(), AllocError>
    ensures { OnOk result (OnlyMisses (shown w.old) (shown w.new)) }
{
    'items: for item in items {
        is_known(f, w, *item)?;
    }
    Ok(())
}

fn is_judged(f: &Facts, item: u32) -> bool
    ensures { result ≡ is_judged_item f.now item }
{
    match f.judged.get(item as usize) {
        Some(judged) => *judged,
        None => false,
    }
}

/// Whether it is the first item of its name.
fn is_first(f: &Facts, item: u32, own: &Definition) -> bool
    ensures { result ≡ true → (item_names f.now).item item ≡ name_of_definition own.now }
{
    match f.item(&ident_of(own).name) {
        Some((first, _)) => first == item,
        None => false,
    }
}

/// What a second enum of a name comes to isn't asked for: its members have values of another name than any in the text.
fn may_be_learnt(is_first: bool, own: &Definition) -> bool
    ensures { result ≡ is_learnt is_first own.now }
{
    match own {
        Definition::Enum(_) => is_first,
        _ => true,
    }
}
