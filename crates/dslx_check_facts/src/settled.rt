//! Items of which nothing more is to be known, nor of what they mention.

ghost use Rattle.std.specs.Prelude.{◌≡◌, [], Some, true, OnOk};
ghost use Rattle.std.specs.List.{AllByRecursion, list_all};
ghost use Rattle.dslx_meaning.specs.Rules.Mentions.{AsEnum, AsFunction, AsPattern, AsProc, AsStruct, AsType, AsValue, is_of_use as the_use, mentioned, names_mentioned};
ghost use Rattle.dslx_meaning.specs.Rules.Namesakes.{told_apart};
ghost use Rattle.dslx_check_items.specs.Shown.{mention_shown, use_shown};
ghost use Rattle.dslx_check_facts.specs.Known.{is_noted_settled, is_settled, settled_at, text_of};
ghost use Rattle.dslx_check_facts.specs.Names.{MentionNoMark};
ghost use Rattle.dslx_check_facts.specs.Walks.{OnlyMisses, shown};
ghost use Rattle.dslx_check_facts.specs.Inner.Settled.{mention_settles};

use crate::facts::Facts;
use crate::lookups::is_judged_now;
use crate::marks::mention_no_mark;
use crate::walk::{Need, Walk};
use base::texts::Name;
use dslx_check_items::{Mention, Use, expr_mentions};
use dslx_tree::{Definition, Expr};
use std::alloc::AllocError;

impl<'a> Facts<'a> {
    /// Whether nothing more is to be known of the item, nor of what it mentions. Of what reaches itself nothing is.
    pub fn is_settled(&self, item: u32) -> bool
        ensures { result ≡ settled_at self.now item }
    {
        self.is_looping(item) || self.is_noted_settled(item)
    }

    fn is_noted_settled(&self, item: u32) -> bool
        ensures { result ≡ is_noted_settled self.now item }
    {
        match self.settled.get(item as usize) {
            Some(settled) => *settled,
            None => false,
        }
    }

    /// Whether the first item of a name is so.
    fn settles(&self, name: &Name) -> bool
        ensures { result ≡ is_settled self.now name.now }
    {
        match self.kept.items.find(name) {
            Some(item) => self.is_settled(item),
            None => false,
        }
    }
}

/// Asks for each item that an expression mentions to be judged, with all that it mentions: notes those that aren't, but for what reaches itself. An item is
/// judged behind all that it mentions, so none is judged and not known so; were there one, it would give up as for want of memory. It takes time as the
/// expression is long.
pub fn ask_settled(f: &Facts, w: &mut Walk, e: &Expr) -> Result<(), AllocError>
    ensures misses { OnOk result (OnlyMisses (shown w.old) (shown w.new)) }
    ensures settled { OnOk result ((shown w.new).missing ≡ [] → list_all (is_settled f.now) (names_mentioned (told_apart (text_of f.now)) (mentioned e.now [])) ≡ true) }
    ensures plain { OnOk result (MentionNoMark (mentioned e.now [])) }
{
    let mentions = expr_mentions(f.alloc, e)?;
    let all = mentions.as_slice();
    mention_no_mark(all);
    ask_all(f, w, all)
}

fn ask_all(f: &Facts, w: &mut Walk, mentions: &[Mention<'_>]) -> Result<(), AllocError>
    ensures misses { OnOk result (OnlyMisses (shown w.old) (shown w.new)) }
    ensures settled { OnOk result ((shown w.new).missing ≡ [] → AllByRecursion (λ m. mention_settles f.now (mention_shown m) ≡ true) mentions.now) }
{
    'mentions: for i in 0..mentions.len() {
        ask_one(f, w, &mentions[i])?;
    }
    Ok(())
}

/// Nothing is asked where no item of the kind that the use is of is mentioned.
fn ask_one(f: &Facts, w: &mut Walk, mention: &Mention<'_>) -> Result<(), AllocError>
    ensures misses { OnOk result (OnlyMisses (shown w.old) (shown w.new)) }
    ensures settled { OnOk result ((shown w.new).missing ≡ [] → mention_settles f.now (mention_shown mention.now) ≡ true) }
{
    if is_one_settled(f, mention) {
        return Ok(());
    }
    match f.kept.items.find(mention.name) {
        Some(item) => ask_item(f, w, item),
        None => Err(AllocError),
    }
}

fn ask_item(f: &Facts, w: &mut Walk, item: u32) -> Result<(), AllocError>
    ensures misses { OnOk result (OnlyMisses (shown w.old) (shown w.new)) }
    ensures missing { OnOk result (¬ ((shown w.new).missing ≡ [])) }
{
    if is_judged_now(f, item) {
        return Err(AllocError);
    }
    w.need(Need::Item(item))
}

/// It is no item of the kind that the use is of, or one of which nothing more is to be known.
fn is_one_settled(f: &Facts, mention: &Mention<'_>) -> bool
    ensures { result ≡ mention_settles f.now (mention_shown mention.now) }
{
    match f.kept.items.item(mention.name) {
        Some(definition) => !is_of_use(mention.use_as, definition) || f.settles(mention.name),
        None => true,
    }
}

fn is_of_use(use_as: Use, definition: &Definition) -> bool
    ensures { result ≡ the_use (use_shown use_as) (Some definition.now) }
{
    match use_as {
        Use::Value => is_constant(definition),
        Use::Pattern => is_constant(definition),
        Use::Type => is_type(definition),
        Use::Function => is_function(definition),
        Use::Proc => is_proc(definition),
        Use::Enum => is_enum(definition),
        Use::Struct => is_struct(definition),
    }
}

fn is_constant(definition: &Definition) -> bool
    ensures value { result ≡ the_use AsValue (Some definition.now) }
    ensures pattern { result ≡ the_use AsPattern (Some definition.now) }
{
    match definition {
        Definition::Constant(_) => true,
        _ => false,
    }
}

fn is_type(definition: &Definition) -> bool
    ensures { result ≡ the_use AsType (Some definition.now) }
{
    match definition {
        Definition::Alias(_) => true,
        Definition::Struct(_) => true,
        Definition::Enum(_) => true,
        _ => false,
    }
}

fn is_function(definition: &Definition) -> bool
    ensures { result ≡ the_use AsFunction (Some definition.now) }
{
    match definition {
        Definition::Function(_) => true,
        _ => false,
    }
}

fn is_proc(definition: &Definition) -> bool
    ensures { result ≡ the_use AsProc (Some definition.now) }
{
    match definition {
        Definition::Proc(_) => true,
        _ => false,
    }
}

fn is_enum(definition: &Definition) -> bool
    ensures { result ≡ the_use AsEnum (Some definition.now) }
{
    match definition {
        Definition::Enum(_) => true,
        _ => false,
    }
}

fn is_struct(definition: &Definition) -> bool
    ensures { result ≡ the_use AsStruct (Some definition.now) }
{
    match definition {
        Definition::Struct(_) => true,
        _ => false,
    }
}
