//! Which items reach which, by what their texts mention.

ghost use Rattle.std.specs.Prelude.{◌≡◌, ◌<◌, ◌^◌, ◌++◌, ℕ, List, Some, length, MatchBool, IfOk, OnOk};
ghost use Rattle.base.specs.TopoOrder.Needs.{AreClosed, AreMutual, Reaches};
ghost use Rattle.dslx_meaning.specs.Rules.Mentions.{AsEnum, AsFunction, AsPattern, AsProc, AsStruct, AsType, AsValue, is_of_use as the_use};
ghost use Rattle.dslx_check_items.specs.Shown.{mention_shown, use_shown};
ghost use Rattle.dslx_check_items.specs.Reaching.{AreReached, definition_needs as the_needs, item_needs};
ghost use Rattle.dslx_check_items.specs.Inner.Targets.{target_of as the_target, targets_of};

use crate::definitions::mentions_of;
use crate::mention::{Mention, Use};
use crate::table::ItemTable;
use base::topo_order::{groups_of, needing_themselves};
use dslx_tree::Definition;
use sqlite_items::Items;
use std::alloc::{AllocError, Global};

/// Which items of a text reach themselves, and which one another: by mentioning them, or something that reaches them.
#[derive(Drop)]
pub struct Reaching {
    /// Of each item the items that its text mentions.
    pub needs: Vec<Items<u32>>,
    pub groups: Vec<u32>,
    pub loops: Vec<bool>,
}

impl Reaching {
    /// Whether an item reaches itself.
    pub fn is_looping(&self, item: u32) -> bool
        requires { item < length self.now.loops.items }
        ensures { (needs : List (List ℕ)) → AreReached needs self.now → MatchBool result (Reaches needs item item) (¬ (Reaches needs item item)) }
    {
        self.loops[item as usize]
    }

    /// Whether they are one item, or each reaches the other.
    pub fn are_mutual(&self, item: u32, other: u32) -> bool
        requires item { item < length self.now.groups.items }
        requires other { other < length self.now.groups.items }
        ensures { (needs : List (List ℕ)) → AreReached needs self.now → MatchBool result (AreMutual needs item other) (¬ (AreMutual needs item other)) }
    {
        self.groups[item as usize] == self.groups[other as usize]
    }
}

/// Which items reach which. It takes time and memory as the text is long.
pub fn reaching_of(alloc: Global, items: &ItemTable<'_>) -> Result<Reaching, AllocError>
    ensures { IfOk result (λ reached. AreReached (item_needs items.now.text.now) reached) }
{
    let needs = needs_of(alloc, items)?;
    reached_by(alloc, needs)
}

fn reached_by(alloc: Global, needs: Vec<Items<u32>>) -> Result<Reaching, AllocError>
    requires closed { AreClosed needs.items }
    requires few { length needs.items < 2 ^ 32 }
    ensures { IfOk result (λ reached. AreReached needs.items reached) }
{
    let groups = groups_of(alloc, needs.as_slice())?;
    let loops = needing_themselves(alloc, needs.as_slice())?;
    Ok(Reaching {
        needs,
        groups,
        loops,
    })
}

/// Of each item the items that its text mentions.
fn needs_of(alloc: Global, items: &ItemTable<'_>) -> Result<Vec<Items<u32>>, AllocError>
    ensures { IfOk result (λ needs. needs.items ≡ item_needs items.now.text.now) }
{
    let mut needs = Vec::new(alloc);
    'each: for item in 0..items.len() {
        let definition = items.get(item);
        let needed = definition_needs(alloc, items, definition)?;
        needs.push(needed)?;
    }
    Ok(needs)
}

fn definition_needs(
    alloc: Global,
    items: &ItemTable<'_>,
    definition: &Definition,
) -> Result<Items<u32>, AllocError>
    ensures { IfOk result (λ needs. needs ≡ the_needs items.now.text.now definition.now) }
{
    let mentions = mentions_of(alloc, definition)?;
    let mut needs = Items::new(alloc);
    'each: for i in 0..mentions.len() {
        let mention = &mentions[i];
        push_target(items, mention, &mut needs)?;
    }
    Ok(needs)
}

/// Puts the item that is mentioned behind those that are there.
fn push_target(
    items: &ItemTable<'_>,
    mention: &Mention<'_>,
    needs: &mut Items<u32>,
) -> Result<(), AllocError>
    ensures { OnOk result (needs.new ≡ needs.old ++ targets_of items.now.text.now (mention_shown mention.now)) }
{
    match target_of(items, mention) {
        Some(item) => {
            needs.push(item)?;
            Ok(())
        }
        None => Ok(()),
    }
}

/// The item that is mentioned, if it is of the kind that the use is of.
fn target_of(items: &ItemTable<'_>, mention: &Mention<'_>) -> Option<u32>
    ensures { result ≡ the_target items.now.text.now (mention_shown mention.now) }
{
    match items.item(mention.name) {
        Some(definition) => {
            if is_of_use(mention.use_as, definition) {
                items.find(mention.name)
            } else {
                None
            }
        }
        None => None,
    }
}

fn is_of_use(use_as: Use, definition: &Definition) -> bool
    ensures { result ≡ the_use (use_shown use_as) (Some definition.now) }
{
    match use_as {
        Use::Value => is_constant(definition),
        Use::Pattern => is_constant(definition),
        Use::Type => is_type(definition),
        Use::Function => is_function(definition),
        Use::Proc => is_proc(definition),
        Use::Enum => is_enum(definition),
        Use::Struct => is_struct(definition),
    }
}

fn is_constant(definition: &Definition) -> bool
    ensures value { result ≡ the_use AsValue (Some definition.now) }
    ensures pattern { result ≡ the_use AsPattern (Some definition.now) }
{
    match definition {
        Definition::Constant(_) => true,
        _ => false,
    }
}

fn is_type(definition: &Definition) -> bool
    ensures { result ≡ the_use AsType (Some definition.now) }
{
    match definition {
        Definition::Alias(_) => true,
        Definition::Struct(_) => true,
        Definition::Enum(_) => true,
        _ => false,
    }
}

fn is_function(definition: &Definition) -> bool
    ensures { result ≡ the_use AsFunction (Some definition.now) }
{
    match definition {
        Definition::Function(_) => true,
        _ => false,
    }
}

fn is_proc(definition: &Definition) -> bool
    ensures { result ≡ the_use AsProc (Some definition.now) }
{
    match definition {
        Definition::Proc(_) => true,
        _ => false,
    }
}

fn is_enum(definition: &Definition) -> bool
    ensures { result ≡ the_use AsEnum (Some definition.now) }
{
    match definition {
        Definition::Enum(_) => true,
        _ => false,
    }
}

fn is_struct(definition: &Definition) -> bool
    ensures { result ≡ the_use AsStruct (Some definition.now) }
{
    match definition {
        Definition::Struct(_) => true,
        _ => false,
    }
}
