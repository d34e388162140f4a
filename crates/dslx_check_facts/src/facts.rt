//! What is known of a text.

ghost use Rattle.std.specs.Prelude.{◌≡◌, ℕ, None, false, IfOk, length, slice_get};
ghost use Rattle.dslx_meaning.specs.Lists.{and_then};
ghost use Rattle.dslx_check_items.specs.Reaching.{AreReached, item_needs};
ghost use Rattle.dslx_check_facts.specs.Known.{at_place, is_so, text_of};
ghost use Rattle.dslx_check_facts.specs.Names.{HasNoMarks};
ghost use Rattle.dslx_check_facts.specs.Nothing.{IsNothingKept, IsNothingKnown};

use crate::marks::text_is_plain;
use dslx_check_items::{ItemTable, Reaching, reaching_of};
use dslx_check_rules::{Faults, TypeId};
use dslx_const_tasks::Kept;
use dslx_meaning::DslxValue;
use dslx_tree::Module;
use std::alloc::{AllocError, Global};

/// What an instance comes to with all that it reaches: whether it reaches nothing that breaks a rule or passes a limit, whether it reaches
/// nothing that breaks a rule, and how many nodes its body has.
#[derive(Clone, Copy)]
pub struct Sums {
    pub sound: bool,
    pub unbroken: bool,
    pub size: Option<u32>,
}

/// The typing of a part of another declaration.
#[derive(Drop)]
pub struct TypingThere {
    pub ty: Option<TypeId>,
    pub faults: Faults,
    pub reached: Vec<u32>,
}

/// A default, with its value if it has one.
#[derive(Drop)]
pub struct DefaultThere {
    pub typing: TypingThere,
    pub value: Option<DslxValue>,
}

/// The types of the arguments of a function or the ends of a proc, where `()` is none, and of the result.
#[derive(Drop)]
pub struct SignatureThere {
    pub arguments: Vec<Option<TypeId>>,
    pub result: Option<TypeId>,
}

/// What a part of another declaration comes to.
#[derive(Drop)]
pub enum ForeignSeen {
    Parameter(TypingThere),
    Default(DefaultThere),
    Signature(SignatureThere),
}

/// What is known. Items, instances and parts of other declarations are numbers.
#[derive(Drop)]
pub struct Facts<'a> {
    pub alloc: Global,
    pub kept: Kept<'a>,
    /// Which items reach one another.
    pub reaching: Reaching,
    /// Whether an item that is no function and no proc is judged.
    pub judged: Vec<bool>,
    /// Whether an item is judged, and so is all that it mentions, directly or not, but for what reaches itself.
    pub settled: Vec<bool>,
    /// The type that an item names.
    pub named_types: Vec<Option<TypeId>>,
    /// The type of a constant's value.
    pub value_types: Vec<Option<TypeId>>,
    /// Of each instance that is done.
    pub done: Vec<Option<Sums>>,
    /// Of each part of another declaration that is judged.
    pub foreign: Vec<Option<ForeignSeen>>,
}

impl<'a> Facts<'a> {
    /// Where nothing is known of a text.
    pub fn new(alloc: Global, text: &'a Module) -> Result<Facts<'a>, AllocError>
        ensures text { IfOk result (λ f. text_of f ≡ text.now) }
        ensures reached { IfOk result (λ f. AreReached (item_needs (text_of f)) f.reaching) }
        ensures plain { IfOk result (λ f. HasNoMarks (text_of f)) }
        ensures nothing { IfOk result IsNothingKnown }
    {
        text_is_plain(alloc, text)?;
        let count = text.items.as_slice().len();
        let judged = none_judged(alloc, count)?;
        let settled = none_judged(alloc, count)?;
        let named_types = nothing_each(alloc, count)?;
        let value_types = nothing_each(alloc, count)?;
        let items = ItemTable::new(alloc, text)?;
        let reaching = reaching_of(alloc, &items)?;
        let kept = nothing_kept(alloc, items, reaching.loops.as_slice())?;
        Ok(Facts {
            alloc,
            kept,
            reaching,
            judged,
            settled,
            named_types,
            value_types,
            done: Vec::new(alloc),
            foreign: Vec::new(alloc),
        })
    }
}

/// Where nothing is known of these items. Those that reach themselves are hidden.
fn nothing_kept<'a>(
    alloc: Global,
    items: ItemTable<'a>,
    loops: &[bool],
) -> Result<Kept<'a>, AllocError>
    ensures items { IfOk result (λ kept. kept.items ≡ items.entry) }
    ensures hidden { IfOk result (λ kept. kept.hidden.items ≡ loops.now) }
    ensures nothing { IfOk result IsNothingKept }
{
    let count = items.len() as usize;
    let constants = nothing_each(alloc, count)?;
    let members = no_members(alloc, count)?;
    let hidden = copy_flags(alloc, loops)?;
    Ok(Kept {
        items,
        constants,
        members,
        hidden,
    })
}

fn copy_flags(alloc: Global, flags: &[bool]) -> Result<Vec<bool>, AllocError>
    ensures { IfOk result (λ copy. copy.items ≡ flags.now) }
{
    let mut copy = Vec::new(alloc);
    copy.extend_from_slice(flags)?;
    Ok(copy)
}

/// So many places, in none of which something stands.
fn nothing_each<T: Drop>(alloc: Global, count: usize) -> Result<Vec<Option<T>>, AllocError>
    ensures size { IfOk result (λ places. length places.items ≡ count) }
    ensures none { IfOk result (λ places. (i : ℕ) → at_place places.items i ≡ None) }
{
    let mut places = Vec::new(alloc);
    'each: for _ in 0..count {
        places.push(None)?;
    }
    Ok(places)
}

/// No member of any of so many items.
fn no_members(alloc: Global, count: usize) -> Result<Vec<Vec<Option<DslxValue>>>, AllocError>
    ensures size { IfOk result (λ members. length members.items ≡ count) }
    ensures none { IfOk result (λ members. (i k : ℕ) → and_then (slice_get members.items i) (λ ms. at_place ms.items k) ≡ None) }
{
    let mut members = Vec::new(alloc);
    'each: for _ in 0..count {
        let own = Vec::new(alloc);
        members.push(own)?;
    }
    Ok(members)
}

/// None of so many items is judged.
fn none_judged(alloc: Global, count: usize) -> Result<Vec<bool>, AllocError>
    ensures size { IfOk result (λ judged. length judged.items ≡ count) }
    ensures none { IfOk result (λ judged. (i : ℕ) → is_so (slice_get judged.items i) ≡ false) }
{
    let mut judged = Vec::new(alloc);
    'each: for _ in 0..count {
        judged.push(false)?;
    }
    Ok(judged)
}
