//! What a walk looks up of other declarations. What isn't known is noted.

ghost use Rattle.std.specs.Prelude.{◌≡◌, ◌&&◌, List, [], false, true, Some, IfOk, OnOk, drop};
ghost use Rattle.std.specs.List.{list_all};
ghost use Rattle.std.specs.Option.{option_copied, option_map};
ghost use Rattle.dslx_tree.specs.declared.item.Struct.{Struct};
ghost use Rattle.dslx_meaning.specs.Items.{as_enum, as_struct};
ghost use Rattle.dslx_meaning.specs.Lists.{and_then};
ghost use Rattle.dslx_meaning.specs.Rules.NameRules as names;
ghost use Rattle.dslx_meaning.specs.Values.{type_of_value};
ghost use Rattle.dslx_meaning.specs.Rules.TypeEnvs.{GlobalEnv};
ghost use Rattle.dslx_check_rules.specs.declared.table.row.TypeRow.{TypeRow};
ghost use Rattle.dslx_check_rules.specs.Seen.{capped};
ghost use Rattle.dslx_check_rules.specs.Interned.{HasRowIf, type_if};
ghost use Rattle.dslx_check_facts.specs.Sums.{and_sums};
ghost use Rattle.dslx_check_facts.specs.Known.{FactsHold, Has, HasKnownRows, IsSum, at_place, done_at, is_judged, item_at, item_names, loops, member_at, member_number as member_number_of};
ghost use Rattle.dslx_check_facts.specs.Walks.{OnlyMisses, WalkShown, instance_at, instances_at, shown};

use crate::facts::{Facts, Sums};
use crate::walk::{Need, Walk};
use base::texts::Name;
use dslx_check_rules::TypeId;
use dslx_meaning::DslxValue;
use dslx_tree::Enum;
use std::alloc::AllocError;

/// Whether an item is judged. One that isn't is noted, unless it reaches itself: it has no type and no value then.
#[tactic(auto, using(crate::proofs::Lemmas::Walks::misses_refl, crate::proofs::Lemmas::Walks::misses_noted, crate::proofs::Lemmas::Walks::noted_is_missing))]
pub fn is_known(f: &Facts, w: &mut Walk, item: u32) -> Result<bool, AllocError>
    ensures known { IfOk result (λ b. b ≡ is_judged f.now item) }
    ensures misses { OnOk result (OnlyMisses (shown w.old) (shown w.new)) }
    ensures loops { OnOk result ((shown w.new).missing ≡ [] → is_judged f.now item ≡ false → loops f.now item ≡ true) }
{
    if is_judged_now(f, item) {
        return Ok(true);
    }
    if !f.is_looping(item) {
        w.need(Need::Item(item))?;
    }
    Ok(false)
}

pub(crate) fn is_judged_now(f: &Facts, item: u32) -> bool
    ensures { result ≡ is_judged f.now item }
{
    match f.judged.get(item as usize) {
        Some(judged) => *judged,
        None => false,
    }
}

/// The type that an item names.
#[tactic(auto, using(crate::proofs::OnLookups::named_row, crate::proofs::OnLookups::named_there, crate::proofs::OnLookups::none_named, crate::proofs::OnLookups::struct_there, crate::proofs::OnLookups::none_struct))]
pub fn named_type(f: &Facts, w: &mut Walk, item: u32) -> Result<Option<TypeId>, AllocError>
    ensures misses { OnOk result (OnlyMisses (shown w.old) (shown w.new)) }
    ensures row { IfOk result (λ ty. (rows : List TypeRow) → HasKnownRows rows f.now → HasRowIf rows ty) }
    ensures ty { IfOk result (λ ty. (known : GlobalEnv) (later : WalkShown) → FactsHold f.now later known → (shown w.new).missing ≡ []
        → type_if (item_names f.now) later.rows ty ≡ known.items.type_named ((item_names f.now).item item)) }
    ensures structure { IfOk result (λ ty. (known : GlobalEnv) (later : WalkShown) (s : Struct) → FactsHold f.now later known → (shown w.new).missing ≡ []
        → as_struct (item_at f.now item) ≡ Some s → type_if (item_names f.now) later.rows ty ≡ known.items.struct_named ((item_names f.now).item item)) }
{
    if is_known(f, w, item)? {
        Ok(type_there(f.named_types.as_slice(), item))
    } else {
        Ok(None)
    }
}

/// The type of the value of a constant.
#[tactic(auto, using(crate::proofs::OnLookups::value_row, crate::proofs::OnLookups::value_type_there, crate::proofs::OnLookups::none_constant))]
pub fn constant_type(f: &Facts, w: &mut Walk, item: u32) -> Result<Option<TypeId>, AllocError>
    ensures misses { OnOk result (OnlyMisses (shown w.old) (shown w.new)) }
    ensures row { IfOk result (λ ty. (rows : List TypeRow) → HasKnownRows rows f.now → HasRowIf rows ty) }
    ensures ty { IfOk result (λ ty. (known : GlobalEnv) (later : WalkShown) → FactsHold f.now later known → (shown w.new).missing ≡ []
        → type_if (item_names f.now) later.rows ty ≡ option_map type_of_value (known.items.constant ((item_names f.now).item item))) }
{
    if is_known(f, w, item)? {
        Ok(type_there(f.value_types.as_slice(), item))
    } else {
        Ok(None)
    }
}

fn type_there(types: &[Option<TypeId>], item: u32) -> Option<TypeId>
    ensures { result ≡ at_place types.now item }
{
    match types.get(item as usize) {
        Some(ty) => *ty,
        None => None,
    }
}

/// What is known of an instance and all that it reaches.
#[tactic(auto, using(crate::proofs::Lemmas::Walks::misses_refl, crate::proofs::Lemmas::Walks::misses_noted, crate::proofs::Lemmas::Walks::noted_is_missing, crate::proofs::OnLookups::done_there))]
pub fn done(f: &Facts, w: &mut Walk, instance: u32) -> Result<Option<Sums>, AllocError>
    ensures misses { OnOk result (OnlyMisses (shown w.old) (shown w.new)) }
    ensures sums { IfOk result (λ sums. (known : GlobalEnv) (later : WalkShown) → FactsHold f.now later known → (shown w.new).missing ≡ []
        → Has sums (IsSum known (instance_at (item_names f.now) later.met instance))) }
{
    match done_now(f, instance) {
        Some(sums) => Ok(Some(sums)),
        None => {
            w.need(Need::Instance(instance))?;
            Ok(None)
        }
    }
}

fn done_now(f: &Facts, instance: u32) -> Option<Sums>
    ensures { result ≡ done_at f.now instance }
{
    match f.done.get(instance as usize) {
        Some(sums) => *sums,
        None => None,
    }
}

/// How many nodes the body of an instance has.
#[tactic(auto, using(crate::proofs::Lemmas::Walks::misses_refl, crate::proofs::Lemmas::Walks::misses_noted, crate::proofs::Lemmas::Walks::noted_is_missing))]
pub fn callee_size(f: &Facts, w: &mut Walk, instance: u32) -> Result<Option<u32>, AllocError>
    ensures misses { OnOk result (OnlyMisses (shown w.old) (shown w.new)) }
    ensures size { IfOk result (λ size. (known : GlobalEnv) (later : WalkShown) → FactsHold f.now later known → (shown w.new).missing ≡ []
        → size ≡ capped (known.body_size (instance_at (item_names f.now) later.met instance))) }
{
    match done_now(f, instance) {
        Some(sums) => Ok(sums.size),
        None => {
            w.need(Need::Size(instance))?;
            Ok(None)
        }
    }
}

/// Whether those that are reached from this place on reach nothing that breaks a rule or passes a limit, and nothing that breaks a rule.
#[derive(Clone, Copy)]
pub struct Reached {
    pub sound: bool,
    pub unbroken: bool,
}

/// What is known of all that is reached from this place on.
pub fn reached_since(f: &Facts, w: &mut Walk, from: usize) -> Result<Reached, AllocError>
    ensures misses { OnOk result (OnlyMisses (shown w.old) (shown w.new)) }
    ensures sound { IfOk result (λ r. (known : GlobalEnv) (later : WalkShown) → FactsHold f.now later known → (shown w.new).missing ≡ []
        → r.sound ≡ list_all known.is_sound (instances_at (item_names f.now) later.met (drop from (shown w.old).reached))) }
    ensures unbroken { IfOk result (λ r. (known : GlobalEnv) (later : WalkShown) → FactsHold f.now later known → (shown w.new).missing ≡ []
        → r.unbroken ≡ list_all known.is_unbroken (instances_at (item_names f.now) later.met (drop from (shown w.old).reached))) }
{
    let mut all = Reached {
        sound: true,
        unbroken: true,
    };
    let count = w.reached.as_slice().len();
    'instances: for i in from..count {
        let instance = w.reached[i];
        let sums = done(f, w, instance)?;
        all = all.and(sums);
    }
    Ok(all)
}

impl Reached {
    /// With one instance more.
    fn and(self, sums: Option<Sums>) -> Reached
        ensures { result ≡ and_sums self sums }
    {
        match sums {
            Some(sums) => Reached {
                sound: self.sound && sums.sound,
                unbroken: self.unbroken && sums.unbroken,
            },
            None => self,
        }
    }
}

/// The number of an enum's first member of a name. It takes time as members stand before it.
fn member_number(choice: &Enum, name: &Name) -> Option<usize>
    ensures { result ≡ member_number_of name.now choice.now.members }
{
    let members = choice.members.as_slice();
    'members: for i in 0..members.len() {
        if *name == members[i].name.name {
            return Some(i);
        }
    }
    None
}

/// Whether an enum has a member of this name.
#[tactic(auto, using(crate::proofs::OnMembers::has_where_numbered, crate::proofs::OnMembers::lacks_where_not_numbered))]
pub fn has_member(choice: &Enum, name: &Name) -> bool
    ensures { result ≡ names.has_member choice.now name.now }
{
    match member_number(choice, name) {
        Some(_) => true,
        None => false,
    }
}

/// The value of the member of a name of an enum.
#[tactic(auto, using(crate::proofs::OnLookups::member_there, crate::proofs::OnLookups::no_member_there, crate::proofs::OnLookups::none_member))]
pub fn member_value<'f>(
    f: &'f Facts,
    w: &mut Walk,
    item: u32,
    choice: &Enum,
    name: &Name,
) -> Result<Option<&'f DslxValue>, AllocError>
    ensures misses { OnOk result (OnlyMisses (shown w.old) (shown w.new)) }
    ensures value { IfOk result (λ v. (known : GlobalEnv) (later : WalkShown) → FactsHold f.now later known → (shown w.new).missing ≡ []
        → as_enum (item_at f.now item) ≡ Some choice.now → option_copied v ≡ known.items.member ((item_names f.now).item item) name.now) }
{
    if is_known(f, w, item)? {
        match member_number(choice, name) {
            Some(member) => Ok(member_there(f, item, member)),
            None => Ok(None),
        }
    } else {
        Ok(None)
    }
}

fn member_there<'f>(f: &'f Facts, item: u32, member: usize) -> Option<&'f DslxValue>
    ensures { option_copied result ≡ member_at f.now item member }
{
    match f.kept.members.get(item as usize) {
        Some(members) => match members.get(member) {
            Some(Some(value)) => Some(value),
            _ => None,
        },
        None => None,
    }
}

/// The type of a member of an enum; one without a value has none.
pub fn member_type(
    f: &Facts,
    w: &mut Walk,
    item: u32,
    choice: &Enum,
    name: &Name,
) -> Result<Option<TypeId>, AllocError>
    ensures misses { OnOk result (OnlyMisses (shown w.old) (shown w.new)) }
    ensures row { IfOk result (λ ty. (rows : List TypeRow) → HasKnownRows rows f.now → HasRowIf rows ty) }
    ensures ty { IfOk result (λ ty. (known : GlobalEnv) (later : WalkShown) → FactsHold f.now later known → (shown w.new).missing ≡ []
        → as_enum (item_at f.now item) ≡ Some choice.now
        → type_if (item_names f.now) later.rows ty
        ≡ and_then (known.items.member ((item_names f.now).item item) name.now) (λ v. known.items.type_named ((item_names f.now).item item))) }
{
    match member_value(f, w, item, choice, name)? {
        Some(_) => {
            let ty = named_type(f, w, item)?;
            Ok(ty)
        }
        None => Ok(None),
    }
}
