//! What a walk looks up of parts of other declarations. What isn't known is noted.

ghost use Rattle.std.specs.Prelude.{◌≡◌, List, [], Some, IfOk, OnOk};
ghost use Rattle.std.specs.List.{AllByRecursion};
ghost use Rattle.std.specs.Option.{option_copied};
ghost use Rattle.dslx_meaning.specs.Rules.TypeEnvs.{GlobalEnv};
ghost use Rattle.dslx_check_rules.specs.declared.table.row.TypeRow.{TypeRow};
ghost use Rattle.dslx_check_rules.specs.Interned.{HasRowIf};
ghost use Rattle.dslx_check_facts.specs.Keys.{list_or_none};
ghost use Rattle.dslx_check_facts.specs.Known.{FactsHold, Has, HasKnownRows, foreign_at, item_names};
ghost use Rattle.dslx_check_facts.specs.Typings.{HasForeignRows, IsDefault, IsForeign, IsSignature, IsTypingThere, default_of, parameter_of, signature_of};
ghost use Rattle.dslx_check_facts.specs.Walks.{WalkGrows, HasTables, OnlyMisses, WalkShown, shown};

use crate::asked::{ForeignKey, ForeignPart};
use crate::facts::{DefaultThere, Facts, ForeignSeen, SignatureThere, TypingThere};
use crate::walk::{Need, Walk};
use std::alloc::AllocError;

/// What the part of a number comes to.
#[tactic(auto, using(crate::proofs::Lemmas::Walks::noted_is_missing))]
fn seen_at<'f>(
    f: &'f Facts,
    w: &mut Walk,
    number: u32,
) -> Result<Option<&'f ForeignSeen>, AllocError>
    ensures misses { OnOk result (OnlyMisses (shown w.old) (shown w.new)) }
    ensures there { IfOk result (λ there. (shown w.new).missing ≡ [] → Has (option_copied there) (λ t. foreign_at f.now number ≡ Some t)) }
{
    match foreign_there(f, number) {
        Some(there) => Ok(Some(there)),
        None => {
            w.need(Need::Foreign(number))?;
            Ok(None)
        }
    }
}

fn foreign_there<'f>(f: &'f Facts, number: u32) -> Option<&'f ForeignSeen>
    ensures { option_copied result ≡ foreign_at f.now number }
{
    match f.foreign.get(number as usize) {
        Some(Some(there)) => Some(there),
        _ => None,
    }
}

/// What a part of another declaration comes to.
fn foreign_seen<'f>(
    f: &'f Facts,
    w: &mut Walk,
    key: ForeignKey,
) -> Result<Option<&'f ForeignSeen>, AllocError>
    ensures grows { OnOk result (WalkGrows (shown w.old) (shown w.new)) }
    ensures reached { OnOk result ((shown w.new).reached ≡ (shown w.old).reached) }
    ensures rows { IfOk result (λ there. (rows : List TypeRow) → HasKnownRows rows f.now → (shown w.new).missing ≡ [] → Has (option_copied there) (HasForeignRows rows)) }
    ensures seen { IfOk result (λ there. (known : GlobalEnv) (later : WalkShown) → HasTables (shown w.new) later → FactsHold f.now later known → (shown w.new).missing ≡ []
        → Has (option_copied there) (IsForeign (item_names f.now) known later key)) }
{
    let number = w.asked.number_of(key)?;
    let there = seen_at(f, w, number)?;
    Ok(there)
}

/// The type of the parametric of an item behind these values, as its declaration is judged there.
#[tactic(auto, using(crate::proofs::Lemmas::Walks::noted_is_missing))]
pub fn parameter_seen<'f>(
    f: &'f Facts,
    w: &mut Walk,
    item: u32,
    prefix: u32,
    is_refused: bool,
) -> Result<Option<&'f TypingThere>, AllocError>
    ensures grows { OnOk result (WalkGrows (shown w.old) (shown w.new)) }
    ensures reached { OnOk result ((shown w.new).reached ≡ (shown w.old).reached) }
    ensures rows { IfOk result (λ there. (rows : List TypeRow) → HasKnownRows rows f.now → (shown w.new).missing ≡ [] → Has (option_copied there) (λ t. HasRowIf rows t.ty)) }
    ensures seen { IfOk result (λ there. (known : GlobalEnv) (later : WalkShown) → HasTables (shown w.new) later → FactsHold f.now later known → (shown w.new).missing ≡ []
        → Has (option_copied there) (λ t. IsTypingThere (item_names f.now) later is_refused t (known.parameter_in ((item_names f.now).item item) (list_or_none later.prefixes prefix)))) }
{
    let part = ForeignPart::Parameter;
    let key = ForeignKey {
        part,
        item,
        prefix,
        is_refused,
    };
    let seen = foreign_seen(f, w, key)?;
    match parameter_in(seen) {
        Some(there) => Ok(Some(there)),
        None => {
            w.need(Need::Item(item))?;
            Ok(None)
        }
    }
}

/// The default of the parametric of an item behind these values.
#[tactic(auto, using(crate::proofs::Lemmas::Walks::noted_is_missing))]
pub fn default_seen<'f>(
    f: &'f Facts,
    w: &mut Walk,
    item: u32,
    prefix: u32,
    is_refused: bool,
) -> Result<Option<&'f DefaultThere>, AllocError>
    ensures grows { OnOk result (WalkGrows (shown w.old) (shown w.new)) }
    ensures reached { OnOk result ((shown w.new).reached ≡ (shown w.old).reached) }
    ensures rows { IfOk result (λ there. (rows : List TypeRow) → HasKnownRows rows f.now → (shown w.new).missing ≡ [] → Has (option_copied there) (λ d. HasRowIf rows d.typing.ty)) }
    ensures seen { IfOk result (λ there. (known : GlobalEnv) (later : WalkShown) → HasTables (shown w.new) later → FactsHold f.now later known → (shown w.new).missing ≡ []
        → Has (option_copied there) (λ d. IsDefault (item_names f.now) later is_refused d (known.default_in ((item_names f.now).item item) (list_or_none later.prefixes prefix)))) }
{
    let part = ForeignPart::Default;
    let key = ForeignKey {
        part,
        item,
        prefix,
        is_refused,
    };
    let seen = foreign_seen(f, w, key)?;
    match default_in(seen) {
        Some(there) => Ok(Some(there)),
        None => {
            w.need(Need::Item(item))?;
            Ok(None)
        }
    }
}

/// The types of the arguments or ends of an item, and of its result, where its parametrics have these values.
#[tactic(auto, using(crate::proofs::Lemmas::Walks::noted_is_missing))]
pub fn signature_seen<'f>(
    f: &'f Facts,
    w: &mut Walk,
    item: u32,
    prefix: u32,
    is_refused: bool,
) -> Result<Option<&'f SignatureThere>, AllocError>
    ensures grows { OnOk result (WalkGrows (shown w.old) (shown w.new)) }
    ensures reached { OnOk result ((shown w.new).reached ≡ (shown w.old).reached) }
    ensures rows { IfOk result (λ there. (rows : List TypeRow) → HasKnownRows rows f.now → (shown w.new).missing ≡ [] → Has (option_copied there) (λ s. AllByRecursion (HasRowIf rows) s.arguments.items × HasRowIf rows s.result)) }
    ensures seen { IfOk result (λ there. (known : GlobalEnv) (later : WalkShown) → HasTables (shown w.new) later → FactsHold f.now later known → (shown w.new).missing ≡ []
        → Has (option_copied there) (λ s. IsSignature (item_names f.now) later s (known.signature_in ((item_names f.now).item item) (list_or_none later.prefixes prefix)))) }
{
    let part = ForeignPart::Signature;
    let key = ForeignKey {
        part,
        item,
        prefix,
        is_refused,
    };
    let seen = foreign_seen(f, w, key)?;
    match signature_in(seen) {
        Some(there) => Ok(Some(there)),
        None => {
            w.need(Need::Item(item))?;
            Ok(None)
        }
    }
}

fn parameter_in<'f>(seen: Option<&'f ForeignSeen>) -> Option<&'f TypingThere>
    ensures { option_copied result ≡ parameter_of (option_copied seen.entry) }
{
    match seen {
        Some(ForeignSeen::Parameter(there)) => Some(there),
        _ => None,
    }
}

fn default_in<'f>(seen: Option<&'f ForeignSeen>) -> Option<&'f DefaultThere>
    ensures { option_copied result ≡ default_of (option_copied seen.entry) }
{
    match seen {
        Some(ForeignSeen::Default(there)) => Some(there),
        _ => None,
    }
}

fn signature_in<'f>(seen: Option<&'f ForeignSeen>) -> Option<&'f SignatureThere>
    ensures { option_copied result ≡ signature_of (option_copied seen.entry) }
{
    match seen {
        Some(ForeignSeen::Signature(there)) => Some(there),
        _ => None,
    }
}
