//! The values of parametrics of a call up to one of them, each list of values once, by its number. A list is the one before and one value
//! more, so a key is small.

ghost use Rattle.std.specs.Prelude.{◌≡◌, ◌<◌, ◌≤◌, ◌⊎◌, ◌∷◌, [], Some, IfOk, OnOk, MatchOption, length, slice_get};
ghost use Rattle.std.specs.List.{fold};
ghost use Rattle.std.specs.Cmp.{partial_equiv_from_equiv};
ghost use Rattle.base.specs.Lists.Prefix.{IsPrefix};
ghost use Rattle.dslx_check_facts.specs.Keys.{fed_by_prefix, list_or_none, same_prefix, same_value_if, word_if};
ghost use Rattle.dslx_check_facts.specs.KeyLaws.{prefixes_equivalence, prefixes_fed_alike};

use crate::instances::{number, word_of};
use dslx_meaning::DslxValue;
use dslx_values::equal_value;
use indexmap::IndexSet;
use std::alloc::{AllocError, Global};
use std::hash::{Hash, Hasher};
use std::marker::Model;

/// The parametrics of a prefix, and the value of the one behind them if it is known.
#[derive(Drop)]
pub struct Prefix {
    pub before: u32,
    pub last: Option<DslxValue>,
}

impl PartialEq for Prefix {
    ghost eq = { same_prefix };

    ghost laws = { partial_equiv_from_equiv prefixes_equivalence };

    fn eq(&self, other: &Prefix) -> bool {
        self.before == other.before && equal_value_if(&self.last, &other.last)
    }
}

impl Eq for Prefix {
    ghost laws = { prefixes_equivalence };
}

impl Hash for Prefix {
    ghost hash_input = { fed_by_prefix };

    ghost respects_eq = { prefixes_fed_alike };

    fn hash<H: Hasher>(&self, state: &mut H) {
        self.before.hash(state);
        word_of_last(&self.last).hash(state);
    }
}

fn equal_value_if(a: &Option<DslxValue>, b: &Option<DslxValue>) -> bool
    ensures { result ≡ same_value_if a.now b.now }
{
    match (a, b) {
        (None, None) => true,
        (Some(a), Some(b)) => equal_value(a, b),
        _ => false,
    }
}

fn word_of_last(value: &Option<DslxValue>) -> u128
    ensures { result ≡ word_if value.now }
{
    match value {
        Some(value) => word_of(value),
        None => 0,
    }
}

/// Lists of values of parametrics. Contracts see them by their numbers, each list with the last value first; that of no parametrics has
/// the number 0.
pub struct Prefixes {
    keys: IndexSet<Prefix>,
}

/// Written out, so that it is proved once and not wherever one is let go.
impl Drop for Prefixes {
    fn drop(self) {
        let Prefixes { keys: _ } = self;
    }
}

impl Model for Prefixes {
    ghost use Rattle.std.specs.Prelude.{List, Option};
    ghost use Rattle.std.specs.Coded.{codes};
    ghost use Rattle.dslx_meaning.specs.declared.value.DslxValue.{DslxValue};
    ghost use Rattle.dslx_meaning.specs.contracts.value.DslxValue as stored;
    ghost use Rattle.dslx_check_facts.specs.Keys.{AreEarlier, lists_of};

    ghost Value = { List (List (Option DslxValue)) };

    ghost coded = { Prim.hlevel (codes, stored.the_row.coded) };

    ghost view = { λ t. lists_of t.keys.keys };

    ghost invariant = { λ t. AreEarlier t.keys.keys };
}

impl Prefixes {
    /// Where there is that of no parametrics alone.
    pub fn new(alloc: Global) -> Prefixes
        ensures { result ≡ [] ∷ [] }
    {
        Prefixes {
            keys: IndexSet::new(alloc),
        }
    }

    /// The number of that of no parametrics.
    pub fn none(&self) -> u32
        ensures { slice_get self.now result ≡ Some [] }
    {
        let _longer = self.keys.len();
        0
    }

    /// The parametrics of a prefix but for the last, and that one's value; of that of no parametrics nothing.
    pub fn last(&self, number: u32) -> Option<&Prefix>
        ensures { MatchOption result ((number ≡ 0) ⊎ (length self.now ≤ number)) (λ p. (p.now.before < number) × (slice_get self.now number ≡ Some (p.now.last ∷ list_or_none self.now p.now.before))) }
    {
        if number == 0 {
            return None;
        }
        self.keys.get_index(number as usize - 1)
    }

    /// The number of a prefix with one parametric more. More than 2^32 - 1 are refused as for want of memory, and so is one of a prefix that
    /// isn't there.
    pub fn longer(&mut self, before: u32, last: Option<DslxValue>) -> Result<u32, AllocError>
        ensures list { IfOk result (λ n. slice_get self.new n ≡ Some (last ∷ list_or_none self.old before)) }
        ensures grows { OnOk result (IsPrefix self.old self.new) }
    {
        if self.keys.len() < before as usize {
            return Err(AllocError);
        }
        let (at, _) = self.keys.insert_full(Prefix { before, last })?;
        number(at + 1)
    }
}
