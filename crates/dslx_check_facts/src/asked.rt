//! The parts of other declarations that were asked for, each once, by their numbers.

ghost use Rattle.std.specs.Prelude.{◌≡◌, [], Some, IfOk, OnOk, length, slice_get};
ghost use Rattle.std.specs.Cmp.{partial_equiv_from_equiv};
ghost use Rattle.base.specs.Lists.Prefix.{IsPrefix};
ghost use Rattle.dslx_meaning.specs.Types.{same_bool};
ghost use Rattle.dslx_check_facts.specs.Keys.{fed_by_foreign, same_foreign, same_part};
ghost use Rattle.dslx_check_facts.specs.KeyLaws.{foreign_keys_equivalence, foreign_keys_fed_alike};

use crate::instances::number;
use indexmap::IndexSet;
use std::alloc::{AllocError, Global};
use std::hash::{Hash, Hasher};
use std::marker::Model;

/// A part of the declaration of an item.
#[derive(Clone, Copy)]
pub enum ForeignPart {
    /// The type of the parametric behind a prefix.
    Parameter,
    /// Its default.
    Default,
    /// The types of all arguments or ends, and of the result.
    Signature,
}

/// A part of the declaration of an item behind parametrics of these values, by their numbers. A call or a spawn that rule 3 refuses asks
/// for its type and its value alone.
#[derive(Clone, Copy)]
pub struct ForeignKey {
    pub part: ForeignPart,
    pub item: u32,
    pub prefix: u32,
    pub is_refused: bool,
}

impl PartialEq for ForeignKey {
    ghost eq = { same_foreign };

    ghost laws = { partial_equiv_from_equiv foreign_keys_equivalence };

    fn eq(&self, other: &ForeignKey) -> bool {
        is_same_part(self.part, other.part)
            && (self.item == other.item
                && (self.prefix == other.prefix && is_alike(self.is_refused, other.is_refused)))
    }
}

impl Eq for ForeignKey {
    ghost laws = { foreign_keys_equivalence };
}

impl Hash for ForeignKey {
    ghost hash_input = { fed_by_foreign };

    ghost respects_eq = { foreign_keys_fed_alike };

    fn hash<H: Hasher>(&self, state: &mut H) {
        self.item.hash(state);
        self.prefix.hash(state);
    }
}

fn is_same_part(a: ForeignPart, b: ForeignPart) -> bool
    ensures { result ≡ same_part a b }
{
    match (a, b) {
        (ForeignPart::Parameter, ForeignPart::Parameter) => true,
        (ForeignPart::Default, ForeignPart::Default) => true,
        (ForeignPart::Signature, ForeignPart::Signature) => true,
        _ => false,
    }
}

fn is_alike(a: bool, b: bool) -> bool
    ensures { result ≡ same_bool a b }
{
    if a { b } else { !b }
}

/// The parts of other declarations that were asked for. Contracts see them by their numbers.
pub struct Asked {
    keys: IndexSet<ForeignKey>,
}

/// Written out, so that it is proved once and not wherever one is let go.
impl Drop for Asked {
    fn drop(self) {
        let Asked { keys: _ } = self;
    }
}

impl Model for Asked {
    ghost use Rattle.std.specs.Prelude.{List};
    ghost use Rattle.std.specs.Coded.{codes};
    ghost use Rattle.dslx_check_facts.specs.declared.asked.ForeignKey.{ForeignKey};
    ghost use Rattle.dslx_check_facts.specs.contracts.asked.ForeignKey as stored;

    ghost Value = { List ForeignKey };

    ghost coded = { Prim.hlevel (codes, stored.the_row.coded) };

    ghost view = { λ t. t.keys.keys };
}

impl Asked {
    /// Where nothing was asked for.
    pub fn new(alloc: Global) -> Asked
        ensures { result ≡ [] }
    {
        Asked {
            keys: IndexSet::new(alloc),
        }
    }

    /// How many parts were asked for.
    pub fn len(&self) -> usize
        ensures { result ≡ length self.now }
    {
        self.keys.len()
    }

    /// The part of a number.
    pub fn get(&self, number: u32) -> Option<ForeignKey>
        ensures { result ≡ slice_get self.now number }
    {
        self.keys.get_index(number as usize).copied()
    }

    /// The number of a part, which is asked for now if it wasn't before. More than 2^32 are refused as for want of memory.
    #[tactic(auto, using(crate::proofs::OnKeys::Numbers::foreign_stored, crate::proofs::OnKeys::Numbers::foreign_grow))]
    pub fn number_of(&mut self, key: ForeignKey) -> Result<u32, AllocError>
        ensures number { IfOk result (λ n. slice_get self.new n ≡ Some key) }
        ensures grows { OnOk result (IsPrefix self.old self.new) }
    {
        let (at, _) = self.keys.insert_full(key)?;
        number(at)
    }
}
