//! The instances that were met, each once, by their numbers.

ghost use Rattle.std.specs.Prelude.{◌≡◌, [], Some, IfOk, OnOk, length, slice_get};
ghost use Rattle.std.specs.List.{fold};
ghost use Rattle.std.specs.Option.{option_copied};
ghost use Rattle.std.specs.Cmp.{partial_equiv_from_equiv};
ghost use Rattle.base.specs.Lists.Prefix.{IsPrefix};
ghost use Rattle.dslx_check_facts.specs.Keys.{fed_by_instance, same_instance_key, word_in};
ghost use Rattle.dslx_check_facts.specs.KeyLaws.{instance_keys_equivalence, instance_keys_fed_alike};

use dslx_meaning::DslxValue;
use dslx_values::equal_values;
use indexmap::IndexSet;
use std::alloc::{AllocError, Global};
use std::hash::{Hash, Hasher};
use std::marker::Model;
use xb_value::Seq;

/// A function or a proc, by the number of its item, with its parametric arguments.
#[derive(Drop)]
pub struct InstanceKey {
    pub item: u32,
    pub parametric_args: Seq<DslxValue>,
}

impl PartialEq for InstanceKey {
    ghost eq = { same_instance_key };

    ghost laws = { partial_equiv_from_equiv instance_keys_equivalence };

    fn eq(&self, other: &InstanceKey) -> bool {
        self.item == other.item
            && equal_values(
                self.parametric_args.as_slice(),
                other.parametric_args.as_slice(),
            )
    }
}

impl Eq for InstanceKey {
    ghost laws = { instance_keys_equivalence };
}

impl Hash for InstanceKey {
    ghost hash_input = { fed_by_instance };

    ghost respects_eq = { instance_keys_fed_alike };

    fn hash<H: Hasher>(&self, state: &mut H) {
        feed(self.item, self.parametric_args.as_slice(), state);
    }
}

/// Feeds an item, and the word of each value.
fn feed<H: Hasher>(item: u32, parametric_args: &[DslxValue], state: &mut H)
    ensures { state.new ≡ fold H.write state.old (fed_by_instance (record { item = item; parametric_args = parametric_args.now })) }
{
    item.hash(state);
    'values: for value in parametric_args {
        word_of(value).hash(state);
    }
}

/// The word of bits and of an enum; 0 of any other value.
pub(crate) fn word_of(value: &DslxValue) -> u128
    ensures { result ≡ word_in value.now }
{
    match value {
        DslxValue::Bits(_, word) => word.value(),
        DslxValue::Enum(_, _, word) => word.value(),
        _ => 0,
    }
}

/// The instances that were met. Contracts see them by their numbers.
pub struct Instances {
    keys: IndexSet<InstanceKey>,
}

/// Written out, so that it is proved once and not wherever one is let go.
impl Drop for Instances {
    fn drop(self) {
        let Instances { keys: _ } = self;
    }
}

impl Model for Instances {
    ghost use Rattle.std.specs.Prelude.{List};
    ghost use Rattle.std.specs.Coded.{codes};
    ghost use Rattle.dslx_check_facts.specs.declared.instances.InstanceKey.{InstanceKey};
    ghost use Rattle.dslx_check_facts.specs.contracts.instances.InstanceKey as stored;

    ghost Value = { List InstanceKey };

    ghost coded = { Prim.hlevel (codes, stored.the_row.coded) };

    ghost view = { λ t. t.keys.keys };
}

impl Instances {
    /// Where none was met.
    pub fn new(alloc: Global) -> Instances
        ensures { result ≡ [] }
    {
        Instances {
            keys: IndexSet::new(alloc),
        }
    }

    /// How many were met.
    pub fn len(&self) -> usize
        ensures { result ≡ length self.now }
    {
        self.keys.len()
    }

    /// The instance of a number.
    pub fn get(&self, number: u32) -> Option<&InstanceKey>
        ensures { option_copied result ≡ slice_get self.now number }
    {
        self.keys.get_index(number as usize)
    }

    /// The number of an instance, which is met now if it wasn't before. More than 2^32 are refused as for want of memory.
    #[tactic(auto, using(crate::proofs::OnKeys::Numbers::instance_stored, crate::proofs::OnKeys::Numbers::instances_grow))]
    pub fn number_of(&mut self, key: InstanceKey) -> Result<u32, AllocError>
        ensures number { IfOk result (λ n. slice_get self.new n ≡ Some key) }
        ensures grows { OnOk result (IsPrefix self.old self.new) }
    {
        let (at, _) = self.keys.insert_full(key)?;
        number(at)
    }
}

/// The number of what stands at this place.
pub(crate) fn number(at: usize) -> Result<u32, AllocError>
    ensures { IfOk result (λ n. n ≡ at) }
{
    match u32::try_from(at) {
        Ok(at) => Ok(at),
        Err(_) => Err(AllocError),
    }
}
