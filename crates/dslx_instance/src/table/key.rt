//! The key of an instance: a name and parametric arguments.

ghost use Rattle.std.specs.Prelude.{◌≡◌};
ghost use Rattle.std.specs.List.{fold, flat_map};
ghost use Rattle.std.specs.Hash as fed;
ghost use Rattle.std.specs.Cmp.{on_equiv, on_per, partial_equiv_from_equiv};
ghost use Rattle.dslx_instance.specs.Table.Keys.{fed_of, key_sought, same_key, word_in};
ghost use Rattle.dslx_instance.specs.Table.KeyLaws.{keys_equivalence, keys_fed_alike};

use base::texts::Name;
use dslx_meaning::DslxValue;
use dslx_values::{bits_of, equal_values};
use indexmap::Equivalent;
use std::hash::{Hash, Hasher};
use xb_value::Seq;

/// A name and its parametric arguments.
#[derive(Drop)]
pub(crate) struct InstanceKey {
    pub(crate) name: Name,
    pub(crate) parametric_args: Seq<DslxValue>,
}

/// A name and parametric arguments that are looked for.
#[derive(Clone, Copy)]
pub(crate) struct SoughtKey<'a> {
    pub(crate) name: &'a Name,
    pub(crate) parametric_args: &'a [DslxValue],
}

impl PartialEq for InstanceKey {
    ghost eq = { same_key };

    ghost laws = { partial_equiv_from_equiv keys_equivalence };

    fn eq(&self, other: &InstanceKey) -> bool {
        self.name == other.name
            && equal_values(
                self.parametric_args.as_slice(),
                other.parametric_args.as_slice(),
            )
    }
}

impl Eq for InstanceKey {
    ghost laws = { keys_equivalence };
}

impl Hash for InstanceKey {
    ghost hash_input = { λ k. fed_of k.name k.parametric_args };

    ghost respects_eq = { keys_fed_alike };

    fn hash<H: Hasher>(&self, state: &mut H) {
        feed(&self.name, self.parametric_args.as_slice(), state);
    }
}

impl<'a> PartialEq for SoughtKey<'a> {
    ghost eq = { λ a b. same_key (key_sought a) (key_sought b) };

    ghost laws = { on_per key_sought (partial_equiv_from_equiv keys_equivalence) };

    fn eq(&self, other: &SoughtKey<'a>) -> bool {
        *self.name == *other.name && equal_values(self.parametric_args, other.parametric_args)
    }
}

impl<'a> Eq for SoughtKey<'a> {
    ghost laws = { on_equiv key_sought keys_equivalence };
}

impl<'a> Hash for SoughtKey<'a> {
    ghost hash_input = { λ q. fed_of q.name.now q.parametric_args.now };

    ghost respects_eq = { λ a b. keys_fed_alike (key_sought a) (key_sought b) };

    fn hash<H: Hasher>(&self, state: &mut H) {
        feed(self.name, self.parametric_args, state);
    }
}

impl<'a> Equivalent<InstanceKey> for SoughtKey<'a> {
    ghost equivalent = { λ q. same_key (key_sought q) };

    ghost respects_hash = { λ q. keys_fed_alike (key_sought q) };

    ghost respects_eq = { λ q. keys_equivalence.congr (key_sought q) };

    fn equivalent(&self, key: &InstanceKey) -> bool {
        *self.name == key.name && equal_values(self.parametric_args, key.parametric_args.as_slice())
    }
}

/// Feeds a name, and the word of each number.
fn feed<H: Hasher>(name: &Name, parametric_args: &[DslxValue], state: &mut H)
    ensures { state.new ≡ fold H.write state.old (fed_of name.now parametric_args.now) }
{
    name.as_str().hash(state);
    'parametric_args: for number in parametric_args {
        word_of(number).hash(state);
    }
}

/// The word of bits; 0 of any other value.
fn word_of(value: &DslxValue) -> u128
    ensures { result ≡ word_in value.now }
{
    match bits_of(value) {
        Some(bits) => bits.word.value(),
        None => 0,
    }
}
