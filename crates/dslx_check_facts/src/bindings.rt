//! Names that are bound.

ghost use Rattle.std.specs.Prelude.{◌≡◌, ◌∷◌, ◌++◌, ◌-◌, [], drop, length, is_some, map, reverse, slice_get, OnOk};
ghost use Rattle.std.specs.Option.{option_copied, option_map};
ghost use Rattle.dslx_meaning.specs.Lists.{is_in};
ghost use Rattle.dslx_check_facts.specs.Bound.{bound_in, bound_names, lent_of};

use base::texts::Name;
use std::alloc::{AllocError, Global};
use std::marker::Model;

/// A name with what it stands for.
#[derive(Drop)]
pub struct Binding<'a, T> {
    pub name: &'a Name,
    pub value: T,
}

/// Names with what they stand for. Contracts see the list, the last name first.
#[derive(Drop)]
pub struct Bindings<'a, T> {
    entries: Vec<Binding<'a, T>>,
}

impl<'a, T> Model for Bindings<'a, T> {
    ghost use Rattle.std.specs.Prelude.{ℕ, List, map, reverse};
    ghost use Rattle.std.specs.Coded.{coded_list, coded×, coded_ℕ};
    ghost use Rattle.dslx_check_facts.specs.Bound.{bound_of};

    ghost Value = { List (List ℕ × T) };

    ghost coded = { coded_list (coded× (coded_list coded_ℕ) T.code) };

    ghost view = { λ s. reverse (map bound_of s.entries.items) };
}

impl<'a, T: Drop> Bindings<'a, T> {
    /// Where nothing is bound.
    pub fn new(alloc: Global) -> Bindings<'a, T>
        ensures { result ≡ [] }
    {
        Bindings {
            entries: Vec::new(alloc),
        }
    }

    /// How many names are bound.
    #[tactic(auto, using(crate::proofs::OnBindings::Ends::counted))]
    pub fn len(&self) -> usize
        ensures { result ≡ length self.now }
    {
        self.entries.len()
    }

    /// Binds one name more.
    pub fn bind(&mut self, name: &'a Name, value: T) -> Result<(), AllocError>
        ensures { OnOk result (self.new ≡ (name.now, value) ∷ self.old) }
    {
        self.entries.push(Binding { name, value })?;
        Ok(())
    }

    /// Binds all of these too, in their order.
    #[tactic(auto, using(crate::proofs::OnBindings::Ends::joined))]
    pub fn bind_all(&mut self, mut names: Bindings<'a, T>) -> Result<(), AllocError>
        ensures { OnOk result (self.new ≡ names.entry ++ self.old) }
    {
        self.entries.append(&mut names.entries)?;
        Ok(())
    }

    /// Keeps as many names, the first ones; all where there are fewer.
    #[tactic(auto, using(crate::proofs::OnBindings::Ends::kept))]
    pub fn keep(&mut self, count: usize)
        ensures { self.new ≡ drop (length self.old - count) self.old }
    {
        self.entries.truncate(count);
    }

    /// What the last one of this name stands for. It takes time as names are bound.
    pub fn get(&self, name: &Name) -> Option<&T>
        ensures { option_copied result ≡ bound_in name.now self.now }
    {
        let count = self.entries.len();
        'names: for i in 0..count {
            let binding = &self.entries[count - 1 - i];
            if *name == *binding.name {
                return Some(&binding.value);
            }
        }
        None
    }

    /// The name that was bound at this place, from the first one on, with what it stands for.
    pub fn at(&self, at: usize) -> Option<(&'a Name, &T)>
        ensures { option_map lent_of result ≡ slice_get (reverse self.now) at }
    {
        match binding_at(self.entries.as_slice(), at) {
            Some(binding) => Some((binding.name, &binding.value)),
            None => None,
        }
    }

    /// Whether the name is bound.
    #[tactic(auto, using(crate::proofs::OnBindings::Ends::is_bound, crate::proofs::OnBindings::Ends::is_not_bound))]
    pub fn has(&self, name: &Name) -> bool
        ensures { result ≡ is_in name.now (bound_names self.now) }
    {
        match self.get(name) {
            Some(_) => true,
            None => false,
        }
    }
}

fn binding_at<'b, 'a, T>(entries: &'b [Binding<'a, T>], at: usize) -> Option<&'b Binding<'a, T>>
    ensures { option_copied result ≡ slice_get entries.now at }
{
    entries.get(at)
}
