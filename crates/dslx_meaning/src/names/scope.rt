ghost use Rattle.std.specs.Prelude.{◌≡◌, ◌∷◌, ◌++◌, [], drop, length, OnOk, map, reverse};
ghost use Rattle.std.specs.Option.{option_copied};
ghost use Rattle.dslx_meaning.specs.Environment.{given_in};
ghost use Rattle.dslx_meaning.specs.Names.Bound.{given};

use crate::DslxValue;
use base::texts::Name;
use std::alloc::{AllocError, Global};
use std::marker::Model;

/// A name with the value that it stands for.
#[derive(Drop)]
pub struct Binding<'a> {
    pub name: &'a Name,
    pub value: DslxValue,
}

/// What is bound in a scope. Contracts see the list, the last name first.
#[derive(Drop)]
pub struct Scope<'a> {
    bindings: Vec<Binding<'a>>,
}

impl<'a> Model for Scope<'a> {
    ghost use Rattle.std.specs.Prelude.{List, map, reverse};
    ghost use Rattle.std.specs.Coded.{codes};
    ghost use Rattle.dslx_meaning.specs.Environment.{Given};
    ghost use Rattle.dslx_meaning.specs.contracts.value.DslxValue as values;
    ghost use Rattle.dslx_meaning.specs.Names.Bound.{given};

    ghost Value = { List Given };

    ghost coded = { Prim.hlevel (codes, values.the_row.coded) };

    ghost view = { λ s. reverse (map given s.bindings.items) };
}

impl<'a> Scope<'a> {
    /// Where nothing is bound.
    pub fn new(alloc: Global) -> Scope<'a>
        ensures { result ≡ [] }
    {
        Scope {
            bindings: Vec::new(alloc),
        }
    }

    /// Binds one name more.
    pub fn bind(&mut self, binding: Binding<'a>) -> Result<(), AllocError>
        ensures { OnOk result (self.new ≡ given binding.entry ∷ self.old) }
    {
        self.bindings.push(binding)?;
        Ok(())
    }

    /// How many names are bound.
    #[tactic(auto, using(crate::proofs::OnNames::Ends::counted))]
    pub fn len(&self) -> usize
        ensures { result ≡ length self.now }
    {
        self.bindings.len()
    }

    /// Binds all of these too, in their order.
    #[tactic(auto, using(crate::proofs::OnNames::Ends::joined))]
    pub fn bind_all(&mut self, mut names: Scope<'a>) -> Result<(), AllocError>
        ensures { OnOk result (self.new ≡ names.entry ++ self.old) }
    {
        self.bindings.append(&mut names.bindings)?;
        Ok(())
    }

    /// Forgets as many names, the last ones; all where there are fewer.
    pub fn forget(&mut self, count: usize)
        ensures { self.new ≡ drop count self.old }
    {
        let left = self.bindings.len().saturating_sub(count);
        self.bindings.truncate(left);
    }

    /// The value of the last of this name. It takes time as names are bound.
    pub fn get(&self, name: &Name) -> Option<&DslxValue>
        ensures { option_copied result ≡ given_in name.now self.now }
    {
        let count = self.bindings.len();
        'names: for i in 0..count {
            let binding = &self.bindings[count - 1 - i];
            if *name == *binding.name {
                return Some(&binding.value);
            }
        }
        None
    }
}
