//! Names that are bound around a part of a text.

ghost use Rattle.std.specs.Prelude.{◌≡◌, ℕ, ◌∷◌, [], List, length, map, OnOk};
ghost use Rattle.dslx_meaning.specs.Lists.{is_in};
ghost use Rattle.dslx_meaning.specs.Names.FirstNames.{first_names};

use base::texts::Name;
use std::alloc::{AllocError, Global};
use std::marker::Model;

/// Names that are bound around a part of a text. Contracts see the list, the last name first.
#[derive(Drop)]
pub struct BoundNames<'a> {
    names: Vec<&'a Name>,
}

impl<'a> Model for BoundNames<'a> {
    ghost use Rattle.std.specs.Prelude.{ℕ, List, map, reverse};
    ghost use Rattle.std.specs.Coded.{codes};

    ghost Value = { List (List ℕ) };

    ghost coded = { Prim.hlevel codes };

    ghost view = { λ s. reverse (map {B = List ℕ} (λ name. name.now) s.names.items) };
}

impl<'a> BoundNames<'a> {
    /// Where nothing is bound.
    pub fn new(alloc: Global) -> BoundNames<'a>
        ensures { result ≡ [] }
    {
        BoundNames {
            names: Vec::new(alloc),
        }
    }

    /// Binds one name more.
    pub fn bind(&mut self, name: &'a Name) -> Result<(), AllocError>
        ensures { OnOk result (self.new ≡ name.now ∷ self.old) }
    {
        self.names.push(name)?;
        Ok(())
    }

    /// How many names are bound.
    #[tactic(auto, using(crate::proofs::OnNames::OnBoundNames::counted))]
    pub fn len(&self) -> usize
        ensures { result ≡ length self.now }
    {
        self.names.len()
    }

    /// Whether the name is bound. It takes time as names are bound.
    pub fn has(&self, name: &Name) -> bool
        ensures { result ≡ is_in name.now self.now }
    {
        is_among(name, self.names.as_slice())
    }

    /// Forgets all but the first so many.
    pub fn keep_first(&mut self, count: usize)
        ensures { self.new ≡ first_names count self.old }
    {
        self.names.truncate(count);
    }
}

/// Whether the name is one of these.
fn is_among(name: &Name, names: &[&Name]) -> bool
    ensures { result ≡ is_in name.now (map {B = List ℕ} (λ other. other.now) names.now) }
{
    'names: for other in names {
        if *name == **other {
            return true;
        }
    }
    false
}
