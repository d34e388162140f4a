ghost use Rattle.std.specs.Prelude.{◌≡◌, ℕ, List, [], ◌∷◌, ◌++◌};
ghost use Rattle.std.specs.Borrow.{ftrue};

use std::marker::{Model, PhantomData};

/// The names that were asked for, in their order: a list for proofs alone, which has no bytes. Whoever implements
/// [`Files`](crate::Files) keeps one.
#[derive(Drop)]
pub struct Asked {
    marker: PhantomData<u8>,
    pub ghost names: { List (List ℕ) },
}

impl Model for Asked {
    ghost also_owns = { λ _. ftrue };
}

impl Asked {
    pub fn new() -> Asked
        ensures { result.names ≡ [] }
    {
        Asked {
            marker: PhantomData,
        }
    }

    /// The name was asked for.
    pub fn note(&mut self, _name: &[u8])
        ensures { self.new.names ≡ self.old.names ++ _name.now ∷ [] }
    {}
}
