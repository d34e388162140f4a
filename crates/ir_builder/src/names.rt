ghost use Rattle.std.specs.Prelude.{◌≡◌, ◌∷◌, [], OnOk};
ghost use Rattle.ir_builder.specs.Named.{index_in};

use base::name_table::Table;
use std::alloc::{AllocError, Global};
use std::marker::Model;

/// Names, each of which stands for its index. Contracts see their list, the last one first.
#[derive(Drop)]
pub struct Names<'a> {
    names: Vec<&'a str>,
    places: Table<'a, usize>,
}

impl<'a> Model for Names<'a> {
    ghost use Rattle.std.specs.Prelude.{◌≡◌, ℕ, List, map, reverse};
    ghost use Rattle.base.specs.NameTable.Found.{found};
    ghost use Rattle.ir_builder.specs.Named.{index_in};

    ghost Value = { List (List ℕ) };

    ghost view = { λ n. reverse (map (λ name. name.now) n.names.items) };

    ghost invariant = { λ n. (name : List ℕ) → found n.places name ≡ index_in (reverse (map (λ name. name.now) n.names.items)) name };
}

impl<'a> Names<'a> {
    pub fn new(alloc: Global) -> Names<'a>
        ensures { result ≡ [] }
    {
        Names {
            names: Vec::new(alloc),
            places: Table::new(alloc),
        }
    }

    /// The index of the last one that is spelled so.
    pub fn place(&self, name: &str) -> Option<usize>
        ensures { result ≡ index_in self.now name.now }
    {
        self.places.get(name)
    }

    /// Puts one more. Where memory is wanting none is left.
    pub fn put(&mut self, alloc: Global, name: &'a str) -> Result<(), AllocError>
        ensures { OnOk result (self.new ≡ name.entry.now ∷ self.old) }
    {
        let place = self.names.len();
        if self.places.put(name, place).is_err() || self.names.push(name).is_err() {
            self.names.clear();
            self.places = Table::new(alloc);
            return Err(AllocError);
        }
        Ok(())
    }

    /// Forgets them all.
    pub fn clear(&mut self, alloc: Global)
        ensures { self.new ≡ [] }
    {
        self.names.clear();
        self.places = Table::new(alloc);
    }
}
