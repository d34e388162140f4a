ghost use Rattle.std.specs.Prelude.{ℕ, List, ◌≡◌, Some, None, OnOk, is_some, if◌then◌else◌};
ghost use Rattle.std.specs.Str.{bytes_eq};
ghost use Rattle.base.specs.NameTable.Found.{found, or_else};

use std::alloc::{AllocError, Global};
use std::collections::HashMap;

/// What names stand for. A look-up and a change cost the name's length.
#[derive(Drop)]
pub struct Table<'a, V> {
    entries: HashMap<&'a str, V>,
}

impl<'a, V: Copy> Table<'a, V> {
    /// The table in which no name stands for anything.
    pub fn new(alloc: Global) -> Table<'a, V>
        ensures { (n : List ℕ) → found result n ≡ None }
    {
        Table {
            entries: HashMap::new(alloc),
        }
    }

    /// What the name stands for.
    pub fn get(&self, name: &str) -> Option<V>
        ensures { result ≡ found self.now name.now }
    {
        match self.entries.get(&name) {
            Some(value) => Some(*value),
            None => None,
        }
    }

    /// From now on the name stands for this.
    pub fn put(&mut self, name: &'a str, value: V) -> Result<(), AllocError>
        ensures { OnOk result ((n : List ℕ) → found self.new n ≡ (if bytes_eq n name.now then Some value else found self.old n)) }
    {
        self.entries.insert(name, value)?;
        Ok(())
    }

    /// Whether the name stands for something.
    pub fn has(&self, name: &str) -> bool
        ensures { result ≡ is_some (found self.now name.now) }
    {
        self.get(name).is_some()
    }

    /// From now on the name stands for this, unless it stands for something already.
    pub fn put_new(&mut self, name: &'a str, value: V) -> Result<(), AllocError>
        ensures { OnOk result ((n : List ℕ) → found self.new n ≡ or_else (found self.old n) (if bytes_eq n name.now then Some value else None)) }
    {
        match self.get(name) {
            Some(_) => Ok(()),
            None => {
                self.put(name, value)?;
                Ok(())
            }
        }
    }
}
