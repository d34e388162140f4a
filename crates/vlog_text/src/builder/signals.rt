ghost use Rattle.std.specs.Prelude.{◌≡◌, [], ◌∷◌, ◌++◌, ℕ, List, Some, None, bytes_eq, if◌then◌else◌, OnOk, OnErr, length, min};
ghost use Rattle.base.specs.NameTable.Found.{or_else};
ghost use Rattle.vlog_text.specs.Builder.Inner.Tabled.{placed};
ghost use Rattle.vlog_text.specs.Builder.Parts.{signal_of, undeclared};

use std::alloc::{AllocError, Global};
use std::collections::HashMap;
use std::marker::Model;
use vlog_tree::Signal;

/// The ports and declarations of a module by their names. Contracts see the list of the names.
#[derive(Drop)]
pub struct Signals<'a> {
    names: Vec<&'a str>,
    places: HashMap<&'a str, u32>,
}

impl<'a> Model for Signals<'a> {
    ghost use Rattle.std.specs.Prelude.{List, ℕ, map};
    ghost use Rattle.vlog_text.specs.Builder.Inner.Tabled.{AreTabled};

    ghost Value = { List (List ℕ) };

    ghost view = { λ s. map (λ n. n.now) s.names.items };

    ghost invariant = { λ s. AreTabled (map (λ n. n.now) s.names.items) s.places };
}

impl<'a> Signals<'a> {
    pub fn new(alloc: Global) -> Signals<'a>
        ensures { result ≡ [] }
    {
        Signals {
            names: Vec::new(alloc),
            places: HashMap::new(alloc),
        }
    }

    /// A port or declaration of this name comes behind those that are there.
    pub fn declare(&mut self, name: &'a str) -> Result<(), AllocError>
        ensures { OnOk result (self.new ≡ self.old ++ name.entry.now ∷ []) }
    {
        let place = short(self.names.as_slice().len());
        self.names.push(name)?;
        match put_new(&mut self.places, name, place) {
            Ok(()) => Ok(()),
            Err(error) => {
                let _name = self.names.pop();
                Err(error)
            }
        }
    }

    /// The signal of a name: the first port or declaration that has it, or a number past all others.
    pub fn signal(&self, name: &str) -> Signal
        ensures { result ≡ record { 0 = signal_of self.now name.now } }
    {
        Signal(self.places.get(&name).copied().unwrap_or(u32::MAX))
    }
}

/// Puts an index under a name that has none.
fn put_new<'a>(
    places: &mut HashMap<&'a str, u32>,
    name: &'a str,
    place: u32,
) -> Result<(), AllocError>
    ensures put { OnOk result ((q : List ℕ) → placed places.new q ≡ or_else (placed places.old q) (if bytes_eq q name.entry.now then Some place else None)) }
    ensures kept { OnErr result ((q : List ℕ) → placed places.new q ≡ placed places.old q) }
{
    if places.get(&name).is_some() {
        return Ok(());
    }
    match places.insert(name, place) {
        Ok(_) => Ok(()),
        Err(_) => Err(AllocError),
    }
}

fn short(place: usize) -> u32
    ensures { result ≡ min place undeclared }
{
    place.min(0xffff_ffff) as u32
}
