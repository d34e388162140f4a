//! What a `config` has made so far.

ghost use Rattle.std.specs.Prelude.{◌≡◌, ◌==◌, ◌∷◌, [], ℕ, List, OnOk, is_some, reverse, slice_get};
ghost use Rattle.base.specs.NameTable.Found.{found};
ghost use Rattle.dslx_meaning.specs.Lists.{is_in};
ghost use Rattle.dslx_meaning.specs.Rules.ProcRules as the;
ghost use Rattle.dslx_check_rules.specs.Seen.{seen};
ghost use Rattle.dslx_check_rules.specs.Interned.{ItemNames};
ghost use Rattle.dslx_check_rules.specs.declared.table.row.TypeRow.{TypeRow as Row};
ghost use Rattle.dslx_check_facts.specs.Bound.{bound_names};
ghost use Rattle.dslx_check_declarations.specs.Config.{AddsEnd, AddsString, AreMadeOf, AreMeant, AreStrings, AreUsed, UsesNames, all_once, is_once_if};

use crate::ends::NamedEnd;
use base::name_table::Table;
use base::texts::Name;
use dslx_check_facts::{MemberEnd, TypeEnv};
use dslx_check_rules::{Faults, rule};
use dslx_tree::Ident;
use std::alloc::{AllocError, Global};

/// What the names of a `config`'s ends mean, its strings, and of each end that is used whether it is used once. The names stand in the
/// type environment too. A look-up costs a name's length.
#[derive(Drop)]
pub struct Made<'a> {
    meant: Table<'a, MemberEnd>,
    strings: Table<'a, bool>,
    uses: Table<'a, bool>,
}

impl<'a> Made<'a> {
    /// Where nothing is made.
    pub fn new(alloc: Global) -> Made<'a>
        ensures { (names : ItemNames) (rows later : List Row) → AreMadeOf names rows later result (record { names = []; channel_ends = []; strings = [] }) [] }
    {
        Made {
            meant: Table::new(alloc),
            strings: Table::new(alloc),
            uses: Table::new(alloc),
        }
    }

    /// One end more, which its name means from here on.
    pub fn add(&mut self, end: NamedEnd<'a>) -> Result<(), AllocError>
        ensures { OnOk result (AddsEnd self.old self.new end.entry) }
    {
        self.meant.put(end.name.as_str(), end.end)?;
        Ok(())
    }

    /// One string more.
    pub fn add_string(&mut self, name: &'a Name) -> Result<(), AllocError>
        ensures { OnOk result (AddsString self.old self.new name.now) }
    {
        self.strings.put(name.as_str(), true)?;
        Ok(())
    }

    /// Whether a channel has this string.
    pub fn has_string(&self, name: &Name) -> bool
        ensures { (strings : List (List ℕ)) → AreStrings self.now strings → result ≡ is_in name.now strings }
    {
        self.strings.has(name.as_str())
    }

    /// Whether the name means an end.
    pub fn has_end(&self, name: &Name) -> bool
        ensures { (names : List (List ℕ)) → AreMeant self.now names → result ≡ is_in name.now names }
    {
        self.meant.has(name.as_str())
    }

    /// The end that a name means.
    pub fn end(&self, name: &Name) -> Option<MemberEnd>
        ensures { result ≡ found self.now.meant name.now }
    {
        self.meant.get(name.as_str())
    }

    /// A name is used once more.
    fn use_end(&mut self, name: &'a Name) -> Result<(), AllocError>
        ensures { OnOk result (UsesNames self.old self.new (name.now ∷ [])) }
    {
        let is_new = !self.uses.has(name.as_str());
        self.uses.put(name.as_str(), is_new)?;
        Ok(())
    }

    /// All these names are used.
    pub fn use_all(&mut self, idents: &'a [Ident]) -> Result<(), AllocError>
        ensures { OnOk result (UsesNames self.old self.new (the.ident_names idents.now)) }
    {
        'idents: for ident in idents {
            self.use_end(&ident.name)?;
        }
        Ok(())
    }

    /// Rule 1: an end that isn't declared before.
    pub fn unknown_ends(&self, idents: &[Ident]) -> Faults
        ensures { (names : List (List ℕ)) → AreMeant self.now names → result ≡ seen (the.unknown_ends names idents.now) }
    {
        let mut faults = Faults::none();
        'idents: for ident in idents {
            let is_known = self.has_end(&ident.name);
            let own = Faults::breaks_if(!is_known, rule::NAME_IS_DECLARED, ident.span);
            faults = faults.and(own);
        }
        faults
    }

    /// Whether the name is used once.
    fn is_used_once(&self, name: &Name) -> bool
        ensures { (used : List (List ℕ)) → AreUsed self.now used → result ≡ (the.times_in name.now used == 1) }
    {
        match self.uses.get(name.as_str()) {
            Some(is_once) => is_once,
            None => false,
        }
    }

    /// Whether the end that was declared at this place is used once.
    fn is_once_at(&self, s: &TypeEnv, at: usize) -> bool
        ensures { (used : List (List ℕ)) → AreUsed self.now used → result ≡ is_once_if used (slice_get (reverse s.now.ends) at) }
    {
        match s.ends.at(at) {
            Some((name, _)) => self.is_used_once(name),
            None => false,
        }
    }

    /// Whether each end that is declared is used once.
    pub fn all_once(&self, s: &TypeEnv) -> bool
        ensures { (used : List (List ℕ)) → AreUsed self.now used → result ≡ all_once used (bound_names s.now.ends) }
    {
        'ends: for i in 0..s.ends.len() {
            let is_once = self.is_once_at(s, i);
            if !is_once {
                return false;
            }
        }
        true
    }
}
