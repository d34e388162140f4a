//! Names in lists.

ghost use Rattle.std.specs.Prelude.{◌≡◌, ◌∷◌, ℕ, List, [], OnOk};
ghost use Rattle.dslx_meaning.specs.Lists.{is_in};
ghost use Rattle.dslx_meaning.specs.Rules.NameRules as the;
ghost use Rattle.dslx_check_rules.specs.Seen.{seen};
ghost use Rattle.dslx_check_declarations.specs.Names.{AreBefore};

use base::name_table::Table;
use base::texts::Name;
use dslx_check_facts::is_own_name;
use dslx_check_rules::nodes::either;
use dslx_check_rules::{Faults, rule};
use dslx_tree::Ident;
use std::alloc::{AllocError, Global};

/// The names that a list has before. A look-up costs the name's length.
#[derive(Drop)]
pub struct NamesBefore<'a> {
    table: Table<'a, bool>,
}

impl<'a> NamesBefore<'a> {
    /// At the head of a list.
    pub fn new(alloc: Global) -> NamesBefore<'a>
        ensures { AreBefore result [] }
    {
        NamesBefore {
            table: Table::new(alloc),
        }
    }

    /// Whether the list has this name before.
    pub fn has(&self, name: &Name) -> bool
        ensures { (before : List (List ℕ)) → AreBefore self.now before → result ≡ is_in name.now before }
    {
        self.table.has(name.as_str())
    }

    /// From here on the list has this name too.
    #[tactic(auto, using(crate::proofs::OnNames::one_more))]
    pub fn put(&mut self, name: &'a Name) -> Result<(), AllocError>
        ensures { OnOk result ((before : List (List ℕ)) → AreBefore self.old before → AreBefore self.new (name.now ∷ before)) }
    {
        self.table.put(name.as_str(), true)?;
        Ok(())
    }
}

/// Rule 2 in a list of items, fields or members: a builtin's or an effect's name, or one that the list has before.
#[tactic(auto, using(crate::proofs::OnNames::taken))]
pub fn listed_name(is_before: bool, ident: &Ident) -> Faults
    ensures { (before : List (List ℕ)) → is_before ≡ is_in ident.now.name before → result ≡ seen (the.listed_name before ident.now) }
{
    let is_taken = either(is_own_name(&ident.name), is_before);
    Faults::breaks_if(is_taken, rule::NAME_STANDS_ONCE, ident.span)
}
