//! The items of a text by their names: each use of a name means the first item of it.

ghost use Rattle.std.specs.Prelude.{◌≡◌, None, Some, MatchOption, is_some};
ghost use Rattle.std.specs.Option.{option_copied};
ghost use Rattle.dslx_tree.specs.declared.item.Definition.TheVariants as d;
ghost use Rattle.dslx_meaning.specs.Items.{as_constant, as_enum, as_function, as_struct};
ghost use Rattle.dslx_check_facts.specs.Firsts.{IsMeant, meant_by};
ghost use Rattle.dslx_check_facts.specs.Known.{is_cyclic as is_cyclic_by, loops, same_group};
ghost use Rattle.dslx_check_facts.specs.Names.{IsUnmarked};

use crate::facts::Facts;
use base::texts::Name;
use dslx_tree::{Constant, Definition, Enum, Function, Struct};

impl<'a> Facts<'a> {
    /// The first item of a name, with its number.
    #[tactic(auto, using(crate::proofs::Lemmas::Firsts::meant, crate::proofs::Lemmas::Firsts::nothing_meant))]
    pub fn item(&self, name: &Name) -> Option<(u32, &'a Definition)>
        ensures { MatchOption result (meant_by self.now name.now ≡ None) (λ p. IsMeant self.now name.now p.0 p.1.now) }
    {
        let _text = unmarked(name);
        match self.kept.items.find(name) {
            Some(item) => Some((item, self.kept.items.get(item))),
            None => None,
        }
    }

    /// The function of a name, with its number, if the first item of that name is one.
    pub fn function(&self, name: &Name) -> Option<(u32, &'a Function)>
        ensures { MatchOption result (as_function (meant_by self.now name.now) ≡ None) (λ p. IsMeant self.now name.now p.0 (d.Function p.1.now)) }
    {
        match self.item(name) {
            Some((item, Definition::Function(function))) => Some((item, function)),
            _ => None,
        }
    }

    /// The constant of a name, with its number, if the first item of that name is one.
    pub fn constant(&self, name: &Name) -> Option<(u32, &'a Constant)>
        ensures { MatchOption result (as_constant (meant_by self.now name.now) ≡ None) (λ p. IsMeant self.now name.now p.0 (d.Constant p.1.now)) }
    {
        match self.item(name) {
            Some((item, Definition::Constant(constant))) => Some((item, constant)),
            _ => None,
        }
    }

    /// The struct of a name, with its number, if the first item of that name is one.
    pub fn structure(&self, name: &Name) -> Option<(u32, &'a Struct)>
        ensures { MatchOption result (as_struct (meant_by self.now name.now) ≡ None) (λ p. IsMeant self.now name.now p.0 (d.Struct p.1.now)) }
    {
        match self.item(name) {
            Some((item, Definition::Struct(structure))) => Some((item, structure)),
            _ => None,
        }
    }

    /// The enum of a name, with its number, if the first item of that name is one.
    pub fn choice(&self, name: &Name) -> Option<(u32, &'a Enum)>
        ensures { MatchOption result (as_enum (meant_by self.now name.now) ≡ None) (λ p. IsMeant self.now name.now p.0 (d.Enum p.1.now)) }
    {
        match self.item(name) {
            Some((item, Definition::Enum(choice))) => Some((item, choice)),
            _ => None,
        }
    }

    /// Whether the item reaches itself.
    pub fn is_looping(&self, item: u32) -> bool
        ensures { result ≡ loops self.now item }
    {
        match self.reaching.loops.get(item as usize) {
            Some(loops) => *loops,
            None => false,
        }
    }

    /// Whether the second one is the first, or each of them reaches the other.
    pub fn is_cyclic(&self, owner: u32, item: u32) -> bool
        ensures { result ≡ is_cyclic_by self.now owner item }
    {
        let groups = self.reaching.groups.as_slice();
        owner == item || is_same_group(groups.get(owner as usize), groups.get(item as usize))
    }
}

fn is_same_group(a: Option<&u32>, b: Option<&u32>) -> bool
    ensures { result ≡ same_group (option_copied a.entry) (option_copied b.entry) }
{
    match (a, b) {
        (Some(a), Some(b)) => *a == *b,
        _ => false,
    }
}

/// What is so of each text: its bytes are no marks.
#[tactic(auto, using(crate::proofs::OnNames::Bytes::unmarked_text))]
pub fn unmarked(name: &Name) -> &str
    ensures { IsUnmarked name.now }
{
    let text = name.as_str();
    let _bytes = text.as_bytes();
    text
}
