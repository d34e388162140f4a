//! What is in scope at a place.

ghost use Rattle.std.specs.Prelude.{◌≡◌, [], List, Option, false};
ghost use Rattle.std.specs.Option.{option_map};
ghost use Rattle.dslx_meaning.specs.Rules.CallRules.{channel_end_at};
ghost use Rattle.dslx_meaning.specs.Rules.TypeEnvs.{GlobalEnv};
ghost use Rattle.dslx_check_rules.specs.declared.table.row.TypeRow.{TypeRow};
ghost use Rattle.dslx_check_rules.specs.Interned.{ItemNames};
ghost use Rattle.dslx_check_facts.specs.TypeEnvs.{end_of, env_of};

use crate::bindings::Bindings;
use base::texts::Name;
use dslx_check_rules::TypeId;
use dslx_meaning::DslxValue;
use dslx_tree::Direction;
use std::alloc::Global;

/// A parametric's value, with the type of that.
#[derive(Drop)]
pub struct ParametricArg {
    pub value: DslxValue,
    pub ty: TypeId,
}

/// A member of a proc: an end of a channel, with the type of its words if they have one.
#[derive(Clone, Copy)]
pub struct MemberEnd {
    pub direction: Direction,
    pub word: Option<TypeId>,
}

/// The type environment of a place.
#[derive(Drop)]
pub struct TypeEnv<'a> {
    /// The item in whose text the place stands.
    pub owner: u32,
    /// Whether a part of the declaration is judged for a call that rule 3 refuses. What its own group declares isn't looked at there, so
    /// that no part asks for itself.
    pub is_declaring: bool,
    /// Parametrics with their values, and those of which no value is known.
    pub parametric_args: Bindings<'a, ParametricArg>,
    pub unknown: Bindings<'a, ()>,
    /// The ends of a `config` that are declared before.
    pub ends: Bindings<'a, ()>,
    /// The bound names, with their types if they have one.
    pub locals: Bindings<'a, Option<TypeId>>,
    /// The proc's members, and which of them have a site before.
    pub members: Bindings<'a, MemberEnd>,
    pub used: Bindings<'a, ()>,
}

impl<'a> TypeEnv<'a> {
    /// The type environment of an item's text outside all blocks, with no parametric.
    pub fn new(alloc: Global, owner: u32) -> TypeEnv<'a>
        ensures { result ≡ record { owner = owner; is_declaring = false; parametric_args = []; unknown = []; ends = []; locals = []; members = []; used = [] } }
    {
        TypeEnv {
            owner,
            is_declaring: false,
            parametric_args: Bindings::new(alloc),
            unknown: Bindings::new(alloc),
            ends: Bindings::new(alloc),
            locals: Bindings::new(alloc),
            members: Bindings::new(alloc),
            used: Bindings::new(alloc),
        }
    }

    /// The end that a name stands for: a member's, unless a bound name hides it.
    #[tactic(auto, using(crate::proofs::OnEnds::hidden_end, crate::proofs::OnEnds::found_end))]
    pub fn channel_end(&self, name: &Name) -> Option<MemberEnd>
        ensures { (names : ItemNames) (rows : List TypeRow) (known : GlobalEnv)
            → channel_end_at (env_of names rows known self.now) name.now ≡ option_map (λ e. end_of names rows (name.now, e)) result }
    {
        match self.locals.get(name) {
            Some(_) => None,
            None => self.members.get(name).copied(),
        }
    }
}
