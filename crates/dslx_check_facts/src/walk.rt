//! A walk over a part of a declaration.

ghost use Rattle.std.specs.Prelude.{◌≡◌, ◌++◌, ◌∷◌, [], map, Some, IfOk, OnOk, slice_get};
ghost use Rattle.std.specs.List.{All};
ghost use Rattle.base.specs.Lists.Prefix.{IsPrefix};
ghost use Rattle.dslx_meaning.specs.Types.{received as pair_of, unit_type};
ghost use Rattle.dslx_meaning.specs.declared.ty.DslxType as ty;
ghost use Rattle.dslx_check_rules.specs.declared.table.row.TypeRow.{TypeRow};
ghost use Rattle.dslx_check_rules.specs.Interned.{HasRow, ItemNames, type_at};
ghost use Rattle.dslx_check_facts.specs.Walks.{WalkGrows, OnlyMisses, OnlyTypes, shown};

use crate::asked::Asked;
use crate::instances::{InstanceKey, Instances};
use crate::prefixes::Prefixes;
use dslx_check_rules::{TypeId, TypeTable};
use std::alloc::{AllocError, Global};
use xb_value::Seq;

/// What a walk asked for that isn't known.
#[derive(Clone, Copy)]
pub enum Need {
    /// What a constant, a type, a struct or an enum is.
    Item(u32),
    /// How many nodes the body of an instance has. Nothing else that a walk comes to depends on it.
    Size(u32),
    /// What an instance and all that it reaches come to.
    Instance(u32),
    /// What a part of another declaration comes to.
    Foreign(u32),
}

/// Where a walk stands: what it has met, what it reaches, and what it asked for that isn't known.
#[derive(Drop)]
pub struct Walk {
    pub types: TypeTable,
    pub instances: Instances,
    pub prefixes: Prefixes,
    pub asked: Asked,
    pub reached: Vec<u32>,
    pub missing: Vec<Need>,
}

impl Walk {
    /// A walk that has met nothing.
    pub fn new(alloc: Global) -> Walk
        ensures { shown result ≡ record { rows = []; met = []; prefixes = [] ∷ []; asked = []; reached = []; missing = [] } }
    {
        Walk {
            types: TypeTable::new(alloc),
            instances: Instances::new(alloc),
            prefixes: Prefixes::new(alloc),
            asked: Asked::new(alloc),
            reached: Vec::new(alloc),
            missing: Vec::new(alloc),
        }
    }

    /// Notes what isn't known.
    pub fn need(&mut self, need: Need) -> Result<(), AllocError>
        ensures { OnOk result (shown self.new ≡ record (shown self.old) { missing = (shown self.old).missing ++ need ∷ [] }) }
    {
        self.missing.push(need)?;
        Ok(())
    }

    /// Notes that an instance is reached.
    pub fn reach(&mut self, instance: u32) -> Result<(), AllocError>
        ensures { OnOk result (shown self.new ≡ record (shown self.old) { reached = (shown self.old).reached ++ instance ∷ [] }) }
    {
        self.reached.push(instance)?;
        Ok(())
    }

    /// Notes that all these instances are reached.
    pub fn reach_all(&mut self, instances: &[u32]) -> Result<(), AllocError>
        ensures { OnOk result (shown self.new ≡ record (shown self.old) { reached = (shown self.old).reached ++ instances.now }) }
    {
        self.reached.extend_from_slice(instances)?;
        Ok(())
    }
}
