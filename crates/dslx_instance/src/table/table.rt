ghost use Rattle.std.specs.Prelude.{◌≡◌, ◌∷◌, ◌++◌, [], IfOk, OnOk, Some, None, is_some, not, length, map, slice_get, if◌then◌else◌};
ghost use Rattle.std.specs.Option.{option_copied, option_map};
ghost use Rattle.indexmap.specs.IndexMap.{get};
ghost use Rattle.dslx_core.specs.Lowering.Functions.{core_function, instance_in};
ghost use Rattle.dslx_instance.specs.Table.Keys.{same_key};

use crate::table::functions::functions_of;
use crate::table::key::{InstanceKey, SoughtKey};
use base::texts::Name;
use dslx_core::Function;
use dslx_core::lowering::{CoreInstance, LoweredFunction};
use dslx_meaning::DslxValue;
use indexmap::IndexMap;
use std::alloc::{AllocError, Global};
use std::marker::Model;
use xb_value::Seq;

/// The instances that are done, by name and parametric arguments. Contracts see them in the order in which they were done.
pub struct InstanceTable {
    functions: IndexMap<InstanceKey, LoweredFunction>,
}

/// Written out, so that it is proved once and not wherever one is let go.
impl Drop for InstanceTable {
    fn drop(self) {
        let InstanceTable { functions: _ } = self;
    }
}

impl Model for InstanceTable {
    ghost use Rattle.std.specs.Prelude.{List, map};
    ghost use Rattle.std.specs.Coded.{codes};
    ghost use Rattle.dslx_core.specs.Lowering.Functions.{CoreInstance};
    ghost use Rattle.dslx_core.specs.contracts.lowering.instance.CoreInstance as instances;
    ghost use Rattle.dslx_instance.specs.Table.Keys.{instance_of};

    ghost Value = { List CoreInstance };

    ghost coded = { Prim.hlevel (codes, instances.the_row.coded) };

    ghost view = { λ t. map instance_of t.functions.entries };
}

impl InstanceTable {
    /// Where none is done.
    pub fn new(alloc: Global) -> InstanceTable
        ensures { result ≡ [] }
    {
        InstanceTable {
            functions: IndexMap::new(alloc),
        }
    }

    /// How many are done.
    pub fn len(&self) -> usize
        ensures { result ≡ length self.now }
    {
        self.functions.len()
    }

    /// Whether the one of this name and these parametric arguments is done.
    #[tactic(auto, using(crate::proofs::OnTable::Found::is_there))]
    pub fn has(&self, name: &Name, parametric_args: &[DslxValue]) -> bool
        ensures { result ≡ is_some (instance_in name.now parametric_args.now 0 self.now) }
    {
        self.functions.contains_key(SoughtKey {
            name,
            parametric_args,
        })
    }

    /// The one of this name and these parametric arguments: its number and its function.
    #[tactic(auto, using(crate::proofs::OnTable::Found::number_found, crate::proofs::OnTable::Found::function_found))]
    pub fn find(
        &self,
        name: &Name,
        parametric_args: &[DslxValue],
    ) -> Option<(usize, &LoweredFunction)>
        ensures number { option_map (λ p. p.0) result ≡ option_map (λ p. p.0) (instance_in name.now parametric_args.now 0 self.now) }
        ensures function { option_map (λ p. p.1.now) result ≡ option_map (λ p. p.1.function) (instance_in name.now parametric_args.now 0 self.now) }
    {
        match self.functions.get_full(SoughtKey {
            name,
            parametric_args,
        }) {
            Some((number, _, function)) => Some((number, function)),
            None => None,
        }
    }

    /// The function of the instance of a number.
    #[tactic(auto, using(crate::proofs::OnTable::Found::function_at))]
    pub fn get(&self, number: usize) -> Option<&LoweredFunction>
        ensures { option_copied result ≡ option_map (λ i. i.function) (slice_get self.now number) }
    {
        match self.functions.get_index(number) {
            Some((_, function)) => Some(function),
            None => None,
        }
    }

    /// Puts one at the end, unless one of its name and parametric arguments is done; whether it is put there.
    #[tactic(auto, using(crate::proofs::OnTable::Found::is_there, crate::proofs::OnTable::Found::put_last))]
    pub fn push(&mut self, instance: CoreInstance) -> Result<bool, AllocError>
        ensures new { IfOk result (λ new. new ≡ not (is_some (instance_in instance.name instance.parametric_args 0 self.old))) }
        ensures table { IfOk result (λ new. self.new ≡ (if new then self.old ++ instance ∷ [] else self.old)) }
    {
        let key = InstanceKey {
            name: instance.name,
            parametric_args: instance.parametric_args,
        };
        put_new(&mut self.functions, key, instance.function)
    }

    /// The functions of a checked text that they are, in order.
    #[tactic(auto, using(crate::proofs::OnTable::Found::functions_at_once))]
    pub fn into_functions(self, alloc: Global) -> Result<Seq<Function>, AllocError>
        ensures { IfOk result (λ functions. functions ≡ map core_function self) }
    {
        let InstanceTable { functions } = self;
        functions_of(alloc, functions.into_values())
    }
}

/// Puts a value at the end, unless there is one of its key; whether it is put there.
#[tactic(auto, using(crate::proofs::OnTable::Found::goes_last))]
fn put_new<V: Drop>(
    map: &mut IndexMap<InstanceKey, V>,
    key: InstanceKey,
    value: V,
) -> Result<bool, AllocError>
    ensures new { IfOk result (λ new. new ≡ not (is_some (get same_key map.old key))) }
    ensures entries { IfOk result (λ new. map.new.entries ≡ (if new then map.old.entries ++ (key, value) ∷ [] else map.old.entries)) }
{
    if map.contains_key(&key) {
        return Ok(false);
    }
    map.insert(key, value)?;
    Ok(true)
}
