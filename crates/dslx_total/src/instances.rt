//! What tables of instances of an accepted text are: each instance has the values of the text's function, and each that the text
//! reaches stands in one.
ghost use Rattle.std.specs.Prelude.{◌≡◌, ◌≤◌, ℕ, List, [], Option, length};
ghost use Rattle.dslx_tree.specs.declared.item.Module.{Module};
ghost use Rattle.dslx_meaning.specs.Items.{meanings_of};
ghost use Rattle.dslx_meaning.specs.Rules.ModuleRules.{faults_of, globals_of, instances_of};
ghost use Rattle.dslx_meaning.specs.Rules.TypeEnvs.{Instance};
ghost use Rattle.dslx_core.specs.Typing.Typed.Numbers.{AllOwn};
ghost use Rattle.dslx_core.specs.Typing.TypingRelations.Closed.{IsOneOf};
ghost use Rattle.dslx_core.specs.Lowering.Functions.{CoreInstance, Instantiated};
ghost use Rattle.dslx_core.specs.Lowering.Instances.{InstancesSimulate};
ghost use Rattle.dslx_core.specs.Machines.Machine.Reached.{IsTable};
ghost use Rattle.dslx_core.specs.Machines.Progress.Missing.{InNoTable};
ghost use Rattle.dslx_total.specs.Instances.Reached.{IsReachedInstance, ExistsInTable};
ghost use Rattle.dslx_total.specs.Instances.Checked.{AreOfChecked};

/// Where no part of a text breaks a rule or passes a limit, each instance of a table of its instances stands for the text's
/// function, if all of these are checked: where that has a value for operands of the types of the arguments, the value is of the type
/// of the result, and the function of the instance's number has it, without signs and names.
pub fn instances_have_their_values()
    ensures { (m : Module) (top : Option (List ℕ)) → faults_of m top ≡ []
        → (table : List CoreInstance) → (made : IsTable m (meanings_of m) table) → AreOfChecked m top made.0 → InstancesSimulate m (meanings_of m) table }
{
    dslx_core::lowering::lower_preserves_instances();
    crate::checked::what_is_checked_is_known();
}

/// The parametric arguments of each instance that is checked are of their own types.
pub fn checked_instances_are_own()
    ensures { (m : Module) (top : Option (List ℕ)) → faults_of m top ≡ []
        → (i : Instance) → IsOneOf i (instances_of m top) → AllOwn (globals_of m).items.type_named i.parametric_args }
{
    dslx_core::typing::typing::instances_reach_one_another();
    dslx_core::typing::typing::looping_items_mean_nothing();
    dslx_core::typing::typing::what_is_checked_is_least();
    dslx_core::typing::known::all_items_are_known();
    dslx_core::typing::accepted::items_of_accepted_texts_are_well_typed();
}

/// Each instance of a function that such a text reaches stands in a table of at most as many instances as are checked. So where at
/// least as many may be open at once, none of them is missing. There are at most 4,096.
pub fn accepted_instances_are_in_a_table()
    ensures stands { (m : Module) (top : Option (List ℕ)) → faults_of m top ≡ []
        → (i : Instantiated) → IsReachedInstance m top i → (limit : ℕ) → length (instances_of m top) ≤ limit → ExistsInTable m limit i }
    ensures made { (m : Module) (top : Option (List ℕ)) → faults_of m top ≡ []
        → (i : Instantiated) → IsReachedInstance m top i → (limit : ℕ) → length (instances_of m top) ≤ limit
        → (before : List CoreInstance) → InNoTable (record { text = m; items = meanings_of m; table = before }) limit i → ⊥ }
    ensures few { (m : Module) (top : Option (List ℕ)) → faults_of m top ≡ [] → length (instances_of m top) ≤ 4096 }
{
    checked_instances_are_own();
    crate::tables::accepted_functions_have_a_table();
}
