//! That each text without faults has a design: a checked text that is made of its instances and simulates it.
ghost use Rattle.std.specs.Prelude.{◌≡◌, ◌≤◌, ℕ, List, [], Option, Some, length};
ghost use Rattle.dslx_tree.specs.declared.item.Module.{Module};
ghost use Rattle.dslx_tree.specs.declared.process.Proc.{Proc};
ghost use Rattle.dslx_meaning.specs.Items.{meanings_of};
ghost use Rattle.dslx_meaning.specs.Network.{top_proc};
ghost use Rattle.dslx_meaning.specs.declared.value.DslxValue.{DslxValue};
ghost use Rattle.dslx_meaning.specs.Rules.ModuleRules.{faults_of, instances_of};
ghost use Rattle.dslx_core.specs.Lowering.Steps.{lower_next, proc_globals};
ghost use Rattle.dslx_core.specs.Machines.Extension.Results.{NoTableGives};
ghost use Rattle.dslx_total.specs.Tables.Tables.{FunctionsHaveTable};
ghost use Rattle.dslx_total.specs.Families.EachElaborated.{NextLowers};
ghost use Rattle.dslx_total.specs.Configs.ReachedProcs.{IsReachedProc};
ghost use Rattle.dslx_total.specs.Designs.Designs.{HasDesign, ProcsHaveTable};

/// Where no part of a text breaks a rule or passes a limit, the `next` of each instance of a proc that is checked is lowered to steps
/// and a next state where the functions of its table are at hand; and its `init` has a value of the type of its state. So it is also
/// where nothing in the top's network spawns it.
pub fn lower_total_reached_nexts()
    ensures { (m : Module) (top : Option (List ℕ)) → faults_of m top ≡ [] → (functions : FunctionsHaveTable m top)
        → (p : Proc) (parametric_args : List DslxValue) → IsReachedProc m top p parametric_args → NextLowers m functions.known.table p parametric_args }
{
    dslx_core::typing::typing::instances_reach_one_another();
    crate::checked::what_is_checked_is_known();
    crate::expressions::lower_total_expression();
    crate::expressions::members_stand();
    crate::expressions::lower_total_next();
    crate::words::words_of_ends_have_widths();
    crate::instances::checked_instances_are_own();
}

/// So none of these is given up where as many instances of functions are allowed as are checked: that no table of at most so many
/// lowers it (`NoTableGives`) isn't so.
pub fn reached_nexts_are_not_given_up()
    ensures { (m : Module) (top : Option (List ℕ)) → faults_of m top ≡ []
        → (p : Proc) (parametric_args : List DslxValue) → IsReachedProc m top p parametric_args → (limit : ℕ) → length (instances_of m top) ≤ limit
        → NoTableGives m limit (λ table. lower_next (proc_globals m (meanings_of m) table p parametric_args) p) → ⊥ }
{
    crate::tables::accepted_functions_have_a_table();
    lower_total_reached_nexts();
}

/// And the procs have an order in which each spawns only those before it: those with shorter chains of items first. So they
/// are lowered to a table, in which the top's instance is the last one. It is no longer than the list of instances that are checked.
pub fn accepted_procs_have_a_table()
    ensures { (m : Module) (top : Option (List ℕ)) → faults_of m top ≡ [] → (functions : FunctionsHaveTable m top)
        → (p : Proc) → top_proc m top ≡ Some p → ProcsHaveTable m top functions.known.table p }
{
    crate::checked::checked_items_mention_such();
    crate::configs::lower_total_configs();
    lower_total_reached_nexts();
}

/// So each text without faults has a checked text that is made of its instances, and that simulates it.
pub fn accepted_texts_have_a_design()
    ensures { (m : Module) (top : Option (List ℕ)) → faults_of m top ≡ [] → HasDesign m top }
{
    crate::tables::accepted_functions_have_a_table();
    crate::families::accepted_texts_are_well_typed();
    crate::configs::lower_total_configs();
    accepted_procs_have_a_table();
}
