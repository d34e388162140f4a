//! That the instances of an accepted text can all be made.

ghost use Rattle.std.specs.Prelude.{◌≡◌, ◌≤◌, ℕ, List, [], Option, None, Some, length};
ghost use Rattle.dslx_tree.specs.declared.item.Module.{Module};
ghost use Rattle.dslx_tree.specs.declared.process.Proc.{Proc};
ghost use Rattle.dslx_meaning.specs.Network.{top_proc};
ghost use Rattle.dslx_meaning.specs.Rules.ModuleRules.{instances_of};
ghost use Rattle.dslx_core.specs.Lowering.Functions.{Instantiated};
ghost use Rattle.dslx_core.specs.declared.design.Design.{Design};
ghost use Rattle.dslx_elab.specs.Assembling.{Assembles};
ghost use Rattle.dslx_elab.specs.Orders.{EndsWithTop, IsSpawnOrder};
ghost use Rattle.dslx_elab.specs.Runs.{IsAcceptedText, IsMadeOfChecked, IsOfAccepted};

/// Checked instances of an accepted text's procs, each once and behind those that it spawns, the top's at the end: the checked text of
/// these is there (`Assembles`), where as many instances of functions are allowed as are checked.
pub fn ordered_instances_are_assembled()
    ensures { (m : Module) (top : Option (List ℕ)) (p : Proc) (limit : ℕ) (wanted : List Instantiated) → IsAcceptedText m top → top_proc m top ≡ Some p → length (instances_of m top) ≤ limit
        → IsSpawnOrder m top [] wanted → EndsWithTop m p wanted → Assembles m p limit wanted None → ⊥ }
{
    dslx_total::configs::lower_total_configs();
    dslx_total::counts::networks_keep_the_limits();
    dslx_total::designs::lower_total_reached_nexts();
    dslx_total::tables::accepted_functions_have_a_table();
}

/// And the checked text of these is made of checked instances of functions alone, as `network_there` wants it (`IsOfAccepted`).
pub fn ordered_instances_are_of_accepted()
    ensures accepted { (m : Module) (top : Option (List ℕ)) (p : Proc) (limit : ℕ) (wanted : List Instantiated) (design : Design) → IsAcceptedText m top → top_proc m top ≡ Some p → length (instances_of m top) ≤ limit
        → IsSpawnOrder m top [] wanted → Assembles m p limit wanted (Some design) → IsOfAccepted design }
    ensures made { (m : Module) (top : Option (List ℕ)) (p : Proc) (limit : ℕ) (wanted : List Instantiated) (design : Design) → IsAcceptedText m top → top_proc m top ≡ Some p → length (instances_of m top) ≤ limit
        → IsSpawnOrder m top [] wanted → Assembles m p limit wanted (Some design) → IsMadeOfChecked m top design }
{
    dslx_total::configs::lower_total_configs();
    dslx_total::counts::networks_keep_the_limits();
    dslx_total::designs::lower_total_reached_nexts();
    dslx_total::tables::accepted_functions_have_a_table();
}
