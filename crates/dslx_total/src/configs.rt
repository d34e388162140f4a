//! That the `config` of each proc of a text without faults is lowered, wherever what it spawns is at hand.
ghost use Rattle.std.specs.Prelude.{◌≡◌, ℕ, List, [], Option, Some};
ghost use Rattle.dslx_tree.specs.declared.item.Module.{Module};
ghost use Rattle.dslx_tree.specs.declared.process.Proc.{Proc};
ghost use Rattle.dslx_meaning.specs.Items.{meanings_of};
ghost use Rattle.dslx_meaning.specs.Network.{top_proc};
ghost use Rattle.dslx_meaning.specs.declared.value.DslxValue.{DslxValue};
ghost use Rattle.dslx_meaning.specs.Rules.ModuleRules.{faults_of};
ghost use Rattle.dslx_total.specs.Configs.ReachedProcs.{IsReachedProc};
ghost use Rattle.dslx_total.specs.Configs.LowersTotally.{ConfigLowers, TopLowers};

/// Where no part of a text breaks a rule or passes a limit, each instance of a proc that is checked spawns such instances alone; and
/// wherever all of these are at hand, its `config` is lowered to channels, children and members. The instance of the top proc is such
/// a one, and the ends of its `config` are lowered to outer channels.
pub fn lower_total_configs()
    ensures configs { (m : Module) (top : Option (List ℕ)) → faults_of m top ≡ []
        → (p : Proc) (parametric_args : List DslxValue) → IsReachedProc m top p parametric_args → ConfigLowers m (meanings_of m) top p parametric_args }
    ensures tops { (m : Module) (top : Option (List ℕ)) → faults_of m top ≡ []
        → (p : Proc) → top_proc m top ≡ Some p → TopLowers m (meanings_of m) top p }
{
    dslx_core::typing::typing::instances_reach_one_another();
    dslx_scope::written_types::lower_total_written_types();
    crate::checked::what_is_checked_is_known();
    crate::instances::checked_instances_are_own();
}
