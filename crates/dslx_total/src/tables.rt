//! That the functions of an accepted text have an order in which each calls those before it, and so are lowered to a table.
ghost use Rattle.std.specs.Prelude.{◌≡◌, ℕ, List, [], Option};
ghost use Rattle.dslx_tree.specs.declared.item.Module.{Module};
ghost use Rattle.dslx_meaning.specs.Rules.ModuleRules.{faults_of};
ghost use Rattle.dslx_total.specs.Tables.Tables.{FunctionsHaveTable};

/// Where no part of a text breaks a rule or passes a limit, the instances of its functions are lowered to a table in which each calls
/// those before it. All that the text reaches stand in it whose parametrics have values of their own types, and it is
/// no longer than the list of instances that are checked.
pub fn accepted_functions_have_a_table()
    ensures { (m : Module) (top : Option (List ℕ)) → faults_of m top ≡ [] → FunctionsHaveTable m top }
{
    dslx_core::typing::typing::instances_reach_one_another();
    crate::checked::what_is_checked_is_known();
    crate::expressions::lower_total_expression();
    crate::expressions::lower_total_instances();
}
