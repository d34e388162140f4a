//! That a text without faults is well-typed: what is made of its instances simulates it.
ghost use Rattle.std.specs.Prelude.{◌≡◌, ℕ, List, [], Option, Some};
ghost use Rattle.dslx_tree.specs.declared.item.Module.{Module};
ghost use Rattle.dslx_tree.specs.declared.process.Proc.{Proc};
ghost use Rattle.dslx_meaning.specs.Network.{family_of, top_proc};
ghost use Rattle.dslx_meaning.specs.Rules.ModuleRules.{faults_of};
ghost use Rattle.dslx_core.specs.CoreOf.{CoreOf};
ghost use Rattle.dslx_core.specs.declared.design.Design.{Design};
ghost use Rattle.dslx_core.specs.Networks.Assembly.{IsDesignFrom};
ghost use Rattle.dslx_total.specs.Instances.Checked.{AreOfChecked};
ghost use Rattle.dslx_total.specs.Tables.Tables.{FunctionsHaveTable};
ghost use Rattle.dslx_total.specs.Texts.WellTypedTexts.{IsWellTypedText};
ghost use Rattle.dslx_total.specs.Families.EachElaborated.{EachElaborated, NextLowers};

/// Where no part of a text breaks a rule or passes a limit, its constants and types are well-typed, and so is each proc in
/// its network: its parametrics have values of their own types, what it does is well-typed, and each word of its
/// channels is a value. So a checked text that is made of its checked instances simulates it.
pub fn accepted_texts_are_well_typed()
    ensures well_typed { (m : Module) (top : Option (List ℕ)) → faults_of m top ≡ [] → IsWellTypedText m top }
    ensures stands { (m : Module) (top : Option (List ℕ)) (design : Design) → faults_of m top ≡ []
        → (made : IsDesignFrom m top design) → AreOfChecked m top made.named_functions → CoreOf m top design }
{
    dslx_core::typing::typing::instances_reach_one_another();
    crate::checked::checked_items_mention_such();
    crate::checked::what_is_checked_is_known();
    crate::expressions::lower_total_expression();
    crate::words::words_of_ends_have_widths();
    crate::texts::well_typed_texts_simulate();
}

/// And the `next` of each proc in its network is lowered to steps and a next state, where the functions of its table are at hand; and
/// its `init` has a value of the type of its state.
pub fn lower_total_nexts()
    ensures { (m : Module) (top : Option (List ℕ)) → faults_of m top ≡ [] → (functions : FunctionsHaveTable m top)
        → (p : Proc) → top_proc m top ≡ Some p → EachElaborated (NextLowers m functions.known.table) (family_of m p).procs }
{
    dslx_core::typing::typing::instances_reach_one_another();
    crate::checked::what_is_checked_is_known();
    crate::expressions::lower_total_expression();
    crate::expressions::members_stand();
    crate::expressions::lower_total_next();
    crate::words::words_of_ends_have_widths();
}
