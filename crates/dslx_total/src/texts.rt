//! A checked text that is made of the instances of a text with which nothing is wrong stands for it.
ghost use Rattle.std.specs.Prelude.{ℕ, List, Option};
ghost use Rattle.dslx_tree.specs.declared.item.Module.{Module};
ghost use Rattle.dslx_core.specs.CoreOf.{CoreOf};
ghost use Rattle.dslx_core.specs.declared.design.Design.{Design};
ghost use Rattle.dslx_core.specs.Networks.Assembly.{DesignEnds, IsDesignFrom};
ghost use Rattle.dslx_total.specs.Texts.WellTypedTexts.{IsWellTypedText};

/// What is made of the instances of functions and procs of a text with which nothing is wrong has the text's network, and from
/// each state of its type and over all words each of its procs does what the text's proc does. Chains of mentions from the top proc
/// end, and its functions mean what their texts give.
pub fn well_typed_texts_simulate()
    ensures { (m : Module) (top : Option (List ℕ)) (design : Design) → IsWellTypedText m top → (made : IsDesignFrom m top design) → DesignEnds m top design made → CoreOf m top design }
{
    dslx_core::typing::procs::well_typed_procs_have_well_typed_nexts();
    dslx_core::behaviors::lower_preserves_designs();
}
