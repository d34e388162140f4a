//! A checked text that is made of a text's instances simulates the text: it has its network, and its procs do the same.
ghost use Rattle.std.specs.Prelude.{ℕ, List, Option};
ghost use Rattle.dslx_tree.specs.declared.item.Module.{Module};
ghost use Rattle.dslx_meaning.specs.Items.{meanings_of};
ghost use Rattle.dslx_core.specs.CoreOf.{CoreOf};
ghost use Rattle.dslx_core.specs.declared.design.Design.{Design};
ghost use Rattle.dslx_core.specs.Lowering.Instances.{ItemsAreOwn};
ghost use Rattle.dslx_core.specs.Networks.Assembly.{DesignEnds, IsDesignFrom};
ghost use Rattle.dslx_core.specs.Behaviors.WellTypedNexts.{HasWellTypedNexts};

/// A checked text that is made of the instances of a text's functions and procs has the text's network, and from each state of
/// its type and over all words each of its procs does what the text's proc does: the same at each site, and the same next state.
/// Chains of items from its instances end, constants are of their own types, and the `next` of any proc in the network is well-typed and does by
/// the global environment what it does by what the items denote.
pub fn lower_preserves_designs()
    ensures { (m : Module) (top : Option (List ℕ)) (design : Design) → ItemsAreOwn (meanings_of m) → (made : IsDesignFrom m top design) → DesignEnds m top design made → HasWellTypedNexts m top → CoreOf m top design }
{}
