//! Which checked texts can be elaborated and run.

ghost use Rattle.std.specs.Prelude.{List, Option, ℕ};
ghost use Rattle.dslx_tree.specs.declared.item.Module.{Module};
ghost use Rattle.dslx_core.specs.Networks.Assembly.{IsDesignFrom};
ghost use Rattle.dslx_core.specs.declared.design.Design.{Design};
ghost use Rattle.dslx_interp.specs.Network.Bodies.{ReceivesWords};
ghost use Rattle.dslx_interp.specs.Network.Linked.{IsLinked};

/// In a checked text that is made of a text's instances all ends are there, whether the text is accepted or not.
pub fn made_designs_are_linked()
    ensures { (m : Module) (top : Option (List ℕ)) (design : Design) → IsDesignFrom m top design → IsLinked design }
{}

/// And a word of 1 to 128 bits holds all that is received in it, so that its procs can be bodies.
pub fn made_designs_receive_words()
    ensures { (m : Module) (top : Option (List ℕ)) (design : Design) → IsDesignFrom m top design → ReceivesWords design }
{}
