ghost use Rattle.std.specs.Prelude.{◌≡◌, ℕ, List, Option};
ghost use Rattle.dslx_tree.specs.declared.item.Module.{Module};
ghost use Rattle.dslx_meaning.specs.Items.{meanings_of};
ghost use Rattle.dslx_meaning.specs.Network.{network_of};
ghost use Rattle.dslx_core.specs.Designs.{core_network};
ghost use Rattle.dslx_core.specs.declared.design.Design.{Design};
ghost use Rattle.dslx_core.specs.Lowering.Instances.{ItemsAreOwn};
ghost use Rattle.dslx_core.specs.Networks.Assembly.{DesignEnds, IsDesignFrom};

/// A checked text that is made of the instances of a text's functions and procs has the text's network: its procs with their
/// paths, states, opening states and sites, and its channels with their names, types and depths, each under the same number.
/// Chains of items from its instances end, and constants are of their own types, as it is in each text that breaks no rule.
pub fn lower_preserves_networks()
    ensures { (m : Module) (top : Option (List ℕ)) (design : Design) → ItemsAreOwn (meanings_of m) → (made : IsDesignFrom m top design) → DesignEnds m top design made → core_network design ≡ network_of m top }
{}
