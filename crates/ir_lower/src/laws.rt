//! What holds of packages of checked texts, as the contract of a function without a body.

ghost use Rattle.std.specs.Prelude.{◌≡◌, List};
ghost use Rattle.net_core.specs.Behavior.{Behavior};
ghost use Rattle.net_core.specs.declared.net.Net.{Net};
ghost use Rattle.ir_tree.specs.declared.package.Package.{Package};
ghost use Rattle.ir_tree.specs.SameBehavior.{IsDenotedBy};
ghost use Rattle.dslx_core.specs.CoreOf.{EachBehavesAlike};
ghost use Rattle.dslx_core.specs.Designs.{core_behaviors, core_network};
ghost use Rattle.dslx_core.specs.declared.design.Design.{Design};
ghost use Rattle.ir_lower.specs.Lowered.{IsLoweringOf};

/// The package of a checked text means the same as each network that is the checked text's, whose procs do from each state of their types what
/// the checked text's do: so it means the same as the text.
pub fn packages_mean_the_text()
    ensures { (design : Design) (ir : Package) (net : Net) (behaviors : List Behavior) → IsLoweringOf design ir → core_network design ≡ net → EachBehavesAlike (core_behaviors design) behaviors → IsDenotedBy net behaviors ir }
{}
