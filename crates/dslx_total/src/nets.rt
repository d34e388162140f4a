//! That the network of an accepted text is one in which runs go: its parts fit, and what its procs do keeps its types.
ghost use Rattle.std.specs.Prelude.{◌≡◌, ℕ, List, [], Option, None};
ghost use Rattle.net_core.specs.WellFormed.{AreBehaviorsOf, EachKeepsTypes, IsNet};
ghost use Rattle.dslx_tree.specs.declared.item.Module.{Module};
ghost use Rattle.dslx_meaning.specs.Network.{behaviors_of, network_of};
ghost use Rattle.dslx_meaning.specs.Rules.ModuleRules.{faults_of};
ghost use Rattle.dslx_meaning.specs.Rules.NetworkLimits.{refusal_of};
ghost use Rattle.dslx_core.specs.Designs.{core_behaviors, core_network};
ghost use Rattle.dslx_core.specs.declared.design.Design.{Design};
ghost use Rattle.dslx_core.specs.Networks.Assembly.{IsDesignFrom};
ghost use Rattle.dslx_total.specs.Nets.Numbered.{numbered};
ghost use Rattle.dslx_total.specs.Nets.Slashes.{EndsHaveNoSlash};
ghost use Rattle.dslx_total.specs.Instances.Checked.{AreOfChecked};

/// What the procs of a text do, in their order, is what its network knows of them: states of the same types, the same sites, and
/// words of its channels' widths. So it is with a checked text.
pub fn behaviors_are_of_their_networks()
    ensures texts { (m : Module) (top : Option (List ℕ)) → AreBehaviorsOf (network_of m top) (behaviors_of m top) }
    ensures designs { (design : Design) → AreBehaviorsOf (core_network design) (core_behaviors design) }
{}

/// Where no part of a text breaks a rule or passes a limit, each proc of its network keeps its types: a site only receives or only
/// sends, from states of its type each word that is sent has its channel's width, and the next state is one of the
/// type.
pub fn accepted_behaviors_keep_types()
    ensures { (m : Module) (top : Option (List ℕ)) → faults_of m top ≡ [] → EachKeepsTypes (behaviors_of m top) }
{
    dslx_core::typing::typing::instances_reach_one_another();
    dslx_core::typing::procs::well_typed_procs_have_well_typed_nexts();
    crate::checked::what_is_checked_is_known();
    crate::words::words_of_ends_have_widths();
}

/// A text that isn't refused has a network whose parts fit: each proc opens with a state of its type, each site stands at a channel
/// that goes its way, all sites of one end of a channel stand in one proc, channels hold words of 1 to 128 bits, and there
/// are few of all. Its channels have names of their own where no end of the top proc has a slash in its name; else named by their
/// numbers.
pub fn accepted_networks_are_nets()
    ensures numbered { (m : Module) (top : Option (List ℕ)) → refusal_of m top ≡ None → IsNet (numbered (network_of m top)) }
    ensures named { (m : Module) (top : Option (List ℕ)) → EndsHaveNoSlash m top → refusal_of m top ≡ None → IsNet (network_of m top) }
{
    dslx_core::typing::typing::instances_reach_one_another();
    dslx_core::typing::procs::well_typed_procs_have_well_typed_nexts();
    crate::checked::what_is_checked_is_known();
    crate::words::words_of_ends_have_widths();
    crate::counts::networks_keep_the_limits();
}

/// So has a checked text that is made of checked instances of such a text, and each of its procs keeps its types.
pub fn made_networks_are_nets()
    ensures numbered { (m : Module) (top : Option (List ℕ)) (design : Design) → refusal_of m top ≡ None → (made : IsDesignFrom m top design)
        → AreOfChecked m top made.named_functions → IsNet (numbered (core_network design)) }
    ensures named { (m : Module) (top : Option (List ℕ)) (design : Design) → EndsHaveNoSlash m top → refusal_of m top ≡ None → (made : IsDesignFrom m top design)
        → AreOfChecked m top made.named_functions → IsNet (core_network design) }
    ensures keep { (m : Module) (top : Option (List ℕ)) (design : Design) → faults_of m top ≡ [] → (made : IsDesignFrom m top design) → AreOfChecked m top made.named_functions
        → EachKeepsTypes (core_behaviors design) }
{
    crate::counts::networks_keep_the_limits();
    crate::families::accepted_texts_are_well_typed();
    accepted_behaviors_keep_types();
    accepted_networks_are_nets();
}
