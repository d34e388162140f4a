//! That runs of a text's network and of a checked text that simulates it have the same outcome.
ghost use Rattle.std.specs.Prelude.{◌≡◌, ◌<◌, ◌^◌, ℕ, List, Option, None};
ghost use Rattle.xb_bits.specs.Word.{Word};
ghost use Rattle.net_core.specs.Cuts.{final_cut};
ghost use Rattle.net_core.specs.Outcomes.{outcome_of};
ghost use Rattle.net_core.specs.WellFormed.{AreBehaviorsOf, EachKeepsTypes, IsInputs, IsNet, run_of};
ghost use Rattle.dslx_tree.specs.declared.item.Module.{Module};
ghost use Rattle.dslx_meaning.specs.Network.{behaviors_of, network_of};
ghost use Rattle.dslx_meaning.specs.Rules.NetworkLimits.{refusal_of};
ghost use Rattle.dslx_core.specs.CoreOf.{CoreOf};
ghost use Rattle.dslx_core.specs.Designs.{core_behaviors, core_network};
ghost use Rattle.dslx_core.specs.declared.design.Design.{Design};
ghost use Rattle.dslx_core.specs.Networks.Assembly.{IsDesignFrom};
ghost use Rattle.dslx_total.specs.Instances.Checked.{AreOfChecked};

/// Where a checked text simulates a text, and its network is one whose procs keep types, runs of the two have the same outcome,
/// for all inputs, numbers of activations and depths: each channel carries the same words, and each proc ends in the same state
/// or waits at the same site.
pub fn made_designs_have_the_same_outcomes()
    ensures { (m : Module) (top : Option (List ℕ)) (design : Design) (inputs : List (List Word)) (n : ℕ) (depths : List ℕ) →
        CoreOf m top design → IsNet (core_network design) → AreBehaviorsOf (core_network design) (core_behaviors design) → EachKeepsTypes (core_behaviors design)
        → IsInputs (core_network design) inputs → n < 2 ^ 32
        → outcome_of (run_of (network_of m top) (behaviors_of m top) inputs n depths) (final_cut (run_of (network_of m top) (behaviors_of m top) inputs n depths))
        ≡ outcome_of (run_of (core_network design) (core_behaviors design) inputs n depths) (final_cut (run_of (core_network design) (core_behaviors design) inputs n depths)) }
{
    ir_eval::outcomes::same_behavior_has_the_same_outcomes();
}

/// So a text that isn't refused and a checked text that is made of its checked instances have the same outcome, for all inputs that
/// fit the network's channels, numbers of activations and depths.
pub fn accepted_designs_have_the_same_outcomes()
    ensures { (m : Module) (top : Option (List ℕ)) (design : Design) (inputs : List (List Word)) (n : ℕ) (depths : List ℕ) →
        refusal_of m top ≡ None → (made : IsDesignFrom m top design) → AreOfChecked m top made.named_functions → IsInputs (network_of m top) inputs → n < 2 ^ 32
        → outcome_of (run_of (network_of m top) (behaviors_of m top) inputs n depths) (final_cut (run_of (network_of m top) (behaviors_of m top) inputs n depths))
        ≡ outcome_of (run_of (core_network design) (core_behaviors design) inputs n depths) (final_cut (run_of (core_network design) (core_behaviors design) inputs n depths)) }
{
    ir_eval::outcomes::same_behavior_has_the_same_outcomes();
    crate::counts::networks_keep_the_limits();
    crate::families::accepted_texts_are_well_typed();
    crate::nets::accepted_behaviors_keep_types();
    crate::nets::accepted_networks_are_nets();
    crate::nets::behaviors_are_of_their_networks();
}
