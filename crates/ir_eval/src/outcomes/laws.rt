//! The law, the contract of a function that calls a law below it.

ghost use Rattle.std.specs.Prelude.{◌≡◌, ◌<◌, ◌^◌, ℕ, List};
ghost use Rattle.xb_bits.specs.Word.{Word};
ghost use Rattle.net_core.specs.declared.net.Net.{Net};
ghost use Rattle.net_core.specs.Behavior.{Behavior};
ghost use Rattle.net_core.specs.Cuts.{final_cut};
ghost use Rattle.net_core.specs.Outcomes.{outcome_of};
ghost use Rattle.net_core.specs.WellFormed.{IsNet, IsInputs, AreBehaviorsOf, EachKeepsTypes, run_of};
ghost use Rattle.ir_tree.specs.declared.package.Package.{Package};
ghost use Rattle.ir_tree.specs.Networks.{network_of, behaviors_of};
ghost use Rattle.ir_tree.specs.SameBehavior.{IsDenotedBy, SameActivationsEach, SameBehavior};
ghost use Rattle.ir_tree.specs.Rules.Verified.{IsVerified};

/// Runs of a network and of a package that mean the same have the same outcome, for all inputs, numbers of activations and depths:
/// so have runs of two packages that do, and those of one network whose procs do one thing or another that is the same.
pub fn same_behavior_has_the_same_outcomes()
    ensures network { (net : Net) (behaviors : List Behavior) (ir : Package) (inputs : List (List Word)) (n : ℕ) (depths : List ℕ) →
        IsDenotedBy net behaviors ir → IsNet net → AreBehaviorsOf net behaviors → EachKeepsTypes behaviors → IsInputs net inputs → n < 2 ^ 32 →
        outcome_of (run_of net behaviors inputs n depths) (final_cut (run_of net behaviors inputs n depths))
        ≡ outcome_of (run_of (network_of ir) (behaviors_of ir) inputs n depths) (final_cut (run_of (network_of ir) (behaviors_of ir) inputs n depths)) }
    ensures behaviors { (net : Net) (behaviors others : List Behavior) (inputs : List (List Word)) (n : ℕ) (depths : List ℕ) →
        SameActivationsEach behaviors others → IsNet net → AreBehaviorsOf net behaviors → EachKeepsTypes behaviors → IsInputs net inputs → n < 2 ^ 32 →
        outcome_of (run_of net behaviors inputs n depths) (final_cut (run_of net behaviors inputs n depths))
        ≡ outcome_of (run_of net others inputs n depths) (final_cut (run_of net others inputs n depths)) }
    ensures packages { (p q : Package) (inputs : List (List Word)) (n : ℕ) (depths : List ℕ) →
        SameBehavior p q → IsVerified p → IsInputs (network_of p) inputs → n < 2 ^ 32 →
        outcome_of (run_of (network_of p) (behaviors_of p) inputs n depths) (final_cut (run_of (network_of p) (behaviors_of p) inputs n depths))
        ≡ outcome_of (run_of (network_of q) (behaviors_of q) inputs n depths) (final_cut (run_of (network_of q) (behaviors_of q) inputs n depths)) }
{
    ir_tree::rules::same::same_procs_come_to_the_same_events();
}
