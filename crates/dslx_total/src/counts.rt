//! That the limits on a network are of the network that a text means.
ghost use Rattle.std.specs.Prelude.{◌≡◌, ◌≤◌, ℕ, List, [], Option, Some, None, length};
ghost use Rattle.dslx_tree.specs.declared.item.Module.{Module};
ghost use Rattle.dslx_tree.specs.declared.process.Proc.{Proc};
ghost use Rattle.dslx_meaning.specs.Network.{network_of, top_proc};
ghost use Rattle.dslx_meaning.specs.Rules.ModuleRules.{faults_of};
ghost use Rattle.dslx_meaning.specs.Rules.NetworkLimits.{network_count, refusal_of};

/// Where no part of a text breaks a rule or passes a limit, the procs and channels that are counted, instance by instance, are as
/// many as its network has.
pub fn networks_have_what_is_counted()
    ensures { (m : Module) (top : Option (List ℕ)) → faults_of m top ≡ [] → (p : Proc) → top_proc m top ≡ Some p
        → network_count m top p ≡ record { procs = length (network_of m top).procs; channels = length (network_of m top).chans } }
{
    dslx_core::typing::typing::instances_reach_one_another();
    crate::checked::what_is_checked_is_known();
}

/// So a text that isn't refused has no fault, and a network of at most 256 procs and 1,024 channels.
pub fn networks_keep_the_limits()
    ensures accepted { (m : Module) (top : Option (List ℕ)) → refusal_of m top ≡ None → faults_of m top ≡ [] }
    ensures procs { (m : Module) (top : Option (List ℕ)) → refusal_of m top ≡ None → length (network_of m top).procs ≤ 256 }
    ensures channels { (m : Module) (top : Option (List ℕ)) → refusal_of m top ≡ None → length (network_of m top).chans ≤ 1024 }
{
    networks_have_what_is_counted();
}
