//! What is known of checked texts that are made of accepted texts' instances.

ghost use Rattle.std.specs.Prelude.{◌≡◌, ◌≤◌, ℕ, List, Option, None, length};
ghost use Rattle.dslx_tree.specs.declared.item.Module.{Module};
ghost use Rattle.dslx_core.specs.Designs.{core_behaviors, core_family, core_network};
ghost use Rattle.dslx_core.specs.Networks.Assembly.{IsDesignFrom};
ghost use Rattle.dslx_core.specs.declared.design.Design.{Design};
ghost use Rattle.dslx_interp.specs.Network.Bodies.{ReceivesWords};
ghost use Rattle.dslx_interp.specs.Network.Limits.{network_limit};
ghost use Rattle.dslx_interp.specs.Network.Linked.{IsLinked};
ghost use Rattle.dslx_total.specs.Instances.Checked.{AreOfChecked};
ghost use Rattle.dslx_elab.specs.Runs.{IsAcceptedText, RunsText};

/// The network and the behaviors of a checked text that is made of an accepted text's instances, those of functions that are checked, run
/// the text. All its ends are there, all that it receives fits a word, and the network passes no limit.
pub fn accepted_texts_run()
    ensures runs { (m : Module) (top : Option (List ℕ)) (design : Design) → IsAcceptedText m top → (made : IsDesignFrom m top design) → AreOfChecked m top made.named_functions → RunsText m top (core_network design) (core_behaviors design) }
    ensures linked { (m : Module) (top : Option (List ℕ)) (design : Design) → IsDesignFrom m top design → IsLinked design }
    ensures words { (m : Module) (top : Option (List ℕ)) (design : Design) → IsDesignFrom m top design → ReceivesWords design }
    ensures limits { (m : Module) (top : Option (List ℕ)) (design : Design) → IsAcceptedText m top → (made : IsDesignFrom m top design) → AreOfChecked m top made.named_functions → network_limit (core_network design) ≡ None }
    ensures few { (m : Module) (top : Option (List ℕ)) (design : Design) → IsAcceptedText m top → (made : IsDesignFrom m top design) → AreOfChecked m top made.named_functions → length (core_family design).procs ≤ 256 }
{
    dslx_interp::network::linked::made_designs_are_linked();
    dslx_interp::network::linked::made_designs_receive_words();
    dslx_total::counts::networks_keep_the_limits();
    dslx_total::families::accepted_texts_are_well_typed();
    dslx_total::nets::behaviors_are_of_their_networks();
    dslx_total::nets::made_networks_are_nets();
    dslx_total::outcomes::accepted_designs_have_the_same_outcomes();
}
