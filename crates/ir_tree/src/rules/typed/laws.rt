//! What holds of verified packages, each the contract of a function without a body.

ghost use Rattle.std.specs.Prelude.{◌≡◌, ℕ, slice_get, Some};
ghost use Rattle.xb_bits.specs.Word.{Word};
ghost use Rattle.xb_value.specs.declared.value.Value.{Value};
ghost use Rattle.xb_value.specs.Typing.{IsOfType};
ghost use Rattle.net_core.specs.declared.net.Site.{Site};
ghost use Rattle.net_core.specs.WellFormed.{IsNet, IsSiteOf, AreBehaviorsOf, EachKeepsTypes};
ghost use Rattle.ir_tree.specs.declared.package.Package.{Package};
ghost use Rattle.ir_tree.specs.declared.package.Proc.{Proc};
ghost use Rattle.ir_tree.specs.Types.{ty_of};
ghost use Rattle.ir_tree.specs.NodeValues.{node_values};
ghost use Rattle.ir_tree.specs.Networks.{network_of, behaviors_of};
ghost use Rattle.ir_tree.specs.Rules.Verified.{IsVerified};
ghost use Rattle.ir_tree.specs.Rules.Typed.Typed.{HaveTypes};

/// In an activation of a proc of a verified package each node has a value of its type: in every state of the state's type, and
/// whatever word each site has.
pub fn nodes_have_types()
    ensures { (ir : Package) (p : ℕ) (proc : Proc) (s : Value) (words : ℕ → Word) →
        IsVerified ir → slice_get ir.procs p ≡ Some proc → IsOfType (ty_of proc.state) s →
        HaveTypes proc.nodes (node_values (record { channels = ir.channels; state = s; words = words }) proc.nodes) }
{}

/// What a proc of a verified package sends has the width of the channel, and its next state has the type of the first.
pub fn procs_keep_types()
    ensures { (ir : Package) → IsVerified ir → EachKeepsTypes (behaviors_of ir) }
{}

/// The network of a verified package is one in which runs go, and its procs are those of the network.
pub fn procs_fit_their_network()
    ensures net { (ir : Package) → IsVerified ir → IsNet (network_of ir) }
    ensures procs { (ir : Package) → AreBehaviorsOf (network_of ir) (behaviors_of ir) }
{}

/// A site is the only one at its end of its channel.
pub fn sites_are_alone_at_their_ends()
    ensures { (ir : Package) → IsVerified ir → (p q i j : ℕ) (site : Site) → IsSiteOf (network_of ir) p i site → IsSiteOf (network_of ir) q j site → (p ≡ q) × (i ≡ j) }
{}
