//! What holds of alike activities, as the contract of a function without a body.

ghost use Rattle.std.specs.Prelude.{◌≡◌, ◌++◌, ℕ, List, []};
ghost use Rattle.xb_value.specs.Typing.{IsOfType};
ghost use Rattle.xb_value.specs.declared.value.Value.{Value};
ghost use Rattle.ir_tree.specs.Activations.{activation, sites_of};
ghost use Rattle.ir_tree.specs.SameBehavior.{SameActivations};
ghost use Rattle.ir_tree.specs.Types.{ty_of};
ghost use Rattle.ir_tree.specs.declared.node.Node.{Node};
ghost use Rattle.ir_tree.specs.declared.package.Channel.{Channel};
ghost use Rattle.ir_tree.specs.declared.package.Proc.{Proc};
ghost use Rattle.dslx_core.specs.CoreValues.{Functions};
ghost use Rattle.dslx_core.specs.Designs.{Behind, core_activation, do_steps, sites_of_steps};
ghost use Rattle.dslx_core.specs.declared.design.Instance.{Instance};
ghost use Rattle.dslx_core.specs.declared.expr.CoreExpr.{CoreExpr};
ghost use Rattle.dslx_core.specs.declared.step.Step.{Step};
ghost use Rattle.ir_lower_nodes.specs.Acts.Activities.{ByWords, DoAlike, nodes_then, word_width};
ghost use Rattle.ir_lower_nodes.specs.Acts.InstanceActivities.{ended_by, instance_behavior, state_then, steps_then};

/// Where the nodes of an IR proc do the same as an instance of a checked proc, from each state and site by site, an activation of
/// the IR proc does what an activation of the instance does.
pub fn alike_activities_are_same_activations()
    ensures { (calls : Functions) (width : ℕ → ℕ) (channels : List ℕ) (i : Instance) (ir : List Channel) (proc : Proc) →
        i.state ≡ ty_of proc.state → sites_of_steps channels i.steps ≡ sites_of proc.nodes → ((c : ℕ) → width c ≡ word_width ir c) →
        ((s : Value) → IsOfType i.state s → DoAlike (word_width ir) (sites_of_steps channels i.steps) (core_activation calls i s) (nodes_then ir s proc.nodes (ended_by proc.next s) [])) →
        SameActivations (instance_behavior calls width channels i) (activation ir proc) }
{}

/// Nodes are done one after another, and so are steps, behind which the next state stands.
pub fn activities_go_on()
    ensures nodes { (ir : List Channel) (s : Value) (xs ys : List Node) (rest : List Value → ByWords) → nodes_then ir s (xs ++ ys) rest ≡ nodes_then ir s xs (nodes_then ir s ys rest) }
    ensures steps { (calls : Functions) (xs ys : List Step) (rest : Behind) → steps_then calls (xs ++ ys) rest ≡ steps_then calls xs (steps_then calls ys rest) }
    ensures end { (calls : Functions) (ss : List Step) (next : CoreExpr) → do_steps calls ss next ≡ steps_then calls ss (state_then calls next) }
{}
