ghost use Rattle.std.specs.Prelude.{◌≡◌, [], List, Some};
ghost use Rattle.dslx_tree.specs.declared.item.Module.{Module};
ghost use Rattle.dslx_tree.specs.declared.process.Proc.{Proc};
ghost use Rattle.dslx_meaning.specs.Activation.{state_type_of};
ghost use Rattle.dslx_meaning.specs.Environment.{Meanings};
ghost use Rattle.dslx_meaning.specs.declared.value.DslxValue.{DslxValue};
ghost use Rattle.dslx_core.specs.Lowering.Activities.{NextSimulates};
ghost use Rattle.dslx_core.specs.Lowering.Functions.{CoreInstance, Instantiated, instances_from};
ghost use Rattle.dslx_core.specs.Lowering.Instances.{CallsSettle, ItemsAreOwn, functions_of_instances};
ghost use Rattle.dslx_core.specs.Lowering.Steps.{LoweredNext, lower_next, proc_globals};

/// An activation of an instance of a proc, from each state of its type and over each list of words: what it does at a site
/// the steps that its `next` is lowered to do too, and where it ends in a state they do just that and end in this state, without
/// signs and names. That type is the one that the text's state has.
pub fn lower_preserves_steps()
    ensures activations { (m : Module) (items : Meanings) → ItemsAreOwn items
        → (is : List Instantiated) (instances : List CoreInstance) → CallsSettle m items is → instances_from m items [] is ≡ Some instances
        → (p : Proc) (parametric_args : List DslxValue) (l : LoweredNext) → lower_next (proc_globals m items instances p parametric_args) p ≡ Some l
        → NextSimulates (proc_globals m items instances p parametric_args) (functions_of_instances instances) p parametric_args l }
    ensures state { (m : Module) (items : Meanings) → ItemsAreOwn items
        → (is : List Instantiated) (instances : List CoreInstance) → CallsSettle m items is → instances_from m items [] is ≡ Some instances
        → (p : Proc) (parametric_args : List DslxValue) (l : LoweredNext) → lower_next (proc_globals m items instances p parametric_args) p ≡ Some l
        → state_type_of items p parametric_args ≡ Some l.state }
{}
