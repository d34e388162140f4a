ghost use Rattle.std.specs.Prelude.{◌≡◌, [], List, Some};
ghost use Rattle.dslx_tree.specs.declared.item.Module.{Module};
ghost use Rattle.dslx_meaning.specs.Environment.{Meanings};
ghost use Rattle.dslx_core.specs.Lowering.Functions.{CoreInstance, Instantiated, instances_from};
ghost use Rattle.dslx_core.specs.Lowering.Instances.{CallsSettle, InstancesSimulate, ItemsAreOwn};

/// Instances of functions, each of which calls those before it: where the text's function has a value for operands of the
/// types of the arguments, that value is of the type of the result, and the function of the instance's number has it,
/// without signs and names. The meanings have of each of these functions what its text gives over them, as they do of all in a text
/// without a cycle.
pub fn lower_preserves_instances()
    ensures { (m : Module) (items : Meanings) → ItemsAreOwn items
        → (is : List Instantiated) (instances : List CoreInstance) → CallsSettle m items is → instances_from m items [] is ≡ Some instances → InstancesSimulate m items instances }
{}
