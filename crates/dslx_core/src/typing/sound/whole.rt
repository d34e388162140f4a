ghost use Rattle.std.specs.Prelude.{List, [], false, Some};
ghost use Rattle.dslx_tree.specs.declared.block.Block.{Block};
ghost use Rattle.dslx_tree.specs.declared.expr.Expr.{Expr};
ghost use Rattle.dslx_tree.specs.declared.item.Function.{Function};
ghost use Rattle.dslx_meaning.specs.Environment.{Env};
ghost use Rattle.dslx_meaning.specs.Items.{function_value, parametric_args_bound};
ghost use Rattle.dslx_meaning.specs.Meaning.{value_of, value_of_block};
ghost use Rattle.dslx_meaning.specs.declared.ty.DslxType.{DslxType};
ghost use Rattle.dslx_meaning.specs.declared.value.DslxValue.{DslxValue};
ghost use Rattle.dslx_meaning.specs.Rules.ItemRules.{arguments_typed, body_typing, function_type_env};
ghost use Rattle.dslx_meaning.specs.Rules.TypeEnvs.{GlobalEnv, TypeEnv, with_typed};
ghost use Rattle.dslx_meaning.specs.Rules.NodeRules.{block_pair, expr_pair};
ghost use Rattle.dslx_core.specs.Typing.Sound.Sound.{HasTypedValue};
ghost use Rattle.dslx_core.specs.Typing.Typed.Complete.{IsWellTypedPart};
ghost use Rattle.dslx_core.specs.Typing.Typed.Declared.{IsDeclared};
ghost use Rattle.dslx_core.specs.Typing.Typed.Given.{GivesOf};
ghost use Rattle.dslx_core.specs.Typing.Typed.WellTyped.{AreOperandsOf, IsWellTypedEnv, NameNoConstant, types_at};

/// Whole expressions, blocks and instances of functions: what breaks no rule and passes no limit, and reaches nothing that
/// does, has a type and a value of it, in each environment where the type environment is well typed and has all items of the
/// text. An effect isn't typed so: it breaks a rule anywhere but at the top of `next`.
pub fn an_expression_has_its_value()
    ensures expression { (e : Expr) (context : TypeEnv) (env : Env) → IsWellTypedEnv context env → IsWellTypedPart context.known ((expr_pair e).1 false context)
        → HasTypedValue (types_at context) ((expr_pair e).1 false context) (value_of e env) }
    ensures block { (b : Block) (context : TypeEnv) (env : Env) → IsWellTypedEnv context env → IsWellTypedPart context.known ((block_pair b).1 false context)
        → HasTypedValue (types_at context) ((block_pair b).1 false context) (value_of_block b env) }
    ensures function { (known : GlobalEnv) (f : Function) (parametric_args operands : List DslxValue) (result : DslxType)
        → IsWellTypedEnv (function_type_env known f parametric_args) (record { items = known.items; bound = parametric_args_bound [] f.parametrics parametric_args })
        → AreOperandsOf (function_type_env known f parametric_args) f.arguments operands → NameNoConstant (function_type_env known f parametric_args) f.arguments → IsDeclared known.items.type_named result
        → IsWellTypedPart known (body_typing false (with_typed (function_type_env known f parametric_args) (arguments_typed (function_type_env known f parametric_args) [] f.arguments)) (Some result) f.body)
        → GivesOf known.items.type_named result (function_value known.items f parametric_args operands) }
{}
