ghost use Rattle.std.specs.Prelude.{Bool, List, true};
ghost use Rattle.dslx_core.specs.Typing.Complete.Acts.{acts_found};
ghost use Rattle.dslx_core.specs.Lowering.CoreScopes.{BodyEnv, CoreScope};
ghost use Rattle.dslx_core.specs.Lowering.Functions.{outer_scope};
ghost use Rattle.dslx_core.specs.Lowering.Steps.{lower_next, statements_steps};
ghost use Rattle.dslx_total.specs.Expressions.Beside.{ScopeMatchesEnv};
ghost use Rattle.dslx_total.specs.Expressions.ExprLowering.{IsClean, reaching};
ghost use Rattle.dslx_total.specs.Expressions.NextSteps.{LowersToSteps, MembersExist};
ghost use Rattle.dslx_total.specs.Expressions.Nexts.{NextLowersAsTyped, members_type_env};
ghost use Rattle.dslx_meaning.specs.Environment.{Env};
ghost use Rattle.dslx_meaning.specs.declared.value.DslxValue.{DslxValue};
ghost use Rattle.dslx_meaning.specs.Rules.TypeEnvs.{Instance, GlobalEnv, TypeEnv};
ghost use Rattle.dslx_meaning.specs.Rules.NodeRules.{block_pair};
ghost use Rattle.dslx_meaning.specs.Rules.ProcRules.{proc_type_env};
ghost use Rattle.dslx_tree.specs.declared.block.Block.{Block, out-Block};
ghost use Rattle.dslx_tree.specs.declared.process.End.{End};
ghost use Rattle.dslx_tree.specs.declared.process.Proc.{Proc};
ghost use Rattle.dslx_core.specs.Typing.Typed.Complete.{IsWellTypedPart};
ghost use Rattle.dslx_core.specs.Typing.Typed.Numbers.{AllOwn};
ghost use Rattle.dslx_core.specs.Typing.Typed.WellTyped.{IsWellTypedEnv, types_at};

/// The well-typed block of `next`, in which effects may stand, where each member in scope is an end of the
/// proc whose words a channel holds: it is lowered to steps, and the next state has the type that the block has.
pub fn lower_total_next_block()
    ensures { (b : Block) (here : Instance → Bool) (context : TypeEnv) (env : Env) (outer scope : CoreScope) (ends : List End)
        → IsWellTypedEnv context env → ScopeMatchesEnv here context scope → MembersExist context outer ends → IsWellTypedPart (reaching context.known here) ((block_pair b).1 true context)
        → LowersToSteps (types_at context) ((block_pair b).1 true context) (statements_steps outer ends (out-Block b).statements (out-Block b).value scope) }
{}

/// The `next` of an instance of a proc whose text outside its `config` is well-typed: where its parametrics have values
/// of their own types, each of its members is an end whose words a channel holds, and calls of all instances that it reaches have a
/// callee with the type of the result, it is lowered to steps and a next state of the type that is declared for its state.
pub fn lower_total_next()
    ensures { (here : Instance → Bool) (known : GlobalEnv) (p : Proc) (parametric_args : List DslxValue) (env : Env) (core : BodyEnv) → AllOwn known.items.type_named parametric_args
        → IsWellTypedEnv (proc_type_env known p parametric_args) env → ScopeMatchesEnv here (proc_type_env known p parametric_args) (outer_scope core) → MembersExist (members_type_env known p parametric_args) (outer_scope core) p.members
        → IsClean here (acts_found known p parametric_args).faults (acts_found known p parametric_args).reached → NextLowersAsTyped known p parametric_args (lower_next core p) }
{}
