ghost use Rattle.std.specs.Prelude.{◌≡◌, Bool, List, [], map};
ghost use Rattle.dslx_core.specs.Lowering.CoreScopes.{CoreScope};
ghost use Rattle.dslx_total.specs.Expressions.Beside.{ScopeMatchesEnv};
ghost use Rattle.dslx_total.specs.Expressions.ExprLowering.{IsClean};
ghost use Rattle.dslx_total.specs.Expressions.Members.{EachHasWords};
ghost use Rattle.dslx_total.specs.Expressions.NextSteps.{MembersExist};
ghost use Rattle.dslx_meaning.specs.Environment.{Env};
ghost use Rattle.dslx_meaning.specs.Rules.TypeEnvs.{Instance, TypeEnv};
ghost use Rattle.dslx_meaning.specs.Rules.ProcRules.{ends_found, channel_end_of};
ghost use Rattle.dslx_tree.specs.declared.process.End.{End};
ghost use Rattle.dslx_core.specs.Typing.Typed.WellTyped.{IsWellTypedEnv};

/// Well-typed ends, each of whose words a word of 1 to 128 bits holds: where they are the members in scope, each
/// member is an end whose words a channel holds.
pub fn members_stand()
    ensures { (here : Instance → Bool) (context : TypeEnv) (env : Env) (outer : CoreScope) (ends : List End) → IsWellTypedEnv context env → ScopeMatchesEnv here context outer → EachHasWords context ends
        → IsClean here (ends_found context [] ends).faults (ends_found context [] ends).reached → MembersExist (record context { members = map (channel_end_of context) ends }) outer ends }
{}
