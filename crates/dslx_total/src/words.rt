//! That the words of channels have 1 to 128 bits, and that all of them are values of the types that texts give them.
ghost use Rattle.std.specs.Prelude.{◌≡◌, ℕ, List, []};
ghost use Rattle.dslx_tree.specs.declared.process.End.{End};
ghost use Rattle.dslx_meaning.specs.Environment.{Env};
ghost use Rattle.dslx_meaning.specs.Rules.TypeEnvs.{TypeEnv};
ghost use Rattle.dslx_meaning.specs.Rules.ProcRules.{ends_found};
ghost use Rattle.dslx_core.specs.Typing.Typed.WellTyped.{IsWellTypedEnv};
ghost use Rattle.dslx_total.specs.Expressions.Beside.{NamesAreFull, NamesHaveWidths};
ghost use Rattle.dslx_total.specs.Expressions.Members.{EachHasWords};
ghost use Rattle.dslx_core.specs.Typing.Procs.WordsOfEnds.{WordsAreValues};

/// Ends of channels with which nothing is wrong, where the type environment is well typed and all bits of named types have a width:
/// whatever a word has, it is a value of the type of the end's words. And a word holds each of these values, 1 to 128 bits, where no
/// named type but () is without bits.
pub fn words_of_ends_have_widths()
    ensures widths { (context : TypeEnv) (env : Env) → IsWellTypedEnv context env → NamesHaveWidths context.known → NamesAreFull context.known → (before : List (List ℕ)) (ends : List End)
        → (ends_found context before ends).faults ≡ [] → EachHasWords context ends }
    ensures values { (context : TypeEnv) (env : Env) → IsWellTypedEnv context env → NamesHaveWidths context.known → (before : List (List ℕ)) (ends : List End)
        → (ends_found context before ends).faults ≡ [] → WordsAreValues context ends }
{
    crate::expressions::lower_total_expression();
}
