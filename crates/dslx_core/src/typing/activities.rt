//! Activations of well-typed procs: no value is missing in them.
ghost use Rattle.std.specs.Prelude.{◌≡◌, ◌∷◌, [], false, length, List, Some, true};
ghost use Rattle.xb_bits.specs.Word.{Word};
ghost use Rattle.xb_value.specs.declared.value.Value.{Value};
ghost use Rattle.dslx_tree.specs.declared.block.Block.{Block, out-Block};
ghost use Rattle.dslx_tree.specs.declared.process.Proc.{Proc};
ghost use Rattle.dslx_meaning.specs.Activation.{SiteEnv, activation_of, do_stmts, site_names, sites_in_stmts, state_type_of};
ghost use Rattle.dslx_meaning.specs.Environment.{Env};
ghost use Rattle.dslx_meaning.specs.Items.{instance_env};
ghost use Rattle.dslx_meaning.specs.Values.{at_type};
ghost use Rattle.dslx_meaning.specs.declared.ty.DslxType.{DslxType};
ghost use Rattle.dslx_meaning.specs.declared.value.DslxValue.{DslxValue};
ghost use Rattle.dslx_meaning.specs.Rules.ItemRules.{body_typing};
ghost use Rattle.dslx_meaning.specs.Rules.TypeEnvs.{GlobalEnv, TypeEnv, with_typed};
ghost use Rattle.dslx_core.specs.Typing.Typed.Complete.{IsWellTypedPart};
ghost use Rattle.dslx_core.specs.Typing.Typed.Declared.{IsDeclared};
ghost use Rattle.dslx_core.specs.Typing.Typed.Kinds.{is_of};
ghost use Rattle.dslx_core.specs.Typing.Typed.WellTyped.{IsWellTypedEnv, types_at};
ghost use Rattle.dslx_core.specs.Typing.Activities.ActivityGoesOn.{ActivityGoesOn};
ghost use Rattle.dslx_core.specs.Typing.Activities.Members.{IsWellTypedNext, ProcMembersHaveValues};

/// The body of a well-typed `next`, in an environment where the type environment is well typed and members have the types
/// of words that the rules know: over whatever words, it does something at each site and ends with a value of its type, or it
/// has taken all words and the next site receives.
pub fn activations_go_on()
    ensures body { (t : DslxType) (site : SiteEnv) (b : Block) (context : TypeEnv) (env : Env) → IsWellTypedEnv context env → ProcMembersHaveValues context site → IsDeclared (types_at context) t
        → IsWellTypedPart context.known (body_typing true context (Some t) b)
        → (words : List Word) → ActivityGoesOn t (length (sites_in_stmts (out-Block b).statements)) words (do_stmts site (out-Block b).statements (out-Block b).value env words) }
    ensures activation { (known : GlobalEnv) (p : Proc) (parametric_args : List DslxValue) (t : DslxType) → IsWellTypedNext known p parametric_args t
        → (state : Value) → is_of t (at_type t state) ≡ true
        → (words : List Word) → ActivityGoesOn t (length (site_names p)) words (activation_of known.items p parametric_args state words) }
{}
