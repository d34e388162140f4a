//! Signatures of functions and procs.

ghost use Rattle.std.specs.Prelude.{◌≡◌, [], None, Some, IfOk, map};
ghost use Rattle.dslx_tree.specs.declared.item.Definition.TheVariants as d;
ghost use Rattle.dslx_meaning.specs.Rules.ItemRules.{typing_of_type};
ghost use Rattle.dslx_meaning.specs.Rules.ModuleRules as the;
ghost use Rattle.dslx_check_facts.specs.Walks.{shown};
ghost use Rattle.dslx_check_leaves.specs.Walked.{TypesEach, TypesOne, WalksTo};
ghost use Rattle.dslx_check_tasks.specs.Declarations.Inner.Foreign.{IsDeclaredAs, TypesSignature, argument_in, end_in, reached_in};

use dslx_check_facts::{Facts, SignatureThere, TypeEnv, Walk};
use dslx_check_judge::instances::result_seen;
use dslx_check_parts::type_expr;
use dslx_check_rules::TypeId;
use dslx_check_rules::nodes::written::unless_unit;
use dslx_tree::{Definition, End, Field, Function, Proc, TypeExpr};
use std::alloc::AllocError;

/// The signature of a function or a proc. Another item has none.
pub(crate) fn signature_there<'a>(
    f: &Facts<'a>,
    w: &mut Walk,
    s: &mut TypeEnv<'a>,
    own: &'a Definition,
) -> Result<SignatureThere, AllocError>
    ensures { IfOk result (λ there. WalksTo f.now s.old s.new (shown w.old) (shown w.new) (TypesSignature there (λ context. the.signature_of context (Some own.now)))) }
{
    match own {
        Definition::Function(function) => function_signature(f, w, s, function),
        Definition::Proc(process) => proc_signature(f, w, s, process),
        _ => Ok(no_signature(f)),
    }
}

fn no_signature(f: &Facts) -> SignatureThere
    ensures { (result.arguments.items ≡ []) × (result.result ≡ None) }
{
    SignatureThere {
        arguments: Vec::new(f.alloc),
        result: None,
    }
}

fn function_signature<'a>(
    f: &Facts<'a>,
    w: &mut Walk,
    s: &mut TypeEnv<'a>,
    function: &'a Function,
) -> Result<SignatureThere, AllocError>
    ensures { IfOk result (λ there. WalksTo f.now s.old s.new (shown w.old) (shown w.new) (TypesSignature there (λ context. the.signature_of context (Some (d.Function function.now))))) }
{
    let arguments = argument_types(f, w, s, function.arguments.as_slice())?;
    let result = result_seen(f, w, s, &function.result)?;
    Ok(SignatureThere {
        arguments,
        result: result.ty,
    })
}

fn proc_signature<'a>(
    f: &Facts<'a>,
    w: &mut Walk,
    s: &mut TypeEnv<'a>,
    process: &'a Proc,
) -> Result<SignatureThere, AllocError>
    ensures { IfOk result (λ there. WalksTo f.now s.old s.new (shown w.old) (shown w.new) (TypesSignature there (λ context. the.signature_of context (Some (d.Proc process.now))))) }
{
    let arguments = end_types(f, w, s, process.config.ends.as_slice())?;
    Ok(SignatureThere {
        arguments,
        result: None,
    })
}

fn argument_types<'a>(
    f: &Facts<'a>,
    w: &mut Walk,
    s: &mut TypeEnv<'a>,
    arguments: &'a [Field],
) -> Result<Vec<Option<TypeId>>, AllocError>
    ensures { IfOk result (λ all. WalksTo f.now s.old s.new (shown w.old) (shown w.new) (TypesEach IsDeclaredAs reached_in all.items (λ context. map (argument_in context) arguments.now))) }
{
    let mut types = Vec::new(f.alloc);
    'arguments: for i in 0..arguments.len() {
        let argument = &arguments[i];
        let ty = declared_type(f, w, s, &argument.ty)?;
        types.push(ty)?;
    }
    Ok(types)
}

fn end_types<'a>(
    f: &Facts<'a>,
    w: &mut Walk,
    s: &mut TypeEnv<'a>,
    ends: &'a [End],
) -> Result<Vec<Option<TypeId>>, AllocError>
    ensures { IfOk result (λ all. WalksTo f.now s.old s.new (shown w.old) (shown w.new) (TypesEach IsDeclaredAs reached_in all.items (λ context. map (end_in context) ends.now))) }
{
    let mut types = Vec::new(f.alloc);
    'ends: for i in 0..ends.len() {
        let end = &ends[i];
        let ty = declared_type(f, w, s, &end.word)?;
        types.push(ty)?;
    }
    Ok(types)
}

/// The type of an argument or of an end's words, where `()` is none.
fn declared_type<'a>(
    f: &Facts<'a>,
    w: &mut Walk,
    s: &mut TypeEnv<'a>,
    ty: &'a TypeExpr,
) -> Result<Option<TypeId>, AllocError>
    ensures { IfOk result (λ t. WalksTo f.now s.old s.new (shown w.old) (shown w.new) (TypesOne IsDeclaredAs reached_in t (λ context. typing_of_type context ty.now))) }
{
    let typing = type_expr(f, w, s, ty)?;
    Ok(unless_unit(&w.types, typing.ty))
}
