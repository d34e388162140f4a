//! Parts of declarations that calls and spawns ask for.

ghost use Rattle.std.specs.Prelude.{◌≡◌, Some, IfOk, slice_get};
ghost use Rattle.std.specs.Option.{option_copied};
ghost use Rattle.dslx_meaning.specs.Rules.ModuleRules as the;
ghost use Rattle.dslx_check_facts.specs.Walks.{shown};
ghost use Rattle.dslx_check_tasks.specs.Declarations.Inner.Foreign.{GivesPart, GivesSignature, JudgesBehind, has_all_of};
ghost use Rattle.dslx_check_tasks.specs.Declarations.Judged.{JudgesForeign};

use crate::declarations::parametrics::{default_seen, parameter_seen};
use crate::declarations::prefixes::prefix_values;
use crate::declarations::signatures::signature_there;
use dslx_check_declarations::{behind_values, parametrics_of};
use dslx_check_facts::{Facts, ForeignKey, ForeignPart, ForeignSeen, TypeEnv, Walk};
use dslx_check_uses::definition;
use dslx_meaning::DslxValue;
use dslx_tree::{Definition, Parametric};
use std::alloc::AllocError;

/// What the part of a declaration comes to. It reaches what the walk reached. One behind a prefix that isn't there is refused as for want of
/// memory, and so is a signature behind fewer values than there are parametrics.
pub fn part_seen<'a>(
    f: &Facts<'a>,
    w: &mut Walk,
    key: ForeignKey,
) -> Result<ForeignSeen, AllocError>
    ensures { IfOk result (λ there. JudgesForeign f.now (shown w.old) (shown w.new) key there) }
{
    match definition(f, key.item) {
        None => Err(AllocError),
        Some(own) => {
            let values = prefix_values(f, w, key.prefix)?;
            part_behind(f, w, key, own, values.as_slice())
        }
    }
}

/// A part behind parametrics of these values, of which the last one comes first.
fn part_behind<'a>(
    f: &Facts<'a>,
    w: &mut Walk,
    key: ForeignKey,
    own: &'a Definition,
    values: &[Option<DslxValue>],
) -> Result<ForeignSeen, AllocError>
    ensures { IfOk result (λ there. JudgesBehind f.now (shown w.old) (shown w.new) key own.now values.now there) }
{
    let parametrics = parametrics_of(own);
    let has_all = has_all_values(key.part, values.len(), parametrics.len());
    if !has_all {
        return Err(AllocError);
    }
    let mut s = behind_values(f, w, key.item, key.is_refused, parametrics, values)?;
    let next = parametric_at(parametrics, values.len());
    part_at(f, w, &mut s, key.part, own, next)
}

/// A signature is asked for behind the values of all parametrics alone.
fn has_all_values(part: ForeignPart, values: usize, parametrics: usize) -> bool
    ensures { result ≡ has_all_of part values parametrics }
{
    match part {
        ForeignPart::Signature => values == parametrics,
        _ => true,
    }
}

fn parametric_at<'a>(parametrics: &'a [Parametric], at: usize) -> Option<&'a Parametric>
    ensures { option_copied result ≡ slice_get parametrics.now at }
{
    parametrics.get(at)
}

/// A part where these parametrics are in scope and this one is the next.
fn part_at<'a>(
    f: &Facts<'a>,
    w: &mut Walk,
    s: &mut TypeEnv<'a>,
    part: ForeignPart,
    own: &'a Definition,
    next: Option<&'a Parametric>,
) -> Result<ForeignSeen, AllocError>
    ensures { IfOk result (λ there. GivesPart f.now s.old s.new (shown w.old) (shown w.new) there part own.now (option_copied next.entry)) }
{
    match part {
        ForeignPart::Parameter => parameter_seen(f, w, s, next),
        ForeignPart::Default => default_seen(f, w, s, next),
        ForeignPart::Signature => signature_seen(f, w, s, own),
    }
}

fn signature_seen<'a>(
    f: &Facts<'a>,
    w: &mut Walk,
    s: &mut TypeEnv<'a>,
    own: &'a Definition,
) -> Result<ForeignSeen, AllocError>
    ensures { IfOk result (λ there. GivesSignature f.now s.old s.new (shown w.old) (shown w.new) there (λ context. the.signature_of context (Some own.now))) }
{
    let signature = signature_there(f, w, s, own)?;
    Ok(ForeignSeen::Signature(signature))
}
