//! Procs that are spawned.

ghost use Rattle.std.specs.Prelude.{◌≡◌, ◌||◌, [], IfOk, OnOk, if◌then◌else◌};
ghost use Rattle.dslx_tree.specs.declared.process.ConfigStatement.TheVariants as config_statement;
ghost use Rattle.dslx_meaning.specs.Rules.RuleNumbers as asks;
ghost use Rattle.dslx_meaning.specs.Rules.TypeEnvs.{breaks_if};
ghost use Rattle.dslx_check_uses.specs.Arguments.{ArgsFrom};
ghost use Rattle.dslx_check_facts.specs.Walks.{shown};
ghost use Rattle.dslx_check_rules.specs.Seen.{seen};
ghost use Rattle.dslx_check_judge.specs.Instances.Inner.Config.{StepsStatement};
ghost use Rattle.dslx_check_judge.specs.Instances.Inner.Spawns.{HandsOver, ReachesInstance, RightSpawn, SpawnsNamed};
ghost use Rattle.dslx_check_judge.specs.Instances.Reached.{ReachesProc};

use dslx_check_declarations::{Made, each_handed, has_right_count, process_named};
use dslx_check_facts::{Facts, InstanceKey, TypeEnv, Walk, signature_seen};
use dslx_check_parts::all_given;
use dslx_check_rules::control::calls::{ParametricArgument, given_faults};
use dslx_check_rules::{Faults, rule};
use dslx_check_uses::{CalledItem, Inference, ParametricArgs, parametric_args};
use dslx_meaning::DslxValue;
use dslx_tree::{Proc, Spawn};
use std::alloc::AllocError;
use xb_value::Seq;

/// What a spawn breaks. Its ends are used behind it.
pub(crate) fn spawn_faults<'a>(
    f: &Facts<'a>,
    w: &mut Walk,
    s: &mut TypeEnv<'a>,
    made: &mut Made<'a>,
    spawn: &'a Spawn,
) -> Result<Faults, AllocError>
    ensures { IfOk result (λ faults. StepsStatement f.now s.old s.new (shown w.old) (shown w.new) made.old made.new faults (config_statement.Spawn spawn.now)) }
{
    let given = all_given(f, w, s, spawn.arguments.as_slice())?;
    let idents = spawn.ends.as_slice();
    let unknown = made.unknown_ends(idents);
    let own = target_faults(f, w, s, made, spawn, given.as_slice())?;
    made.use_all(idents)?;
    Ok(given_faults(given.as_slice()).and(unknown).and(own))
}

/// What it breaks by what is spawned.
fn target_faults<'a>(
    f: &Facts<'a>,
    w: &mut Walk,
    s: &TypeEnv<'a>,
    made: &Made<'a>,
    spawn: &'a Spawn,
    given: &[ParametricArgument],
) -> Result<Faults, AllocError>
    ensures { IfOk result (λ faults. SpawnsNamed f.now s.now (shown w.old) (shown w.new) made.now spawn.now given.now faults) }
{
    match process_named(f, &spawn.target.name) {
        None => Ok(Faults::breaks(rule::NAME_IS_DECLARED, spawn.target.span)),
        Some((item, target)) => {
            let is_cyclic = f.is_cyclic(s.owner, item);
            let callee = CalledItem {
                item,
                is_cyclic,
                is_hidden: false,
            };
            let is_right = has_right_count(spawn, target, given);
            if is_right {
                right_faults(f, w, made, spawn, callee, target, given)
            } else {
                let wrong = Faults::breaks(rule::ARGUMENTS_FIT, spawn.span);
                Ok(cyclic_faults(is_cyclic, spawn).and(wrong))
            }
        }
    }
}

/// Rule 3 at a spawn.
fn cyclic_faults(is_cyclic: bool, spawn: &Spawn) -> Faults
    ensures { result ≡ seen (breaks_if is_cyclic asks.NO_ITEM_REACHES_ITSELF spawn.now.span) }
{
    Faults::breaks_if(is_cyclic, rule::NO_ITEM_REACHES_ITSELF, spawn.span)
}

/// A spawn with as many ends and not more parametric arguments than are declared.
fn right_faults<'a>(
    f: &Facts<'a>,
    w: &mut Walk,
    made: &Made<'a>,
    spawn: &'a Spawn,
    callee: CalledItem,
    target: &'a Proc,
    given: &[ParametricArgument],
) -> Result<Faults, AllocError>
    ensures { IfOk result (λ faults. RightSpawn f.now callee (shown w.old) (shown w.new) made.now spawn.now target.now given.now faults) }
{
    let args = proc_args(f, w, callee, target, given)?;
    let handed = handed_faults(f, w, made, spawn, callee, target, &args)?;
    reach_proc(f, w, callee, &args)?;
    let cyclic = cyclic_faults(callee.is_cyclic, spawn);
    let declared = declared_faults(callee, &args);
    let wrong = Faults::breaks_if(args.is_wrong, rule::ARGUMENTS_FIT, spawn.span);
    Ok(cyclic.and(args.faults).and(declared).and(wrong).and(handed))
}

/// What is found in the other declaration, unless rule 3 or rule 10 is broken.
pub fn declared_faults(callee: CalledItem, args: &ParametricArgs) -> Faults
    ensures { result ≡ (if callee.is_cyclic || args.now.is_wrong then seen [] else args.now.declared) }
{
    if is_refused(callee, args) {
        Faults::none()
    } else {
        args.declared
    }
}

fn is_refused(callee: CalledItem, args: &ParametricArgs) -> bool
    ensures { result ≡ (callee.is_cyclic || args.now.is_wrong) }
{
    callee.is_cyclic || args.is_wrong
}

/// The parametrics of a proc. Its ends infer nothing.
pub fn proc_args(
    f: &Facts,
    w: &mut Walk,
    callee: CalledItem,
    target: &Proc,
    given: &[ParametricArgument],
) -> Result<ParametricArgs, AllocError>
    ensures { IfOk result (λ args. ArgsFrom f.now callee (shown w.old) (shown w.new) target.now.parametrics given.now [] [] args) }
{
    let none = Inference::new(f.alloc);
    parametric_args(f, w, callee, target.parametrics.as_slice(), given, &none)
}

/// Rule 9 at each end that is handed over, unless rule 10 is broken or something is missing.
fn handed_faults<'a>(
    f: &Facts<'a>,
    w: &mut Walk,
    made: &Made<'a>,
    spawn: &'a Spawn,
    callee: CalledItem,
    target: &'a Proc,
    args: &ParametricArgs,
) -> Result<Faults, AllocError>
    ensures { IfOk result (λ faults. HandsOver f.now callee (shown w.old) (shown w.new) made.now target.now.config.ends spawn.now.ends args.now faults) }
{
    let is_wrong = args.is_wrong;
    if is_wrong {
        return Ok(Faults::none());
    }
    let is_whole = args.is_whole;
    if !is_whole {
        return Ok(Faults::none());
    }
    let found = signature_seen(f, w, callee.item, args.prefix, callee.is_cyclic)?;
    match found {
        None => Ok(Faults::none()),
        Some(signature) => Ok(each_handed(
            &w.types,
            made,
            signature.arguments.as_slice(),
            target.config.ends.as_slice(),
            spawn.ends.as_slice(),
        )),
    }
}

/// Notes what a spawn, or the top, reaches, unless it is refused.
pub fn reach_proc(
    f: &Facts,
    w: &mut Walk,
    callee: CalledItem,
    args: &ParametricArgs,
) -> Result<(), AllocError>
    ensures { OnOk result (ReachesProc f.now callee (shown w.old) (shown w.new) args.now) }
{
    let refused = is_refused(callee, args);
    if refused {
        return Ok(());
    }
    w.reach_all(args.reached.as_slice())?;
    let all = args.all_values(f)?;
    match all {
        None => Ok(()),
        Some(values) => {
            reach_instance(w, callee.item, values)?;
            Ok(())
        }
    }
}

/// Meets an instance and notes that it is reached.
fn reach_instance(
    w: &mut Walk,
    item: u32,
    parametric_args: Seq<DslxValue>,
) -> Result<(), AllocError>
    ensures { OnOk result (ReachesInstance (shown w.old) (shown w.new) (record { item = item; parametric_args = parametric_args })) }
{
    let key = InstanceKey {
        item,
        parametric_args,
    };
    let instance = w.instances.number_of(key)?;
    w.reach(instance)?;
    Ok(())
}
