//! Instances that are added behind those that they spawn.

ghost use Rattle.std.specs.Prelude.{◌≡◌, ℕ, List, [], Option, true, IfOk};
ghost use Rattle.dslx_meaning.specs.Rules.ModuleRules.{faults_of};
ghost use Rattle.dslx.specs.Order.Adding.{AddsInstance, AddsSpawned, CanAllBeAdded, CanBeAdded, is_one_of, is_the_same};

use dslx_config::configs::{find_proc, spawned_there};
use dslx_core::lowering::Instantiated;
use dslx_tree::Module;
use dslx_values::{copy_name, copy_values, equal_values};
use std::alloc::{AllocError, Global};

/// Adds an instance behind those that it spawns, each once, and says whether it could. Chains of items that are longer than `depth` count
/// as having no end.
///
/// It looks at all that are there for each spawn of those that it adds.
#[cycle(adding)]
pub(crate) fn add_instance(
    alloc: Global,
    text: &Module,
    depth: usize,
    instance: &Instantiated,
    order: &mut Vec<Instantiated>,
) -> Result<bool, AllocError>
    ensures { IfOk result (λ done. (top : Option (List ℕ)) → faults_of text.now top ≡ [] → CanBeAdded text.now top depth instance.now
        → (done ≡ true) × AddsInstance text.now top instance.now order.old.items order.new.items) }
{
    dslx_total::configs::lower_total_configs();
    if is_among(order.as_slice(), instance) {
        return Ok(true);
    }
    if depth == 0 {
        return Ok(false);
    }
    let Some(process) = find_proc(text.items.as_slice(), &instance.name) else {
        return Ok(false);
    };
    let args = instance.parametric_args.as_slice();
    let Some(spawned) = spawned_there(alloc, text, process, args)? else {
        return Ok(false);
    };
    if !add_all(alloc, text, depth - 1, spawned.as_slice(), order)? {
        return Ok(false);
    }
    order.push(copy_of(alloc, instance)?)?;
    Ok(true)
}

/// Adds each of these instances that isn't there yet.
#[cycle(adding)]
fn add_all(
    alloc: Global,
    text: &Module,
    depth: usize,
    spawned: &[Instantiated],
    order: &mut Vec<Instantiated>,
) -> Result<bool, AllocError>
    ensures { IfOk result (λ done. (top : Option (List ℕ)) → faults_of text.now top ≡ [] → CanAllBeAdded text.now top depth spawned.now
        → (done ≡ true) × AddsSpawned text.now top spawned.now order.old.items order.new.items) }
{
    'spawned: for instance in spawned {
        if !add_instance(alloc, text, depth, instance, order)? {
            return Ok(false);
        }
    }
    Ok(true)
}

/// Whether an instance is one of these.
fn is_among(order: &[Instantiated], instance: &Instantiated) -> bool
    ensures { result ≡ is_one_of instance.now order.now }
{
    'order: for other in order {
        if is_same(instance, other) {
            return true;
        }
    }
    false
}

fn is_same(one: &Instantiated, other: &Instantiated) -> bool
    ensures { result ≡ is_the_same one.now other.now }
{
    one.name == other.name
        && equal_values(
            one.parametric_args.as_slice(),
            other.parametric_args.as_slice(),
        )
}

fn copy_of(alloc: Global, instance: &Instantiated) -> Result<Instantiated, AllocError>
    ensures { IfOk result (λ copy. copy ≡ instance.now) }
{
    Ok(Instantiated {
        name: copy_name(alloc, &instance.name)?,
        parametric_args: copy_values(alloc, instance.parametric_args.as_slice())?,
    })
}
