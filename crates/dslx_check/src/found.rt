//! All instances that are reached, each judged.

ghost use Rattle.std.specs.Prelude.{◌≡◌, ◌≤◌, List, true, slice_get, IfOk, OnOk};
ghost use Rattle.dslx_meaning.specs.Rules.TypeEnvs.{Instance};
ghost use Rattle.dslx_check_facts.specs.Walks.{shown};
ghost use Rattle.dslx_check_tasks.specs.Standing.{WorkGoesOn, IsRight, text_in};
ghost use Rattle.dslx_check.specs.Finds.{AddsKey, AreManyMet, AreNumbersOf, FindsInside, FindsReached, with_new};

use dslx_check_facts::{InstanceKey, Need};
use dslx_check_rules::Faults;
use dslx_check_tasks::{Work, key_of, there};
use indexmap::IndexSet;
use std::alloc::AllocError;

/// One more than the most instances that a text may have.
const PAST_MOST: usize = 4097;

/// What all instances break that are reached from these, if there are no more than a text may have. Each is judged with all that it needs first:
/// a text that may not have so many instances may take memory for more of them before it is refused.
pub(crate) fn judge_instances(work: &mut Work, start: &[u32]) -> Result<Option<Faults>, AllocError>
    ensures goes { OnOk result (WorkGoesOn work.old work.new) }
    ensures found { IfOk result (λ o. (starts : List Instance) → IsRight work.old → AreNumbersOf (text_in work.old) (shown work.old.walk) start.now starts → FindsInside (text_in work.old) starts o) }
{
    let mut all = IndexSet::new(work.facts.alloc);
    add_all(&mut all, start)?;
    let mut faults = Faults::none();
    'instances: for next in 0..PAST_MOST {
        match number_at(&all, next) {
            None => return Ok(Some(faults)),
            Some(instance) => {
                let own = judge_reached(work, instance, &mut all)?;
                faults = faults.and(own);
            }
        }
    }
    let is_past = are_many(work, &all)?;
    if is_past { Ok(None) } else { Err(AllocError) }
}

/// What an instance breaks. Those that it reaches are added to all.
fn judge_reached(
    work: &mut Work,
    instance: u32,
    all: &mut IndexSet<u32>,
) -> Result<Faults, AllocError>
    ensures goes { OnOk result (WorkGoesOn work.old work.new) }
    ensures found { IfOk result (λ faults. IsRight work.old → FindsReached work.new instance all.old.keys all.new.keys faults) }
{
    work.settle(Need::Instance(instance))?;
    let judged = work.instances.as_slice();
    match there(judged, instance) {
        None => Err(AllocError),
        Some(reaches) => {
            let more = reaches.reached.as_slice();
            add_all(all, more)?;
            Ok(reaches.faults)
        }
    }
}

/// Whether more of these differ than a text may have.
fn are_many(work: &Work, instances: &IndexSet<u32>) -> Result<bool, AllocError>
    ensures { IfOk result (λ b. b ≡ true → AreManyMet (shown work.now.walk) instances.now.keys) }
{
    let mut keys: IndexSet<InstanceKey> = IndexSet::new(work.facts.alloc);
    'instances: for i in 0..instances.len() {
        match number_at(instances, i) {
            None => return Err(AllocError),
            Some(instance) => add_key(work, instance, &mut keys)?,
        }
    }
    let count = keys.len();
    Ok(is_past_most(count))
}

/// With the key of an instance.
fn add_key(work: &Work, instance: u32, keys: &mut IndexSet<InstanceKey>) -> Result<(), AllocError>
    ensures { OnOk result (AddsKey (shown work.now.walk) instance keys.old.keys keys.new.keys) }
{
    let key = key_of(work.facts.alloc, &work.walk, instance)?;
    keys.insert(key)?;
    Ok(())
}

/// The number at a place.
fn number_at(numbers: &IndexSet<u32>, at: usize) -> Option<u32>
    ensures { result ≡ slice_get numbers.now.keys at }
{
    numbers.get_index(at).copied()
}

fn is_past_most(count: usize) -> bool
    ensures { result ≡ true → 4097 ≤ count }
{
    PAST_MOST <= count
}

/// With these, as far as they are new.
fn add_all(all: &mut IndexSet<u32>, instances: &[u32]) -> Result<(), AllocError>
    ensures { OnOk result (all.new.keys ≡ with_new all.old.keys instances.now) }
{
    'instances: for instance in instances {
        all.insert(*instance)?;
    }
    Ok(())
}
