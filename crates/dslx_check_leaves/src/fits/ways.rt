//! Ways from items to those that they reach.

ghost use Rattle.std.specs.Prelude.{◌≡◌, ℕ, Some, true, IfOk, OnOk, slice_get};
ghost use Rattle.std.specs.Option.{option_copied};
ghost use Rattle.base.specs.TopoOrder.Needs.{Needs, Reaches};
ghost use Rattle.dslx_meaning.specs.Rules.Mentions.{item_reaches};
ghost use Rattle.dslx_meaning.specs.Rules.TypeEnvs.{GlobalEnv};
ghost use Rattle.dslx_check_facts.specs.Known.{FactsHold, item_names};
ghost use Rattle.dslx_check_facts.specs.Walks.{WalkShown};
ghost use Rattle.dslx_check_leaves.specs.Fits.Ways.{PutsBehind};

use dslx_check_facts::Facts;
use std::alloc::{AllocError, Global};
use xb_value::Seq;

/// Finds a way from one item to another by what their texts mention. It is asked of enums whose values stand in the text of the item, and
/// those it reaches; where there is no way it is refused as for want of memory.
pub(crate) fn find_way(f: &Facts, from: u32, to: u32) -> Result<(), AllocError>
    ensures { IfOk result (λ u. (known : GlobalEnv) (later : WalkShown) → FactsHold f.now later known
        → item_reaches known.whole ((item_names f.now).item from) ((item_names f.now).item to) ≡ true) }
{
    if has_way(f.alloc, f.reaching.needs.as_slice(), from, to)? {
        Ok(())
    } else {
        Err(AllocError)
    }
}

/// Finds a way from one thing to another by what each needs; `false` says only that it found none. It takes time as things are nearer than
/// that one.
pub fn has_way(alloc: Global, needs: &[Seq<u32>], from: u32, to: u32) -> Result<bool, AllocError>
    ensures { IfOk result (λ b. b ≡ true → Reaches needs.now from to) }
{
    if is_needed(needs, from, to) {
        return Ok(true);
    }
    let mut met = vec![in alloc; false; needs.len()]?;
    let mut queue = Vec::new(alloc);
    queue.push(from)?;
    'turns: for at in 0..needs.len() {
        match item_at(queue.as_slice(), at) {
            Some(item) => {
                if go_on(needs, item, to, &mut met, &mut queue)? {
                    return Ok(true);
                }
            }
            None => return Ok(false),
        }
    }
    Ok(false)
}

/// Whether a thing itself needs another one.
fn is_needed(needs: &[Seq<u32>], item: u32, other: u32) -> bool
    ensures { result ≡ true → Needs needs.now item other }
{
    match needs_at(needs, item) {
        Some(own) => is_among(own, other),
        None => false,
    }
}

/// What a thing needs.
fn needs_at(needs: &[Seq<u32>], item: u32) -> Option<&[u32]>
    ensures { option_copied result ≡ slice_get needs.now item }
{
    match needs.get(item as usize) {
        Some(own) => Some(own.as_slice()),
        None => None,
    }
}

fn is_among(own: &[u32], other: u32) -> bool
    ensures { result ≡ true → (k : ℕ) × (slice_get own.now k ≡ Some other) }
{
    'items: for item in own {
        if *item == other {
            return true;
        }
    }
    false
}

fn item_at(queue: &[u32], at: usize) -> Option<u32>
    ensures { result ≡ slice_get queue.now at }
{
    queue.get(at).copied()
}

/// Puts what an item needs behind the others, and says whether the one that is looked for is among it.
fn go_on(
    needs: &[Seq<u32>],
    item: u32,
    to: u32,
    met: &mut Vec<bool>,
    queue: &mut Vec<u32>,
) -> Result<bool, AllocError>
    ensures found { IfOk result (λ b. b ≡ true → Needs needs.now item to) }
    ensures puts { OnOk result (PutsBehind (Needs needs.now item) queue.old.items queue.new.items) }
{
    match needs_at(needs, item) {
        Some(own) => put_all(own, to, met, queue),
        None => Ok(false),
    }
}

fn put_all(
    own: &[u32],
    to: u32,
    met: &mut Vec<bool>,
    queue: &mut Vec<u32>,
) -> Result<bool, AllocError>
    ensures found { IfOk result (λ b. b ≡ true → (k : ℕ) × (slice_get own.now k ≡ Some to)) }
    ensures puts { OnOk result (PutsBehind (λ x. (k : ℕ) × (slice_get own.now k ≡ Some x)) queue.old.items queue.new.items) }
{
    'needs: for item in own {
        if *item == to {
            return Ok(true);
        }
        put_new(*item, met, queue)?;
    }
    Ok(false)
}

/// Puts an item behind the others, if it wasn't met before.
fn put_new(item: u32, met: &mut Vec<bool>, queue: &mut Vec<u32>) -> Result<(), AllocError>
    ensures { OnOk result (PutsBehind (λ x. x ≡ item) queue.old.items queue.new.items) }
{
    if is_new(item, met) {
        queue.push(item)?;
    }
    Ok(())
}

/// Whether an item wasn't met before. It is met now.
fn is_new(item: u32, met: &mut Vec<bool>) -> bool {
    let place = item as usize;
    if place < met.len() && !met[place] {
        met[place] = true;
        true
    } else {
        false
    }
}
