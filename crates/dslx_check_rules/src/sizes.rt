//! How many nodes parts have, counted up to one more than there may be.

ghost use Rattle.std.specs.Prelude.{◌≡◌, ◌<◌, ◌^◌, ℕ, Option, Some, min};
ghost use Rattle.dslx_meaning.specs.Rules.TypeEnvs as the;
ghost use Rattle.dslx_meaning.specs.Rules.ControlRules as control;
ghost use Rattle.dslx_check_rules.specs.Seen.{capped as up_to_most, most_counted};

/// The most nodes that a body or a constant has.
pub const MOST_NODES: u32 = 65_536;

/// A count, up to one more than the most.
fn capped(count: u64) -> u32
    ensures { result ≡ min most_counted count }
{
    count.min(MOST_NODES as u64 + 1) as u32
}

/// The size of two parts.
#[tactic(auto, using(crate::proofs::Lemmas::Sizes::sum_capped))]
pub fn plus_size(a: Option<u32>, b: Option<u32>) -> Option<u32>
    ensures { (x y : Option ℕ) → a ≡ up_to_most x → b ≡ up_to_most y → result ≡ up_to_most (the.plus_size x y) }
{
    match (a, b) {
        (Some(a), Some(b)) => Some(capped(a as u64 + b as u64)),
        _ => None,
    }
}

/// The size of a node and its parts.
pub fn one_and(size: Option<u32>) -> Option<u32>
    ensures { (x : Option ℕ) → size ≡ up_to_most x → result ≡ up_to_most (the.one_and x) }
{
    plus_size(Some(1), size)
}

/// So many times; a factor past the most counts as one more than that.
pub fn times_size(turns: Option<u128>, size: Option<u32>) -> Option<u32>
    ensures { (n x : Option ℕ) → up_to_most turns ≡ up_to_most n → size ≡ up_to_most x → result ≡ up_to_most (control.times_size n x) }
{
    match (turns, size) {
        (Some(turns), Some(size)) => {
            let turns = turns.min(MOST_NODES as u128 + 1) as u64;
            Some(capped(turns * size as u64))
        }
        _ => None,
    }
}
