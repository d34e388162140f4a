//! Counts, one down.

ghost use Rattle.std.specs.Prelude.{◌≡◌};
ghost use Rattle.dslx_meaning.specs.Names.ConstMachine.States.{one_less as less};

/// One less, if there is one.
#[tactic(auto, using(crate::proofs::Counts::less_one, crate::proofs::Counts::less_none))]
pub fn one_less(count: u128) -> Option<u128>
    ensures { result ≡ less count }
{
    if count == 0 { None } else { Some(count - 1) }
}

/// One less, if there is one.
#[tactic(auto, using(crate::proofs::Counts::less_one, crate::proofs::Counts::less_none))]
pub fn one_left(count: u64) -> Option<u64>
    ensures { result ≡ less count }
{
    if count == 0 { None } else { Some(count - 1) }
}
