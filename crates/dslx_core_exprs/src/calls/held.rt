//! What is held beside a call that may lack memory. These are generic, or small: letting go a core expression by its cases is dear to prove.

ghost use Rattle.std.specs.Prelude.{◌≡◌, Some};
ghost use Rattle.dslx_meaning.specs.Lists.{and_then, where_true};

/// What is there where this holds.
pub(crate) fn where_holds<T: Drop>(holds: bool, made: T) -> Option<T>
    ensures { result ≡ where_true holds (Some made) }
{
    if holds { Some(made) } else { None }
}

/// What may be there, and what is beside it.
pub(crate) fn with_both<A: Drop, B: Drop>(first: Option<A>, second: B) -> Option<(A, B)>
    ensures { result ≡ and_then first (λ a. Some (a, second)) }
{
    match first {
        Some(first) => Some((first, second)),
        None => None,
    }
}
