//! Values of parametrics in front of a part.

ghost use Rattle.std.specs.Prelude.{◌≡◌, Some, IfOk, slice_get, true};
ghost use Rattle.dslx_check_facts.specs.Keys.{list_or_none};
ghost use Rattle.dslx_check_facts.specs.Walks.{shown};

use dslx_check_declarations::values_of;
use dslx_check_facts::{Facts, Walk};
use dslx_meaning::DslxValue;
use std::alloc::AllocError;

/// The values of a prefix that is there, the last one first.
pub(crate) fn prefix_values(
    f: &Facts,
    w: &Walk,
    prefix: u32,
) -> Result<Vec<Option<DslxValue>>, AllocError>
    ensures { IfOk result (λ values. slice_get (shown w.now).prefixes prefix ≡ Some values.items) }
{
    if has_prefix(w, prefix) {
        values_of(f.alloc, w, prefix)
    } else {
        Err(AllocError)
    }
}

fn has_prefix(w: &Walk, prefix: u32) -> bool
    ensures { result ≡ true → slice_get (shown w.now).prefixes prefix ≡ Some (list_or_none (shown w.now).prefixes prefix) }
{
    let none = w.prefixes.none();
    if prefix == none {
        true
    } else {
        is_longer(w, prefix)
    }
}

fn is_longer(w: &Walk, prefix: u32) -> bool
    ensures { result ≡ true → slice_get (shown w.now).prefixes prefix ≡ Some (list_or_none (shown w.now).prefixes prefix) }
{
    match w.prefixes.last(prefix) {
        None => false,
        Some(_) => true,
    }
}
