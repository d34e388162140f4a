//! Types of structs.

ghost use Rattle.std.specs.Prelude.{◌≡◌, ◌==◌, ◌&&◌, not, length, IfOk, IfSome};
ghost use Rattle.std.specs.List.{All};
ghost use Rattle.dslx_meaning.specs.Lists.{all_some};
ghost use Rattle.dslx_check_rules.specs.Interned.{HasRow};
ghost use Rattle.dslx_check_facts.specs.Walks.{shown};
ghost use Rattle.dslx_check_declarations.specs.Items.{FindsStruct};

use dslx_check_facts::{Facts, Walk};
use dslx_check_rules::nodes::both;
use dslx_check_rules::nodes::lists::there;
use dslx_check_rules::{Faults, TypeId, TypeTable};
use std::alloc::{AllocError, Global};
use xb_value::Seq;

/// The type of a struct of this item whose fields have these types, unless a rule is broken or something is missing. It is put into the
/// table here alone.
pub fn struct_type(
    f: &Facts,
    w: &mut Walk,
    item: u32,
    faults: Faults,
    types: &[Option<TypeId>],
) -> Result<Option<TypeId>, AllocError>
    ensures { IfOk result (λ t. FindsStruct (shown w.old) (shown w.new) item faults types.now t) }
{
    let is_whole = may_name_type(w, faults);
    if !is_whole {
        return Ok(None);
    }
    match all_there(f.alloc, &w.types, types)? {
        None => Ok(None),
        Some(parts) => {
            let ty = w.types.structure(item, parts)?;
            Ok(Some(ty))
        }
    }
}

/// Whether no rule is broken, and nothing is missing.
pub(crate) fn may_name_type(w: &Walk, faults: Faults) -> bool
    ensures { result ≡ (not faults.broken && (length (shown w.now).missing == 0)) }
{
    both(!faults.broken, w.missing.len() == 0)
}

/// All types, where each is there.
fn all_there(
    alloc: Global,
    table: &TypeTable,
    types: &[Option<TypeId>],
) -> Result<Option<Seq<TypeId>>, AllocError>
    ensures is { IfOk result (λ all. all ≡ all_some types.now) }
    ensures there { IfOk result (λ all. IfSome all (All (HasRow table.now))) }
{
    let mut all = Vec::new(alloc);
    'types: for ty in types {
        match ty {
            Some(ty) => {
                let ty = there(table, *ty)?;
                all.push(ty)?;
            }
            None => return Ok(None),
        }
    }
    Ok(Some(Seq::from_vec(all)))
}
