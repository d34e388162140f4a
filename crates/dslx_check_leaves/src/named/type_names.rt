//! Names of types.

ghost use Rattle.std.specs.Prelude.{◌≡◌, false, Some, IfOk, OnOk, MatchOption};
ghost use Rattle.dslx_check_facts.specs.Firsts.{meant_by};
ghost use Rattle.dslx_check_facts.specs.Judged.{ComesToTyping};
ghost use Rattle.dslx_check_facts.specs.Known.{names_type};
ghost use Rattle.dslx_check_facts.specs.Walks.{OnlyMisses, shown};
ghost use Rattle.dslx_check_leaves.specs.Named.TypeNames.{IsTypeItem, name_at};

use base::texts::Name;
use dslx_check_facts::{Facts, TypeEnv, Walk, named_type};
use dslx_check_rules::{Faults, Typing, rule};
use dslx_tree::Definition;
use std::alloc::AllocError;
use xb_span::Span;

/// A type by its name: an alias, a struct or an enum.
#[tactic(auto, using(crate::proofs::OnNamed::OnTypeNames::no_type_named, crate::proofs::OnNamed::OnTypeNames::type_named_typing))]
pub fn type_named<'a>(
    f: &Facts<'a>,
    w: &mut Walk,
    s: &TypeEnv<'a>,
    span: Span,
    name: &Name,
) -> Result<Typing, AllocError>
    ensures misses { OnOk result (OnlyMisses (shown w.old) (shown w.new)) }
    ensures judged { IfOk result (λ j. ComesToTyping f.now s.now (shown w.old) (shown w.new) j (λ context. name_at span name.now context)) }
{
    match type_item(f, name) {
        None => {
            let faults = Faults::breaks(rule::NAME_IS_DECLARED, span);
            Ok(w.settled(span, None, faults, Some(0)))
        }
        Some(item) => {
            let is_cyclic = f.is_cyclic(s.owner, item);
            let ty = named_type(f, w, item)?;
            let faults = Faults::breaks_if(is_cyclic, rule::NO_ITEM_REACHES_ITSELF, span);
            Ok(w.settled(span, ty, faults, Some(0)))
        }
    }
}

/// The first item of a name, if that names a type.
#[tactic(auto, using(crate::proofs::OnNamed::OnTypeNames::no_item_named, crate::proofs::OnNamed::OnTypeNames::other_item_named, crate::proofs::OnNamed::OnTypeNames::type_item))]
fn type_item(f: &Facts, name: &Name) -> Option<u32>
    ensures { MatchOption result (names_type (meant_by f.now name.now) ≡ false) (λ item. IsTypeItem f.now name.now item) }
{
    match f.item(name) {
        None => None,
        Some((item, definition)) => if is_type(definition) {
            Some(item)
        } else {
            None
        },
    }
}

/// Whether the item names a type.
fn is_type(definition: &Definition) -> bool
    ensures { result ≡ names_type (Some definition.now) }
{
    match definition {
        Definition::Alias(_) => true,
        Definition::Struct(_) => true,
        Definition::Enum(_) => true,
        _ => false,
    }
}
