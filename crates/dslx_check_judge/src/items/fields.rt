//! Fields of structs.

ghost use Rattle.std.specs.Prelude.{[], IfOk};
ghost use Rattle.dslx_meaning.specs.Rules.ItemRules as the;
ghost use Rattle.dslx_check_facts.specs.Walks.{shown};
ghost use Rattle.dslx_check_leaves.specs.Walked.{WalksTo};
ghost use Rattle.dslx_check_judge.specs.Items.Lists.{IsTypeAs, TypesList, inner_types_of};

use dslx_check_declarations::{NamesBefore, listed_name};
use dslx_check_facts::{Facts, TypeEnv, Walk};
use dslx_check_parts::inner_type;
use dslx_check_rules::{Faults, TypeId};
use dslx_tree::Field;
use std::alloc::AllocError;

/// All fields: their faults, and the type of each.
#[derive(Drop)]
pub(crate) struct FieldsSeen {
    pub(crate) faults: Faults,
    pub(crate) types: Vec<Option<TypeId>>,
}

/// The fields of a struct.
pub(crate) fn fields_seen<'a>(
    f: &Facts<'a>,
    w: &mut Walk,
    s: &mut TypeEnv<'a>,
    fields: &'a [Field],
) -> Result<FieldsSeen, AllocError>
    ensures { IfOk result (λ r. WalksTo f.now s.old s.new (shown w.old) (shown w.new)
        (TypesList IsTypeAs r.faults r.types.items (λ context. the.fields_found context [] fields.now) (λ context. inner_types_of context fields.now))) }
{
    let mut before = NamesBefore::new(f.alloc);
    let mut faults = Faults::none();
    let mut types = Vec::new(f.alloc);
    'fields: for i in 0..fields.len() {
        let field = &fields[i];
        let is_before = before.has(&field.name.name);
        let named = listed_name(is_before, &field.name);
        let own = inner_type(f, w, s, &field.ty)?;
        let one = named.and(own.faults);
        faults = faults.and(one);
        types.push(own.ty)?;
        before.put(&field.name.name)?;
    }
    Ok(FieldsSeen { faults, types })
}
