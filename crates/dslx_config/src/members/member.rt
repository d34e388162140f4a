//! Members by their names.

ghost use Rattle.std.specs.Prelude.{◌≡◌, [], Some, IfOk};
ghost use Rattle.dslx_core.specs.Machines.Machine.Callees.{CalleesByName};
ghost use Rattle.dslx_core.specs.Lowering.Steps.{can_travel as travels, member_in};
ghost use Rattle.dslx_meaning.specs.Lists.{where_true};
ghost use Rattle.dslx_scope_names.specs.Patterns.Behind.{body_scope};
ghost use Rattle.dslx_config.specs.Members.Members.{numbered_member};

use crate::channels::can_travel;
use crate::members::outer::outer_type;
use base::texts::Name;
use dslx_core::lowering::CoreMember;
use dslx_meaning::DslxType;
use dslx_scope_names::patterns::BodyScope;
use dslx_tree::End;
use std::alloc::{AllocError, Global};

/// The first member of this name, where nothing is bound but parametrics; `None` where there is none, and where a channel holds
/// no words of its type. It takes time as there are members before it.
#[tactic(auto, using(crate::proofs::OnMembers::Numbered::from_zero))]
pub fn member_there<'a>(
    alloc: Global,
    known: BodyScope<'a>,
    ends: &'a [End],
    name: &Name,
) -> Result<Option<CoreMember>, AllocError>
    ensures { IfOk result (λ m. (callee : CalleesByName) → m ≡ member_in (body_scope callee known.entry [] 0) ends.now name.now) }
{
    'ends: for i in 0..ends.len() {
        if *name == ends[i].name.name {
            return member_of(alloc, known, i, &ends[i]);
        }
    }
    Ok(None)
}

/// The member of a number, if a channel holds words of its type.
fn member_of<'a>(
    alloc: Global,
    known: BodyScope<'a>,
    number: usize,
    end: &'a End,
) -> Result<Option<CoreMember>, AllocError>
    ensures { IfOk result (λ m. (callee : CalleesByName) → m ≡ numbered_member (body_scope callee known.entry [] 0) number end.now) }
{
    match outer_type(alloc, known, &end.word)? {
        Some(word) => travelling(alloc, number as u64, word),
        None => Ok(None),
    }
}

fn travelling(alloc: Global, number: u64, word: DslxType) -> Result<Option<CoreMember>, AllocError>
    ensures { IfOk result (λ m. m ≡ where_true (travels word) (Some (record { number = number; word = word }))) }
{
    if can_travel(alloc, &word)? {
        Ok(Some(CoreMember { number, word }))
    } else {
        Ok(None)
    }
}
