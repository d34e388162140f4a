//! What items come to that are no functions and no procs.

ghost use Rattle.std.specs.Prelude.{◌≡◌, [], List, None, Option, IfOk, OnOk};
ghost use Rattle.std.specs.Option.{option_map};
ghost use Rattle.base.specs.Lists.Prefix.{IsPrefix};
ghost use Rattle.xb_span.specs.declared.fault.Fault as one;
ghost use Rattle.dslx_tree.specs.declared.type_expr.TypeExpr.{TypeExpr};
ghost use Rattle.dslx_meaning.specs.Values.{type_of_value};
ghost use Rattle.dslx_meaning.specs.Rules.TypeEnvs as env;
ghost use Rattle.dslx_check_rules.specs.Interned.{HasRowIf, ItemNames, KeepsItems, type_if};
ghost use Rattle.dslx_check_rules.specs.Seen.{seen};
ghost use Rattle.dslx_check_rules.specs.declared.table.row.TypeRow.{TypeRow as Row};
ghost use Rattle.dslx_check_facts.specs.Known.{item_names};
ghost use Rattle.dslx_check_declarations.specs.Items.{AnnotatesBy, IsWrittenType, annotated_faults};

use crate::value_types::value_type;
use dslx_check_facts::Facts;
use dslx_check_rules::{Faults, TypeId, TypeTable, Typing, wanted_faults};
use dslx_meaning::DslxValue;
use std::alloc::{AllocError, Global};
use xb_span::Span;

/// What an item comes to, but for what it reaches, which stands in the walk: its faults, the type that it names, a constant's value with
/// the type of that, and the values of an enum's members.
#[derive(Drop)]
pub struct ItemSeen {
    pub faults: Faults,
    pub named_type: Option<TypeId>,
    pub value_type: Option<TypeId>,
    pub value: Option<DslxValue>,
    pub members: Vec<Option<DslxValue>>,
}

impl ItemSeen {
    /// An item with these faults that names this type, if it names one, and has no value and no members.
    pub fn of_type(alloc: Global, faults: Faults, ty: Option<TypeId>) -> ItemSeen
        ensures faults { result.faults ≡ faults }
        ensures named { result.named_type ≡ ty }
        ensures no_type { result.value_type ≡ None }
        ensures no_value { result.value ≡ None }
        ensures no_members { result.members.items ≡ [] }
    {
        ItemSeen {
            faults,
            named_type: ty,
            value_type: None,
            value: None,
            members: Vec::new(alloc),
        }
    }
}

/// A type is there only where no rule is broken.
#[tactic(auto, using(crate::proofs::OnItems::unless_is))]
pub fn unless_broken(faults: Faults, ty: Option<TypeId>) -> Option<TypeId>
    ensures is { (names : ItemNames) (rows : List Row) (fs : List one.Fault) → faults ≡ seen fs → type_if names rows result ≡ env.unless_broken fs (type_if names rows ty) }
    ensures there { (rows : List Row) → HasRowIf rows ty → HasRowIf rows result }
{
    if faults.broken { None } else { ty }
}

/// What a constant's value breaks by the type that is written for it, if one is, and whether it has it.
#[derive(Clone, Copy)]
pub struct Annotation {
    pub faults: Faults,
    pub is_fine: bool,
}

/// What a value of this type, which stands at a span, breaks by the type that is written for it.
pub fn annotation_of(
    types: &TypeTable,
    span: Span,
    written: Option<Typing>,
    value: Option<TypeId>,
) -> Annotation
    ensures { AnnotatesBy types.now span written value result.faults result.is_fine }
{
    match written {
        None => Annotation {
            faults: Faults::none(),
            is_fine: true,
        },
        Some(written) => {
            let wrong = wanted_faults(types, span, written.ty, value);
            let faults = written.faults.and(wrong);
            Annotation {
                faults: wrong,
                is_fine: faults.is_empty() && written.ty.is_some(),
            }
        }
    }
}

/// The faults of a type that is written.
pub fn written_faults(written: Option<Typing>) -> Faults
    ensures { (names : ItemNames) (rows later : List Row) (t : Option TypeExpr) (x : env.Judgement) → IsWrittenType names rows later t written x → result ≡ seen (annotated_faults t x) }
{
    match written {
        None => Faults::none(),
        Some(written) => written.faults,
    }
}

/// The type of a value that may be there.
pub fn typed_value(
    f: &Facts,
    types: &mut TypeTable,
    value: &Option<DslxValue>,
) -> Result<Option<TypeId>, AllocError>
    ensures is { IfOk result (λ t. (later : List Row) → IsPrefix types.new later → type_if (item_names f.now) later t ≡ option_map type_of_value value.now) }
    ensures there { IfOk result (λ t. HasRowIf types.new t) }
    ensures items { OnOk result (KeepsItems types.old types.new) }
    ensures grows { OnOk result (IsPrefix types.old types.new) }
{
    match value {
        None => Ok(None),
        Some(value) => {
            let ty = value_type(f, types, value)?;
            Ok(Some(ty))
        }
    }
}
