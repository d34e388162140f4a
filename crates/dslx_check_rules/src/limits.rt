//! The limits on types.

ghost use Rattle.std.specs.Prelude.{◌≡◌, ℕ, List, Some};
ghost use Rattle.base.specs.Lists.Prefix.{IsPrefix};
ghost use Rattle.dslx_meaning.specs.Rules.TypeEnvs as the;
ghost use Rattle.dslx_meaning.specs.Rules.ProcRules as procs;
ghost use Rattle.dslx_meaning.specs.declared.ty.DslxType.{DslxType};
ghost use Rattle.dslx_check_rules.specs.Measures.{least_wide, measures_of};
ghost use Rattle.dslx_check_rules.specs.Seen.{seen};
ghost use Rattle.dslx_check_rules.specs.declared.table.row.TypeRow.{TypeRow as Row};
ghost use Rattle.dslx_check_rules.specs.Interned.{HasRowIf, ItemNames, type_if};

use crate::faults::Faults;
use crate::table::{TypeId, TypeMeasures, TypeTable};
use xb_span::{Fault, Limit, What};

/// The limits that the type of a part which ends there passes.
pub fn type_limits(types: &TypeTable, end: u32, ty: Option<TypeId>) -> Faults
    ensures { (names : ItemNames) (later : List Row) → IsPrefix types.now later → HasRowIf types.now ty → result ≡ seen (the.type_limits end (type_if names later ty)) }
{
    match ty {
        None => Faults::none(),
        Some(ty) => limits_passed(end, types.measures(ty)),
    }
}

/// The limits that a type of this size passes.
fn limits_passed(end: u32, measures: TypeMeasures) -> Faults
    ensures { (t : DslxType) → measures ≡ measures_of t → result ≡ seen (the.type_limits end (Some t)) }
{
    let widths = widths_passed(end, measures.too_wide);
    let leaves = Faults::passes(What::Leaves, 256, end, measures.leaves);
    let levels = Faults::passes(What::Levels, 64, end, measures.levels);
    widths.and(leaves).and(levels)
}

/// The least of the widths that are past the limit.
fn widths_passed(end: u32, too_wide: Option<u64>) -> Faults
    ensures { (widths : List ℕ) → too_wide ≡ least_wide widths → result ≡ seen (the.passes_widths end widths) }
{
    match too_wide {
        None => Faults::none(),
        Some(found) => Faults {
            first: Some(Fault::Passed(
                end,
                Limit {
                    what: What::Width,
                    found,
                    most: 128,
                },
            )),
            broken: false,
        },
    }
}

/// The limit on a channel's words, which stands at their type.
pub fn word_limit(types: &TypeTable, end: u32, ty: Option<TypeId>) -> Faults
    ensures { (names : ItemNames) (later : List Row) → IsPrefix types.now later → HasRowIf types.now ty → result ≡ seen (procs.word_limit end (type_if names later ty)) }
{
    match ty {
        None => Faults::none(),
        Some(ty) => word_passed(end, types.measures(ty)),
    }
}

/// The same of words of a type of this size.
fn word_passed(end: u32, measures: TypeMeasures) -> Faults
    ensures { (t : DslxType) → measures ≡ measures_of t → result ≡ seen (procs.word_limit end (Some t)) }
{
    Faults::passes(What::Word, 128, end, measures.flat)
}
