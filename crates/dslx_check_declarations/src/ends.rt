//! Ends of channels, and where one is handed over as another.

ghost use Rattle.std.specs.Prelude.{◌≡◌, List, Option};
ghost use Rattle.base.specs.Lists.Prefix.{IsPrefix};
ghost use Rattle.dslx_meaning.specs.Rules.CallRules.{same_direction as is_same};
ghost use Rattle.dslx_meaning.specs.Rules.ProcRules as the;
ghost use Rattle.dslx_meaning.specs.Rules.TypeEnvs.{ChannelEnd};
ghost use Rattle.dslx_check_rules.specs.Interned.{AreDistinct, HasRowIf, ItemNames, type_if};
ghost use Rattle.dslx_check_rules.specs.declared.table.row.TypeRow.{TypeRow as Row};
ghost use Rattle.dslx_check_declarations.specs.Ends.{IsEndNamed, other_word};

use base::texts::Name;
use dslx_check_facts::MemberEnd;
use dslx_check_rules::nodes::either;
use dslx_check_rules::{TypeId, TypeTable};
use dslx_tree::Direction;

/// A name with the end of a channel that it stands for.
#[derive(Clone, Copy)]
pub struct NamedEnd<'a> {
    pub name: &'a Name,
    pub end: MemberEnd,
}

/// An end of this name and this direction, for such words.
pub fn named_end<'a>(name: &'a Name, direction: Direction, word: Option<TypeId>) -> NamedEnd<'a>
    ensures { (result.name.now ≡ name.now) × (result.end ≡ record { direction = direction; word = word }) }
{
    NamedEnd {
        name,
        end: MemberEnd { direction, word },
    }
}

/// Whether an end has another direction or other words than the one that it is handed over as.
pub fn misfits(types: &TypeTable, wanted: MemberEnd, end: Option<MemberEnd>) -> bool
    ensures { (names : ItemNames) (later : List Row) (o : Option ChannelEnd) → AreDistinct names → IsPrefix types.now later → HasRowIf types.now wanted.word
        → IsEndNamed names types.now later end o → result ≡ the.misfits wanted.direction (type_if names later wanted.word) o }
{
    match end {
        None => false,
        Some(end) => {
            let is_one = same_direction(wanted.direction, end.direction);
            either(!is_one, are_other(types, wanted.word, end.word))
        }
    }
}

/// Whether both are there, and are two types.
fn are_other(types: &TypeTable, a: Option<TypeId>, b: Option<TypeId>) -> bool
    ensures { (names : ItemNames) (later : List Row) → AreDistinct names → IsPrefix types.now later → HasRowIf types.now a → HasRowIf types.now b
        → result ≡ other_word (type_if names later a) (type_if names later b) }
{
    match (a, b) {
        (Some(a), Some(b)) => !types.same(a, b),
        _ => false,
    }
}

fn same_direction(a: Direction, b: Direction) -> bool
    ensures { result ≡ is_same a b }
{
    match (a, b) {
        (Direction::In, Direction::In) => true,
        (Direction::Out, Direction::Out) => true,
        _ => false,
    }
}
