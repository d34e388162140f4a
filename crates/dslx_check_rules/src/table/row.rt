//! What a type is over the types of its parts.

ghost use Rattle.std.specs.Prelude.{◌≡◌};
ghost use Rattle.std.specs.List.{fold};
ghost use Rattle.std.specs.Cmp.{partial_equiv_from_equiv};
ghost use Rattle.std.specs.Cmp.Lexicographic.{pointwise};
ghost use Rattle.dslx_meaning.specs.Types.{same_bool};
ghost use Rattle.dslx_check_rules.specs.Rows.{fed_by_parts, fed_of, same_id, same_kind as is_same_kind, same_row};
ghost use Rattle.dslx_check_rules.specs.RowLaws.{rows_equivalence, rows_fed_alike};

use dslx_meaning::BitKind;
use std::hash::{Hash, Hasher};
use xb_value::Seq;

/// A type: its number in a table.
#[derive(Clone, Copy, PartialEq, Eq)]
pub struct TypeId(pub u32);

/// A type over the numbers of its parts. Structs and enums are told by the numbers of their items.
#[derive(Drop)]
pub enum TypeRow {
    Bits(BitKind),
    Tuple(Seq<TypeId>),
    /// An array: the type of its elements, and their number.
    Array(TypeId, u128),
    /// A struct: its item, and the types of its fields in order.
    Struct(u32, Seq<TypeId>),
    /// An enum: its item, and its base.
    Enum(u32, BitKind),
    /// The type of tokens, which no text writes.
    Token,
}

/// Whether they are one type: structs and enums by their items, all others by their parts.
impl PartialEq for TypeRow {
    ghost eq = { same_row };

    ghost laws = { partial_equiv_from_equiv rows_equivalence };

    fn eq(&self, other: &TypeRow) -> bool {
        match (self, other) {
            (TypeRow::Bits(k), TypeRow::Bits(l)) => same_kind(*k, *l),
            (TypeRow::Tuple(ts), TypeRow::Tuple(us)) => same_ids(ts.as_slice(), us.as_slice()),
            (TypeRow::Array(t, m), TypeRow::Array(u, n)) => t.0 == u.0 && *m == *n,
            (TypeRow::Struct(i, _), TypeRow::Struct(j, _)) => *i == *j,
            (TypeRow::Enum(i, _), TypeRow::Enum(j, _)) => *i == *j,
            (TypeRow::Token, TypeRow::Token) => true,
            _ => false,
        }
    }
}

impl Eq for TypeRow {
    ghost laws = { rows_equivalence };
}

impl Hash for TypeRow {
    ghost hash_input = { fed_of };

    ghost respects_eq = { rows_fed_alike };

    fn hash<H: Hasher>(&self, state: &mut H) {
        match self {
            TypeRow::Bits(kind) => kind.width.hash(state),
            TypeRow::Tuple(parts) => feed(parts.as_slice(), state),
            TypeRow::Array(part, count) => {
                part.0.hash(state);
                count.hash(state);
            }
            TypeRow::Struct(item, _) => item.hash(state),
            TypeRow::Enum(item, _) => item.hash(state),
            TypeRow::Token => {}
        }
    }
}

/// Whether the two have one sign and one width.
fn same_kind(a: BitKind, b: BitKind) -> bool
    ensures { result ≡ is_same_kind a b }
{
    same_sign(a.signed, b.signed) && a.width == b.width
}

fn same_sign(a: bool, b: bool) -> bool
    ensures { result ≡ same_bool a b }
{
    if a { b } else { !b }
}

/// Whether the two are the same numbers in order.
fn same_ids(a: &[TypeId], b: &[TypeId]) -> bool
    ensures { result ≡ pointwise same_id a.now b.now }
{
    a == b
}

/// Feeds the number of each part.
fn feed<H: Hasher>(parts: &[TypeId], state: &mut H)
    ensures { state.new ≡ fold H.write state.old (fed_by_parts parts.now) }
{
    'parts: for part in parts {
        part.0.hash(state);
    }
}
