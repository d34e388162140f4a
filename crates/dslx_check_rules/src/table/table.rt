//! The table of types: each is put there once, so that one type is one number.

ghost use Rattle.std.specs.Prelude.{◌≡◌, ◌<◌, ◌↔◌, ◌∷◌, ◌++◌, [], ℕ, List, false, is_some, IfOk, IfSome, IsSome, OnOk, OnErr, length, map, slice_get};
ghost use Rattle.std.specs.List.{All, list_any};
ghost use Rattle.std.specs.Option.{option_copied};
ghost use Rattle.base.specs.Lists.Prefix.{IsPrefix};
ghost use Rattle.dslx_meaning.specs.Types.{received as pair_of, same_type, unit_type};
ghost use Rattle.dslx_meaning.specs.declared.ty.DslxType as ty;
ghost use Rattle.dslx_check_rules.specs.declared.table.row.TypeRow.{TypeRow as Row};
ghost use Rattle.dslx_check_rules.specs.Rows.{parts_of, same_row};
ghost use Rattle.dslx_check_rules.specs.Measures.{measures_of};
ghost use Rattle.dslx_check_rules.specs.Inner.Measured.{begins_with_token, of_parts, of_tuple};
ghost use Rattle.dslx_check_rules.specs.Interned.{AreDistinct, HasBase, HasFields, HasRow, ItemNames, HasNumber, row_type, type_at, types_in, with_row, KeepsItems};

use crate::table::measures::TypeMeasures;
use crate::table::row::{TypeId, TypeRow};
use dslx_meaning::BitKind;
use indexmap::IndexMap;
use std::alloc::{AllocError, Global};
use std::marker::Model;
use xb_value::{Seq, at};

/// All types that were met. Contracts see their rows, by number; `later` is any table that begins with these rows.
pub struct TypeTable {
    rows: IndexMap<TypeRow, TypeMeasures>,
}

/// Written out, so that it is proved once and not wherever one is let go.
impl Drop for TypeTable {
    fn drop(self) {
        let TypeTable { rows: _ } = self;
    }
}

impl Model for TypeTable {
    ghost use Rattle.std.specs.Prelude.{List};
    ghost use Rattle.std.specs.Coded.{codes};
    ghost use Rattle.std.specs.Map.{keys_of};
    ghost use Rattle.dslx_check_rules.specs.declared.table.row.TypeRow.{TypeRow};
    ghost use Rattle.dslx_check_rules.specs.contracts.table.row.TypeRow as stored;
    ghost use Rattle.dslx_check_rules.specs.Interned.{IsInterned};

    ghost Value = { List TypeRow };

    ghost coded = { Prim.hlevel (codes, stored.the_row.coded) };

    ghost view = { λ t. keys_of t.rows.entries };

    ghost invariant = { λ t. IsInterned t.rows.entries };
}

impl TypeTable {
    /// Without types.
    pub fn new(alloc: Global) -> TypeTable
        ensures { result ≡ [] }
    {
        TypeTable {
            rows: IndexMap::new(alloc),
        }
    }

    /// What a type is, over types of lower numbers.
    pub fn row(&self, ty: TypeId) -> Option<&TypeRow>
        ensures row { option_copied result ≡ slice_get self.now ty.0 }
        ensures there { IsSome result ↔ HasRow self.now ty }
        ensures is { IfSome result (λ r. (names : ItemNames) (later : List Row) → IsPrefix self.now later → type_at names later ty ≡ row_type names (types_in names later) r.now) }
        ensures earlier { IfSome result (λ r. All (λ p. p.0 < ty.0) (parts_of r.now)) }
    {
        match self.rows.get_index(ty.0 as usize) {
            Some((row, _)) => Some(row),
            None => None,
        }
    }

    /// How large a type is.
    pub fn measures(&self, ty: TypeId) -> TypeMeasures
        ensures { (names : ItemNames) → result ≡ measures_of (type_at names self.now ty) }
    {
        match self.rows.get_index(ty.0 as usize) {
            Some((_, measures)) => *measures,
            None => TypeMeasures::of_unit(),
        }
    }

    /// Whether the two are one type: they are if they are one number.
    pub fn same(&self, a: TypeId, b: TypeId) -> bool
        ensures { (names : ItemNames) (later : List Row) → AreDistinct names → IsPrefix self.now later → HasRow self.now a → HasRow self.now b
            → result ≡ same_type (type_at names later a) (type_at names later b) }
    {
        // What is so of every table is known where it is read.
        let _types = self.rows.len();
        a.0 == b.0
    }

    /// Bits.
    pub fn bits(&mut self, kind: BitKind) -> Result<TypeId, AllocError>
        ensures is { IfOk result (λ t. (names : ItemNames) (later : List Row) → IsPrefix self.new later → type_at names later t ≡ ty.Bits kind.signed kind.width) }
        ensures rows { OnOk result (self.new ≡ with_row self.old (TypeRow.Bits kind)) }
        ensures there { IfOk result (λ t. HasRow self.new t) }
        ensures grows { OnOk result (IsPrefix self.old self.new) }
        ensures stays { OnErr result (self.new ≡ self.old) }
    {
        self.put(TypeRow::Bits(kind), TypeMeasures::of_leaf(kind.width))
    }

    /// `()`.
    pub fn unit(&mut self, alloc: Global) -> Result<TypeId, AllocError>
        ensures is { IfOk result (λ t. (names : ItemNames) (later : List Row) → IsPrefix self.new later → type_at names later t ≡ unit_type) }
        ensures rows { OnOk result (self.new ≡ with_row self.old (TypeRow.Tuple [])) }
        ensures there { IfOk result (λ t. HasRow self.new t) }
        ensures grows { OnOk result (IsPrefix self.old self.new) }
        ensures stays { OnErr result (self.new ≡ self.old) }
    {
        self.tuple(Seq::new(alloc))
    }

    /// A tuple of these types.
    pub fn tuple(&mut self, parts: Seq<TypeId>) -> Result<TypeId, AllocError>
        requires { All (HasRow self.old) parts }
        ensures is { IfOk result (λ t. (names : ItemNames) (later : List Row) → IsPrefix self.new later → type_at names later t ≡ ty.Tuple (map (type_at names later) parts)) }
        ensures rows { OnOk result (self.new ≡ with_row self.old (TypeRow.Tuple parts)) }
        ensures there { IfOk result (λ t. HasRow self.new t) }
        ensures grows { OnOk result (IsPrefix self.old self.new) }
        ensures stays { OnErr result (self.new ≡ self.old) }
    {
        let measures = self.tuple_measures(parts.as_slice());
        self.put(TypeRow::Tuple(parts), measures)
    }

    /// An array of so many of this type.
    pub fn array(&mut self, part: TypeId, count: u128) -> Result<TypeId, AllocError>
        requires { HasRow self.old part }
        ensures is { IfOk result (λ t. (names : ItemNames) (later : List Row) → IsPrefix self.new later → type_at names later t ≡ ty.Array (type_at names later part) count) }
        ensures rows { OnOk result (self.new ≡ with_row self.old (TypeRow.Array part count)) }
        ensures there { IfOk result (λ t. HasRow self.new t) }
        ensures grows { OnOk result (IsPrefix self.old self.new) }
        ensures stays { OnErr result (self.new ≡ self.old) }
    {
        let measures = self.measures(part).of_array(count);
        self.put(TypeRow::Array(part, count), measures)
    }

    /// The struct of an item, whose fields have these types.
    pub fn structure(&mut self, item: u32, parts: Seq<TypeId>) -> Result<TypeId, AllocError>
        requires { All (HasRow self.old) parts }
        ensures is { IfOk result (λ t. (names : ItemNames) (later : List Row) → HasFields self.old item parts → IsPrefix self.new later
            → type_at names later t ≡ ty.Struct (names.item item) (names.fields item) (map (type_at names later) parts)) }
        ensures rows { OnOk result (self.new ≡ with_row self.old (TypeRow.Struct item parts)) }
        ensures there { IfOk result (λ t. HasRow self.new t) }
        ensures grows { OnOk result (IsPrefix self.old self.new) }
        ensures stays { OnErr result (self.new ≡ self.old) }
    {
        let measures = self.measures_of_all(parts.as_slice()).raised();
        self.put(TypeRow::Struct(item, parts), measures)
    }

    /// The enum of an item, with this base.
    pub fn enumeration(&mut self, item: u32, base: BitKind) -> Result<TypeId, AllocError>
        ensures is { IfOk result (λ t. (names : ItemNames) (later : List Row) → HasBase self.old item base → IsPrefix self.new later
            → type_at names later t ≡ ty.Enum (names.item item) base.signed base.width) }
        ensures rows { OnOk result (self.new ≡ with_row self.old (TypeRow.Enum item base)) }
        ensures there { IfOk result (λ t. HasRow self.new t) }
        ensures grows { OnOk result (IsPrefix self.old self.new) }
        ensures stays { OnErr result (self.new ≡ self.old) }
    {
        self.put(TypeRow::Enum(item, base), TypeMeasures::of_leaf(base.width))
    }

    /// The type of tokens.
    pub fn token(&mut self) -> Result<TypeId, AllocError>
        ensures is { IfOk result (λ t. (names : ItemNames) (later : List Row) → IsPrefix self.new later → type_at names later t ≡ ty.Token) }
        ensures rows { OnOk result (self.new ≡ with_row self.old TypeRow.Token) }
        ensures there { IfOk result (λ t. HasRow self.new t) }
        ensures grows { OnOk result (IsPrefix self.old self.new) }
        ensures stays { OnErr result (self.new ≡ self.old) }
    {
        self.put(TypeRow::Token, TypeMeasures::of_token())
    }

    /// What a receive gives: a token and a word.
    pub fn received(&mut self, alloc: Global, word: TypeId) -> Result<TypeId, AllocError>
        requires { HasRow self.old word }
        ensures is { IfOk result (λ t. (names : ItemNames) (later : List Row) → IsPrefix self.new later → type_at names later t ≡ pair_of (type_at names later word)) }
        ensures there { IfOk result (λ t. HasRow self.new t) }
        ensures items { KeepsItems self.old self.new }
        ensures grows { IsPrefix self.old self.new }
    {
        let token = self.token()?;
        let parts = Seq::from_slice(alloc, &[token, word])?;
        self.tuple(parts)
    }

    /// The number of a row: that of one like it, or else it is put at the end.
    fn put(&mut self, row: TypeRow, measures: TypeMeasures) -> Result<TypeId, AllocError>
        requires parts { All (HasRow self.old) (parts_of row) }
        requires measured { (names : ItemNames) → measures ≡ measures_of (row_type names (types_in names self.old) row) }
        ensures rows { OnOk result (self.new ≡ with_row self.old row) }
        ensures number { IfOk result (HasNumber self.new row) }
        ensures there { IfOk result (λ t. HasRow self.new t) }
        ensures grows { OnOk result (IsPrefix self.old self.new) }
        ensures stays { OnErr result (self.new ≡ self.old) }
    {
        match self.find(&row) {
            Some(place) => number(place),
            None => self.push(row, measures),
        }
    }

    /// The number of a row like this one.
    fn find(&self, row: &TypeRow) -> Option<usize>
        ensures found { is_some result ≡ list_any (same_row row.now) self.now }
        ensures number { IfSome result (λ at. HasNumber self.now row.now (record { 0 = at })) }
    {
        self.rows.get_index_of(row)
    }

    /// Puts a row at the end that none is like.
    fn push(&mut self, row: TypeRow, measures: TypeMeasures) -> Result<TypeId, AllocError>
        requires absent { list_any (same_row row) self.old ≡ false }
        requires parts { All (HasRow self.old) (parts_of row) }
        requires measured { (names : ItemNames) → measures ≡ measures_of (row_type names (types_in names self.old) row) }
        ensures rows { OnOk result (self.new ≡ self.old ++ row ∷ []) }
        ensures number { IfOk result (λ t. t.0 ≡ length self.old) }
        ensures stays { OnErr result (self.new ≡ self.old) }
    {
        let ty = number(self.rows.len())?;
        self.rows.insert(row, measures)?;
        Ok(ty)
    }

    /// The measures of a tuple of these: a receive's pair adds no level.
    fn tuple_measures(&self, parts: &[TypeId]) -> TypeMeasures
        ensures { (names : ItemNames) → result ≡ of_tuple (map (λ p. measures_of (type_at names self.now p)) parts.now) }
    {
        let all = self.measures_of_all(parts);
        if self.begins_with_token(parts) {
            all
        } else {
            all.raised()
        }
    }

    /// The measures of all these together.
    fn measures_of_all(&self, parts: &[TypeId]) -> TypeMeasures
        ensures { (names : ItemNames) → result ≡ of_parts (map (λ p. measures_of (type_at names self.now p)) parts.now) }
    {
        let mut all = TypeMeasures::of_nothing();
        'parts: for part in parts {
            let own = self.measures(*part);
            all = all.joined(own);
        }
        all
    }

    fn begins_with_token(&self, parts: &[TypeId]) -> bool
        ensures { (names : ItemNames) → result ≡ begins_with_token (map (λ p. measures_of (type_at names self.now p)) parts.now) }
    {
        match at(parts, 0) {
            Some(first) => self.measures(*first).is_token,
            None => false,
        }
    }
}

/// The number of a row at this place.
fn number(place: usize) -> Result<TypeId, AllocError>
    ensures { IfOk result (λ t. t.0 ≡ place) }
{
    match u32::try_from(place) {
        Ok(number) => Ok(TypeId(number)),
        Err(_) => Err(AllocError),
    }
}
