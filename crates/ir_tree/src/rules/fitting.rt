//! Which nodes fit the table of operations.

ghost use Rattle.std.specs.Prelude.{◌≡◌, ◌&&◌, ◌+◌, length, map, nat_eq, nat_le, sum};
ghost use Rattle.std.specs.Option.{option_copied};
ghost use Rattle.std.specs.List.{list_all};
ghost use Rattle.ir_tree.specs.NodeValues.{channel_type};
ghost use Rattle.ir_tree.specs.NodeTypes.Types.{is_token, is_bits, is_bits_of, is_bits_where, is_tuple_where, bits_width, same_type, each_same, is_array_of};
ghost use Rattle.ir_tree.specs.Rules.Inner.Scopes.{types_of};
ghost use Rattle.ir_tree.specs.Rules.Fitting.{type_in, all_bits_of, all_bits, compare_fits, shift_fits, concat_fits, elements_fit, parts_fit, plain_fits, slice_fits, dynamic_fits, extend_fits, cases_count, is_like, sel_fits, part_is, tuple_index_fits, update_fits, index_fits, predicate_fits, is_pair_of, sends_type, first_is_token, rest_of, site_fits, types_fit, node_fits};

use crate::node_types::{
    bits_in, bits_width, is_array_of, is_array_sized, is_bits, is_bits_of, is_token, parts_of,
    same_type,
};
use crate::{Attributes, Channel, IrType, Node, Operand};
use delay_model::Op;

/// What decides the types of operands.
#[derive(Clone, Copy)]
pub struct Scope<'a> {
    /// The type of the state.
    pub state: &'a IrType,
    /// The nodes before.
    pub before: &'a [Node],
    /// What an operand that isn't there is taken for.
    pub missing: &'a IrType,
}

impl<'a> Scope<'a> {
    ghost use Rattle.std.specs.Prelude.{◌≡◌};
    ghost use Rattle.ir_tree.specs.Rules.Inner.Scopes.{types_of};
    ghost use Rattle.ir_tree.specs.Rules.Fitting.{type_in};

    /// The type of an operand.
    pub fn type_of(&self, operand: Operand) -> &'a IrType
        ensures { result.now ≡ type_in (types_of self.now) operand }
    {
        match operand {
            Operand::State => self.state,
            Operand::Node(place) => match self.before.get(place as usize) {
                Some(node) => &node.ty,
                None => self.missing,
            },
        }
    }
}

fn all_bits_of(width: u128, scope: &Scope, operands: &[Operand]) -> bool
    ensures { result ≡ all_bits_of width (types_of scope.now) operands.now }
{
    operands
        .iter()
        .all(|operand| is_bits_of(width, scope.type_of(*operand)))
}

fn all_bits(scope: &Scope, operands: &[Operand]) -> bool
    ensures { result ≡ all_bits (types_of scope.now) operands.now }
{
    operands
        .iter()
        .all(|operand| is_bits(scope.type_of(*operand)))
}

/// The operands have the type of the result, which is bits.
fn binary_fits(scope: &Scope, operands: &[Operand], result_type: &IrType) -> bool
    ensures { result ≡ is_bits_where (λ w. all_bits_of w (types_of scope.now) operands.now) result_type.now }
{
    match bits_in(result_type) {
        Some(width) => all_bits_of(width, scope, operands),
        None => false,
    }
}

fn compare_fits(scope: &Scope, operands: &[Operand]) -> bool
    ensures { result ≡ compare_fits (types_of scope.now) operands.now }
{
    match operands {
        [] => false,
        [first, rest @ ..] => binary_fits(scope, rest, scope.type_of(*first)),
    }
}

fn shift_fits(scope: &Scope, operands: &[Operand], result_type: &IrType) -> bool
    ensures { result ≡ shift_fits (types_of scope.now) operands.now result_type.now }
{
    match operands {
        [] => false,
        [first, rest @ ..] => match bits_in(result_type) {
            Some(width) => is_bits_of(width, scope.type_of(*first)) && all_bits(scope, rest),
            None => false,
        },
    }
}

/// Whether the widths of the operands make this one. Their sum may pass every number.
fn make_width(width: u128, scope: &Scope, operands: &[Operand]) -> bool
    ensures { result ≡ nat_eq (sum (map (λ o. bits_width (type_in (types_of scope.now) o)) operands.now)) width }
{
    let mut left = width;
    'operands: for operand in operands {
        let own = bits_width(scope.type_of(*operand));
        if left < own {
            return false;
        }
        left -= own;
    }
    left == 0
}

fn concat_fits(scope: &Scope, operands: &[Operand], result_type: &IrType) -> bool
    ensures { result ≡ concat_fits (types_of scope.now) operands.now result_type.now }
{
    match bits_in(result_type) {
        Some(width) => all_bits(scope, operands) && make_width(width, scope, operands),
        None => false,
    }
}

fn elements_fit(scope: &Scope, operands: &[Operand], result_type: &IrType) -> bool
    ensures { result ≡ elements_fit (types_of scope.now) operands.now result_type.now }
{
    is_array_sized(operands.len() as u128, result_type)
        && are_elements(scope, operands, result_type)
}

/// The type is an array of that of each operand.
fn are_elements(scope: &Scope, operands: &[Operand], array: &IrType) -> bool
    ensures { result ≡ list_all (λ o. is_array_of array.now (type_in (types_of scope.now) o)) operands.now }
{
    operands
        .iter()
        .all(|operand| is_array_of(array, scope.type_of(*operand)))
}

/// Each operand has the type.
fn all_same(scope: &Scope, operands: &[Operand], ty: &IrType) -> bool
    ensures { result ≡ list_all (λ o. same_type ty.now (type_in (types_of scope.now) o)) operands.now }
{
    operands
        .iter()
        .all(|operand| same_type(ty, scope.type_of(*operand)))
}

/// Each operand has these bits.
fn all_end_within(start: u128, width: u128, scope: &Scope, operands: &[Operand]) -> bool
    ensures { result ≡ list_all (λ o. is_bits_where (nat_le (start + width)) (type_in (types_of scope.now) o)) operands.now }
{
    operands.iter().all(|operand| ends_within(start, width, scope.type_of(*operand)))
}

/// Each operand is no more bits than these.
fn all_within(width: u128, scope: &Scope, operands: &[Operand]) -> bool
    ensures { result ≡ list_all (λ o. is_bits_where (λ v. nat_le v width) (type_in (types_of scope.now) o)) operands.now }
{
    operands
        .iter()
        .all(|operand| is_within(width, scope.type_of(*operand)))
}

/// Each operand can choose among so many cases.
fn are_selectors(
    count: usize,
    default: Option<Operand>,
    scope: &Scope,
    operands: &[Operand],
) -> bool
    ensures { result ≡ list_all (λ o. is_bits_where (cases_count count default) (type_in (types_of scope.now) o)) operands.now }
{
    operands.iter().all(|operand| is_selector(count, default, scope.type_of(*operand)))
}

/// The parts of a tuple have the types of the operands.
fn parts_match(scope: &Scope, operands: &[Operand], parts: &[IrType]) -> bool
    ensures { result ≡ each_same (map same_type parts.now) (map (type_in (types_of scope.now)) operands.now) }
{
    if parts.len() != operands.len() {
        return false;
    }
    'parts: for i in 0..parts.len() {
        if !same_type(&parts[i], scope.type_of(operands[i])) {
            return false;
        }
    }
    true
}

fn parts_fit(scope: &Scope, operands: &[Operand], result_type: &IrType) -> bool
    ensures { result ≡ parts_fit (types_of scope.now) operands.now result_type.now }
{
    match parts_of(result_type) {
        Some(parts) => parts_match(scope, operands, parts),
        None => false,
    }
}

/// Operations without attributes.
fn plain_fits(op: Op, scope: &Scope, operands: &[Operand], result_type: &IrType) -> bool
    ensures { result ≡ plain_fits op (types_of scope.now) operands.now result_type.now }
{
    match op {
        Op::Binary(_) => binary_fits(scope, operands, result_type),
        Op::Unary(_) => binary_fits(scope, operands, result_type),
        Op::Compare(_) => compare_fits(scope, operands) && is_bits_of(1, result_type),
        Op::Shift(_) => shift_fits(scope, operands, result_type),
        Op::Reduce(_) => all_bits(scope, operands) && is_bits_of(1, result_type),
        Op::Concat => concat_fits(scope, operands, result_type),
        Op::Tuple => parts_fit(scope, operands, result_type),
        Op::Array => elements_fit(scope, operands, result_type),
        Op::AfterAll => is_token(result_type),
        _ => false,
    }
}

fn slice_fits(
    start: u128,
    width: u128,
    scope: &Scope,
    operands: &[Operand],
    result_type: &IrType,
) -> bool
    ensures { result ≡ slice_fits start width (types_of scope.now) operands.now result_type.now }
{
    is_bits_of(width, result_type) && all_end_within(start, width, scope, operands)
}

/// Whether the type is bits, and so many from a start on are among them.
fn ends_within(start: u128, width: u128, ty: &IrType) -> bool
    ensures { result ≡ is_bits_where (nat_le (start + width)) ty.now }
{
    match bits_in(ty) {
        Some(own) => start <= own && width <= own - start,
        None => false,
    }
}

fn dynamic_fits(width: u128, scope: &Scope, operands: &[Operand], result_type: &IrType) -> bool
    ensures { result ≡ dynamic_fits width (types_of scope.now) operands.now result_type.now }
{
    is_bits_of(width, result_type) && all_bits(scope, operands)
}

fn extend_fits(width: u128, scope: &Scope, operands: &[Operand], result_type: &IrType) -> bool
    ensures { result ≡ extend_fits width (types_of scope.now) operands.now result_type.now }
{
    is_bits_of(width, result_type) && all_within(width, scope, operands)
}

/// Whether the type is bits, and no more than these.
fn is_within(width: u128, ty: &IrType) -> bool
    ensures { result ≡ is_bits_where (λ v. nat_le v width) ty.now }
{
    match bits_in(ty) {
        Some(own) => own <= width,
        None => false,
    }
}

/// One case or more, and no more than the selector has numbers; a default exactly where they are fewer.
fn cases_count(count: usize, default: Option<Operand>, width: u128) -> bool
    ensures { result ≡ cases_count count default width }
{
    if count == 0 {
        return false;
    }
    if 64 <= width {
        return default.is_some();
    }
    let numbers = 1u128 << width;
    let count = count as u128;
    count <= numbers && default.is_some() == (count < numbers)
}

/// Whether the selector is bits, and the number of cases fits it.
fn is_selector(count: usize, default: Option<Operand>, ty: &IrType) -> bool
    ensures { result ≡ is_bits_where (cases_count count default) ty.now }
{
    match bits_in(ty) {
        Some(width) => cases_count(count, default, width),
        None => false,
    }
}

fn is_like(scope: &Scope, ty: &IrType, operand: Option<Operand>) -> bool
    ensures { result ≡ is_like (types_of scope.now) ty.now operand }
{
    match operand {
        Some(operand) => same_type(ty, scope.type_of(operand)),
        None => true,
    }
}

fn sel_fits(
    cases: &[Operand],
    default: Option<Operand>,
    scope: &Scope,
    operands: &[Operand],
    result_type: &IrType,
) -> bool
    ensures { result ≡ sel_fits cases.now default (types_of scope.now) operands.now result_type.now }
{
    are_selectors(cases.len(), default, scope, operands)
        && (all_same(scope, cases, result_type) && is_like(scope, result_type, default))
}

/// Whether the type is a tuple with this one at an index.
fn has_part(index: u128, part: &IrType, ty: &IrType) -> bool
    ensures { result ≡ is_tuple_where (part_is index part.now) ty.now }
{
    match parts_of(ty) {
        Some(parts) => part_is(index, part, parts),
        None => false,
    }
}

fn part_is(index: u128, part: &IrType, parts: &[IrType]) -> bool
    ensures { result ≡ part_is index part.now parts.now }
{
    if index < parts.len() as u128 {
        same_type(&parts[index as usize], part)
    } else {
        false
    }
}

fn tuple_index_fits(index: u128, scope: &Scope, operands: &[Operand], result_type: &IrType) -> bool
    ensures { result ≡ tuple_index_fits index (types_of scope.now) operands.now result_type.now }
{
    operands.iter().all(|operand| has_part(index, result_type, scope.type_of(*operand)))
}

fn update_fits(scope: &Scope, operands: &[Operand], result_type: &IrType) -> bool
    ensures { result ≡ update_fits (types_of scope.now) operands.now result_type.now }
{
    match operands {
        [] => false,
        [array, elements @ ..] => same_type(result_type, scope.type_of(*array))
            && are_elements(scope, elements, result_type),
    }
}

fn element_fits(scope: &Scope, operands: &[Operand], result_type: &IrType) -> bool
    ensures { result ≡ list_all (λ o. is_array_of (type_in (types_of scope.now) o) result_type.now) operands.now }
{
    operands.iter().all(|operand| is_array_of(scope.type_of(*operand), result_type))
}

fn index_fits(
    op: Op,
    index: Operand,
    scope: &Scope,
    operands: &[Operand],
    result_type: &IrType,
) -> bool
    ensures { result ≡ index_fits op index (types_of scope.now) operands.now result_type.now }
{
    match op {
        Op::ArrayIndex => is_bits(scope.type_of(index))
            && element_fits(scope, operands, result_type),
        Op::ArrayUpdate => is_bits(scope.type_of(index))
            && update_fits(scope, operands, result_type),
        _ => false,
    }
}

fn predicate_fits(scope: &Scope, predicate: Option<Operand>) -> bool
    ensures { result ≡ predicate_fits (types_of scope.now) predicate }
{
    match predicate {
        Some(predicate) => is_bits_of(1, scope.type_of(predicate)),
        None => true,
    }
}

/// Whether the type is a token and a value of the channel's type, where that is known.
fn is_pair_of(word: Option<&IrType>, ty: &IrType) -> bool
    ensures { result ≡ is_pair_of (option_copied word.entry) ty.now }
{
    match word {
        None => true,
        Some(word) => match parts_of(ty) {
            Some([token, value]) => is_token(token) && same_type(word, value),
            _ => false,
        },
    }
}

fn sends_type(
    word: Option<&IrType>,
    scope: &Scope,
    operands: &[Operand],
    result_type: &IrType,
) -> bool
    ensures { result ≡ sends_type (option_copied word.entry) (types_of scope.now) operands.now result_type.now }
{
    match word {
        None => true,
        Some(word) => is_token(result_type) && all_same(scope, operands, word),
    }
}

fn site_fits(
    op: Op,
    word: Option<&IrType>,
    scope: &Scope,
    operands: &[Operand],
    result_type: &IrType,
) -> bool
    ensures { result ≡ (first_is_token (types_of scope.now) operands.now && site_fits op (option_copied word.entry) (types_of scope.now) operands.now result_type.now) }
{
    match operands {
        [] => false,
        [first, rest @ ..] => is_token(scope.type_of(*first))
            && match op {
                Op::Receive => is_pair_of(word, result_type),
                Op::Send => sends_type(word, scope, rest, result_type),
                _ => false,
            },
    }
}

/// The type of a channel, where it is there.
fn channel_type(channels: &[Channel], channel: u32) -> Option<&IrType>
    ensures { option_copied result ≡ channel_type channels.now channel }
{
    match channels.get(channel as usize) {
        Some(channel) => Some(&channel.ty),
        None => None,
    }
}

fn types_fit(channels: &[Channel], scope: &Scope, node: &Node) -> bool
    ensures { result ≡ types_fit channels.now (types_of scope.now) node.now node.now.attributes }
{
    let operands = node.operands.as_slice();
    let ty = &node.ty;
    match &node.attributes {
        Attributes::None => plain_fits(node.op, scope, operands, ty),
        Attributes::StartAndWidth(start, width) => node.op == Op::BitSlice
            && slice_fits(*start, *width, scope, operands, ty),
        Attributes::Width(width) => node.op == Op::DynamicBitSlice
            && dynamic_fits(*width, scope, operands, ty),
        Attributes::NewBitCount(width) => matches!(node.op, Op::Extend(_))
            && extend_fits(*width, scope, operands, ty),
        Attributes::Cases(cases, default) => node.op == Op::Sel
            && sel_fits(cases.as_slice(), *default, scope, operands, ty),
        Attributes::Index(index) => node.op == Op::TupleIndex
            && tuple_index_fits(*index, scope, operands, ty),
        Attributes::Indices(index) => index_fits(node.op, *index, scope, operands, ty),
        Attributes::Value(_) => node.op == Op::Literal,
        Attributes::Channel(predicate, channel) => predicate_fits(scope, *predicate)
            && site_fits(
                node.op,
                channel_type(channels, *channel),
                scope,
                operands,
                ty,
            ),
    }
}

/// Whether the node fits the table of operations.
pub fn node_fits(channels: &[Channel], scope: &Scope, node: &Node) -> bool
    ensures { result ≡ node_fits channels.now (types_of scope.now) node.now }
{
    node.op
        .operand_count()
        .is_met_by(node.operands.as_slice().len())
        && types_fit(channels, scope, node)
}
