//! What each production does with the parts of its symbols.

ghost use Rattle.std.specs.Prelude.{◌≡◌, OnOk, slice_index_or};
ghost use Rattle.vlog_text.specs.Builder.Building.{reduced, rule_of};

use crate::builder::state::State;
use std::alloc::{AllocError, Global};
use vlog_tree::{Binary, Direction, Order, Storage, Unary};

/// What is done where a tree of a production is complete.
#[derive(Clone, Copy, PartialEq, Eq)]
pub enum Rule {
    /// Nothing: the parts stay.
    Keep,
    RangeOf,
    NoRange,
    DirectionOf(Direction),
    PortOf,
    StorageOf(Storage),
    DeclarationOf,
    AssignmentOf,
    SkipIdent,
    ResetsOf,
    ClocksOf,
    SetOf,
    NameAtom,
    LiteralAtom,
    NameExpr,
    LiteralExpr,
    SimpleExpr,
    SignedExpr,
    NameSimple,
    LiteralSimple,
    UnaryOf,
    ConcatOf,
    More,
    Start,
    BinaryTail,
    NoTail,
    ChoiceTail,
    SliceTail,
    OrderTail,
    ShiftTail,
    UnaryIs(Unary),
    BinaryIs(Binary),
    OrderedBinary,
    OrderIs(Order),
}

/// The rule of each production, in the order of docs/verilog.grammar.
const RULES: [Rule; 77] = [
    Rule::Keep,
    Rule::Keep,
    Rule::Keep,
    Rule::Keep,
    Rule::Keep,
    Rule::Keep,
    Rule::Keep,
    Rule::RangeOf,
    Rule::NoRange,
    Rule::PortOf,
    Rule::DirectionOf(Direction::Input),
    Rule::DirectionOf(Direction::Output),
    Rule::Keep,
    Rule::Keep,
    Rule::Keep,
    Rule::Keep,
    Rule::DeclarationOf,
    Rule::StorageOf(Storage::Wire),
    Rule::StorageOf(Storage::Register),
    Rule::Keep,
    Rule::Keep,
    Rule::AssignmentOf,
    Rule::Keep,
    Rule::Keep,
    Rule::SkipIdent,
    Rule::ResetsOf,
    Rule::ClocksOf,
    Rule::Keep,
    Rule::Keep,
    Rule::SetOf,
    Rule::NameAtom,
    Rule::LiteralAtom,
    Rule::NameExpr,
    Rule::LiteralExpr,
    Rule::SimpleExpr,
    Rule::SignedExpr,
    Rule::NameSimple,
    Rule::LiteralSimple,
    Rule::Keep,
    Rule::UnaryOf,
    Rule::ConcatOf,
    Rule::More,
    Rule::Start,
    Rule::Keep,
    Rule::Keep,
    Rule::Keep,
    Rule::Keep,
    Rule::Keep,
    Rule::Keep,
    Rule::BinaryTail,
    Rule::NoTail,
    Rule::ChoiceTail,
    Rule::SliceTail,
    Rule::OrderTail,
    Rule::ShiftTail,
    Rule::UnaryIs(Unary::Negate),
    Rule::UnaryIs(Unary::Complement),
    Rule::UnaryIs(Unary::AllOnes),
    Rule::UnaryIs(Unary::SomeOne),
    Rule::UnaryIs(Unary::Parity),
    Rule::BinaryIs(Binary::Add),
    Rule::BinaryIs(Binary::Subtract),
    Rule::BinaryIs(Binary::Multiply),
    Rule::BinaryIs(Binary::Divide),
    Rule::BinaryIs(Binary::Remainder),
    Rule::BinaryIs(Binary::And),
    Rule::BinaryIs(Binary::Or),
    Rule::BinaryIs(Binary::Xor),
    Rule::BinaryIs(Binary::Equal),
    Rule::BinaryIs(Binary::NotEqual),
    Rule::BinaryIs(Binary::ShiftLeft),
    Rule::BinaryIs(Binary::ShiftRight),
    Rule::OrderedBinary,
    Rule::OrderIs(Order::Less),
    Rule::OrderIs(Order::LessOrEqual),
    Rule::OrderIs(Order::Greater),
    Rule::OrderIs(Order::GreaterOrEqual),
];

/// The rule of a production.
pub fn rule_of(production: u16) -> Rule
    ensures { result ≡ rule_of production }
{
    rule_at(&RULES, usize::from(production))
}

/// The rule at that index; nothing is done where there is none.
fn rule_at(rules: &[Rule], at: usize) -> Rule
    ensures { result ≡ slice_index_or rules.now at Rule.Keep }
{
    match rules.get(at) {
        Some(rule) => *rule,
        None => Rule::Keep,
    }
}

impl<'a> State<'a> {
    /// Does what is done where a tree is complete.
    pub fn reduce(&mut self, alloc: Global, rule: Rule) -> Result<(), AllocError>
        ensures { OnOk result (self.new ≡ reduced rule self.old) }
    {
        match rule {
            Rule::Keep => Ok(()),
            Rule::RangeOf => self.range_of(),
            Rule::NoRange => self.no_range(),
            Rule::DirectionOf(direction) => self.direction_of(direction),
            Rule::PortOf => self.port_of(alloc),
            Rule::StorageOf(storage) => self.storage_of(storage),
            Rule::DeclarationOf => self.declaration_of(alloc),
            Rule::AssignmentOf => self.assignment_of(),
            Rule::SkipIdent => {
                self.skip_ident();
                Ok(())
            }
            Rule::ResetsOf => {
                self.resets_of(alloc);
                Ok(())
            }
            Rule::ClocksOf => {
                self.clocks_of(alloc);
                Ok(())
            }
            Rule::SetOf => self.set_of(),
            Rule::NameAtom => self.name_atom(),
            Rule::LiteralAtom => self.literal_atom(),
            Rule::NameExpr => self.name_expr(),
            Rule::LiteralExpr => self.literal_expr(),
            Rule::SimpleExpr => self.simple_expr(),
            Rule::SignedExpr => self.signed_expr(),
            Rule::NameSimple => self.name_simple(),
            Rule::LiteralSimple => self.literal_simple(),
            Rule::UnaryOf => self.unary_of(),
            Rule::ConcatOf => self.concat_of(),
            Rule::More => self.more(),
            Rule::Start => self.start(),
            Rule::BinaryTail => self.binary_tail(),
            Rule::NoTail => self.no_tail(),
            Rule::ChoiceTail => self.choice_tail(),
            Rule::SliceTail => self.slice_tail(),
            Rule::OrderTail => self.order_tail(),
            Rule::ShiftTail => self.shift_tail(),
            Rule::UnaryIs(operator) => self.unary_is(operator),
            Rule::BinaryIs(operator) => self.binary_is(operator),
            Rule::OrderedBinary => self.ordered_binary(),
            Rule::OrderIs(order) => self.order_is(order),
        }
    }
}
