//! What the rules of names, numbers, types, constants and operands make.

ghost use Rattle.std.specs.Prelude.{◌≡◌, drop, OnOk, Option};
ghost use Rattle.ir_builder.specs.Named.{numbered};
ghost use Rattle.ir_builder.specs.Rules.{name, number, bits_element, token_element, tuple_element, sized, type_of, number_value, tuple_value, array_value, state_operand, node_operand, some_operand, no_operand};

use crate::state::State;
use crate::token::Token;
use ir_tree::{Constant, IrType, Operand};
use std::alloc::{AllocError, Global};
use xb_value::Seq;

/// An index as a number of 32 bits: 2^32 - 1 where there is none, and for one past that, as no text has.
pub fn numbered(place: Option<usize>) -> u32
    ensures { result ≡ numbered place }
{
    match place {
        Some(place) => place.min(u32::MAX as usize) as u32,
        None => u32::MAX,
    }
}

/// The type of arrays of these sizes of such elements.
fn sized(element: IrType, sizes: Seq<u128>) -> IrType
    ensures { result ≡ sized sizes element }
{
    match element {
        IrType::Bits(width, _) => IrType::Bits(width, sizes),
        IrType::Token(_) => IrType::Token(sizes),
        IrType::Tuple(parts, _) => IrType::Tuple(parts, sizes),
    }
}

impl State<'_> {
    pub fn name(&mut self) -> Result<(), AllocError>
        ensures { OnOk result (self.new ≡ name self.old) }
    {
        let token = self.tokens.pop_or(Token::nothing());
        self.names.push(token)
    }

    pub fn number(&mut self) -> Result<(), AllocError>
        ensures { OnOk result (self.new ≡ number self.old) }
    {
        let token = self.tokens.pop_or(Token::nothing());
        self.numbers.push(token.number())
    }

    /// `bits[N]`
    pub fn bits_element(&mut self, alloc: Global) -> Result<(), AllocError>
        ensures { OnOk result (self.new ≡ bits_element self.old) }
    {
        self.skip(3);
        let width = self.numbers.pop_or(0);
        self.types.push(IrType::Bits(width, Seq::new(alloc)))
    }

    /// `token`
    pub fn token_element(&mut self, alloc: Global) -> Result<(), AllocError>
        ensures { OnOk result (self.new ≡ token_element self.old) }
    {
        self.skip(1);
        self.types.push(IrType::Token(Seq::new(alloc)))
    }

    /// `(TYPE, ..)`
    pub fn tuple_element(&mut self, alloc: Global) -> Result<(), AllocError>
        ensures { OnOk result (self.new ≡ tuple_element self.old) }
    {
        self.skip(2);
        let count = self.counts.pop_or(0);
        let parts = Seq::from_vec(self.types.take_top(count)?);
        self.types.push(IrType::Tuple(parts, Seq::new(alloc)))
    }

    /// An element and the sizes of the arrays around it.
    pub fn type_of(&mut self, alloc: Global) -> Result<(), AllocError>
        ensures { OnOk result (self.new ≡ type_of self.old) }
    {
        let count = self.counts.pop_or(0);
        let sizes = Seq::from_vec(self.numbers.take_down(count)?);
        let element = self.types.pop_or(IrType::Token(Seq::new(alloc)));
        self.types.push(sized(element, sizes))
    }

    /// A number as a value.
    pub fn number_value(&mut self) -> Result<(), AllocError>
        ensures { OnOk result (self.new ≡ number_value self.old) }
    {
        let number = self.numbers.pop_or(0);
        self.constants.push(Constant::Number(number))
    }

    /// `(VALUE, ..)`
    pub fn tuple_value(&mut self) -> Result<(), AllocError>
        ensures { OnOk result (self.new ≡ tuple_value self.old) }
    {
        self.skip(2);
        let count = self.counts.pop_or(0);
        let parts = Seq::from_vec(self.constants.take_top(count)?);
        self.constants.push(Constant::Tuple(parts))
    }

    /// `[VALUE, ..]`
    pub fn array_value(&mut self) -> Result<(), AllocError>
        ensures { OnOk result (self.new ≡ array_value self.old) }
    {
        self.skip(2);
        let count = self.counts.pop_or(0);
        let parts = Seq::from_vec(self.constants.take_top(count)?);
        self.constants.push(Constant::Array(parts))
    }

    /// `st`
    pub fn state_operand(&mut self) -> Result<(), AllocError>
        ensures { OnOk result (self.new ≡ state_operand self.old) }
    {
        self.skip(1);
        self.operands.push(Operand::State)
    }

    /// `OP.ID`
    pub fn node_operand(&mut self) -> Result<(), AllocError>
        ensures { OnOk result (self.new ≡ node_operand self.old) }
    {
        let token = self.tokens.pop_or(Token::nothing());
        let place = numbered(self.node_names.place(token.text()));
        self.operands.push(Operand::Node(place))
    }

    /// `predicate=OPERAND,` or `default=OPERAND,`
    pub fn some_operand(&mut self) -> Result<(), AllocError>
        ensures { OnOk result (self.new ≡ some_operand self.old) }
    {
        self.skip(3);
        let operand = self.operands.pop_or(Operand::State);
        self.options.push(Some(operand))
    }

    /// Neither of these.
    pub fn no_operand(&mut self) -> Result<(), AllocError>
        ensures { OnOk result (self.new ≡ no_operand self.old) }
    {
        self.options.push(None)
    }
}
