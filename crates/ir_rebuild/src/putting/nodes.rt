//! The nodes of a proc while they are put, one function for each kind of operation.

ghost use Rattle.std.specs.Prelude.{◌≡◌, ◌≤◌, ◌<◌, ◌+◌, ◌^◌, ℕ, List, [], map, length, slice_get, IfOk, IsTrue};
ghost use Rattle.xb_bits.specs.Word.{word};
ghost use Rattle.xb_bits.specs.Operations as bits;
ghost use Rattle.xb_value.specs.declared.value.Value as value;
ghost use Rattle.ir_tree.specs.declared.ir_type.IrType.{IrType, Bits, Token, Tuple};
ghost use Rattle.ir_tree.specs.Types.{ty_of};
ghost use Rattle.ir_tree.specs.Constants.{constant_value};
ghost use Rattle.ir_tree.specs.NodeValues.{operand_value};
ghost use Rattle.ir_tree.specs.Operations.{binary_word, unary_word, holds, bit, shift_word, reduce_word, extend_word, on_tuple, on_array, on_word, element_at, at_index, updated};
ghost use Rattle.ir_tree.specs.NodeTypes.Types.{bits_width};
ghost use Rattle.ir_tree.specs.Rules.Lines.{is_value_of};
ghost use Rattle.ir_rebuild.specs.Putting.Types.{array_of, part_of};
ghost use Rattle.ir_rebuild.specs.Putting.Words.{word_by, words_by, either_by};
ghost use Rattle.ir_rebuild.specs.Putting.Given.{IsNodeType, IsBuilt, type_at, HasType, OperandsHaveTypes, OperandsHaveType, first_operand, node_with, PutsNode, GivesValue};

use crate::putting::types::{array_type, bits_type, element_type, part_type, unit_type};
use crate::{append, type_copy, type_of};
use delay_model::{Binary, Compare, Extend, Op, Reduce, Shift, Unary};
use ir_tree::node_types::bits_width;
use ir_tree::{Attributes, Constant, IrType, Node, Operand, Operands};
use std::alloc::{AllocError, Global};
use xb_value::Seq;

/// The nodes of a proc so far, and the type of its state.
#[derive(Drop)]
pub struct Nodes {
    alloc: Global,
    state: IrType,
    list: Vec<Node>,
}

impl Nodes {
    /// No node yet.
    pub fn new(alloc: Global, state: IrType) -> Nodes
        ensures state { result.state ≡ state }
        ensures list { result.list.items ≡ [] }
    {
        Nodes {
            alloc,
            state,
            list: Vec::new(alloc),
        }
    }

    /// The type of the state, and the nodes.
    pub fn into_parts(self) -> (IrType, Vec<Node>)
        ensures state { result.0 ≡ self.state }
        ensures list { result.1 ≡ self.list }
    {
        let Nodes {
            alloc: _,
            state,
            list,
        } = self;
        (state, list)
    }

    /// The type of an operand. One that isn't there is taken for what is missing.
    fn type_of<'a>(&'a self, missing: &'a IrType, operand: Operand) -> &'a IrType
        requires { missing.now ≡ Token [] }
        ensures { result.now ≡ type_at self.now operand }
    {
        type_of(&self.state, self.list.as_slice(), missing, operand)
    }

    /// A copy of it.
    fn copy_type(&self, operand: Operand) -> Result<IrType, AllocError>
        ensures { IfOk result (λ t. t ≡ type_at self.now operand) }
    {
        let missing = IrType::Token(Seq::new(self.alloc));
        type_copy(self.alloc, self.type_of(&missing, operand))
    }

    /// How many bits an operand has that is a number.
    pub fn width(&self, operand: Operand) -> u128
        ensures { result ≡ bits_width (type_at self.now operand) }
    {
        let missing = IrType::Token(Seq::new(self.alloc));
        bits_width(self.type_of(&missing, operand))
    }

    /// The type of a part of an operand that is a tuple.
    fn part_type(&self, tuple: Operand, number: u64) -> Result<IrType, AllocError>
        ensures { IfOk result (λ t. t ≡ part_of (type_at self.now tuple) number) }
    {
        let missing = IrType::Token(Seq::new(self.alloc));
        part_type(self.alloc, self.type_of(&missing, tuple), number)
    }

    /// Copies of the types of operands.
    fn copy_types(&self, operands: &[Operand]) -> Result<Vec<IrType>, AllocError>
        ensures { IfOk result (λ ts. ts.items ≡ map (type_at self.now) operands.now) }
    {
        let mut types = Vec::new(self.alloc);
        'operands: for operand in operands {
            types.push(self.copy_type(*operand)?)?;
        }
        Ok(types)
    }

    /// A node at the end, and the operand that names it.
    pub fn put(
        &mut self,
        ty: IrType,
        op: Op,
        operands: &[Operand],
        attributes: Attributes,
    ) -> Result<Operand, AllocError>
        ensures { IfOk result (λ o. PutsNode self.old self.new (node_with ty op operands.now attributes) o) }
    {
        let operands = Operands::from_slice(self.alloc, operands)?;
        append(
            &mut self.list,
            Node {
                id: 0,
                ty,
                op,
                operands,
                attributes,
            },
        )
    }

    /// A value that is written out.
    pub fn literal(&mut self, ty: IrType, constant: Constant) -> Result<Operand, AllocError>
        ensures { IfOk result (λ o. IsBuilt self.old → IsNodeType ty → IsTrue (is_value_of ty constant) →
            GivesValue self.old self.new o ty (λ s values. constant_value (ty_of ty) constant)) }
    {
        self.put(ty, Op::Literal, &[], Attributes::Value(constant))
    }

    /// A number of so many bits.
    pub fn number(&mut self, width: u128, number: u128) -> Result<Operand, AllocError>
        ensures { IfOk result (λ o. IsBuilt self.old → 1 ≤ width → width ≤ 128 → number < 2 ^ width →
            GivesValue self.old self.new o (Bits width []) (λ s values. value.Bits (word width number))) }
    {
        let ty = bits_type(self.alloc, width);
        self.put(
            ty,
            Op::Literal,
            &[],
            Attributes::Value(Constant::Number(number)),
        )
    }

    /// `()`
    pub fn unit(&mut self) -> Result<Operand, AllocError>
        ensures { IfOk result (λ o. IsBuilt self.old → GivesValue self.old self.new o (Tuple [] []) (λ s values. value.Tuple [])) }
    {
        let ty = unit_type(self.alloc);
        self.put(ty, Op::Tuple, &[], Attributes::None)
    }

    /// An operation on two numbers of one width.
    pub fn binary(&mut self, op: Binary, a: Operand, b: Operand) -> Result<Operand, AllocError>
        ensures { IfOk result (λ o. (w : ℕ) → IsBuilt self.old → HasType self.old a (Bits w []) → HasType self.old b (Bits w []) →
            GivesValue self.old self.new o (Bits w []) (words_by (binary_word op) a b)) }
    {
        let ty = self.copy_type(a)?;
        self.put(ty, Op::Binary(op), &[a, b], Attributes::None)
    }

    /// An operation on a number.
    pub fn unary(&mut self, op: Unary, a: Operand) -> Result<Operand, AllocError>
        ensures { IfOk result (λ o. (w : ℕ) → IsBuilt self.old → HasType self.old a (Bits w []) →
            GivesValue self.old self.new o (Bits w []) (word_by (unary_word op) a)) }
    {
        let ty = self.copy_type(a)?;
        self.put(ty, Op::Unary(op), &[a], Attributes::None)
    }

    /// Whether two numbers of one width compare so: a bit.
    pub fn compare(&mut self, op: Compare, a: Operand, b: Operand) -> Result<Operand, AllocError>
        ensures { IfOk result (λ o. (w : ℕ) → IsBuilt self.old → HasType self.old a (Bits w []) → HasType self.old b (Bits w []) →
            GivesValue self.old self.new o (Bits 1 []) (words_by (λ x y. bit (holds op x y)) a b)) }
    {
        let ty = bits_type(self.alloc, 1);
        self.put(ty, Op::Compare(op), &[a, b], Attributes::None)
    }

    /// A number shifted by another one, of any width.
    pub fn shift(&mut self, op: Shift, a: Operand, amount: Operand) -> Result<Operand, AllocError>
        ensures { IfOk result (λ o. (w k : ℕ) → IsBuilt self.old → HasType self.old a (Bits w []) → HasType self.old amount (Bits k []) →
            GivesValue self.old self.new o (Bits w []) (words_by (shift_word op) a amount)) }
    {
        let ty = self.copy_type(a)?;
        self.put(ty, Op::Shift(op), &[a, amount], Attributes::None)
    }

    /// A bit from all those of a number.
    pub fn reduce(&mut self, op: Reduce, a: Operand) -> Result<Operand, AllocError>
        ensures { IfOk result (λ o. (w : ℕ) → IsBuilt self.old → HasType self.old a (Bits w []) →
            GivesValue self.old self.new o (Bits 1 []) (word_by (reduce_word op) a)) }
    {
        let ty = bits_type(self.alloc, 1);
        self.put(ty, Op::Reduce(op), &[a], Attributes::None)
    }

    /// Two numbers side by side, of at most 128 bits together.
    pub fn concat(&mut self, a: Operand, b: Operand) -> Result<Operand, AllocError>
        ensures { IfOk result (λ o. (w v : ℕ) → IsBuilt self.old → HasType self.old a (Bits w []) → HasType self.old b (Bits v []) → w + v ≤ 128 →
            GivesValue self.old self.new o (Bits (w + v) []) (words_by bits.concat a b)) }
    {
        let width = self.width(a).saturating_add(self.width(b));
        let ty = bits_type(self.alloc, width);
        self.put(ty, Op::Concat, &[a, b], Attributes::None)
    }

    /// So many bits from one on, where the number has them.
    pub fn slice(&mut self, a: Operand, start: u128, width: u128) -> Result<Operand, AllocError>
        ensures { IfOk result (λ o. (w : ℕ) → IsBuilt self.old → HasType self.old a (Bits w []) → 1 ≤ width → start + width ≤ w →
            GivesValue self.old self.new o (Bits width []) (word_by (λ x. bits.slice x start width) a)) }
    {
        let ty = bits_type(self.alloc, width);
        self.put(
            ty,
            Op::BitSlice,
            &[a],
            Attributes::StartAndWidth(start, width),
        )
    }

    /// So many bits from one on that an operand says; those past the end are 0.
    pub fn part(&mut self, a: Operand, start: Operand, width: u128) -> Result<Operand, AllocError>
        ensures { IfOk result (λ o. (w k : ℕ) → IsBuilt self.old → HasType self.old a (Bits w []) → HasType self.old start (Bits k []) → 1 ≤ width → width ≤ 128 →
            GivesValue self.old self.new o (Bits width []) (words_by (λ x y. bits.dyn_slice x y width) a start)) }
    {
        let ty = bits_type(self.alloc, width);
        self.put(
            ty,
            Op::DynamicBitSlice,
            &[a, start],
            Attributes::Width(width),
        )
    }

    /// A number of as many bits or more.
    pub fn extend(&mut self, op: Extend, a: Operand, width: u128) -> Result<Operand, AllocError>
        ensures { IfOk result (λ o. (w : ℕ) → IsBuilt self.old → HasType self.old a (Bits w []) → w ≤ width → width ≤ 128 →
            GivesValue self.old self.new o (Bits width []) (word_by (λ x. extend_word op x width) a)) }
    {
        let ty = bits_type(self.alloc, width);
        self.put(ty, Op::Extend(op), &[a], Attributes::NewBitCount(width))
    }

    /// A tuple of these, if it is within the limits.
    pub fn tuple(&mut self, operands: &[Operand]) -> Result<Operand, AllocError>
        ensures { IfOk result (λ o. (ts : List IrType) → IsBuilt self.old → OperandsHaveTypes self.old operands.now ts → IsNodeType (Tuple ts []) →
            GivesValue self.old self.new o (Tuple ts []) (λ s values. value.Tuple (map (operand_value s values) operands.now))) }
    {
        let types = self.copy_types(operands)?;
        let ty = IrType::Tuple(Seq::from_vec(types), Seq::new(self.alloc));
        self.put(ty, Op::Tuple, operands, Attributes::None)
    }

    /// An array of one element or more, if it is within the limits.
    pub fn array(&mut self, operands: &[Operand]) -> Result<Operand, AllocError>
        ensures { IfOk result (λ o. (t : IrType) → IsBuilt self.old → 1 ≤ length operands.now → OperandsHaveType self.old operands.now t →
            IsNodeType (array_of (length operands.now) t) →
            GivesValue self.old self.new o (array_of (length operands.now) t) (λ s values. value.Array (map (operand_value s values) operands.now))) }
    {
        let element = self.copy_type(first_of(operands))?;
        let ty = array_type(self.alloc, element, operands.len() as u128)?;
        self.put(ty, Op::Array, operands, Attributes::None)
    }

    /// The part of a tuple of this number.
    pub fn element(&mut self, a: Operand, number: u64) -> Result<Operand, AllocError>
        ensures { IfOk result (λ o. (ts : List IrType) (t : IrType) → IsBuilt self.old → HasType self.old a (Tuple ts []) → slice_get ts number ≡ Some t →
            GivesValue self.old self.new o t (λ s values. on_tuple (element_at number) (operand_value s values a))) }
    {
        let ty = self.part_type(a, number)?;
        self.put(
            ty,
            Op::TupleIndex,
            &[a],
            Attributes::Index(u128::from(number)),
        )
    }

    /// The element of an array at an index; past the end it is the last one.
    pub fn index(&mut self, a: Operand, index: Operand) -> Result<Operand, AllocError>
        ensures { IfOk result (λ o. (n k : ℕ) (t : IrType) → IsBuilt self.old → HasType self.old a (array_of n t) → HasType self.old index (Bits k []) →
            GivesValue self.old self.new o t (λ s values. on_array (λ vs. on_word (at_index vs) (operand_value s values index)) (operand_value s values a))) }
    {
        let array = self.copy_type(a)?;
        let ty = element_type(self.alloc, array)?;
        self.put(ty, Op::ArrayIndex, &[a], Attributes::Indices(index))
    }

    /// The array with another element at an index; past the end nothing is changed.
    pub fn update(
        &mut self,
        a: Operand,
        index: Operand,
        element: Operand,
    ) -> Result<Operand, AllocError>
        ensures { IfOk result (λ o. (n k : ℕ) (t : IrType) → IsBuilt self.old → HasType self.old a (array_of n t) → HasType self.old index (Bits k []) → HasType self.old element t →
            GivesValue self.old self.new o (array_of n t) (λ s values. on_array (λ vs. on_word (updated (operand_value s values element) vs) (operand_value s values index)) (operand_value s values a))) }
    {
        let ty = self.copy_type(a)?;
        self.put(
            ty,
            Op::ArrayUpdate,
            &[a, element],
            Attributes::Indices(index),
        )
    }

    /// The first where the bit is 1, else the second.
    pub fn choose(
        &mut self,
        bit: Operand,
        one: Operand,
        zero: Operand,
    ) -> Result<Operand, AllocError>
        ensures { IfOk result (λ o. (t : IrType) → IsBuilt self.old → HasType self.old bit (Bits 1 []) → HasType self.old one t → HasType self.old zero t →
            GivesValue self.old self.new o t (either_by bit one zero)) }
    {
        let ty = self.copy_type(one)?;
        let cases = Operands::from_slice(self.alloc, &[zero, one])?;
        self.put(ty, Op::Sel, &[bit], Attributes::Cases(cases, None))
    }
}

/// The first of them; the state where there is none.
fn first_of(operands: &[Operand]) -> Operand
    ensures { result ≡ first_operand operands.now }
{
    match operands {
        [] => Operand::State,
        [first, ..] => *first,
    }
}
