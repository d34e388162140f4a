//! Operations on words.

ghost use Rattle.std.specs.Prelude.{◌≡◌, ℕ, [], IfOk, Some, true};
ghost use Rattle.xb_value.specs.declared.ty.Ty as types;
ghost use Rattle.xb_value.specs.declared.ty.Ty.{Ty};
ghost use Rattle.xb_value.specs.declared.value.Value as values_of;
ghost use Rattle.ir_tree.specs.declared.ir_type.IrType.{Bits};
ghost use Rattle.ir_rebuild.specs.Putting.Given.{IsBuilt, HasType};
ghost use Rattle.dslx_meaning.specs.Operators.{cast_word};
ghost use Rattle.dslx_core.specs.CoreValues.{unary_word, binary_words, is_signed_read, is_width};
ghost use Rattle.dslx_core.specs.Types.Typing.{unary_type, binary_type};
ghost use Rattle.ir_lower_nodes.specs.Words.Given.{LoweredTo, word_read, words_read};
ghost use Rattle.ir_lower_nodes.specs.Words.Signs.{right, less, not_less};

use delay_model::{Binary, Compare, Extend, Reduce, Shift, Unary};
use dslx_core::{CoreBinary, CoreUnary, Sign};
use ir_rebuild::putting::{Nodes, leading_zeros, resize, trailing_zeros};
use ir_tree::Operand;
use std::alloc::AllocError;

/// An operation on a word.
pub fn unary(nodes: &mut Nodes, op: CoreUnary, a: Operand) -> Result<Operand, AllocError>
    ensures { IfOk result (λ o. (w : ℕ) → IsBuilt nodes.old → HasType nodes.old a (Bits w []) →
        LoweredTo nodes.old nodes.new o (unary_type op w) (word_read (λ x. Some (values_of.Bits (unary_word op x))) a)) }
{
    match op {
        CoreUnary::Neg => nodes.unary(Unary::Neg, a),
        CoreUnary::Not => nodes.unary(Unary::Not, a),
        CoreUnary::Clz => leading_zeros(nodes, a),
        CoreUnary::Ctz => trailing_zeros(nodes, a),
        CoreUnary::Rev => nodes.unary(Unary::Reverse, a),
        CoreUnary::AndReduce => nodes.reduce(Reduce::And, a),
        CoreUnary::OrReduce => nodes.reduce(Reduce::Or, a),
        CoreUnary::XorReduce => nodes.reduce(Reduce::Xor, a),
    }
}

/// An operation on two words.
pub fn binary(
    nodes: &mut Nodes,
    op: CoreBinary,
    a: Operand,
    b: Operand,
) -> Result<Operand, AllocError>
    ensures { IfOk result (λ o. (v w : ℕ) (t : Ty) → IsBuilt nodes.old → HasType nodes.old a (Bits v []) → HasType nodes.old b (Bits w []) →
        binary_type op v w ≡ Some t → LoweredTo nodes.old nodes.new o t (words_read (binary_words op) a b)) }
{
    match op {
        CoreBinary::Mul => nodes.binary(Binary::Umul, a, b),
        CoreBinary::Div => nodes.binary(Binary::Udiv, a, b),
        CoreBinary::Rem => nodes.binary(Binary::Umod, a, b),
        CoreBinary::Add => nodes.binary(Binary::Add, a, b),
        CoreBinary::Sub => nodes.binary(Binary::Sub, a, b),
        CoreBinary::Concat => nodes.concat(a, b),
        CoreBinary::Shl => nodes.shift(Shift::Shll, a, b),
        CoreBinary::Shr(sign) => nodes.shift(right(sign), a, b),
        CoreBinary::And => nodes.binary(Binary::And, a, b),
        CoreBinary::Xor => nodes.binary(Binary::Xor, a, b),
        CoreBinary::Or => nodes.binary(Binary::Or, a, b),
        CoreBinary::Eq => nodes.compare(Compare::Eq, a, b),
        CoreBinary::Ne => nodes.compare(Compare::Ne, a, b),
        CoreBinary::Lt(sign) => nodes.compare(less(sign), a, b),
        CoreBinary::Le(sign) => nodes.compare(not_less(sign), b, a),
        CoreBinary::Gt(sign) => nodes.compare(less(sign), b, a),
        CoreBinary::Ge(sign) => nodes.compare(not_less(sign), a, b),
    }
}

/// The shift to the right of a word that is read so.
fn right(sign: Sign) -> Shift
    ensures { result ≡ right sign }
{
    match sign {
        Sign::Unsigned => Shift::Shrl,
        Sign::Signed => Shift::Shra,
    }
}

/// Whether the first is less, where words are read so.
fn less(sign: Sign) -> Compare
    ensures { result ≡ less sign }
{
    match sign {
        Sign::Unsigned => Compare::Ult,
        Sign::Signed => Compare::Slt,
    }
}

/// Whether the first isn't less.
fn not_less(sign: Sign) -> Compare
    ensures { result ≡ not_less sign }
{
    match sign {
        Sign::Unsigned => Compare::Uge,
        Sign::Signed => Compare::Sge,
    }
}

/// To so many bits. New bits are copies of the sign where the source is read as a signed number.
pub fn cast(nodes: &mut Nodes, sign: Sign, width: u8, a: Operand) -> Result<Operand, AllocError>
    ensures { IfOk result (λ o. (v : ℕ) → IsBuilt nodes.old → HasType nodes.old a (Bits v []) → is_width width ≡ true →
        LoweredTo nodes.old nodes.new o (types.Bits width) (word_read (λ x. Some (values_of.Bits (cast_word (is_signed_read sign) width x))) a)) }
{
    let width = u128::from(width);
    match sign {
        Sign::Unsigned => resize(nodes, Extend::Zero, a, width),
        Sign::Signed => resize(nodes, Extend::Sign, a, width),
    }
}
