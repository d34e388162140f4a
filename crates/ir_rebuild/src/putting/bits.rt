//! Operations on numbers that take several nodes.

ghost use Rattle.std.specs.Prelude.{◌≤◌, ◌<◌, ◌^◌, ℕ, [], IfOk};
ghost use Rattle.xb_bits.specs.Operations as bits;
ghost use Rattle.ir_tree.specs.declared.ir_type.IrType.{Bits};
ghost use Rattle.ir_rebuild.specs.Putting.Words.{word_by, resized, number_or};
ghost use Rattle.ir_rebuild.specs.Putting.Given.{IsBuilt, HasType, GivesValue};

use crate::putting::nodes::Nodes;
use delay_model::Extend;
use ir_tree::Operand;
use std::alloc::AllocError;

/// A number of so many bits where the bit at a place of another number is 1, else what stands there.
fn number_or(
    nodes: &mut Nodes,
    place: u128,
    width: u128,
    number: u128,
    a: Operand,
    other: Operand,
) -> Result<Operand, AllocError>
    ensures { IfOk result (λ o. (w : ℕ) → IsBuilt nodes.old → HasType nodes.old a (Bits w []) → HasType nodes.old other (Bits width []) → place < w → number < 2 ^ width →
        GivesValue nodes.old nodes.new o (Bits width []) (number_or place width number a other)) }
{
    let bit = nodes.slice(a, place, 1)?;
    let number = nodes.number(width, number)?;
    nodes.choose(bit, number, other)
}

/// How many bits stand above the highest 1: all of them in 0. A select for each bit, from the lowest one on.
pub fn leading_zeros(nodes: &mut Nodes, a: Operand) -> Result<Operand, AllocError>
    ensures { IfOk result (λ o. (w : ℕ) → IsBuilt nodes.old → HasType nodes.old a (Bits w []) →
        GivesValue nodes.old nodes.new o (Bits w []) (word_by bits.clz a)) }
{
    let width = nodes.width(a);
    let mut count = nodes.number(width, width)?;
    'places: for i in 0..width {
        count = number_or(nodes, i, width, width - 1 - i, a, count)?;
    }
    Ok(count)
}

/// How many bits stand below the lowest 1: all of them in 0. A select for each bit, from the highest one on.
pub fn trailing_zeros(nodes: &mut Nodes, a: Operand) -> Result<Operand, AllocError>
    ensures { IfOk result (λ o. (w : ℕ) → IsBuilt nodes.old → HasType nodes.old a (Bits w []) →
        GivesValue nodes.old nodes.new o (Bits w []) (word_by bits.ctz a)) }
{
    let width = nodes.width(a);
    let mut count = nodes.number(width, width)?;
    'places: for i in 0..width {
        let below = width - 1 - i;
        count = number_or(nodes, below, width, below, a, count)?;
    }
    Ok(count)
}

/// To so many bits: the low ones, or more of them.
pub fn resize(nodes: &mut Nodes, op: Extend, a: Operand, width: u128) -> Result<Operand, AllocError>
    ensures { IfOk result (λ o. (w : ℕ) → IsBuilt nodes.old → HasType nodes.old a (Bits w []) → 1 ≤ width → width ≤ 128 →
        GivesValue nodes.old nodes.new o (Bits width []) (word_by (resized op width) a)) }
{
    let own = nodes.width(a);
    if width == own {
        Ok(a)
    } else if width < own {
        nodes.slice(a, 0, width)
    } else {
        nodes.extend(op, a, width)
    }
}
