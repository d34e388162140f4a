ghost use Rattle.std.specs.Prelude.{◌≡◌, IfOk, reverse};
ghost use Rattle.dslx_tree.specs.Operators.Levels.{joined, merged, tree_of};

use crate::{Binary, Expr, LEVELS, Node};
use std::alloc::{AllocError, Global};
use xb_span::Span;
use xb_value::Boxed;

/// An operand, with the span of all its tokens: parentheses round it are no part of the expression. It is moved at each level of
/// operators, so it stands in a box.
#[derive(Drop)]
pub struct Operand {
    pub span: Span,
    pub expr: Boxed<Expr>,
}

/// A binary operator and the operand behind it.
#[derive(Drop)]
pub struct Link {
    pub operator: Binary,
    pub operand: Operand,
}

/// The first operand of a chain, and the others with the operators before them, the last one first.
#[derive(Drop)]
struct Chain {
    first: Operand,
    links: Vec<Link>,
}

/// The tree of a chain: of its first operand, and of the others with the operators before them, the last one first.
///
/// The work is linear in the chain for each level of operators, and the recursion as deep as the chain is long, which the
/// limit on nesting bounds.
pub fn tree(alloc: Global, first: Operand, links: Vec<Link>) -> Result<Operand, AllocError>
    ensures { IfOk result (λ operand. operand ≡ tree_of first (reverse links.items)) }
{
    let mut chain = Chain { first, links };
    for level in 0..LEVELS {
        let Chain { first, links } = chain;
        chain = merge(alloc, level, first, links)?;
    }
    Ok(chain.first)
}

/// Makes one operand, from the left, of those between which operators of the level stand.
fn merge(
    alloc: Global,
    level: u8,
    first: Operand,
    mut links: Vec<Link>,
) -> Result<Chain, AllocError>
    ensures { IfOk result (λ chain. let all = merged level first (reverse links.items) in
        (chain.first ≡ all.first) × (reverse chain.links.items ≡ all.links)) }
{
    match links.pop() {
        None => Ok(Chain { first, links }),
        Some(Link { operator, operand }) => {
            if operator.level() == level {
                let first = join(alloc, operator, first, operand)?;
                merge(alloc, level, first, links)
            } else {
                let Chain {
                    first: operand,
                    links: mut others,
                } = merge(alloc, level, operand, links)?;
                others.push(Link { operator, operand })?;
                Ok(Chain {
                    first,
                    links: others,
                })
            }
        }
    }
}

/// What two operands and the operator between them are.
fn join(
    alloc: Global,
    operator: Binary,
    left: Operand,
    right: Operand,
) -> Result<Operand, AllocError>
    ensures { IfOk result (λ operand. operand ≡ joined operator left right) }
{
    let span = Span {
        from: left.span.from,
        to: right.span.to,
    };
    let expr = Expr {
        span,
        node: Node::Binary(operator, left.expr, right.expr),
    };
    Ok(Operand {
        span,
        expr: Boxed::new(alloc, expr)?,
    })
}
