//! What rules of several sorts do.

ghost use Rattle.std.specs.Prelude.{◌≡◌, suc, drop, IfOk, OnOk};
ghost use Rattle.dslx_actions.specs.Common.{across, annotation, given, last_mark, left_out, more, no_annotation, nothing_more, skip, start};

use crate::absent::{NOWHERE, join, no_expr, no_type};
use crate::parts::SemanticStacks;
use std::alloc::AllocError;
use xb_span::Span;

impl SemanticStacks {
    /// Takes so many token spans, and gives the span of all of them.
    pub fn take_token_spans(&mut self, count: usize) -> Span
        ensures span { result ≡ across count self.old.token_spans }
        ensures rest { self.new ≡ record self.old { token_spans = drop count self.old.token_spans } }
    {
        let last = self.token_spans.peek_or(0, NOWHERE);
        let first = self.token_spans.peek_or(count.saturating_sub(1), NOWHERE);
        self.token_spans.drop_top(count);
        join(first, last)
    }

    /// So many tokens say nothing.
    pub fn skip(&mut self, count: usize)
        ensures { self.new ≡ skip count self.old }
    {
        self.token_spans.drop_top(count);
    }

    /// Of so many tokens only the span of the last one matters.
    pub fn last_mark(&mut self, count: usize) -> Result<(), AllocError>
        ensures { OnOk result (self.new ≡ last_mark count self.old) }
    {
        let last = self.token_spans.peek_or(0, NOWHERE);
        self.token_spans.drop_top(count);
        self.token_spans.push(last)
    }

    /// A list ends, and so far has no element.
    pub fn start(&mut self) -> Result<(), AllocError>
        ensures { OnOk result (self.new ≡ start self.old) }
    {
        self.counts.push(0)
    }

    /// The list has one element more.
    pub fn more(&mut self) -> Result<(), AllocError>
        ensures { OnOk result (self.new ≡ more self.old) }
    {
        let count = self.counts.pop_or(0);
        self.counts.push(one_more(count)?)
    }

    /// A list ends, and nothing stands behind it.
    pub fn nothing_more(&mut self) -> Result<(), AllocError>
        ensures { OnOk result (self.new ≡ nothing_more self.old) }
    {
        self.values.push(None)?;
        self.counts.push(0)
    }

    /// A token and a type.
    pub fn annotation(&mut self) -> Result<(), AllocError>
        ensures { OnOk result (self.new ≡ annotation self.old) }
    {
        self.skip(1);
        let ty = self.types.pop_or(no_type());
        self.annotations.push(Some(ty))
    }

    /// A type is left out.
    pub fn no_annotation(&mut self) -> Result<(), AllocError>
        ensures { OnOk result (self.new ≡ no_annotation self.old) }
    {
        self.annotations.push(None)
    }

    /// So many tokens and an expression.
    pub fn given(&mut self, count: usize) -> Result<(), AllocError>
        ensures { OnOk result (self.new ≡ given count self.old) }
    {
        self.skip(count);
        let _place = self.expr_spans.pop_or(NOWHERE);
        let value = self.exprs.pop_or(no_expr());
        self.values.push(Some(value))
    }

    /// An expression is left out.
    pub fn left_out(&mut self) -> Result<(), AllocError>
        ensures { OnOk result (self.new ≡ left_out self.old) }
    {
        self.values.push(None)
    }
}

/// One more than that. No memory holds a list of more elements than the largest count.
pub fn one_more(count: usize) -> Result<usize, AllocError>
    ensures { IfOk result (λ more. more ≡ suc count) }
{
    if count < usize::MAX {
        Ok(count + 1)
    } else {
        Err(AllocError)
    }
}
