ghost use Rattle.std.specs.Prelude.{◌≡◌, ℕ, [], ◌∷◌, drop, take, reverse, length, slice_get, IfOk, OnOk, MatchOption};
ghost use Rattle.base.specs.Stacks.Tops.{top_or};

use std::alloc::{AllocError, Global};
use std::marker::Model;

/// A stack. Contracts see the list of its elements, the top first.
#[derive(Drop)]
pub struct Stack<T> {
    items: Vec<T>,
}

impl<T> Model for Stack<T> {
    ghost use Rattle.std.specs.Prelude.{List, reverse};
    ghost use Rattle.std.specs.Coded.{coded_list};

    ghost Value = { List T };

    ghost coded = { coded_list T.code };

    ghost view = { λ s. reverse s.items.items };
}

impl<T> Stack<T> {
    pub fn new(alloc: Global) -> Stack<T>
        ensures { result ≡ [] }
    {
        Stack {
            items: Vec::new(alloc),
        }
    }
}

impl<T> Stack<T> {
    /// How many there are.
    pub fn len(&self) -> usize
        ensures { result ≡ length self.now }
    {
        self.items.len()
    }
}

impl<T: Drop> Stack<T> {
    pub fn push(&mut self, item: T) -> Result<(), AllocError>
        ensures { OnOk result (self.new ≡ item ∷ self.old) }
    {
        self.items.push(item)?;
        Ok(())
    }

    /// The top, if there is one.
    pub fn pop(&mut self) -> Option<T>
        ensures top { result ≡ slice_get self.old 0 }
        ensures rest { self.new ≡ drop 1 self.old }
    {
        self.items.pop()
    }

    /// Takes off the top, if there is one: what was there is that and what is left.
    #[tactic(auto, using(crate::proofs::OnStacks::Tops::popped, crate::proofs::OnStacks::Tops::emptied, crate::proofs::OnStacks::Tops::left_empty))]
    pub fn take_off(&mut self) -> Option<T>
        ensures { MatchOption result ((self.old ≡ []) × (self.new ≡ [])) (λ top. self.old ≡ top ∷ self.new) }
    {
        match self.pop() {
            Some(top) => Some(top),
            None => None,
        }
    }

    /// The top, or the given one where the stack is empty.
    pub fn pop_or(&mut self, other: T) -> T
        ensures top { result ≡ top_or other self.old }
        ensures rest { self.new ≡ drop 1 self.old }
    {
        match self.items.pop() {
            Some(item) => item,
            None => other,
        }
    }

    /// Takes so many off; all where there are fewer.
    pub fn drop_top(&mut self, count: usize)
        ensures { self.new ≡ drop count self.old }
    {
        let left = self.items.len().saturating_sub(count);
        self.items.truncate(left);
    }

    /// So many from the top, the lowest first; all where there are fewer.
    pub fn take_top(&mut self, count: usize) -> Result<Vec<T>, AllocError>
        ensures taken { IfOk result (λ top. top.items ≡ reverse (take count self.old)) }
        ensures rest { OnOk result (self.new ≡ drop count self.old) }
    {
        let at = self.items.len().saturating_sub(count);
        let top = self.items.split_off(at)?;
        Ok(top)
    }

    /// The same, the top first.
    pub fn take_down(&mut self, count: usize) -> Result<Vec<T>, AllocError>
        ensures taken { IfOk result (λ top. top.items ≡ take count self.old) }
        ensures rest { OnOk result (self.new ≡ drop count self.old) }
    {
        let at = self.items.len().saturating_sub(count);
        let mut top = self.items.split_off(at)?;
        top.reverse();
        Ok(top)
    }

    /// So many from the top and the one below them, or the given one where there is none; the lowest first.
    pub fn take_top_and_one(&mut self, count: usize, other: T) -> Result<Vec<T>, AllocError>
        ensures taken { IfOk result (λ top. top.items ≡ top_or other (drop count self.old) ∷ reverse (take count self.old)) }
        ensures rest { OnOk result (self.new ≡ drop 1 (drop count self.old)) }
    {
        let at = self.items.len().saturating_sub(count);
        let mut top = self.items.split_off(at)?;
        let first = self.pop_or(other);
        top.insert(0, first)?;
        Ok(top)
    }

    /// All, the lowest first.
    pub fn into_items(self) -> Vec<T>
        ensures { result.items ≡ reverse self }
    {
        let Stack { items } = self;
        items
    }
}

impl<T: Copy> Stack<T> {
    /// The one that far below the top, or the given one where there is none.
    pub fn peek_or(&self, below: usize, other: T) -> T
        ensures { result ≡ top_or other (drop below self.now) }
    {
        let count = self.items.len();
        if below < count {
            self.items[count - 1 - below]
        } else {
            other
        }
    }
}
