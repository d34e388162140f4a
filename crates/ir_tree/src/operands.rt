use crate::node::Operand;
use smallvec::SmallVec;
use std::alloc::{AllocError, Global};
use std::marker::Model;

/// A list of operands. Short ones take no memory of their own.
#[derive(Drop)]
pub struct Operands {
    items: SmallVec<Operand, 4>,
}

impl Model for Operands {
    ghost use Rattle.std.specs.Prelude.{List};
    ghost use Rattle.ir_tree.specs.declared.node.Operand.{Operand};

    ghost Value = { List Operand };

    ghost view = { λ o. o.items.items };
}

impl Operands {
    ghost use Rattle.std.specs.Prelude.{◌≡◌, [], ◌∷◌, ◌++◌, OnOk, IfOk};

    pub fn new(alloc: Global) -> Operands
        ensures { result ≡ [] }
    {
        Operands {
            items: SmallVec::new(alloc),
        }
    }

    pub fn from_slice(alloc: Global, operands: &[Operand]) -> Result<Operands, AllocError>
        ensures { IfOk result (λ list. list ≡ operands.now) }
    {
        let items = SmallVec::from_slice(alloc, operands)?;
        Ok(Operands { items })
    }

    pub fn push(&mut self, operand: Operand) -> Result<(), AllocError>
        ensures { OnOk result (self.new ≡ self.old ++ operand ∷ []) }
    {
        self.items.push(operand)?;
        Ok(())
    }

    pub fn as_slice(&self) -> &[Operand]
        ensures { result.now ≡ self.now }
    {
        self.items.as_slice()
    }
}
