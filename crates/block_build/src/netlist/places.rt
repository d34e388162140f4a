//! Where values stand in each stage.

ghost use Rattle.std.specs.Prelude.{◌≡◌, ◌+◌, ◌*◌, map, length, IfOk};
ghost use Rattle.block_build.specs.Netlist.Leaves.{nets};
ghost use Rattle.block_build.specs.Netlist.Places.{place_at, shown_at};

use crate::netlist::leaves::push_signals;
use ir_tree::Operand;
use std::alloc::{AllocError, Global};
use vlog_tree::Atom;
use xb_value::Seq;

/// Where a value stands: in the stage in which it comes to be on signals of its own, in later stages in copies, a register for
/// each number. A literal is the same in all stages.
#[derive(Drop)]
pub struct Place {
    pub stage: u32,
    pub own: Seq<Atom>,
    pub copies: u32,
    pub constant: bool,
}

/// Where the state and the values of nodes stand.
#[derive(Drop)]
pub struct Places {
    pub state: Place,
    pub nodes: Seq<Place>,
}

impl Place {
    /// Its signals in a stage.
    pub fn at(&self, alloc: Global, stage: u32) -> Result<Seq<Atom>, AllocError>
        ensures { IfOk result (λ atoms. atoms ≡ place_at stage self.now) }
    {
        if stage <= self.stage || self.constant {
            Seq::from_slice(alloc, self.own.as_slice())
        } else {
            self.copy(alloc, stage - self.stage - 1)
        }
    }

    /// Its copies so many stages behind the first one.
    fn copy(&self, alloc: Global, behind: u32) -> Result<Seq<Atom>, AllocError>
        ensures { IfOk result (λ atoms. atoms ≡ nets (self.now.copies + behind * length self.now.own) (length self.now.own)) }
    {
        let count = self.own.len();
        let before = u64::from(behind).saturating_mul(count as u64);
        let first = u64::from(self.copies).saturating_add(before);
        if 0xffff_ffff <= first {
            return Err(AllocError);
        }
        let mut atoms = Vec::new(alloc);
        push_signals(first as u32, count, &mut atoms)?;
        Ok(Seq::from_vec(atoms))
    }
}

impl Places {
    /// The signals of an operand in a stage.
    pub fn operand(
        &self,
        alloc: Global,
        stage: u32,
        operand: Operand,
    ) -> Result<Seq<Atom>, AllocError>
        ensures { IfOk result (λ atoms. atoms ≡ shown_at self.now stage operand) }
    {
        match operand {
            Operand::State => self.state.at(alloc, stage),
            Operand::Node(node) => match self.nodes.get(node as usize) {
                Some(place) => place.at(alloc, stage),
                None => Ok(Seq::new(alloc)),
            },
        }
    }

    /// Those of several operands.
    pub fn operands(
        &self,
        alloc: Global,
        stage: u32,
        operands: &[Operand],
    ) -> Result<Vec<Seq<Atom>>, AllocError>
        ensures { IfOk result (λ shown. shown.items ≡ map (shown_at self.now stage) operands.now) }
    {
        let mut shown = Vec::new(alloc);
        'operands: for operand in operands {
            shown.push(self.operand(alloc, stage, *operand)?)?;
        }
        Ok(shown)
    }
}
