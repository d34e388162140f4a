ghost use Rattle.std.specs.Prelude.{◌≡◌, ◌++◌, OnOk, flat_map};
ghost use Rattle.vlog_tree.specs.Forms.{atom_reads, simple_reads, reads};

use crate::expression::{Atom, Expr, Simple};
use sqlite_items::Items;
use std::alloc::AllocError;

impl Expr {
    /// Puts the signals that it reads behind those that are there, in text order.
    pub fn push_reads(&self, found: &mut Items<u32>) -> Result<(), AllocError>
        ensures { OnOk result (found.new ≡ found.old ++ reads self.now) }
    {
        match self {
            Expr::Simple(x) => x.push_reads(found),
            Expr::SignedOrder(_, a, b) => {
                found.push(a.0)?;
                found.push(b.0)?;
                Ok(())
            }
            Expr::SignedShift(a, amount) => {
                found.push(a.0)?;
                amount.push_reads(found)
            }
            Expr::Choice(condition, then, otherwise) => {
                condition.push_reads(found)?;
                then.push_reads(found)?;
                otherwise.push_reads(found)
            }
        }
    }
}

impl Simple {
    fn push_reads(&self, found: &mut Items<u32>) -> Result<(), AllocError>
        ensures { OnOk result (found.new ≡ found.old ++ simple_reads self.now) }
    {
        match self {
            Simple::Atom(a) => a.push_reads(found),
            Simple::Binary(_, a, b) => {
                a.push_reads(found)?;
                b.push_reads(found)
            }
            Simple::Unary(_, a) => a.push_reads(found),
            Simple::Slice {
                of,
                high: _,
                low: _,
            } => {
                found.push(of.0)?;
                Ok(())
            }
            Simple::Concat(atoms) => push_all(atoms.as_slice(), found),
        }
    }
}

impl Atom {
    /// The same of an atom.
    pub fn push_reads(&self, found: &mut Items<u32>) -> Result<(), AllocError>
        ensures { OnOk result (found.new ≡ found.old ++ atom_reads self.now) }
    {
        if let Atom::Signal(named) = self {
            found.push(named.0)?;
        }
        Ok(())
    }
}

/// Puts the signals that atoms read behind those that are there.
fn push_all(atoms: &[Atom], found: &mut Items<u32>) -> Result<(), AllocError>
    ensures { OnOk result (found.new ≡ found.old ++ flat_map atom_reads atoms.now) }
{
    for atom in atoms {
        atom.push_reads(found)?;
    }
    Ok(())
}
