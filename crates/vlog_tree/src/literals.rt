ghost use Rattle.std.specs.Prelude.{◌≡◌, ◌++◌, OnOk, flat_map};
ghost use Rattle.vlog_tree.specs.Forms.{atom_literals, simple_literals, literals};

use crate::expression::{Atom, Expr, Simple};
use sqlite_items::Items;
use std::alloc::AllocError;

impl Expr {
    /// Puts the widths of its literals behind those that are there, in text order.
    pub fn push_literals(&self, found: &mut Items<u64>) -> Result<(), AllocError>
        ensures { OnOk result (found.new ≡ found.old ++ literals self.now) }
    {
        match self {
            Expr::Simple(x) => x.push_literals(found),
            Expr::SignedOrder(_, _, _) => Ok(()),
            Expr::SignedShift(_, amount) => amount.push_literals(found),
            Expr::Choice(condition, then, otherwise) => {
                condition.push_literals(found)?;
                then.push_literals(found)?;
                otherwise.push_literals(found)
            }
        }
    }
}

impl Simple {
    fn push_literals(&self, found: &mut Items<u64>) -> Result<(), AllocError>
        ensures { OnOk result (found.new ≡ found.old ++ simple_literals self.now) }
    {
        match self {
            Simple::Atom(a) => a.push_literals(found),
            Simple::Binary(_, a, b) => {
                a.push_literals(found)?;
                b.push_literals(found)
            }
            Simple::Unary(_, a) => a.push_literals(found),
            Simple::Slice { .. } => Ok(()),
            Simple::Concat(atoms) => push_all(atoms.as_slice(), found),
        }
    }
}

impl Atom {
    /// The same of an atom.
    pub fn push_literals(&self, found: &mut Items<u64>) -> Result<(), AllocError>
        ensures { OnOk result (found.new ≡ found.old ++ atom_literals self.now) }
    {
        if let Atom::Literal(literal) = self {
            found.push(literal.width)?;
        }
        Ok(())
    }
}

/// Puts the widths of the literals among atoms behind those that are there.
fn push_all(atoms: &[Atom], found: &mut Items<u64>) -> Result<(), AllocError>
    ensures { OnOk result (found.new ≡ found.old ++ flat_map atom_literals atoms.now) }
{
    for atom in atoms {
        atom.push_literals(found)?;
    }
    Ok(())
}
