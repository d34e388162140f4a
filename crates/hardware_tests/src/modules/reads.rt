//! The order in which an expression reads.

use sqlite_items::Items;
use std::test::Fail;
use vlog_tree::{Atom, Expr, Signal, Simple, Unary};

#[test]
fn reads_are_found_in_text_order(rt: HostRuntime) -> Result<(), Fail> {
    let alloc = rt.alloc();
    let mut atoms = Items::new(alloc);
    atoms.push(Atom::Signal(Signal(7)))?;
    atoms.push(Atom::Signal(Signal(5)))?;
    let choice = Expr::Choice(
        Atom::Signal(Signal(3)),
        Simple::Unary(Unary::Negate, Atom::Signal(Signal(3))),
        Simple::Concat(atoms),
    );
    let mut found = Items::new(alloc);
    choice.push_reads(&mut found)?;
    assert_eq!(rt; found.as_slice(), [3, 3, 7, 5].as_slice());
    Ok(())
}
