//! Laws of the table, each the contract of a function without a body.

ghost use Rattle.std.specs.Prelude.{◌≡◌, Some};
ghost use Rattle.delay_model.specs.Names.{name_of, op_named};
ghost use Rattle.delay_model.specs.declared.op.Op.{Op};

/// Each operation is the one of its name.
pub fn named_by_name()
    ensures { (o : Op) → op_named (name_of o) ≡ Some o }
{}
