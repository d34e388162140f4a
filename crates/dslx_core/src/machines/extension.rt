//! What work by the instances of a text results in: a value by each table that extends one, or nothing by any of at most so many.
//!
//! There is no code here. Work that makes instances as it goes sees only its own table. That it gives up has to say more: a text has many
//! tables, which differ in the order of their instances, and an expression has one type by all of them.
ghost use Rattle.std.specs.Prelude.{List};
ghost use Rattle.dslx_tree.specs.declared.expr.Expr.{Expr};
ghost use Rattle.dslx_tree.specs.declared.item.Module.{Module};
ghost use Rattle.dslx_meaning.specs.Items.{meanings_of};
ghost use Rattle.dslx_core.specs.Lowering.CoreScopes.{CoreScope};
ghost use Rattle.dslx_core.specs.Lowering.Functions.{CoreInstance, callee_in};
ghost use Rattle.dslx_core.specs.Lowering.Trees.{lower_expression};
ghost use Rattle.dslx_core.specs.Machines.Machine.Callees.{with_callee};
ghost use Rattle.dslx_core.specs.Machines.Machine.Reached.{IsTable};
ghost use Rattle.dslx_core.specs.Machines.Alike.Alike.{LowerAgree};

/// An expression has one type by all tables of a text's instances.
pub fn expressions_have_one_type()
    ensures { (m : Module) (first second : List CoreInstance) → IsTable m (meanings_of m) first → IsTable m (meanings_of m) second → (e : Expr) (scope : CoreScope)
        → LowerAgree (lower_expression e (with_callee (callee_in m (meanings_of m) first) scope)) (lower_expression e (with_callee (callee_in m (meanings_of m) second) scope)) }
{}
