//! That the machine which lowers instances goes on, wherever there are instances for it to make.
//!
//! There is no code here. If the machine that needs an instance lacks a step, no table of at most so many instances as may be open has
//! this instance.
ghost use Rattle.std.specs.Prelude.{◌≡◌, ◌≤◌, ℕ, List, None, Some, length};
ghost use Rattle.dslx_tree.specs.declared.expr.Expr.{Expr};
ghost use Rattle.dslx_core.specs.Lowering.Functions.{CoreInstance, Instantiated, instance_in};
ghost use Rattle.dslx_core.specs.Lowering.Lowering.{LoweredExpr};
ghost use Rattle.dslx_core.specs.Lowering.Trees.{lower_expression};
ghost use Rattle.dslx_core.specs.Machines.Machine.Bodies.{scope_in};
ghost use Rattle.dslx_core.specs.Machines.Machine.Machines.{after_steps, machine_at, machine_stepped, needing};
ghost use Rattle.dslx_core.specs.Machines.Machine.Reached.{IsTable, at_table, lowering_alone};
ghost use Rattle.dslx_core.specs.Machines.Machine.Tasks.{InstanceMachine, InstanceEnv, OpenBody};
ghost use Rattle.dslx_core.specs.Machines.Progress.Missing.{InNoTable, NoTableLowers};

/// The machine that needs an instance which is in some table never lacks a step, if as many instances may be open at once as
/// that table has. Nor does the machine that lowers an expression which is lowered where calls are looked up in that table.
pub fn instances_of_tables_are_made()
    ensures instance { (context : InstanceEnv) → IsTable context.text context.items context.table
        → (table : List CoreInstance) → IsTable context.text context.items table → (limit : ℕ) → length table ≤ limit
        → (i : Instantiated) (p : ℕ × CoreInstance) → instance_in i.name i.parametric_args 0 table ≡ Some p
        → (n : ℕ) → (m : InstanceMachine) × (after_steps n (machine_at context limit (needing i)) ≡ Some m) }
    ensures expression { (context : InstanceEnv) → IsTable context.text context.items context.table
        → (table : List CoreInstance) → IsTable context.text context.items table → (limit : ℕ) → length table ≤ limit
        → (e : Expr) (body : OpenBody) (r : LoweredExpr) → lower_expression e (scope_in (at_table context table) body) ≡ Some r
        → (n : ℕ) → (m : InstanceMachine) × (after_steps n (machine_at context limit (lowering_alone e body)) ≡ Some m) }
{}

/// Where the machine that needs an instance lacks a step, no table of at most so many instances as may be open has this instance.
/// Where the machine that lowers an expression lacks one, the expression isn't lowered by any such table.
pub fn what_isnt_made_is_in_no_table()
    ensures instance { (context : InstanceEnv) → IsTable context.text context.items context.table → (limit n : ℕ) (i : Instantiated) (m : InstanceMachine)
        → after_steps n (machine_at context limit (needing i)) ≡ Some m → machine_stepped m ≡ None → InNoTable context limit i }
    ensures expression { (context : InstanceEnv) → IsTable context.text context.items context.table → (limit n : ℕ) (e : Expr) (body : OpenBody) (m : InstanceMachine)
        → after_steps n (machine_at context limit (lowering_alone e body)) ≡ Some m → machine_stepped m ≡ None → NoTableLowers context limit e body }
{}
