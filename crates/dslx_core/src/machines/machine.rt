//! A machine that lowers instances of functions, and that what it makes is what they are lowered to.
//!
//! There is no code here: `specs/` has what each step does, and code that takes these steps gives the instances by the
//! definition.
ghost use Rattle.std.specs.Prelude.{◌≡◌, ℕ, Option, Some};
ghost use Rattle.dslx_tree.specs.declared.expr.Expr.{Expr};
ghost use Rattle.dslx_tree.specs.declared.pattern.Pattern.{Pattern};
ghost use Rattle.dslx_tree.specs.declared.type_expr.TypeExpr.{TypeExpr};
ghost use Rattle.dslx_meaning.specs.declared.ty.DslxType.{DslxType};
ghost use Rattle.dslx_core.specs.Lowering.CoreScopes.{CoreScope};
ghost use Rattle.dslx_core.specs.Lowering.Trees.{lower_type_of_text};
ghost use Rattle.dslx_core.specs.Lowering.Functions.{CoreInstance, Instantiated};
ghost use Rattle.dslx_core.specs.Machines.Machine.Arms.{shaped_at};
ghost use Rattle.dslx_core.specs.Machines.Machine.Callees.{CalleesByName, moved, with_callee};
ghost use Rattle.dslx_core.specs.Machines.Machine.Machines.{after_steps, machine_at, needing};
ghost use Rattle.dslx_core.specs.Machines.Machine.Reached.{ExtendsTable, HasEnded, IsTable, MakesExpression, lowering_alone};
ghost use Rattle.dslx_core.specs.Machines.Machine.Steps.{instance_of};
ghost use Rattle.dslx_core.specs.Machines.Machine.Tasks.{InstanceMachine, InstanceEnv, OpenBody};

/// The table that the machine has after however many steps extends the one that it started with, and if that one is of
/// instances each of which calls those before it, it is, too.
pub fn tables_are_of_instances()
    ensures { (context : InstanceEnv) → IsTable context.text context.items context.table → (limit n : ℕ) (root : OpenBody) (m : InstanceMachine)
        → after_steps n (machine_at context limit root) ≡ Some m → IsTable context.text context.items m.context.table × ExtendsTable m.context.table context.table }
{}

/// An instance that is needed is in the table when nothing is left to do.
pub fn needed_instances_are_done()
    ensures { (context : InstanceEnv) → IsTable context.text context.items context.table → (limit n : ℕ) (i : Instantiated) (m : InstanceMachine)
        → after_steps n (machine_at context limit (needing i)) ≡ Some m → HasEnded m → (p : ℕ × CoreInstance) × (instance_of m.context i ≡ Some p) }
{}

/// What the machine has made of an expression when nothing is left to do is what it is lowered to where calls are looked up in the
/// machine's table, or in a longer one.
pub fn machine_lowers()
    ensures { (context : InstanceEnv) → IsTable context.text context.items context.table → (limit n : ℕ) (e : Expr) (body : OpenBody) (m : InstanceMachine)
        → after_steps n (machine_at context limit (lowering_alone e body)) ≡ Some m → HasEnded m → MakesExpression context e body m }
{}

/// Written types and patterns are lowered to the same whatever calls resolve to in their scope.
pub fn types_and_patterns_know_no_calls()
    ensures ty { (t : TypeExpr) (scope : CoreScope) (c : CalleesByName) → lower_type_of_text t (with_callee c scope) ≡ lower_type_of_text t scope }
    ensures pattern { (p : Pattern) (scope : CoreScope) (t : DslxType) (c : CalleesByName) → shaped_at p (with_callee c scope) t ≡ moved c (shaped_at p scope t) }
{}
