//! What is lowered where calls resolve to different instances, and which instances tables have in common.
//!
//! There is no code here. An expression has one type wherever it is lowered, and it stays lowered where more calls resolve. So an
//! instance has the same types in each table that has it, and two tables may be joined.
ghost use Rattle.std.specs.Prelude.{◌≡◌, ℕ, List, Some};
ghost use Rattle.dslx_tree.specs.declared.block.Block.{Block};
ghost use Rattle.dslx_tree.specs.declared.expr.Expr.{Expr};
ghost use Rattle.dslx_tree.specs.declared.item.Module.{Module};
ghost use Rattle.dslx_meaning.specs.Environment.{Meanings};
ghost use Rattle.dslx_meaning.specs.declared.value.DslxValue.{DslxValue};
ghost use Rattle.dslx_core.specs.Lowering.CoreScopes.{CoreScope};
ghost use Rattle.dslx_core.specs.Lowering.Functions.{CoreInstance, Instantiated, callee_in, instance_in, next_instance};
ghost use Rattle.dslx_core.specs.Lowering.Trees.{lower_block_of_text, lower_expression};
ghost use Rattle.dslx_core.specs.Machines.Machine.Callees.{CalleesByName, with_callee};
ghost use Rattle.dslx_core.specs.Machines.Machine.Reached.{IsTable};
ghost use Rattle.dslx_core.specs.Machines.Alike.Alike.{Agree, KnowsMore, LowerAgree, LowerMono, MakesAlike, MakesMore, OfOneType};
ghost use Rattle.dslx_core.specs.Machines.Alike.Tables.{JoinedTable};

/// What is lowered in a scope is lowered where more calls resolve, and has the same type there.
pub fn lower_mono()
    ensures expression { (e : Expr) (scope : CoreScope) (c d : CalleesByName) → KnowsMore c d → LowerMono (lower_expression e (with_callee c scope)) (lower_expression e (with_callee d scope)) }
    ensures block { (b : Block) (scope : CoreScope) (c d : CalleesByName) → KnowsMore c d → LowerMono (lower_block_of_text b (with_callee c scope)) (lower_block_of_text b (with_callee d scope)) }
    ensures instance { (m : Module) (items : Meanings) (before other : List CoreInstance) → KnowsMore (callee_in m items before) (callee_in m items other)
        → (i : Instantiated) → MakesMore (next_instance m items before i) (next_instance m items other i) }
{}

/// What is lowered in two scopes that differ in what calls resolve to has one type, if the calls that resolve in both
/// have the same types of results.
pub fn lower_types_agree()
    ensures expression { (e : Expr) (scope : CoreScope) (c d : CalleesByName) → Agree c d → LowerAgree (lower_expression e (with_callee c scope)) (lower_expression e (with_callee d scope)) }
    ensures block { (b : Block) (scope : CoreScope) (c d : CalleesByName) → Agree c d → LowerAgree (lower_block_of_text b (with_callee c scope)) (lower_block_of_text b (with_callee d scope)) }
    ensures instance { (m : Module) (items : Meanings) (before other : List CoreInstance) → Agree (callee_in m items before) (callee_in m items other)
        → (i : Instantiated) → MakesAlike (next_instance m items before i) (next_instance m items other i) }
{}

/// An instance that is in two tables has the same types of arguments and of the result in both.
pub fn instances_have_one_type()
    ensures { (m : Module) (items : Meanings) (first second : List CoreInstance) → IsTable m items first → IsTable m items second
        → (name : List ℕ) (parametric_args : List DslxValue) (p q : ℕ × CoreInstance) → instance_in name parametric_args 0 first ≡ Some p → instance_in name parametric_args 0 second ≡ Some q → OfOneType p.1 q.1 }
{}

/// Of two tables there is one that has the first as its prefix and the instances of both, and no others.
pub fn tables_are_joined()
    ensures { (m : Module) (items : Meanings) (first second : List CoreInstance) → IsTable m items first → IsTable m items second → JoinedTable m items first second }
{}
