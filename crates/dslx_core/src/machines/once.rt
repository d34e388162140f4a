//! That the machine which lowers instances makes each of them once.
//!
//! There is no code here. The machine closes an instance where its table has none of the same name and parametric arguments, so each
//! instance of the table is found at its own index.
ghost use Rattle.std.specs.Prelude.{◌≡◌, ℕ, List, [], Some};
ghost use Rattle.dslx_core.specs.Lowering.Functions.{CoreInstance};
ghost use Rattle.dslx_core.specs.Machines.Machine.Machines.{after_steps, machine_at};
ghost use Rattle.dslx_core.specs.Machines.Machine.Tasks.{InstanceMachine, InstanceEnv, OpenBody};
ghost use Rattle.dslx_core.specs.Machines.Once.Once.{OccursOnce};

/// Where each instance of the machine's table stands once, each of the table that it has after however many steps does, whatever
/// it has to do. A table without instances is such.
pub fn each_instance_stands_once()
    ensures machine { (context : InstanceEnv) → OccursOnce context.table → (limit n : ℕ) (root : OpenBody) (m : InstanceMachine)
        → after_steps n (machine_at context limit root) ≡ Some m → OccursOnce m.context.table }
    ensures empty { OccursOnce [] }
{}
