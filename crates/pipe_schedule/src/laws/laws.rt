//! The laws, each the contract of a function without a body.

ghost use Rattle.std.specs.Prelude.{◌≡◌, List};
ghost use Rattle.ir_tree.specs.declared.package.Proc.{Proc};
ghost use Rattle.pipe_schedule.specs.declared.schedule.Demands.{Demands};
ghost use Rattle.pipe_schedule.specs.declared.schedule.Schedule.{Schedule};
ghost use Rattle.pipe_schedule.specs.declared.schedule.NoSchedule.{NoSchedule};
ghost use Rattle.pipe_schedule.specs.declared.schedule.NoSchedule.TheVariants.{OutOfMemory};
ghost use Rattle.pipe_schedule.specs.Timed.{TimedProc};
ghost use Rattle.pipe_schedule.specs.declared.package.Infeasible.{Infeasible};
ghost use Rattle.pipe_schedule.specs.Answer.{IsSchedule, IsCause};
ghost use Rattle.pipe_schedule.specs.Packages.{AreSchedules, IsFirstInfeasible};

/// A proc has one schedule at most.
pub fn one_schedule()
    ensures { (p : TimedProc) (demands : Demands) (s t : Schedule) → IsSchedule p demands s → IsSchedule p demands t → s ≡ t }
{}

/// There is one cause at most, want of memory aside.
pub fn one_cause()
    ensures { (p : TimedProc) (demands : Demands) (c d : NoSchedule) → IsCause p demands c → IsCause p demands d → (c ≡ OutOfMemory → ⊥) → (d ≡ OutOfMemory → ⊥) → c ≡ d }
{}

/// Where there is a schedule, there is no cause but want of memory.
pub fn schedule_or_cause()
    ensures { (p : TimedProc) (demands : Demands) (s : Schedule) (c : NoSchedule) → IsSchedule p demands s → IsCause p demands c → c ≡ OutOfMemory }
{}

/// The procs of a package have one list of schedules at most.
pub fn one_list()
    ensures { (procs : List Proc) (demands : Demands) (a b : List Schedule) → AreSchedules procs demands a → AreSchedules procs demands b → a ≡ b }
{}

/// One proc at most is named as the first that has no schedule, and for one cause, want of memory aside.
pub fn one_infeasible()
    ensures { (procs : List Proc) (demands : Demands) (e f : Infeasible) → IsFirstInfeasible procs demands e → IsFirstInfeasible procs demands f → (e.cause ≡ OutOfMemory → ⊥) → (f.cause ≡ OutOfMemory → ⊥) → e ≡ f }
{}

/// Where all procs have schedules, none is named but for want of memory.
pub fn schedules_or_infeasible()
    ensures { (procs : List Proc) (demands : Demands) (schedules : List Schedule) (e : Infeasible) → AreSchedules procs demands schedules → IsFirstInfeasible procs demands e → e.cause ≡ OutOfMemory }
{}
