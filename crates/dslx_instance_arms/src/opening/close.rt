//! Instances that are done.

ghost use Rattle.std.specs.Prelude.{◌≡◌, map, Some, IfOk};
ghost use Rattle.dslx_meaning.specs.Lists.{and_then, where_true};
ghost use Rattle.dslx_core.specs.Machines.Machine.Machines.{closes, instance_done, last_made};
ghost use Rattle.dslx_instance.specs.Tasks.Shown.{instance_shown, machine_shown};

use dslx_core::lowering::{CoreInstance, LoweredExpr, LoweredFunction};
use dslx_instance::tasks::{InstanceMachine, OpenInstance};
use std::alloc::AllocError;

/// An instance whose body has nothing left to do goes to the end of the table, unless it is done already; whether it does.
#[tactic(auto, using(crate::proofs::OnOpening::Closing::closes_with, crate::proofs::OnOpening::Closing::closes_without))]
pub fn close_instance<'a>(
    machine: &mut InstanceMachine<'a>,
    last: OpenInstance<'a>,
) -> Result<bool, AllocError>
    ensures { IfOk result (λ is. where_true is (Some (machine_shown machine.new)) ≡ closes (instance_shown last.entry) (map instance_shown machine.old.opened) (machine_shown machine.old)) }
{
    match finished(last) {
        Some(instance) => machine.table.push(instance),
        None => Ok(false),
    }
}

/// What an instance is lowered to, if anything was made of its body.
fn finished(last: OpenInstance) -> Option<CoreInstance>
    ensures { result ≡ and_then (last_made (instance_shown last.entry).body.made) (λ e. Some (instance_done (instance_shown last.entry) e)) }
{
    let OpenInstance {
        instance,
        arguments,
        body,
    } = last;
    let mut made = body.made;
    match made.take_off() {
        Some(LoweredExpr { core, ty }) => Some(CoreInstance {
            name: instance.name,
            parametric_args: instance.parametric_args,
            function: LoweredFunction {
                arguments,
                result: ty,
                body: core.into_inner(),
            },
        }),
        None => None,
    }
}
