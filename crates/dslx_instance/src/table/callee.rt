ghost use Rattle.std.specs.Prelude.{◌≡◌, IfOk};
ghost use Rattle.dslx_meaning.specs.Lists.{and_then};
ghost use Rattle.dslx_core.specs.Lowering.Functions.{callee_of, instance_in};

use crate::table::table::InstanceTable;
use base::texts::Name;
use dslx_core::lowering::CoreCallee;
use dslx_core_exprs::alike::equal_types;
use dslx_meaning::{DslxType, DslxValue};
use dslx_values::copy_type;
use std::alloc::{AllocError, Global};

/// What a call of this name comes to, with these parametric arguments and operands of these types.
#[tactic(auto, using(crate::proofs::OnTable::Callees::callee_is, crate::proofs::OnTable::Callees::no_callee))]
pub fn callee_there(
    alloc: Global,
    table: &InstanceTable,
    name: &Name,
    parametric_args: &[DslxValue],
    types: &[DslxType],
) -> Result<Option<CoreCallee>, AllocError>
    ensures { IfOk result (λ callee. callee ≡ and_then (instance_in name.now parametric_args.now 0 table.now) (callee_of types.now)) }
{
    match table.find(name, parametric_args) {
        Some((number, function)) => if equal_types(function.arguments.as_slice(), types) {
            Ok(Some(CoreCallee {
                number: number as u64,
                result: copy_type(alloc, &function.result)?,
            }))
        } else {
            Ok(None)
        },
        None => Ok(None),
    }
}
