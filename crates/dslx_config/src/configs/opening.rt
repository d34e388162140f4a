//! The state in which a proc opens.

ghost use Rattle.std.specs.Prelude.{◌≡◌, IfOk};
ghost use Rattle.dslx_meaning.specs.Activation.{opening_state};
ghost use Rattle.dslx_meaning.specs.Items.{meanings_of};

use dslx_const::block_eval;
use dslx_meaning::DslxValue;
use dslx_scope_names::parametric_args::scope_of;
use dslx_tree::{Module, Proc};
use std::alloc::{AllocError, Global};

/// The value of `init` in an instance of a proc with these parametric arguments; `None` where it has none.
pub fn opening_there<'a>(
    alloc: Global,
    text: &'a Module,
    process: &'a Proc,
    parametric_args: &[DslxValue],
) -> Result<Option<DslxValue>, AllocError>
    ensures { IfOk result (λ v. v ≡ opening_state (meanings_of text.now) process.now parametric_args.now) }
{
    let bound = scope_of(alloc, process.parametrics.as_slice(), parametric_args)?;
    block_eval(alloc, text, bound, &process.init)
}
