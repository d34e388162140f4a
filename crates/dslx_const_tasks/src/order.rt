ghost use Rattle.std.specs.Prelude.{◌≡◌, IfOk};

use base::stacks::Stack;
use dslx_meaning::DslxValue;
use std::alloc::{AllocError, Global};
use xb_value::Seq;

/// The values as a stack, the first on the top.
pub fn in_order(alloc: Global, mut values: Seq<DslxValue>) -> Result<Stack<DslxValue>, AllocError>
    ensures { IfOk result (λ stack. stack ≡ values) }
{
    let mut stack = Stack::new(alloc);
    'values: while let Some(value) = values.pop() {
        stack.push(value)?;
    }
    Ok(stack)
}
