//! What the rules of arguments between `<` and `>` make.

ghost use Rattle.std.specs.Prelude.{◌≡◌, OnOk};
ghost use Rattle.dslx_node_actions.specs.Exprs.Atoms.Calls.{bare_arg, braced_arg};

use crate::exprs::atoms::exprs::pop_expr;
use dslx_actions::SemanticStacks;
use dslx_tree::Arg;
use std::alloc::AllocError;

/// What stands between `<` and `>`.
pub fn bare_arg(parts: &mut SemanticStacks) -> Result<(), AllocError>
    ensures { OnOk result (parts.new ≡ bare_arg parts.old) }
{
    let (span, value) = pop_expr(parts);
    parts.args.push(Arg { span, value })
}

/// `{ expr }` between `<` and `>`
pub fn braced_arg(parts: &mut SemanticStacks) -> Result<(), AllocError>
    ensures { OnOk result (parts.new ≡ braced_arg parts.old) }
{
    let span = parts.take_token_spans(2);
    let (_, value) = pop_expr(parts);
    parts.args.push(Arg { span, value })
}
