ghost use Rattle.std.specs.Prelude.{◌≡◌};

use crate::names::ScopeEnv;
use dslx_instance::tasks::OpenBody;
use dslx_tree::Module;

/// What is in scope in a body, whichever instances are done.
pub fn scope_env_in<'b, 'a: 'b>(text: &'b Module, body: &'b OpenBody<'a>) -> ScopeEnv<'b>
    ensures text { result.text.now ≡ text.now }
    ensures parametric_args { result.parametric_args.now ≡ body.now.given.items }
    ensures locals { result.locals.now ≡ body.now.locals }
{
    ScopeEnv {
        text,
        parametric_args: body.given.as_slice(),
        locals: &body.locals,
    }
}
