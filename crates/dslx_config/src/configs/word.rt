//! The types of channels' words.

ghost use Rattle.std.specs.Prelude.{◌≡◌, IfOk};
ghost use Rattle.dslx_core.specs.Lowering.Trees.{lower_type_of_text};
ghost use Rattle.dslx_scope_names.specs.Values.Seen.{scope_seen};

use dslx_meaning::DslxType;
use dslx_scope_names::values::{ScopeEnv, type_there};
use dslx_tree::TypeExpr;
use std::alloc::{AllocError, Global};

/// The type of a channel's words.
pub(crate) fn word_there<'a>(
    alloc: Global,
    context: ScopeEnv<'a>,
    word: &'a TypeExpr,
) -> Result<Option<DslxType>, AllocError>
    ensures { IfOk result (λ t. t ≡ lower_type_of_text word.now (scope_seen context.entry)) }
{
    type_there(alloc, context, word)
}
