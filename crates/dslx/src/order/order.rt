//! The order of all instances.

ghost use Rattle.std.specs.Prelude.{◌≡◌, ℕ, List, [], Option, Some, IfOk, MatchOption};
ghost use Rattle.dslx_meaning.specs.Network.{top_proc};
ghost use Rattle.dslx_meaning.specs.Rules.ModuleRules.{faults_of};
ghost use Rattle.dslx_elab.specs.Orders.{EndsWithTop, IsSpawnOrder};

use crate::order::adding::add_instance;
use dslx_config::configs::top_parametric_args;
use dslx_core::lowering::Instantiated;
use dslx_tree::{Module, Proc};
use dslx_values::copy_name;
use std::alloc::{AllocError, Global};

/// All instances that the top's spawns, and those of what it spawns, come to, each once behind those that it spawns itself, the top's at the end.
/// Of a text without faults they are there.
///
/// Each config is looked at once for each of its instances, and for each spawn all instances that are there.
pub fn spawn_order(
    alloc: Global,
    text: &Module,
    top: &Proc,
) -> Result<Option<Vec<Instantiated>>, AllocError>
    ensures { IfOk result (λ o. (name : Option (List ℕ)) → faults_of text.now name ≡ [] → top_proc text.now name ≡ Some top.now
        → MatchOption o ⊥ (λ order. IsSpawnOrder text.now name [] order.items × EndsWithTop text.now top.now order.items)) }
{
    dslx_total::checked::checked_items_mention_such();
    dslx_total::checked::what_is_checked_is_known();
    dslx_total::configs::lower_total_configs();
    let first = Instantiated {
        name: copy_name(alloc, &top.name.name)?,
        parametric_args: top_parametric_args(alloc, text, top)?,
    };
    let mut order = Vec::new(alloc);
    if add_instance(alloc, text, text.items.len(), &first, &mut order)? {
        Ok(Some(order))
    } else {
        Ok(None)
    }
}
