//! The checked text of an accepted text.

ghost use Rattle.std.specs.Prelude.{◌≡◌, ℕ, List, Option, Some, IfOk};
ghost use Rattle.dslx_meaning.specs.Items.{item_named};
ghost use Rattle.dslx_meaning.specs.Network.{as_proc, top_proc};
ghost use Rattle.dslx_elab.specs.Runs.{IsAcceptedText, IsMadeOfChecked};

use crate::order::order::spawn_order;
use dslx_core::Design;
use dslx_elab::design_of;
use dslx_tree::{Module, Proc};
use std::alloc::{AllocError, Global};

/// The most instances that a text has.
const MOST_INSTANCES: usize = 4096;

/// The checked text of an accepted text: it is made of the text's instances, each behind those that it calls or spawns, those of functions
/// all checked (`IsMadeOfChecked`), as `dslx_elab::network_there` takes it.
pub fn accepted_design(alloc: Global, text: &Module, top: &Proc) -> Result<Design, AllocError>
    requires item { as_proc (item_named (top.now.name).name text.now.items) ≡ Some top.now }
    requires accepted { (name : Option (List ℕ)) × IsAcceptedText text.now name × (top_proc text.now name ≡ Some top.now) }
    ensures { IfOk result (λ design. (name : Option (List ℕ)) → IsAcceptedText text.now name → top_proc text.now name ≡ Some top.now → IsMadeOfChecked text.now name design) }
{
    dslx_total::counts::networks_keep_the_limits();
    dslx_total::instances::accepted_instances_are_in_a_table();
    dslx_elab::orders::ordered_instances_are_of_accepted();
    dslx_elab::orders::ordered_instances_are_assembled();
    let Some(order) = spawn_order(alloc, text, top)? else {
        unreachable!();
    };
    match design_of(alloc, text, top, MOST_INSTANCES, order.as_slice())? {
        Some(design) => Ok(design),
        None => unreachable!(),
    }
}
