//! The checked text of an accepted text.

ghost use Rattle.std.specs.Prelude.{◌≡◌, ◌<◌, ◌^◌, ℕ, List, Option, Some, length, IfOk, IfErr};
ghost use Rattle.std.specs.Option.{option_copied};
ghost use Rattle.xb_span.specs.declared.read_error.ReadError.TheVariants.{OutOfMemory};
ghost use Rattle.dslx_meaning.specs.Items.{item_named};
ghost use Rattle.dslx_meaning.specs.Network.{as_proc, top_proc};
ghost use Rattle.dslx_elab.specs.Runs.{IsAcceptedText, IsMadeOfChecked};
ghost use Rattle.dslx_total.specs.Nets.Slashes.{EndsHaveNoSlash};
ghost use Rattle.dslx.specs.Texts.{HasCheckedText, RefusesText};
ghost use Rattle.dslx.specs.Trees.{IsFaultless, RefusesTree};

use crate::order::accepted_design;
use crate::tree::{faultless_top, size_within_limits};
use dslx_core::Design;
use dslx_parser::read;
use dslx_tree::{Module, Proc};
use std::alloc::Global;
use xb_span::ReadError;

/// The checked text of a text, or why the text is refused. The top is the proc of this name, the last one by default. Its network, with
/// what each proc does, is given by `dslx_elab::network_there`.
pub fn design_of_text(alloc: Global, text: &str, top: Option<&str>) -> Result<Design, ReadError>
    requires { length text.now < 2 ^ 32 }
    ensures accepted { IfOk result (λ design. HasCheckedText text.now (option_copied top.entry) design) }
    ensures refused { IfErr result (λ error. RefusesText text.now (option_copied top.entry) error) }
{
    dslx_parser::ends::ends_are_words();
    match read(alloc, text) {
        Ok(parsed) => design_of_tree(alloc, &parsed.module, top),
        Err(error) => Err(error),
    }
}

/// The checked text of a tree; no name of an outer channel has a slash.
fn design_of_tree(alloc: Global, tree: &Module, top: Option<&str>) -> Result<Design, ReadError>
    requires { EndsHaveNoSlash tree.now (option_copied top) }
    ensures accepted { IfOk result (λ _. IsAcceptedText tree.now (option_copied top.entry)) }
    ensures made { IfOk result (λ design. IsMadeOfChecked tree.now (option_copied top.entry) design) }
    ensures refused { IfErr result (λ error. RefusesTree tree.now (option_copied top.entry) error) }
{
    match faultless_top(alloc, tree, top) {
        Ok(process) => design_within_limits(alloc, tree, process),
        Err(error) => Err(error),
    }
}

/// The checked text of a faultless tree, or the limit that its network passes.
fn design_within_limits(alloc: Global, tree: &Module, top: &Proc) -> Result<Design, ReadError>
    requires { (name : Option (List ℕ)) × EndsHaveNoSlash tree.now name × IsFaultless tree.now name top.now }
    ensures accepted { (name : Option (List ℕ)) → EndsHaveNoSlash tree.now name → IsFaultless tree.now name top.now → IfOk result (λ _. IsAcceptedText tree.now name) }
    ensures made { (name : Option (List ℕ)) → EndsHaveNoSlash tree.now name → IsFaultless tree.now name top.now → IfOk result (λ design. IsMadeOfChecked tree.now name design) }
    ensures refused { (name : Option (List ℕ)) → IsFaultless tree.now name top.now → IfErr result (λ error. RefusesTree tree.now name error) }
{
    match size_within_limits(alloc, tree, top) {
        Ok(_) => design_of_accepted(alloc, tree, top),
        Err(error) => Err(error),
    }
}

/// The checked text of an accepted tree.
fn design_of_accepted(alloc: Global, tree: &Module, top: &Proc) -> Result<Design, ReadError>
    requires item { as_proc (item_named (top.now.name).name tree.now.items) ≡ Some top.now }
    requires accepted { (name : Option (List ℕ)) × IsAcceptedText tree.now name × (top_proc tree.now name ≡ Some top.now) }
    ensures made { IfOk result (λ design. (name : Option (List ℕ)) → IsAcceptedText tree.now name → top_proc tree.now name ≡ Some top.now → IsMadeOfChecked tree.now name design) }
    ensures refused { IfErr result (λ error. error ≡ OutOfMemory) }
{
    match accepted_design(alloc, tree, top) {
        Ok(design) => Ok(design),
        Err(_) => Err(ReadError::OutOfMemory),
    }
}
