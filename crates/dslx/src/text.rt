//! A text is read and checked.

ghost use Rattle.std.specs.Prelude.{◌<◌, ◌^◌, length, IfOk, IfErr};
ghost use Rattle.std.specs.Option.{option_copied};
ghost use Rattle.dslx.specs.Texts.{HasNetworkSize, RefusesText};

use crate::count::NetworkSize;
use crate::tree::size_of_tree;
use dslx_parser::read;
use std::alloc::Global;
use xb_span::ReadError;

/// How many procs and channels the network of a text has, or why the text is refused. The top is the proc of this name, the last one by
/// default.
///
/// It costs what reading and checking the text cost, and making the order of its procs' instances; no network is laid out.
pub fn check_text(alloc: Global, text: &str, top: Option<&str>) -> Result<NetworkSize, ReadError>
    requires { length text.now < 2 ^ 32 }
    ensures accepted { IfOk result (λ size. HasNetworkSize text.now (option_copied top.entry) size) }
    ensures refused { IfErr result (λ error. RefusesText text.now (option_copied top.entry) error) }
{
    match read(alloc, text) {
        Ok(parsed) => size_of_tree(alloc, &parsed.module, top),
        Err(error) => Err(error),
    }
}
