//! A tree is checked, and the limits on its network are looked at.

ghost use Rattle.std.specs.Prelude.{◌≡◌, ℕ, List, Option, Some, None, IfOk, IfErr};
ghost use Rattle.std.specs.Option.{option_copied};
ghost use Rattle.dslx_tree.specs.declared.item.Module.{Module};
ghost use Rattle.dslx_tree.specs.declared.process.Proc.{Proc};
ghost use Rattle.dslx_meaning.specs.Rules.NetworkLimits.{network_count, refusal_of};
ghost use Rattle.dslx_check.specs.Verdicts.{IsVerdictOn};
ghost use Rattle.dslx.specs.Count.Sizes.{size_of_count};
ghost use Rattle.dslx.specs.Texts.{IsNetworkSize};
ghost use Rattle.dslx.specs.Trees.{IsFaultless, RefusesTree};

use crate::count::{NetworkSize, network_size, over_limit};
use crate::order::spawn_order;
use dslx_check::{Verdict, check};
use dslx_tree::{Module, Proc};
use std::alloc::{AllocError, Global};
use xb_span::ReadError;

/// How many procs and channels the network of a tree has, or why it is refused.
pub(crate) fn size_of_tree(
    alloc: Global,
    tree: &Module,
    top: Option<&str>,
) -> Result<NetworkSize, ReadError>
    ensures none { IfOk result (λ _. refusal_of tree.now (option_copied top.entry) ≡ None) }
    ensures size { IfOk result (λ size. IsNetworkSize tree.now (option_copied top.entry) size) }
    ensures refused { IfErr result (λ error. RefusesTree tree.now (option_copied top.entry) error) }
{
    match faultless_top(alloc, tree, top) {
        Ok(process) => size_within_limits(alloc, tree, process),
        Err(error) => Err(error),
    }
}

/// The top of a tree in which nothing breaks a rule or passes a limit.
pub(crate) fn faultless_top<'a>(
    alloc: Global,
    tree: &'a Module,
    top: Option<&str>,
) -> Result<&'a Proc, ReadError>
    ensures top { IfOk result (λ process. IsFaultless tree.now (option_copied top.entry) process.now) }
    ensures refused { IfErr result (λ error. RefusesTree tree.now (option_copied top.entry) error) }
{
    match check(alloc, tree, top) {
        Ok(verdict) => top_of_verdict(verdict),
        Err(_) => Err(ReadError::OutOfMemory),
    }
}

/// The top of a tree that was accepted, or the refusal that names its fault.
fn top_of_verdict<'a>(verdict: Verdict<'a>) -> Result<&'a Proc, ReadError>
    ensures top { (m : Module) (name : Option (List ℕ)) → IsVerdictOn m name verdict.entry → IfOk result (λ process. IsFaultless m name process.now) }
    ensures refused { (m : Module) (name : Option (List ℕ)) → IsVerdictOn m name verdict.entry → IfErr result (λ error. RefusesTree m name error) }
{
    match verdict {
        Verdict::Accepted(process) => Ok(process),
        Verdict::Refused(fault) => Err(fault.error()),
    }
}

/// How many procs and channels the network of a faultless tree has, or the limit that it passes.
pub(crate) fn size_within_limits(
    alloc: Global,
    tree: &Module,
    top: &Proc,
) -> Result<NetworkSize, ReadError>
    requires { (name : Option (List ℕ)) × IsFaultless tree.now name top.now }
    ensures none { (name : Option (List ℕ)) → IsFaultless tree.now name top.now → IfOk result (λ _. refusal_of tree.now name ≡ None) }
    ensures size { (name : Option (List ℕ)) → IsFaultless tree.now name top.now → IfOk result (λ size. IsNetworkSize tree.now name size) }
    ensures refused { (name : Option (List ℕ)) → IsFaultless tree.now name top.now → IfErr result (λ error. RefusesTree tree.now name error) }
{
    match counted_size(alloc, tree, top) {
        Ok(size) => within_limits(size),
        Err(_) => Err(ReadError::OutOfMemory),
    }
}

/// How many procs and channels are counted in a faultless tree.
fn counted_size(alloc: Global, tree: &Module, top: &Proc) -> Result<NetworkSize, AllocError>
    requires { (name : Option (List ℕ)) × IsFaultless tree.now name top.now }
    ensures { (name : Option (List ℕ)) → IsFaultless tree.now name top.now → IfOk result (λ size. size ≡ size_of_count (network_count tree.now name top.now)) }
{
    let Some(order) = spawn_order(alloc, tree, top)? else {
        unreachable!();
    };
    let size = network_size(alloc, tree, top, order.as_slice())?;
    Ok(size)
}

/// A size that passes no limit, or the limit that is passed.
fn within_limits(size: NetworkSize) -> Result<NetworkSize, ReadError>
    ensures none { (m : Module) (name : Option (List ℕ)) (p : Proc) → IsFaultless m name p → size ≡ size_of_count (network_count m name p) → IfOk result (λ _. refusal_of m name ≡ None) }
    ensures size { (m : Module) (name : Option (List ℕ)) (p : Proc) → IsFaultless m name p → size ≡ size_of_count (network_count m name p) → IfOk result (λ same. IsNetworkSize m name same) }
    ensures refused { (m : Module) (name : Option (List ℕ)) (p : Proc) → IsFaultless m name p → size ≡ size_of_count (network_count m name p) → IfErr result (λ error. RefusesTree m name error) }
{
    dslx_total::counts::networks_have_what_is_counted();
    match over_limit(size) {
        Some(fault) => Err(fault.error()),
        None => Ok(size),
    }
}
