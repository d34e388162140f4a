//! A text is accepted or refused.

ghost use Rattle.std.specs.Prelude.{◌≡◌, IfOk, IfSome, OnOk, Option, Some};
ghost use Rattle.std.specs.Option.{option_copied};
ghost use Rattle.dslx_tree.specs.declared.process.Proc.{Proc as ProcTree};
ghost use Rattle.dslx_check_declarations.specs.Tops.{IsProcIf};
ghost use Rattle.dslx_check.specs.Least.Starts.{too_many};
ghost use Rattle.dslx_check_tasks.specs.Standing.{WorkGoesOn, IsRight, text_in};
ghost use Rattle.dslx_check.specs.Verdicts.{FindsBroken, IsFirstOfBoth, IsProcOf, IsVerdictOn, TellsFirst};

use crate::found::judge_instances;
use crate::outside::{judge_outside, own_instances};
use dslx_check_declarations::{item_names, top_of};
use dslx_check_facts::Facts;
use dslx_check_rules::Faults;
use dslx_check_tasks::Work;
use dslx_check_uses::definition;
use dslx_tree::{Definition, Module, Proc};
use std::alloc::{AllocError, Global};
use xb_span::{Fault, Limit, What};

/// What `check` says of a text: it is accepted, with this top, or its first fault is this one.
#[derive(Clone, Copy)]
pub enum Verdict<'a> {
    Accepted(&'a Proc),
    Refused(Fault),
}

/// What is broken outside all instances, and inside, unless there are too many.
#[derive(Clone, Copy)]
struct Broken {
    outside: Faults,
    inside: Option<Faults>,
}

/// Checks a text, whose top is the proc of this name, the last one by default.
pub fn check<'a>(
    alloc: Global,
    text: &'a Module,
    top: Option<&str>,
) -> Result<Verdict<'a>, AllocError>
    ensures { IfOk result (IsVerdictOn text.now (option_copied top.entry)) }
{
    crate::least::laws::what_is_found_names_the_first_fault();
    dslx_core::typing::laws::accepted_without_faults();
    crate::text::laws::items_have_names_of_their_own();
    crate::text::known::texts_are_known();
    crate::settled::laws::items_settle();
    crate::settled::laws::declarations_settle();
    let mut work = Work::new(alloc, text)?;
    let names = item_names(alloc, text.items.as_slice())?;
    let own = top_of(&work.facts, top)?;
    let broken = find_broken(&mut work, own.process)?;
    let outside = names.and(own.faults.and(broken.outside));
    let first = first_fault(outside, broken.inside);
    tell(&work.facts, own.process, first)
}

/// All that is broken, but for the names of items and the top.
fn find_broken<'a>(work: &mut Work<'a>, top: Option<(u32, &'a Proc)>) -> Result<Broken, AllocError>
    ensures goes { OnOk result (WorkGoesOn work.old work.new) }
    ensures found { IfOk result (λ b. (o : Option ProcTree) → IsRight work.old → IsProcIf work.old.facts o top.entry → FindsBroken (text_in work.old) o b) }
{
    let mut start = own_instances(work)?;
    let outside = judge_outside(work, top)?;
    let more = outside.reached.as_slice();
    start.extend_from_slice(more)?;
    let all = start.as_slice();
    let inside = judge_instances(work, all)?;
    Ok(Broken {
        outside: outside.faults,
        inside,
    })
}

/// The first fault, where that of having too many instances is the only one.
fn first_fault(outside: Faults, inside: Option<Faults>) -> Option<Fault>
    ensures { IsFirstOfBoth outside inside result }
{
    match inside {
        None => Some(too_many_instances()),
        Some(inside) => outside.and(inside).first,
    }
}

fn tell<'a>(
    f: &Facts<'a>,
    top: Option<(u32, &'a Proc)>,
    first: Option<Fault>,
) -> Result<Verdict<'a>, AllocError>
    ensures { IfOk result (TellsFirst f.now top.entry first) }
{
    match first {
        Some(fault) => Ok(Verdict::Refused(fault)),
        None => match proc_of(f, top) {
            Some(process) => Ok(Verdict::Accepted(process)),
            None => Err(AllocError),
        },
    }
}

/// The proc at the number of the top.
fn proc_of<'a>(f: &Facts<'a>, top: Option<(u32, &'a Proc)>) -> Option<&'a Proc>
    ensures { IfSome result (λ p. IsProcOf f.now top.entry p.now) }
{
    match top {
        None => None,
        Some((item, _)) => match definition(f, item) {
            Some(Definition::Proc(process)) => Some(process),
            _ => None,
        },
    }
}

fn too_many_instances() -> Fault
    ensures { result ≡ too_many }
{
    Fault::Whole(Limit {
        what: What::Instances,
        found: 4097,
        most: 4096,
    })
}
