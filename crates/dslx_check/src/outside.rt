//! What is found outside all instances.

ghost use Rattle.std.specs.Prelude.{◌≡◌, not, Option, IfOk, OnOk};
ghost use Rattle.dslx_tree.specs.declared.process.Proc.{Proc as ProcTree};
ghost use Rattle.dslx_meaning.specs.Rules.ConstantRules.{is_empty};
ghost use Rattle.dslx_meaning.specs.Rules.ModuleRules.{own_instance as instance_of_own};
ghost use Rattle.dslx_check_facts.specs.Walks.{shown};
ghost use Rattle.dslx_check_declarations.specs.Tops.{IsProcIf};
ghost use Rattle.dslx_check_tasks.specs.Standing.{WorkGoesOn, text_in};
ghost use Rattle.dslx_check.specs.Finds.{AddsItem, AddsOwn, AddsTo, FindsItems, FindsOutside, FindsOwn, MeetsInstance};

use dslx_check_declarations::parametrics_of;
use dslx_check_facts::{InstanceKey, Need, Walk};
use dslx_check_tasks::{Reaches, Work, nothing_reached, there};
use dslx_check_uses::definition;
use dslx_tree::{Definition, Proc};
use std::alloc::{AllocError, Global};
use xb_value::Seq;

/// What is broken outside all instances, but for the names of items, and what is reached from there.
pub(crate) fn judge_outside<'a>(
    work: &mut Work<'a>,
    top: Option<(u32, &'a Proc)>,
) -> Result<Reaches, AllocError>
    ensures goes { OnOk result (WorkGoesOn work.old work.new) }
    ensures found { IfOk result (λ r. (o : Option ProcTree) → IsProcIf work.old.facts o top.entry → FindsOutside work.old work.new o r) }
{
    let mut all = judge_items(work)?;
    let of_top = work.judge_top(top)?;
    add_to(&mut all, &of_top)?;
    Ok(all)
}

/// What items break whether something reaches them or not, in their order, and what they reach.
fn judge_items(work: &mut Work) -> Result<Reaches, AllocError>
    ensures goes { OnOk result (WorkGoesOn work.old work.new) }
    ensures found { IfOk result (FindsItems work.old work.new) }
{
    let mut all = nothing_reached(work.facts.alloc);
    let count = work.facts.kept.items.len();
    'items: for item in 0..count {
        work.settle(Need::Item(item))?;
        add_item(work, item, &mut all)?;
    }
    Ok(all)
}

/// With what an item comes to, which is judged.
fn add_item(work: &Work, item: u32, all: &mut Reaches) -> Result<(), AllocError>
    ensures { OnOk result (AddsItem work.now item all.old all.new) }
{
    let judged = work.items.as_slice();
    match there(judged, item) {
        None => Err(AllocError),
        Some(reaches) => add_to(all, reaches),
    }
}

/// The instances of functions and procs without parametrics, in the text's order.
pub(crate) fn own_instances(work: &mut Work) -> Result<Vec<u32>, AllocError>
    ensures goes { OnOk result (WorkGoesOn work.old work.new) }
    ensures found { IfOk result (λ ns. FindsOwn work.old work.new ns.items) }
{
    let mut own = Vec::new(work.facts.alloc);
    let count = work.facts.kept.items.len();
    'items: for item in 0..count {
        add_own(work, item, &mut own)?;
    }
    Ok(own)
}

/// With that of an item, if it has one.
fn add_own(work: &mut Work, item: u32, own: &mut Vec<u32>) -> Result<(), AllocError>
    ensures goes { OnOk result (WorkGoesOn work.old work.new) }
    ensures adds { OnOk result (AddsOwn (text_in work.old) (shown work.new.walk) item own.old.items own.new.items) }
{
    dslx_check_declarations::work::laws::what_is_known_stays();
    match definition(&work.facts, item) {
        None => Err(AllocError),
        Some(definition) => if has_own_instance(definition) {
            add_instance(work.facts.alloc, &mut work.walk, item, own)
        } else {
            Ok(())
        },
    }
}

/// With the instance of an item without parametric arguments.
fn add_instance(
    alloc: Global,
    w: &mut Walk,
    item: u32,
    own: &mut Vec<u32>,
) -> Result<(), AllocError>
    ensures { OnOk result (MeetsInstance (shown w.old) (shown w.new) item own.old.items own.new.items) }
{
    let none = Vec::new(alloc);
    let parametric_args = Seq::from_vec(none);
    let key = InstanceKey {
        item,
        parametric_args,
    };
    let instance = w.instances.number_of(key)?;
    own.push(instance)?;
    Ok(())
}

/// With this too.
fn add_to(all: &mut Reaches, more: &Reaches) -> Result<(), AllocError>
    ensures { OnOk result (AddsTo all.old all.new more.now) }
{
    all.faults = all.faults.and(more.faults);
    all.reached.extend_from_slice(more.reached.as_slice())?;
    Ok(())
}

/// Whether it is a function or a proc without parametrics.
fn has_own_instance(definition: &Definition) -> bool
    ensures { result ≡ not (is_empty (instance_of_own definition.now)) }
{
    match definition {
        Definition::Function(_) => parametrics_of(definition).len() == 0,
        Definition::Proc(_) => parametrics_of(definition).len() == 0,
        _ => false,
    }
}
