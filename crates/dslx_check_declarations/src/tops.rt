//! The items of a text by their names, and its top.

ghost use Rattle.std.specs.Prelude.{◌≡◌, [], None, Option, Some, IfOk};
ghost use Rattle.std.specs.List.{list_any};
ghost use Rattle.std.specs.Option.{option_copied};
ghost use Rattle.xb_span.specs.Spans.{nowhere as the_nowhere};
ghost use Rattle.dslx_meaning.specs.Lists.{or_else};
ghost use Rattle.dslx_meaning.specs.Network.{as_proc as the_proc, last_proc_of};
ghost use Rattle.dslx_meaning.specs.Rules.ModuleRules as the;
ghost use Rattle.dslx_meaning.specs.Rules.Namesakes.{told_apart};
ghost use Rattle.dslx_check_rules.specs.Seen.{seen};
ghost use Rattle.dslx_check_facts.specs.Known.{item_at, text_of};
ghost use Rattle.dslx_check_facts.specs.Names.{definition_at};
ghost use Rattle.dslx_tree.specs.declared.process.Proc.{Proc as ProcTree};
ghost use Rattle.dslx_check_declarations.specs.Tops.{IsProcIf, IsTop, IsTopAt, proc_faults};

use crate::names::{NamesBefore, listed_name};
use base::texts::Name;
use dslx_check_facts::Facts;
use dslx_check_items::ident_of;
use dslx_check_rules::{Faults, rule};
use dslx_check_uses::definition;
use dslx_tree::{Definition, Item, Parametric, Proc};
use std::alloc::{AllocError, Global};
use xb_span::Span;

/// Rule 2 in the list of items.
pub fn item_names(alloc: Global, items: &[Item]) -> Result<Faults, AllocError>
    ensures { IfOk result (λ faults. faults ≡ seen (the.item_names [] items.now)) }
{
    let mut faults = Faults::none();
    let mut before = NamesBefore::new(alloc);
    'items: for item in items {
        let ident = ident_of(&item.definition);
        let is_before = before.has(&ident.name);
        let own = listed_name(is_before, ident);
        faults = faults.and(own);
        before.put(&ident.name)?;
    }
    Ok(faults)
}

/// The top: the proc with its number, if there is one, and what breaks rule 32.
#[derive(Clone, Copy)]
pub struct Top<'a> {
    pub process: Option<(u32, &'a Proc)>,
    pub faults: Faults,
}

/// The top of a text: the proc of this name, the last one by default.
pub fn top_of<'a>(f: &Facts<'a>, top: Option<&str>) -> Result<Top<'a>, AllocError>
    ensures { IfOk result (λ t. IsTop f.now (option_copied top.entry) t) }
{
    match top {
        None => Ok(default_top(f)),
        Some(text) => {
            let name = name_of(f.alloc, text)?;
            Ok(named_top(f, &name))
        }
    }
}

fn name_of(alloc: Global, text: &str) -> Result<Name, AllocError>
    ensures { IfOk result (λ name. name ≡ text.now) }
{
    let own = String::from_str(alloc, text)?;
    Ok(Name::from_string(own))
}

/// The last proc.
fn default_top<'a>(f: &Facts<'a>) -> Top<'a>
    ensures { IsTop f.now None result }
{
    match last_proc(f) {
        None => Top {
            process: None,
            faults: Faults::breaks(rule::TOP_IS_A_PROC, nowhere()),
        },
        Some((item, process)) => Top {
            process: Some((item, process)),
            faults: default_faults(process),
        },
    }
}

/// The proc of a name.
fn named_top<'a>(f: &Facts<'a>, name: &Name) -> Top<'a>
    ensures { IsTop f.now (Some name.now) result }
{
    match f.item(name) {
        None => Top {
            process: None,
            faults: Faults::breaks(rule::TOP_IS_A_PROC, nowhere()),
        },
        Some((item, definition)) => top_at(item, definition),
    }
}

/// The top that an item is, which has to be a proc.
fn top_at<'a>(item: u32, definition: &'a Definition) -> Top<'a>
    ensures { IsTopAt item definition.now result }
{
    match proc_in(definition) {
        Some(process) => Top {
            process: Some((item, process)),
            faults: default_faults(process),
        },
        None => Top {
            process: None,
            faults: Faults::breaks(rule::TOP_IS_A_PROC, ident_of(definition).span),
        },
    }
}

fn proc_in(definition: &Definition) -> Option<&Proc>
    ensures { option_copied result ≡ the_proc (Some definition.now) }
{
    match definition {
        Definition::Proc(process) => Some(process),
        _ => None,
    }
}

/// Rule 32 at a parametric that has no default.
fn default_faults(process: &Proc) -> Faults
    ensures { result ≡ seen (proc_faults process.now) }
{
    let lacks = lacks_default(process.parametrics.as_slice());
    Faults::breaks_if(lacks, rule::TOP_IS_A_PROC, process.name.span)
}

fn lacks_default(parametrics: &[Parametric]) -> bool
    ensures { result ≡ list_any the.lacks_default parametrics.now }
{
    'parametrics: for parametric in parametrics {
        if has_no_default(parametric) {
            return true;
        }
    }
    false
}

fn has_no_default(parametric: &Parametric) -> bool
    ensures { result ≡ the.lacks_default parametric.now }
{
    match &parametric.default {
        None => true,
        Some(_) => false,
    }
}

fn nowhere() -> Span
    ensures { result ≡ the_nowhere }
{
    Span { from: 0, to: 0 }
}

/// The last proc of a text.
fn last_proc<'a>(f: &Facts<'a>) -> Option<(u32, &'a Proc)>
    ensures { IsProcIf f.now (last_proc_of (told_apart (text_of f.now)).items None) result }
{
    let mut found = None;
    'items: for item in 0..f.kept.items.len() {
        found = later(f, item, found);
    }
    found
}

/// The proc of a number, and else the one that was found before.
fn later<'a>(f: &Facts<'a>, item: u32, found: Option<(u32, &'a Proc)>) -> Option<(u32, &'a Proc)>
    ensures { (o : Option ProcTree) → IsProcIf f.now o found.entry → IsProcIf f.now (or_else (the_proc (item_at f.now item)) o) result }
{
    match proc_at(f, item) {
        Some(process) => Some((item, process)),
        None => found,
    }
}

/// The proc of a number, if that item is one.
fn proc_at<'a>(f: &Facts<'a>, item: u32) -> Option<&'a Proc>
    ensures { option_copied result ≡ the_proc (definition_at (text_of f.now).items item) }
{
    match definition(f, item) {
        Some(definition) => proc_in(definition),
        None => None,
    }
}
