//! The instances of a text's procs without parametrics, in the order of the text.

ghost use Rattle.std.specs.Prelude.{IfOk};
ghost use Rattle.dslx_core.specs.Machines.Machine.Reached.{IsTable};
ghost use Rattle.dslx_meaning.specs.Items.{meanings_of};
ghost use Rattle.dslx_elab.specs.Adding.{KeepsTable};

use base::texts::Name;
use dslx_core::lowering::Instantiated;
use dslx_elab::{MadeInstances, add_proc};
use dslx_instance::table::InstanceTable;
use dslx_meaning::DslxValue;
use dslx_parser::read;
use dslx_tree::{Definition, Item, Module, Proc};
use std::alloc::{AllocError, Global};
use std::test::Fail;
use xb_bits::Bits;
use xb_value::Seq;

/// More instances than any text here comes to.
const LIMIT: usize = 1024;

/// All instances of the text's procs: a proc with parametrics has one with a 3 for each of them. `None` where one of them has
/// no lowering.
pub fn instances(alloc: Global, text: &str) -> Result<Option<MadeInstances>, Fail> {
    if text.len() >= 4_294_967_296 {
        return Err(Fail::from("long"));
    }
    let parsed = match read(alloc, text) {
        Ok(parsed) => parsed,
        Err(_) => return Err(Fail::from("no text")),
    };
    let none = MadeInstances {
        functions: InstanceTable::new(alloc),
        procs: Vec::new(alloc),
    };
    Ok(all_of(alloc, &parsed.module, none)?)
}

fn all_of(
    alloc: Global,
    module: &Module,
    none: MadeInstances,
) -> Result<Option<MadeInstances>, AllocError>
    requires is_table { IsTable module.now (meanings_of module.now) none.functions }
{
    let mut made = none;
    'items: for item in module.items.as_slice() {
        match item_of(alloc, module, made, item)? {
            Some(more) => made = more,
            None => return Ok(None),
        }
    }
    Ok(Some(made))
}

/// With the instance of an item that is a proc.
fn item_of(
    alloc: Global,
    module: &Module,
    made: MadeInstances,
    item: &Item,
) -> Result<Option<MadeInstances>, AllocError>
    requires is_table { IsTable module.now (meanings_of module.now) made.functions }
    ensures { IfOk result (KeepsTable module.now) }
{
    match &item.definition {
        Definition::Proc(process) => {
            let wanted = wanted(alloc, process)?;
            add_proc(alloc, module, LIMIT, made, wanted)
        }
        _ => Ok(Some(made)),
    }
}

/// The instance of a proc with a 3 for each of its parametrics.
fn wanted(alloc: Global, process: &Proc) -> Result<Instantiated, AllocError> {
    let mut parametric_args = Vec::new(alloc);
    for _ in 0..process.parametrics.len() {
        parametric_args.push(DslxValue::Bits(false, Bits::new(32, 3)))?;
    }
    Ok(Instantiated {
        name: Name::from_string(String::from_str(alloc, process.name.name.as_str())?),
        parametric_args: Seq::from_vec(parametric_args),
    })
}
