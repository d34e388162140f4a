//! What instances of texts' functions come to.

use base::texts::Name;
use dslx_core::lowering::Instantiated;
use dslx_instance::table::InstanceTable;
use dslx_param::instance;
use dslx_parser::read;
use dslx_tree::{Definition, Module};
use std::alloc::Global;
use std::test::Fail;
use xb_value::Seq;

/// More instances than any text here comes to.
const LIMIT: usize = 1024;

/// The first line of a table whose last function comes to another number of instances, its own among them; nothing where none does.
pub fn first_not_of<'a>(alloc: Global, count: usize, table: &'a str) -> Result<&'a str, Fail> {
    for line in table.lines() {
        if !line.is_empty() && last_count(alloc, line)? != Some(count) {
            return Ok(line);
        }
    }
    Ok("")
}

/// How many instances the last function of a text comes to, if it has one.
fn last_count(alloc: Global, text: &str) -> Result<Option<usize>, Fail> {
    match last_instances(alloc, text)? {
        Some(made) => Ok(Some(made.len())),
        None => Ok(None),
    }
}

/// The instances that one of the last item of a text needs, and that one.
fn last_instances(alloc: Global, text: &str) -> Result<Option<InstanceTable>, Fail> {
    if text.len() >= 4_294_967_296 {
        return Err(Fail::from("long"));
    }
    let parsed = match read(alloc, text) {
        Ok(parsed) => parsed,
        Err(_) => return Err(Fail::from("no text")),
    };
    match last_function(&parsed.module) {
        Some(name) => {
            let wanted = Instantiated {
                name: Name::from_string(String::from_str(alloc, name)?),
                parametric_args: Seq::new(alloc),
            };
            Ok(instance(alloc, &parsed.module, LIMIT, wanted)?)
        }
        None => Err(Fail::from("no function")),
    }
}

/// The name of the last item.
fn last_function(module: &Module) -> Option<&str> {
    match module.items.as_slice() {
        [.., last] => match &last.definition {
            Definition::Function(function) => Some(function.name.name.as_str()),
            _ => None,
        },
        [] => None,
    }
}
