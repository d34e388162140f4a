//! Procs by their names.

ghost use Rattle.std.specs.Prelude.{◌≡◌, ◌∷◌, [], None};
ghost use Rattle.std.specs.Option.{option_copied};
ghost use Rattle.dslx_meaning.specs.Items.{item_named};
ghost use Rattle.dslx_meaning.specs.Network.{as_proc, last_proc_of, top_proc as the_top};

use base::texts::Name;
use dslx_meaning::names::find_item;
use dslx_tree::{Definition, Item, Module, Proc};

/// The proc of a name, if the first item of that name is one.
pub fn find_proc<'a>(items: &'a [Item], name: &Name) -> Option<&'a Proc>
    ensures { option_copied result ≡ as_proc (item_named name.now items.now) }
{
    match find_item(items, name) {
        Some(Definition::Proc(process)) => Some(process),
        _ => None,
    }
}

/// The top proc: the one of this name, or the last one of the text.
pub fn top_proc<'a>(text: &'a Module, top: Option<&Name>) -> Option<&'a Proc>
    ensures { option_copied result ≡ the_top text.now (option_copied top.entry) }
{
    match top {
        Some(name) => find_proc(text.items.as_slice(), name),
        None => last_proc(text.items.as_slice()),
    }
}

fn last_proc<'a>(items: &'a [Item]) -> Option<&'a Proc>
    ensures { option_copied result ≡ last_proc_of items.now None }
{
    let mut last = None;
    'items: for item in items {
        last = later_proc(last, item);
    }
    last
}

/// The item, if it is a proc, or else the one that was found before it.
fn later_proc<'a>(found: Option<&'a Proc>, item: &'a Item) -> Option<&'a Proc>
    ensures { option_copied result ≡ last_proc_of (item.now ∷ []) (option_copied found.entry) }
{
    match &item.definition {
        Definition::Proc(process) => Some(process),
        _ => found,
    }
}
