//! Items by their numbers, and names.

ghost use Rattle.std.specs.Prelude.{◌≡◌};
ghost use Rattle.std.specs.Option.{option_copied};
ghost use Rattle.dslx_check_facts.specs.Known.{text_of};
ghost use Rattle.dslx_check_facts.specs.Names.{definition_at};
ghost use Rattle.dslx_check_uses.specs.Inferring.{the_name};

use base::texts::Name;
use dslx_check_facts::Facts;
use dslx_tree::{Definition, Expr, Node};

/// The item of a number, if there is one.
pub fn definition<'a>(f: &Facts<'a>, item: u32) -> Option<&'a Definition>
    ensures { option_copied result ≡ definition_at (text_of f.now).items item }
{
    let items = f.kept.items.text.items.as_slice();
    match items.get(item as usize) {
        Some(item) => Some(&item.definition),
        None => None,
    }
}

/// The name that an expression is alone.
pub fn name_of(e: &Expr) -> Option<&Name>
    ensures { option_copied result ≡ the_name e.now }
{
    match &e.node {
        Node::Name(name) => Some(name),
        _ => None,
    }
}
