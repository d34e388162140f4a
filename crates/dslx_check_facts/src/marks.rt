//! What is so of all that is read from a text: no name has a mark, by which items of one name are told apart.

ghost use Rattle.std.specs.Prelude.{map, OnOk};
ghost use Rattle.dslx_check_items.specs.Shown.{mention_shown};
ghost use Rattle.dslx_check_facts.specs.Names.{HasNoMarks, IsPlainItem, MentionNoMark};

use crate::items::unmarked;
use dslx_check_items::{Mention, ident_of, mentions_of};
use dslx_tree::{Definition, Module};
use std::alloc::{AllocError, Global};

/// No name of an item has a mark, and none that an item mentions. It takes time as the text is long.
pub fn text_is_plain(alloc: Global, text: &Module) -> Result<(), AllocError>
    ensures { OnOk result (HasNoMarks text.now) }
{
    let items = text.items.as_slice();
    'items: for i in 0..items.len() {
        item_is_plain(alloc, &items[i].definition)?;
    }
    Ok(())
}

fn item_is_plain(alloc: Global, definition: &Definition) -> Result<(), AllocError>
    ensures { OnOk result (IsPlainItem definition.now) }
{
    let ident = ident_of(definition);
    let _name = unmarked(&ident.name);
    let mentions = mentions_of(alloc, definition)?;
    mention_no_mark(mentions.as_slice());
    Ok(())
}

/// No name that is mentioned has a mark.
pub(crate) fn mention_no_mark(mentions: &[Mention<'_>])
    ensures { MentionNoMark (map mention_shown mentions.now) }
{
    'mentions: for i in 0..mentions.len() {
        let _name = unmarked(mentions[i].name);
    }
}
