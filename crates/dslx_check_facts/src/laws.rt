//! What holds of each text of which something is known.

ghost use Rattle.std.specs.Prelude.{◌≡◌, ℕ};
ghost use Rattle.dslx_check_items.specs.Reaching.{AreReached, item_needs};
ghost use Rattle.dslx_check_rules.specs.Interned.{AreDistinct};
ghost use Rattle.dslx_check_facts.specs.declared.facts.Facts.{Facts};
ghost use Rattle.dslx_check_facts.specs.Known.{is_cyclic, is_cyclic_named, item_names, text_of};

/// Where no two items have one name, items reach one another by their names as they do by their numbers. So what rule 3 asks of items
/// can be answered by groups.
pub fn items_have_groups_by_their_names()
    ensures { (f : Facts) → AreReached (item_needs (text_of f)) f.reaching → AreDistinct (item_names f) → (i j : ℕ)
        → is_cyclic_named f ((item_names f).item i) ((item_names f).item j) ≡ is_cyclic f i j }
{}
