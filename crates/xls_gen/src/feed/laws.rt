//! What holds of modules that are fed, each the contract of a function that does nothing.

ghost use Rattle.std.specs.Prelude.{◌≡◌, ◌<◌, ℕ, List, length, true};
ghost use Rattle.std.specs.List.{AllByRecursion, list_any};
ghost use Rattle.base.specs.Lists.Prefix.{IsPrefix};
ghost use Rattle.xb_bits.specs.Word.{Word};
ghost use Rattle.vlog_tree.specs.declared.module.VModule.{VModule};
ghost use Rattle.vlog_tree.specs.declared.row.Outs.{Outs};
ghost use Rattle.vlog_tree.specs.declared.row.Row.{Row};
ghost use Rattle.vlog_tree.specs.Rows.{IsRowOf, Runs};
ghost use Rattle.vlog_tree.specs.Value.{Values};
ghost use Rattle.xls_gen.specs.Feed.Feeding.{Feeds, AreFedRows, OffersAmong, is_feedable, moved_through};

/// A module, words and a number of rows have one result.
pub fn one_feeding()
    ensures { (m : VModule) (input output : ℕ) (words : List Word) (count : ℕ) (a b : List Word) →
        Feeds m input output words count a → Feeds m input output words count b → a ≡ b }
{}

/// The rows in which a module is fed are the module's: one drive for each channel, by its direction, with words of its width.
/// What they offer are words that it is fed with, and one of them resets.
pub fn fed_rows_fit()
    ensures rows { (m : VModule) (input output : ℕ) (words : List Word) (rows : List Row) (outs : List Outs) →
        is_feedable m input output words ≡ true → AreFedRows m input words rows outs → AllByRecursion (IsRowOf m) rows }
    ensures words { (m : VModule) (input : ℕ) (words : List Word) (rows : List Row) (outs : List Outs) →
        AreFedRows m input words rows outs → AllByRecursion (λ row. AllByRecursion (OffersAmong words) row.channels) rows }
    ensures resets { (m : VModule) (input : ℕ) (words : List Word) (rows : List Row) (outs : List Outs) →
        AreFedRows m input words rows outs → 0 < length rows → list_any (λ (row : Row). row.reset) rows ≡ true }
{}

/// The words that have gone through the input are a prefix of those that the module is fed with.
pub fn words_are_taken_in_order()
    ensures { (m : VModule) (input output : ℕ) (words : List Word) (rows : List Row) (outs : List Outs) (held : Values) →
        is_feedable m input output words ≡ true → AreFedRows m input words rows outs → Runs m rows outs held →
        IsPrefix (moved_through m input rows outs) words }
{}
