//! What holds of the order of limits.

ghost use Rattle.std.specs.Prelude.{◌≡◌, Some, slice_get};
ghost use Rattle.xb_span.specs.Limit.{limits, index_of};
ghost use Rattle.xb_span.specs.declared.limit.What.{What};

/// The index of a limit is where it stands in the table of limits, so that no two have one index.
pub fn indices_are_those_of_the_table()
    ensures { (w : What) → slice_get limits (index_of w) ≡ Some w }
{}
