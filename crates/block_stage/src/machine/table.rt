//! Gates as tables.

ghost use Rattle.std.specs.Prelude.{◌≡◌, Bool};
ghost use Rattle.block_stage.specs.Machine.Logic.{at2, at3};

/// A gate of two inputs: what it gives where neither is set, the second alone, the first alone, and both.
#[derive(Clone, Copy, PartialEq, Eq)]
pub struct Table2 {
    pub neither: bool,
    pub second: bool,
    pub first: bool,
    pub both: bool,
}

/// A gate of three inputs: its table where the first isn't set, and where it is.
#[derive(Clone, Copy, PartialEq, Eq)]
pub struct Table3 {
    pub unset: Table2,
    pub set: Table2,
}

impl Table2 {
    /// The table of this gate.
    pub fn of<F: Fn(bool, bool) -> bool>(gate: F) -> Table2
        requires { F.IsAlwaysCallable gate }
        ensures { (a b : Bool) → F.post gate a b (at2 result a b) }
    {
        Table2 {
            neither: gate(false, false),
            second: gate(false, true),
            first: gate(true, false),
            both: gate(true, true),
        }
    }

    /// What the gate gives.
    pub fn at(self, a: bool, b: bool) -> bool
        ensures { result ≡ at2 self a b }
    {
        match (a, b) {
            (false, false) => self.neither,
            (false, true) => self.second,
            (true, false) => self.first,
            (true, true) => self.both,
        }
    }
}

impl Table3 {
    /// The table of this gate.
    pub fn of<F: Fn(bool, bool, bool) -> bool>(gate: F) -> Table3
        requires { F.IsAlwaysCallable gate }
        ensures { (a b c : Bool) → F.post gate a b c (at3 result a b c) }
    {
        Table3 {
            unset: Table2 {
                neither: gate(false, false, false),
                second: gate(false, false, true),
                first: gate(false, true, false),
                both: gate(false, true, true),
            },
            set: Table2 {
                neither: gate(true, false, false),
                second: gate(true, false, true),
                first: gate(true, true, false),
                both: gate(true, true, true),
            },
        }
    }

    /// What the gate gives.
    pub fn at(self, a: bool, b: bool, c: bool) -> bool
        ensures { result ≡ at3 self a b c }
    {
        if a {
            self.set.at(b, c)
        } else {
            self.unset.at(b, c)
        }
    }
}
