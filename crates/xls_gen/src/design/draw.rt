//! The numbers that are drawn, and what each says of a proc.

ghost use Rattle.std.specs.Prelude.{◌≡◌};
ghost use Rattle.xls_gen.specs.Design.Draw.{next_drawn, out_depth, proc_kind};

/// What a proc sends for each word.
#[derive(Clone, Copy)]
pub enum ProcKind {
    /// The word and its number.
    Adds,
    /// The bits in which the word and its number differ.
    Xors,
    /// The word less its number.
    Subtracts,
    /// The sum of all words so far.
    Sums,
}

/// The number that is drawn after this one.
pub fn next_drawn(number: u64) -> u64
    ensures { result ≡ next_drawn number }
{
    ((1_103_515_245 * u128::from(number) + 12_345) % (1 << 31)) as u64
}

/// The kind of the proc with this number.
pub fn proc_kind(number: u64) -> ProcKind
    ensures { result ≡ proc_kind number }
{
    match number / 65_536 % 4 {
        0 => ProcKind::Adds,
        1 => ProcKind::Xors,
        2 => ProcKind::Subtracts,
        _ => ProcKind::Sums,
    }
}

/// How many words the output of the proc with this number holds.
pub fn out_depth(number: u64) -> u64
    ensures { result ≡ out_depth number }
{
    1 + number / 1_048_576 % 8
}
