/// The brackets of tuples and of arrays.
#[derive(Clone, Copy, PartialEq, Eq)]
pub enum Bracket {
    Round,
    Square,
}

/// A number or a bracket of a value's text. Numbers and opening brackets have the position of their first byte.
#[derive(Clone, Copy)]
pub enum Token {
    Number(u32, u128),
    Open(u32, Bracket),
    Close,
}
