/// What a token does to the nesting of the tokens behind it.
#[derive(Clone, Copy, PartialEq, Eq)]
pub enum BracketClass {
    /// It opens a bracket: `(`, and `{` where it isn't [`BracketClass::OpenBody`].
    Open,
    /// `[`: it opens a bracket, and is a mark of the bracket in which it stands.
    OpenMark,
    /// The `{` behind the head of an `if`, a `match` or a `for`: it ends the head, and opens a bracket.
    OpenBody,
    /// It closes the innermost bracket.
    Close,
    /// A binary operator, a prefix sign, `as`, `.` or `else`.
    Mark,
    /// `,`, `;` or `=>`: the marks before it in its bracket count no more.
    Stop,
    /// The first token of an item.
    Item,
    /// `if`, `match` or `for`: behind it is a head.
    Head,
    /// Any other token.
    Plain,
}
