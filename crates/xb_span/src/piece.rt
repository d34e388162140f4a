/// A piece of a message. What is put in pieces takes no memory, and fails only where a piece is refused, which
/// a `Display` cannot promise.
#[derive(Clone, Copy)]
pub enum Piece<'a> {
    Text(&'a str),
    Number(u64),
}
