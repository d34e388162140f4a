use base::texts::Name;

/// What a name is used as.
#[derive(Clone, Copy)]
pub enum Use {
    Value,
    /// In a pattern, where it is a constant's name or binds.
    Pattern,
    Type,
    Function,
    Proc,
    Enum,
    Struct,
}

/// A name that the text of an item has, and what it is used as there.
#[derive(Clone, Copy)]
pub struct Mention<'a> {
    pub use_as: Use,
    pub name: &'a Name,
}
