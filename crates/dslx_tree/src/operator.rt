ghost use Rattle.std.specs.Prelude.{◌≡◌, ◌<◌};
ghost use Rattle.dslx_tree.specs.Levels.{level_of};

/// How many levels of binary operators there are.
pub const LEVELS: u8 = 9;

/// What stands before an operand.
#[derive(Clone, Copy, PartialEq, Eq)]
pub enum Prefix {
    /// `-`
    Minus,
    /// `!`
    Not,
}

/// What stands between two operands.
#[derive(Clone, Copy, Debug, PartialEq, Eq)]
pub enum Binary {
    /// `*`
    Mul,
    /// `/`
    Div,
    /// `%`
    Rem,
    /// `+`
    Add,
    /// `-`
    Sub,
    /// `++`
    Concat,
    /// `<<`
    Shl,
    /// `>>`
    Shr,
    /// `&`
    And,
    /// `^`
    Xor,
    /// `|`
    Or,
    /// `==`
    Eq,
    /// `!=`
    Ne,
    /// `<`
    Lt,
    /// `<=`
    Le,
    /// `>`
    Gt,
    /// `>=`
    Ge,
    /// `&&`
    Both,
    /// `||`
    Either,
}

impl Binary {
    /// The level of the operator: 0 for those that bind most tightly. Operators of one level take their operands from
    /// the left.
    pub fn level(self) -> u8
        ensures level { result ≡ level_of self }
        ensures below { result < LEVELS }
    {
        match self {
            Binary::Mul | Binary::Div | Binary::Rem => 0,
            Binary::Add | Binary::Sub | Binary::Concat => 1,
            Binary::Shl | Binary::Shr => 2,
            Binary::And => 3,
            Binary::Xor => 4,
            Binary::Or => 5,
            Binary::Eq | Binary::Ne | Binary::Lt | Binary::Le | Binary::Gt | Binary::Ge => 6,
            Binary::Both => 7,
            Binary::Either => 8,
        }
    }
}
