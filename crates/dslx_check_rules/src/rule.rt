//! The numbers of the rules, by what each asks. docs/LANGUAGE.md says what breaks it, and at which span.

/// A name is declared where it is used, as what it is used for.
pub const NAME_IS_DECLARED: u16 = 1;
/// A name stands once in its list.
pub const NAME_STANDS_ONCE: u16 = 2;
/// No item is used in the text of an item that it reaches.
pub const NO_ITEM_REACHES_ITSELF: u16 = 3;
/// A width, a size, a depth is unsigned and above 0.
pub const COUNT_IS_POSITIVE: u16 = 4;
/// What has to be constant names nothing that is bound around it.
pub const CONSTANT_HAS_NO_LOCALS: u16 = 5;
/// A number lies in its type.
pub const NUMBER_FITS_TYPE: u16 = 6;
/// A number has a type.
pub const NUMBER_HAS_TYPE: u16 = 7;
/// A pattern has the type of its value, and fails nowhere but in a `match`.
pub const PATTERN_FITS_TYPE: u16 = 8;
/// A value has the type that is written or wanted.
pub const VALUE_HAS_ITS_TYPE: u16 = 9;
/// A call or a spawn has as many arguments as are declared, and each parametric one value of its type.
pub const ARGUMENTS_FIT: u16 = 10;
/// The operand of `-` and `!` is bits.
pub const PREFIX_OPERAND_IS_BITS: u16 = 11;
/// Both operands of `+ - * & | ^` have one bit type.
pub const OPERANDS_OF_ONE_TYPE: u16 = 12;
/// Those of `/ %` have one unsigned type.
pub const DIVISION_OF_ONE_UNSIGNED_TYPE: u16 = 13;
/// Those of a comparison have one bit type, of `== !=` also one enum.
pub const COMPARISON_OF_ONE_TYPE: u16 = 14;
/// A condition, and an operand of `&& ||`, is `bool`.
pub const CONDITION_IS_BOOL: u16 = 15;
/// Bits are shifted, by an unsigned amount.
pub const SHIFT_BY_UNSIGNED: u16 = 16;
/// What is joined by `++` is unsigned.
pub const CONCAT_OF_UNSIGNED: u16 = 17;
/// Bits are sliced, between bounds that lie in them.
pub const SLICE_OF_BITS: u16 = 18;
/// An index is unsigned and of an array, and a part is one that its value has.
pub const PART_IS_THERE: u16 = 19;
/// `as` is from bits or an enum to bits.
pub const CAST_TO_BITS: u16 = 20;
/// An array literal has as many elements as its type.
pub const ARRAY_ELEMENT_COUNT: u16 = 21;
/// A struct value has each field, once.
pub const STRUCT_FIELDS: u16 = 22;
/// An enum has bits and members, each of another value.
pub const ENUM_MEMBERS: u16 = 23;
/// The arms of a `match` have one type, and match each value.
pub const MATCH_IS_EXHAUSTIVE: u16 = 24;
/// The parts of an `if` have one type.
pub const BRANCHES_OF_ONE_TYPE: u16 = 25;
/// The ends of a range have one bit type.
pub const RANGE_OF_ONE_TYPE: u16 = 26;
/// An operand of a builtin is of its kind.
pub const BUILTIN_OPERANDS: u16 = 27;
/// An effect, and a token, stands where one may.
pub const EFFECT_STANDS_ALONE: u16 = 28;
/// An effect's channel is a member of its direction, without a site so far.
pub const EFFECT_ON_FREE_MEMBER: u16 = 29;
/// Each end of a `config` is used once, and its tuple has the members.
pub const CONFIG_USES_EACH_END: u16 = 30;
/// `()` is no part of a type, and a struct has a field.
pub const NO_UNIT_INSIDE: u16 = 31;
/// The top is a proc of the text, and its parametrics have defaults.
pub const TOP_IS_A_PROC: u16 = 32;
