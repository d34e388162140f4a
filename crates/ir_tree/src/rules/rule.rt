//! The numbers of the rules, by what each asks. docs/IR.md says what breaks it, and at which span.

/// Ids rise, operands are there, and names stand once and are plain.
pub const NODES_ARE_NAMED: u16 = 51;
/// A node has the operands, attributes and result that the table of operations gives it.
pub const NODE_FITS_TABLE: u16 = 52;
/// The tokens lead from the one `after_all` from site to site.
pub const TOKENS_ARE_CHAINED: u16 = 53;
/// A site is on a channel that is there, in its direction, and the only one on that end.
pub const SITE_FITS_CHANNEL: u16 = 54;
/// Types have bits, literals and states have their types.
pub const TYPES_ARE_SOUND: u16 = 55;
