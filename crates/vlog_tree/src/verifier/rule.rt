//! The numbers of the rules, by what each asks. docs/VERILOG.md says what breaks it, and at which span.

/// A name is declared once, and where it is used.
pub const SIGNAL_IS_DECLARED_ONCE: u16 = 71;
/// An assignment is of a wire or an output, and a set of a register, in both branches.
pub const TARGET_MAY_BE_SET: u16 = 72;
/// Each wire, output and register has one driver.
pub const ONE_DRIVER: u16 = 73;
/// Operands, targets, conditions and slices have the widths that the form needs.
pub const WIDTHS_AGREE: u16 = 74;
/// No wire depends on itself without a register between.
pub const NO_COMBINATIONAL_LOOP: u16 = 75;
/// The ports are `clk`, `rst` and three for each channel, and `clk` is not read.
pub const PORTS_ARE_CHANNELS: u16 = 76;
