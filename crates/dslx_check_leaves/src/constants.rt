//! Constants that are held.

use dslx_check_rules::nodes::ConstantTyping;

/// A constant that is held while other parts are typed. Its `drop` is written out, so that it is proved once, and not wherever one
/// is let go.
pub struct HeldConstant {
    pub constant: ConstantTyping,
}

impl Drop for HeldConstant {
    fn drop(self) {
        let HeldConstant { constant: _ } = self;
    }
}
