//! The round trip of packages: a printed package is read as itself.
//!
//! `read_again` prints a package and reads it again; the law is about all texts.
mod again;
mod laws;
mod range;

pub use again::read_again;
pub use laws::printed_packages_are_read;
pub use range::in_range;
