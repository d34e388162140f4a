//! The normal form of packages, as the table of patterns has it: definitions alone.
