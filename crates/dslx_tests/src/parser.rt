//! Tests of the reader of DSLX texts: the spans of all parts, of which no rule names some, and trees that mean the same. All were worked
//! by hand.
#[cfg(test)]
mod answers;
#[cfg(test)]
mod places;
