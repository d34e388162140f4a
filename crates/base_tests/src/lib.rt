//! Tests of what everything stands on: words, values, texts, files, grammars and orders,
//! in a crate of their own so that they cost the crates below nothing.
#![tactic(auto)]

#[cfg(test)]
mod dslx_kinds;
#[cfg(test)]
mod files;
#[cfg(test)]
mod flat_words;
#[cfg(test)]
mod names;
#[cfg(test)]
mod nested_lists;
#[cfg(test)]
mod orders;
#[cfg(test)]
mod refusals;
#[cfg(test)]
mod value_refusals;
#[cfg(test)]
mod value_texts;
#[cfg(test)]
mod value_types;
