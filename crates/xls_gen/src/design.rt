//! Designs of procs in a chain, made from a seed, and the words of their inputs.

ghost use Rattle.std.specs.Prelude.{◌≡◌, ◌≤◌, IfOk, string_bytes};
ghost use Rattle.xls_gen.specs.Design.Text.{design_text};
ghost use Rattle.xls_gen.specs.Design.Words.{design_words};

mod draw;
mod inputs;
mod procs;
mod top;

use crate::design::inputs::design_inputs;
use crate::design::procs::push_procs;
use crate::design::top::push_top;
use net_core::Inputs;
use std::alloc::{AllocError, Global};

/// The text of the design with so many procs, and the words of its network's inputs.
///
/// It takes time and memory as the text is long.
pub fn design(alloc: Global, seed: u64, procs: u32) -> Result<(String, Inputs), AllocError>
    requires { 1 ≤ procs }
    ensures text { IfOk result (λ made. string_bytes made.0 ≡ design_text seed procs) }
    ensures words { IfOk result (λ made. made.1.words ≡ design_words procs) }
{
    let mut text = String::new(alloc);
    push_procs(&mut text, seed, procs)?;
    push_top(&mut text, seed, procs)?;
    let inputs = design_inputs(alloc, procs)?;
    Ok((text, inputs))
}
