//! Reading a text.

ghost use Rattle.std.specs.Prelude.{◌≡◌, ◌<◌, ◌^◌, length, IfErr, IfOk, MatchResult};
ghost use Rattle.dslx_tree.specs.declared.item.Module.{Module};
ghost use Rattle.dslx_parser.specs.Reads.{IsTextRefusal, TextReads};
ghost use Rattle.xb_span.specs.declared.read_error.ReadError.TheVariants.{OutOfMemory};

use crate::reader::parse;
use dslx_token::tokens;
use dslx_tree::Module;
use std::alloc::Global;
use xb_span::ReadError;

/// A text as it was read: its tree. Its `drop` is written out, so that it is proved here once that a tree is let go, and not in each
/// crate that reads a text.
pub struct Parsed {
    pub module: Module,
}

impl Drop for Parsed {
    fn drop(self) {
        let Parsed { module: _ } = self;
    }
}

/// The tree of a text. The work and the memory are those of cutting it into tokens and of [`parse`].
pub fn read(alloc: Global, text: &str) -> Result<Parsed, ReadError>
    requires { length text.now < 2 ^ 32 }

    // What is found is the text's tree, and none of its tokens is nested deeper than the limit.
    ensures reads { IfOk result (λ parsed. TextReads text.now parsed.module) }

    // Whatever it reads as is found, unless memory ran out.
    ensures only { (m : Module) → TextReads text.now m
        → MatchResult result (λ parsed. parsed.module ≡ m) (λ e. e ≡ OutOfMemory) }

    // A refusal names the first character that begins no token; else it is that of the tokens.
    ensures refused { IfErr result (λ e. IsTextRefusal text.now e) }
{
    match module_of(alloc, text) {
        Ok(module) => Ok(Parsed { module }),
        Err(e) => Err(e),
    }
}

/// [`read`], as a bare tree.
fn module_of(alloc: Global, text: &str) -> Result<Module, ReadError>
    requires { length text.now < 2 ^ 32 }
    ensures reads { IfOk result (λ m. TextReads text.now m) }
    ensures only { (m : Module) → TextReads text.now m
        → MatchResult result (λ found. found ≡ m) (λ e. e ≡ OutOfMemory) }
    ensures refused { IfErr result (λ e. IsTextRefusal text.now e) }
{
    match tokens(alloc, text) {
        Ok(tokens) => parse(alloc, &tokens),
        Err(e) => Err(e),
    }
}
