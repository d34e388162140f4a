//! Reading texts.

ghost use Rattle.std.specs.Prelude.{◌≡◌, ◌<◌, ◌^◌, ◌⊎◌, None, Result, Ok, Err, length, IfErr, IfOk, OnOk};
ghost use Rattle.ir_tree.specs.declared.package.Package.{Package as Ir};
ghost use Rattle.ir_tree.specs.Rules.Verified.{IsVerified, first_fault};
ghost use Rattle.xb_span.specs.declared.read_error.ReadError.{ReadError as Refusal};
ghost use Rattle.xb_span.specs.declared.read_error.ReadError.TheVariants.{OutOfMemory};
ghost use Rattle.ir_text.specs.Parser.Texts.{GivesPackage, IsIrTextOf};

use crate::parser::laws::one_package;
use crate::parser::reader::read_tokens;
use ir_builder::Spanned;
use ir_builder::token::tokens;
use ir_tree::Package;
use ir_tree::rules::check;
use std::alloc::Global;
use xb_span::ReadError;

/// The package of a text, which breaks no rule and passes no limit, or why there is none.
///
/// Faults are looked for in this order: a character that begins no token; a token with which no text of the grammar goes on, or one
/// that is nested too deep, whichever comes first; rules and limits, the first by where its line ends.
///
/// The work and the memory are linear in the text, and no recursion is deeper than the limit on nesting.
pub fn read_ir(alloc: Global, text: &str) -> Result<Package, ReadError>
    requires { length text.now < 2 ^ 32 }

    // What is found is the text's package, which is verified.
    ensures gives { IfOk result (λ found. GivesPackage text.now (Ok found)) }
    ensures verified { IfOk result (λ found. IsVerified found) }

    // A refusal is that of the text, or for want of memory.
    ensures refused { IfErr result (λ e. (e ≡ OutOfMemory) ⊎ GivesPackage text.now (Err e)) }

    // Whatever the text gives is answered, unless memory ran out.
    ensures only { (given : Result Ir Refusal) → GivesPackage text.now given → (result ≡ given) ⊎ (result ≡ Err OutOfMemory) }
{
    one_package();
    read(alloc, text)
}

/// [`read_ir`], without that a text gives but one thing.
fn read(alloc: Global, text: &str) -> Result<Package, ReadError>
    requires { length text.now < 2 ^ 32 }
    ensures gives { IfOk result (λ found. GivesPackage text.now (Ok found)) }
    ensures verified { IfOk result (λ found. IsVerified found) }
    ensures refused { IfErr result (λ e. (e ≡ OutOfMemory) ⊎ GivesPackage text.now (Err e)) }
{
    let spanned = match shown(alloc, text) {
        Ok(spanned) => spanned,
        Err(error) => return Err(error),
    };
    match check(alloc, &spanned.tree, &spanned.line_spans) {
        Ok(()) => Ok(spanned.tree),
        Err(error) => Err(error),
    }
}

/// What the text shows, by its tokens and the grammar.
fn shown(alloc: Global, text: &str) -> Result<Spanned, ReadError>
    requires { length text.now < 2 ^ 32 }
    ensures shows { IfOk result (λ spanned. IsIrTextOf text.now spanned) }
    ensures refused { IfErr result (λ e. (e ≡ OutOfMemory) ⊎ GivesPackage text.now (Err e)) }
{
    match tokens(alloc, text.as_bytes()) {
        Ok(tokens) => read_tokens(alloc, &tokens),
        Err(error) => Err(error),
    }
}
