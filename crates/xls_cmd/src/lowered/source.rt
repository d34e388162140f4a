//! The step that gives a package.

ghost use Rattle.std.specs.Prelude.{◌<◌, ◌^◌, Ok, length, IfOk, IfErr};
ghost use Rattle.std.specs.Option.{option_copied};
ghost use Rattle.ir_tree.specs.Rules.Verified.{IsVerified};
ghost use Rattle.xls_cmd.specs.Shared.Done.{StopsBy};
ghost use Rattle.xls_cmd.specs.Lowered.Commands.{GivesPackageBy, GivesScheduledBy, LowersText, OptimisesText};

use crate::design::read_design;
use crate::ir::read_package;
use crate::shared::Refusal;
use cmd_line::Source;
use ir_lower::lower;
use ir_passes::optimise;
use ir_tree::Package;
use std::alloc::Global;

/// The package of a file's bytes, by what it is written in. The top of a design is the proc of this name, or the last one.
pub fn package_by<'a>(
    alloc: Global,
    source: Source,
    name: &'a str,
    top: Option<&str>,
    bytes: &[u8],
) -> Result<Package, Refusal<'a>>
    requires { length bytes.now < 2 ^ 32 }
    ensures gives { IfOk result (λ ir. GivesPackageBy source name.entry.now (option_copied top.entry) bytes.now (Ok ir)) }
    ensures verified { IfOk result (λ ir. IsVerified ir) }
    ensures refused { IfErr result (StopsBy (GivesPackageBy source name.entry.now (option_copied top.entry) bytes.now)) }
{
    match source {
        Source::Dslx => lower_text(alloc, name, top, bytes),
        Source::Ir => read_package(alloc, name, bytes),
    }
}

/// The package of a design.
pub fn lower_text<'a>(
    alloc: Global,
    name: &'a str,
    top: Option<&str>,
    bytes: &[u8],
) -> Result<Package, Refusal<'a>>
    requires { length bytes.now < 2 ^ 32 }
    ensures gives { IfOk result (λ ir. LowersText name.entry.now (option_copied top.entry) bytes.now (Ok ir)) }
    ensures verified { IfOk result (λ ir. IsVerified ir) }
    ensures refused { IfErr result (StopsBy (LowersText name.entry.now (option_copied top.entry) bytes.now)) }
{
    dslx_elab::runs::accepted_texts_run();
    ir_lower::packages_mean_the_text();
    let design = read_design(alloc, name, top, bytes)?;
    match lower(alloc, &design) {
        Ok(ir) => Ok(ir),
        Err(error) => Err(Refusal::of_text(name, error)),
    }
}

/// The package of a file's bytes whose procs are scheduled: that of a design is optimised first.
pub fn package_to_schedule<'a>(
    alloc: Global,
    source: Source,
    name: &'a str,
    top: Option<&str>,
    bytes: &[u8],
) -> Result<Package, Refusal<'a>>
    requires { length bytes.now < 2 ^ 32 }
    ensures gives { IfOk result (λ ir. GivesScheduledBy source name.entry.now (option_copied top.entry) bytes.now (Ok ir)) }
    ensures verified { IfOk result (λ ir. IsVerified ir) }
    ensures refused { IfErr result (StopsBy (GivesScheduledBy source name.entry.now (option_copied top.entry) bytes.now)) }
{
    match source {
        Source::Dslx => optimise_text(alloc, name, top, bytes),
        Source::Ir => read_package(alloc, name, bytes),
    }
}

/// The package of a design, optimised.
fn optimise_text<'a>(
    alloc: Global,
    name: &'a str,
    top: Option<&str>,
    bytes: &[u8],
) -> Result<Package, Refusal<'a>>
    requires { length bytes.now < 2 ^ 32 }
    ensures gives { IfOk result (λ ir. OptimisesText name.entry.now (option_copied top.entry) bytes.now (Ok ir)) }
    ensures verified { IfOk result (λ ir. IsVerified ir) }
    ensures refused { IfErr result (StopsBy (OptimisesText name.entry.now (option_copied top.entry) bytes.now)) }
{
    let ir = lower_text(alloc, name, top, bytes)?;
    let new = optimise(alloc, ir)?;
    Ok(new)
}
