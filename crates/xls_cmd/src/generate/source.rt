//! The design that is made, its runs, and its package.

ghost use Rattle.std.specs.Prelude.{◌≡◌, ◌≤◌, Ok, None, IfErr, IfOk, map};
ghost use Rattle.dslx_elab.specs.Runs.{IsOfAccepted};
ghost use Rattle.dslx_tree.specs.declared.item.Module.{Module};
ghost use Rattle.ir_tree.specs.Rules.Verified.{IsVerified};
ghost use Rattle.net_core.specs.WellFormed.{AreBehaviorsOf, IsInputs, IsNet};
ghost use Rattle.xls_cmd.specs.Design.Commands.{ReadsModule};
ghost use Rattle.xls_cmd.specs.Design.Inner.{IsDesignRead};
ghost use Rattle.xls_cmd.specs.Gen.Commands.{gen_name};
ghost use Rattle.xls_cmd.specs.Gen.Inner.{IsMadeOfText, TellsNetwork, TellsSource};
ghost use Rattle.xls_cmd.specs.Lowered.Commands.{LowersModule};
ghost use Rattle.xls_cmd.specs.Shared.Done.{StopsBy};
ghost use Rattle.xls_cmd.specs.Shared.Loads.{OfText};
ghost use Rattle.xls_gen.specs.Design.Text.{design_text};
ghost use Rattle.xls_gen.specs.Design.Words.{design_words};

use crate::design::{made_network, read_design};
use crate::generate::fitting::takes_its_words;
use crate::generate::running::{line_by_workers, told_alone};
use crate::shared::Refusal;
use cmd_line::Gen;
use dslx_core::Design;
use ir_lower::lower;
use ir_tree::Package;
use net_core::{Body, Inputs, Net};
use std::alloc::{AllocError, Global};
use std::sync::Wait;
use std::thread::Threads;
use xb_io::Gate;
use xls_gen::design::design;
use xls_gen::level::Level;

/// A design that was made, and the words of its network's inputs.
#[derive(Drop)]
pub struct Made {
    pub design: Design,
    pub inputs: Inputs,
}

/// The lines of a text's runs: in one thread, and by several workers.
#[derive(Drop)]
pub struct SourceLines {
    pub dslx: Vec<u8>,
    pub threads: Vec<u8>,
}

/// The design of a seed with so many procs.
pub fn made_design<'a>(alloc: Global, arguments: Gen) -> Result<Made, Refusal<'a>>
    requires { 1 ≤ arguments.procs }
    ensures reads { IfOk result (λ made. IsDesignRead gen_name None (design_text arguments.seed arguments.procs) made.design) }
    ensures words { IfOk result (λ made. made.inputs.words ≡ design_words arguments.procs) }
    ensures refused { IfErr result (StopsBy (ReadsModule gen_name None (design_text arguments.seed arguments.procs))) }
{
    let written = design(alloc, u64::from(arguments.seed), arguments.procs)?;
    let (text, inputs) = written;
    let checked = read_text_made(alloc, text.as_str())?;
    Ok(Made {
        design: checked,
        inputs,
    })
}

/// The checked text of a text that was made. None is known that has 2^32 bytes; one that had them would count as one for which memory is wanting.
fn read_text_made<'a>(alloc: Global, text: &str) -> Result<Design, Refusal<'a>>
    ensures reads { IfOk result (λ design. IsDesignRead gen_name None text.now design) }
    ensures refused { IfErr result (StopsBy (ReadsModule gen_name None text.now)) }
{
    if text.len() < 1 << 32 {
        read_design(alloc, "gen", None, text.as_bytes())
    } else {
        Err(Refusal::OutOfMemory)
    }
}

/// The lines of the runs of a checked text over these words. None is known whose network doesn't take them; one of which that were so would count
/// as one for which memory is wanting.
pub fn source_lines<R: Threads + Wait + Sync, G: Gate + Sync>(
    rt: &R,
    alloc: Global,
    design: &Design,
    inputs: &Inputs,
    gate: &G,
) -> Result<SourceLines, AllocError>
    requires design { IsOfAccepted design.now }
    ensures { IfOk result (λ lines. (m : Module) → IsMadeOfText m design.now → TellsSource m inputs.now.words lines) }
{
    let made = made_network(alloc, design)?;
    if takes_its_words(&made.net, inputs) {
        lines_of(rt, alloc, &made.net, made.bodies.as_slice(), inputs, gate)
    } else {
        Err(AllocError)
    }
}

/// The lines of the runs of a network.
fn lines_of<B: Body + Sync, R: Threads + Wait + Sync, G: Gate + Sync>(
    rt: &R,
    alloc: Global,
    net: &Net,
    bodies: &[B],
    inputs: &Inputs,
    gate: &G,
) -> Result<SourceLines, AllocError>
    requires net { IsNet net.now }
    requires bodies { AreBehaviorsOf net.now (map B.behavior bodies.now) }
    requires inputs { IsInputs net.now inputs.now.words }
    ensures { IfOk result (λ lines. TellsNetwork inputs.now.words net.now (map B.behavior bodies.now) lines) }
{
    let told = told_alone(alloc, Level::Dslx, net, bodies, inputs)?;
    let threads = line_by_workers(rt, alloc, net, bodies, inputs, gate)?;
    Ok(SourceLines {
        dslx: told.line,
        threads,
    })
}

/// The package of a checked text.
pub fn lowered<'a>(alloc: Global, design: Design) -> Result<Package, Refusal<'a>>
    requires { IsOfAccepted design }
    ensures gives { IfOk result (λ ir. (m : Module) → IsMadeOfText m design → LowersModule m None (Ok ir)) }
    ensures verified { IfOk result (λ ir. IsVerified ir) }
    ensures refused { IfErr result (λ refused. (m : Module) → IsMadeOfText m design → StopsBy (OfText gen_name (LowersModule m None)) refused) }
{
    dslx_elab::runs::accepted_texts_run();
    ir_lower::packages_mean_the_text();
    match lower(alloc, &design) {
        Ok(ir) => Ok(ir),
        Err(error) => Err(Refusal::of_text("gen", error)),
    }
}
