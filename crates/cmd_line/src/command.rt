ghost use Rattle.std.specs.Prelude.{◌≡◌, IfOk, false, codes};
ghost use Rattle.clap.specs.Words.{App, Rule, app_of, new_app, rule_of, with_rule, with_subcommand as with_app};
ghost use Rattle.clap.specs.declared.builder.Command.TheViews.{out-Command as fields_of};
ghost use Rattle.cmd_line.specs.CommandLine.{activations, check, clock, depth, file, from, generate, interval, ir, opt, option, plain_run, procs, run, schedule, scheduling, seed, sim, stages, top, verilog, workers, xls};

use clap::{Arg, Command, value_parser};
use std::alloc::{AllocError, Global};

/// The command line as `clap` reads it.
pub fn command<'a>(alloc: Global) -> Result<Command<'a>, AllocError>
    ensures { IfOk result (λ command. app_of command ≡ xls) }
{
    let xls = Ok(Command::new(alloc, "xls").no_binary_name(true));
    let xls = with_subcommand(xls, check(alloc));
    let xls = with_subcommand(xls, run(alloc));
    let xls = with_subcommand(xls, sim(alloc));
    let xls = with_subcommand(xls, schedule(alloc));
    let xls = with_subcommand(xls, opt(alloc));
    let xls = with_subcommand(xls, verilog(alloc));
    let xls = with_subcommand(xls, ir(alloc));
    with_subcommand(xls, generate(alloc))
}

/// What was built, with a subcommand more, where there was memory for both.
fn with_subcommand<'a>(
    built: Result<Command<'a>, AllocError>,
    subcommand: Result<Command<'a>, AllocError>,
) -> Result<Command<'a>, AllocError>
    ensures { (app : App) (sub : App) → IfOk built.entry (λ command. app_of command ≡ app) →
        IfOk subcommand.entry (λ command. app_of command ≡ sub) →
        IfOk subcommand.entry (λ command. (fields_of command).has_globals ≡ false) →
        IfOk result (λ command. app_of command ≡ with_app app sub.top) }
{
    match built {
        Ok(command) => match subcommand {
            Ok(subcommand) => command.subcommand(subcommand),
            Err(error) => Err(error),
        },
        Err(error) => Err(error),
    }
}

/// What was built, with an argument more, where there was memory for it.
///
/// Each function below is a chain of these, so that it never lets a half-built command go.
fn with_arg<'a>(
    built: Result<Command<'a>, AllocError>,
    arg: Arg<'a>,
) -> Result<Command<'a>, AllocError>
    ensures app { (app : App) (rule : Rule) → IfOk built.entry (λ command. app_of command ≡ app) →
        rule_of arg.entry ≡ rule → arg.entry.global ≡ false →
        IfOk result (λ command. app_of command ≡ with_rule app rule) }
    ensures local { IfOk built.entry (λ command. (fields_of command).has_globals ≡ false) → arg.entry.global ≡ false →
        IfOk result (λ command. (fields_of command).has_globals ≡ false) }
{
    match built {
        Ok(command) => command.arg(arg),
        Err(error) => Err(error),
    }
}

fn check<'a>(alloc: Global) -> Result<Command<'a>, AllocError>
    ensures app { IfOk result (λ command. app_of command ≡ check) }
    ensures local { IfOk result (λ command. (fields_of command).has_globals ≡ false) }
{
    let built = of_design(alloc, "check");
    with_arg(built, top(alloc))
}

fn run<'a>(alloc: Global) -> Result<Command<'a>, AllocError>
    ensures app { IfOk result (λ command. app_of command ≡ run) }
    ensures local { IfOk result (λ command. (fields_of command).has_globals ≡ false) }
{
    let built = plain_run(alloc);
    let built = with_arg(built, workers(alloc));
    let built = with_arg(built, depth(alloc));
    let built = with_arg(built, from(alloc));
    with_arg(built, top(alloc))
}

/// What each run has.
fn plain_run<'a>(alloc: Global) -> Result<Command<'a>, AllocError>
    ensures app { IfOk result (λ command. app_of command ≡ plain_run) }
    ensures local { IfOk result (λ command. (fields_of command).has_globals ≡ false) }
{
    let built = of_design(alloc, "run");
    let built = with_arg(built, file(alloc, "inputs"));
    with_arg(built, activations(alloc))
}

fn sim<'a>(alloc: Global) -> Result<Command<'a>, AllocError>
    ensures app { IfOk result (λ command. app_of command ≡ sim) }
    ensures local { IfOk result (λ command. (fields_of command).has_globals ≡ false) }
{
    let built = of_design(alloc, "sim");
    with_arg(built, file(alloc, "rows"))
}

fn schedule<'a>(alloc: Global) -> Result<Command<'a>, AllocError>
    ensures app { IfOk result (λ command. app_of command ≡ schedule) }
    ensures local { IfOk result (λ command. (fields_of command).has_globals ≡ false) }
{
    let built = scheduling(alloc, "schedule");
    let built = with_arg(built, from(alloc));
    with_arg(built, top(alloc))
}

fn verilog<'a>(alloc: Global) -> Result<Command<'a>, AllocError>
    ensures app { IfOk result (λ command. app_of command ≡ verilog) }
    ensures local { IfOk result (λ command. (fields_of command).has_globals ≡ false) }
{
    let built = scheduling(alloc, "verilog");
    let built = with_arg(built, depth(alloc));
    let built = with_arg(built, from(alloc));
    with_arg(built, top(alloc))
}

/// A subcommand whose words name a file and say what its schedules must keep to.
fn scheduling<'a>(alloc: Global, name: &'a str) -> Result<Command<'a>, AllocError>
    ensures app { IfOk result (λ command. app_of command ≡ scheduling name.entry.now) }
    ensures local { IfOk result (λ command. (fields_of command).has_globals ≡ false) }
{
    let built = of_design(alloc, name);
    let built = with_arg(built, clock(alloc));
    let built = with_arg(built, stages(alloc));
    with_arg(built, interval(alloc))
}

fn opt<'a>(alloc: Global) -> Result<Command<'a>, AllocError>
    ensures app { IfOk result (λ command. app_of command ≡ opt) }
    ensures local { IfOk result (λ command. (fields_of command).has_globals ≡ false) }
{
    let built = of_design(alloc, "opt");
    let built = with_arg(built, from(alloc));
    with_arg(built, top(alloc))
}

fn ir<'a>(alloc: Global) -> Result<Command<'a>, AllocError>
    ensures app { IfOk result (λ command. app_of command ≡ ir) }
    ensures local { IfOk result (λ command. (fields_of command).has_globals ≡ false) }
{
    let built = of_design(alloc, "ir");
    with_arg(built, top(alloc))
}

fn generate<'a>(alloc: Global) -> Result<Command<'a>, AllocError>
    ensures app { IfOk result (λ command. app_of command ≡ generate) }
    ensures local { IfOk result (λ command. (fields_of command).has_globals ≡ false) }
{
    let built = Ok(Command::new(alloc, "gen"));
    let built = with_arg(built, seed(alloc));
    with_arg(built, procs(alloc))
}

/// A subcommand whose first word is the design's file.
fn of_design<'a>(alloc: Global, name: &'a str) -> Result<Command<'a>, AllocError>
    ensures app { IfOk result (λ command. app_of command ≡ with_rule (new_app name.entry.now) (file (codes "design"))) }
    ensures local { IfOk result (λ command. (fields_of command).has_globals ≡ false) }
{
    Command::new(alloc, name).arg(file(alloc, "design"))
}

/// The name of a file, a positional argument.
fn file<'a>(alloc: Global, id: &'a str) -> Arg<'a>
    ensures rule { rule_of result ≡ file id.entry.now }
    ensures local { result.global ≡ false }
{
    Arg::new(alloc, id).required(true)
}

/// An option that need not stand, with a value behind it.
fn option<'a>(alloc: Global, name: &'a str) -> Arg<'a>
    ensures rule { rule_of result ≡ option name.entry.now }
    ensures local { result.global ≡ false }
{
    Arg::new(alloc, name).long(name)
}

/// `--workers W`
fn workers<'a>(alloc: Global) -> Arg<'a>
    ensures rule { rule_of result ≡ workers }
    ensures local { result.global ≡ false }
{
    option(alloc, "workers").value_parser(value_parser!(u32).range(1..=16))
}

/// `--depth D`
fn depth<'a>(alloc: Global) -> Arg<'a>
    ensures rule { rule_of result ≡ depth }
    ensures local { result.global ≡ false }
{
    option(alloc, "depth").value_parser(value_parser!(u32).range(1..=4_096))
}

/// `--top NAME`
fn top<'a>(alloc: Global) -> Arg<'a>
    ensures rule { rule_of result ≡ top }
    ensures local { result.global ≡ false }
{
    option(alloc, "top")
}

/// `--from F`
fn from<'a>(alloc: Global) -> Arg<'a>
    ensures rule { rule_of result ≡ from }
    ensures local { result.global ≡ false }
{
    option(alloc, "from")
}

/// `--clock PS`
fn clock<'a>(alloc: Global) -> Arg<'a>
    ensures rule { rule_of result ≡ clock }
    ensures local { result.global ≡ false }
{
    Arg::new(alloc, "clock")
        .long("clock")
        .required(true)
        .value_parser(value_parser!(u32).range(1..=1_000_000))
}

/// `--stages N`
fn stages<'a>(alloc: Global) -> Arg<'a>
    ensures rule { rule_of result ≡ stages }
    ensures local { result.global ≡ false }
{
    option(alloc, "stages").value_parser(value_parser!(u32).range(1..=64))
}

/// `--ii N`
fn interval<'a>(alloc: Global) -> Arg<'a>
    ensures rule { rule_of result ≡ interval }
    ensures local { result.global ≡ false }
{
    option(alloc, "ii").value_parser(value_parser!(u32).range(1..=64))
}

/// `--seed S`
fn seed<'a>(alloc: Global) -> Arg<'a>
    ensures rule { rule_of result ≡ seed }
    ensures local { result.global ≡ false }
{
    Arg::new(alloc, "seed")
        .long("seed")
        .required(true)
        .value_parser(value_parser!(u32).range(0..=2_147_483_647))
}

/// `--procs K`
fn procs<'a>(alloc: Global) -> Arg<'a>
    ensures rule { rule_of result ≡ procs }
    ensures local { result.global ≡ false }
{
    Arg::new(alloc, "procs")
        .long("procs")
        .required(true)
        .value_parser(value_parser!(u32).range(1..=255))
}

/// `--activations N`
fn activations<'a>(alloc: Global) -> Arg<'a>
    ensures rule { rule_of result ≡ activations }
    ensures local { result.global ≡ false }
{
    Arg::new(alloc, "activations")
        .long("activations")
        .required(true)
        .value_parser(value_parser!(u32).range(1..=1_048_576))
}
