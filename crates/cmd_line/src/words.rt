ghost use Rattle.std.specs.Prelude.{◌≡◌, ◌≤◌, IfOk, IfSome, Option, map, option_map, option_and_then, string_bytes};
ghost use Rattle.std.specs.Option.{option_copied};
ghost use Rattle.clap.specs.Words.{first_of, found_of, rows_of, subcommand_rows_of};
ghost use Rattle.cmd_line.specs.CommandLine.{depth_in, most_in, arguments_of, check_arguments, gen_arguments, ir_arguments, opt_arguments, run_arguments, schedule_arguments, sim_arguments, subcommand_arguments, how_arguments, timing_arguments, top_in, source_in, verilog_arguments, workers_in};
ghost use Rattle.cmd_line.specs.Named.{named, named_check, named_ir, named_opt, named_run, named_schedule, named_sim, named_verilog};
ghost use Rattle.cmd_line.specs.Bounds.{IsGenInBounds, IsInBounds, IsWorkerCount};

use crate::command::command;
use crate::number::read_number;
use crate::request::{
    Check, Gen, How, Ir, Opt, Request, Run, Schedule, Sim, Source, Timing, Verilog,
};
use clap::ArgMatches;
use clap::error::ErrorKind;
use std::alloc::{AllocError, Global};

/// What the words say; `None` where they say nothing.
pub fn read_words<'a>(
    alloc: Global,
    words: &'a [String],
) -> Result<Option<Request<&'a str>>, AllocError>
    ensures said { IfOk result (λ said. option_map named said ≡ arguments_of (map string_bytes words.entry.now)) }
    ensures bounds { IfOk result (λ said. IfSome said IsInBounds) }
{
    match command(alloc)?.try_get_matches_from(words) {
        Ok(matches) => Ok(request(&matches)),
        Err(error) => match error.kind() {
            ErrorKind::OutOfMemory => Err(AllocError),
            _ => Ok(None),
        },
    }
}

fn request<'a>(matches: &ArgMatches<'a>) -> Option<Request<&'a str>>
    ensures said { option_map named result ≡ option_and_then subcommand_arguments (subcommand_rows_of matches.now) }
    ensures bounds { IfSome result IsInBounds }
{
    match matches.subcommand() {
        Some(("check", matches)) => Some(Request::Check(check(matches)?)),
        Some(("run", matches)) => Some(Request::Run(run(matches)?)),
        Some(("sim", matches)) => Some(Request::Sim(sim(matches)?)),
        Some(("schedule", matches)) => Some(Request::Schedule(schedule(matches)?)),
        Some(("opt", matches)) => Some(Request::Opt(opt(matches)?)),
        Some(("verilog", matches)) => Some(Request::Verilog(verilog(matches)?)),
        Some(("ir", matches)) => Some(Request::Ir(ir(matches)?)),
        Some(("gen", matches)) => Some(Request::Gen(generate(matches)?)),
        _ => None,
    }
}

fn check<'a>(matches: &ArgMatches<'a>) -> Option<Check<&'a str>>
    ensures { option_map named_check result ≡ check_arguments (rows_of (found_of matches.now)) }
{
    match text(matches, "design") {
        Some(design) => Some(Check {
            design,
            top: text(matches, "top"),
        }),
        None => None,
    }
}

fn run<'a>(matches: &ArgMatches<'a>) -> Option<Run<&'a str>>
    ensures said { option_map named_run result ≡ run_arguments (rows_of (found_of matches.now)) }
    ensures bounds { IfSome result (λ said. IsWorkerCount said.how.workers) }
{
    let Some(design) = text(matches, "design") else {
        return None;
    };
    let Some(inputs) = text(matches, "inputs") else {
        return None;
    };
    let Some(how) = how(matches) else {
        return None;
    };
    match top_of(how.source, text(matches, "top")) {
        Some(top) => Some(Run {
            design,
            inputs,
            top,
            how,
        }),
        None => None,
    }
}

/// The name of the top; `None` where one is said of an IR text.
fn top_of<'a>(source: Source, name: Option<&'a str>) -> Option<Option<&'a str>>
    ensures { option_map option_copied result ≡ top_in source (option_copied name.entry) }
{
    match source {
        Source::Dslx => Some(name),
        Source::Ir => match name {
            Some(_) => None,
            None => Some(None),
        },
    }
}

fn how(matches: &ArgMatches<'_>) -> Option<How>
    ensures said { result ≡ how_arguments (rows_of (found_of matches.now)) }
    ensures bounds { IfSome result (λ how. IsWorkerCount how.workers) }
{
    let Some(number) = text(matches, "activations") else {
        return None;
    };
    let Some(activations) = read_number(number, 1, 1_048_576) else {
        return None;
    };
    let Some(workers) = workers(text(matches, "workers")) else {
        return None;
    };
    let Some(depth) = depth(text(matches, "depth")) else {
        return None;
    };
    match source(text(matches, "from")) {
        Some(source) => Some(How {
            activations,
            workers,
            depth,
            source,
        }),
        None => None,
    }
}

fn workers(text: Option<&str>) -> Option<u32>
    ensures said { result ≡ workers_in (option_map (λ word. word.now) text.entry) }
    ensures bounds { IfSome result IsWorkerCount }
{
    match text {
        Some(number) => read_number(number, 1, 16),
        None => Some(1),
    }
}

fn depth(text: Option<&str>) -> Option<Option<u32>>
    ensures { result ≡ depth_in (option_map (λ word. word.now) text.entry) }
{
    match text {
        Some(number) => match read_number(number, 1, 4_096) {
            Some(depth) => Some(Some(depth)),
            None => None,
        },
        None => Some(None),
    }
}

fn source(text: Option<&str>) -> Option<Source>
    ensures { result ≡ source_in (option_map (λ word. word.now) text.entry) }
{
    match text {
        Some("dslx") => Some(Source::Dslx),
        Some("ir") => Some(Source::Ir),
        Some(_) => None,
        None => Some(Source::Dslx),
    }
}

fn sim<'a>(matches: &ArgMatches<'a>) -> Option<Sim<&'a str>>
    ensures { option_map named_sim result ≡ sim_arguments (rows_of (found_of matches.now)) }
{
    let Some(design) = text(matches, "design") else {
        return None;
    };
    match text(matches, "rows") {
        Some(rows) => Some(Sim { design, rows }),
        None => None,
    }
}

fn schedule<'a>(matches: &ArgMatches<'a>) -> Option<Schedule<&'a str>>
    ensures said { option_map named_schedule result ≡ schedule_arguments (rows_of (found_of matches.now)) }
    ensures bounds { IfSome result (λ said. 1 ≤ said.timing.stages) }
{
    let Some(design) = text(matches, "design") else {
        return None;
    };
    let Some(timing) = timing(matches) else {
        return None;
    };
    let Some(source) = source(text(matches, "from")) else {
        return None;
    };
    match top_of(source, text(matches, "top")) {
        Some(top) => Some(Schedule {
            design,
            top,
            timing,
            source,
        }),
        None => None,
    }
}

fn opt<'a>(matches: &ArgMatches<'a>) -> Option<Opt<&'a str>>
    ensures { option_map named_opt result ≡ opt_arguments (rows_of (found_of matches.now)) }
{
    let Some(design) = text(matches, "design") else {
        return None;
    };
    let Some(source) = source(text(matches, "from")) else {
        return None;
    };
    match top_of(source, text(matches, "top")) {
        Some(top) => Some(Opt {
            design,
            top,
            source,
        }),
        None => None,
    }
}

fn ir<'a>(matches: &ArgMatches<'a>) -> Option<Ir<&'a str>>
    ensures { option_map named_ir result ≡ ir_arguments (rows_of (found_of matches.now)) }
{
    match text(matches, "design") {
        Some(design) => {
            let top = text(matches, "top");
            Some(Ir { design, top })
        }
        None => None,
    }
}

fn verilog<'a>(matches: &ArgMatches<'a>) -> Option<Verilog<&'a str>>
    ensures said { option_map named_verilog result ≡ verilog_arguments (rows_of (found_of matches.now)) }
    ensures bounds { IfSome result (λ said. 1 ≤ said.timing.stages) }
{
    let Some(design) = text(matches, "design") else {
        return None;
    };
    let Some(timing) = timing(matches) else {
        return None;
    };
    let Some(depth) = depth(text(matches, "depth")) else {
        return None;
    };
    let Some(source) = source(text(matches, "from")) else {
        return None;
    };
    match top_of(source, text(matches, "top")) {
        Some(top) => Some(Verilog {
            design,
            top,
            timing,
            depth,
            source,
        }),
        None => None,
    }
}

fn generate(matches: &ArgMatches<'_>) -> Option<Gen>
    ensures said { result ≡ gen_arguments (rows_of (found_of matches.now)) }
    ensures bounds { IfSome result IsGenInBounds }
{
    let Some(number) = text(matches, "seed") else {
        return None;
    };
    let Some(seed) = read_number(number, 0, 2_147_483_647) else {
        return None;
    };
    let Some(number) = text(matches, "procs") else {
        return None;
    };
    match read_number(number, 1, 255) {
        Some(procs) => Some(Gen { seed, procs }),
        None => None,
    }
}

fn timing(matches: &ArgMatches<'_>) -> Option<Timing>
    ensures said { result ≡ timing_arguments (rows_of (found_of matches.now)) }
    ensures bounds { IfSome result (λ timing. 1 ≤ timing.stages) }
{
    let Some(number) = text(matches, "clock") else {
        return None;
    };
    let Some(clock) = read_number(number, 1, 1_000_000) else {
        return None;
    };
    let Some(stages) = most(text(matches, "stages")) else {
        return None;
    };
    match most(text(matches, "ii")) {
        Some(interval) => Some(Timing {
            clock,
            stages,
            interval,
        }),
        None => None,
    }
}

/// How many stages or cycles there may be: 64 where no word says it.
fn most(text: Option<&str>) -> Option<u32>
    ensures said { result ≡ most_in (option_map (λ word. word.now) text.entry) }
    ensures bounds { IfSome result (λ n. 1 ≤ n) }
{
    match text {
        Some(number) => read_number(number, 1, 64),
        None => Some(64),
    }
}

/// The text of an argument.
fn text<'a>(matches: &ArgMatches<'a>, id: &str) -> Option<&'a str>
    ensures { option_map (λ text. text.now) result ≡ first_of id.now (rows_of (found_of matches.now)) }
{
    matches.get_str(id)
}
