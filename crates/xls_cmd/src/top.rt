ghost use Rattle.std.specs.Prelude.{◌≡◌, ◌≤◌, ◌⊎◌, ℕ, List, Result, Some, IfSome, MatchOption, true, map, string_bytes};
ghost use Rattle.xb_io.specs.Counts.{HasRisen};
ghost use Rattle.xls_cmd.specs.Shared.Answered.{IsAnswered};
ghost use Rattle.xls_cmd.specs.Shared.Done.{IsDone};
ghost use Rattle.xls_cmd.specs.Shared.Events.{file_events, sink_events};
ghost use Rattle.xls_cmd.specs.Shared.Fault.{Fault as Cause};
ghost use Rattle.xls_cmd.specs.Shared.Step.{ExpectedBy};
ghost use Rattle.xls_cmd.specs.Answer.{expected, expected_of, files_of, is_settled, named_files, status_for};
ghost use Rattle.xls_cmd.specs.Run.Commands.{run_by, run_files};
ghost use Rattle.xls_cmd.specs.Workers.{IsLeftToWorkers, has_workers, is_by_workers, wants_workers};
ghost use Rattle.cmd_line.specs.Bounds.{IsInBounds};
ghost use Rattle.cmd_line.specs.Named.{named, named_run};

use crate::design::check_design;
use crate::generate::gen_levels;
use crate::laws::one_answer;
use crate::lowered::ir_design;
use crate::opt::opt_file;
use crate::run::{run_file, run_file_alone};
use crate::schedule::schedule_file;
use crate::shared::{Fault, Refusal, respond};
use crate::sim::sim_design;
use crate::verilog::verilog_file;
use cmd_line::{Request, Run, read_words};
use std::alloc::Global;
use std::sync::Wait;
use std::thread::Threads;
use xb_io::{Files, Gate, Sink};

/// What the program does, from its words (without its own name) to its status.
///
/// The output goes to `out`, in one piece that is built before it is put; a line that says why there is none goes to
/// `err`, and never changes the status. What takes no workers is answered by [`answer_alone`], so it ends; a run by several workers
/// takes a thread for each, and `gate` is called before each of their turns; so does `gen`, by four.
pub fn xls_main<R: Threads + Wait + Sync, F: Files, O: Sink, E: Sink, G: Gate + Sync>(
    rt: &R,
    alloc: Global,
    words: &[String],
    files: &mut F,
    out: &mut O,
    err: &mut E,
    gate: &G,
) -> u8
    ensures answered { let texts = map string_bytes words.now in
        IsAnswered (expected texts (F.told files.old)) (named_files texts)
        (file_events F.asked F.faults F.taken files.old files.new)
        (sink_events O.written O.faults out.old out.new)
        (sink_events E.written E.faults err.old err.new) result }

    // So what is expected is answered, but for want of memory, where no fault was counted, and where the package isn't chosen.
    ensures complete { IfSome (F.told files.old) (λ holds. (given : Result (List ℕ) Cause) → is_settled (map string_bytes words.now) ≡ true → expected (map string_bytes words.now) (Some holds) given →
        ¬ HasRisen (F.faults files.old) (F.faults files.new) → ¬ HasRisen (O.faults out.old) (O.faults out.new) →
        (result ≡ status_for given) ⊎ (result ≡ 3)) }
{
    match answer_alone(alloc, words, files, out, err) {
        Some(status) => status,
        None => answer(rt, alloc, words, files, out, err, gate),
    }
}

/// [`xls_main`] of all words but those of a run by two or more workers and of `gen`; these alone are `None`, and nothing is asked for or put then. It
/// has no right to wait, so it ends.
pub fn answer_alone<F: Files, O: Sink, E: Sink>(
    alloc: Global,
    words: &[String],
    files: &mut F,
    out: &mut O,
    err: &mut E,
) -> Option<u8>
    ensures answered { let texts = map string_bytes words.now in
        MatchOption result (IsLeftToWorkers texts (files.new ≡ files.old) (out.new ≡ out.old) (err.new ≡ err.old))
        (λ status. IsAnswered (expected texts (F.told files.old)) (named_files texts)
        (file_events F.asked F.faults F.taken files.old files.new)
        (sink_events O.written O.faults out.old out.new)
        (sink_events E.written E.faults err.old err.new) status) }
    ensures complete { IfSome result (λ status. IfSome (F.told files.old) (λ holds. (given : Result (List ℕ) Cause) → is_settled (map string_bytes words.now) ≡ true → expected (map string_bytes words.now) (Some holds) given →
        ¬ HasRisen (F.faults files.old) (F.faults files.new) → ¬ HasRisen (O.faults out.old) (O.faults out.new) →
        (status ≡ status_for given) ⊎ (status ≡ 3))) }
{
    one_answer();
    match execute_alone(alloc, words, files) {
        Some(given) => Some(respond(given, out, err)),
        None => None,
    }
}

/// [`xls_main`], by as many workers as the words say.
fn answer<R: Threads + Wait + Sync, F: Files, O: Sink, E: Sink, G: Gate + Sync>(
    rt: &R,
    alloc: Global,
    words: &[String],
    files: &mut F,
    out: &mut O,
    err: &mut E,
    gate: &G,
) -> u8
    ensures answered { let texts = map string_bytes words.now in
        IsAnswered (expected texts (F.told files.old)) (named_files texts)
        (file_events F.asked F.faults F.taken files.old files.new)
        (sink_events O.written O.faults out.old out.new)
        (sink_events E.written E.faults err.old err.new) result }
    ensures complete { IfSome (F.told files.old) (λ holds. (given : Result (List ℕ) Cause) → is_settled (map string_bytes words.now) ≡ true → expected (map string_bytes words.now) (Some holds) given →
        ¬ HasRisen (F.faults files.old) (F.faults files.new) → ¬ HasRisen (O.faults out.old) (O.faults out.new) →
        (result ≡ status_for given) ⊎ (result ≡ 3)) }
{
    one_answer();
    let given = execute(rt, alloc, words, files, gate);
    respond(given, out, err)
}

/// The output of the command that the words say, unless that is a run by two or more workers or `gen`.
fn execute_alone<'a, F: Files>(
    alloc: Global,
    words: &'a [String],
    files: &mut F,
) -> Option<Result<Vec<u8>, Refusal<'a>>>
    ensures { let texts = map string_bytes words.entry.now in
        MatchOption result (wants_workers texts ≡ true × (files.new ≡ files.old))
        (IsDone (λ text. text.items) (expected texts (F.told files.old)) (named_files texts)
        (file_events F.asked F.faults F.taken files.old files.new)) }
{
    match read_words(alloc, words) {
        Ok(Some(arguments)) => requested_alone(alloc, files, arguments),
        Ok(None) => Some(Err(Refusal::Fault(Fault::Usage))),
        Err(_) => Some(Err(Refusal::OutOfMemory)),
    }
}

/// The output of a command, unless that is a run by two or more workers or `gen`.
fn requested_alone<'a, F: Files>(
    alloc: Global,
    files: &mut F,
    arguments: Request<&'a str>,
) -> Option<Result<Vec<u8>, Refusal<'a>>>
    requires bounds { IsInBounds arguments }
    ensures { MatchOption result (is_by_workers (named arguments.entry) ≡ true × (files.new ≡ files.old))
        (IsDone (λ text. text.items) (expected_of (named arguments.entry) (F.told files.old)) (files_of (named arguments.entry))
        (file_events F.asked F.faults F.taken files.old files.new)) }
{
    match arguments {
        Request::Check(arguments) => Some(check_design(alloc, files, arguments)),
        Request::Run(arguments) => run_alone(alloc, files, arguments),
        Request::Sim(arguments) => Some(sim_design(alloc, files, arguments)),
        Request::Schedule(arguments) => Some(schedule_file(alloc, files, arguments)),
        Request::Opt(arguments) => Some(opt_file(alloc, files, arguments)),
        Request::Verilog(arguments) => Some(verilog_file(alloc, files, arguments)),
        Request::Ir(arguments) => Some(ir_design(alloc, files, arguments)),
        Request::Gen(_) => None,
    }
}

/// The output of a run by one worker.
fn run_alone<'a, F: Files>(
    alloc: Global,
    files: &mut F,
    arguments: Run<&'a str>,
) -> Option<Result<Vec<u8>, Refusal<'a>>>
    ensures { MatchOption result (has_workers (named_run arguments.entry) ≡ true × (files.new ≡ files.old))
        (IsDone (λ text. text.items) (ExpectedBy (F.told files.old) (λ holds. run_by arguments.entry.how.source holds (named_run arguments.entry))) (run_files (named_run arguments.entry))
        (file_events F.asked F.faults F.taken files.old files.new)) }
{
    if arguments.how.workers > 1 {
        None
    } else {
        Some(run_file_alone(alloc, files, arguments))
    }
}

/// The output of the command that the words say.
fn execute<'a, R: Threads + Wait + Sync, F: Files, G: Gate + Sync>(
    rt: &R,
    alloc: Global,
    words: &'a [String],
    files: &mut F,
    gate: &G,
) -> Result<Vec<u8>, Refusal<'a>>
    ensures { let texts = map string_bytes words.entry.now in
        IsDone (λ text. text.items) (expected texts (F.told files.old)) (named_files texts)
        (file_events F.asked F.faults F.taken files.old files.new) result }
{
    match read_words(alloc, words) {
        Ok(Some(arguments)) => requested(rt, alloc, files, arguments, gate),
        Ok(None) => Err(Refusal::Fault(Fault::Usage)),
        Err(_) => Err(Refusal::OutOfMemory),
    }
}

/// The output of a command.
fn requested<'a, R: Threads + Wait + Sync, F: Files, G: Gate + Sync>(
    rt: &R,
    alloc: Global,
    files: &mut F,
    arguments: Request<&'a str>,
    gate: &G,
) -> Result<Vec<u8>, Refusal<'a>>
    requires bounds { IsInBounds arguments }
    ensures { IsDone (λ text. text.items) (expected_of (named arguments.entry) (F.told files.old)) (files_of (named arguments.entry))
        (file_events F.asked F.faults F.taken files.old files.new) result }
{
    match arguments {
        Request::Check(arguments) => check_design(alloc, files, arguments),
        Request::Run(arguments) => run_file(rt, alloc, files, arguments, gate),
        Request::Sim(arguments) => sim_design(alloc, files, arguments),
        Request::Schedule(arguments) => schedule_file(alloc, files, arguments),
        Request::Opt(arguments) => opt_file(alloc, files, arguments),
        Request::Verilog(arguments) => verilog_file(alloc, files, arguments),
        Request::Ir(arguments) => ir_design(alloc, files, arguments),
        Request::Gen(arguments) => gen_levels(rt, alloc, arguments, gate),
    }
}
