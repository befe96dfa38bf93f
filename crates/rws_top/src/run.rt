//! The top call.
ghost use Rattle.std.specs.Prelude.{◌≡◌, map, string_bytes};
ghost use Rattle.rws_board.specs.Faults.{Rises};
ghost use Rattle.rws_config.specs.BuiltIn.{built_in};
ghost use Rattle.rws_select.specs.Choice.{HasScorer, IsScorer};
ghost use Rattle.rws_top.specs.Asking.{Answers, AnswersLine, asks};
ghost use Rattle.rws_top.specs.Trace.{AnswersTrace};
ghost use Rattle.rws_trace.specs.Printing.{usage_line};

use crate::asking::{Asked, read_words};
use crate::settings::trace_with;
use crate::trace::trace;
use rws_board::{Failed, Files, Sink, Source};
use rws_config::built_in;
use rws_select::{Load, Selector};
use rws_trace::usage_line;
use std::alloc::{AllocError, Global};

/// Runs the program on the words of its command line, without the program's name, and gives its exit status. The words
/// `trace SETTINGS` run a worker over the trace that the input holds, with the settings of a file, or with the built-in ones
/// where SETTINGS is `-`. `--help` and all other words are answered by the usage line, which takes no memory. `score` says which
/// of two replicas is the busier one.
/// docs/TRACE.md lists what each status means.
pub fn run_here<I: Source, O: Sink, D: Files, F: Fn(&Load) -> u64 + Sync>(
    alloc: Global,
    words: &[String],
    input: &mut I,
    out: &mut O,
    files: &mut D,
    score: F,
) -> u8
    requires scorer { IsScorer F.Fn score }
    ensures answers { Answers (asks (map string_bytes words.now)) (D.files files.old) (I.left input.old) (I.left input.new)
        (O.taken out.old) (O.taken out.new) (Rises (I.faults input.old) (I.faults input.new))
        (Rises (D.faults files.old) (D.faults files.new)) (Rises (O.faults out.old) (O.faults out.new)) result }
{
    let selector = Selector::new(score);
    match read_words(words) {
        Asked::BuiltInTrace => trace_built_in(alloc, input, out, &selector),
        Asked::FileTrace(path) => trace_with(alloc, path, input, out, files, &selector),
        Asked::Help => print_usage(out, 0),
        Asked::Nothing => print_usage(out, 2),
    }
}

/// The trace with the built-in settings.
fn trace_built_in<I: Source, O: Sink, F: Fn(&Load) -> u64 + Sync>(
    alloc: Global,
    input: &mut I,
    out: &mut O,
    selector: &Selector<F>,
) -> u8
    requires scorer { HasScorer F.Fn selector.now }
    ensures { AnswersTrace built_in (I.left input.old) (I.left input.new) (O.taken out.old) (O.taken out.new)
        (Rises (I.faults input.old) (I.faults input.new)) (Rises (O.faults out.old) (O.faults out.new)) result }
{
    match built_in(alloc) {
        Ok(config) => trace(alloc, &config, input, out, selector),
        Err(AllocError) => 9,
    }
}

/// Says how the program is called, with this status.
fn print_usage<O: Sink>(out: &mut O, status: u8) -> u8
    ensures { AnswersLine usage_line status (O.taken out.old) (O.taken out.new) (Rises (O.faults out.old) (O.faults out.new)) result }
{
    match out.put(usage_line()) {
        Ok(()) => status,
        Err(Failed) => 5,
    }
}
