//! A worker over the trace of an input. The board that reads it lives no longer than the worker's run, so that the closing
//! line is put on the output itself.
ghost use Rattle.std.specs.Prelude.{◌≡◌, ◌≤◌, None, IfOk};
ghost use Rattle.rws_board.specs.Faults.{Rises};
ghost use Rattle.rws_config.specs.Allowed.{IsAllowed};
ghost use Rattle.rws_select.specs.Choice.{HasScorer};
ghost use Rattle.rws_top.specs.Trace.{AnswersTrace, closing, settings_of};
ghost use Rattle.rws_top.specs.Tracing.{EndsSo, PutsClosing, board_over, end_of};
ghost use Rattle.rws_trace.specs.ScriptBoards.{ScriptDid};
ghost use Rattle.rws_trace.specs.ScriptState.{state_of};
ghost use Rattle.rws_worker.specs.Working.{Works};

use rws_board::{Failed, Sink, Source};
use rws_config::Config;
use rws_pool::PoolWords;
use rws_select::{Load, Selector};
use rws_trace::{EventReader, ScriptBoard, Side, TraceSettings, bad_line, end_line};
use rws_wire::Text;
use rws_worker::{WorkEnd, work_here};
use std::alloc::{AllocError, Global};

/// How the trace of an input ended.
#[derive(Clone, Copy)]
pub(crate) enum TraceEnd {
    /// Its script is over behind so many events: at the end of the input, or at a bad line.
    Closes { events: u64, bad_line: Option<u64> },
    /// The input failed.
    Unread,
    /// The output failed.
    Unwritten,
    TooMany,
    OutOfMemory,
}

/// Runs a worker over the trace of the input, and gives the program's exit status.
pub(crate) fn trace<I: Source, O: Sink, F: Fn(&Load) -> u64 + Sync>(
    alloc: Global,
    config: &Config,
    input: &mut I,
    out: &mut O,
    selector: &Selector<F>,
) -> u8
    requires allowed { IsAllowed config.now }
    requires scorer { HasScorer F.Fn selector.now }
    ensures { AnswersTrace config.now (I.left input.old) (I.left input.new) (O.taken out.old) (O.taken out.new)
        (Rises (I.faults input.old) (I.faults input.new)) (Rises (O.faults out.old) (O.faults out.new)) result }
{
    match run_script(alloc, config, input, out, selector) {
        TraceEnd::Closes { events, bad_line } => close(alloc, events, bad_line, out),
        TraceEnd::Unread => 4,
        TraceEnd::Unwritten => 5,
        TraceEnd::TooMany => 10,
        TraceEnd::OutOfMemory => 9,
    }
}

/// Runs a worker over the script of the input, and puts all but the closing line.
fn run_script<I: Source, O: Sink, F: Fn(&Load) -> u64 + Sync>(
    alloc: Global,
    config: &Config,
    input: &mut I,
    out: &mut O,
    selector: &Selector<F>,
) -> TraceEnd
    requires allowed { IsAllowed config.now }
    requires scorer { HasScorer F.Fn selector.now }
    ensures ends { EndsSo config.now (I.left input.old) (I.left input.new) (O.taken out.old) (O.taken out.new)
        (Rises (I.faults input.old) (I.faults input.new)) (Rises (O.faults out.old) (O.faults out.new)) result }
    ensures kept { O.faults out.old ≤ O.faults out.new }
{
    let mut reader = match EventReader::new(alloc, trace_settings(config)) {
        Ok(reader) => reader,
        Err(AllocError) => return TraceEnd::OutOfMemory,
    };
    let (end, failed) = work_over(alloc, config, &mut reader, input, out, selector);
    trace_end(end, failed, &reader)
}

/// Runs a worker over a board that is lent these three, and tells which side failed.
fn work_over<I: Source, O: Sink, F: Fn(&Load) -> u64 + Sync>(
    alloc: Global,
    config: &Config,
    reader: &mut EventReader,
    input: &mut I,
    out: &mut O,
    selector: &Selector<F>,
) -> (WorkEnd, Option<Side>)
    requires allowed { IsAllowed config.now }
    requires scorer { HasScorer F.Fn selector.now }
    ensures works { Works config.now (ScriptDid (board_over I.left I.faults O.taken O.faults reader.old input.old out.old None)
        (board_over I.left I.faults O.taken O.faults reader.new input.new out.new result.1)) result.0 }
{
    let mut board = ScriptBoard::new(alloc, reader, input, out);
    let end = work_on(alloc, config, &mut board, selector);
    (end, board.failed())
}

/// Runs a worker over the board, which afterwards holds what it was lent, and over new words of a pool.
fn work_on<I: Source, O: Sink, F: Fn(&Load) -> u64 + Sync>(
    alloc: Global,
    config: &Config,
    board: &mut ScriptBoard<'_, I, O>,
    selector: &Selector<F>,
) -> WorkEnd
    requires allowed { IsAllowed config.now }
    requires scorer { HasScorer F.Fn selector.now }
    ensures reader { board.new.reader.ghost_name ≡ board.old.reader.ghost_name }
    ensures input { board.new.input.ghost_name ≡ board.old.input.ghost_name }
    ensures out { board.new.out.ghost_name ≡ board.old.out.ghost_name }
    ensures works { Works config.now (ScriptDid (state_of I.left I.faults O.taken O.faults board.old)
        (state_of I.left I.faults O.taken O.faults board.new)) result }
{
    let mut words = PoolWords::new(config.gtid_domain);
    work_here(alloc, board, &mut words, config, selector)
}

/// How the trace ended, from how the worker's work did.
fn trace_end(end: WorkEnd, failed: Option<Side>, reader: &EventReader) -> TraceEnd
    ensures { result ≡ end_of end failed reader.now.place.events reader.now.place.bad_line }
{
    match end {
        WorkEnd::Ended => TraceEnd::Closes {
            events: reader.events(),
            bad_line: reader.bad_line(),
        },
        WorkEnd::BoardFailed => match failed {
            Some(Side::Input) => TraceEnd::Unread,
            Some(Side::Output) => TraceEnd::Unwritten,
            None => TraceEnd::Unwritten,
        },
        WorkEnd::TooMany => TraceEnd::TooMany,
        WorkEnd::OutOfMemory => TraceEnd::OutOfMemory,
    }
}

/// What the lines of a trace are read by with these settings.
fn trace_settings(config: &Config) -> TraceSettings
    requires { IsAllowed config.now }
    ensures { result ≡ settings_of config.now }
{
    TraceSettings {
        servers: config.servers.len() as u8,
        plain: config
            .accounts
            .as_slice()
            .first()
            .is_some_and(|account| account.stored.is_none()),
    }
}

/// Puts the line that closes the trace of a script, and gives the status.
fn close<O: Sink>(alloc: Global, events: u64, bad: Option<u64>, out: &mut O) -> u8
    ensures { PutsClosing (O.taken out.old) (O.taken out.new) events bad (Rises (O.faults out.old) (O.faults out.new)) result }
{
    let line = match closing_line(alloc, events, bad) {
        Ok(line) => line,
        Err(AllocError) => return 9,
    };
    match out.put(line.as_slice()) {
        Ok(()) => if bad.is_some() { 7 } else { 0 },
        Err(Failed) => 5,
    }
}

/// The line that closes the trace of a script of so many events, which may have stopped at a bad line.
fn closing_line(alloc: Global, events: u64, bad: Option<u64>) -> Result<Text, AllocError>
    ensures { IfOk result (λ line. line ≡ closing events bad) }
{
    match bad {
        Some(line) => bad_line(alloc, line),
        None => end_line(alloc, events),
    }
}
