//! A trace with the settings of a file.
ghost use Rattle.std.specs.Prelude.{◌≡◌, ℕ, List, Err, IfOk};
ghost use Rattle.rws_board.specs.Faults.{Rises};
ghost use Rattle.rws_config.specs.Settings.{Gives, settings_of};
ghost use Rattle.rws_select.specs.Choice.{HasScorer};
ghost use Rattle.rws_top.specs.Asking.{AnswersFile, AnswersLine, RefusesSettings, settings_line};
ghost use Rattle.rws_top.specs.Words.{is_memory};

use crate::trace::trace;
use rws_board::{Failed, FileFault, Files, Sink, Source};
use rws_config::{ConfigFault, fault_text, read};
use rws_select::{Load, Selector};
use rws_wire::Text;
use std::alloc::{AllocError, Global};

/// Reads the settings of the file at this path, and runs the trace of the input with them.
pub(crate) fn trace_with<I: Source, O: Sink, D: Files, F: Fn(&Load) -> u64 + Sync>(
    alloc: Global,
    path: &str,
    input: &mut I,
    out: &mut O,
    files: &mut D,
    selector: &Selector<F>,
) -> u8
    requires scorer { HasScorer F.Fn selector.now }
    ensures { AnswersFile path.now (D.files files.old) (I.left input.old) (I.left input.new) (O.taken out.old) (O.taken out.new)
        (Rises (I.faults input.old) (I.faults input.new)) (Rises (D.faults files.old) (D.faults files.new))
        (Rises (O.faults out.old) (O.faults out.new)) result }
{
    let text = match files.read(alloc, path) {
        Ok(text) => text,
        Err(FileFault::Failed) => return 4,
        Err(FileFault::OutOfMemory) => return 9,
    };
    match read(alloc, text.as_slice()) {
        Ok(config) => trace(alloc, &config, input, out, selector),
        Err(fault) => refuse(alloc, fault, out),
    }
}

/// Says why the settings are refused, and gives the status.
fn refuse<O: Sink>(alloc: Global, fault: ConfigFault, out: &mut O) -> u8
    ensures { (text : List ℕ) → Gives (Err fault) (settings_of text)
        → RefusesSettings text (O.taken out.old) (O.taken out.new) (Rises (O.faults out.old) (O.faults out.new)) result }
{
    if is_memory(&fault) {
        return 9;
    }
    match settings_line(alloc, &fault) {
        Ok(line) => print_refusal(&line, out),
        Err(AllocError) => 9,
    }
}

/// Prints why the settings are refused.
fn print_refusal<O: Sink>(line: &Text, out: &mut O) -> u8
    ensures { AnswersLine line.now 3 (O.taken out.old) (O.taken out.new) (Rises (O.faults out.old) (O.faults out.new)) result }
{
    match out.put(line.as_slice()) {
        Ok(()) => 3,
        Err(Failed) => 5,
    }
}

/// Memory was wanting for the settings, which says nothing of them.
fn is_memory(fault: &ConfigFault) -> bool
    ensures { result ≡ is_memory fault.now }
{
    matches!(fault, ConfigFault::OutOfMemory)
}

/// The line that says why settings are refused.
fn settings_line(alloc: Global, fault: &ConfigFault) -> Result<Text, AllocError>
    ensures { IfOk result (λ line. line ≡ settings_line fault.now) }
{
    let fault = fault_text(alloc, fault)?;
    let mut line = Text::from_slice(alloc, b"settings: ")?;
    line.extend_from_slice(fault.as_slice())?;
    line.extend_from_slice(b"\n")?;
    Ok(line)
}
