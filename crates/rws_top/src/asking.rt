//! What the words of the command line ask for. They are the table's or they aren't: there is no other reading of them.
ghost use Rattle.std.specs.Prelude.{◌≡◌, map, string_bytes};
ghost use Rattle.rws_top.specs.Asking.{asks, trace_with};
ghost use Rattle.rws_top.specs.Words.{asked_for};

/// What the program is asked for.
#[derive(Clone, Copy)]
pub(crate) enum Asked<'a> {
    /// `trace -`: the trace of the input, with the built-in settings.
    BuiltInTrace,
    /// `trace PATH`: the same with the settings of this file.
    FileTrace(&'a str),
    /// `--help`.
    Help,
    /// Other words, or none.
    Nothing,
}

/// What these words ask for, the program's name not among them.
pub(crate) fn read_words(words: &[String]) -> Asked<'_>
    ensures { asked_for result ≡ asks (map string_bytes words.now) }
{
    match words {
        [word] => {
            if word.as_str() == "--help" {
                return Asked::Help;
            }
            Asked::Nothing
        }
        [command, settings] => {
            if command.as_str() == "trace" {
                return trace_with(settings.as_str());
            }
            Asked::Nothing
        }
        _ => Asked::Nothing,
    }
}

/// The trace with these settings.
fn trace_with(settings: &str) -> Asked<'_>
    ensures { asked_for result ≡ trace_with settings.now }
{
    if settings == "-" {
        return Asked::BuiltInTrace;
    }
    Asked::FileTrace(settings)
}
