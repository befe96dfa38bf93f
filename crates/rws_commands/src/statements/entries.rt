//! The entries of a history, by their serials.
ghost use Rattle.std.specs.Prelude.{◌≡◌, Option};
ghost use Rattle.std.specs.Option.{option_copied};
ghost use Rattle.rws_commands.specs.Statements.{entry_from, has_serial, last_serial};

use crate::HistoryEntry;

/// The serial of the last one.
pub(crate) fn last_serial(entries: &[HistoryEntry]) -> Option<u64>
    ensures { result ≡ last_serial entries.now }
{
    match entries.last() {
        Some(entry) => Some(entry.serial),
        None => None,
    }
}

/// The first one from this serial on.
pub(crate) fn entry_from(entries: &[HistoryEntry], serial: u64) -> Option<&HistoryEntry>
    ensures { option_copied result ≡ entry_from serial entries.now }
{
    match entries {
        [] => None,
        [first, others @ ..] => {
            if first.serial < serial {
                return entry_from(others, serial);
            }
            Some(first)
        }
    }
}

/// The one of this serial is among them.
pub(crate) fn has_serial(entries: &[HistoryEntry], serial: u64) -> bool
    ensures { result ≡ has_serial serial entries.now }
{
    match entries {
        [] => false,
        [first, others @ ..] => first.serial == serial || has_serial(others, serial),
    }
}
