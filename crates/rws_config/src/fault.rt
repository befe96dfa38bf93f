//! Why a settings file is refused.

ghost use Rattle.std.specs.Prelude.{◌≡◌, ◌++◌, IfOk};
ghost use Rattle.rws_config.specs.Faults.{fault_text};
ghost use Rattle.rws_config.specs.declared.fault.ConfigFault.TheVariants.{OutOfMemory};

use rws_wire::Text;
use std::alloc::{AllocError, Global};

/// Why a settings file is refused. The kinds of faults are tried in this order over the whole file, and of several keys
/// or names at fault the least by bytes is named. A key of a table of `server` is named as `server.name`, one of
/// `account` as `account.user`.
#[derive(Debug, Drop)]
pub enum ConfigFault {
    /// It is no TOML document.
    BadToml,
    /// It has a key that means nothing.
    UnknownKey { key: Text },
    /// It lacks a key that it must have.
    Missing { key: Text },
    /// The value at this key is of another kind, or out of its range.
    BadValue { key: Text },
    /// It has this many servers, which is more than seven.
    TooManyServers { n: u64 },
    /// Two servers have this name, or two accounts this user.
    Twice { name: Text },
    /// There was no memory to read it; that says nothing of the file.
    OutOfMemory,
}

impl From<AllocError> for ConfigFault {
    ghost from_gives = { λ _ e. e ≡ OutOfMemory };

    fn from(_e: AllocError) -> ConfigFault {
        ConfigFault::OutOfMemory
    }
}

// A word, a space and the name that it speaks of.
fn about(alloc: Global, what: &str, name: &Text) -> Result<Text, AllocError>
    ensures { IfOk result (λ text. text ≡ what.now ++ name.now) }
{
    let mut text = Text::from_slice(alloc, what.as_bytes())?;
    text.extend_from_slice(name.as_slice())?;
    Ok(text)
}

/// What is said of the fault, in one line unless a key or a name of the file has a line break.
pub fn fault_text(alloc: Global, fault: &ConfigFault) -> Result<Text, AllocError>
    ensures { IfOk result (λ text. text ≡ fault_text fault.now) }
{
    match fault {
        ConfigFault::BadToml => Text::from_slice(alloc, b"not TOML"),
        ConfigFault::UnknownKey { key } => about(alloc, "unknown key ", key),
        ConfigFault::Missing { key } => about(alloc, "missing ", key),
        ConfigFault::BadValue { key } => about(alloc, "bad value ", key),
        ConfigFault::TooManyServers { n } => {
            let text = format!(in alloc; "too many servers {n}")?;
            Ok(Text::new(text.into_bytes()))
        }
        ConfigFault::Twice { name } => about(alloc, "twice ", name),
        ConfigFault::OutOfMemory => Text::from_slice(alloc, b"out of memory"),
    }
}
