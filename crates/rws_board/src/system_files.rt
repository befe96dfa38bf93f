//! The files of the system.
ghost use Rattle.std.specs.Prelude.{◌≡◌, None};

use crate::{FileFault, Files};
use rws_wire::Text;
use std::alloc::Global;
use std::io::{self, Read};
use std::{fs, rt};

/// The greatest length of a file that is read, in bytes.
const GREATEST_FILE: u64 = 1_073_741_824;

/// The files of the system that the program runs on. Each error is a fault, and so is a file above
/// 1,073,741,824 bytes.
#[derive(Drop)]
pub struct SystemFiles<'a, R: rt::Files> {
    rt: &'a R,
    faults: u64,
}

impl<'a, R: rt::Files> SystemFiles<'a, R> {
    pub fn new(rt: &'a R) -> SystemFiles<'a, R>
        ensures { result.faults ≡ 0 }
    {
        SystemFiles { rt, faults: 0 }
    }
}

impl<'a, R: rt::Files> Files for SystemFiles<'a, R> {
    ghost files = { λ _. None };

    ghost faults = { λ s. s.faults };

    fn read(&mut self, alloc: Global, path: &str) -> Result<Text, FileFault> {
        match read_file(self.rt, alloc, path) {
            Ok(text) => Ok(text),
            Err(FileFault::Failed) => {
                self.faults = self.faults.saturating_add(1);
                Err(FileFault::Failed)
            }
            Err(FileFault::OutOfMemory) => Err(FileFault::OutOfMemory),
        }
    }
}

/// The bytes of a file.
fn read_file<R: rt::Files>(rt: &R, alloc: Global, path: &str) -> Result<Text, FileFault> {
    let file = fs::open(rt, path).map_err(fault_of)?;
    let mut bytes = Vec::new(alloc);
    let length = file
        .take(GREATEST_FILE + 1)
        .read_to_end(&mut bytes)
        .map_err(fault_of)?;
    if length as u64 > GREATEST_FILE {
        return Err(FileFault::Failed);
    }
    Ok(Text::new(bytes))
}

/// What an error of the system is to whoever reads the file.
fn fault_of(error: io::Error) -> FileFault {
    match error.kind() {
        io::ErrorKind::OutOfMemory => FileFault::OutOfMemory,
        _ => FileFault::Failed,
    }
}
