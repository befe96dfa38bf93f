//! rwsplit: a read/write splitting proxy for MariaDB. The program's streams and words; all else stands in
//! the crates below.
#![tactic(auto)]

use rws_board::{ReadSource, SystemFiles, WriteSink};
use rws_select::Load;
use rws_top::run_here;
use std::alloc::{AllocError, Global};
use std::process::ExitCode;
use std::rt::Env;
use std::{env, io};

/// The status where memory runs out before the words are read.
const OUT_OF_MEMORY: u8 = 9;

fn main(rt: HostRuntime) -> ExitCode {
    let alloc = rt.alloc();
    let mut input = ReadSource::new(rt.stdin());
    let mut out = WriteSink::new(rt.stdout());
    let mut files = SystemFiles::new(&rt);
    match words(&rt, alloc) {
        Ok(words) => {
            let score = |load: &Load| u64::from(load.pending) * 65536 + u64::from(load.links);
            ExitCode::from(run_here(alloc, &words, &mut input, &mut out, &mut files, score))
        }
        Err(AllocError) => ExitCode::from(OUT_OF_MEMORY),
    }
}

/// The words behind the program's name. Where one isn't UTF-8 there are none, which is a faulty command line.
fn words(rt: &(impl Env + AllocGlobal), alloc: Global) -> Result<Vec<String>, AllocError> {
    let mut words = Vec::new(alloc);
    match env::args(rt) {
        Ok(args) => {
            for word in args.skip(1) {
                words.push(word)?;
            }
            Ok(words)
        }
        Err(error) if error.kind() == io::ErrorKind::OutOfMemory => Err(AllocError),
        Err(_) => Ok(words),
    }
}
