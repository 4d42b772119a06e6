//! The program over what the system gives.
ghost use Rattle.std.specs.Prelude.{◌≡◌, IfOk};
ghost use Rattle.std.specs.Vec.Iter.{into_iter_items};

use crate::runs::run_words;
use byte_streams::{Watched, WatchedReader};
use std::alloc::{AllocError, Global};
use std::env::Args;
use std::io::{Read, Write};
use std::process::ExitCode;
use std::rt::Env;
use std::sync::Wait;
use std::thread::Threads;
use std::{env, io};

/// One run of the program: `run_words` over the words that the system gives and its standard
/// streams, which are watched. What the system gives and takes is in no clause, so that this has
/// none; that all words that it gives come to the run is one (`all_of`).
pub fn run_program<
    A: AllocGlobal + Env + Threads + Wait + Sync,
    R: Read + Drop,
    W: Write + Drop,
    E: Write + Drop,
>(rt: &A, stdin: R, stdout: W, stderr: E) -> ExitCode {
    let mut stdin = stdin;
    let mut stdout = stdout;
    let mut stderr = stderr;
    let mut source = WatchedReader::new(&mut stdin);
    let mut sink = Watched::new(&mut stdout);
    let mut faults = Watched::new(&mut stderr);
    let words = words_of(rt);
    ExitCode::from(run_words(rt, words, &mut source, &mut sink, &mut faults))
}

// The words of the command line. The error's kind is `InvalidData` where one is not text; else
// memory was refused.
fn words_of(rt: &(impl Env + AllocGlobal)) -> io::Result<Vec<String>> {
    match env::args(rt) {
        Ok(words) => Ok(all_of(rt.alloc(), words)?),
        Err(error) => Err(error),
    }
}

// All these words, in their order.
fn all_of(alloc: Global, words: Args) -> Result<Vec<String>, AllocError>
    ensures { IfOk result (λ all. all.items ≡ into_iter_items words) }
{
    let mut all = Vec::new(alloc);
    for word in words {
        all.push(word)?;
    }
    Ok(all)
}
