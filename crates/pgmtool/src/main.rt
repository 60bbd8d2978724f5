//! `pgmtool` builds a PGM-index over a key file, writes it as text, and answers questions by it.
//!
//! Makes the real objects, the words, the files and the output, and calls [`run`] of the crate
//! `program`, on which everything stands that is claimed of the program.
#![tactic(auto)]

use edge::{FileShelf, OpenGate, OutSink};
use program::{Status, run};
use std::alloc::AllocError;
use std::process::ExitCode;
use std::rt::{Env, Files};
use std::sync::Wait;
use std::thread::Threads;
use std::{env, io};

// Bytes gathered before they are written.
const BUFFER: usize = 65_536;

fn main(rt: HostRuntime) -> ExitCode {
    ExitCode::from(execute(&rt).code())
}

// Makes the real objects, and calls `run`.
fn execute<R: AllocGlobal + Env + Files + Print + Threads + Wait + Sync>(rt: &R) -> Status {
    let Ok(words) = words_of(rt) else {
        return Status::NoMemory;
    };
    let Ok(mut out) = OutSink::new(rt.alloc(), io::writer(rt), BUFFER) else {
        return Status::NoMemory;
    };
    let mut files = FileShelf::new(rt);
    let status = run(rt, &words, &mut files, &mut out, &OpenGate);
    match (status, out.flush()) {
        (Status::Done, Err(_)) => Status::WriteFault,
        _ => status,
    }
}

// The words of the command line. Where one isn't text there are none, which is no command.
fn words_of<R: AllocGlobal + Env>(rt: &R) -> Result<Vec<String>, AllocError> {
    match env::args(rt) {
        Ok(words) => words.collect(rt.alloc()),
        Err(error) if error.kind() == io::ErrorKind::OutOfMemory => Err(AllocError),
        Err(_) => Ok(Vec::new(rt.alloc())),
    }
}
