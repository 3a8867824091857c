//! The program: the top call over the real world.
//!
//! All that is proved of it stands at `agglo_program::agglo`. What `main` does beside is to hold the places of the
//! standard streams and to collect the words.
#![tactic(auto)]

use agglo_program::{FileDesk, agglo, refuse};
use refusals::Refusal;
use segment_run::Open;
use std::alloc::Global;
use std::process::ExitCode;
use std::rt::{Env, Files};
use std::{env, fs, io};

/// Runs the top call on the words after the program's name, once no file can come in the place of a standard stream.
fn main(rt: HostRuntime) -> ExitCode {
    let alloc = rt.alloc();
    let mut desk = FileDesk::new(rt, alloc);
    let Ok(_held) = hold_streams(&rt) else {
        return ExitCode::from(refuse(&mut desk, &Refusal::Output));
    };
    match program_words(&rt, alloc) {
        Ok(words) => ExitCode::from(agglo(&rt, alloc, &words, &mut desk, &Open)),
        Err(fault) if fault.kind() == io::ErrorKind::OutOfMemory => {
            ExitCode::from(refuse(&mut desk, &Refusal::Memory))
        }
        Err(_) => ExitCode::from(refuse(&mut desk, &Refusal::Words)),
    }
}

/// Opens the null device, to be read, as often as there are standard streams. The system gives the lowest free
/// descriptor, so a stream that the program was started without gets this in its place, and not the first file that
/// is opened: what is written on it then fails, as long as these files are held. Where all streams are there, it
/// takes three descriptors more.
fn hold_streams<R: Files>(rt: &R) -> io::Result<[R::File; 3]> {
    Ok([open_null(rt)?, open_null(rt)?, open_null(rt)?])
}

fn open_null<R: Files>(rt: &R) -> io::Result<R::File> {
    fs::open(rt, "/dev/null")
}

/// The words after the program's name. An argument that is no UTF-8 is an error.
fn program_words<R: Env + AllocGlobal>(rt: &R, alloc: Global) -> io::Result<Vec<String>> {
    let mut words = Vec::new(alloc);
    for word in env::args(rt)?.skip(1) {
        words.push(word)?;
    }
    Ok(words)
}
