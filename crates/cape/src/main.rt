//! The program `cape`: it gives the words of its command line to the top call, with the real devices.
#![tactic(auto)]

use cape_io::{DiskFiles, StdSink, StdSource};
use cape_top::cape;
use std::env::Env;
use std::process::ExitCode;
use std::{env, io};

// The status of the process where it cannot get the words.
const NO_WORDS: u8 = 116;

// The words after the program's name.
fn words_of(rt: &(impl Env + AllocGlobal)) -> io::Result<Vec<String>> {
    let mut words = Vec::new(rt.alloc());
    for word in env::args(rt)?.skip(1) {
        words.push(word)?;
    }
    Ok(words)
}

fn main(rt: HostRuntime) -> ExitCode {
    let words = match words_of(&rt) {
        Ok(words) => words,
        Err(_) => return ExitCode::from(NO_WORDS),
    };
    let mut files = DiskFiles::new(&rt, words.as_slice());
    let mut input = StdSource::new(rt.stdin());
    let mut out = StdSink::new(rt.stdout());
    let mut err = StdSink::new(rt.stderr());
    let mut kept = None;
    let status = cape(
        rt.alloc(),
        words.as_slice(),
        &mut files,
        &mut input,
        &mut out,
        &mut err,
        &mut kept,
    );
    ExitCode::from(status.code())
}
