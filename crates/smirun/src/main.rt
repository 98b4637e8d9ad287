//! The program `smirun`: state manager domains, run from the command line.
#![tactic(auto)]

use smirun_words::{drive, refuse_words};
use std::env::Env;
use std::fs::{Files, OpenOptions};
use std::process::ExitCode;
use std::{env, fs, io};

// A file that is always there.
const NOTHING: &str = "/dev/null";

// Where the system has standard input as a file, if it is open.
const INPUT: &str = "/proc/self/fd/0";

fn main(rt: HostRuntime) -> ExitCode {
    let _first = stand_in(&rt, fs::metadata(&rt, INPUT).is_err());
    let _second = stand_in(&rt, false);
    let _third = stand_in(&rt, false);
    let mut errors = rt.stderr();
    let status = match words(&rt) {
        Ok(words) => drive(
            &rt,
            words.as_slice(),
            rt.reader(),
            &mut rt.stdout(),
            &mut errors,
        ),
        Err(error) => refuse_words(&error, &mut errors),
    };
    ExitCode::from(status)
}

// Opens a file in place of a standard stream that is closed, if one is, so that no file of the command line gets its
// number: else what is written to that stream would go into that file. The file that is opened can only be read if the
// stream is written, and the other way round, so that a closed stream still fails.
fn stand_in<R: Files>(rt: &R, is_written: bool) -> Option<R::File> {
    let mut how = OpenOptions::new();
    how.read(!is_written).write(is_written);
    how.open(rt, NOTHING).ok()
}

// The words of the command line, the program's name first.
fn words<R: Env + AllocGlobal>(rt: &R) -> io::Result<Vec<String>> {
    let words = env::args(rt)?.collect(rt.alloc())?;
    Ok(words)
}
