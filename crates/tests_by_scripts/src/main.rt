//! The program `tests_by_scripts`: performs scripts of command lines, and tells those that do not tell what they must.
#![tactic(auto)]

mod acts;
mod arriving;
mod bytes;
mod calls;
mod explained;
mod limits;
mod meddling;
mod outcomes;
mod place;
mod rows;
mod writers;

use crate::place::Place;
use crate::rows::{Found, perform_rows};
use smirun_live::LiveHost;
use smirun_run::Host;
use std::io::Write;
use std::{env, fs, io};

// The words of the command line name the scripts. For each script a line is written, behind those of the script's lines
// that told something else than they must.
fn main(rt: HostRuntime) -> io::Result<()> {
    let words: Vec<String> = env::args(&rt)?.collect(rt.alloc())?;
    let mut place = Place::new(rt.alloc());
    perform_scripts(&rt, words.as_slice(), &mut place, &mut rt.stdout())
}

// Performs the scripts that words name, behind the first word.
fn perform_scripts<R: Host + LiveHost + 'static, W: Write>(
    rt: &R,
    words: &[String],
    place: &mut Place,
    output: &mut W,
) -> io::Result<()> {
    for name in words.iter().skip(1) {
        perform_script(rt, name.as_str(), place, output)?;
    }
    output.flush()
}

// Performs a script, and tells what was found of it.
fn perform_script<R: Host + LiveHost + 'static, W: Write>(
    rt: &R,
    name: &str,
    place: &mut Place,
    output: &mut W,
) -> io::Result<()> {
    let mut found = Found::new(rt.alloc());
    match perform_file(rt, name, place, &mut found) {
        Ok(()) => tell_found(output, name, &found),
        Err(error) => Err(error),
    }
}

fn perform_file<R: Host + LiveHost + 'static>(
    rt: &R,
    name: &str,
    place: &mut Place,
    found: &mut Found,
) -> io::Result<()> {
    let script = fs::read_to_string(rt, name)?;
    let text = script.as_str();
    perform_rows(rt, text.strip_suffix('\n').unwrap_or(text), place, found)
}

// Whether a script told what it must, and something at all.
fn verdict_of(found: &Found) -> &'static str {
    if !found.others.is_empty() {
        "not as it must be"
    } else if found.same == 0 {
        "tells nothing"
    } else {
        "as it must be"
    }
}

fn tell_found<W: Write>(output: &mut W, name: &str, found: &Found) -> io::Result<()> {
    output.write_all(found.others.as_slice())?;
    output.write_all(name.as_bytes())?;
    output.write_all(b": ")?;
    output.write_all(verdict_of(found).as_bytes())?;
    output.write_all(b"\n")
}
