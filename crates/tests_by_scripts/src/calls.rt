//! Calls of command lines.

use crate::explained::{Given, give, give_at, tell_explained};
use crate::place::Place;
use crate::writers::{Fails, FailsLate, NoMemory, TakesNothing, TakesSome};
use smirun_live::LiveHost;
use smirun_run::Host;
use smirun_words::{Terminals, drive_from, refuse_words};
use std::alloc::{AllocError, Global};
use std::io;
use std::io::Write;

/// Streams that are files.
pub const FILES: Terminals = Terminals {
    output: false,
    errors: false,
    colours: false,
};

// Adds the words of a line, none if it is empty. (`""` is the word of no bytes.)
fn add_words(alloc: Global, words: &mut Vec<String>, line: &str) -> Result<(), AllocError> {
    if line.is_empty() {
        return Ok(());
    }
    for word in line.split(' ') {
        let word = if word == "\"\"" { "" } else { word };
        words.push(String::from_str(alloc, word)?)?;
    }
    Ok(())
}

/// Performs a command line, whose standard input is the text at hand, and returns its status.
pub fn run<R: Host + LiveHost, W: Write>(
    rt: &R,
    line: &str,
    text: &[u8],
    terminals: Terminals,
    output: &mut W,
    errors: &mut Vec<u8>,
) -> Result<u8, AllocError> {
    let mut words = Vec::new(rt.alloc());
    match add_words(rt.alloc(), &mut words, line) {
        Ok(()) => Ok(drive_from(rt, words.as_slice(), &mut &*text, output, errors, terminals)),
        Err(error) => Err(error),
    }
}

/// Performs a command line as where standard error is a terminal with colours, and standard output too if `is_output`.
/// Tells its errors with their colours, its status and its output.
pub fn call_at_terminal<R: Host + LiveHost>(
    rt: &R,
    line: &str,
    is_output: bool,
    place: &mut Place,
) -> Result<(), AllocError> {
    place.is_open = false;
    let terminals = Terminals {
        output: is_output,
        errors: true,
        colours: true,
    };
    let given = give_at(rt, line, place.text.as_slice(), terminals)?;
    let told = tell_given(rt.alloc(), place, &given);
    keep(place, given, told)?;
    place.tell_output()
}

// Keeps the output of a command line whose status and errors were told, and hands on whether they were.
fn keep(place: &mut Place, given: Given, told: Result<(), AllocError>) -> Result<(), AllocError> {
    place.output = given.output;
    told
}

/// Tells a status, and what was written for errors. (What the parser says about wrong words is no part of a
/// format.)
pub fn tell(alloc: Global, place: &mut Place, status: u8, errors: &[u8]) -> Result<(), AllocError> {
    if status == 2 && errors.starts_with(b"error: ") {
        place.tell_errors(b"(wrong words)\n")?;
    } else {
        place.tell_errors(errors)?;
    }
    place.tell_number(alloc, "  = ", usize::from(status))
}

// Tells the status of a command line, and what it wrote for errors.
fn tell_given(alloc: Global, place: &mut Place, given: &Given) -> Result<(), AllocError> {
    tell(alloc, place, given.status, given.errors.as_slice())
}

// Tells the same, and whether `--explain` changes the result.
fn tell_asked<R: Host + LiveHost>(
    rt: &R,
    line: &str,
    place: &mut Place,
    given: &Given,
) -> Result<(), AllocError> {
    tell_given(rt.alloc(), place, given)?;
    tell_explained(rt, line, given, place)
}

/// Performs a command line and tells its status and its errors, and whether `--explain` changes its result. Its output
/// is kept.
pub fn ask<R: Host + LiveHost>(rt: &R, line: &str, place: &mut Place) -> Result<(), AllocError> {
    place.is_open = false;
    let given = give(rt, line, place.text.as_slice())?;
    let told = tell_asked(rt, line, place, &given);
    keep(place, given, told)
}

/// Performs a command line and tells its output too.
pub fn call<R: Host + LiveHost>(rt: &R, line: &str, place: &mut Place) -> Result<(), AllocError> {
    ask(rt, line, place)?;
    place.tell_output()
}

fn call_into<R: Host + LiveHost, W: Write>(
    rt: &R,
    line: &str,
    place: &mut Place,
    output: &mut W,
) -> Result<(), AllocError> {
    let mut errors = Vec::new(rt.alloc());
    match run(rt, line, place.text.as_slice(), FILES, output, &mut errors) {
        Ok(status) => tell(rt.alloc(), place, status, errors.as_slice()),
        Err(error) => Err(error),
    }
}

/// Performs a command line three times, with outputs that cannot be written.
pub fn call_in_vain<R: Host + LiveHost>(
    rt: &R,
    line: &str,
    place: &mut Place,
) -> Result<(), AllocError> {
    call_into(rt, line, place, &mut Fails)?;
    call_into(rt, line, place, &mut TakesNothing)?;
    call_into(rt, line, place, &mut FailsLate)
}

// What is told where an output has no more room.
const OUTPUT_FAULT: &[u8] = b"output fault\nstandard output: no storage space\n";

// Whether a command line whose output takes `taken` bytes and then fails writes a prefix of what it wrote before, and
// tells that its output cannot be written.
fn is_cut_off<R: Host + LiveHost>(
    rt: &R,
    line: &str,
    place: &Place,
    taken: usize,
) -> Result<bool, AllocError> {
    let mut errors = Vec::new(rt.alloc());
    let mut output = TakesSome {
        taken: Vec::new(rt.alloc()),
        left: taken,
    };
    match run(
        rt,
        line,
        place.text.as_slice(),
        FILES,
        &mut output,
        &mut errors,
    ) {
        Ok(status) => Ok(
            status == 1
                && errors.as_slice() == OUTPUT_FAULT
                && output.taken.len() == taken
                && place.output.starts_with(output.taken.as_slice()),
        ),
        Err(error) => Err(error),
    }
}

/// Performs a command line, and then again for each byte of its output, where an output that takes one byte a call
/// fails there. Tells where that goes wrong, and how often it was done.
pub fn call_cut_off<R: Host + LiveHost>(
    rt: &R,
    line: &str,
    place: &mut Place,
) -> Result<(), AllocError> {
    call(rt, line, place)?;
    let length = place.output.len();
    for taken in 0..length {
        if !is_cut_off(rt, line, place, taken)? {
            place.tell_number(rt.alloc(), "  otherwise at ", taken)?;
        }
    }
    place.tell_number(rt.alloc(), "  cut off at each byte: ", length)
}

/// Performs a command line where there is no memory to read a file.
pub fn call_with_no_memory<R: Host + LiveHost>(
    rt: &R,
    line: &str,
    place: &mut Place,
) -> Result<(), AllocError> {
    call(&(NoMemory(*rt), rt.alloc()), line, place)
}

/// Tells what the program says if the words of a command line cannot be read, out of memory or otherwise.
pub fn tell_no_words(
    alloc: Global,
    kind: io::ErrorKind,
    place: &mut Place,
) -> Result<(), AllocError> {
    let mut errors = Vec::new(alloc);
    let status = refuse_words(&io::Error::from(kind), &mut errors);
    tell(alloc, place, status, errors.as_slice())
}
