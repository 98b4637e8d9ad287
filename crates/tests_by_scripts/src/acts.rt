//! The lines of a script: their first byte tells what they do.

use crate::arriving::call_arriving;
use crate::calls::{
    ask, call, call_at_terminal, call_cut_off, call_in_vain, call_with_no_memory, tell_no_words,
};
use crate::explained::compare;
use crate::limits::tell_untold;
use crate::meddling::call_meddled;
use crate::outcomes::tell_run;
use crate::place::Place;
use smirun_live::LiveHost;
use smirun_run::Host;
use std::alloc::AllocError;
use std::fs::Files;
use std::io::{ErrorKind, Write};
use std::os::unix::fs::symlink;
use std::{fs, io, str};

/// Does what a line says.
pub fn perform<R: Host + LiveHost + 'static>(
    rt: &R,
    line: &str,
    place: &mut Place,
) -> io::Result<()> {
    let (mark, rest) = line.split_once(' ').unwrap_or((line, ""));
    match mark {
        // adds the rest to the text at hand, as a line
        "|" => Ok(place.add(rest)?),
        // adds a text COUNT times, behind what was added last: COUNT TEXT
        "+" => add_times(rest, place),
        // adds a line COUNT times: COUNT LINE
        "*" => add_lines(rest, place),
        // performs the rest as a command line
        "$" => Ok(call(rt, rest, place)?),
        // the same, except that only the status and the errors are told
        "%" => Ok(ask(rt, rest, place)?),
        // tells whether the last output has the rest
        "?" => Ok(tell_part(rest, place)?),
        // performs a command line with outputs that cannot be written
        "&" => Ok(call_in_vain(rt, rest, place)?),
        // performs a command line, and again with outputs that fail at each byte of it
        "^" => Ok(call_cut_off(rt, rest, place)?),
        // performs a command line where there is no memory
        "~" => Ok(call_with_no_memory(rt, rest, place)?),
        // performs two command lines, and tells it if their results differ: LINE | LINE
        "=" => Ok(compare(rt, rest, place)?),
        // does something with a file
        "@" => handle(rt, rest, place),
        // passes over all else, as names of rows
        _ => Ok(()),
    }
}

fn tell_part(part: &str, place: &mut Place) -> Result<(), AllocError> {
    let is_so = place.has(part);
    place.tell_whether(is_so)
}

// Does something with a file, or with what a command line told of help.
fn handle<R: Host + LiveHost + 'static>(rt: &R, line: &str, place: &mut Place) -> io::Result<()> {
    let (verb, rest) = line.split_once(' ').unwrap_or((line, ""));
    match verb {
        // writes the text at hand as a file
        "write" => write(rt, rest, place),
        // makes a file of one byte many times: PATH BYTE COUNT
        "fill" => fill(rt, rest),
        // adds a line to the text at hand, filled with blanks: LENGTH LINE
        "filled" => add_filled(rest, place),
        "folder" => fs::create_dir(rt, rest),
        // performs a command line while a file is locked: PATH LINE
        "held" => call_held(rt, rest, place),
        // makes a further path of a file: PATH LINK
        "link" => link(rt, rest),
        // makes a path that stands for another: PATH LINK
        "symlink" => point(rt, rest),
        "remove" => fs::remove_file(rt, rest),
        "show" => show(rt, rest, place),
        // tells whether the last output is that of a file
        "same" => tell_same(rt, rest, place),
        // tells whether the last output has no more lines, and no longer ones: LINES COLUMNS
        "fits" => tell_fit(rest, place),
        // performs a command line as where both outputs are a terminal
        "terminal" => Ok(call_at_terminal(rt, rest, true, place)?),
        // runs a manager whose lines another thread reads, up to their end or to a fault: FILE LOG
        "arriving" => call_arriving(rt, rest, false, place),
        "failing" => call_arriving(rt, rest, true, place),
        // the same with a log that is moved, or gets a line of somebody else: FILE LOG PATH, or FILE LOG
        "meddled" => call_meddled(rt, rest, place),
        // performs a command line as where standard error alone is a terminal
        "piped" => Ok(call_at_terminal(rt, rest, false, place)?),
        // tells what the program says if the words of a command line cannot be read
        "no-words" => Ok(tell_no_words(rt.alloc(), ErrorKind::InvalidData, place)?),
        "no-memory" => Ok(tell_no_words(rt.alloc(), ErrorKind::OutOfMemory, place)?),
        // tells what the program says about a run: END UNMET, and the path of a journal
        "outcome" => tell_run(rt, rest, place),
        // tells the limits that the last output does not: NAME
        "limits" => Ok(tell_untold(rt.alloc(), rest, place)?),
        _ => Err(io::Error::from(ErrorKind::InvalidInput)),
    }
}

fn write<R: Files + AllocGlobal>(rt: &R, path: &str, place: &mut Place) -> io::Result<()> {
    place.is_open = false;
    fs::write(rt, path, place.text.as_slice())
}

fn link<R: Files>(rt: &R, words: &str) -> io::Result<()> {
    let (path, link) = words.split_once(' ').unwrap_or((words, ""));
    fs::hard_link(rt, path, link)
}

fn point<R: Files>(rt: &R, words: &str) -> io::Result<()> {
    let (path, link) = words.split_once(' ').unwrap_or((words, ""));
    symlink(rt, path, link)
}

fn call_held<R: Host + LiveHost>(rt: &R, words: &str, place: &mut Place) -> io::Result<()> {
    let (path, line) = words.split_once(' ').unwrap_or((words, ""));
    let file = fs::open(rt, path)?;
    match file.lock() {
        Ok(()) => call_line(rt, line, place),
        Err(error) => Err(error),
    }
}

fn call_line<R: Host + LiveHost>(rt: &R, line: &str, place: &mut Place) -> io::Result<()> {
    Ok(call(rt, line, place)?)
}

/// The number that a word is.
pub fn number(word: &str) -> io::Result<usize> {
    match word.parse::<usize>() {
        Ok(number) => Ok(number),
        Err(_) => Err(io::Error::from(ErrorKind::InvalidInput)),
    }
}

fn byte_of(word: &str) -> io::Result<u8> {
    match word.parse::<u8>() {
        Ok(byte) => Ok(byte),
        Err(_) => Err(io::Error::from(ErrorKind::InvalidInput)),
    }
}

fn fill<R: Files + AllocGlobal>(rt: &R, words: &str) -> io::Result<()> {
    let (path, rest) = words.split_once(' ').unwrap_or((words, ""));
    let (byte, count) = rest.split_once(' ').unwrap_or((rest, ""));
    let byte = byte_of(byte)?;
    let count = number(count)?;
    let mut file = fs::create(rt, path)?;
    write_times(&mut file, byte, count)
}

// Writes a byte many times.
fn write_times<W: Write>(file: &mut W, byte: u8, count: usize) -> io::Result<()> {
    let block = [byte; 4_096];
    for _ in 0..count / 4_096 {
        file.write_all(&block)?;
    }
    match block.get(..count % 4_096) {
        Some(rest) => file.write_all(rest),
        None => Ok(()),
    }
}

fn add_times(words: &str, place: &mut Place) -> io::Result<()> {
    let (count, text) = words.split_once(' ').unwrap_or((words, ""));
    for _ in 0..number(count)? {
        place.text.extend_from_slice(text.as_bytes())?;
    }
    Ok(())
}

fn add_lines(words: &str, place: &mut Place) -> io::Result<()> {
    let (count, line) = words.split_once(' ').unwrap_or((words, ""));
    for _ in 0..number(count)? {
        place.add(line)?;
    }
    Ok(())
}

fn add_filled(words: &str, place: &mut Place) -> io::Result<()> {
    let (length, line) = words.split_once(' ').unwrap_or((words, ""));
    let length = number(length)?;
    place.add(line)?;
    Ok(add_blanks(place, length.saturating_sub(line.len()))?)
}

fn add_blanks(place: &mut Place, count: usize) -> Result<(), AllocError> {
    for _ in 0..count {
        place.text.push(b' ')?;
    }
    Ok(())
}

// Tells the text of a file, or that there is no such file.
fn show<R: Files + AllocGlobal>(rt: &R, path: &str, place: &mut Place) -> io::Result<()> {
    if !fs::exists(rt, path)? {
        return Ok(place.tell_line("  ", "(no such file)")?);
    }
    place.output = fs::read(rt, path)?;
    Ok(place.tell_output()?)
}

// Whether a file has these bytes.
fn is_file_of<R: Files + AllocGlobal>(rt: &R, path: &str, bytes: &[u8]) -> io::Result<bool> {
    let read = fs::read(rt, path)?;
    Ok(read.as_slice() == bytes)
}

// Tells whether the last output has the bytes of a file.
fn tell_same<R: Files + AllocGlobal>(rt: &R, path: &str, place: &mut Place) -> io::Result<()> {
    let is_same = is_file_of(rt, path, place.output.as_slice())?;
    Ok(place.tell_line("  ", if is_same { "the same" } else { "otherwise" })?)
}

// Whether a text has no more lines than this, and none of more bytes.
fn does_fit(text: &str, lines: usize, columns: usize) -> bool {
    text.lines().count() <= lines && text.lines().all(|line| line.len() <= columns)
}

// Tells whether the last output has no more lines than the first number, and none of more bytes than the second.
fn tell_fit(words: &str, place: &mut Place) -> io::Result<()> {
    let (lines, columns) = words.split_once(' ').unwrap_or((words, ""));
    let columns = number(columns)?;
    let lines = number(lines)?;
    let text = str::from_utf8(place.output.as_slice()).unwrap_or("");
    let is_so = does_fit(text, lines, columns);
    Ok(place.tell_whether(is_so)?)
}
