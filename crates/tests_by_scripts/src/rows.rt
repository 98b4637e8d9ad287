//! The rows of a script: lines, and behind each what it must tell.

use crate::acts::perform;
use crate::bytes::unescape;
use crate::place::Place;
use smirun_live::LiveHost;
use smirun_run::Host;
use std::alloc::{AllocError, Global};
use std::io;

// What a line that must be told begins with.
const ANSWER: &str = "  ";

/// What was found of the rows of a script.
#[derive(Drop)]
pub struct Found {
    /// How many lines told what they must.
    pub same: usize,
    /// The lines that told something else, each with its row, what it must tell and what it told.
    pub others: Vec<u8>,
}

// A line of a script, and the name of its row.
#[derive(Clone, Copy)]
struct Line<'a> {
    row: &'a str,
    text: &'a str,
}

impl<'a> Line<'a> {
    // The line behind this one: a line that begins with `#` names the row of those that follow.
    fn followed_by(self, text: &'a str) -> Line<'a> {
        let row = self.text.strip_prefix("# ").unwrap_or(self.row);
        Line { row, text }
    }
}

impl Found {
    /// Nothing yet.
    pub fn new(alloc: Global) -> Found {
        Found {
            same: 0,
            others: Vec::new(alloc),
        }
    }

    // Tells a line that told something else than it must.
    fn differs(&mut self, line: Line<'_>, place: &Place) -> Result<(), AllocError> {
        let others = &mut self.others;
        others.extend_from_slice(b"# ")?;
        others.extend_from_slice(line.row.as_bytes())?;
        others.extend_from_slice(b"\n")?;
        others.extend_from_slice(line.text.as_bytes())?;
        others.extend_from_slice(b"\n  must tell:\n")?;
        others.extend_from_slice(place.must.as_slice())?;
        others.extend_from_slice(b"  told:\n")?;
        others.extend_from_slice(place.told.as_slice())?;
        others.extend_from_slice(b"\n")
    }

    // Looks whether a line told what it must.
    fn look(&mut self, line: Line<'_>, place: &Place) -> Result<(), AllocError> {
        if !place.is_as_it_must_be() {
            return self.differs(line, place);
        }
        if !place.must.is_empty() {
            self.same = self.same.saturating_add(1);
        }
        Ok(())
    }
}

// Does what a line says, in which bytes may be written by their numbers.
fn perform_escaped<R: Host + LiveHost + 'static>(
    rt: &R,
    line: &str,
    place: &mut Place,
) -> io::Result<()> {
    let text = unescape(rt.alloc(), line)?;
    perform(rt, text.as_str(), place)
}

// Does what a line says, and looks whether it tells what it must.
fn perform_line<R: Host + LiveHost + 'static>(
    rt: &R,
    line: Line<'_>,
    place: &mut Place,
    found: &mut Found,
) -> io::Result<()> {
    place.told.clear();
    perform_escaped(rt, line.text, place)?;
    found.look(line, place)?;
    place.must.clear();
    Ok(())
}

/// Performs a script line by line. What a line must tell follows it, in lines that begin with two blanks.
pub fn perform_rows<R: Host + LiveHost + 'static>(
    rt: &R,
    script: &str,
    place: &mut Place,
    found: &mut Found,
) -> io::Result<()> {
    let mut line = Line { row: "", text: "" };
    for next in script.split('\n') {
        if next.starts_with(ANSWER) {
            place.add_answer(next)?;
        } else {
            perform_line(rt, line, place, found)?;
            line = line.followed_by(next);
        }
    }
    perform_line(rt, line, place, found)
}
