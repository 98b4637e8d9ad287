//! Lines of a script for devices that do nothing, or make a device fail.
ghost use Rattle.sml_text.specs.Views.{IsLexeme};

use crate::reasons::{MOST_TOLD, tell_bare, tell_more};
use explain_places::{Position, tell_place, tell_quoted};
use smi_lines::LONGEST_LINE;
use sml_domain::{ActionId, Class, Domain, ObjId, StateId};
use sml_text::{Lexeme, Sink, Source, next_token};
use sml_tree::Name;
use sml_writer::Out;
use std::alloc::{AllocError, Global};

// The offsets of the tokens of a `device` line, from 0, and what its names are.
#[derive(Clone, Copy)]
struct DeviceLine {
    word_at: usize,
    object_at: usize,
    action_at: usize,
    state_at: usize,
    object: ObjId,
    action: ActionId,
    state: StateId,
}

// The last line of each object and action, counted from 1; 0 where there is no such line.
#[derive(Drop)]
struct LastLines {
    rows: Vec<Vec<usize>>,
}

impl LastLines {
    // No line yet, for each object of a domain.
    fn new(alloc: Global, domain: &Domain) -> Result<LastLines, AllocError> {
        let mut rows = Vec::new(alloc);
        for _o in 0..domain.objects() {
            rows.push(Vec::new(alloc))?;
        }
        Ok(LastLines { rows })
    }

    // Notes the number of a line.
    fn note(&mut self, line: &DeviceLine, number: usize) -> Result<(), AllocError> {
        let action = line.action.get();
        let Some(row) = self.rows.get_mut(line.object.get()) else {
            return Ok(());
        };
        for _missing in row.len()..action.saturating_add(1) {
            row.push(0)?;
        }
        if action < row.len() {
            row[action] = number;
        }
        Ok(())
    }

    // The last line that has the object and the action of a line.
    fn last(&self, line: &DeviceLine) -> usize {
        match self.rows.get(line.object.get()) {
            Some(row) => row.get(line.action.get()).copied().unwrap_or(0),
            None => 0,
        }
    }
}

// The name that a token is.
fn name_in(lexeme: &Lexeme) -> Option<Name>
    requires { IsLexeme lexeme.now }
{
    match lexeme {
        Lexeme::Word(word) => Some(Name::from_word(word)),
        Lexeme::Int(_) | Lexeme::Str(_) | Lexeme::Sign(_) | Lexeme::Session(_) => None,
    }
}

// What a line says, where it is a line of a device.
fn device_line(domain: &Domain, line: &[u8]) -> Option<DeviceLine> {
    if line.len() > LONGEST_LINE {
        return None;
    }
    let (word, rest, at) = next_token(Source::Line, line, 0)?;
    if name_in(&word.lexeme)?.as_bytes() != b"DEVICE".as_slice() {
        return None;
    }
    let (object, rest, at) = next_token(Source::Line, rest, at)?;
    let (action, rest, at) = next_token(Source::Line, rest, at)?;
    let (state, _rest, _at) = next_token(Source::Line, rest, at)?;
    Some(DeviceLine {
        word_at: word.at,
        object_at: object.at,
        action_at: action.at,
        state_at: state.at,
        object: domain.object(&name_in(&object.lexeme)?)?,
        action: domain.action(&name_in(&action.lexeme)?)?,
        state: domain.state(&name_in(&state.lexeme)?)?,
    })
}

// Why a line does nothing, or makes its device fail.
#[derive(Clone, Copy)]
enum Remark {
    // The object has no device.
    NoDevice,
    // The class of the object does not declare the action.
    NoAction,
    // A later line says it again.
    SaidAgain(usize),
    // The class of the object does not have the state.
    NoState,
}

// What is to be said of a line, if anything is.
fn remark_on(domain: &Domain, line: &DeviceLine, number: usize, last: usize) -> Option<Remark> {
    let o = line.object;
    if !domain.has(o) || !domain.associated(o) {
        return Some(Remark::NoDevice);
    }
    if domain.parameters(o, line.action).is_none() {
        return Some(Remark::NoAction);
    }
    if last != number {
        return Some(Remark::SaidAgain(last));
    }
    if !domain.is_state(o, line.state) {
        return Some(Remark::NoState);
    }
    None
}

// The offset of what a remark is about.
fn offset_of(line: &DeviceLine, remark: Remark) -> usize {
    match remark {
        Remark::NoDevice => line.object_at,
        Remark::NoAction => line.action_at,
        Remark::SaidAgain(_) => line.word_at,
        Remark::NoState => line.state_at,
    }
}

// The class of an object, as `class PUMP (of P1)`.
fn tell_class<W: Sink>(out: &mut Out<'_, W>, domain: &Domain, o: ObjId, class: Option<&Class>) {
    out.say(b"class ");
    if let Some(class) = class {
        out.say(class.name.as_bytes());
    }
    out.say(b" (of ");
    tell_bare(out, domain.object_name(o));
    out.say(b")");
}

// The states that a class has, in brackets.
fn tell_states<W: Sink>(out: &mut Out<'_, W>, domain: &Domain, class: Option<&Class>) {
    let Some(class) = class else {
        return;
    };
    let mut front: &[u8] = b" (";
    for state in class.states.rows() {
        out.say(front);
        tell_bare(out, domain.state_name(state.number));
        front = b", ";
    }
    out.say(b")");
}

// The sentence of a remark.
fn tell_remark<W: Sink>(out: &mut Out<'_, W>, domain: &Domain, line: &DeviceLine, remark: Remark) {
    let o = line.object;
    let class = if domain.has(o) {
        domain.classes().get(domain.class_of(o).get())
    } else {
        None
    };
    match remark {
        Remark::NoDevice => {
            tell_bare(out, domain.object_name(o));
            out.say(b" has no device: this line does nothing");
        }
        Remark::NoAction => {
            tell_class(out, domain, o, class);
            out.say(b" declares no action ");
            tell_bare(out, domain.action_name(line.action));
            out.say(b": this line does nothing");
        }
        Remark::SaidAgain(last) => {
            out.say(b"line ");
            out.number(last as u64);
            out.say(b" says it again, and counts");
        }
        Remark::NoState => {
            tell_class(out, domain, o, class);
            out.say(b" has no state ");
            tell_bare(out, domain.state_name(line.state));
            tell_states(out, domain, class);
            out.say(b": the device will fail");
        }
    }
}

// The last lines of a script, by object and action.
fn last_lines(alloc: Global, domain: &Domain, text: &[u8]) -> Result<LastLines, AllocError> {
    let mut lines = LastLines::new(alloc, domain)?;
    for (place, bytes) in text.split(|b| *b == b'\n').enumerate() {
        if let Some(line) = device_line(domain, bytes) {
            lines.note(&line, place.saturating_add(1))?;
        }
    }
    Ok(lines)
}

/// Writes, of a script that was read, which `device` lines can do nothing, and which make their device fail: at most
/// twenty, each with its place and a caret, and then how many others there are. Nothing is written where each line
/// tells a device of an object what it may answer.
///
/// The time is the length of the text, twice. Memory is taken for a number for each action of each object that has
/// lines. The error is out of memory; then nothing is written.
pub fn tell_device_lines<W: Sink>(
    alloc: Global,
    domain: &Domain,
    file: &str,
    text: &[u8],
    out: &mut Out<'_, W>,
) -> Result<(), AllocError> {
    let lines = last_lines(alloc, domain, text)?;
    let mut count: u64 = 0;
    for (place, bytes) in text.split(|b| *b == b'\n').enumerate() {
        let number = place.saturating_add(1);
        let Some(line) = device_line(domain, bytes) else {
            continue;
        };
        let Some(remark) = remark_on(domain, &line, number, lines.last(&line)) else {
            continue;
        };
        if count < MOST_TOLD {
            let offset = offset_of(&line, remark);
            let column = offset.saturating_add(1);
            tell_place(
                out,
                file,
                Position {
                    line: number,
                    column,
                },
            );
            tell_remark(out, domain, &line, remark);
            out.say(b"\n");
            tell_quoted(out, bytes, offset);
        }
        count = count.saturating_add(1);
    }
    tell_more(out, count, b"lines of devices");
    Ok(())
}
