//! Reading a line of a schedule.
ghost use Rattle.std.specs.Prelude.{◌≡◌, ◌≤◌, ◌<◌, ◌^◌, ◌+◌, ◌&&◌, ℕ, List, Option, Some, None, Err, IfOk, OnErr};
ghost use Rattle.std.specs.Prelude.{length, option_map};
ghost use Rattle.std.specs.List.{list_all as all_of};
ghost use Rattle.std.specs.Option.{option_and_then};
ghost use Rattle.sml_text.specs.Bytes.{is_ascii as ascii, no_line_feed};
ghost use Rattle.sml_text.specs.Stream.{tokens_from, bad_from};
ghost use Rattle.sml_text.specs.Views.{lexeme_of, IsLexeme};
ghost use Rattle.sml_text.specs.declared.source.Source.TheVariants as source;
ghost use Rattle.sml_domain.specs.Completing.{Passed as Given};
ghost use Rattle.smi_world.specs.declared.step.Step.TheVariants as step;
ghost use Rattle.smi_lines.specs.Line as spec;
ghost use Rattle.smi_lines.specs.Line.{LineReads, lexemes, whole};
ghost use Rattle.smi_lines.specs.LineErrorText.{line_error_text};
ghost use Rattle.smi_lines.specs.declared.line.LineError.TheVariants as error;
ghost use Rattle.smi_lines.specs.declared.line.TheConstants.{LONGEST_LINE};

use crate::arguments::{name_in, passed_in};
use smi_journal::SessionId;
use smi_world::Step;
use sml_text::{Lexeme, Source, first_bad, is_end, laws_of_tokens, next_token};
use sml_tree::Name;
use std::alloc::{AllocError, Global};
use std::error::Error;
use std::fmt;

/// Why a line is not a step.
#[derive(Clone, Copy, Debug, Eq, PartialEq)]
pub enum LineError {
    /// The line does not have the form of a step.
    BadLine,
    /// Out of memory.
    Memory,
}

impl fmt::Display for LineError {
    ghost output = { λ e. Some (line_error_text e) };

    fn fmt<W: fmt::Write>(&self, f: &mut fmt::Formatter<W>) -> fmt::Result {
        f.write_str(match *self {
            LineError::BadLine => "the line is no step",
            LineError::Memory => "out of memory",
        })
    }
}

impl Error for LineError {}

/// How many bytes a line may have.
pub const LONGEST_LINE: usize = 8192;

// Whether each byte is ASCII and not a line feed.
fn has_line_bytes(line: &[u8]) -> bool
    ensures { result ≡ all_of (λ c. ascii c && no_line_feed c) line.now }
{
    line.iter().all(|b| *b <= 127 && *b != b'\n')
}

/// Whether bytes are a line: at most `LONGEST_LINE`, all of them ASCII, and none a line feed.
#[tactic(auto, using(crate::proofs::Wholes::bytes_say))]
pub fn is_line(line: &[u8]) -> bool
    ensures { result ≡ spec.is_line line.now }
{
    line.len() <= LONGEST_LINE && has_line_bytes(line)
}

// The session that a token is.
fn session_in(lexeme: &Lexeme) -> Option<SessionId>
    requires { IsLexeme lexeme.now }
    ensures { result ≡ spec.session_in (lexeme_of lexeme.now) }
{
    match lexeme {
        Lexeme::Session(number) => SessionId::new(*number),
        Lexeme::Word(_) | Lexeme::Int(_) | Lexeme::Str(_) | Lexeme::Sign(_) => None,
    }
}

// The one name in the rest of a line, whose first byte is at this place.
fn sole_name(rest: &[u8], at: usize) -> Option<Name>
    requires { at + length rest.now < 2 ^ 63 }
    ensures { result ≡ whole spec.sole_name (tokens_from source.Line at rest.now) (bad_from source.Line at rest.now) }
{
    let (object, rest, _) = next_token(Source::Line, rest, at)?;
    if !is_end(Source::Line, rest) {
        return None;
    }
    name_in(&object.lexeme)
}

// What is behind `answer`.
fn answer_in(rest: &[u8], at: usize) -> Option<Step>
    requires { at + length rest.now < 2 ^ 63 }
    ensures { result ≡ whole spec.answer_in (tokens_from source.Line at rest.now) (bad_from source.Line at rest.now) }
{
    let (object, rest, at) = next_token(Source::Line, rest, at)?;
    let (state, rest, _) = next_token(Source::Line, rest, at)?;
    if !is_end(Source::Line, rest) {
        return None;
    }
    Some(Step::Answer {
        object: name_in(&object.lexeme)?,
        state: name_in(&state.lexeme)?,
    })
}

// What is behind `kill`.
fn kill_in(rest: &[u8], at: usize) -> Option<Step>
    requires { at + length rest.now < 2 ^ 63 }
    ensures { result ≡ whole spec.kill_in (tokens_from source.Line at rest.now) (bad_from source.Line at rest.now) }
{
    let (object, rest, at) = next_token(Source::Line, rest, at)?;
    let (session, rest, _) = next_token(Source::Line, rest, at)?;
    if !is_end(Source::Line, rest) {
        return None;
    }
    Some(Step::Kill {
        object: name_in(&object.lexeme)?,
        session: session_in(&session.lexeme)?,
    })
}

// Which session asks which object for which action, by the first tokens of a request.
fn asker(session: &Lexeme, object: &Lexeme, action: &Lexeme) -> Option<(SessionId, Name, Name)>
    requires session { IsLexeme session.now }
    requires object { IsLexeme object.now }
    requires action { IsLexeme action.now }
    ensures { (passed : Option (List Given)) → option_and_then
        (λ x. option_map (step.Request x.0 x.1 x.2) passed) result ≡
        spec.requested (spec.session_in (lexeme_of session.now)) (spec.name_in (lexeme_of object.now))
        (spec.name_in (lexeme_of action.now)) passed }
{
    Some((session_in(session)?, name_in(object)?, name_in(action)?))
}

// What is behind `request`.
fn request_in(alloc: Global, rest: &[u8], at: usize) -> Result<Option<Step>, AllocError>
    requires { at + length rest.now < 2 ^ 63 }
    ensures asked { IfOk result (λ s.
        s ≡ whole spec.request_in (tokens_from source.Line at rest.now) (bad_from source.Line at rest.now)) }
    ensures memory { OnErr result (4 ≤ length (lexemes (tokens_from source.Line at rest.now))) }
{
    let Some((session, rest, at)) = next_token(Source::Line, rest, at) else {
        return Ok(None);
    };
    let Some((object, rest, at)) = next_token(Source::Line, rest, at) else {
        return Ok(None);
    };
    let Some((action, rest, at)) = next_token(Source::Line, rest, at) else {
        return Ok(None);
    };
    let Some((sender, object, action)) = asker(&session.lexeme, &object.lexeme, &action.lexeme)
    else {
        return Ok(None);
    };
    match passed_in(alloc, rest, at)? {
        Some(args) => Ok(Some(Step::Request {
            sender,
            object,
            action,
            args,
        })),
        None => Ok(None),
    }
}

// The step of an object's name.
fn named_step(verb: &Name, rest: &[u8], at: usize) -> Option<Step>
    requires { at + length rest.now < 2 ^ 63 }
    ensures { result ≡ whole (spec.named_in verb.now)
        (tokens_from source.Line at rest.now) (bad_from source.Line at rest.now) }
{
    if verb.as_bytes() == b"START".as_slice() {
        Some(Step::Start(sole_name(rest, at)?))
    } else if verb.as_bytes() == b"GO".as_slice() {
        Some(Step::Go(sole_name(rest, at)?))
    } else if verb.as_bytes() == b"ANSWER".as_slice() {
        answer_in(rest, at)
    } else if verb.as_bytes() == b"FAULT".as_slice() {
        Some(Step::Fault(sole_name(rest, at)?))
    } else if verb.as_bytes() == b"KILL".as_slice() {
        kill_in(rest, at)
    } else {
        None
    }
}

// What is behind the first word of a line.
fn step_in(alloc: Global, verb: &Lexeme, rest: &[u8], at: usize) -> Result<Option<Step>, AllocError>
    requires verb { IsLexeme verb.now }
    requires small { at + length rest.now < 2 ^ 63 }
    ensures asked { IfOk result (λ s.
        s ≡ whole (spec.step_in (spec.name_in (lexeme_of verb.now)))
        (tokens_from source.Line at rest.now) (bad_from source.Line at rest.now)) }
    ensures memory { OnErr result (4 ≤ length (lexemes (tokens_from source.Line at rest.now))) }
{
    let Some(verb) = name_in(verb) else {
        return Ok(None);
    };
    if verb.as_bytes() == b"REQUEST".as_slice() {
        request_in(alloc, rest, at)
    } else {
        Ok(named_step(&verb, rest, at))
    }
}

// Why a line is not a step if memory for its arguments ran out: something bad in it, or only that.
#[tactic(auto, using(crate::proofs::Wholes::no_bad))]
fn memory_error(line: &[u8]) -> LineError
    ensures tokens { bad_from source.Line 0 line.now ≡ None → result ≡ error.Memory }
    ensures bad { (bad : ℕ) → bad_from source.Line 0 line.now ≡ Some bad → result ≡ error.BadLine }
{
    laws_of_tokens();
    match first_bad(Source::Line, line) {
        Some(_) => LineError::BadLine,
        None => LineError::Memory,
    }
}

// What a line asks, by its tokens.
fn asked(alloc: Global, line: &[u8]) -> Result<Option<Step>, LineError>
    requires { length line.now ≤ LONGEST_LINE }
    ensures tokens { bad_from source.Line 0 line.now ≡ None →
        spec.AnswersTokens (lexemes (tokens_from source.Line 0 line.now)) result }
    ensures bad { (bad : ℕ) → bad_from source.Line 0 line.now ≡ Some bad → result ≡ Err error.BadLine }
{
    match next_token(Source::Line, line, 0) {
        None if is_end(Source::Line, line) => Ok(None),
        None => Err(LineError::BadLine),
        Some((verb, rest, at)) => match step_in(alloc, &verb.lexeme, rest, at) {
            Ok(Some(step)) => Ok(Some(step)),
            Ok(None) => Err(LineError::BadLine),
            Err(_) => Err(memory_error(line)),
        },
    }
}

/// Reads one line of a schedule without its line feed: the step that it asks, or None if it has no
/// token. (docs/FORMATS.md, "Schedules".) The cost is the length of the line: its tokens are read once,
/// and once more if memory runs out.
///
/// # Errors
///
/// `BadLine` if it does not have the form of a step, has more than 8,192 bytes, or a byte above 0x7F or a
/// line feed; `Memory` if memory for its arguments runs out.
#[tactic(auto, using(crate::proofs::Wholes::no_bad))]
pub fn read_step(alloc: Global, line: &[u8]) -> Result<Option<Step>, LineError>
    ensures { LineReads line.now result }
{
    if !is_line(line) {
        return Err(LineError::BadLine);
    }
    laws_of_tokens();
    asked(alloc, line)
}
