//! What a line of a script says.
ghost use Rattle.std.specs.Prelude.{◌≡◌, ◌≤◌, ◌<◌, ◌^◌, ◌+◌, IfOk, IfSome, length};
ghost use Rattle.std.specs.Option.{option_and_then};
ghost use Rattle.sml_text.specs.Stream.{tokens_from};
ghost use Rattle.sml_text.specs.Views.{lexeme_of, IsLexeme};
ghost use Rattle.sml_text.specs.declared.source.Source.TheVariants as source;
ghost use Rattle.sml_domain.specs.Lookups.{object_named, action_named, state_named};
ghost use Rattle.smi_lines.specs.Line as lines;
ghost use Rattle.smi_lines.specs.Line.{lexemes};
ghost use Rattle.smi_run_plan.specs.Says as spec;
ghost use Rattle.smi_run_plan.specs.Says.{LineSays, DeviceLineSays, IsSaidOf};

use smi_journal_entries::SessionId;
use smi_lines::{LineError, is_line, name_in, read_step};
use smi_world::{Arguments, Step};
use sml_domain::{ActionId, Domain, ObjId, StateId};
use sml_text::{Lexeme, Source, first_bad, laws_of_tokens, next_token};
use sml_tree::Name;
use std::alloc::{AllocError, Global};

/// What a session does, as a line of a script says it: each name at its full length.
#[derive(Drop)]
pub enum Deed {
    /// It posts a request.
    Post {
        object: Name,
        action: Name,
        given: Arguments,
    },
    /// It kills an object.
    Kill(Name),
}

/// What a line of a script says.
#[derive(Drop)]
pub enum Said {
    /// The line has no token.
    Nothing,
    /// A session does something.
    Asks {
        session: SessionId,
        deed: Deed,
    },
    /// The device of an object answers an action by a state.
    Answers {
        object: ObjId,
        action: ActionId,
        state: StateId,
    },
}

// Whether a token is the word `device`.
fn is_device(lexeme: &Lexeme) -> bool
    requires { IsLexeme lexeme.now }
    ensures { result ≡ spec.is_device (lines.name_in (lexeme_of lexeme.now)) }
{
    match name_in(lexeme) {
        Some(word) => word.as_bytes() == b"DEVICE".as_slice(),
        None => false,
    }
}

// What a device answers, by the tokens of the object, the action and the state.
fn device_answer(domain: &Domain, object: &Lexeme, action: &Lexeme, state: &Lexeme) -> Option<Said>
    requires object { IsLexeme object.now }
    requires action { IsLexeme action.now }
    requires state { IsLexeme state.now }
    ensures is { result ≡ spec.device_answer domain.now (lines.name_in (lexeme_of object.now))
        (lines.name_in (lexeme_of action.now)) (lines.name_in (lexeme_of state.now)) }
    ensures fits { IfSome result (IsSaidOf domain.now) }
{
    Some(Said::Answers {
        object: domain.object(&name_in(object)?)?,
        action: domain.action(&name_in(action)?)?,
        state: domain.state(&name_in(state)?)?,
    })
}

// What the tokens of a line say, where they are those of a device.
fn device_in(domain: &Domain, line: &[u8]) -> Option<Said>
    requires { length line.now ≤ 8192 }
    ensures is { result ≡ spec.device_in domain.now (lexemes (tokens_from source.Line 0 line.now)) }
    ensures fits { IfSome result (IsSaidOf domain.now) }
{
    let (word, rest, at) = next_token(Source::Line, line, 0)?;
    let (object, rest, at) = next_token(Source::Line, rest, at)?;
    let (action, rest, at) = next_token(Source::Line, rest, at)?;
    let (state, rest, at) = next_token(Source::Line, rest, at)?;
    if next_token(Source::Line, rest, at).is_some() || !is_device(&word.lexeme) {
        return None;
    }
    device_answer(domain, &object.lexeme, &action.lexeme, &state.lexeme)
}

// What a line says, where it is one of a device.
fn device_line(domain: &Domain, line: &[u8]) -> Option<Said>
    ensures says { DeviceLineSays domain.now line.now result }
    ensures fits { IfSome result (IsSaidOf domain.now) }
{
    if !is_line(line) {
        return None;
    }
    laws_of_tokens();
    match first_bad(Source::Line, line) {
        Some(_) => None,
        None => device_in(domain, line),
    }
}

// What a step says in a script: only requests and kills say something there.
fn said_by(step: Step) -> Option<Said>
    ensures { result ≡ spec.said_by step }
{
    match step {
        Step::Request {
            sender,
            object,
            action,
            args,
        } => Some(Said::Asks {
            session: sender,
            deed: Deed::Post {
                object,
                action,
                given: args,
            },
        }),
        Step::Kill { object, session } => Some(Said::Asks {
            session,
            deed: Deed::Kill(object),
        }),
        Step::Start(_) | Step::Go(_) | Step::Answer { .. } | Step::Fault(_) => None,
    }
}

/// Reads one line of a script without its line feed: what it says, or None if it is not a line of a script. The cost
/// is the length of the line, and in a line of a device the count of objects.
pub fn read_line(alloc: Global, domain: &Domain, line: &[u8]) -> Result<Option<Said>, AllocError>
    ensures said { IfOk result (LineSays domain.now line.now) }
    ensures fits { IfOk result (λ r. IfSome r (IsSaidOf domain.now)) }
{
    match read_step(alloc, line) {
        Ok(None) => Ok(Some(Said::Nothing)),
        Ok(Some(step)) => Ok(said_by(step)),
        Err(LineError::BadLine) => Ok(device_line(domain, line)),
        Err(LineError::Memory) => Err(AllocError),
    }
}
