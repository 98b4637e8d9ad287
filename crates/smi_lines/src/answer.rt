//! The lines that a step writes. Each function writes its part unless a write before it failed, and
//! takes no memory.
ghost use Rattle.sml_text.specs.Written.{Told, StaysDue};
ghost use Rattle.std.specs.Prelude.{◌≡◌};
ghost use Rattle.smi_journal.specs.CallText.{name_or_nothing};
ghost use Rattle.smi_world.specs.Steps as names;
ghost use Rattle.smi_lines.specs.Answers as text;

use smi_journal::{
    Args, Entry, SessionId, tell_call, tell_lines, tell_number, tell_object, tell_session,
    tell_value,
};
use smi_world::{Answer, Step, StepError};
use sml_domain::{ActionId, Domain, ObjId, Param, ParamId, Value};
use sml_text::{Sink, tell};
use sml_tree::Name;

// The word of a refusal.
fn word_of(error: StepError) -> &'static [u8]
    ensures { result.now ≡ text.error_word error }
{
    match error {
        StepError::UnknownObject => b"UnknownObject",
        StepError::UnknownAction => b"UnknownAction",
        StepError::BadArgs => b"BadArgs",
        StepError::Memory => b"Memory",
        StepError::Dead => b"Dead",
        StepError::Full => b"Full",
        StepError::Limit => b"Limit",
        StepError::AlreadyOpen => b"AlreadyOpen",
        StepError::Empty => b"Empty",
        StepError::Associated => b"Associated",
        StepError::NotAssociated => b"NotAssociated",
        StepError::NotOpen => b"NotOpen",
        StepError::NotAState => b"NotAState",
        StepError::AlreadyDead(_) => b"AlreadyDead",
    }
}

/// The line of a refusal, by its word. (docs/FORMATS.md, "Schedules".)
pub fn tell_refused<W: Sink>(writer: &mut W, failed: &mut bool, word: &[u8])
    ensures told { Told (W.contents writer.old) failed.old (W.contents writer.new) failed.new
        (text.refused_text word.now) }
    ensures due { StaysDue (W.has_refused writer.old) failed.old (W.has_refused writer.new) failed.new }
{
    tell(writer, failed, b"refused ");
    tell(writer, failed, word);
    tell(writer, failed, b"\n");
}

// The line of a request that was accepted under a number.
fn tell_accepted<W: Sink>(
    writer: &mut W,
    failed: &mut bool,
    domain: &Domain,
    sender: SessionId,
    object: ObjId,
    number: u64,
    action: ActionId,
    args: &[Value],
)
    ensures told { Told (W.contents writer.old) failed.old (W.contents writer.new) failed.new
        (text.accept_text domain.now sender object number action args.now) }
    ensures due { StaysDue (W.has_refused writer.old) failed.old (W.has_refused writer.new) failed.new }
{
    tell(writer, failed, b"accept");
    tell_session(writer, failed, sender);
    tell_object(writer, failed, domain, object);
    tell_number(writer, failed, number);
    tell_call(writer, failed, domain, object, action, args);
    tell(writer, failed, b"\n");
}

// The line of a step that was accepted under a number, if it is a request.
fn tell_number_given<W: Sink>(
    writer: &mut W,
    failed: &mut bool,
    domain: &Domain,
    step: &Step,
    number: u64,
    args: &Args,
)
    ensures told { Told (W.contents writer.old) failed.old (W.contents writer.new) failed.new
        (text.accepted_text domain.now step.now number args.now) }
    ensures due { StaysDue (W.has_refused writer.old) failed.old (W.has_refused writer.new) failed.new }
{
    if let Step::Request {
        sender,
        object,
        action,
        ..
    } = step
    {
        if let Some(object) = domain.object(object) {
            if let Some(action) = domain.action(action) {
                tell_accepted(
                    writer,
                    failed,
                    domain,
                    *sender,
                    object,
                    number,
                    action,
                    args.values(),
                );
            }
        }
    }
}

// The name of the parameter at a place.
fn name_at(params: &[Param], param: ParamId) -> Option<Name>
    ensures { name_or_nothing result ≡ text.name_at params.now param }
{
    match params.get(param.get()) {
        Some(param) => Some(param.name),
        None => None,
    }
}

// Writes a name, or nothing for None.
fn tell_name<W: Sink>(writer: &mut W, failed: &mut bool, name: Option<Name>)
    ensures told { Told (W.contents writer.old) failed.old (W.contents writer.new) failed.new (name_or_nothing name) }
    ensures due { StaysDue (W.has_refused writer.old) failed.old (W.has_refused writer.new) failed.new }
{
    if let Some(name) = name {
        tell(writer, failed, name.as_bytes());
    }
}

// The line of a parameter that was set.
fn tell_set<W: Sink>(
    writer: &mut W,
    failed: &mut bool,
    domain: &Domain,
    object: ObjId,
    param: ParamId,
    value: &Value,
)
    ensures told { Told (W.contents writer.old) failed.old (W.contents writer.new) failed.new
        (text.parameter_set_text domain.now object param value.now) }
    ensures due { StaysDue (W.has_refused writer.old) failed.old (W.has_refused writer.new) failed.new }
{
    tell(writer, failed, b"set");
    tell_object(writer, failed, domain, object);
    tell(writer, failed, b" ");
    tell_name(
        writer,
        failed,
        name_at(domain.class_parameters(object), param),
    );
    tell(writer, failed, b"=");
    tell_value(writer, failed, value);
    tell(writer, failed, b"\n");
}

// The line of an action that waits on.
fn tell_still<W: Sink>(writer: &mut W, failed: &mut bool, domain: &Domain, object: ObjId)
    ensures told { Told (W.contents writer.old) failed.old (W.contents writer.new) failed.new
        (text.still_text domain.now object) }
    ensures due { StaysDue (W.has_refused writer.old) failed.old (W.has_refused writer.new) failed.new }
{
    tell(writer, failed, b"still");
    tell_object(writer, failed, domain, object);
    tell(writer, failed, b"\n");
}

// The name of the object of a step.
fn object_in(step: &Step) -> &Name
    ensures { result.now ≡ names.object_in step.now }
{
    match step {
        Step::Request { object, .. } => object,
        Step::Start(object) | Step::Go(object) | Step::Fault(object) => object,
        Step::Answer { object, .. } => object,
        Step::Kill { object, .. } => object,
    }
}

// The line of a step that set a parameter.
fn tell_changed<W: Sink>(
    writer: &mut W,
    failed: &mut bool,
    domain: &Domain,
    step: &Step,
    param: ParamId,
    value: &Value,
)
    ensures told { Told (W.contents writer.old) failed.old (W.contents writer.new) failed.new
        (text.changed_text domain.now step.now param value.now) }
    ensures due { StaysDue (W.has_refused writer.old) failed.old (W.has_refused writer.new) failed.new }
{
    if let Some(object) = domain.object(object_in(step)) {
        tell_set(writer, failed, domain, object, param, value);
    }
}

// The line of a step whose action waits on.
fn tell_waits<W: Sink>(writer: &mut W, failed: &mut bool, domain: &Domain, step: &Step)
    ensures told { Told (W.contents writer.old) failed.old (W.contents writer.new) failed.new
        (text.waits_text domain.now step.now) }
    ensures due { StaysDue (W.has_refused writer.old) failed.old (W.has_refused writer.new) failed.new }
{
    if let Some(object) = domain.object(object_in(step)) {
        tell_still(writer, failed, domain, object);
    }
}

/// The lines of the answer to a step, which added entries. (docs/FORMATS.md, "Schedules".) The cost is
/// the length of the lines.
pub fn tell_answer<W: Sink>(
    writer: &mut W,
    failed: &mut bool,
    domain: &Domain,
    step: &Step,
    answer: &Result<Answer, StepError>,
    added: &[Entry],
)
    ensures told { Told (W.contents writer.old) failed.old (W.contents writer.new) failed.new
        (text.answer_text domain.now step.now answer.now added.now) }
    ensures due { StaysDue (W.has_refused writer.old) failed.old (W.has_refused writer.new) failed.new }
{
    match answer {
        Ok(Answer::Accepted { number, args }) => tell_number_given(
            writer, failed, domain, step, *number, args,
        ),
        Ok(Answer::Entries { .. }) => tell_lines(writer, failed, domain, added),
        Ok(Answer::Changed { param, value }) => tell_changed(
            writer, failed, domain, step, *param, value,
        ),
        Ok(Answer::Still) => tell_waits(writer, failed, domain, step),
        Err(error) => tell_refused(writer, failed, word_of(*error)),
    }
}
