//! What lines of a journal consist of, told to an `Out`: names, sessions, numbers, values, calls, and whole lines. Each
//! function writes its part unless a write before failed, takes no memory, and costs the length of what it writes.
#![tactic(auto)]

ghost use Rattle.sml_text.specs.Decimal.{decimal_text};
ghost use Rattle.sml_writer.specs.Tells.{Tells};
ghost use Rattle.smi_journal.specs.CallText as text;
ghost use Rattle.smi_journal.specs.EntryText as entry_text;
ghost use Rattle.smi_journal.specs.JournalText as lines;

use smi_journal::{Entry, SessionId};
use sml_domain::{ActionId, Domain, ObjId, SetId, Value};
use sml_text::Sink;
use sml_writer::Out;

/// The name of an object with a blank before it, or only the blank if no object has the number.
pub fn tell_object<W: Sink>(out: &mut Out<'_, W>, domain: &Domain, o: ObjId)
    ensures { Tells W.contents W.has_refused out.old out.new (text.spaced (text.object_name_text domain.now o)) }
{
    smi_journal::tell_object(&mut *out.writer, &mut out.failed, domain, o);
}

/// The name of a set with a blank before it, or only the blank if no set has the number.
pub fn tell_set<W: Sink>(out: &mut Out<'_, W>, domain: &Domain, set: SetId)
    ensures { Tells W.contents W.has_refused out.old out.new (text.spaced (text.set_name_text domain.now set)) }
{
    smi_journal::tell_set(&mut *out.writer, &mut out.failed, domain, set);
}

/// A session with a blank before it.
pub fn tell_session<W: Sink>(out: &mut Out<'_, W>, session: SessionId)
    ensures { Tells W.contents W.has_refused out.old out.new (text.spaced (entry_text.session_text session)) }
{
    smi_journal::tell_session(&mut *out.writer, &mut out.failed, session);
}

/// A number with a blank before it.
pub fn tell_number<W: Sink>(out: &mut Out<'_, W>, number: u64)
    ensures { Tells W.contents W.has_refused out.old out.new (text.spaced (decimal_text number)) }
{
    smi_journal::tell_number(&mut *out.writer, &mut out.failed, number);
}

/// A value: an int in decimal digits, a string in quotes.
pub fn tell_value<W: Sink>(out: &mut Out<'_, W>, value: &Value)
    ensures { Tells W.contents W.has_refused out.old out.new (text.value_text value.now) }
{
    smi_journal::tell_value(&mut *out.writer, &mut out.failed, value);
}

/// An action with its arguments at an object, each by the name of its parameter, and a blank before it. No arguments
/// are written of an action that the object's class does not have.
pub fn tell_call<W: Sink>(
    out: &mut Out<'_, W>,
    domain: &Domain,
    o: ObjId,
    action: ActionId,
    values: &[Value],
)
    ensures { Tells W.contents W.has_refused out.old out.new
        (text.spaced (text.call_text domain.now o action values.now)) }
{
    smi_journal::tell_call(&mut *out.writer, &mut out.failed, domain, o, action, values);
}

/// The lines of entries.
pub fn tell_lines<W: Sink>(out: &mut Out<'_, W>, domain: &Domain, entries: &[Entry])
    ensures { Tells W.contents W.has_refused out.old out.new (lines.lines_text domain.now entries.now) }
{
    smi_journal::tell_lines(&mut *out.writer, &mut out.failed, domain, entries);
}
