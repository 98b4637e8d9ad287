//! Lines of sessions that were refused for a cause that depends on the run.

use sml_text::Sink;
use sml_writer::Out;

// A session and a count, in front of what is counted.
fn tell_count<W: Sink>(out: &mut Out<'_, W>, session: usize, count: u64) {
    out.say(b"@");
    out.number(session as u64);
    out.say(b": ");
    out.number(count);
}

/// Writes how many requests of a session, counted from 1, found the mailbox of their object full, which has this
/// capacity; nothing if none did.
pub fn tell_full<W: Sink>(out: &mut Out<'_, W>, session: usize, count: u64, capacity: usize) {
    if count == 0 {
        return;
    }
    tell_count(out, session, count);
    out.say(if count == 1 {
        b" request found the mailbox of its object full (--capacity "
    } else {
        b" requests found the mailbox of their object full (--capacity "
    });
    out.number(capacity as u64);
    out.say(b")\n");
}

/// Writes how many requests and kills of a session, counted from 1, came to an object that was killed; nothing if none
/// did.
pub fn tell_dead<W: Sink>(out: &mut Out<'_, W>, session: usize, count: u64) {
    if count == 0 {
        return;
    }
    tell_count(out, session, count);
    out.say(if count == 1 {
        b" request or kill came to an object that was killed\n"
    } else {
        b" requests or kills came to an object that was killed\n"
    });
}
