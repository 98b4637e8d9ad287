//! Entries.
ghost use Rattle.std.specs.Prelude.{◌≡◌};
ghost use Rattle.smi_journal_entries.specs.Requests as says;

use crate::args::{Args, Readings};
use crate::members::Members;
use crate::session::SessionId;
use sml_domain::{ActionId, ObjId, SetId, StateId};

/// Who sends a request: an operator's session or an object.
#[derive(Clone, Copy, Eq, PartialEq)]
pub enum Sender {
    Operator(SessionId),
    Object(ObjId),
}

impl Sender {
    /// Whether two senders are the same.
    pub fn is(&self, other: &Sender) -> bool
        ensures { result ≡ says.same_sender self.now other.now }
    {
        match (self, other) {
            (Sender::Operator(x), Sender::Operator(y)) => x.get() == y.get(),
            (Sender::Object(x), Sender::Object(y)) => x.get() == y.get(),
            _ => false,
        }
    }
}

/// What became of a post.
#[derive(Clone, Copy, Eq, PartialEq)]
pub enum Verdict {
    /// Accepted under this number.
    Accepted(u64),
    /// Refused, since the target's mailbox was full.
    Full,
    /// Refused, since the target was killed.
    Dead,
}

/// How an action ended.
#[derive(Clone, Copy, Eq, PartialEq)]
pub enum ActionEnd {
    /// In this state.
    State(StateId),
    /// Not begun, since the object's state does not declare it.
    Skipped,
}

/// Why an object was killed.
#[derive(Clone, Copy, Eq, PartialEq)]
pub enum Cause {
    /// By an operator's session.
    By(SessionId),
    /// By a fault of its device.
    Fault,
}

/// What is journaled.
#[derive(Drop)]
pub enum Entry {
    /// An object takes a request and opens its action.
    Start {
        object: ObjId,
        sender: Sender,
        number: u64,
        action: ActionId,
        args: Args,
    },
    /// The open action of an object sends a request to a target.
    Post {
        sender: ObjId,
        target: ObjId,
        verdict: Verdict,
        action: ActionId,
        args: Args,
    },
    /// The open action of an object waits for objects that are not clear.
    Wait {
        object: ObjId,
    },
    /// The open action of an object reads states.
    Seen {
        object: ObjId,
        readings: Readings,
    },
    /// The open action of an object ends.
    End {
        object: ObjId,
        result: ActionEnd,
    },
    /// An object is killed.
    Kill {
        object: ObjId,
        cause: Cause,
    },
    /// The open action of an object puts a member into a set, behind the others, if it is not there yet.
    Insert {
        object: ObjId,
        member: ObjId,
        set: SetId,
    },
    /// The open action of an object takes a member out of a set, if it is there.
    Remove {
        object: ObjId,
        member: ObjId,
        set: SetId,
    },
    /// The open action of an object sends a request to the members of a set without members.
    NoMember {
        object: ObjId,
        set: SetId,
    },
}

/// What the open action of an object was answered: the verdict of a post, what an `if` or a `wait` read, or that a
/// set had no member to post to, each with the members that sets had then; or that a set was changed.
#[derive(Drop)]
pub enum MoveReply {
    Told(Verdict, Members),
    Read(Readings, Members),
    Nobody(Members),
    Changed,
}
