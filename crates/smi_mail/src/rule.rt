//! The rule of one mailbox, as the queue's protocol: what each pass knows, and what each kind of step changes in
//! whose view. (`specs/Rule.antt`.) No value of the views is made: only contracts see them.
use crossbeam_queue::protocol::{Join, Lesson, Outcome, Protocol, Split};
use crossbeam_queue::{Pass, RuledArrayQueue};
use smi_journal_entries::Envelope;
use sml_domain::{Domain, ObjId};
use std::collections::LinkedList;
use std::marker::{Brand, PhantomData};

/// An object of a domain.
pub struct Kind {
    pub domain: Domain,
    pub object: ObjId,
}

/// What the board's pass knows of a mailbox.
pub struct BoardView {
    // What is sent to the mailbox fits this object.
    pub kind: Kind,
    pub capacity: u64,
    // The mailbox holds no more than this once all sessions have ended.
    pub most: u64,
    // How many sessions were made, one that never sends counted, so that numbers begin at 1.
    pub made: u64,
    // What was taken.
    pub taken: LinkedList<Envelope>,
    // What was taken once all sessions had ended.
    pub left: LinkedList<Envelope>,
    // What objects sent.
    pub sent: LinkedList<Envelope>,
    // What each of the first sessions sent, which have ended.
    pub known: LinkedList<LinkedList<Envelope>>,
}

/// What the pass of a session knows of a mailbox.
pub struct SessionView {
    pub kind: Kind,
    pub capacity: u64,
    pub session: u64,
    pub sent: LinkedList<Envelope>,
}

/// What a pass of a mailbox knows. A pass that was joined knows nothing.
pub enum Knows {
    Board(BoardView),
    Session(SessionView),
    Nothing,
}

/// The protocol of a mailbox: its rule holds after every step.
pub struct MailboxProtocol;

impl Protocol<Envelope, Knows> for MailboxProtocol {
    ghost use Rattle.smi_mail.specs.Rule.{unnamed, KeepsRule};

    ghost holds = { KeepsRule };

    ghost first = { unnamed };
}

/// A push that was done: what its sender sent is longer by it.
pub struct Sends;

impl Outcome<Envelope, Knows> for Sends {
    ghost use Rattle.std.specs.Prelude.{◌≡◌};
    ghost use Rattle.smi_mail.specs.Rule.{after_send};

    ghost then = { λ v x w. w ≡ after_send v x };
}

impl Lesson<Envelope, Knows> for Sends {
    ghost fact = { λ v items. Unit {0} };
}

/// A pop by the board: what was taken is longer by it; at an empty queue, all that objects sent is taken.
pub struct Takes;

impl Outcome<Envelope, Knows> for Takes {
    ghost use Rattle.smi_mail.specs.Rule.{HasTaken};

    ghost then = { HasTaken };
}

impl Lesson<Envelope, Knows> for Takes {
    ghost use Rattle.smi_mail.specs.Rule.{Holds};

    ghost fact = { Holds };
}

/// A pop from a mailbox to which nobody sends any more: what is left is longer by it.
pub struct Drains;

impl Outcome<Envelope, Knows> for Drains {
    ghost use Rattle.smi_mail.specs.Rule.{HasDrained};

    ghost then = { HasDrained };
}

impl Lesson<Envelope, Knows> for Drains {
    ghost use Rattle.smi_mail.specs.Rule.{Settles};

    ghost fact = { Settles };
}

/// What a mailbox is made for, its object and its capacity. The call that makes it picks them.
pub trait Shape {
    ghost use Rattle.std.specs.Prelude.{ℕ};
    ghost use Rattle.smi_mail.specs.declared.rule.Kind.{Kind};

    ghost kind: { Kind };

    ghost capacity: { ℕ };
}

impl Shape for Brand {
    ghost use Rattle.smi_mail.specs.Rule.{no_kind};

    ghost kind = { no_kind };

    ghost capacity = { 0 };
}

/// The board's pass learns the domain and the capacity.
pub struct Names<S: Shape> {
    of: PhantomData<S>,
}

impl<S: Shape> Split<Knows> for Names<S> {
    ghost use Rattle.smi_mail.specs.Rule.{view_named};
    ghost use Rattle.smi_mail.specs.declared.rule.Knows.TheVariants.{Nothing};

    ghost left = { view_named S.kind S.capacity };

    ghost right = { λ v. Nothing };
}

/// The board's pass splits off one for one more session.
pub struct Seats;

impl Split<Knows> for Seats {
    ghost use Rattle.smi_mail.specs.Rule.{with_session, session_of};

    ghost left = { with_session };

    ghost right = { session_of };
}

/// The board's pass joins a session's, and takes in what that session sent.
pub struct Ends;

impl Join<Knows> for Ends {
    ghost use Rattle.smi_mail.specs.Rule.{view_joined};
    ghost use Rattle.smi_mail.specs.declared.rule.Knows.TheVariants.{Nothing};

    ghost both = { view_joined };

    ghost spent = { Nothing };
}

/// The queue of one mailbox.
pub type Queue = RuledArrayQueue<Envelope, Knows, MailboxProtocol>;

/// What leads to such a queue, with what is known of it.
pub type MailPass = Pass<Envelope, Knows>;
