//! What becomes of a session in a run.

use crate::script::Line;
use smi_mail::MailNames;
use smi_run_runtime::{Closed, KillError, PostError, Runtime, Session};
use std::alloc::Global;
use std::marker::Model;
use std::sync::Wait;

/// How many lines of a session were refused, and how many of these for a cause that depends on the run.
#[derive(Clone, Copy, Debug, Eq, PartialEq)]
pub struct Refusals {
    /// All of them.
    pub all: u64,
    /// Requests that found the mailbox of their object full.
    pub full: u64,
    /// Requests and kills that came to an object which was killed.
    pub dead: u64,
    /// Lines for which memory ran out.
    pub memory: u64,
}

impl Refusals {
    // No line was refused.
    fn none() -> Refusals {
        Refusals {
            all: 0,
            full: 0,
            dead: 0,
            memory: 0,
        }
    }

    // Counts a line that was refused.
    fn count(&mut self, why: LineError) {
        self.all = self.all.saturating_add(1);
        match why {
            LineError::Full => self.full = self.full.saturating_add(1),
            LineError::Dead => self.dead = self.dead.saturating_add(1),
            LineError::Memory => self.memory = self.memory.saturating_add(1),
            LineError::Other => {}
        }
    }
}

// A session that has not played, or one that has left: one of the two is there, and a lock around this keeps that.
// Beside it how many of its lines were refused.
#[derive(Drop)]
pub(crate) struct Player<K: MailNames> {
    session: Option<Session<K>>,
    closed: Option<Closed<K>>,
    refused: Refusals,
}

impl<K: MailNames> Model for Player<K> {
    ghost use Rattle.std.specs.Prelude.{◌≡◌, ◌||◌, is_some, true};
    ghost use Rattle.smi_run.specs.declared.player.Refusals as refusals;

    ghost Value = { refusals.Refusals };

    ghost view = { λ p. p.refused };

    ghost invariant = { λ p. (is_some p.session || is_some p.closed) ≡ true };
}

// Why a line was refused.
#[derive(Clone, Copy, Eq, PartialEq)]
enum LineError {
    Full,
    Dead,
    Memory,
    Other,
}

// A session does what a line says.
fn make_line<R: Wait + Copy + Send, K: MailNames, D>(
    rt: &R,
    alloc: Global,
    runtime: &Runtime<R, K, D>,
    session: &mut Session<K>,
    line: &Line,
) -> Result<(), LineError> {
    match line {
        Line::Post {
            object,
            action,
            given,
        } => match session.post(rt, alloc, runtime, object, action, given.list()) {
            Ok(_) => Ok(()),
            Err(PostError::Memory) => Err(LineError::Memory),
            Err(PostError::Full) => Err(LineError::Full),
            Err(PostError::Dead(_)) => Err(LineError::Dead),
            Err(_) => Err(LineError::Other),
        },
        Line::Kill { object } => match session.kill(rt, runtime, object) {
            Ok(_) => Ok(()),
            Err(KillError::Memory) => Err(LineError::Memory),
            Err(KillError::AlreadyDead(_)) => Err(LineError::Dead),
            Err(_) => Err(LineError::Other),
        },
    }
}

// A session does what lines say in order. Returns how many were refused.
fn make_lines<R: Wait + Copy + Send, K: MailNames, D>(
    rt: &R,
    alloc: Global,
    runtime: &Runtime<R, K, D>,
    session: &mut Session<K>,
    lines: &[Line],
) -> Refusals {
    let mut refused = Refusals::none();
    for line in lines {
        if let Err(why) = make_line(rt, alloc, runtime, session, line) {
            refused.count(why);
        }
    }
    refused
}

impl<K: MailNames> Player<K> {
    // A session that has not played.
    pub(crate) fn new(session: Session<K>) -> Player<K> {
        Player {
            session: Some(session),
            closed: None,
            refused: Refusals::none(),
        }
    }

    // The session does what lines say, and leaves. Nothing is done if it has left before.
    pub(crate) fn play<R: Wait + Copy + Send, D>(
        &mut self,
        rt: &R,
        alloc: Global,
        runtime: &Runtime<R, K, D>,
        lines: &[Line],
    ) {
        let Some(mut session) = self.session.take() else {
            return;
        };
        self.refused = make_lines(rt, alloc, runtime, &mut session, lines);
        self.closed = Some(runtime.leave(rt, session));
    }

    // Returns the session that has left, and how many of its lines were refused. A session that has not played leaves
    // now.
    pub(crate) fn close<R: Wait + Copy + Send, D>(
        self,
        rt: &R,
        runtime: &Runtime<R, K, D>,
    ) -> (Closed<K>, Refusals) {
        let Player {
            session,
            closed,
            refused,
        } = self;
        let one = match (session, closed) {
            (Some(session), _) => runtime.leave(rt, session),
            (None, Some(closed)) => closed,
            (None, None) => unreachable!(),
        };
        (one, refused)
    }
}
