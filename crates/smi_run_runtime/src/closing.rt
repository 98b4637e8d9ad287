//! How a runtime is closed.
ghost use Rattle.std.specs.Prelude.{◌≡◌, ◌<◌, ◌≤◌, ◌++◌, ◌+◌, ℕ, [], IfOk, IfErr, OnOk, Some, length, vec_capacity, vec_len};
ghost use Rattle.smi_run_report.specs.Receipts.{unmet_among};
ghost use Rattle.smi_run_report.specs.Reports.{device_count};
ghost use Rattle.smi_run_report.specs.Told.{accepted_in};
ghost use Rattle.smi_run_runtime.specs.declared.errors.FinishError.TheVariants.{Missing, Memory};
ghost use Rattle.smi_run_runtime.specs.Closing.{AreAllThere, AreSlots, IsMissing, IsRoomFor, all_unmet, closed_of, receipts_of};
ghost use Rattle.smi_run_runtime.specs.Sessions.{SessionBook, told_at};

use crate::errors::FinishError;
use crate::runtime::Runtime;
use crate::seats::{closed_at, is_missing, new_slots, split_all};
use crate::session::Closed;
use smi_board::Board;
use smi_journal_entries::Entry;
use smi_mail::{DrainRoom, MailNames, OperatorEnd, RuledMail};
use smi_run_report::{Accepted, Receipt, Report, add_unmet};
use std::alloc::{AllocError, Global};
use std::sync::{Mutex, Wait};

// Adds the receipts of a session that do not agree with the journal.
fn add_unmet_at<K: MailNames>(
    journal: &[Entry],
    closed: &[Closed<K>],
    session: usize,
    unmet: &mut Vec<Receipt>,
) -> Result<(), AllocError>
    ensures { OnOk result (unmet.new.items ≡ unmet.old.items
        ++ unmet_among journal.now (receipts_of (closed_of closed.now session))) }
{
    match closed_at(closed, session) {
        Some(one) => add_unmet(journal, one.receipts(), unmet),
        None => Ok(()),
    }
}

// The receipts that do not agree with the journal, by sessions.
fn unmet_of<K: MailNames>(
    alloc: Global,
    journal: &[Entry],
    closed: &[Closed<K>],
    sessions: usize,
) -> Result<Vec<Receipt>, AllocError>
    ensures { IfOk result (λ v. v.items ≡ all_unmet journal.now closed.now sessions) }
{
    let mut unmet = Vec::new(alloc);
    for k in 0..sessions {
        add_unmet_at(journal, closed, k + 1, &mut unmet)?;
    }
    Ok(unmet)
}

// The memory that a report needs.
#[derive(Drop)]
struct CloseRoom<D: Drop, K: MailNames> {
    mail: DrainRoom<K>,
    unmet: Vec<Receipt>,
    slots: Vec<Option<Closed<K>>>,
    ends: Vec<OperatorEnd<K>>,
    accepted: Vec<Vec<Vec<Accepted>>>,
    devices: Vec<D>,
}

fn grow<R: Wait + Copy + Send, D: Drop, K: MailNames>(
    alloc: Global,
    board: &Board<RuledMail<R, K>>,
    closed: &[Closed<K>],
    sessions: usize,
    devices: usize,
) -> Result<CloseRoom<D, K>, AllocError>
    ensures unmet { IfOk result (λ r. r.unmet.items ≡ all_unmet board.now.journal closed.now sessions) }
    ensures slots { IfOk result (λ r. AreSlots sessions [] r.slots.items) }
    ensures room { IfOk result (λ r. IsRoomFor sessions r.ends × IsRoomFor sessions r.accepted
        × IsRoomFor devices r.devices) }
{
    let mail = board.drain_room()?;
    let unmet = unmet_of(alloc, board.journal(), closed, sessions)?;
    let slots = new_slots(alloc, sessions)?;
    let ends = Vec::with_capacity(alloc, sessions)?;
    let accepted = Vec::with_capacity(alloc, sessions)?;
    let devices = Vec::with_capacity(alloc, devices)?;
    Ok(CloseRoom {
        mail,
        unmet,
        slots,
        ends,
        accepted,
        devices,
    })
}

// The devices, out of their locks.
fn unlock_all<D: Drop>(locks: Vec<Mutex<D>>, mut devices: Vec<D>) -> Vec<D>
    requires { vec_len devices + vec_len locks ≤ vec_capacity devices }
    ensures { length result.items ≡ length devices.items + length locks.items }
{
    for lock in locks {
        devices.push_reserved(lock.into_inner());
    }
    devices
}

// The report, for which all room was made.
fn settle<R: Wait + Copy + Send, D: Drop, K: MailNames>(
    board: Board<RuledMail<R, K>>,
    locks: Vec<Mutex<D>>,
    closed: Vec<Closed<K>>,
    room: CloseRoom<D, K>,
    sessions: usize,
) -> Report<D, K>
    requires sessions { sessions ≡ K.names.sessions }
    requires all { AreAllThere sessions closed.items }
    requires slots { AreSlots sessions [] room.slots.items }
    requires room { IsRoomFor sessions room.ends × IsRoomFor sessions room.accepted
        × IsRoomFor (length locks.items) room.devices }
    requires devices { length locks.items ≡ device_count K.names.domain }
    ensures accepted { (k o : ℕ) (s : SessionBook) → k < sessions → closed_of closed.items (k + 1) ≡ Some s →
        accepted_in result.accepted k o ≡ told_at s o }
    ensures unmet { result.unmet ≡ room.unmet.items }
    ensures journal { result.journal ≡ board.journal }
{
    let CloseRoom {
        mail,
        unmet,
        slots,
        ends,
        accepted,
        devices,
    } = room;
    let (ends, accepted) = split_all(closed, slots, ends, accepted, sessions);
    let devices = unlock_all(locks, devices);
    Report::close(board, mail, ends, accepted, unmet, devices)
}

impl<R: Wait + Copy + Send, K: MailNames, D: Drop> Runtime<R, K, D> {
    /// Returns the report, once every session has left: `closed` has them, in any order. The refusals are looked for
    /// in the order of `FinishError`, and on a refusal all is returned.
    ///
    /// All memory is taken before anything is given up: room for what the mailboxes can hold, and for each receipt
    /// that is not met. What the report says, its type keeps: `Report::tells`.
    pub fn finish(
        self,
        alloc: Global,
        closed: Vec<Closed<K>>,
    ) -> Result<Report<D, K>, (FinishError, Runtime<R, K, D>, Vec<Closed<K>>)>
        ensures missing { IfErr result (λ r. r.0 ≡ Missing → IsMissing K.names.sessions closed.items) }
        ensures memory { IfErr result (λ r. r.0 ≡ Memory → AreAllThere K.names.sessions closed.items) }
        ensures all { IfOk result (λ r. AreAllThere K.names.sessions closed.items) }
        ensures accepted { IfOk result (λ r. (k o : ℕ) (s : SessionBook) → k < K.names.sessions →
            closed_of closed.items (k + 1) ≡ Some s → accepted_in r.accepted k o ≡ told_at s o) }
        ensures unmet { IfOk result (λ r. r.unmet ≡ all_unmet r.journal closed.items K.names.sessions) }
        ensures back { IfErr result (λ r. (r.1 ≡ self) × (r.2.items ≡ closed.items)) }
    {
        if is_missing(&closed, self.sessions) {
            return Err((FinishError::Missing, self, closed));
        }
        let Runtime {
            shared,
            changed,
            devices,
            places,
            domain,
            sessions,
            config,
        } = self;
        let shared = shared.into_inner();
        match grow(alloc, &shared.board, &closed, sessions, devices.len()) {
            Err(_) => {
                let runtime = Runtime {
                    shared: Mutex::new(shared),
                    changed,
                    devices,
                    places,
                    domain,
                    sessions,
                    config,
                };
                Err((FinishError::Memory, runtime, closed))
            }
            Ok(room) => Ok(settle(shared.into_board(), devices, closed, room, sessions)),
        }
    }
}
