//! How a runtime is opened.
ghost use Rattle.std.specs.Prelude.{◌≡◌, ◌<◌, ◌≤◌, ◌+◌, ℕ, [], IfOk, IfErr, None, length, true, vec_len, vec_capacity};
ghost use Rattle.std.specs.List.{All};
ghost use Rattle.std.specs.Arc.{arc_value};
ghost use Rattle.smi_journal_entries.specs.declared.entry.Sender.{Sender};
ghost use Rattle.smi_mail.specs.Drains.{AreAllEnds};
ghost use Rattle.smi_mail.specs.Mails.{requests_taken, requests_sent};
ghost use Rattle.smi_run_report.specs.Reports.{device_count};
ghost use Rattle.smi_run_runtime.specs.Opening.{IsOpenError, are_run_numbers, device_places, open_refusal};
ghost use Rattle.smi_run_runtime.specs.Sessions.{AreEmptyRows, AreSessionsOf, AreUnused};

use crate::errors::OpenError;
use crate::runtime::Runtime;
use crate::session::Session;
use smi_board::Board;
use smi_mail::{MailNames, OperatorEnd, RuledMail};
use smi_run_report::Accepted;
use smi_run_shared::{Crew, Shared, first_slowness};
use sml_domain::{Domain, ObjId};
use std::alloc::{AllocError, Global};
use std::sync::{Arc, Condvar, Mutex, Wait};

/// How many workers a run may have.
pub const MAX_WORKERS: usize = 8;

/// How many starts a run may have.
pub const MAX_STARTS: usize = 1_000_000;

/// The numbers of a run.
#[derive(Clone, Copy, Debug, Eq, PartialEq)]
pub struct Config {
    /// How many workers serve: 1 to `MAX_WORKERS`. `run_scripts` starts them.
    pub workers: usize,
    /// How many requests are started at most: 1 to `MAX_STARTS`.
    pub max_starts: usize,
}

impl Config {
    // Whether the numbers are within their limits.
    fn is_good(&self) -> bool
        ensures { result ≡ are_run_numbers self.now }
    {
        1 <= self.workers
            && self.workers <= MAX_WORKERS
            && 1 <= self.max_starts
            && self.max_starts <= MAX_STARTS
    }
}

// An empty list for each object.
fn new_row(alloc: Global, objects: usize) -> Result<Vec<Vec<Accepted>>, AllocError>
    ensures { IfOk result (λ v. AreEmptyRows objects v) }
{
    let mut row = Vec::with_capacity(alloc, objects)?;
    for _i in 0..objects {
        row.push_reserved(Vec::new(alloc));
    }
    Ok(row)
}

// Such lists for each session.
fn new_rows(
    alloc: Global,
    sessions: usize,
    objects: usize,
) -> Result<Vec<Vec<Vec<Accepted>>>, AllocError>
    ensures { IfOk result (λ v. (length v.items ≡ sessions) × All (AreEmptyRows objects) v.items) }
{
    let mut rows = Vec::with_capacity(alloc, sessions)?;
    for _i in 0..sessions {
        let row = new_row(alloc, objects)?;
        rows.push_reserved(row);
    }
    Ok(rows)
}

// A session for each end, in the same order.
fn make_sessions<K: MailNames>(
    alloc: Global,
    ends: Vec<OperatorEnd<K>>,
    mut rows: Vec<Vec<Vec<Accepted>>>,
    mut sessions: Vec<Session<K>>,
) -> Vec<Session<K>>
    requires ends { AreUnused ends.items }
    requires rows { (length rows.items ≡ length ends.items)
        × All (AreEmptyRows (length K.names.domain.objects)) rows.items }
    requires room { (sessions.items ≡ []) × (length ends.items ≤ vec_capacity sessions) }
    ensures { AreSessionsOf ends.items result.items }
{
    for end in ends {
        let row = rows.pop().unwrap();
        sessions.push_reserved(Session::new(alloc, end, row));
    }
    sessions
}

// How many objects have devices.
#[tactic(auto, using(crate::proofs::Count::one_more, crate::proofs::Count::none_more))]
fn count_devices(domain: &Domain) -> usize
    ensures { result ≡ device_count domain.now }
{
    let mut count = 0usize;
    for o in 0..domain.objects() {
        if domain.associated(ObjId::new(o)) {
            count += 1;
        }
    }
    count
}

// For each object how many of those before it have devices: the place of its own device, if it has one.
#[tactic(auto, using(crate::proofs::Count::one_more, crate::proofs::Count::none_more, crate::proofs::Count::one_place))]
fn device_places(alloc: Global, domain: &Domain) -> Result<Vec<usize>, AllocError>
    ensures { IfOk result (λ v. v.items ≡ device_places domain.now) }
{
    let mut places = Vec::with_capacity(alloc, domain.objects())?;
    let mut count = 0usize;
    for o in 0..domain.objects() {
        places.push(count)?;
        if domain.associated(ObjId::new(o)) {
            count += 1;
        }
    }
    Ok(places)
}

// How slow each object is held to be at first.
fn first_slownesses(alloc: Global, domain: &Domain) -> Result<Vec<u8>, AllocError> {
    let mut list = Vec::with_capacity(alloc, domain.objects())?;
    for o in 0..domain.objects() {
        list.push(first_slowness(domain.associated(ObjId::new(o))))?;
    }
    Ok(list)
}

// Each device under its own lock.
fn lock_devices<D: Drop>(devices: Vec<D>, mut locks: Vec<Mutex<D>>) -> Vec<Mutex<D>>
    requires { vec_len locks + vec_len devices ≤ vec_capacity locks }
    ensures { length result.items ≡ length locks.items + length devices.items }
{
    for device in devices {
        locks.push_reserved(Mutex::new(device));
    }
    locks
}

// The memory that a runtime needs beside its board.
#[derive(Drop)]
struct OpenRoom<D: Drop, K: MailNames> {
    rows: Vec<Vec<Vec<Accepted>>>,
    sessions: Vec<Session<K>>,
    places: Vec<usize>,
    slowness: Vec<u8>,
    locks: Vec<Mutex<D>>,
    domain: Arc<Domain>,
}

fn grow<D: Drop, K: MailNames>(
    alloc: Global,
    domain: &Arc<Domain>,
    sessions: usize,
    devices: usize,
) -> Result<OpenRoom<D, K>, AllocError>
    ensures rows { IfOk result (λ r. (length r.rows.items ≡ sessions)
        × All (AreEmptyRows (length (arc_value domain.now).objects)) r.rows.items) }
    ensures sessions { IfOk result (λ r. (r.sessions.items ≡ []) × (sessions ≤ vec_capacity r.sessions)) }
    ensures locks { IfOk result (λ r. (r.locks.items ≡ []) × (devices ≤ vec_capacity r.locks)) }
    ensures domain { IfOk result (λ r. arc_value r.domain ≡ arc_value domain.now) }
    ensures places { IfOk result (λ r. r.places.items ≡ device_places (arc_value domain.now)) }
{
    let rows = new_rows(alloc, sessions, domain.objects())?;
    let sessions = Vec::with_capacity(alloc, sessions)?;
    let places = device_places(alloc, domain)?;
    let slowness = first_slownesses(alloc, domain)?;
    let locks = Vec::with_capacity(alloc, devices)?;
    let domain = Arc::try_clone(domain)?;
    Ok(OpenRoom {
        rows,
        sessions,
        places,
        slowness,
        locks,
        domain,
    })
}

// The board of a run, which starts as many requests as the numbers of the run say.
fn new_board<R: Wait + Copy + Send, K: MailNames>(
    alloc: Global,
    domain: Arc<Domain>,
    mail: RuledMail<R, K>,
    config: Config,
) -> Result<Board<RuledMail<R, K>>, RuledMail<R, K>>
    requires domain { arc_value domain ≡ K.names.domain }
    requires taken { (o : ℕ) → requests_taken mail o ≡ [] }
    requires sent { (s : Sender) (o : ℕ) → requests_sent mail s o ≡ [] }
    ensures most { IfOk result (λ b. b.most ≡ config.max_starts) }
    ensures back { IfErr result (λ m. m ≡ mail) }
{
    match Board::new(alloc, domain, mail, config.max_starts) {
        Ok(board) => Ok(board),
        Err((_, mail)) => Err(mail),
    }
}

impl<R: Wait + Copy + Send, K: MailNames, D: Drop> Runtime<R, K, D> {
    /// Opens a runtime over mail with all its ends, of which nothing was sent or taken, with a session for each end,
    /// in the order of the ends. The devices are those of the associated objects, in the order of their declarations.
    ///
    /// The refusals are looked for in the order of `OpenError`, and on a refusal all is returned.
    pub fn open(
        alloc: Global,
        domain: Arc<Domain>,
        mail: RuledMail<R, K>,
        ends: Vec<OperatorEnd<K>>,
        devices: Vec<D>,
        config: Config,
    ) -> Result<
        (Runtime<R, K, D>, Vec<Session<K>>),
        (OpenError, RuledMail<R, K>, Vec<OperatorEnd<K>>, Vec<D>),
    >
        requires domain { arc_value domain ≡ K.names.domain }
        requires ends { AreAllEnds K.names.sessions ends.items }
        requires unused { AreUnused ends.items }
        requires taken { (o : ℕ) → requests_taken mail o ≡ [] }
        requires sent { (s : Sender) (o : ℕ) → requests_sent mail s o ≡ [] }
        ensures free { IfOk result (λ r. open_refusal K.names.domain config (length devices.items) ≡ None) }
        ensures open { IfOk result (λ r. (r.0 ≡ config) × AreSessionsOf ends.items r.1.items) }
        ensures refused { IfErr result (λ r.
            IsOpenError (open_refusal K.names.domain config (length devices.items)) r.0) }
        ensures back { IfErr result (λ r. (r.1 ≡ mail) × (r.2.items ≡ ends.items) × (r.3.items ≡ devices.items)) }
    {
        if !config.is_good() {
            return Err((OpenError::BadConfig, mail, ends, devices));
        }
        if devices.len() != count_devices(&domain) {
            return Err((OpenError::DeviceCount, mail, ends, devices));
        }
        let count = ends.len();
        let room = match grow::<D, K>(alloc, &domain, count, devices.len()) {
            Ok(room) => room,
            Err(_) => return Err((OpenError::Memory, mail, ends, devices)),
        };
        let board = match new_board(alloc, domain, mail, config) {
            Ok(board) => board,
            Err(mail) => return Err((OpenError::Memory, mail, ends, devices)),
        };
        let OpenRoom {
            rows,
            sessions,
            places,
            slowness,
            locks,
            domain,
        } = room;
        let sessions = make_sessions(alloc, ends, rows, sessions);
        let runtime = Runtime {
            shared: Mutex::new(Shared::new(board, count, Crew::new(slowness))),
            changed: Condvar::new(),
            devices: lock_devices(devices, locks),
            places,
            domain,
            sessions: count,
            config,
        };
        Ok((runtime, sessions))
    }
}
