//! Runs with a thread for each worker and each session.
ghost use Rattle.std.specs.Prelude.{◌≡◌, ◌≤◌, ◌+◌, IfErr, IfOk, length, vec_len, vec_capacity};
ghost use Rattle.smi_journal_entries.specs.Words.{all_starts};
ghost use Rattle.smi_run_report.specs.Rests.{IsAtRest, IsLeftAtStopped};
ghost use Rattle.smi_run_runtime.specs.Closing.{IsRoomFor};
ghost use Rattle.smi_run.specs.Rooms.{ComeBack};
ghost use Rattle.smi_run_shared.specs.declared.ending.ServeEnd.TheVariants.{Limit, Quiet};

use crate::player::{Player, Refusals};
use crate::script::Script;
use crate::watch::{Unwatched, Watch, watch_all};
use crate::workers::Workers;
use smi_mail::MailNames;
use smi_run_report::Report;
use smi_run_runtime::{Closed, FinishError, Runtime, Session};
use smi_run_shared::{Device, ServeEnd};
use std::alloc::{AllocError, Global};
use std::sync::{Mutex, Wait};
use std::thread;
use std::thread::Threads;

// A session's place in a run, and where it takes memory from.
#[derive(Drop)]
struct Seat<K: MailNames> {
    player: Mutex<Player<K>>,
    place: usize,
    alloc: Global,
}

// One worker.
fn work<R: Wait + Copy + Send, K: MailNames, D: Device>(
    rt: &R,
    runtime: &Runtime<R, K, D>,
    workers: &Workers,
) {
    workers.count_out(rt, runtime.serve(rt));
}

// The session in a seat does what the script at its place says, or nothing if there is no script, and leaves.
fn play<R: Wait + Copy + Send, K: MailNames, D>(
    rt: &R,
    runtime: &Runtime<R, K, D>,
    seat: &Seat<K>,
    scripts: &[Script],
) {
    let lines = match scripts.get(seat.place) {
        Some(script) => script.lines(),
        None => &[],
    };
    seat.player.lock(rt).play(rt, seat.alloc, runtime, lines);
}

// Runs the workers, a thread for each session, and the watcher here. A thread that cannot be started is left out: its
// session leaves with no line made.
fn run_all<
    'x,
    R: Threads + Wait + Copy + Send + Sync,
    K: MailNames + Send + Sync,
    D: Device + Send + Drop,
    W: Watch,
>(
    rt: &'x R,
    runtime: &'x Runtime<R, K, D>,
    seats: &'x [Seat<K>],
    scripts: &'x [Script],
    workers: &'x Workers,
    watcher: &mut W,
) {
    let count = runtime.config().workers;
    thread::scope(thread::scope_env(), rt, |scope| {
        for _ in 0..count {
            if scope.spawn(move || work(rt, runtime, workers)).is_err() {
                workers.count_out(rt, ServeEnd::Memory);
            }
        }
        for seat in seats {
            if scope
                .spawn(move || play(rt, runtime, seat, scripts))
                .is_err()
            {
                workers.worsen(rt, ServeEnd::Memory);
                play(rt, runtime, seat, &[]);
            }
        }
        watch_all(rt, runtime, workers, watcher);
    });
}

// The memory that a run needs before it begins.
#[derive(Drop)]
struct RunRoom<K: MailNames> {
    seats: Vec<Seat<K>>,
    closed: Vec<Closed<K>>,
    refused: Vec<Refusals>,
}

fn grow<K: MailNames>(alloc: Global, sessions: usize) -> Result<RunRoom<K>, AllocError>
    ensures seats { IfOk result (λ r. IsRoomFor sessions r.seats) }
    ensures closed { IfOk result (λ r. IsRoomFor sessions r.closed) }
    ensures refused { IfOk result (λ r. IsRoomFor sessions r.refused) }
{
    let seats = Vec::with_capacity(alloc, sessions)?;
    let closed = Vec::with_capacity(alloc, sessions)?;
    let refused = Vec::with_capacity(alloc, sessions)?;
    Ok(RunRoom {
        seats,
        closed,
        refused,
    })
}

// The sessions, each in a seat.
fn seat_all<K: MailNames>(
    alloc: Global,
    sessions: Vec<Session<K>>,
    mut seats: Vec<Seat<K>>,
) -> Vec<Seat<K>>
    requires { vec_len seats + vec_len sessions ≤ vec_capacity seats }
    ensures { vec_len result ≡ vec_len seats + vec_len sessions }
{
    for session in sessions {
        let place = seats.len();
        seats.push_reserved(Seat {
            player: Mutex::new(Player::new(session)),
            place,
            alloc,
        });
    }
    seats
}

// Returns the sessions, all of which have left now, how many lines of each were refused, and whether memory ran out at
// a line.
fn clear_all<R: Wait + Copy + Send, K: MailNames, D>(
    rt: &R,
    runtime: &Runtime<R, K, D>,
    seats: Vec<Seat<K>>,
    mut closed: Vec<Closed<K>>,
    mut refused: Vec<Refusals>,
) -> (Vec<Closed<K>>, Vec<Refusals>, bool)
    requires closed { vec_len closed + vec_len seats ≤ vec_capacity closed }
    requires refused { vec_len refused + vec_len seats ≤ vec_capacity refused }
    ensures closed { vec_len result.0 ≡ vec_len closed + vec_len seats }
    ensures refused { vec_len result.1 ≡ vec_len refused + vec_len seats }
{
    let mut is_short = false;
    for seat in seats {
        let Seat {
            player,
            place: _,
            alloc: _,
        } = seat;
        let (one, refusals) = player.into_inner().close(rt, runtime);
        closed.push_reserved(one);
        refused.push_reserved(refusals);
        is_short |= refusals.memory > 0;
    }
    (closed, refused, is_short)
}

// The end of a run if its report agrees with it, else Memory.
fn borne_out<D: Drop, K: MailNames>(
    report: &Report<D, K>,
    end: ServeEnd,
    max_starts: usize,
) -> ServeEnd
    ensures quiet { result ≡ Quiet → IsAtRest K.names.domain report.now.journal
        × IsLeftAtStopped K.names.domain report.now.journal report.now.drained }
    ensures limit { result ≡ Limit → IsAtRest K.names.domain report.now.journal
        × (length (all_starts report.now.journal) ≡ max_starts) }
{
    let is_borne_out = match end {
        ServeEnd::Quiet => report.is_at_rest() && report.is_left_at_stopped(),
        ServeEnd::Limit => report.is_at_rest() && report.starts() == max_starts,
        ServeEnd::Memory => true,
    };
    if is_borne_out { end } else { ServeEnd::Memory }
}

/// Runs the workers of a runtime and its sessions, each in its own thread, a session by its script. Returns the end,
/// how many lines of each session were refused, in the order of the sessions, and the report.
///
/// The end is Memory if a thread could not be started, a line was refused as Memory, a worker ended so, or the
/// report does not agree with what the end would say; else Limit if a worker ended so; else Quiet. A worker that
/// could not be started is left out; a session whose thread could not be started leaves with no line made.
///
/// If there is no memory to begin with, nothing has run, and the sessions are returned. After that an error is one of
/// `Runtime::finish`, and the same number of sessions is returned as sessions that have left.
pub fn run_scripts<
    R: Threads + Wait + Copy + Send + Sync,
    K: MailNames + Send + Sync,
    D: Device + Send + Drop,
>(
    rt: &R,
    alloc: Global,
    runtime: Runtime<R, K, D>,
    sessions: Vec<Session<K>>,
    scripts: &[Script],
) -> Result<
    (ServeEnd, Vec<u64>, Report<D, K>),
    (
        FinishError,
        Runtime<R, K, D>,
        Vec<Session<K>>,
        Vec<Closed<K>>,
    ),
>
    requires { length scripts.now ≡ length sessions.items }
    ensures quiet { IfOk result (λ r. r.0 ≡ Quiet → IsAtRest K.names.domain r.2.journal
        × IsLeftAtStopped K.names.domain r.2.journal r.2.drained) }
    ensures limit { IfOk result (λ r. r.0 ≡ Limit → IsAtRest K.names.domain r.2.journal
        × (length (all_starts r.2.journal) ≡ runtime.max_starts)) }
    ensures counts { IfOk result (λ r. length r.1.items ≡ length sessions.items) }
    ensures runtime { IfErr result (λ r. r.1 ≡ runtime) }
    ensures back { IfErr result (λ r. ComeBack sessions.items r.2.items r.3.items) }
{
    let Ok(counts) = Vec::with_capacity(alloc, sessions.len()) else {
        return Err((FinishError::Memory, runtime, sessions, Vec::new(alloc)));
    };
    match run_watched(rt, alloc, runtime, sessions, scripts, &mut Unwatched) {
        Ok((end, refused, report)) => Ok((end, all_of(&refused, counts), report)),
        Err(back) => Err(back),
    }
}

// How many lines of each session were refused, for whatever cause.
fn all_of(refused: &[Refusals], mut counts: Vec<u64>) -> Vec<u64>
    requires { vec_len counts + length refused.now ≤ vec_capacity counts }
    ensures { vec_len result ≡ vec_len counts + length refused.now }
{
    for refusals in refused {
        counts.push_reserved(refusals.all);
    }
    counts
}

/// Runs scripts as `run_scripts` does, watched in this thread, and returns the refused lines by their causes. Once the
/// others were started, `watch` is asked what it wants and hears how far the run is, over and over, until the workers
/// have ended or it looks away.
pub fn run_watched<
    R: Threads + Wait + Copy + Send + Sync,
    K: MailNames + Send + Sync,
    D: Device + Send + Drop,
    W: Watch,
>(
    rt: &R,
    alloc: Global,
    runtime: Runtime<R, K, D>,
    sessions: Vec<Session<K>>,
    scripts: &[Script],
    watch: &mut W,
) -> Result<
    (ServeEnd, Vec<Refusals>, Report<D, K>),
    (
        FinishError,
        Runtime<R, K, D>,
        Vec<Session<K>>,
        Vec<Closed<K>>,
    ),
>
    requires { length scripts.now ≡ length sessions.items }
    ensures quiet { IfOk result (λ r. r.0 ≡ Quiet → IsAtRest K.names.domain r.2.journal
        × IsLeftAtStopped K.names.domain r.2.journal r.2.drained) }
    ensures limit { IfOk result (λ r. r.0 ≡ Limit → IsAtRest K.names.domain r.2.journal
        × (length (all_starts r.2.journal) ≡ runtime.max_starts)) }
    ensures counts { IfOk result (λ r. length r.1.items ≡ length sessions.items) }
    ensures runtime { IfErr result (λ r. r.1 ≡ runtime) }
    ensures back { IfErr result (λ r. ComeBack sessions.items r.2.items r.3.items) }
{
    let Ok(room) = grow::<K>(alloc, sessions.len()) else {
        return Err((FinishError::Memory, runtime, sessions, Vec::new(alloc)));
    };
    let RunRoom {
        seats,
        closed,
        refused,
    } = room;
    let seats = seat_all(alloc, sessions, seats);
    let workers = Workers::new(runtime.config().workers);
    run_all(rt, &runtime, &seats, scripts, &workers, watch);
    let max_starts = runtime.config().max_starts;
    let (closed, refused, is_short) = clear_all(rt, &runtime, seats, closed, refused);
    if is_short {
        workers.worsen(rt, ServeEnd::Memory);
    }
    match runtime.finish(alloc, closed) {
        Ok(report) => {
            let end = borne_out(&report, workers.into_end(), max_starts);
            Ok((end, refused, report))
        }
        Err((error, runtime, closed)) => Err((error, runtime, Vec::new(alloc), closed)),
    }
}
