//! What the program says about runs.

use crate::acts::number;
use crate::calls::tell;
use crate::place::Place;
use smi_journal_entries::{Journal, SessionId};
use smi_run_shared::ServeEnd;
use smirun_live::LiveHost;
use smirun_run::{Host, Outcome, Receipt, tell_outcome};
use sml_domain::{Domain, ObjId};
use sml_load::domain_of;
use std::alloc::AllocError;
use std::io;
use std::io::ErrorKind;

fn end_of(word: &str) -> io::Result<ServeEnd> {
    match word {
        "Quiet" => Ok(ServeEnd::Quiet),
        "Limit" => Ok(ServeEnd::Limit),
        "Memory" => Ok(ServeEnd::Memory),
        _ => Err(io::Error::from(ErrorKind::InvalidInput)),
    }
}

// Adds receipts of kills: `count` of them.
fn add_receipts(receipts: &mut Vec<Receipt>, count: usize) -> Result<(), AllocError> {
    if let Some(session) = SessionId::new(1) {
        for place in 0..count {
            receipts.push(Receipt {
                session,
                object: ObjId::new(0),
                place: place as u64,
                own: true,
            })?;
        }
    }
    Ok(())
}

// Gives a run its summary, and this number of receipts unmet.
fn fill(outcome: &mut Outcome, unmet: usize) -> Result<(), AllocError> {
    outcome.summary.extend_from_slice(b"(the summary)\n")?;
    add_receipts(&mut outcome.unmet, unmet)
}

// Tells what the program says about a run of nothing of this domain. Its output is kept.
fn tell_of<R: Host + LiveHost>(
    rt: &R,
    domain: &Domain,
    path: Option<&str>,
    outcome: &Outcome,
    place: &mut Place,
) -> Result<(), AllocError> {
    place.output.clear();
    let mut errors = Vec::new(rt.alloc());
    let status = match tell_outcome(rt, domain, path, outcome, &mut place.output) {
        Ok(()) => 0,
        Err(fault) => fault.tell(&mut errors),
    };
    tell(rt.alloc(), place, status, errors.as_slice())
}

// The same of the domain that declares nothing.
fn tell_of_nothing<R: Host + LiveHost>(
    rt: &R,
    path: Option<&str>,
    outcome: &Outcome,
    place: &mut Place,
) -> Result<(), AllocError> {
    match domain_of(rt.alloc(), b"") {
        Ok(domain) => tell_of(rt, &domain, path, outcome, place),
        Err(_) => Err(AllocError),
    }
}

// Tells what the program says about a run of nothing that ended so, with this number of receipts unmet.
fn tell_ended<R: Host + LiveHost>(
    rt: &R,
    end: ServeEnd,
    unmet: usize,
    path: Option<&str>,
    place: &mut Place,
) -> Result<(), AllocError> {
    let mut outcome = Outcome {
        end,
        summary: Vec::new(rt.alloc()),
        journal: Journal::new(rt.alloc()),
        unmet: Vec::new(rt.alloc()),
        refused: Vec::new(rt.alloc()),
    };
    match fill(&mut outcome, unmet) {
        Ok(()) => tell_of_nothing(rt, path, &outcome, place),
        Err(error) => Err(error),
    }
}

/// Tells what the program says about a run of nothing, by how it ended, how many receipts are unmet, and the path of
/// its journal.
pub fn tell_run<R: Host + LiveHost>(rt: &R, words: &str, place: &mut Place) -> io::Result<()> {
    let (end, rest) = words.split_once(' ').unwrap_or((words, ""));
    let (unmet, path) = match rest.split_once(' ') {
        Some((unmet, path)) => (unmet, Some(path)),
        None => (rest, None),
    };
    tell_ended(rt, end_of(end)?, number(unmet)?, path, place)?;
    Ok(place.tell_output()?)
}
