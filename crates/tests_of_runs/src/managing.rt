//! A manager over a row.
ghost use Rattle.std.specs.Prelude.{◌≡◌, IfSome};
ghost use Rattle.smi_world.specs.World.{opening};

use crate::feed::{Come, ToldFeed};
use smi_core::{Answer, Core, Lookout, Step, StepError, Taken};
use smi_journal_entries::Entry;
use smi_live::{LiveFault, Log, Machine, Made, Manager, Observer, Unkept, live};
use smi_live_accounts::Accounts;
use sml_text::Sink;
use std::alloc::{AllocError, Global};
use std::io::Write;

/// An observer that only says that it was asked.
#[derive(Drop)]
pub(crate) struct Asked;

impl Lookout for Asked {
    fn bad_line(&mut self, _core: &Core, _taken: Taken<'_>) {}

    fn answered(
        &mut self,
        _core: &Core,
        _taken: Taken<'_>,
        _step: &Step,
        _answer: &Result<Answer, StepError>,
        _added: &[Entry],
    ) {}
}

impl Observer for Asked {
    fn begins(&mut self) {}

    fn unkept(&mut self, _taken: Taken<'_>, _why: Unkept) {}

    fn remark(
        &mut self,
        _core: &Core,
        _accounts: &Accounts,
        _room: Option<usize>,
        is_asked: bool,
        remark: &mut Vec<u8>,
    ) {
        if is_asked && remark.extend_from_slice(b"asked\n").is_err() {
            remark.clear();
        }
    }
}

/// A domain, how many actions are started in it at most, and how many bytes the log may take.
#[derive(Clone, Copy)]
pub(crate) struct Limits<'a> {
    pub(crate) domain: &'a [u8],
    pub(crate) max_starts: usize,
    pub(crate) room: Option<usize>,
}

/// A core of a domain.
pub(crate) fn core_of(alloc: Global, limits: Limits<'_>) -> Option<Core>
    ensures opening { IfSome result (λ core. core.world ≡ opening core.setup) }
    ensures starts { IfSome result (λ core. core.setup.max_starts ≡ limits.entry.max_starts) }
{
    let Ok(domain) = sml_load::domain_of(alloc, limits.domain) else {
        return None;
    };
    match Core::new(alloc, domain, 16, limits.max_starts) {
        Ok(core) => Some(core),
        Err(_) => None,
    }
}

/// A manager of a domain.
pub(crate) fn manager_of(alloc: Global, limits: Limits<'_>) -> Option<Manager<Asked>> {
    match core_of(alloc, limits) {
        Some(core) => Manager::new(alloc, core, limits.max_starts, Asked).ok(),
        None => None,
    }
}

// A log that is written to a writer.
#[derive(Drop)]
struct WrittenLog<'a, L> {
    to: &'a mut L,
}

impl<L: Write> Log for WrittenLog<'_, L> {
    ghost use Rattle.std.specs.Prelude.{None};

    ghost stands = { λ _. None };

    ghost has_refused = { λ _. Unit {0} };

    fn keep(&mut self, lines: &[u8]) -> bool {
        self.to.write_all(lines).is_ok()
    }
}

/// How a manager ended, and which remarks its feed got.
#[derive(Drop)]
pub(crate) struct Managed {
    pub(crate) ended: Result<(), LiveFault>,
    pub(crate) told: Vec<u8>,
}

/// Runs a manager over lines, whose log is written to `log`.
pub(crate) fn manage<L: Write, W: Sink>(
    alloc: Global,
    limits: Limits<'_>,
    lines: &[Come<'_>],
    fails: bool,
    log: &mut L,
    output: &mut W,
) -> Option<Managed> {
    let mut manager = manager_of(alloc, limits)?;
    manager.begin(0, limits.room);
    let mut feed = ToldFeed::new(alloc, lines, fails);
    let mut log = WrittenLog { to: log };
    let ended = live(alloc, &mut manager, &mut feed, &mut log, output);
    let ToldFeed { told, .. } = feed;
    Some(Managed { ended, told })
}

/// A manager after the lines of a log. None also if no manager would have written one of them.
pub(crate) fn made_again(alloc: Global, limits: Limits<'_>, log: &[u8]) -> Option<Manager<Asked>> {
    let mut manager = manager_of(alloc, limits)?;
    let mut made = Made::new(alloc);
    for line in log.split(|b| *b == b'\n') {
        if !manager.make_again(line, &mut made).ok()? {
            return None;
        }
    }
    manager.begin(0, limits.room);
    Some(manager)
}

/// What a manager after a log keeps and writes for one line more.
pub(crate) fn goes_on(alloc: Global, limits: Limits<'_>, log: &[u8], line: &[u8]) -> Option<Made> {
    let mut manager = made_again(alloc, limits, log)?;
    let mut made = Made::new(alloc);
    manager.take(line, &mut made).ok()?;
    Some(made)
}
