//! What sessions are told: which of their requests are accepted, and where an object's kill is in the journal.
ghost use Rattle.std.specs.Prelude.{◌≡◌, ◌++◌, OnOk};
ghost use Rattle.smi_run_report.specs.Receipts as says;
ghost use Rattle.smi_run_report.specs.Receipts.{is_met, unmet_among};

use smi_journal_entries::{Args, Cause, Entry, SessionId};
use sml_domain::{ActionId, ObjId};
use std::alloc::AllocError;

/// A request that was accepted: its number, its action, and its complete arguments.
#[derive(Drop)]
pub struct Accepted {
    pub number: u64,
    pub action: ActionId,
    pub args: Args,
}

/// What a session was told of an object's kill: the place of the kill in the journal, and whether the kill is its own,
/// or the session was told that the object is dead.
#[derive(Clone, Copy)]
pub struct Receipt {
    pub session: SessionId,
    pub object: ObjId,
    pub place: u64,
    pub own: bool,
}

// Whether a kill has the cause that a receipt tells.
fn is_by(receipt: Receipt, cause: Cause) -> bool
    ensures { result ≡ says.is_by receipt cause }
{
    match cause {
        Cause::By(session) => !receipt.own || session.get() == receipt.session.get(),
        Cause::Fault => !receipt.own,
    }
}

// Whether a receipt agrees with the journal.
fn is_borne_out(journal: &[Entry], receipt: Receipt) -> bool
    ensures { result ≡ is_met journal.now receipt }
{
    match journal.get(receipt.place as usize) {
        Some(Entry::Kill { object, cause }) => {
            object.get() == receipt.object.get() && is_by(receipt, *cause)
        }
        _ => false,
    }
}

/// Adds the receipts that do not agree with a journal, in their order. A receipt agrees with it if the entry at its
/// place is the kill of its object, by its own session if the receipt says so. The cost is the count of receipts. An
/// error means that there was no memory for the list.
pub fn add_unmet(
    journal: &[Entry],
    receipts: &[Receipt],
    unmet: &mut Vec<Receipt>,
) -> Result<(), AllocError>
    ensures { OnOk result (unmet.new.items ≡ unmet.old.items ++ unmet_among journal.now receipts.now) }
{
    for receipt in receipts {
        if !is_borne_out(journal, *receipt) {
            unmet.push(*receipt)?;
        }
    }
    Ok(())
}
