//! Moves that show nothing, and where a task stops.
ghost use Rattle.std.specs.Prelude.{◌≡◌, IfOk, None, OnOk};
ghost use Rattle.sml_domain.specs.Trees.{target as target_tree};
ghost use Rattle.smi_journal_entries.specs.Sets.{AreOf, unchanged};
ghost use Rattle.smi_audit_follower.specs.Following.{AreTellable};
ghost use Rattle.smi_audit_follower.specs.Passing as passing;

use smi_interp::{Contact, Task, Wanted};
use smi_journal_entries::{Format, Members};
use sml_domain::{Domain, Target};
use std::alloc::AllocError;

// Whether there is somebody to send to, as sets are declared.
fn is_anybody(domain: &Domain, target: &Target) -> bool
    ensures { result ≡ passing.is_anybody domain.now (target_tree target.now) }
{
    match target {
        Target::One(_) => true,
        Target::Members(set) => !domain.members(*set).is_empty(),
    }
}

// Whether something is sent, as sets are declared.
fn is_sent(domain: &Domain, wanted: &Wanted) -> bool
    ensures { result ≡ passing.is_sent domain.now wanted.now.target wanted.now.action }
{
    match wanted.action {
        Some(_) => is_anybody(domain, &wanted.target),
        None => false,
    }
}

/// Whether a journal of a format tells of a send.
pub(crate) fn is_said(format: Format, domain: &Domain, wanted: &Wanted) -> bool
    ensures { result ≡ passing.is_said format domain.now wanted.now }
{
    match format {
        Format::One => is_sent(domain, wanted),
        Format::Two => true,
    }
}

// Makes a move that shows nothing, unless the task comes to stand.
fn stands(format: Format, declared: &Members, task: &mut Task) -> Result<bool, AllocError>
    requires idle { task.old.pending ≡ None }
    requires told { AreTellable format task.old.domain task.old.turn.moves }
    requires declared { declared.now ≡ unchanged task.old.domain }
    requires are { AreOf task.old.domain declared.now }
    ensures { IfOk result (passing.PassesOrStands format task.old task.new) }
{
    match task.advance()? {
        Contact::Local { .. } => {
            // A task is under way, so that its moves are few.
            let _turn = task.turn();
            Ok(false)
        }
        Contact::Send(wanted) => {
            if is_said(format, task.domain(), &wanted) {
                return Ok(true);
            }
            let members = declared.share()?;
            task.sent(&[], members);
            let _turn = task.turn();
            Ok(false)
        }
        Contact::Read(_) | Contact::Change { .. } | Contact::End(_) => Ok(true),
    }
}

/// Makes the moves that show nothing, up to a contact that shows something or is the end. Sets have their declared
/// members in what is passed over. An error is out of memory. The cost is that of these moves.
pub fn settle(format: Format, declared: &Members, task: &mut Task) -> Result<(), AllocError>
    requires idle { task.old.pending ≡ None }
    requires told { AreTellable format task.old.domain task.old.turn.moves }
    requires declared { declared.now ≡ unchanged task.old.domain }
    requires are { AreOf task.old.domain declared.now }
    ensures { OnOk result (passing.Stood format task.old task.new) }
{
    loop {
        if stands(format, declared, task)? {
            return Ok(());
        }
    }
}
