//! Which kept tasks are looked at, and what a look finds.
ghost use Rattle.std.specs.Prelude.{◌≡◌, ◌<◌, [], ℕ, IfNone, IfSome, length, true};
ghost use Rattle.std.specs.List.{All};
ghost use Rattle.smi_journal_entries.specs.Sets.{sets_after};
ghost use Rattle.smi_board.specs.Boards.{kept_at};
ghost use Rattle.smi_board.specs.Holders.{holder_of};
ghost use Rattle.smi_board.specs.Looks.{ArePlaced, IsFound, IsFreed, all_waiting, kept_without};
ghost use Rattle.smi_board.specs.Rings.{is_in_ring};
ghost use Rattle.smi_board.specs.Turns.{can_go_on};

use crate::holders::Holders;
use crate::reading::names_held;
use crate::ring::Ring;
use smi_interp::{Contact, Task};
use smi_ledger::Ledger;
use sml_domain::ObjId;

/// What a look at the task that is kept of an object found.
#[derive(Drop)]
pub(crate) enum Look {
    /// It can continue.
    Goes,
    /// An object that it waits to read is not clear.
    Held(ObjId),
    /// No task of it is kept.
    Nobody,
}

// Looks at the task that is kept of an object.
fn look_at(ledger: &Ledger, kept: &[Option<Task>], o: ObjId) -> Look
    requires within { o < length ledger.now.domain.objects }
    requires count { length kept.now ≡ length ledger.now.domain.objects }
    requires there { All (λ x. x < length ledger.now.domain.objects)
        (all_waiting ledger.now.domain (sets_after ledger.now.domain ledger.now.journal) (kept_at kept.now o)) }
    ensures { IsFound ledger.now.domain ledger.now.journal o (kept_at kept.now o) result }
{
    let Some(task) = &kept[o.get()] else {
        return Look::Nobody;
    };
    match task.pending() {
        Some(Contact::Read(names)) => match names_held(ledger, o, names) {
            Some(holder) => Look::Held(holder),
            None => Look::Goes,
        },
        _ => Look::Goes,
    }
}

// The first of candidates whose kept task can continue. It is a candidate no more, nor are those before it: each of
// them that has a task is listed with an object that holds it.
pub(crate) fn first_to_go(
    ledger: &Ledger,
    kept: &[Option<Task>],
    candidates: &mut Ring,
    holders: &mut Holders,
) -> Option<ObjId>
    requires places { candidates.old.places ≡ length ledger.now.domain.objects }
    requires count { length kept.now ≡ length ledger.now.domain.objects }
    requires listed { length holders.old ≡ length ledger.now.domain.objects }
    requires there { (o : ℕ) → All (λ x. x < length ledger.now.domain.objects)
        (all_waiting ledger.now.domain (sets_after ledger.now.domain ledger.now.journal) (kept_at kept.now o)) }
    requires placed { ArePlaced ledger.now.domain ledger.now.journal kept.now candidates.old.list holders.old }
    ensures places { candidates.new.places ≡ candidates.old.places }
    ensures listed { length holders.new ≡ length holders.old }
    ensures within { IfSome result (λ o. o < length ledger.now.domain.objects) }
    ensures goes { IfSome result (λ o. can_go_on ledger.now.domain o ledger.now.journal (kept_at kept.now o) ≡ true) }
    ensures none { IfNone result (candidates.new.list ≡ []) }
    ensures placed { ArePlaced ledger.now.domain ledger.now.journal (kept_without kept.now result)
        candidates.new.list holders.new }
{
    while let Some(o) = candidates.pop() {
        match look_at(ledger, kept, o) {
            Look::Goes => return Some(o),
            Look::Held(holder) => holders.list(o, holder),
            Look::Nobody => {}
        }
    }
    None
}

// The tasks that are listed with an object may be able to continue.
pub(crate) fn free_all(candidates: &mut Ring, holders: &mut Holders, x: ObjId)
    requires places { candidates.old.places ≡ length holders.old }
    requires within { x < length holders.old }
    ensures places { candidates.new.places ≡ candidates.old.places }
    ensures listed { length holders.new ≡ length holders.old }
    ensures each { (o : ℕ) → IsFreed x (holder_of holders.old o) (holder_of holders.new o)
        (is_in_ring o candidates.old.list) (is_in_ring o candidates.new.list) }
{
    while let Some(o) = holders.take(x) {
        candidates.add(o);
    }
}
