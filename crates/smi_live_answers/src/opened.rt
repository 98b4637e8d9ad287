//! Whether the start that a line names is open.
ghost use Rattle.std.specs.Prelude.{◌≡◌, ◌==◌, ◌&&◌, false, true};
ghost use Rattle.smi_journal_entries.specs.Requests as says;
ghost use Rattle.smi_live_answers.specs.Naming.{IsOpenStart, sender_named};

use crate::named::NamedStart;
use crate::parts::SenderName;
use smi_core::Core;
use smi_journal_entries::{Letter, Sender};
use sml_domain::Domain;

// The sender that has a name.
fn sender_of(domain: &Domain, sender: &SenderName) -> Option<Sender>
    ensures { result ≡ sender_named domain.now sender.now }
{
    match sender {
        SenderName::Session(session) => Some(Sender::Operator(*session)),
        SenderName::Object(name) => Some(Sender::Object(domain.object(name)?)),
    }
}

// Whether a letter is a sender's, with this number.
fn is_letter_of(letter: &Letter, sender: &Sender, number: u64) -> bool
    ensures { result ≡ (says.same_sender sender.now letter.now.sender && (number == letter.now.number)) }
{
    sender.is(&letter.sender) && number == letter.number
}

/// Whether the action that is open at the object of a line is that of the start which the line names. The cost is that
/// of looking two names up.
pub fn is_open_start(core: &Core, start: &NamedStart) -> bool
    ensures yes { result ≡ true → IsOpenStart core.now.setup.domain core.now.world.journal start.now }
    ensures no { result ≡ false → IsOpenStart core.now.setup.domain core.now.world.journal start.now → ⊥ }
{
    let Some(o) = core.domain().object(start.object()) else {
        return false;
    };
    let Some(sender) = sender_of(core.domain(), &start.sender()) else {
        return false;
    };
    match core.opened(o) {
        Some(letter) => is_letter_of(letter, &sender, start.number()),
        None => false,
    }
}
