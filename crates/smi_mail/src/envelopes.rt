//! What the ends of mailboxes do with envelopes.
ghost use Rattle.std.specs.Prelude.{◌≡◌};

use smi_journal_entries::{Envelope, Sender};

// The envelope under another number.
pub(crate) fn numbered(mut envelope: Envelope, number: u64) -> Envelope
    ensures { result ≡ record envelope { number = number } }
{
    envelope.set_number(number);
    envelope
}

// Who sends it.
pub(crate) fn sender_of(envelope: &Envelope) -> Sender
    ensures { result ≡ envelope.now.sender }
{
    envelope.letter().sender
}

// Its number.
pub(crate) fn number_of(envelope: &Envelope) -> u64
    ensures { result ≡ envelope.now.number }
{
    envelope.letter().number
}
