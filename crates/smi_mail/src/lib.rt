//! Mailboxes that threads share: the board's end of all of them, and each session's. (docs/ARCHITECTURE.md,
//! "Mailboxes between threads".)
#![tactic(auto)]

mod close;
mod ends;
mod envelopes;
mod mailboxes;
mod order;
mod rows;
mod rule;
mod ruled_mail;

pub use close::{DrainRoom, Drained};
pub use mailboxes::{MAX_SESSIONS, MailError, Mailboxes};
pub use ruled_mail::{MailNames, OperatorEnd, RuledMail, ruled};
pub use smi_mail_plain::{Full, Mail, PlainMail};
