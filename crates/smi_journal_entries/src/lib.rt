//! Requests and their arguments, the entries of a journal, and what is read off a journal.
#![tactic(auto)]

mod addressing;
mod args;
mod completing;
mod entry;
mod envelope;
mod fits;
mod journal;
mod laws;
mod letter;
mod members;
mod session;

pub use addressing::{AddressError, Addressed, address};
pub use args::{Args, Reading, Readings};
pub use completing::{Passed, complete};
pub use entry::{ActionEnd, Cause, Entry, MoveReply, Sender, Verdict};
pub use envelope::{Envelope, Letters};
pub use fits::are_arguments;
pub use journal::{Format, Journal};
pub use laws::{laws_of_arguments, laws_of_members};
pub use letter::Letter;
pub use members::Members;
pub use session::SessionId;
