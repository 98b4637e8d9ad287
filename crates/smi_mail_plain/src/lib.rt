//! Mailboxes: the requests that wait for objects, and the mail of one thread.
#![tactic(auto)]

mod counts;
mod history;
mod mail;
mod mailbox;
mod plain;

pub use history::History;
pub use mail::{Full, Mail};
pub use plain::{MAX_CAPACITY, PlainMail};
