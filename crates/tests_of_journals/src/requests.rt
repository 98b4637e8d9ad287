//! Requests, as rows write them.

use crate::names::is_action;
use crate::rows::{Plain, are_values};
use smi_journal::{Letter, Sender};
use sml_domain::Domain;

/// A request: the session that sends it, its action and its arguments.
pub type Asked = (u8, &'static str, &'static [Plain]);

fn is_session(sender: &Sender, session: u8) -> bool {
    match sender {
        Sender::Operator(by) => by.get() == session,
        Sender::Object(_) => false,
    }
}

/// Whether a letter is a request's, under the number.
pub fn is_letter(domain: &Domain, letter: &Letter, asked: Asked, number: u64) -> bool {
    let (session, action, given) = asked;
    is_session(&letter.sender, session)
        && letter.number == number
        && is_action(domain, letter.action, action)
        && are_values(letter.args.values(), given)
}
