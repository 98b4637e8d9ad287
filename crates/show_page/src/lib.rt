//! The page of a run: one file of HTML, with the list of a domain and a journal in it, that a browser shows by itself.
//! Nothing here decides anything: what stands in the page is what it was given.
#![tactic(auto)]

mod body;
mod escaping;
mod head;
mod laws;
mod page;
mod script;

pub use laws::laws_of_pages;
pub use page::{Page, tell_page};
