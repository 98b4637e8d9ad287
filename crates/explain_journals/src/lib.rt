//! Explains an illegal line of a journal in one sentence, with its text and the earlier line that it contradicts,
//! and says what an open action does next. Nothing here decides anything: the judge does.
#![tactic(auto)]

mod bad_request;
mod earlier;
mod explaining;
mod next;
mod placing;
mod sentence;

pub use explaining::explain;
pub use next::{Next, next_of};
pub use placing::DomainText;
