//! The judge of journals: whether a journal is legal, or at which line it is not and why.
#![tactic(auto)]

mod auditing;
mod calls;
mod judge;
mod judgement;
mod judging;
mod lines;
mod past;
mod splitting;
mod track;
mod tracks;

pub use auditing::audit;
pub use judgement::Judgement;
pub use past::{EntryError, Past, PastError};
pub use smi_audit_follower::Expected;
pub use smi_audit_rules::Rule;
pub use smi_journal::JournalError;
