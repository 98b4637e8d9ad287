//! What is senseless in a domain that is well-formed: what nothing reaches, and what nothing uses. What no action comes
//! to is found by `smi_reach`, under its contracts; all else is decided here, and only tested.
#![tactic(auto)]

mod bits;
mod circles;
mod conditions;
mod declared;
mod endings;
mod graph;
mod idle;
mod kind;
mod lines;
mod report;
mod sentences;
mod sites;
mod survey;
mod uses;
mod warning;

pub use kind::WarningKind;
pub use lines::Lines;
pub use report::warnings_of;
pub use sentences::explain_warning;
pub use warning::{Warning, tell_warning};
