//! Explains why a domain's text is refused: where each fault is, what is wrong there, and what would be right. The
//! faults of a file are found again here, with their places, by the rules of
//! docs/LANGUAGE.md, "Well-formed files"; which fault a file is refused for, the checker says.
#![tactic(auto)]

mod advice;
mod bad_token;
mod block;
mod checking;
mod comments;
mod directory;
mod expected;
mod finding;
mod foreign;
mod heads;
mod instructions;
mod left_out;
mod limits;
mod may;
mod names;
mod params;
mod reading;
mod sentence;
mod shapes;
mod sorts;
mod spots;
mod subject;
mod teller;
mod tokens;
mod trail;
mod unexpected;
mod walk;

pub use checking::{explain_check, explain_good, faults_of_text};
pub use finding::{Detail, Finding, Findings, Role, Site, Sort};
pub use reading::explain_read;
