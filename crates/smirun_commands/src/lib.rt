//! The commands of the state manager that need no threads: to check domains, to tell what is senseless in them, to
//! print, list or draw one, to run a schedule on one, and to judge, draw or show a journal of one, or to tell how all
//! stood behind its lines, and what journals have exercised. Each is a function over a runtime, what it is asked and
//! the streams that it writes.
#![tactic(auto)]

mod advice;
mod audit;
mod check;
mod cover;
mod fault;
mod graph;
mod judgement;
mod kept_journal;
mod lint;
mod list;
mod loading;
mod log_advice;
mod log_refusal;
mod notes;
mod page;
mod print;
mod print_check;
mod print_kept;
mod requests;
mod same_file;
mod schedules;
mod states;
mod status;
mod step;
mod text;
mod traced;

pub use advice::Advice;
pub use audit::{AuditOptions, LONGEST_JOURNAL, judge_bytes, run_audit, tell_judgement, tell_text};
pub use check::{check_domain, run_check};
pub use cover::{CoverOptions, run_cover, tell_coverage, tell_uncounted};
pub use explain_lines::LineKind;
pub use fault::{Fault, tell_cause};
pub use graph::{GraphOptions, MANY_ENTRIES, draw_entries, run_graph};
pub use judgement::{FileOutcome, judge};
pub use lint::{LintOptions, run_lint};
pub use list::run_list;
pub use loading::{LoadedDomain, domain_of_bytes, load_domain, load_with_text};
pub use log_refusal::LogRefusal;
pub use page::{PageOptions, page_of_bytes, run_page};
pub use print::{PrintOptions, print_text, run_print};
pub use print_check::check_print;
pub use same_file::{is_file_of, is_one_read};
pub use schedules::look_at_schedule;
pub use smi_core::{LONGEST_SCHEDULE, MAX_CAPACITY, MAX_STARTS};
pub use states::{StatesOptions, first_lines, run_states, states_of_bytes};
pub use status::{DONE, ILLEGAL, NO_MEMORY, REFUSED, WRONG_WORDS};
pub use step::{StepOptions, core_of_bytes, run_step, run_steps, write_run};
pub use text::{STANDARD_INPUT, load_prefix};
