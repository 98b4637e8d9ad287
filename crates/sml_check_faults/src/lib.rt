//! The faults of a domain file, kind by kind, and what a file without faults keeps.
#![tactic(auto)]

mod actions;
mod differing;
mod heads;
mod in_blocks;
mod kind;
mod laws;
mod lookup;
mod may;
mod param;
mod repeated;
mod site;
mod tables;
mod value_kind;
mod walk;

pub use kind::{CheckError, CheckKind};
pub use laws::{
    comparison_of_params, complete_requests, declared_names, different_names, fitting_values,
    rules_of_files, sound_classes,
};
pub use tables::Tables;
