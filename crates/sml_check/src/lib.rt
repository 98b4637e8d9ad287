//! The domain of a file that is well-formed, or else its first fault. The types of a domain and of a fault are
//! re-exported from the crates that define them, and so are the laws of both.
#![tactic(auto)]

mod checked;
mod faults;

pub use checked::check;
pub use faults::first_fault;
pub use sml_check_build::{laws_of_conditions, laws_of_numbers, one_domain};
pub use sml_check_faults::{CheckError, CheckKind};
pub use sml_domain::{
    ActionId, Argument, BlockId, ClassId, Cond, Domain, Instr, ObjId, Operand, Param, ParamId,
    SetId, StateId, Subject, Target, Text, TextError, Value,
};
pub use sml_tree::Name;
