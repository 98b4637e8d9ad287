//! The tree of a domain file, in memory of any allocator.
#![tactic(auto)]

mod block;
mod cond;
mod file;
mod laws;
mod limits;
mod lists;
mod literal;
mod name;
mod token_kind;
mod words;

pub use block::{Block, Instr, Waited};
pub use cond::{Cond, Scope};
pub use file::{Action, ActionParam, Class, ClassParam, Group, Item, Kind, Object, SmlFile, State};
pub use laws::laws_of_grammar;
pub use limits::{
    MAX_ACTIONS, MAX_ARGUMENTS, MAX_CLASSES, MAX_IFS, MAX_MEMBERS, MAX_NAMES, MAX_OBJECTS,
    MAX_OPEN, MAX_PARAMETERS, MAX_SETS, MAX_STATES, MAX_TESTS, MAX_WAITED,
};
pub use literal::{Arg, Literal, Passed};
pub use name::Name;
pub use token_kind::TokenKind;
pub use words::{is_reserved, word_kind};
