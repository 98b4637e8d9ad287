//! The reader of a text's tokens, and all that it reads of a domain except conditions and what holds them.
#![tactic(auto)]

mod cond_test;
mod fault;
mod head;
mod held;
mod make;
mod mark;
mod object;
mod param;
mod plain;
mod reader;
mod same_kind;

pub use fault::{Fault, Stop};
pub use held::Held;
pub use make::{and_of, appended, as_some, empty_block, empty_list, not_of, or_of};
pub use object::Counts;
pub use reader::Reader;
