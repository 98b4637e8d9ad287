//! What is printed is read as the same file.
#![tactic(auto)]

mod laws;

pub use laws::laws_of_printing;
