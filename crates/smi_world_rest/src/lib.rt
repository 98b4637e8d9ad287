//! A manager that makes all starts and gos by itself comes to rest.
#![tactic(auto)]

mod laws;
