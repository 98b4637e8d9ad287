//! Pictures of domains and of runs, for people. Nothing here decides anything.
#![tactic(auto)]

mod bars;
mod boxes;
mod columns;
mod devices;
mod dot;
mod ends;
mod graph;
mod hues;
mod labels;
mod life;
mod marks;
mod names;
mod objects;
mod page;
mod sends;
mod style;
mod svg;
mod tables;
mod waits;

pub use graph::{GraphParts, tell_graph};
pub use life::{RunFiles, Window, tell_life};
