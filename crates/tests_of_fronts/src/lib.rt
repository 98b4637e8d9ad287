//! Tests of how a log begins that follows another: how all stands in a core, and whether it rests; what goes along from
//! the logs before; and the front of a log: whole, cut short, with lines left out, doubled and exchanged, with a byte
//! changed, and as long as it may be.
#![tactic(auto)]

#[cfg(test)]
mod carried_texts;
#[cfg(test)]
mod core_outsets;
#[cfg(test)]
mod found;
#[cfg(test)]
mod front_bytes;
#[cfg(test)]
mod front_lines;
#[cfg(test)]
mod front_texts;
#[cfg(test)]
mod front_values;
#[cfg(test)]
mod longest_fronts;
#[cfg(test)]
mod small_fronts;
