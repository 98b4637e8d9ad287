//! Runs in threads, and a runtime call by call. A live manager over a feed whose lines come when a test says so: what
//! it logs and writes, in which order, and where it is stopped.
#![tactic(auto)]

#[cfg(test)]
mod devices;
#[cfg(test)]
mod feed;
#[cfg(test)]
mod late;
#[cfg(test)]
mod limits;
#[cfg(test)]
mod live_rows;
#[cfg(test)]
mod managing;
#[cfg(test)]
mod once;
#[cfg(test)]
mod one_by_one;
#[cfg(test)]
mod openings;
#[cfg(test)]
mod recalled;
#[cfg(test)]
mod reports;
#[cfg(test)]
mod runs;
#[cfg(test)]
mod staged_tests;
#[cfg(test)]
mod stages;
#[cfg(test)]
mod stopped_managers;
#[cfg(test)]
mod tests;
#[cfg(test)]
mod texts;
#[cfg(test)]
mod two_names;
#[cfg(test)]
mod valves;
#[cfg(test)]
mod watch;
