//! Requests, journals with their books, and mails. Tasks, walked by hand, actions that are followed, and boards, call
//! by call. What is never reached: the states in which objects of small domains may be, and the instructions to which
//! their actions come.
#![tactic(auto)]

#[cfg(test)]
mod acts;
#[cfg(test)]
mod adding;
#[cfg(test)]
mod at_last;
#[cfg(test)]
mod beginnings;
#[cfg(test)]
mod boards;
#[cfg(test)]
mod changed_members;
#[cfg(test)]
mod completing;
#[cfg(test)]
mod counters;
#[cfg(test)]
mod domains;
#[cfg(test)]
mod facts;
#[cfg(test)]
mod fits;
#[cfg(test)]
mod follows;
#[cfg(test)]
mod journal_texts;
#[cfg(test)]
mod journal_walks;
#[cfg(test)]
mod journals_read;
#[cfg(test)]
mod lines;
#[cfg(test)]
mod long_blocks;
#[cfg(test)]
mod look_ups;
#[cfg(test)]
mod looks;
#[cfg(test)]
mod mails;
#[cfg(test)]
mod memory_of_ledgers;
#[cfg(test)]
mod memory_of_tasks;
#[cfg(test)]
mod names;
#[cfg(test)]
mod reached_states;
#[cfg(test)]
mod requests;
#[cfg(test)]
mod rows;
#[cfg(test)]
mod runs;
#[cfg(test)]
mod sends;
#[cfg(test)]
mod sets;
#[cfg(test)]
mod shown;
#[cfg(test)]
mod strangers;
#[cfg(test)]
mod supplies;
#[cfg(test)]
mod switches;
#[cfg(test)]
mod tests_of_boards;
#[cfg(test)]
mod tests_of_contacts;
#[cfg(test)]
mod tests_of_mails;
#[cfg(test)]
mod tests_of_runs;
#[cfg(test)]
mod tests_of_walks;
#[cfg(test)]
mod unreached;
#[cfg(test)]
mod walk;
