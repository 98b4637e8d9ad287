//! Mailboxes that threads share, alone and under a board. Hostile use: texts that are cut or changed at every place,
//! heaps of every size, kills at every step, and a run that is refused memory.
#![tactic(auto)]

#[cfg(test)]
mod acts;
#[cfg(test)]
mod advised;
#[cfg(test)]
mod alone;
#[cfg(test)]
mod at_last;
#[cfg(test)]
mod awaits;
#[cfg(test)]
mod broken;
#[cfg(test)]
mod broken_files;
#[cfg(test)]
mod broken_journals;
#[cfg(test)]
mod broken_schedules;
#[cfg(test)]
mod broken_scripts;
#[cfg(test)]
mod configured;
#[cfg(test)]
mod crowd;
#[cfg(test)]
mod domains;
#[cfg(test)]
mod envelopes;
#[cfg(test)]
mod heaps;
#[cfg(test)]
mod killed_supply;
#[cfg(test)]
mod kills;
#[cfg(test)]
mod memory_of_mailboxes;
#[cfg(test)]
mod memory_of_runs;
#[cfg(test)]
mod rests;
#[cfg(test)]
mod steps;
