//! Tests of files: their texts, trees, faults and domains. Tests of the other texts beside a domain: scripts, with
//! their sessions and devices; schedules in a core, whole and cut short; journals that are changed line by line, with
//! what the judge says of them and how it is explained. (More texts are rows of `tests_by_scripts`.)
#![tactic(auto)]

#[cfg(test)]
mod changed_journals;
#[cfg(test)]
mod changed_sets;
#[cfg(test)]
mod changes;
#[cfg(test)]
mod checked;
#[cfg(test)]
mod conditions;
#[cfg(test)]
mod cores;
#[cfg(test)]
mod domain_of;
#[cfg(test)]
mod domains;
#[cfg(test)]
mod exchanged;
#[cfg(test)]
mod explained;
#[cfg(test)]
mod explained_ends;
#[cfg(test)]
mod explained_rows;
#[cfg(test)]
mod first_calls;
#[cfg(test)]
mod formats;
#[cfg(test)]
mod full_heaps;
#[cfg(test)]
mod judged;
#[cfg(test)]
mod limits;
#[cfg(test)]
mod one_byte;
#[cfg(test)]
mod outset_texts;
#[cfg(test)]
mod outsets;
#[cfg(test)]
mod printing;
#[cfg(test)]
mod reading;
#[cfg(test)]
mod schedule_faults;
#[cfg(test)]
mod schedule_texts;
#[cfg(test)]
mod schedules;
#[cfg(test)]
mod scripts;
#[cfg(test)]
mod scripts_answered;
#[cfg(test)]
mod scripts_asked;
#[cfg(test)]
mod scripts_refused;
#[cfg(test)]
mod settings;
#[cfg(test)]
mod small_domains;
#[cfg(test)]
mod small_heaps;
#[cfg(test)]
mod standard;
#[cfg(test)]
mod strings;
#[cfg(test)]
mod tables;
#[cfg(test)]
mod text;
#[cfg(test)]
mod texts;
#[cfg(test)]
mod transcript;
#[cfg(test)]
mod tree;
