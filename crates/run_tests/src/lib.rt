//! Tests of whole runs: scripts, faults, command lines and made scripts, each with what it must write.
#![tactic(auto)]

#[cfg(test)]
mod binaries;
#[cfg(test)]
mod cuts;
#[cfg(test)]
mod faults;
#[cfg(test)]
mod grown;
#[cfg(test)]
mod limits;
#[cfg(test)]
mod made;
#[cfg(test)]
mod messages;
#[cfg(test)]
mod repeats;
#[cfg(test)]
mod rows;
#[cfg(test)]
mod runs;
#[cfg(test)]
mod small;
#[cfg(test)]
mod statuses;
#[cfg(test)]
mod tables;
#[cfg(test)]
mod twice;
#[cfg(test)]
mod verbs;
#[cfg(test)]
mod words;
