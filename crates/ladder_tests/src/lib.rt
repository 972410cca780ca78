//! Tests of terms that are built, measured, compared and written: a ladder of every kind, wide maps, the walk limit, and texts.
#![tactic(auto)]

#[cfg(test)]
mod binaries;
#[cfg(test)]
mod ladder;
#[cfg(test)]
mod limits;
#[cfg(test)]
mod objects;
#[cfg(test)]
mod records;
#[cfg(test)]
mod rungs;
#[cfg(test)]
mod steps;
#[cfg(test)]
mod texts;
#[cfg(test)]
mod wide;
