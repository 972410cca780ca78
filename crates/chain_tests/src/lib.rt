//! Tests of collections: an object of each kind is moved, holders and funs that share records are swept and their records moved, and
//! the holders and funs of a row are chained and counted, and words are relocated in place.
#![tactic(auto)]

#[cfg(test)]
mod memory;
#[cfg(test)]
mod moving;
#[cfg(test)]
mod rows;
#[cfg(test)]
mod sharing;
#[cfg(test)]
mod shifting;
