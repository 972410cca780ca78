//! Tests of what stands below walks over terms: the memory, the arena, words, sizes, names, trees, the parts and builders of terms,
//! sources, sinks, readers, sums and the parser, over their contracts alone.
#![tactic(auto)]

#[cfg(test)]
mod arena;
#[cfg(test)]
mod laws;
#[cfg(test)]
mod lines;
#[cfg(test)]
mod names;
#[cfg(test)]
mod ordering;
#[cfg(test)]
mod parsing;
#[cfg(test)]
mod sizes;
#[cfg(test)]
mod std_edges;
#[cfg(test)]
mod sums;
#[cfg(test)]
mod tags;
#[cfg(test)]
mod term_parts;
#[cfg(test)]
mod trees;
#[cfg(test)]
mod words;
#[cfg(test)]
mod writes;
