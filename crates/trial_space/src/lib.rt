//! A space for tests alone, at which the engine is tried: one process whose registers hold immediates, and no memory.
#![tactic(auto)]

#[cfg(test)]
mod comparing;
#[cfg(test)]
mod printing;
#[cfg(test)]
mod space;
#[cfg(test)]
mod tests;
#[cfg(test)]
mod weight;
