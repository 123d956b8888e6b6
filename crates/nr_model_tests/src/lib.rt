//! Tests of the lowest crates by their public calls alone: the sequential map, its sets and its batches,
//! words, and names.
#![tactic(auto)]

#[cfg(test)]
mod calls;
#[cfg(test)]
mod names_at_refused_memory;
#[cfg(test)]
mod same;
#[cfg(test)]
mod specified;
#[cfg(test)]
mod words;
