//! Tests of scripts, schedules and the program by their public calls alone: readers and writers that fail or take
//! little, damaged lines, inputs at their limit, refused memory. What the program writes for an input is tried by
//! tests/rows.
#![tactic(auto)]

#[cfg(test)]
mod calls;
#[cfg(test)]
mod devices;
#[cfg(test)]
mod faults;
#[cfg(test)]
mod lines;
#[cfg(test)]
mod refused_memory;
#[cfg(test)]
mod same;
#[cfg(test)]
mod serving;
#[cfg(test)]
mod specified;
#[cfg(test)]
mod streams;
