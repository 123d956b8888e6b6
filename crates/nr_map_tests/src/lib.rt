//! Tests of the running map, of the directory of ids and of the map over ids, by public calls alone: threads, the
//! largest maps, and sets that come back.
#![tactic(auto)]

#[cfg(test)]
mod cache;
#[cfg(test)]
mod calls;
#[cfg(test)]
mod held;
#[cfg(test)]
mod ids;
#[cfg(test)]
mod kept;
#[cfg(test)]
mod large;
#[cfg(test)]
mod notes;
#[cfg(test)]
mod pins;
#[cfg(test)]
mod reclaiming;
#[cfg(test)]
mod retired;
#[cfg(test)]
mod same;
#[cfg(test)]
mod sizes;
#[cfg(test)]
mod slots;
#[cfg(test)]
mod specified;
#[cfg(test)]
mod tagged;
#[cfg(test)]
mod threads;
#[cfg(test)]
mod worked;
