//! Tests of what runs in threads, by public calls alone: the tickets' way to the dataflow, its turns and the clients'
//! gets, by number and by id, one after another and in threads of their own, and whole loads.
#![tactic(auto)]

#[cfg(test)]
mod applied;
#[cfg(test)]
mod by_id;
#[cfg(test)]
mod deadlines;
#[cfg(test)]
mod gates;
#[cfg(test)]
mod kept;
#[cfg(test)]
mod loads;
#[cfg(test)]
mod lobbies;
#[cfg(test)]
mod looks;
#[cfg(test)]
mod opened;
#[cfg(test)]
mod pairs;
#[cfg(test)]
mod parts;
#[cfg(test)]
mod queues;
#[cfg(test)]
mod same;
#[cfg(test)]
mod scenes;
#[cfg(test)]
mod sleepers;
#[cfg(test)]
mod specified;
#[cfg(test)]
mod upqueries;
#[cfg(test)]
mod wakes;
#[cfg(test)]
mod works;
