//! Of the clients and the dataflow by id.
mod absences;
mod applied;
mod changes;
mod claims;
mod opened;
mod rooms;
mod scenes;
mod sleeps;
mod threads;
mod turns;
