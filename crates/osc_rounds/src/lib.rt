//! Rounds: what a message of one node is to another, where nothing is lost. Each law speaks of the nodes' definitions alone.
#![tactic(auto)]

pub mod laws;
