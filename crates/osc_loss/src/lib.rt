//! Rounds over a network that loses: what a client's message and its answer come to, whatever is lost, repeated, delayed and reordered, and
//! whatever else comes to both ends meanwhile. Each law speaks of the nodes' definitions alone.
#![tactic(auto)]

pub mod laws;
