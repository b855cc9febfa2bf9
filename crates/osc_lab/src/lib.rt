//! A lab: the nodes of a script on sockets of one machine, in one process, which take their turns one after another.
#![tactic(auto)]

mod cast;
pub mod laws;
mod nodes;
mod port;
mod ports;
mod run;
mod telling;
mod turning;
mod usage;

pub use run::lab;
