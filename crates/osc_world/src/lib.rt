//! A world: a server, its clients and proxies, and a network that delivers any datagram ever sent, to whom it was sent, again and in
//! any order, and forges others. What it keeps of its steps is a run, so what holds of every run holds of every world.
#![tactic(auto)]

pub mod adversary;
mod draws;
mod error;
mod event;
mod isolation;
mod jobs;
pub mod laws;
mod log;
mod nodes;
mod start;
mod world;

pub use draws::Draws;
pub use error::{AdmitError, PlaceError};
pub use event::{Event, What};
pub use log::{Record, SentDatagram};
pub use nodes::{Nodes, Placed, StepTaken, Whose};
pub use start::{NewHolder, Parts, Start};
pub use world::World;
