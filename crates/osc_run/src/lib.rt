//! The runs of a server, its clients and proxies: what a step of a node may be, what is assumed of a run, and what holds of
//! every run (`specs/`).
#![tactic(auto)]

pub mod kinds;
pub mod laws;
mod minted;
mod node;
mod noted;
mod notes;
mod premise;
mod readers;

pub use minted::{Grant, Minted};
pub use node::Node;
pub use noted::{Actor, Noted};
pub use notes::Notes;
pub use readers::{Acceptance, Question};
