//! The log of a node: what its turns did, by lines of text or of JSON, and counters from time to time.
#![tactic(auto)]

mod at_once;
mod counters;
mod counting;
mod faults;
mod form;
mod held;
mod json;
mod kind;
pub mod laws;
mod limits;
mod line;
mod log;
mod object;
mod output;
mod seen;
mod text;
mod time;
mod told;
mod turn;
mod words;

pub use at_once::AtOnce;
pub use form::Form;
pub use held::{Held, TellsHeld};
pub use log::{Faults, Lines, Log, Silent};
pub use output::write_some;
pub use turn::Turn;
pub use words::shown;
