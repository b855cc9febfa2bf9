//! The duplicate table: what answered the messages that came lately, so that a message that comes again is answered
//! alike (RFC 7252 sections 4.2 and 4.5).
//!
//! A table has room for 64 entries and takes no memory once it is made. Its keys are hashed with a fixed seed, so a
//! stranger can make them collide: with at most 64 entries that costs no more than a walk over all of them.
#![tactic(auto)]

pub mod laws;
mod table;

pub use table::{Duplicates, Remembered};
