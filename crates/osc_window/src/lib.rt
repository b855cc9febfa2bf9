//! The replay window of a security context: which sequence numbers of the other side are fresh (RFC 8613 section 7.4).
#![tactic(auto)]

pub mod laws;
mod window;

pub use window::Window;
