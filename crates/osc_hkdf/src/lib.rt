//! HMAC-SHA-256 (RFC 2104) and HKDF-SHA-256 (RFC 5869).
//!
//! `specs/` defines them on lists of bytes over SHA-256, in the standards' terms, and the functions give what it
//! defines. They take no memory.
//!
//! By its form the code branches on no byte of a key or a text, only on their lengths, and reads memory at no place that
//! depends on one. No contract says so; `bench/secrets` looks at what was built. Nothing erases a key.
#![tactic(auto)]

mod error;
mod hkdf;
pub mod laws;
mod mac;
mod prk;

pub use error::OutputTooLong;
pub use hkdf::{expand, extract};
pub use mac::hmac;
pub use prk::Prk;
