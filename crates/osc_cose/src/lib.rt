//! COSE_Encrypt0 (RFC 9052 section 5.2): which bytes are such an object, its associated data, sealing and opening.
//!
//! Generic over the cipher: all that is known of it is the law of `Aead`.
#![tactic(auto)]

mod encrypt0;
mod error;
pub mod laws;
mod opening;
mod parsing;
mod parts;
mod protected;
mod sealing;
mod structure;
mod writing;

pub use encrypt0::Encrypt0;
pub use error::{OpenEncrypt0Error, ParseEncrypt0Error, SealEncrypt0Error};
pub use opening::{open0, open0_into};
pub use parsing::{object_of, parse0};
pub use protected::names_algorithm;
pub use sealing::seal0;
pub use structure::enc_structure;
pub use writing::write0;
