//! Security contexts (RFC 8613 section 3): keys derived from a name, sender sequence numbers, replay windows, nonces.
//!
//! A name fixes the keys of both ends and the common IV. A sender sequence number is taken once, and accepted once.
#![tactic(auto)]

mod algorithm;
mod append;
mod derivation;
mod error;
pub mod laws;
mod nonce;
mod recipient;
mod salt;
mod sender;

pub use algorithm::algorithm_of;
pub use derivation::{derive, info_of};
pub use error::{DeriveError, Exhausted};
pub use nonce::{ID_LIMIT, NUMBER_LIMIT, nonce_for, partial_iv_of};
pub use recipient::{AcceptedNumber, RecipientContext};
pub use salt::joined_salt;
pub use sender::{SendNumber, SenderContext};
