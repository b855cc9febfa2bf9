//! Access tokens: encrypted claims (RFC 8392) that carry a holder's rights and the input material of his security contexts
//! (RFC 9203 section 3.2.1), minted, opened and judged.
//!
//! Generic over the cipher: all that is known of it is the law of `Aead`.
#![tactic(auto)]

mod audience;
mod claims;
mod error;
mod found;
mod judging;
mod labels;
pub mod laws;
mod lengths;
mod material;
mod minting;
mod naming;
mod opening;
mod reading;

pub use audience::Audience;
pub use claims::{Claims, InputMaterial};
pub use error::{MintError, TokenError};
pub use judging::judge;
pub use minting::{CLAIMS_LIMIT, claims_text, mint};
pub use naming::name_in;
pub use opening::open_token;
pub use reading::read;
