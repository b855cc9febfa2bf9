//! Protection of requests and responses (RFC 8613 sections 4 to 8).
//!
//! Generic over the ciphers, one for each algorithm: all that is known of them are the laws of `Ciphers`. Protecting takes no memory, since its room was taken
//! before, and opening takes none before it is known that what is sealed is genuine; each use of a key is noted. A message is read before it is opened, so that its context and its
//! number can be looked at first: numbers are accepted by the caller, last, and a reply under a request's nonce is protected
//! only with the number that was accepted.
#![tactic(auto)]

mod aad;
mod error;
mod header;
pub mod laws;
mod opening;
mod request;
mod response;
mod room;
mod sealed;
mod sealing;
mod token_cipher;
mod value;

pub use aad::associated_data;
pub use error::{Malformed, MessageTooLong, ReplyTooLong, RequestNotGenuine, ResponseNotGenuine};
pub use header::Header;
pub use request::{
    Draft, ProtectedRequest, RequestSize, draft_request, fits, open_request, protect_request,
    seal_request,
};
pub use response::{
    ProtectedResponse, SealedReply, open_response, protect_reply, protect_response, seal_reply,
};
pub use room::Room;
pub use sealed::{SealedRequestRef, SealedResponseRef, read_request, read_response};
pub use token_cipher::TokenCipher;
pub use value::{OscoreOption, request_option};
