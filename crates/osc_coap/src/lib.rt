//! CoAP messages (RFC 7252 section 3), borrowed from a datagram or built into one, and the plaintexts
//! that OSCORE makes of them (RFC 8613 section 5.3). Nothing here takes memory.
#![tactic(auto)]

mod body;
mod builder;
mod code;
mod error;
mod header;
mod kind;
pub mod laws;
mod message;
mod options;
mod payload;
mod plaintext;
mod written;

pub use body::option_length;
pub use builder::MessageBuilder;
pub use code::{is_request_code, is_response_code};
pub use error::{DatagramTooLong, ParseError};
pub use header::kind_and_id;
pub use kind::Kind;
pub use message::MessageRef;
pub use options::{Options, PAYLOAD_MARKER};
pub use osc_model::limits::DATAGRAM_LIMIT;
pub use payload::PayloadWriter;
pub use plaintext::{PlaintextBuilder, PlaintextRef};
pub use written::{append_empty_option, append_payload, write_start};
