//! A resource server: CoAP (RFC 7252), tokens at authz-info (RFC 9203) and OSCORE (RFC 8613). One datagram in, its step out.
//! `specs/Case.antt` says which case a datagram is, and `specs/Table.antt` what is sent in each, and kept after it.
#![tactic(auto)]

mod again;
mod answer;
mod case;
mod in_hand;
pub mod laws;
mod node;
mod posting;
mod refusal;
mod server;
mod serving;

pub use case::RequestCase;
pub use refusal::Refusal;
pub use server::Server;

/// The message layer of a server. It sends nothing that waits for an acknowledgement, so it has no place for any such message.
type Endpoint = osc_message::Endpoint<0>;
