//! A client: exchanges at authz-info (RFC 9203), and protected requests (RFC 8613). One event in, its step out. What it sends in
//! each, and keeps after it, is in `specs/Sending.antt`.
#![tactic(auto)]

mod answering;
mod asking;
mod case;
mod client;
mod exchanging;
pub mod laws;
mod node;
mod proxied;
mod refusing;
mod route;
mod sending;
mod waiting;

pub use answering::AnswerEffect;
pub use case::ResponseCase;
pub use client::Client;
pub use route::{Origin, Route};
pub use waiting::{Awaited, OpenAsk, Waiting};

/// The message layer of a client. It awaits one thing at a time, so it has a place for one confirmable message.
type Endpoint = osc_message::Endpoint<1>;
