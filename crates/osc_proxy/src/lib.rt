//! What a forward proxy does with a request and its answer (RFC 7252 section 5.7.2): which case a datagram is, where a request goes,
//! the message that is forwarded, the message that the answer goes back in, and the exchanges that are open. Nothing is sealed or opened here, so
//! nobody has to trust it.
#![tactic(auto)]

use osc_message::MOST_OPEN;

mod answering;
mod case;
mod deadline;
mod exchanges;
mod forwarding;
pub mod laws;
mod node;
mod opening;
mod proxy;
mod proxy_uri;
mod route;
mod sending;
mod targets;
mod ticking;
mod token;
mod unsafe_options;

pub use case::ForwardCase;
pub use exchanges::{Exchange, Exchanges, FailureRoom};
pub use forwarding::{answer_message, forwarded_message, forwarded_token};
pub use osc_model::limits::DEFAULT_PORT;
pub use proxy::Proxy;
pub use proxy_uri::{TargetName, read_proxy_uri};
pub use route::{Destination, route_of};
pub use targets::{Target, Targets};
pub use token::Token;
pub use unsafe_options::has_unrecognised_unsafe;

/// The message layer of a proxy. It has places for as many confirmable messages as are ever open.
type Endpoint = osc_message::Endpoint<MOST_OPEN>;
