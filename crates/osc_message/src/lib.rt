//! The message layer of CoAP (RFC 7252 section 4): what is new, what was heard before, and what goes out when.
//!
//! An `Endpoint` says what a datagram is and changes nothing: what no node decides it answers by itself, and the node decides on the
//! rest, and settles it. Confirmable messages are
//! retransmitted until they are acknowledged or given up. Time is handed in. What every node sends is here, and the room in
//! which it is sent, taken before the node's first change.
#![tactic(auto)]

mod arrival;
mod confirmable;
mod deadline;
mod due;
mod endpoint;
mod handling;
mod heard;
pub mod laws;
mod name;
mod outbox;
mod pace;
mod queue;
mod queued;
mod received;
mod sending;
mod tick;

pub use arrival::Arrival;
pub use confirmable::initial_timeout;
pub use due::Due;
pub use endpoint::{Endpoint, QueueFull};
pub use handling::Handling;
pub use heard::Heard;
pub use name::MessageName;
pub use outbox::{CopyRoom, MessageRoom, Outbox, ReplyRoom};
pub use queue::MOST_OPEN;
pub use received::{Received, receive};
pub use sending::{
    acknowledgement, empty_acknowledgement, is_acknowledgement, is_confirmable, noted, one_message,
    rejection, reply_kind, reset,
};
pub use tick::Ticked;
