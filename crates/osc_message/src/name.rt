//! Confirmable messages by their names.

use osc_model::Peer;

/// A confirmable message of the node's own, by what an acknowledgement names (RFC 7252 section 4.2).
#[derive(Clone, Copy, Debug, PartialEq, Eq)]
pub struct MessageName {
    /// To whom it is sent.
    pub peer: Peer,
    /// Its message ID.
    pub id: u16,
}

/// For the places of an array that hold nothing.
impl Default for MessageName {
    fn default() -> MessageName {
        MessageName {
            peer: Peer {
                address: [0; 16],
                scope: 0,
                port: 0,
            },
            id: 0,
        }
    }
}
