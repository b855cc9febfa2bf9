//! A chart as a value.

use osc_model::{Bytes, Code, Moment, Peer};

/// Whoever has a column: a node by its name, and where it is.
#[derive(Clone, Copy, Debug)]
pub struct Column {
    /// Its name: up to 8 letters and digits.
    pub name: &'static str,
    /// Its address and its port.
    pub at: Peer,
}

/// How a datagram came onto the network.
#[derive(Clone, Copy, Debug, PartialEq, Eq)]
pub enum Way {
    /// A node sent it, as the datagram of this number, from 1.
    Sent(usize),
    /// The network delivered the datagram of this number again.
    Again(usize),
    /// No node sent it.
    Forged,
}

/// A datagram on the network.
#[derive(Clone, Debug)]
pub struct Arrow {
    /// How it came there.
    pub way: Way,
    /// When.
    pub moment: Moment,
    /// Where it came from, or says that it did.
    pub from: Peer,
    /// To whom.
    pub to: Peer,
    /// The payload of the UDP datagram.
    pub bytes: Bytes,
    /// The code inside it, where it is protected and that is known.
    pub inner: Option<Code>,
    /// Whether it came to whom it was sent.
    pub arrives: bool,
}

impl Drop for Arrow {
    fn drop(self) {
        let Arrow {
            way: _,
            moment: _,
            from: _,
            to: _,
            bytes: _,
            inner: _,
            arrives: _,
        } = self;
    }
}

/// What is drawn, one below the other.
#[derive(Clone, Debug, Drop)]
pub enum Mark {
    /// A datagram.
    Arrow(Arrow),
    /// Something at a node: a text in UTF-8 without a line feed.
    Note { at: Peer, text: Bytes },
    /// What is below happens at this moment.
    Time(Moment),
}
