//! Who is where, when something happens, and with which random bytes.

use osc_model::{Draw, Moment, Peer};

/// The server.
pub const SERVER: Peer = Peer {
    address: [0, 0, 0, 0, 0, 0, 0, 0, 0, 0, 0xff, 0xff, 127, 0, 0, 1],
    scope: 0,
    port: 5683,
};

/// The proxy.
pub const PROXY: Peer = Peer {
    port: 6001,
    ..SERVER
};

/// The client, or the first one.
pub const CLIENT: Peer = Peer {
    port: 7001,
    ..SERVER
};

/// Somebody that isn't a node.
pub const STRANGER: Peer = Peer {
    port: 9000,
    ..SERVER
};

/// Where nobody is.
pub const NOWHERE: Peer = Peer {
    port: 9001,
    ..SERVER
};

/// Where the client of this number is, from 0.
pub fn place(client: u8) -> Peer {
    Peer {
        port: 7001 + client as u16,
        ..CLIENT
    }
}

/// This number of ms after the start; the start, where no moment is as late as that.
pub fn at(ms: u64) -> Moment {
    Moment::new(ms).unwrap_or(Moment::START)
}

/// A draw of this byte alone.
pub fn drawn(byte: u8) -> Draw {
    Draw([byte; 32])
}
