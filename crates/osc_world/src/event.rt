//! What may happen.

use osc_model::{Bytes, Draw, Moment, Peer, Request};
use osc_run::Actor;

/// What happens. Clients are named by their numbers, from 0, in the order in which they were enrolled; proxies by theirs, from 0, in
/// the order in which they were added; datagrams by theirs, from 0, in the order in which they were sent.
#[derive(Drop)]
pub enum What {
    /// The client begins an exchange.
    Exchange {
        client: usize,
    },
    /// The client is to send this request, protected. One with the code 0.00 is no request, and it has no effect.
    Ask {
        client: usize,
        request: Request,
    },
    /// The client's holder seals any text as a request with this number, and sends it. One with a number that none may have, above
    /// 1099511627775, is no request, and it has no effect.
    Lie {
        client: usize,
        number: u64,
        text: Bytes,
    },
    /// The time has come for what is due at the node.
    Tick {
        node: Actor,
    },
    /// The node starts again.
    Restart {
        node: Actor,
    },
    /// A datagram that was sent comes to whom it was sent, whether or not it came before.
    Deliver {
        datagram: usize,
    },
    /// Bytes come from one address to another, as one datagram that nobody sent.
    Inject {
        from: Peer,
        to: Peer,
        bytes: Bytes,
    },
}

/// An event: what happens, when, and with which random bytes.
pub struct Event {
    /// When it happens.
    pub moment: Moment,
    /// Its random bytes.
    pub draw: Draw,
    /// What happens.
    pub what: What,
}

impl Drop for Event {
    fn drop(self) {
        let Event {
            moment: _,
            draw: _,
            what: _,
        } = self;
    }
}
