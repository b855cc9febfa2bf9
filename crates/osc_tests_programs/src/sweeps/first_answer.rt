//! The first exchange through the desk to its answer: the token, the 2.01, a protected POST and its reply, in four datagrams.

use crate::sweeps::traces::{last_word, trace_of};
use std::alloc::Global;

/// One of the four datagrams.
pub(crate) struct Waiting {
    /// Its number.
    pub number: u8,
    /// Who sent it, and to whom.
    pub way: &'static str,
    /// The script up to where it waits.
    pub before: &'static [u8],
    /// The script from there on.
    pub after: &'static [u8],
}

/// The four of them.
pub(crate) const DATAGRAMS: [Waiting; 4] = [
    Waiting {
        number: 1,
        way: "c1 s",
        before: b"grant c1 /log:GET+POST\nexchange c1\n",
        after: b"quiet\nask c1 POST /log 61\nquiet\n",
    },
    Waiting {
        number: 2,
        way: "s c1",
        before: b"grant c1 /log:GET+POST\nexchange c1\ndeliver 1\n",
        after: b"quiet\nask c1 POST /log 61\nquiet\n",
    },
    Waiting {
        number: 3,
        way: "c1 s",
        before: b"grant c1 /log:GET+POST\nexchange c1\nquiet\nask c1 POST /log 61\n",
        after: b"quiet\n",
    },
    Waiting {
        number: 4,
        way: "s c1",
        before: b"grant c1 /log:GET+POST\nexchange c1\nquiet\nask c1 POST /log 61\ndeliver 3\n",
        after: b"quiet\n",
    },
];

/// The bytes of the datagram, in hexadecimal.
pub(crate) fn digits(alloc: Global, waiting: &Waiting) -> Option<Vec<u8>> {
    let trace = trace_of(alloc, waiting.before, true)?;
    Vec::from_slice(alloc, last_word(&trace, b"sent ")).ok()
}
