//! A datagram in a capture of the network.

use crate::line::Line;
use crate::words::Word;
use osc_diagram::{Arrow, Mark, Way, capture};
use osc_model::{Bytes, Moment, Peer};
use std::alloc::{AllocError, Global};

/// `captured AT FROM TO BYTES`: the capture of a datagram of these bytes, sent at that moment. Of more than 200 bytes how many there are, and their
/// HMAC-SHA-256 under an empty key.
pub fn captured(alloc: Global, words: &[Word<'_>], line: &mut Line) -> Option<()> {
    let [at, from, to, bytes] = words else {
        return None;
    };
    let (moment, from, to) = (at.moment()?, from.peer()?, to.peer()?);
    let file = file_of(alloc, moment, from, to, bytes.copied(alloc)?).ok()?;
    line.short_bytes(&file);
    Some(())
}

fn file_of(
    alloc: Global,
    moment: Moment,
    from: Peer,
    to: Peer,
    bytes: Bytes,
) -> Result<Vec<u8>, AllocError> {
    let arrow = Mark::Arrow(Arrow {
        way: Way::Sent(1),
        moment,
        from,
        to,
        bytes,
        inner: None,
        arrives: true,
    });
    capture(alloc, &[arrow])
}
