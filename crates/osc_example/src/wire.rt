//! In place of a network: the bytes of a datagram are handed over by value, and a step of a client or a server sends one at most.
ghost use Rattle.std.specs.Prelude.{◌≡◌, Some, IfOk, IfSome};

use osc_model::{Bytes, Peer, Step};
use std::alloc::{AllocError, Global};

/// Where the lock is.
pub fn lock_peer() -> Peer {
    Peer::v4([192, 0, 2, 1], 5683)
}

/// A copy of what the step sends, if it sends anything. Over a socket each datagram of `step.out` goes to its `to`.
pub fn sent(alloc: Global, step: &Step) -> Result<Option<Bytes>, AllocError> {
    match step.out.as_slice() {
        [datagram] => Ok(Some(datagram.bytes.clone()?)),
        _ => Ok(None),
    }
}

/// The same datagram with another message ID, as anybody can write it who saw the first: bytes 2 and 3 aren't protected.
pub fn under_another_id(alloc: Global, datagram: &Bytes) -> Result<Bytes, AllocError> {
    let mut bytes = Vec::from_slice(alloc, datagram.as_slice())?;
    if let Some(byte) = bytes.get_mut(2) {
        *byte ^= 0xff;
    }
    Ok(Bytes::from_vec(bytes))
}
