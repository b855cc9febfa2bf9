//! Datagrams that a script makes of those that were sent.
ghost use Rattle.std.specs.Prelude.{◌≡◌, IfOk, Some, None, cond, drop, take};
ghost use Rattle.osc_simulation.specs.Copies as spec;

use osc_model::Bytes;
use osc_script::Change;
use std::alloc::{AllocError, Global};
use std::cmp::min;

/// A copy of the bytes with these changes, one after another; none where an offset is past the last byte.
pub(crate) fn altered(
    alloc: Global,
    changes: &[Change],
    bytes: &[u8],
) -> Result<Option<Bytes>, AllocError>
    ensures { IfOk result (λ copy. copy ≡ spec.altered changes.now bytes.now) }
{
    let mut copy = Vec::from_slice(alloc, bytes)?;
    for change in changes {
        if !change_byte(&mut copy, change) {
            return Ok(None);
        }
    }
    Ok(Some(Bytes::from_vec(copy)))
}

/// Whether there is a byte at the offset; then its bits are turned.
fn change_byte(bytes: &mut [u8], change: &Change) -> bool
    ensures { spec.changed_by change.now bytes.old ≡ cond result (Some bytes.new) None }
{
    let offset = change.offset as usize;
    if offset >= bytes.len() {
        return false;
    }
    bytes[offset] ^= change.mask;
    true
}

/// The header and the token of one message, the options and the payload of another.
pub(crate) fn grafted(alloc: Global, header: &[u8], body: &[u8]) -> Result<Bytes, AllocError>
    ensures { IfOk result (λ bytes. bytes ≡ spec.grafted header.now body.now) }
{
    Bytes::joined(alloc, head(header), behind_head(body))
}

/// The header and the token of a message.
fn head(message: &[u8]) -> &[u8]
    ensures { result.now ≡ take (spec.head_length message.now) message.now }
{
    &message[..min(head_length(message), message.len())]
}

/// The options and the payload of a message.
fn behind_head(message: &[u8]) -> &[u8]
    ensures { result.now ≡ drop (spec.head_length message.now) message.now }
{
    &message[min(head_length(message), message.len())..]
}

/// How long the header and the token of a message are (RFC 7252 section 3).
fn head_length(message: &[u8]) -> usize
    ensures { result ≡ spec.head_length message.now }
{
    match message.first() {
        Some(first) => 4 + (first % 16) as usize,
        None => 4,
    }
}
