//! A message that is written straight into the vector that is sent, in room that was taken for it: nothing here takes memory.

ghost use Rattle.std.specs.Prelude.{◌≡◌, ◌<◌, ◌≤◌, ◌+◌, ◌-◌, ◌++◌, ℕ, List, [], length, take, replicate};
ghost use Rattle.std.specs.Vec.{vec_len, vec_capacity};
ghost use Rattle.osc_coap.specs.Message.{spelling, option_spelling, payload_spelling};
ghost use Rattle.osc_coap.specs.Building.{bare, payload_of};
ghost use Rattle.osc_coap.specs.Length.{datagram_limit, payload_length};

use crate::body::zeros;
use crate::kind::Kind;
use crate::options::PAYLOAD_MARKER;
use crate::payload::PayloadWriter;

/// Writes the header and the token of a message into a vector that is empty and has room for both.
pub fn write_start(out: &mut Vec<u8>, kind: Kind, code: u8, id: u16, token: &[u8])
    requires size { length token.now ≤ 8 }
    requires empty { out.old.items ≡ [] }
    requires none { vec_len out.old ≡ 0 }
    requires room { 4 + length token.now ≤ vec_capacity out.old }
    ensures written { out.new.items ≡ spelling (bare kind code id token.now) }
    ensures length { vec_len out.new ≡ 4 + length token.now }
    ensures capacity { vec_capacity out.old ≤ vec_capacity out.new }
{
    out.push_reserved(64 + 16 * kind.bits() + token.len() as u8);
    out.push_reserved(code);
    out.push_reserved((id / 256) as u8);
    out.push_reserved((id % 256) as u8);
    out.extend_from_slice(token).unwrap();
}

/// Appends an option without a value after one of number `before`, whose delta has no extension (RFC 7252 section 3.1); there is room for it.
pub fn append_empty_option(out: &mut Vec<u8>, before: u16, number: u16)
    requires order { before ≤ number }
    requires delta { number - before < 13 }
    requires room { vec_len out.old < vec_capacity out.old }
    ensures written { out.new.items ≡ out.old.items ++ option_spelling before (number, []) }
    ensures length { vec_len out.new ≡ vec_len out.old + 1 }
    ensures capacity { vec_capacity out.old ≤ vec_capacity out.new }
{
    out.push_reserved(16 * (number - before) as u8);
}

/// Appends the marker and `size` bytes that are zero; there is room for them. No bytes are no payload.
#[tactic(auto, unfolding(crate::specs::Message::payload_spelling))]
fn append_zeros(out: &mut Vec<u8>, size: usize)
    requires size { size ≤ datagram_limit }
    requires room { vec_len out.old + payload_length (payload_of (replicate size 0)) ≤ vec_capacity out.old }
    ensures written { out.new.items ≡ out.old.items ++ payload_spelling (payload_of (replicate size 0)) }
{
    let payload = zeros(size);
    if payload.is_empty() {
        return;
    }
    out.push_reserved(PAYLOAD_MARKER);
    out.extend_from_slice(payload).unwrap();
}

/// Has the last bytes written, as many as these.
fn write_last<W: PayloadWriter>(out: &mut Vec<u8>, size: usize, writer: &W)
    requires there { size ≤ length out.old.items }
    requires can { W.can_write writer.now size }
    ensures { (written : List ℕ) × (length written ≡ size) × W.is_written writer.now written
        × (out.new.items ≡ take (length out.old.items - size) out.old.items ++ written) }
{
    let all = out.as_mut_slice();
    let start = all.len() - size;
    writer.write(&mut all[start..]);
}

/// Appends the marker and a payload of `size` bytes, which is written where it lies; there is room for both. No bytes are no payload.
pub fn append_payload<W: PayloadWriter>(out: &mut Vec<u8>, size: usize, writer: &W)
    requires size { size ≤ datagram_limit }
    requires can { W.can_write writer.now size }
    requires room { vec_len out.old + payload_length (payload_of (replicate size 0)) ≤ vec_capacity out.old }
    ensures { (written : List ℕ) × (length written ≡ size) × W.is_written writer.now written
        × (out.new.items ≡ out.old.items ++ payload_spelling (payload_of written)) }
{
    append_zeros(out, size);
    write_last(out, size, writer);
}
