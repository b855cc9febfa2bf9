//! Options and a payload, written after one another: what messages and plaintexts have alike.

ghost use Rattle.std.specs.Prelude.{◌≡◌, ◌<◌, ◌≤◌, ◌↔◌, ◌+◌, ◌-◌, ◌++◌, ℕ, List, length, replicate, IsOk, OnOk, OnErr};
ghost use Rattle.arrayvec.specs.ArrayVec.{array_vec_len};
ghost use Rattle.osc_coap.specs.Message.{nibble, extension, option_spelling, payload_spelling};
ghost use Rattle.osc_coap.specs.Building.{payload_of};
ghost use Rattle.osc_coap.specs.Length.{datagram_limit, extension_length as extension_length_of, option_length as option_length_of};

use crate::error::DatagramTooLong;
use crate::options::PAYLOAD_MARKER;
use crate::payload::{PayloadWriter, write_last};
use arrayvec::ArrayVec;
use osc_model::limits::DATAGRAM_LIMIT;

/// Bytes that are zero, as many as a datagram may have.
static ZEROS: [u8; DATAGRAM_LIMIT] = [0; DATAGRAM_LIMIT];

/// The four bits that stand for an option's delta or length (RFC 7252 section 3.1).
#[tactic(auto, unfolding(crate::specs::Message::nibble))]
fn nibble_of(n: usize) -> u8
    ensures value { result ≡ nibble n }
    ensures bound { result < 15 }
{
    if n < 13 {
        n as u8
    } else if n < 269 {
        13
    } else {
        14
    }
}

/// The bytes of its extension.
#[tactic(auto, unfolding(crate::specs::Message::extension))]
fn extension_of(n: usize) -> ArrayVec<u8, 2>
    requires { n < 65536 }
    ensures value { result.items ≡ extension n }
    ensures bound { array_vec_len result ≤ 2 }
{
    let mut out = ArrayVec::new();
    if n >= 269 {
        let above = n - 269;
        out.push((above / 256) as u8);
        out.push((above % 256) as u8);
    } else if n >= 13 {
        out.push((n - 13) as u8);
    }
    out
}

/// How many bytes the extension has.
fn extension_length(n: usize) -> usize
    ensures value { result ≡ extension_length_of n }
    ensures bound { result ≤ 2 }
{
    if n < 13 {
        0
    } else if n < 269 {
        1
    } else {
        2
    }
}

/// How many bytes an option takes after one of number `before`, or first after 0 (RFC 7252 section 3.1).
pub fn option_length(before: u16, number: u16, value: &[u8]) -> usize
    requires { before ≤ number }
    ensures { result ≡ option_length_of before (number, value.now) }
{
    let size = value.len();
    1 + extension_length((number - before) as usize) + extension_length(size) + size
}

/// Appends bytes for which there is room.
pub(crate) fn append(out: &mut ArrayVec<u8, DATAGRAM_LIMIT>, bytes: &[u8])
    requires { array_vec_len out.old + length bytes.now ≤ datagram_limit }
    ensures { out.new.items ≡ out.old.items ++ bytes.now }
{
    if bytes.is_empty() {
        return;
    }
    let _ = out.try_extend_from_slice(bytes);
}

/// Appends an option after one of number `before` whose delta and length have no extension, if there is room.
fn push_short(
    out: &mut ArrayVec<u8, DATAGRAM_LIMIT>,
    before: u16,
    number: u16,
    value: &[u8],
) -> Result<(), DatagramTooLong>
    requires order { before ≤ number }
    requires delta { number - before < 13 }
    requires size { length value.now < 13 }
    ensures variant { IsOk result
        ↔ (length (out.old.items ++ option_spelling before (number, value.now)) ≤ datagram_limit) }
    ensures ok { OnOk result
        (out.new.items ≡ out.old.items ++ option_spelling before (number, value.now)) }
    ensures err { OnErr result (out.new ≡ out.old) }
{
    let size = value.len();
    if out.remaining_capacity() <= size {
        return Err(DatagramTooLong);
    }
    out.push(16 * (number - before) as u8 + size as u8);
    append(out, value);
    Ok(())
}

/// Appends an option after one of number `before`, if there is room.
pub(crate) fn push_option(
    out: &mut ArrayVec<u8, DATAGRAM_LIMIT>,
    before: u16,
    number: u16,
    value: &[u8],
) -> Result<(), DatagramTooLong>
    requires { before ≤ number }
    ensures variant { IsOk result
        ↔ (length (out.old.items ++ option_spelling before (number, value.now)) ≤ datagram_limit) }
    ensures ok { OnOk result
        (out.new.items ≡ out.old.items ++ option_spelling before (number, value.now)) }
    ensures err { OnErr result (out.new ≡ out.old) }
{
    let delta = (number - before) as usize;
    if delta < 13 && value.len() < 13 {
        return push_short(out, before, number, value);
    }
    let room = out.remaining_capacity();
    if room < value.len() {
        return Err(DatagramTooLong);
    }
    let delta_extension = extension_of(delta);
    let size_extension = extension_of(value.len());
    if room < 1 + delta_extension.len() + size_extension.len() + value.len() {
        return Err(DatagramTooLong);
    }
    out.push(16 * nibble_of(delta) + nibble_of(value.len()));
    append(out, &delta_extension);
    append(out, &size_extension);
    append(out, value);
    Ok(())
}

/// Appends the marker and the payload, if there is room. No bytes are no payload.
#[tactic(auto, unfolding(crate::specs::Message::payload_spelling))]
pub(crate) fn push_payload(
    out: &mut ArrayVec<u8, DATAGRAM_LIMIT>,
    payload: &[u8],
) -> Result<(), DatagramTooLong>
    ensures variant { IsOk result
        ↔ (length (out.old.items ++ payload_spelling (payload_of payload.now)) ≤ datagram_limit) }
    ensures ok { OnOk result
        (out.new.items ≡ out.old.items ++ payload_spelling (payload_of payload.now)) }
    ensures err { OnErr result (out.new ≡ out.old) }
{
    let room = out.remaining_capacity();
    if payload.is_empty() {
        return Ok(());
    }
    if room <= payload.len() {
        return Err(DatagramTooLong);
    }
    out.push(PAYLOAD_MARKER);
    append(out, payload);
    Ok(())
}

/// `size` bytes that are all zero.
pub(crate) fn zeros(size: usize) -> &'static [u8]
    requires { size ≤ datagram_limit }
    ensures { result.now ≡ replicate size 0 }
{
    &ZEROS[..size]
}

/// Appends the marker and a payload of `size` bytes that are zero, if there is room.
fn push_zeros(out: &mut ArrayVec<u8, DATAGRAM_LIMIT>, size: usize) -> Result<(), DatagramTooLong>
    ensures variant { IsOk result
        ↔ (length (out.old.items ++ payload_spelling (payload_of (replicate size 0))) ≤ datagram_limit) }
    ensures ok { OnOk result
        (out.new.items ≡ out.old.items ++ payload_spelling (payload_of (replicate size 0))) }
    ensures err { OnErr result (out.new ≡ out.old) }
{
    if size > DATAGRAM_LIMIT {
        return Err(DatagramTooLong);
    }
    push_payload(out, zeros(size))
}

/// What the builders of messages and of plaintexts write: bytes, and the number of the last option, or 0.
#[derive(Drop)]
pub(crate) struct Writer {
    pub(crate) bytes: ArrayVec<u8, DATAGRAM_LIMIT>,
    pub(crate) last: u16,
}

impl Writer {
    /// Adds an option after the others, if there is room.
    pub(crate) fn option(&mut self, number: u16, value: &[u8]) -> Result<(), DatagramTooLong>
        requires { self.old.last ≤ number }
        ensures variant { IsOk result
            ↔ (length (self.old.bytes.items ++ option_spelling self.old.last (number, value.now)) ≤ datagram_limit) }
        ensures ok { OnOk result
            ((self.new.bytes.items ≡ self.old.bytes.items ++ option_spelling self.old.last (number, value.now))
            × (self.new.last ≡ number)) }
        ensures err { OnErr result (self.new ≡ self.old) }
    {
        push_option(&mut self.bytes, self.last, number, value)?;
        self.last = number;
        Ok(())
    }

    /// Adds the marker and the payload, if there is room. No bytes are no payload.
    pub(crate) fn payload(&mut self, payload: &[u8]) -> Result<(), DatagramTooLong>
        ensures variant { IsOk result
            ↔ (length (self.old.bytes.items ++ payload_spelling (payload_of payload.now)) ≤ datagram_limit) }
        ensures ok { OnOk result
            ((self.new.bytes.items ≡ self.old.bytes.items ++ payload_spelling (payload_of payload.now))
            × (self.new.last ≡ self.old.last)) }
        ensures err { OnErr result (self.new ≡ self.old) }
    {
        push_payload(&mut self.bytes, payload)
    }

    /// Adds the marker and a payload of `size` bytes, if there is room, and has it written where it lies. No bytes are
    /// no payload.
    pub(crate) fn write_payload<W: PayloadWriter>(
        &mut self,
        size: usize,
        writer: &W,
    ) -> Result<(), DatagramTooLong>
        requires { W.can_write writer.now size }
        ensures variant { IsOk result
            ↔ (length (self.old.bytes.items ++ payload_spelling (payload_of (replicate size 0))) ≤ datagram_limit) }
        ensures ok { OnOk result ((written : List ℕ) × (length written ≡ size) × W.is_written writer.now written
            × (self.new.bytes.items ≡ self.old.bytes.items ++ payload_spelling (payload_of written))
            × (self.new.last ≡ self.old.last)) }
        ensures err { OnErr result (self.new ≡ self.old) }
    {
        push_zeros(&mut self.bytes, size)?;
        write_last(&mut self.bytes, size, writer);
        Ok(())
    }
}
