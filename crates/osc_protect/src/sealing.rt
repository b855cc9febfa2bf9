//! What requests and responses share: the message that is sent in place of one, and its seal.

ghost use Rattle.std.specs.Prelude.{◌≡◌, ◌↔◌, ◌+◌, ◌≤◌, ◌<◌, ◌++◌, ℕ, List, [], None, length, replicate, IsOk, OnOk};
ghost use Rattle.std.specs.Vec.{vec_len, vec_capacity};
ghost use Rattle.osc_coap.specs.{spelling, plaintext_spelling, payload_of, payload_spelling, with_payload, payload_length};
ghost use Rattle.osc_options.specs.{protected};
ghost use Rattle.osc_context.specs.{algorithm_of, longest_id};
ghost use Rattle.osc_protect.specs.Aad.{aad_of};
ghost use Rattle.osc_protect.specs.Protection.{longest_message, note_of};

use crate::request::Draft;
use crate::room::Room;
use osc_ccm::Ciphers;
use osc_coap::laws::length_of_growing;
use osc_coap::{
    DATAGRAM_LIMIT, DatagramTooLong, MessageBuilder, MessageRef, PayloadWriter, append_payload,
};
use osc_model::{Algorithm, Note, Side};
use osc_options::write_protected;
use std::marker::PhantomData;

/// How many bytes a payload of this size takes, with its marker.
fn payload_size(size: usize) -> usize
    requires { size ≤ 1168 }
    ensures { result ≡ payload_length (payload_of (replicate size 0)) }
{
    if size == 0 { 0 } else { 1 + size }
}

/// How many bytes the message has with a payload of this size.
pub(crate) fn size_with(message: &MessageBuilder, size: usize) -> usize
    requires size { size ≤ 1168 }
    requires payload { message.now.payload ≡ None }
    ensures { result ≡ length (spelling (with_payload message.now (replicate size 0))) }
{
    length_of_growing();
    message.bytes().len() + payload_size(size)
}

/// Writes the message with this code and option value, still without its payload; refused exactly where it is longer than a datagram
/// may be with `size` bytes of payload.
pub(crate) fn write_outer(
    out: &mut MessageBuilder,
    message: &MessageRef<'_>,
    code: u8,
    value: &[u8],
    size: usize,
) -> Result<(), DatagramTooLong>
    requires code { 0 < code }
    requires size { size ≤ 1168 }
    ensures outer { OnOk result (out.new ≡ protected message.now code value.now []) }
    ensures fits { IsOk result
        ↔ (length (spelling (protected message.now code value.now (replicate size 0))) ≤ longest_message) }
{
    length_of_growing();
    let Ok(()) = write_protected(out, message, code, value, &[]) else {
        return Err(DatagramTooLong);
    };
    if size_with(out, size) > DATAGRAM_LIMIT {
        return Err(DatagramTooLong);
    }
    Ok(())
}

/// Seals the plaintext of a draft as the payload of its message, and notes that. Takes no memory.
pub(crate) fn seal_draft<A: Ciphers>(
    room: Room,
    side: Side,
    nonce: [u8; 13],
    key: &[u8; 16],
    draft: &mut Draft,
) -> Note
    requires id { length room.name.client_id ≤ longest_id }
    requires code { 0 < draft.old.message.code }
    requires payload { draft.old.message.payload ≡ None }
    requires room { length (plaintext_spelling draft.old.plaintext) ≤ room.most }
    requires fits { length (spelling (with_payload draft.old.message
        (replicate (length (plaintext_spelling draft.old.plaintext) + A.TAG (algorithm_of room.name)) 0))) ≤ longest_message }
    ensures sealed { (sealed : List ℕ)
        × A.is_sealing (algorithm_of room.name) key.now nonce (aad_of room.name room.number) (plaintext_spelling draft.old.plaintext) sealed
        × (draft.new.message ≡ with_payload draft.old.message sealed) }
    ensures noted { result ≡ note_of room.name side room.number nonce (plaintext_spelling draft.old.plaintext) }
    ensures size { length (spelling draft.new.message) ≡ length (spelling (with_payload draft.old.message
        (replicate (length (plaintext_spelling draft.old.plaintext) + A.TAG (algorithm_of room.name)) 0))) }
{
    let note = room.note(side, nonce, draft.plaintext.bytes());
    seal::<A>(&mut draft.message, key, &note);
    note
}

/// The sealing of a text, which is written as a payload where it is sent from.
#[derive(Drop)]
struct Sealing<'a, A> {
    algorithm: Algorithm,
    key: &'a [u8; 16],
    nonce: &'a [u8; 13],
    aad: &'a [u8],
    text: &'a [u8],
    of: PhantomData<A>,
}

impl<A: Ciphers> PayloadWriter for Sealing<'_, A> {
    ghost can_write = { λ sealing size. (size ≡ length sealing.text.now + A.TAG sealing.algorithm) × (size ≤ longest_message)
        × (length sealing.aad.now ≤ 32) };

    ghost is_written = { λ sealing sealed.
        A.is_sealing sealing.algorithm sealing.key.now sealing.nonce.now sealing.aad.now sealing.text.now sealed };

    fn write(&self, payload: &mut [u8]) {
        A::seal(
            self.algorithm,
            self.key,
            self.nonce,
            self.aad,
            self.text,
            payload,
        )
        .unwrap();
    }
}

/// Seals a text as the payload of a message.
fn seal_payload<A: Ciphers>(
    message: &mut MessageBuilder,
    algorithm: Algorithm,
    key: &[u8; 16],
    nonce: &[u8; 13],
    aad: &[u8],
    text: &[u8],
)
    requires code { 0 < message.old.code }
    requires payload { message.old.payload ≡ None }
    requires fits { length (spelling (with_payload message.old (replicate (length text.now + A.TAG algorithm) 0))) ≤ longest_message }
    requires aad { length aad.now ≤ 32 }
    ensures { (sealed : List ℕ)
        × A.is_sealing algorithm key.now nonce.now aad.now text.now sealed
        × (message.new ≡ with_payload message.old sealed) }
{
    length_of_growing();
    let sealing = Sealing::<A> {
        algorithm,
        key,
        nonce,
        aad,
        text,
        of: PhantomData,
    };
    message
        .write_payload(text.len() + A::tag(algorithm), &sealing)
        .unwrap();
}

/// Seals what is noted as the payload of a message.
pub(crate) fn seal<A: Ciphers>(message: &mut MessageBuilder, key: &[u8; 16], note: &Note)
    requires code { 0 < message.old.code }
    requires payload { message.old.payload ≡ None }
    requires fits { length (spelling (with_payload message.old (replicate (length note.now.plaintext + A.TAG (algorithm_of note.now.context)) 0))) ≤ longest_message }
    requires id { length note.now.context.client_id ≤ longest_id }
    requires aad { note.now.aad ≡ aad_of note.now.context note.now.number }
    ensures sealed { (sealed : List ℕ)
        × A.is_sealing (algorithm_of note.now.context) key.now note.now.nonce note.now.aad note.now.plaintext sealed
        × (message.new ≡ with_payload message.old sealed) }
    ensures size { length (spelling message.new)
        ≡ length (spelling (with_payload message.old (replicate (length note.now.plaintext + A.TAG (algorithm_of note.now.context)) 0))) }
{
    length_of_growing();
    seal_payload::<A>(
        message,
        osc_context::algorithm_of(&note.context),
        key,
        &note.nonce,
        note.aad.as_slice(),
        note.plaintext.as_slice(),
    );
}

/// Writes the sealing of a text after a message that has no payload yet, as its payload; there is room for it.
fn append_sealed<A: Ciphers>(
    out: &mut Vec<u8>,
    algorithm: Algorithm,
    key: &[u8; 16],
    nonce: &[u8; 13],
    aad: &[u8],
    text: &[u8],
)
    requires size { length text.now + A.TAG algorithm ≤ longest_message }
    requires room { vec_len out.old + payload_length (payload_of (replicate (length text.now + A.TAG algorithm) 0)) ≤ vec_capacity out.old }
    requires aad { length aad.now ≤ 32 }
    ensures { (sealed : List ℕ)
        × A.is_sealing algorithm key.now nonce.now aad.now text.now sealed
        × (out.new.items ≡ out.old.items ++ payload_spelling (payload_of sealed)) }
{
    let sealing = Sealing::<A> {
        algorithm,
        key,
        nonce,
        aad,
        text,
        of: PhantomData,
    };
    append_payload(out, text.len() + A::tag(algorithm), &sealing);
}

/// Seals what is noted after a message that has no payload yet, as its payload; there is room for it. Takes no memory.
pub(crate) fn seal_into<A: Ciphers>(out: &mut Vec<u8>, key: &[u8; 16], note: &Note)
    requires size { length note.now.plaintext + A.TAG (algorithm_of note.now.context) ≤ longest_message }
    requires room { vec_len out.old + payload_length (payload_of (replicate (length note.now.plaintext + A.TAG (algorithm_of note.now.context)) 0)) ≤ vec_capacity out.old }
    requires id { length note.now.context.client_id ≤ longest_id }
    requires aad { note.now.aad ≡ aad_of note.now.context note.now.number }
    ensures { (sealed : List ℕ)
        × A.is_sealing (algorithm_of note.now.context) key.now note.now.nonce note.now.aad note.now.plaintext sealed
        × (out.new.items ≡ out.old.items ++ payload_spelling (payload_of sealed)) }
{
    append_sealed::<A>(
        out,
        osc_context::algorithm_of(&note.context),
        key,
        &note.nonce,
        note.aad.as_slice(),
        note.plaintext.as_slice(),
    );
}
