//! The memory of one seal, taken beforehand.

ghost use Rattle.std.specs.Prelude.{◌≡◌, ◌≤◌, length, IfOk};
ghost use Rattle.osc_context.specs.{algorithm_of, longest_id, greatest_number};
ghost use Rattle.osc_options.specs.{reply_text};
ghost use Rattle.osc_protect.specs.Aad.{aad_of};
ghost use Rattle.osc_protect.specs.Protection.{note_of};

use crate::aad::associated_data;
use osc_model::{Algorithm, AssociatedData, Bytes, ContextName, Note, Reply, SharedName, Side};
use osc_options::write_reply;
use std::alloc::{AllocError, Global};
use std::fmt;
use std::marker::Model;

/// Room for one seal under the context of this name about the request of this number: for the request itself, or for a response to
/// it, whose associated data is the request's (RFC 8613 section 5.4). It is the memory of the seal's note, so that nothing fails once a
/// node has begun to change, and is used up by the seal; the associated data is in it from the start.
/// Contracts see the name and the number, and the most bytes of its text.
pub struct Room {
    name: SharedName,
    number: u64,
    most: usize,
    /// That of the request.
    aad: AssociatedData,
    /// Empty, with room for the text.
    text: Vec<u8>,
}

impl Drop for Room {
    fn drop(self) {
        let Room {
            name: _,
            number: _,
            most: _,
            aad: _,
            text: _,
        } = self;
    }
}

// The secret isn't printed.
impl fmt::Debug for Room {
    fn fmt<W: fmt::Write>(&self, f: &mut fmt::Formatter<W>) -> fmt::Result {
        f.write_str("Room")
    }
}

impl Model for Room {
    ghost use Rattle.std.specs.Prelude.{◌≡◌, ◌≤◌, []};
    ghost use Rattle.std.specs.Vec.{vec_len, vec_capacity};
    ghost use Rattle.osc_protect.specs.Aad.{aad_of};
    ghost use Rattle.osc_protect.specs.Protection.{RoomOf};

    ghost Value = { RoomOf };

    ghost view = { λ room. record { name = room.name; number = room.number; most = room.most } };

    ghost invariant = { λ room. (room.aad ≡ aad_of room.name room.number)
        × (room.text.items ≡ []) × (vec_len room.text ≡ 0) × (room.most ≤ vec_capacity room.text) };
}

impl Room {
    /// Room for one seal about the request of this number under the context of this name, and for a text of at most `most`
    /// bytes; no text of a message is longer than 1152. The name gets one more owner.
    pub fn new(
        alloc: Global,
        name: &SharedName,
        number: u64,
        most: usize,
    ) -> Result<Room, AllocError>
        requires id { length name.now.client_id ≤ longest_id }
        requires number { number ≤ greatest_number }
        ensures { IfOk result (λ room. room ≡ record { name = name.now; number = number; most = most }) }
    {
        let aad = associated_data(name, number);
        Ok(Room {
            name: name.clone()?,
            number,
            most,
            aad,
            text: Vec::with_capacity(alloc, most)?,
        })
    }

    /// Room for the response to a request that was opened, of which this is the note: name, number and associated data are taken
    /// over from it.
    pub fn answering(alloc: Global, request: &Note, most: usize) -> Result<Room, AllocError>
        requires { request.now.aad ≡ aad_of request.now.context request.now.number }
        ensures { IfOk result (λ room. room
            ≡ record { name = request.now.context; number = request.now.number; most = most }) }
    {
        Ok(Room {
            name: request.context.clone()?,
            number: request.number,
            most,
            aad: request.aad.clone()?,
            text: Vec::with_capacity(alloc, most)?,
        })
    }

    /// The name of the context.
    pub fn name(&self) -> &ContextName
        ensures { result.now ≡ self.now.name }
    {
        &self.name
    }

    /// The algorithm of the context.
    pub(crate) fn algorithm(&self) -> Algorithm
        ensures { result ≡ algorithm_of self.now.name }
    {
        osc_context::algorithm_of(&self.name)
    }

    /// The number of the request.
    pub fn number(&self) -> u64
        ensures { result ≡ self.now.number }
    {
        self.number
    }

    /// The note of a seal of this text, which uses up the room.
    pub(crate) fn note(self, side: Side, nonce: [u8; 13], text: &[u8]) -> Note
        requires { length text.now ≤ self.most }
        ensures { result ≡ note_of self.name side self.number nonce text.now }
    {
        let Room {
            name,
            number,
            most: _,
            aad,
            text: mut plaintext,
        } = self;
        plaintext.extend_from_slice(text).unwrap();
        Note {
            context: name,
            side,
            number,
            nonce,
            aad,
            plaintext: Bytes::from_vec(plaintext),
        }
    }

    /// The note of a seal of a reply's plaintext, which is written where the note keeps it; uses up the room.
    pub(crate) fn note_of_reply(self, side: Side, nonce: [u8; 13], reply: &Reply) -> Note
        requires { length (reply_text reply.now) ≤ self.most }
        ensures { result ≡ note_of self.name side self.number nonce (reply_text reply.now) }
    {
        let Room {
            name,
            number,
            most: _,
            aad,
            text: mut plaintext,
        } = self;
        write_reply(&mut plaintext, reply);
        Note {
            context: name,
            side,
            number,
            nonce,
            aad,
            plaintext: Bytes::from_vec(plaintext),
        }
    }
}
