//! The sender context, and sender sequence numbers (RFC 8613 sections 3.1 and 7.2.1).

ghost use Rattle.std.specs.Prelude.{◌≡◌, ◌<◌, ◌≤◌, ◌+◌, ◌↔◌, max, length, IsErr, IfOk, OnErr};
ghost use Rattle.osc_context.specs.Nonce.{longest_id, greatest_number};
ghost use Rattle.osc_context.specs.Derivation.{next_taken};

use crate::error::Exhausted;
use crate::nonce::{ID_LIMIT, NUMBER_LIMIT, id_copy};
use arrayvec::ArrayVec;
use std::fmt;
use std::marker::Model;

/// A sender sequence number that was taken for one message, with what seals under it: the ID, the key and the common IV of
/// the end that took it. It can't be copied or dropped: it is spent by one seal.
pub struct SendNumber {
    id: ArrayVec<u8, ID_LIMIT>,
    key: [u8; 16],
    common_iv: [u8; 13],
    number: u64,
}

// The key isn't printed.
impl fmt::Debug for SendNumber {
    fn fmt<W: fmt::Write>(&self, f: &mut fmt::Formatter<W>) -> fmt::Result {
        f.write_str("SendNumber")
    }
}

impl Model for SendNumber {
    ghost use Rattle.std.specs.Prelude.{◌≤◌};
    ghost use Rattle.osc_context.specs.Derivation.{Taken};
    ghost use Rattle.osc_context.specs.Nonce.{greatest_number};

    ghost Value = { Taken };

    ghost view = { λ taken. record { id = taken.id.items; key = taken.key; common_iv = taken.common_iv; number = taken.number } };

    ghost invariant = { λ taken. taken.number ≤ greatest_number };
}

impl SendNumber {
    /// The number, which is not spent by this.
    pub fn get(&self) -> u64
        ensures value { result ≡ self.now.number }
        ensures lawful { result ≤ greatest_number }
    {
        self.number
    }

    /// The sender ID of the end that took it, at most 7 bytes.
    pub fn id(&self) -> &[u8]
        ensures value { result.now ≡ self.now.id }
        ensures short { length result.now ≤ longest_id }
    {
        self.id.as_slice()
    }

    /// The key of the end that took it.
    pub fn key(&self) -> &[u8; 16]
        ensures { result.now ≡ self.now.key }
    {
        &self.key
    }

    /// The common IV.
    pub fn common_iv(&self) -> &[u8; 13]
        ensures { result.now ≡ self.now.common_iv }
    {
        &self.common_iv
    }

    /// Spends the number.
    pub fn spend(self) -> u64
        ensures value { result ≡ self.number }
        ensures lawful { result ≤ greatest_number }
    {
        let SendNumber {
            id: _id,
            key: _,
            common_iv: _,
            number,
        } = self;
        number
    }
}

/// What an end seals with: its ID, its key, the common IV, and the sender sequence number that it takes next.
///
/// A context of the same name that is derived again takes the same numbers again: derive each context once.
pub struct SenderContext {
    id: ArrayVec<u8, ID_LIMIT>,
    key: [u8; 16],
    common_iv: [u8; 13],
    next: u64,
}

impl Drop for SenderContext {
    fn drop(self) {
        let SenderContext {
            id: _,
            key: _,
            common_iv: _,
            next: _,
        } = self;
    }
}

// The key isn't printed.
impl fmt::Debug for SenderContext {
    fn fmt<W: fmt::Write>(&self, f: &mut fmt::Formatter<W>) -> fmt::Result {
        f.write_str("SenderContext")
    }
}

impl Model for SenderContext {
    ghost use Rattle.osc_context.specs.Derivation.{Sender};

    ghost Value = { Sender };

    ghost view = { λ context. record { id = context.id.items; key = context.key; common_iv = context.common_iv; next = context.next } };
}

impl SenderContext {
    pub(crate) fn new(
        id: ArrayVec<u8, ID_LIMIT>,
        key: [u8; 16],
        common_iv: [u8; 13],
    ) -> SenderContext
        ensures { result ≡ record { id = id.items; key = key; common_iv = common_iv; next = 0 } }
    {
        SenderContext {
            id,
            key,
            common_iv,
            next: 0,
        }
    }

    /// The sender ID, at most 7 bytes.
    pub fn id(&self) -> &[u8]
        ensures value { result.now ≡ self.now.id }
        ensures short { length result.now ≤ longest_id }
    {
        self.id.as_slice()
    }

    /// The sender key.
    pub fn key(&self) -> &[u8; 16]
        ensures { result.now ≡ self.now.key }
    {
        &self.key
    }

    /// The common IV.
    pub fn common_iv(&self) -> &[u8; 13]
        ensures { result.now ≡ self.now.common_iv }
    {
        &self.common_iv
    }

    /// The number that is taken next.
    pub fn next_number(&self) -> u64
        ensures { result ≡ self.now.next }
    {
        self.next
    }

    /// Takes the next number, so that each is given once, rising.
    ///
    /// # Errors
    ///
    /// `Exhausted` exactly where the greatest number, 2^40 - 1, has been taken or skipped; nothing is changed then.
    pub fn take_number(&mut self) -> Result<SendNumber, Exhausted>
        ensures refused { IsErr result ↔ (greatest_number < self.old.next) }
        ensures number { IfOk result (λ taken. taken ≡ next_taken self.old) }
        ensures next { IfOk result (λ number. self.new ≡ record self.old { next = self.old.next + 1 }) }
        ensures err { OnErr result (self.new ≡ self.old) }
    {
        if self.next > NUMBER_LIMIT {
            return Err(Exhausted);
        }
        let number = self.next;
        self.next += 1;
        Ok(SendNumber {
            id: id_copy(self.id.as_slice()),
            key: self.key,
            common_iv: self.common_iv,
            number,
        })
    }

    /// Raises the number that is taken next to this one; a lower one changes nothing.
    pub fn skip_to(&mut self, next: u64)
        ensures { self.new ≡ record self.old { next = max self.old.next next } }
    {
        self.next = self.next.max(next);
    }
}
