//! The recipient context, its replay window, and accepted numbers (RFC 8613 sections 3.1 and 7.4).

ghost use Rattle.std.specs.Prelude.{◌≡◌, ◌≤◌, ◌↔◌, [], length, IsTrue};
ghost use Rattle.osc_window.specs.{IsFresh, with_accepted};
ghost use Rattle.osc_context.specs.Nonce.{longest_id, greatest_number};
ghost use Rattle.osc_context.specs.Derivation.{next_accepted};

use crate::nonce::{ID_LIMIT, id_copy};
use arrayvec::ArrayVec;
use osc_window::Window;
use std::fmt;
use std::marker::Model;

/// A number of the other end that the replay window accepted, with what the nonce of that end's request is made of beside it:
/// that end's ID and the common IV. It is the right to one reply under that nonce (RFC 8613 section 8.3): it can't be copied
/// or dropped, a reply spends it, and nothing but the acceptance makes one, which a window gives once for each number.
pub struct AcceptedNumber {
    id: ArrayVec<u8, ID_LIMIT>,
    common_iv: [u8; 13],
    number: u64,
}

// The common IV isn't printed.
impl fmt::Debug for AcceptedNumber {
    fn fmt<W: fmt::Write>(&self, f: &mut fmt::Formatter<W>) -> fmt::Result {
        f.write_str("AcceptedNumber")
    }
}

impl Model for AcceptedNumber {
    ghost use Rattle.std.specs.Prelude.{◌≤◌};
    ghost use Rattle.osc_context.specs.Derivation.{Accepted};
    ghost use Rattle.osc_context.specs.Nonce.{greatest_number};

    ghost Value = { Accepted };

    ghost view = { λ accepted. record { id = accepted.id.items; common_iv = accepted.common_iv; number = accepted.number } };

    ghost invariant = { λ accepted. accepted.number ≤ greatest_number };
}

impl AcceptedNumber {
    /// The number, which is not spent by this.
    pub fn get(&self) -> u64
        ensures value { result ≡ self.now.number }
        ensures lawful { result ≤ greatest_number }
    {
        self.number
    }

    /// The sender ID of the end that took it, at most 7 bytes.
    pub fn id(&self) -> &[u8]
        ensures value { result.now ≡ self.now.id }
        ensures short { length result.now ≤ longest_id }
    {
        self.id.as_slice()
    }

    /// The common IV.
    pub fn common_iv(&self) -> &[u8; 13]
        ensures { result.now ≡ self.now.common_iv }
    {
        &self.common_iv
    }

    /// Spends the number, whether a reply was sealed under its nonce or none will be.
    pub fn spend(self) -> u64
        ensures value { result ≡ self.number }
        ensures lawful { result ≤ greatest_number }
    {
        let AcceptedNumber {
            id: _id,
            common_iv: _,
            number,
        } = self;
        number
    }
}

/// What an end opens with: the other end's ID and key, the common IV, and which of the other end's numbers are fresh.
///
/// A context of the same name that is derived again accepts the same numbers again: derive each context once.
pub struct RecipientContext {
    id: ArrayVec<u8, ID_LIMIT>,
    key: [u8; 16],
    common_iv: [u8; 13],
    window: Window,
}

impl Drop for RecipientContext {
    fn drop(self) {
        let RecipientContext {
            id: _,
            key: _,
            common_iv: _,
            window: _,
        } = self;
    }
}

// The key isn't printed.
impl fmt::Debug for RecipientContext {
    fn fmt<W: fmt::Write>(&self, f: &mut fmt::Formatter<W>) -> fmt::Result {
        f.write_str("RecipientContext")
    }
}

impl Model for RecipientContext {
    ghost use Rattle.osc_context.specs.Derivation.{Recipient};

    ghost Value = { Recipient };

    ghost view = { λ context. record { id = context.id.items; key = context.key; common_iv = context.common_iv; window = context.window } };
}

impl RecipientContext {
    pub(crate) fn new(
        id: ArrayVec<u8, ID_LIMIT>,
        key: [u8; 16],
        common_iv: [u8; 13],
    ) -> RecipientContext
        ensures { result ≡ record { id = id.items; key = key; common_iv = common_iv; window = [] } }
    {
        RecipientContext {
            id,
            key,
            common_iv,
            window: Window::new(),
        }
    }

    /// The recipient ID, at most 7 bytes: the other end's sender ID.
    pub fn id(&self) -> &[u8]
        ensures value { result.now ≡ self.now.id }
        ensures short { length result.now ≤ longest_id }
    {
        self.id.as_slice()
    }

    /// The recipient key.
    pub fn key(&self) -> &[u8; 16]
        ensures { result.now ≡ self.now.key }
    {
        &self.key
    }

    /// The common IV.
    pub fn common_iv(&self) -> &[u8; 13]
        ensures { result.now ≡ self.now.common_iv }
    {
        &self.common_iv
    }

    /// Whether a number may be accepted: it never was, and isn't too far below the greatest that was.
    pub fn is_fresh(&self, number: u64) -> bool
        ensures { IsTrue result ↔ IsFresh self.now.window number }
    {
        self.window.is_fresh(number)
    }

    /// Accepts a fresh number of the other end, so that each is accepted once: the right to one reply comes from it.
    pub fn accept(&mut self, number: u64) -> AcceptedNumber
        requires fresh { IsFresh self.old.window number }
        requires number { number ≤ greatest_number }
        ensures accepted { result ≡ next_accepted self.old number }
        ensures window { self.new ≡ record self.old { window = with_accepted self.old.window number } }
    {
        self.window.accept(number);
        AcceptedNumber {
            id: id_copy(self.id.as_slice()),
            common_iv: self.common_iv,
            number,
        }
    }
}
