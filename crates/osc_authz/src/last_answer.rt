//! The answer to the last request that was served under a context.

ghost use Rattle.std.specs.Prelude.{◌≡◌, ◌≤◌, ◌↔◌, IsTrue, length};
ghost use Rattle.osc_authz.specs.LastAnswer.{longest_sealed};

use osc_model::{Bytes, Peer};
use std::marker::Model;

/// The last request that was served under a context, as it came sealed, and its reply, as it went out sealed: where the request comes again,
/// the reply goes out again. What a reply carries sealed fits a datagram.
#[derive(Drop)]
pub struct LastAnswer {
    from: Peer,
    number: u64,
    sealed: Bytes,
    reply: Bytes,
}

impl Model for LastAnswer {
    ghost use Rattle.std.specs.Prelude.{◌≤◌, length};
    ghost use Rattle.std.specs.Coded.{codes};
    ghost use Rattle.osc_authz.specs.LastAnswer.{LastAnswerState, longest_sealed};

    ghost Value = { LastAnswerState };

    ghost coded = { Prim.hlevel codes };

    ghost view = { λ last. record { from = last.from; number = last.number; sealed = last.sealed; reply = last.reply } };

    ghost invariant = { λ last. length last.reply ≤ longest_sealed };
}

impl LastAnswer {
    /// The request of this peer and number that carried this sealed, and the reply that carried that.
    pub fn new(from: Peer, number: u64, sealed: Bytes, reply: Bytes) -> LastAnswer
        requires { length reply ≤ longest_sealed }
        ensures { result ≡ record { from = from; number = number; sealed = sealed; reply = reply } }
    {
        LastAnswer {
            from,
            number,
            sealed,
            reply,
        }
    }

    /// Whether the request is that of this peer and number that carried this sealed.
    pub fn is_to(&self, from: Peer, number: u64, sealed: &[u8]) -> bool
        ensures { IsTrue result ↔ ((from ≡ self.now.from) × (number ≡ self.now.number) × (sealed.now ≡ self.now.sealed)) }
    {
        from == self.from && number == self.number && sealed == self.sealed.as_slice()
    }

    /// What the reply carried sealed.
    pub fn reply(&self) -> &[u8]
        ensures reply { result.now ≡ self.now.reply }
        ensures short { length result.now ≤ longest_sealed }
    {
        self.reply.as_slice()
    }
}
