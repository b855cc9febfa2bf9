//! Room for what a step sends and notes, taken before the step's first change: what is put there takes no memory.
ghost use Rattle.std.specs.Prelude.{◌≡◌, ◌≤◌, ◌<◌, ◌-◌, [], ◌∷◌, ◌++◌, length, vec_capacity, vec_len, IfOk};
ghost use Rattle.osc_message.specs.Sending.{AreSendable, FitsDatagram};

use osc_model::{Bytes, Datagram, Datagrams, Peer};
use std::alloc::{AllocError, Global};
use std::marker::Model;

/// Room for the bytes of one message, before they are known; contracts see how many bytes it is for.
#[derive(Drop)]
pub struct MessageRoom {
    bytes: Vec<u8>,
    size: usize,
}

impl Model for MessageRoom {
    ghost use Rattle.std.specs.Prelude.{ℕ, ◌≡◌, ◌≤◌, [], vec_capacity, vec_len};

    ghost Value = { ℕ };

    ghost view = { λ b. b.size };

    ghost invariant = { λ b. (b.bytes.items ≡ []) × (vec_len b.bytes ≡ 0) × (b.size ≤ vec_capacity b.bytes) };
}

impl MessageRoom {
    /// Room for `size` bytes.
    pub fn new(alloc: Global, size: usize) -> Result<MessageRoom, AllocError>
        ensures { IfOk result (λ buffer. buffer ≡ size) }
    {
        Ok(MessageRoom {
            bytes: Vec::with_capacity(alloc, size)?,
            size,
        })
    }

    /// These bytes, in the room; takes no memory.
    pub fn fill(self, bytes: &[u8]) -> Bytes
        requires { length bytes.now ≤ self }
        ensures { result ≡ bytes.now }
    {
        let MessageRoom {
            bytes: mut room,
            ..
        } = self;
        room.extend_from_slice(bytes).unwrap();
        Bytes::from_vec(room)
    }

    /// The room as an empty vector; takes no memory.
    pub fn into_vec(self) -> Vec<u8>
        ensures empty { (result.items ≡ []) × (vec_len result ≡ 0) }
        ensures room { self ≤ vec_capacity result }
    {
        let MessageRoom { bytes, .. } = self;
        bytes
    }
}

/// What a step sends, in places that were taken before.
#[derive(Drop)]
pub struct Outbox {
    sent: Vec<Datagram>,
    places: usize,
}

impl Model for Outbox {
    ghost use Rattle.std.specs.Prelude.{◌+◌, ◌≤◌, vec_len, vec_capacity};
    ghost use Rattle.osc_message.specs.Outbox.{OutboxState};

    ghost Value = { OutboxState };

    ghost view = { λ o. record { sent = o.sent.items; places = o.places } };

    ghost invariant = { λ o. vec_len o.sent + o.places ≤ vec_capacity o.sent };
}

impl Outbox {
    /// Room for `places` datagrams.
    pub fn new(alloc: Global, places: usize) -> Result<Outbox, AllocError>
        ensures { IfOk result (λ outbox. outbox ≡ record { sent = []; places = places }) }
    {
        Ok(Outbox {
            sent: Vec::with_capacity(alloc, places)?,
            places,
        })
    }

    /// Sends a datagram after the others, in one of the places; takes no memory.
    pub fn send(&mut self, to: Peer, bytes: Bytes)
        requires { 0 < self.old.places }
        ensures { self.new ≡ record { sent = self.old.sent ++ (record { to = to; bytes = bytes }) ∷ []; places = self.old.places - 1 } }
    {
        self.sent.push_reserved(Datagram { to, bytes });
        self.places -= 1;
    }

    /// What is sent; takes no memory.
    pub fn into_datagrams(self) -> Datagrams
        ensures { result ≡ self.sent }
    {
        let Outbox { sent, .. } = self;
        Datagrams::from_vec(sent)
    }
}

/// Room for a reply: its bytes twice, to be sent and to be noted for a repeat. Contracts see how many bytes it is for.
#[derive(Drop)]
pub struct ReplyRoom {
    sent: MessageRoom,
    noted: CopyRoom,
}

impl Model for ReplyRoom {
    ghost use Rattle.std.specs.Prelude.{ℕ, ◌≡◌};

    ghost Value = { ℕ };

    ghost view = { λ r. r.sent };

    ghost invariant = { λ r. r.noted ≡ r.sent };
}

impl ReplyRoom {
    /// Room for a reply of `size` bytes.
    pub fn new(alloc: Global, size: usize) -> Result<ReplyRoom, AllocError>
        ensures { IfOk result (λ room. room ≡ size) }
    {
        Ok(ReplyRoom {
            sent: MessageRoom::new(alloc, size)?,
            noted: CopyRoom::new(alloc, size)?,
        })
    }

    /// The reply's datagram, and its bytes to be noted; takes no memory.
    pub fn fill(self, to: Peer, bytes: &[u8]) -> (Datagrams, Bytes)
        requires { length bytes.now ≤ self }
        ensures sent { result.0 ≡ (record { to = to; bytes = bytes.now }) ∷ [] }
        ensures noted { result.1 ≡ bytes.now }
        ensures fits { FitsDatagram bytes.now → AreSendable result.0 }
    {
        let (sent, noted) = self.open();
        noted.fill(to, sent.fill(bytes))
    }

    /// Room for the bytes that are sent, and room for their copy; takes no memory.
    pub fn open(self) -> (MessageRoom, CopyRoom)
        ensures { (result.0 ≡ self) × (result.1 ≡ self) }
    {
        let ReplyRoom { sent, noted } = self;
        (sent, noted)
    }
}

/// Room for a reply's copy, which is noted for a repeat. Contracts see how many bytes it is for.
#[derive(Drop)]
pub struct CopyRoom {
    copy: MessageRoom,
    alloc: Global,
}

impl Model for CopyRoom {
    ghost use Rattle.std.specs.Prelude.{ℕ};

    ghost Value = { ℕ };

    ghost view = { λ r. r.copy };
}

impl CopyRoom {
    /// Room for a copy of `size` bytes.
    fn new(alloc: Global, size: usize) -> Result<CopyRoom, AllocError>
        ensures { IfOk result (λ room. room ≡ size) }
    {
        Ok(CopyRoom {
            copy: MessageRoom::new(alloc, size)?,
            alloc,
        })
    }

    /// The datagram of these bytes, which are not copied, and their copy to be noted; takes no memory.
    #[tactic(auto, using(crate::proofs::Notes::one_fits))]
    pub fn fill(self, to: Peer, bytes: Bytes) -> (Datagrams, Bytes)
        requires { length bytes ≤ self }
        ensures sent { result.0 ≡ (record { to = to; bytes = bytes }) ∷ [] }
        ensures noted { result.1 ≡ bytes }
        ensures fits { FitsDatagram bytes → AreSendable result.0 }
    {
        let CopyRoom { copy, alloc } = self;
        let noted = copy.fill(bytes.as_slice());
        (Datagrams::one(alloc, Datagram { to, bytes }), noted)
    }
}
