//! What goes in and comes out, as include/nozzlefern.h has it.
ghost use Rattle.std.specs.Prelude.{◌≡◌, IfErr, OnOk};
ghost use Rattle.osc_c.specs.Filled.{IsRefusedSize, IsResultSize, IsServedSize, IsValueSize};
ghost use Rattle.osc_c.specs.Given.{change_size};
ghost use Rattle.osc_c.specs.Plain.{draw_of, peer_of, plain_etag, plain_id, plain_peer};
ghost use Rattle.osc_c.specs.declared.calls.outcome.Outcome.TheVariants.{BadArgument};

use crate::calls::arguments::{sized, sized_either};
use crate::calls::filling::fill;
use crate::calls::outcome::Outcome;
use osc_model::{Draw, Peer};

/// How many bytes of [`PlainValue`] come before its ETag.
const VALUE_WITHOUT_ETAG: usize = 24;

/// How many bytes of [`PlainServed`] come before its token.
const SERVED_WITHOUT_TOKEN: usize = 48;

/// How many bytes of [`PlainRefused`] come before its token, with those that fill up to the alignment.
const REFUSED_WITHOUT_TOKEN: usize = 40;

/// How many bytes of [`PlainResult`] come before its ETag.
const RESULT_WITHOUT_ETAG: usize = 24;

/// An address and a port.
#[repr(C)]
#[derive(Clone, Copy)]
pub struct PlainPeer {
    /// The port.
    pub port: u16,
    /// The number of the zone of an address that counts on one link alone; else 0.
    pub scope: u32,
    /// The address, in network order; one of IPv4 is ::ffff:a.b.c.d.
    pub bytes: [u8; 16],
}

/// A key of 16 bytes.
#[repr(C)]
#[derive(Clone, Copy)]
pub struct PlainKey {
    /// The bytes.
    pub bytes: [u8; 16],
}

/// An IV of 13 bytes.
#[repr(C)]
#[derive(Clone, Copy)]
pub struct PlainIv {
    /// The bytes.
    pub bytes: [u8; 13],
}

/// 32 random bytes.
#[repr(C)]
#[derive(Clone, Copy)]
pub struct PlainDraw {
    /// The bytes.
    pub bytes: [u8; 32],
}

/// Two draws: the device's own, and its server's.
#[repr(C)]
#[derive(Clone, Copy)]
pub struct PlainDraws {
    /// The device's own.
    pub own: PlainDraw,
    /// Its server's.
    pub server: PlainDraw,
}

/// The id of a token.
#[repr(C)]
#[derive(Clone, Copy)]
pub struct PlainId {
    /// How many of the bytes it has: 0 to 64.
    pub length: u8,
    /// The bytes; those that it doesn't have are 0.
    pub bytes: [u8; 64],
}

/// An ETag, or none.
#[repr(C)]
#[derive(Clone, Copy)]
pub struct PlainEtag {
    /// 8, or 0 for none.
    pub length: u8,
    /// The bytes; 0 where there is none.
    pub bytes: [u8; 8],
}

/// Bytes, and how many they are.
#[repr(C)]
pub struct PlainBytes<'a> {
    /// The bytes.
    pub bytes: &'a [u8],
}

/// What a device is made of.
#[repr(C)]
pub struct PlainDeviceSettings<'a> {
    /// The bytes of this struct.
    pub size: usize,
    /// The key of its server's tokens.
    pub key: PlainKey,
    /// The former key, at a change of key.
    pub old_key: PlainKey,
    /// 1: the former key is there; 0: it isn't.
    pub has_old_key: u8,
    /// How many seconds after the post that made it a context counts no more; 0 for no limit.
    pub context_seconds: u32,
    /// The name for which its server's tokens are, in UTF-8.
    pub audience: PlainBytes<'a>,
    /// The text of what needs no protection; empty for nothing.
    pub unprotected: PlainBytes<'a>,
    /// The text of what the device itself may do.
    pub own: PlainBytes<'a>,
    /// The text of the path below which a resource revokes a token; empty for none.
    pub revoked: PlainBytes<'a>,
    /// 1: a token whose scope reaches below its paths is refused; 0: it isn't.
    pub no_subtrees: u8,
}

/// What a client was granted, and the way to its server.
#[repr(C)]
pub struct PlainClientSettings<'a> {
    /// The bytes of this struct.
    pub size: usize,
    /// To whom it sends.
    pub next_hop: PlainPeer,
    /// The server's port, where that is a proxy.
    pub port: u16,
    /// 1: the id context is there; 0: it isn't.
    pub has_context: u8,
    /// The number of the algorithm: 10 or 30.
    pub algorithm: u8,
    /// The server's host, where that is a proxy; else empty.
    pub host: PlainBytes<'a>,
    /// The token.
    pub token: PlainBytes<'a>,
    /// The master secret: 1 to 64 bytes.
    pub secret: PlainBytes<'a>,
    /// The master salt: 0 to 64 bytes.
    pub salt: PlainBytes<'a>,
    /// The id context: 0 to 64 bytes.
    pub context: PlainBytes<'a>,
}

/// What a client asks.
#[repr(C)]
pub struct PlainRequest<'a> {
    /// The bytes of this struct.
    pub size: usize,
    /// 1 GET, 2 POST, 3 PUT, 4 DELETE.
    pub method: u8,
    /// The text of the path.
    pub path: PlainBytes<'a>,
    /// The payload.
    pub payload: PlainBytes<'a>,
    /// The options beside the path.
    pub options: PlainOptions,
}

/// A value for a path.
#[repr(C)]
pub struct PlainResource<'a> {
    /// The bytes of this struct.
    pub size: usize,
    /// The Content-Format, 0 to 65535, or -1 for none.
    pub format: i32,
    /// The text of the path.
    pub path: PlainBytes<'a>,
    /// The payload.
    pub payload: PlainBytes<'a>,
}

/// What a token is to claim, and under what it is sealed.
#[repr(C)]
pub struct PlainClaims<'a> {
    /// The bytes of this struct.
    pub size: usize,
    /// The key.
    pub key: PlainKey,
    /// The IV.
    pub iv: PlainIv,
    /// 1: the id context is there; 0: it isn't.
    pub has_context: u8,
    /// The number of the algorithm: 10 or 30.
    pub algorithm: u8,
    /// The first second at which it counts; 0 for none.
    pub not_before: u64,
    /// The second from which on it doesn't; 0 for none.
    pub expires: u64,
    /// For whom it is, in UTF-8.
    pub audience: PlainBytes<'a>,
    /// By what it is named: 0 to 64 bytes.
    pub id: PlainBytes<'a>,
    /// The master secret: 1 to 64 bytes.
    pub secret: PlainBytes<'a>,
    /// The id context: 0 to 64 bytes.
    pub context: PlainBytes<'a>,
    /// The text of its scope.
    pub scope: PlainBytes<'a>,
}

/// What is at a path.
#[repr(C)]
#[derive(Clone, Copy)]
pub struct PlainValue {
    /// The bytes of this struct, or of it without its ETag.
    pub size: usize,
    /// The Content-Format, or -1 for none.
    pub format: i32,
    /// The bytes of the payload.
    pub length: usize,
    /// The ETag that answers a GET.
    pub etag: PlainEtag,
}

/// A protected request that was served.
#[repr(C)]
#[derive(Clone, Copy)]
pub struct PlainServed {
    /// The bytes of this struct, or of it without token and ETag.
    pub size: usize,
    /// 1 GET, 2 POST, 3 PUT, 4 DELETE; 0 where what opened is no such request.
    pub method: u8,
    /// What it was answered.
    pub code: u8,
    /// The client's sender ID, which the server gave it.
    pub kid: u8,
    /// 1 where its context has an id context, else 0.
    pub has_context: u8,
    /// The request's Partial IV.
    pub number: u64,
    /// The bytes of its path; 0 where it has none.
    pub path_length: usize,
    /// The bytes of its payload.
    pub payload_length: usize,
    /// The bytes of the id context of its token.
    pub context_length: usize,
    /// The id of the token that made its context.
    pub token: PlainId,
    /// The ETag of the answer.
    pub etag: PlainEtag,
}

/// A request that was refused.
#[repr(C)]
#[derive(Clone, Copy)]
pub struct PlainRefused {
    /// The bytes of this struct, or of it without its token.
    pub size: usize,
    /// Who asked.
    pub from: PlainPeer,
    /// What it was answered.
    pub code: u8,
    /// The number of the reason, or 0 where the code tells it.
    pub reason: u8,
    /// 1: it is the post of a token that opened, and says an id; 0: it isn't.
    pub has_token: u8,
    /// That id.
    pub token: PlainId,
}

/// What a step of a device changed.
#[repr(C)]
#[derive(Clone, Copy)]
pub struct PlainChange {
    /// The bytes of this struct.
    pub size: usize,
    /// 1 where something is at the path now, else 0.
    pub is_there: u8,
    /// 1 where that waits to be kept, else 0.
    pub waits: u8,
    /// The Content-Format, or -1 for none.
    pub format: i32,
    /// The bytes of the path.
    pub path_length: usize,
    /// The bytes of the payload.
    pub payload_length: usize,
}

/// The options of a request, beside its path.
#[repr(C)]
#[derive(Clone, Copy)]
pub struct PlainOptions {
    /// Content-Format, 0 to 65535, or -1 for none.
    pub format: i32,
    /// Accept, or -1 for none.
    pub accept: i32,
    /// 1: If-None-Match is there; 0: it isn't.
    pub if_none_match: u8,
    /// 1: If-Match is there once, with the bytes below; 0: it isn't.
    pub if_match: u8,
    /// 0 to 8.
    pub if_match_length: u8,
    /// The bytes of If-Match, as many as it has.
    pub if_match_bytes: [u8; 8],
}

/// How something that a client began went on.
#[repr(C)]
#[derive(Clone, Copy)]
pub struct PlainResult {
    /// The bytes of this struct, or of it without its ETag.
    pub size: usize,
    /// 1 a context was made, 2 an answer, 3 it ended unprotected, 4 it timed out, 5 it was refused.
    pub what: u8,
    /// The code, or the reason's number.
    pub code: u8,
    /// Of an answer: its Content-Format, or -1.
    pub format: i32,
    /// Of an answer: the bytes of its payload.
    pub length: usize,
    /// Of an answer: its ETag.
    pub etag: PlainEtag,
}

impl PlainPeer {
    /// The peer.
    pub fn peer(&self) -> Peer
        ensures peer { result ≡ peer_of self.now }
        // Nothing of it is lost.
        ensures back { plain_peer result ≡ self.now }
    {
        Peer {
            address: self.bytes,
            scope: self.scope,
            port: self.port,
        }
    }

    /// This peer.
    pub fn of(peer: Peer) -> PlainPeer
        ensures plain { result ≡ plain_peer peer }
        // Nothing of it is lost.
        ensures back { peer_of result ≡ peer }
    {
        let bytes = peer.address;
        PlainPeer {
            port: peer.port,
            scope: peer.scope,
            bytes,
        }
    }
}

impl PlainId {
    /// This id. Of one of more than 64 bytes, which no token has, nothing is told.
    pub fn of(id: &[u8]) -> PlainId
        ensures { result ≡ plain_id id.now }
    {
        let mut bytes = [0; 64];
        let length = if fill(&mut bytes, id) {
            id.len() as u8
        } else {
            0
        };
        PlainId { length, bytes }
    }
}

impl PlainEtag {
    /// This ETag, or none.
    pub fn of(etag: Option<[u8; 8]>) -> PlainEtag
        ensures { result ≡ plain_etag etag }
    {
        match etag {
            Some(bytes) => PlainEtag { length: 8, bytes },
            None => PlainEtag {
                length: 0,
                bytes: [0; 8],
            },
        }
    }
}

impl PlainValue {
    /// Refuses a size that is neither the whole one nor that without the ETag.
    pub fn sized(&self) -> Result<(), Outcome>
        ensures ok { OnOk result (IsValueSize self.now.size) }
        ensures err { IfErr result (λ outcome. (outcome ≡ BadArgument) × ¬ IsValueSize self.now.size) }
    {
        sized_either(self.size, size_of::<PlainValue>(), VALUE_WITHOUT_ETAG)
    }
}

impl PlainServed {
    /// Refuses a size that is neither the whole one nor that without token and ETag.
    pub fn sized(&self) -> Result<(), Outcome>
        ensures ok { OnOk result (IsServedSize self.now.size) }
        ensures err { IfErr result (λ outcome. (outcome ≡ BadArgument) × ¬ IsServedSize self.now.size) }
    {
        sized_either(self.size, size_of::<PlainServed>(), SERVED_WITHOUT_TOKEN)
    }
}

impl PlainRefused {
    /// Refuses a size that is neither the whole one nor that without the token.
    pub fn sized(&self) -> Result<(), Outcome>
        ensures ok { OnOk result (IsRefusedSize self.now.size) }
        ensures err { IfErr result (λ outcome. (outcome ≡ BadArgument) × ¬ IsRefusedSize self.now.size) }
    {
        sized_either(self.size, size_of::<PlainRefused>(), REFUSED_WITHOUT_TOKEN)
    }
}

impl PlainChange {
    /// Refuses a size that isn't the whole one.
    pub fn sized(&self) -> Result<(), Outcome>
        ensures ok { OnOk result (self.now.size ≡ change_size) }
        ensures err { IfErr result (λ outcome. (outcome ≡ BadArgument) × ¬ (self.now.size ≡ change_size)) }
    {
        sized(self.size, size_of::<PlainChange>())
    }
}

impl PlainResult {
    /// Refuses a size that is neither the whole one nor that without the ETag.
    pub fn sized(&self) -> Result<(), Outcome>
        ensures ok { OnOk result (IsResultSize self.now.size) }
        ensures err { IfErr result (λ outcome. (outcome ≡ BadArgument) × ¬ IsResultSize self.now.size) }
    {
        sized_either(self.size, size_of::<PlainResult>(), RESULT_WITHOUT_ETAG)
    }
}

impl PlainDraw {
    /// The draw.
    pub fn draw(&self) -> Draw
        ensures { result ≡ draw_of self.now }
    {
        Draw(self.bytes)
    }
}
