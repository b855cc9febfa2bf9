//! The numbers of the refusals, one table for all crates: programs print them, and calls answer them.

/// A text, or its associated data, is longer than the cipher takes.
pub const TOO_LONG: u8 = 1;

/// What is written doesn't fit into the buffer.
pub const OUT_TOO_SMALL: u8 = 2;

/// What is sealed is the sealing of no text.
pub const NOT_GENUINE: u8 = 3;

/// More output is asked of HKDF than it gives.
pub const OUTPUT_TOO_LONG: u8 = 4;

/// An item of CBOR ends too early.
pub const TRUNCATED: u8 = 5;

/// An item of CBOR is of a kind that isn't read.
pub const UNSUPPORTED: u8 = 6;

/// A map has a key twice.
pub const DUPLICATE_KEY: u8 = 7;

/// Items of CBOR lie too deep in one another.
pub const TOO_DEEP: u8 = 8;

/// There is no memory.
pub const MEMORY: u8 = 9;

/// An item isn't of the form of a COSE object.
pub const SHAPE: u8 = 10;

/// The algorithm is another.
pub const ALGORITHM: u8 = 11;

/// A message's version isn't 1.
pub const VERSION: u8 = 12;

/// Bytes are no message.
pub const FORMAT: u8 = 13;

/// A message would be longer than a datagram may be.
pub const DATAGRAM_TOO_LONG: u8 = 14;

/// A critical option isn't recognised.
pub const BAD_OPTION: u8 = 15;

/// Too many confirmable messages are open.
pub const QUEUE_FULL: u8 = 16;

/// Something is awaited already.
pub const BUSY: u8 = 17;

/// All sender sequence numbers are taken.
pub const EXHAUSTED: u8 = 18;

/// An ID has more than 7 bytes.
pub const ID_TOO_LONG: u8 = 19;

/// Both ends have the same ID.
pub const EQUAL_IDS: u8 = 20;

/// An OSCORE option or a protected payload is malformed.
pub const MALFORMED: u8 = 21;

/// No live context is the one that is named.
pub const NO_CONTEXT: u8 = 22;

/// A number isn't fresh.
pub const REPLAY: u8 = 23;

/// What should be a scope isn't one.
pub const BAD_SCOPE: u8 = 24;

/// A token opens under no key of the server.
pub const TOKEN_NOT_GENUINE: u8 = 25;

/// A token has ended.
pub const EXPIRED: u8 = 26;

/// A token doesn't hold yet.
pub const NOT_YET: u8 = 27;

/// A token is for another server.
pub const AUDIENCE: u8 = 28;

/// A token's claims can't be read.
pub const BAD_CLAIMS: u8 = 29;

/// A field of an exchange is missing, or of another type or length.
pub const FIELDS: u8 = 30;

/// Too many tokens have a context.
pub const FULL: u8 = 31;

/// A receive or a send failed.
pub const PORT_FAULT: u8 = 32;

/// A handle holds nothing.
pub const NOTHING_HELD: u8 = 33;

/// An argument is out of its range.
pub const BAD_ARGUMENT: u8 = 34;

/// What was asked is lost.
pub const LOST: u8 = 35;

/// An answer wasn't protected.
pub const UNVERIFIED: u8 = 36;

/// The call isn't one for now.
pub const NOT_NOW: u8 = 37;

/// A token is revoked.
pub const REVOKED: u8 = 38;
