//! The numbers that several crates go by, each once: limits, lifetimes and names of the standards, with their sections.

/// The most bytes of a datagram's payload (RFC 7252 section 4.6).
pub const DATAGRAM_LIMIT: usize = 1152;

/// How long a message ID of a confirmable message is taken, in ms: EXCHANGE_LIFETIME (RFC 7252 section 4.8.2).
pub const EXCHANGE_LIFETIME: u64 = 247_000;

/// How long a message ID of a non-confirmable message is taken, in ms: NON_LIFETIME (RFC 7252 section 4.8.2).
pub const NON_LIFETIME: u64 = 145_000;

/// The code of a GET (RFC 7252 section 12.1.1).
pub const GET: u8 = 1;

/// The code of a POST (RFC 7252 section 12.1.1).
pub const POST: u8 = 2;

/// The UDP port of coap (RFC 7252 section 6.1).
pub const DEFAULT_PORT: u16 = 5683;

/// The most bytes of a host's name, as of a Uri-Host option's value (RFC 7252 section 5.10.1).
pub const LONGEST_HOST: usize = 255;

/// The path to which tokens are posted (RFC 9200 section 5.10.1).
pub const AUTHZ_INFO: &[u8] = b"/authz-info";

/// Its one segment.
pub const AUTHZ_INFO_SEGMENT: &[u8] = b"authz-info";

/// The Content-Format of application/ace+cbor (RFC 9200 section 8.16).
pub const ACE_CBOR: u16 = 19;

/// The most bytes of a token's id: the id of its input material (RFC 9203 section 3.2.1).
pub const LONGEST_ID: usize = 64;

/// The most bytes of a master secret, a master salt and an ID context, each (RFC 9203 section 3.2.1).
pub const LONGEST_PART: usize = 64;

/// How many posts of each token id a server knows again, unless it is told otherwise.
pub const REMEMBERED_POSTS: u8 = 8;

/// The most token ids that have a context at once.
pub const MOST_TOKENS: usize = 64;

/// The most resources of a tree.
pub const MOST_RESOURCES: usize = 1024;

/// The most resources where one more is made that revokes no token, at a server with a revocation path: what is left is for those that revoke.
pub const MOST_ELSEWHERE: usize = 960;

/// The most bytes of a resource's payload.
pub const LONGEST_PAYLOAD: usize = 512;

/// The most segments of a path.
pub const MOST_SEGMENTS: usize = 8;

/// The most bytes of a path's segment.
pub const LONGEST_SEGMENT: usize = 32;

/// The most segments of a revocation path: with those of a token's id it isn't too long.
pub const MOST_REVOCATION_SEGMENTS: usize = 4;
