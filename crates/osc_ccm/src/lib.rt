//! Authenticated encryption: the trait `Aead` with its law, and AES-CCM (RFC 3610), which meets it.
//!
//! `specs/Ccm.antt` defines which bytes are the CCM sealing of a text, over lists of blocks of 16
//! bytes, and `Ccm` is proved against it, in place, without an allocation. Code generic over `Aead`
//! knows the trait's clauses and laws alone.
//!
//! A block is xored as one vector of 16 lanes (`lanes`), and what is left of a text byte by byte.
//! Sealing is one pass over the text: each step of the CBC-MAC goes beside a block of the key stream,
//! so that the block cipher has two blocks at once, which is as many as it takes to keep its shuffles
//! going. Opening is the same pass, into a buffer on the stack, for a text up to the 1,152 bytes of a
//! datagram; only when the tag is found right is the text copied out. A longer text is gone over twice,
//! for the tag and then for the text, with two blocks at once each time.
//!
//! By its form the code branches on no byte of a key or a text but by the verdict on a tag, whose
//! comparison doesn't stop at the first difference, and reads memory at no place that depends on one.
//! No contract says so; `bench/secrets` looks at what was built.
#![tactic(auto)]

mod aead;
mod block;
mod ccm;
mod ciphers;
mod error;
pub mod lanes;
mod mac;
mod pass;
mod sealing;
mod stream;

pub use aead::{AAD_LIMIT, Aead, TAG_LIMIT, TEXT_LIMIT};
pub use ccm::Ccm;
pub use ciphers::{Ciphers, Suite, TagOf8, TagOf16};
pub use error::{OpenError, SealError};
