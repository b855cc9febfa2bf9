//! The master salt of an exchange (RFC 9203 section 4.3).

ghost use Rattle.std.specs.Prelude.{◌≡◌, IfOk};
ghost use Rattle.osc_context.specs.MasterSalt.{master_salt};

use crate::append::append_bytes;
use osc_model::Bytes;
use std::alloc::{AllocError, Global};

/// Salt, nonce1 and nonce2, each as a CBOR byte string, one after the other.
#[tactic(auto, unfolding(crate::specs::MasterSalt::master_salt))]
pub fn joined_salt(
    alloc: Global,
    salt: &[u8],
    nonce1: &[u8],
    nonce2: &[u8],
) -> Result<Bytes, AllocError>
    ensures { IfOk result (λ joined. joined ≡ master_salt salt.now nonce1.now nonce2.now) }
{
    let mut joined = Vec::new(alloc);
    append_bytes(&mut joined, salt)?;
    append_bytes(&mut joined, nonce1)?;
    append_bytes(&mut joined, nonce2)?;
    Ok(Bytes::from_vec(joined))
}
