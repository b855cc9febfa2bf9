//! Derivation of a security context from its name (RFC 8613 section 3.2).

ghost use Rattle.std.specs.Prelude.{◌≡◌, ◌≤◌, ◌<◌, ◌↔◌, ◌⊎◌, [], codes, length, IfOk, Err};
ghost use Rattle.osc_cbor.specs.{spelling};
ghost use Rattle.osc_hkdf.specs.{extract_of, expand_of};
ghost use Rattle.osc_context.specs.Derivation.{info, derived, common_iv_of, sender_of, recipient_of};
ghost use Rattle.osc_context.specs.Nonce.{longest_id};

use crate::algorithm::algorithm_of;
use crate::append::{append_bytes, append_head, append_id_context, append_text, append_unsigned};
use crate::error::DeriveError;
use crate::nonce::{ID_LIMIT, id_copy};
use crate::recipient::RecipientContext;
use crate::sender::SenderContext;
use osc_cbor::Major;
use osc_hkdf::Prk;
use osc_model::{ContextName, Side};
use std::alloc::{AllocError, Global};

/// The info that tells an output from the others (RFC 8613 section 3.2.1): the ID, the id context of the name, the algorithm, what the
/// output is for (`Key` or `IV`) and its length in bytes.
///
/// # Errors
///
/// For lack of memory.
pub fn info_of(
    alloc: Global,
    name: &ContextName,
    id: &[u8],
    output: &[u8],
    size: u64,
) -> Result<Vec<u8>, AllocError>
    ensures { IfOk result (λ bytes. bytes.items ≡ spelling (info name.now id.now output.now size)) }
{
    let mut out = Vec::new(alloc);
    append_head(&mut out, Major::Array, 5)?;
    append_bytes(&mut out, id)?;
    append_id_context(&mut out, &name.id_context)?;
    append_unsigned(&mut out, algorithm_of(name).number())?;
    append_text(&mut out, output)?;
    append_unsigned(&mut out, size)?;
    Ok(out)
}

/// The pseudorandom key of this name, from which all is derived: it is extracted once.
fn prk_of(name: &ContextName) -> Prk
    ensures { result ≡ extract_of name.now.salt name.now.secret }
{
    Prk::extract(name.salt.as_slice(), name.secret.as_slice())
}

/// The key under which the end with this ID seals, by the pseudorandom key.
#[tactic(auto, unfolding(crate::specs::Derivation::derived))]
fn derive_key(
    alloc: Global,
    prk: &Prk,
    name: &ContextName,
    id: &[u8],
) -> Result<[u8; 16], AllocError>
    requires { prk.now ≡ extract_of name.now.salt name.now.secret }
    ensures { IfOk result (λ key. key ≡ derived name.now id.now (codes "Key") 16) }
{
    let info = info_of(alloc, name, id, b"Key", 16)?;
    let mut key = [0; 16];
    prk.expand(&info, &mut key).unwrap();
    Ok(key)
}

/// The common IV, by the pseudorandom key: no ID tells it from another.
#[tactic(auto, unfolding(crate::specs::Derivation::derived))]
fn derive_common_iv(alloc: Global, prk: &Prk, name: &ContextName) -> Result<[u8; 13], AllocError>
    requires { prk.now ≡ extract_of name.now.salt name.now.secret }
    ensures { IfOk result (λ common_iv. common_iv ≡ common_iv_of name.now) }
{
    let info = info_of(alloc, name, b"", b"IV", 13)?;
    let mut common_iv = [0; 13];
    prk.expand(&info, &mut common_iv).unwrap();
    Ok(common_iv)
}

/// The contexts of an end with these two IDs, its own and the other end's.
fn contexts(
    alloc: Global,
    name: &ContextName,
    own: &[u8],
    other: &[u8],
) -> Result<(SenderContext, RecipientContext), AllocError>
    requires own { length own.now ≤ longest_id }
    requires other { length other.now ≤ longest_id }
    ensures sender { IfOk result (λ made. made.0
        ≡ record { id = own.now; key = derived name.now own.now (codes "Key") 16; common_iv = common_iv_of name.now; next = 0 }) }
    ensures recipient { IfOk result (λ made. made.1
        ≡ record { id = other.now; key = derived name.now other.now (codes "Key") 16; common_iv = common_iv_of name.now; window = [] }) }
{
    let prk = prk_of(name);
    let common_iv = derive_common_iv(alloc, &prk, name)?;
    let own_key = derive_key(alloc, &prk, name, own)?;
    let other_key = derive_key(alloc, &prk, name, other)?;
    let sender = SenderContext::new(id_copy(own), own_key, common_iv);
    let recipient = RecipientContext::new(id_copy(other), other_key, common_iv);
    Ok((sender, recipient))
}

/// The contexts of one end, of the security context with this name.
///
/// # Errors
///
/// The first of these that applies: `IdTooLong` for a sender ID of more than 7 bytes, `EqualIds` where both ends have the
/// same sender ID, else `Memory` for lack of memory.
pub fn derive(
    alloc: Global,
    name: &ContextName,
    side: Side,
) -> Result<(SenderContext, RecipientContext), DeriveError>
    ensures sender { IfOk result (λ made. made.0 ≡ sender_of name.now side 0) }
    ensures recipient { IfOk result (λ made. made.1 ≡ recipient_of name.now side []) }
    ensures too_long { (result ≡ Err DeriveError.IdTooLong)
        ↔ ((longest_id < length name.now.client_id) ⊎ (longest_id < length name.now.server_id)) }
    ensures equal { (result ≡ Err DeriveError.EqualIds)
        ↔ ((length name.now.client_id ≤ longest_id) × (name.now.client_id ≡ name.now.server_id)) }
{
    if name.client_id.len() > ID_LIMIT || name.server_id.len() > ID_LIMIT {
        return Err(DeriveError::IdTooLong);
    }
    if name.client_id == name.server_id {
        return Err(DeriveError::EqualIds);
    }
    let client_id = name.client_id.as_slice();
    let server_id = name.server_id.as_slice();
    let made = match side {
        Side::Client => contexts(alloc, name, client_id, server_id),
        Side::Server => contexts(alloc, name, server_id, client_id),
    };
    made.map_err(|_| DeriveError::Memory)
}
