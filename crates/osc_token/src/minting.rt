//! Minting tokens.

ghost use Rattle.std.specs.Prelude.{◌≡◌, ◌≤◌, ◌<◌, ℕ, List, [], ◌++◌, length, IfOk, OnOk, OnErr, Err};
ghost use Rattle.osc_cbor.specs.{byte_string, map, pair, unsigned, no_pairs, spelling, view};
ghost use Rattle.osc_cose.specs.{enc_structure, object_item};
ghost use Rattle.osc_token.specs.Minted.{most_claims};
ghost use Rattle.osc_token.specs.Token.{algorithm_header, claims_item, material_item, token_object};

use crate::claims::{Claims, InputMaterial};
use crate::error::MintError;
use crate::labels::{
    ALGORITHM, AUDIENCE, CONFIRMATION, EXPIRES, ID, ID_CONTEXT, MATERIAL, NOT_BEFORE, SALT, SCOPE,
    SECRET,
};
use crate::lengths::claims_len;
use osc_cbor::{Item, write};
use osc_ccm::Aead;
use osc_cose::{Encrypt0, SealEncrypt0Error, seal0, write0};
use osc_model::{Algorithm, Bytes};
use std::alloc::{AllocError, Global};

/// The protected header of a token, {1: 10}: the algorithm AES-CCM-16-64-128 (RFC 9053 section 4.2).
const ALGORITHM_HEADER: [u8; 3] = *b"\xa1\x01\x0a";

/// The most bytes that claims may have, so that the cipher takes them.
pub const CLAIMS_LIMIT: usize = 65535;

/// Appends the token of these claims, sealed under the key that its issuer and the server share: a COSE_Encrypt0 object
/// without tags and without a kid. Claims and fields that aren't there, an empty salt, and the default algorithm are
/// left out.
///
/// An IV is used for one token alone under a key.
///
/// # Errors
///
/// `TooLong` exactly where the claims have more than 65535 bytes, which takes no memory to know; else `Memory`. Nothing is
/// appended then.
pub fn mint<A: Aead>(
    alloc: Global,
    claims: &Claims,
    key: &[u8; 16],
    iv: &[u8; 13],
    out: &mut Vec<u8>,
) -> Result<(), MintError>
    ensures minted { OnOk result ((ciphertext : List ℕ)
        × A.is_sealing key.now iv.now (enc_structure algorithm_header []) (spelling (claims_item claims.now)) ciphertext
        × (out.new.items ≡ out.old.items ++ spelling (object_item (token_object iv.now ciphertext)))) }
    ensures short { OnOk result (length (spelling (claims_item claims.now)) ≤ most_claims) }
    ensures too_long { result ≡ Err MintError.TooLong → most_claims < length (spelling (claims_item claims.now)) }
    // Memory is taken only for claims that aren't too long.
    ensures needs_memory { result ≡ Err MintError.Memory → length (spelling (claims_item claims.now)) ≤ most_claims }
    ensures err { OnErr result (out.new.items ≡ out.old.items) }
{
    if claims_len(claims) > CLAIMS_LIMIT {
        return Err(MintError::TooLong);
    }
    let text = claims_text(alloc, claims)?;
    let object = seal::<A>(alloc, key, iv, &text)?;
    Ok(write0(alloc, object, out)?)
}

/// The object of a text that isn't too long, so that only memory can run out.
fn seal<A: Aead>(
    alloc: Global,
    key: &[u8; 16],
    iv: &[u8; 13],
    text: &[u8],
) -> Result<Encrypt0, AllocError>
    requires { length text.now ≤ most_claims }
    ensures sealed { IfOk result (λ object.
        A.is_sealing key.now iv.now (enc_structure algorithm_header []) text.now object.ciphertext) }
    ensures is_token { IfOk result (λ object. object ≡ token_object iv.now object.ciphertext) }
{
    match seal0::<A>(alloc, key, iv, &ALGORITHM_HEADER, b"", text) {
        Ok(object) => Ok(object),
        Err(SealEncrypt0Error::Memory) => Err(AllocError),
        Err(SealEncrypt0Error::TooLong) => unreachable!(),
    }
}

/// The text of claims, which is sealed into their token: the map of them (RFC 8392 section 3). Claims and fields that aren't there,
/// an empty salt, and the default algorithm are left out.
pub fn claims_text(alloc: Global, claims: &Claims) -> Result<Vec<u8>, AllocError>
    ensures { IfOk result (λ text. text.items ≡ spelling (claims_item claims.now)) }
{
    let item = item_of(alloc, claims)?;
    let mut text = Vec::new(alloc);
    write(&item, &mut text)?;
    Ok(text)
}

/// The map of claims.
fn item_of(alloc: Global, claims: &Claims) -> Result<Item, AllocError>
    ensures { IfOk result (λ item. view item ≡ claims_item claims.now) }
{
    let audience = String::from_str(alloc, claims.audience.as_str())?;
    let mut pairs = vec![in alloc; (Item::Unsigned(AUDIENCE), Item::Text(audience))]?;
    if let Some(seconds) = claims.expires {
        pairs.push((Item::Unsigned(EXPIRES), Item::Unsigned(seconds)))?;
    }
    if let Some(seconds) = claims.not_before {
        pairs.push((Item::Unsigned(NOT_BEFORE), Item::Unsigned(seconds)))?;
    }
    let confirmation = confirmation_of(alloc, &claims.material)?;
    pairs.push((Item::Unsigned(CONFIRMATION), confirmation))?;
    pairs.push((Item::Unsigned(SCOPE), bytes_of(alloc, &claims.scope)?))?;
    Ok(Item::Map(pairs))
}

/// The map that has input material under its label alone.
fn confirmation_of(alloc: Global, material: &InputMaterial) -> Result<Item, AllocError>
    ensures { IfOk result (λ item. view item ≡ map (pair (unsigned 4) (material_item material.now) no_pairs)) }
{
    let fields = material_of(alloc, material)?;
    Ok(Item::Map(vec![in alloc; (Item::Unsigned(MATERIAL), fields)]?))
}

/// The map of the fields of input material, those that are there.
fn material_of(alloc: Global, material: &InputMaterial) -> Result<Item, AllocError>
    ensures { IfOk result (λ item. view item ≡ material_item material.now) }
{
    let mut fields = vec![in alloc;
        (Item::Unsigned(ID), bytes_of(alloc, &material.id)?),
        (Item::Unsigned(SECRET), bytes_of(alloc, &material.secret)?),
    ]?;
    if material.alg == Algorithm::SixteenByteTag {
        fields.push((
            Item::Unsigned(ALGORITHM),
            Item::Unsigned(material.alg.number()),
        ))?;
    }
    if !material.salt.is_empty() {
        fields.push((Item::Unsigned(SALT), bytes_of(alloc, &material.salt)?))?;
    }
    if let Some(id_context) = &material.id_context {
        fields.push((Item::Unsigned(ID_CONTEXT), bytes_of(alloc, id_context)?))?;
    }
    Ok(Item::Map(fields))
}

/// A byte string.
fn bytes_of(alloc: Global, bytes: &Bytes) -> Result<Item, AllocError>
    ensures { IfOk result (λ item. view item ≡ byte_string bytes.now) }
{
    Ok(Item::Bytes(Vec::from_slice(alloc, bytes.as_slice())?))
}
