//! Grants: what tokens claim, the tokens, and what their holders are given.

use osc_authz::ClientDesk;
use osc_ccm::Ccm;
use osc_model::{Algorithm, Bytes};
use osc_token::{Audience, Claims, InputMaterial, MintError, mint};
use std::alloc::{AllocError, Global};

/// The key that the server shares with the issuer of tokens.
pub const KEY: [u8; 16] = *b"@ABCDEFGHIJKLMNO";

/// The scope of GET and POST on `/log`.
pub const GET_AND_POST: &[u8] = b"\x81\x82\x64/log\x03";

/// What the token of a client gives, for the audience `s`.
#[derive(Clone, Copy)]
pub struct Right {
    /// The client's number, which is the token's id.
    pub client: u8,
    /// Each byte of the secret.
    pub secret: u8,
    /// The salt.
    pub salt: &'static [u8],
    /// The id context, if there is one.
    pub id_context: Option<&'static [u8]>,
    /// The algorithm of the client's contexts.
    pub alg: Algorithm,
    /// Until which second, if any.
    pub expires: Option<u64>,
    /// The scope, in bytes.
    pub scope: &'static [u8],
}

/// The right of a client with a secret of its own, under tags of 8 bytes, for ever.
pub fn own(client: u8, scope: &'static [u8]) -> Right {
    Right {
        client,
        secret: client,
        salt: b"",
        id_context: None,
        alg: Algorithm::EightByteTag,
        expires: None,
        scope,
    }
}

/// The IV under which the token of this right is sealed.
pub fn iv_of(right: Right) -> [u8; 13] {
    [right.client; 13]
}

/// The secret and the salt.
fn keying(alloc: Global, right: Right) -> Result<(Bytes, Bytes), AllocError> {
    let secret = Bytes::from_slice(alloc, &[right.secret; 16])?;
    Ok((secret, Bytes::from_slice(alloc, right.salt)?))
}

fn id_context(alloc: Global, right: Right) -> Result<Option<Bytes>, AllocError> {
    match right.id_context {
        Some(bytes) => Ok(Some(Bytes::from_slice(alloc, bytes)?)),
        None => Ok(None),
    }
}

fn material(alloc: Global, right: Right) -> Result<InputMaterial, AllocError> {
    let (secret, salt) = keying(alloc, right)?;
    let id_context = id_context(alloc, right)?;
    Ok(InputMaterial {
        id: Bytes::from_slice(alloc, &[right.client])?,
        secret,
        salt,
        id_context,
        alg: right.alg,
    })
}

/// What the token of this right claims.
pub fn claims(alloc: Global, right: Right) -> Result<Claims, AllocError> {
    let audience = Audience::new(alloc, "s")?;
    let material = material(alloc, right)?;
    Ok(Claims {
        audience,
        not_before: None,
        expires: right.expires,
        material,
        scope: Bytes::from_slice(alloc, right.scope)?,
    })
}

/// The token of this right.
pub fn token(alloc: Global, right: Right) -> Result<Vec<u8>, AllocError> {
    let claims = claims(alloc, right)?;
    let mut token = Vec::new(alloc);
    let minted = mint::<Ccm<8>>(alloc, &claims, &KEY, &iv_of(right), &mut token);
    drop(claims);
    match minted {
        Err(MintError::Memory) => Err(AllocError),
        _ => Ok(token),
    }
}

/// What a client is granted with the token of this right.
pub fn desk(alloc: Global, right: Right) -> Result<ClientDesk, AllocError> {
    let token = token(alloc, right)?;
    let (secret, salt) = keying(alloc, right)?;
    let id_context = id_context(alloc, right)?;
    match ClientDesk::new(Bytes::from_vec(token), secret, salt, id_context, right.alg) {
        Ok(desk) => Ok(desk),
        Err(_) => Err(AllocError),
    }
}
