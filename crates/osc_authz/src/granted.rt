//! What a client has been granted.

ghost use Rattle.std.specs.Prelude.{◌≡◌, ◌<◌, ◌↔◌, length, IfOk, IsOk, IsFalse, Err};
ghost use Rattle.std.specs.Option.{ForSome};
ghost use Rattle.osc_authz.specs.Granted.{IsSecret, IsShort};

use crate::error::GrantError;
use osc_model::limits::LONGEST_PART;
use osc_model::{Algorithm, Bytes};
use std::fmt;

/// What a client has been granted: the token, which it can't read, and the input material of its contexts.
pub struct ClientDesk {
    /// The token's bytes.
    pub token: Bytes,
    /// The master secret: 1 to 64 bytes.
    pub secret: Bytes,
    /// The salt that master salts begin with: 0 to 64 bytes.
    pub salt: Bytes,
    /// The id context: 0 to 64 bytes, where there is one.
    pub id_context: Option<Bytes>,
    /// The AEAD algorithm.
    pub alg: Algorithm,
    pub ghost secret_size: { IsSecret secret },
    pub ghost salt_size: { IsShort salt },
    pub ghost id_context_size: { ForSome id_context IsShort },
}

impl Drop for ClientDesk {
    fn drop(self) {
        let ClientDesk {
            token: _,
            secret: _,
            salt: _,
            id_context: _,
            alg: _,
        } = self;
    }
}

// The secret isn't printed.
impl fmt::Debug for ClientDesk {
    fn fmt<W: fmt::Write>(&self, f: &mut fmt::Formatter<W>) -> fmt::Result {
        f.write_str("ClientDesk")
    }
}

/// Whether an id context that is there has more than [`LONGEST_PART`] bytes.
fn is_long(id_context: &Option<Bytes>) -> bool
    ensures { IsFalse result ↔ ForSome id_context.now IsShort }
{
    match id_context {
        Some(bytes) => bytes.len() > LONGEST_PART,
        None => false,
    }
}

impl ClientDesk {
    /// The desk of a client that was granted this token, with the input material that the token has too.
    ///
    /// # Errors
    ///
    /// The first that applies: `Secret`, `Salt`, `IdContext` where that has a length that no token may have.
    pub fn new(
        token: Bytes,
        secret: Bytes,
        salt: Bytes,
        id_context: Option<Bytes>,
        alg: Algorithm,
    ) -> Result<ClientDesk, GrantError>
        ensures granted { IfOk result (λ desk. (desk.token ≡ token) × (desk.secret ≡ secret)
            × (desk.salt ≡ salt) × (desk.id_context ≡ id_context) × (desk.alg ≡ alg)) }
        ensures lawful { IsOk result ↔ (IsSecret secret × IsShort salt × ForSome id_context IsShort) }
        ensures secret { result ≡ Err GrantError.Secret → ¬ IsSecret secret }
        ensures salt { result ≡ Err GrantError.Salt → IsSecret secret × ¬ IsShort salt }
        ensures id_context { result ≡ Err GrantError.IdContext → IsSecret secret × IsShort salt × ¬ ForSome id_context IsShort }
    {
        if secret.is_empty() || secret.len() > LONGEST_PART {
            return Err(GrantError::Secret);
        }
        if salt.len() > LONGEST_PART {
            return Err(GrantError::Salt);
        }
        if is_long(&id_context) {
            return Err(GrantError::IdContext);
        }
        Ok(ClientDesk {
            token,
            secret,
            salt,
            id_context,
            alg,
        })
    }
}
