//! Names of contexts.
ghost use Rattle.std.specs.Prelude.{◌≡◌, None, IfOk};

use osc_model::{Algorithm, Bytes, ContextName, SharedName};
use std::alloc::{AllocError, Global};

/// Copies of both.
fn pair(alloc: Global, one: &[u8], other: &[u8]) -> Result<(Bytes, Bytes), AllocError> {
    let one = Bytes::from_slice(alloc, one)?;
    Ok((one, Bytes::from_slice(alloc, other)?))
}

/// The name of a context of this master secret and this salt, with the client's ID and the server's, without an id context,
/// under tags of 8 bytes.
pub fn shared_name(
    alloc: Global,
    secret: &[u8],
    salt: &[u8],
    client_id: &[u8],
    server_id: &[u8],
) -> Result<SharedName, AllocError>
    ensures { IfOk result (λ name. name.id_context ≡ None) }
{
    let (secret, salt) = pair(alloc, secret, salt)?;
    let (client_id, server_id) = pair(alloc, client_id, server_id)?;
    let name = ContextName {
        secret,
        salt,
        id_context: None,
        client_id,
        server_id,
        alg: Algorithm::EightByteTag,
    };
    SharedName::new(alloc, name)
}
