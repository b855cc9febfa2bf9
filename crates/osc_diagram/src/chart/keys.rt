//! The keys of a context, for Wireshark.
ghost use Rattle.std.specs.Prelude.{◌≡◌, IfOk, string_bytes};
ghost use Rattle.osc_diagram.specs.Chart.Keys as spec;

use osc_model::{Algorithm, Bytes, ContextName};
use std::alloc::{AllocError, Global};

/// The line of a context in Wireshark's table `oscore_contexts`: the client's and the server's sender ID, the master secret and salt, the
/// ID context and the algorithm, each in quotes, with commas between. It has the secret of the context. There is none of a context under
/// AES-CCM-16-128-128, which Wireshark doesn't open.
pub fn key_line(alloc: Global, context: &ContextName) -> Result<String, AllocError>
    ensures { IfOk result (λ line. string_bytes line ≡ spec.key_line context.now) }
{
    match context.alg {
        Algorithm::EightByteTag => values_line(alloc, context),
        Algorithm::SixteenByteTag => Ok(String::new(alloc)),
    }
}

fn values_line(alloc: Global, context: &ContextName) -> Result<String, AllocError>
    ensures { IfOk result (λ line. string_bytes line ≡ spec.values_line context.now) }
{
    let ids = ids_text(alloc, context)?;
    let secrets = secrets_text(alloc, context)?;
    let id_context = id_context_text(alloc, &context.id_context)?;
    format!(in alloc; "{ids},{secrets},\"{id_context}\",\"AES-CCM-16-64-128 (CCM*)\"\n")
}

fn ids_text(alloc: Global, context: &ContextName) -> Result<String, AllocError>
    ensures { IfOk result (λ text. string_bytes text ≡ spec.pair context.now.client_id context.now.server_id) }
{
    pair(alloc, &context.client_id, &context.server_id)
}

fn secrets_text(alloc: Global, context: &ContextName) -> Result<String, AllocError>
    ensures { IfOk result (λ text. string_bytes text ≡ spec.pair context.now.secret context.now.salt) }
{
    pair(alloc, &context.secret, &context.salt)
}

fn pair(alloc: Global, first: &Bytes, second: &Bytes) -> Result<String, AllocError>
    ensures { IfOk result (λ text. string_bytes text ≡ spec.pair first.now second.now) }
{
    let first = hex::encode(alloc, first.as_slice())?;
    let second = hex::encode(alloc, second.as_slice())?;
    format!(in alloc; "\"{first}\",\"{second}\"")
}

fn id_context_text(alloc: Global, id_context: &Option<Bytes>) -> Result<String, AllocError>
    ensures { IfOk result (λ text. string_bytes text ≡ spec.id_context_text id_context.now) }
{
    match id_context {
        Some(bytes) => hex::encode(alloc, bytes.as_slice()),
        None => Ok(String::new(alloc)),
    }
}
