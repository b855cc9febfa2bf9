//! The context that both ends of an exchange agree on (RFC 9203 section 4.3).

ghost use Rattle.std.specs.Prelude.{◌≡◌, ◌≢◌, ◌≤◌, [], ◌∷◌, length, IfOk};
ghost use Rattle.osc_model.specs.{revocation_of};
ghost use Rattle.osc_authz.specs.Agreement.{end_of, name_by, new_context};
ghost use Rattle.osc_authz.specs.declared.rules.ContextRules.{ContextRules as AnyRules};
ghost use Rattle.osc_model.specs.declared.node.Moment.{Moment as AnyMoment};

use crate::context::ServerContext;
use crate::derivation::derived;
use crate::payload::PostFields;
use crate::post::PostAnswer;
use osc_context::joined_salt;
use osc_model::{Bytes, ContextName, Path, SharedBytes, SharedName, Side};
use osc_scope::Scope;
use osc_token::{Claims, InputMaterial};
use std::alloc::{AllocError, Global};

/// The id of the material, and the name of the context that a post and its answer make of the rest.
pub(crate) fn name_of(
    alloc: Global,
    material: InputMaterial,
    fields: &PostFields<'_>,
    answer: &PostAnswer,
) -> Result<(Bytes, SharedName), AllocError>
    ensures id { IfOk result (λ made. made.0 ≡ material.id) }
    ensures name { IfOk result (λ made. made.1
        ≡ name_by material (record { nonce1 = fields.now.nonce1.now; client_id = fields.now.client_id.now; answer = answer.now })) }
{
    let InputMaterial {
        id,
        secret,
        salt,
        id_context,
        alg,
    } = material;
    let name = ContextName {
        secret,
        salt: joined_salt(alloc, salt.as_slice(), fields.nonce1, &answer.nonce2)?,
        id_context,
        client_id: Bytes::from_slice(alloc, &[answer.recipient_id])?,
        server_id: Bytes::from_slice(alloc, fields.client_id)?,
        alg,
    };
    Ok((id, SharedName::new(alloc, name)?))
}

/// What ends a context, beside its token's time.
#[derive(Drop)]
pub(crate) struct Bounds {
    /// The path at which a resource revokes its token.
    pub revocation: Option<Path>,
    /// The second from which on it is too old.
    pub ends: Option<u64>,
}

/// The id of the token, and the context that it and this answer to a post make, which these bounds end.
pub(crate) fn context_of(
    alloc: Global,
    claims: Claims,
    scope: Scope,
    fields: &PostFields<'_>,
    answer: &PostAnswer,
    bounds: Bounds,
) -> Result<(SharedBytes, ServerContext), AllocError>
    requires short { length fields.now.client_id.now ≤ 7 }
    requires apart { fields.now.client_id.now ≢ answer.now.recipient_id ∷ [] }
    ensures id { IfOk result (λ made. made.0 ≡ claims.material.id) }
    ensures context { (rules : AnyRules) (now : AnyMoment)
        → bounds.revocation ≡ revocation_of rules.revoked claims.material.id → bounds.ends ≡ end_of rules.seconds now
        → IfOk result (λ made. made.1 ≡ new_context rules now claims scope (record { nonce1 = fields.now.nonce1.now; client_id = fields.now.client_id.now; answer = answer.now })) }
{
    let Claims {
        material,
        not_before,
        expires,
        ..
    } = claims;
    let (id, name) = name_of(alloc, material, fields, answer)?;
    let id = SharedBytes::new(alloc, id)?;
    let Bounds { revocation, ends } = bounds;
    let (sender, recipient) = derived(alloc, &name, Side::Server)?;
    let context = ServerContext {
        name,
        sender,
        recipient,
        scope,
        not_before,
        expires,
        revocation,
        ends,
    };
    Ok((id, context))
}
