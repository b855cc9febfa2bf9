//! Where a device begins.
ghost use Rattle.std.specs.Prelude.{◌≡◌, ◌<◌, ◌^◌, ◌||◌, List, true, false, not, IfErr, IfOk, OnOk, length};
ghost use Rattle.std.specs.Str.{IsUtf8};
ghost use Rattle.osc_authz.specs.{IsLawful, IsRefusal};
ghost use Rattle.osc_model.specs.{has_subtrees};
ghost use Rattle.osc_scope.specs.{Entry, IsScope, scope_of};
ghost use Rattle.osc_world.specs.{first_nodes};
ghost use Rattle.osc_device.specs.Begun.{ReachesTooFar, own_claims as own_claims_of, server_alone};
ghost use Rattle.osc_device.specs.Inner.Holding.{HoldsOwn};
ghost use Rattle.osc_device.specs.declared.own_token.ServerParts.{ServerParts as AnyParts};

use crate::own_token::{OwnToken, ServerParts};
use osc_authz::{ContextRules, DeskParts, EnrollError, Enrolled, ServerDesk, enroll};
use osc_ccm::Ciphers;
use osc_client::{Client, Route};
use osc_model::limits::REMEMBERED_POSTS;
use osc_model::{Algorithm, Bytes, Peer};
use osc_protect::TokenCipher;
use osc_scope::{Scope, ScopeError};
use osc_server::Server;
use osc_token::{Audience, Claims, InputMaterial};
use std::alloc::{AllocError, Global};

/// The address of the device, for its server.
pub(crate) const OWN: Peer = Peer {
    address: [0, 0, 0, 0, 0, 0, 0, 0, 0, 0, 0xff, 0xff, 0, 0, 0, 0],
    scope: 0,
    port: 0,
};

/// The address of the server, for the device.
pub(crate) const SERVER: Peer = Peer {
    address: [0, 0, 0, 0, 0, 0, 0, 0, 0, 0, 0xff, 0xff, 0, 0, 0, 0],
    scope: 0,
    port: 1,
};

/// Whether the scope of this token reaches below its paths where the server refuses that. Bytes that are no scope don't.
pub(crate) fn reaches_too_far(
    alloc: Global,
    parts: &ServerParts,
    own: &OwnToken,
) -> Result<bool, AllocError>
    ensures far { IfOk result (λ far. far ≡ true → ReachesTooFar parts.now own.now) }
    ensures near { IfOk result (λ far. far ≡ false → (entries : List Entry) → IsScope own.now.scope entries
        → (parts.now.subtrees || not (has_subtrees (scope_of entries))) ≡ true) }
{
    if parts.subtrees {
        return Ok(false);
    }
    match Scope::from_cbor(alloc, own.scope.as_slice()) {
        Ok(scope) => Ok(scope.has_subtrees()),
        Err(ScopeError::BadScope) => Ok(false),
        Err(ScopeError::Memory) => Err(AllocError),
    }
}

/// The server, before it did anything. It keeps a place for the tokens of this id, the device's own.
pub(crate) fn server_of(alloc: Global, parts: ServerParts, own: Bytes) -> Result<Server, AllocError>
    ensures { IfOk result (λ server. server ≡ (first_nodes (server_alone parts own)).server) }
{
    let ServerParts {
        tree,
        open_scope,
        key,
        old_key,
        audience,
        revoked,
        context_seconds,
        subtrees,
    } = parts;
    let rules = ContextRules {
        revoked,
        seconds: context_seconds,
        remembered: REMEMBERED_POSTS,
        reserved: Some(own),
        subtrees,
        answers: true,
    };
    let desk = ServerDesk::of(
        alloc,
        DeskParts {
            key,
            old_key,
            audience,
            rules,
        },
    );
    Server::new(alloc, tree, desk, open_scope)
}

/// What the device's own token claims at a server of this audience.
pub(crate) fn own_claims(alloc: Global, audience: Audience, own: OwnToken) -> Claims
    ensures { (parts : AnyParts) → parts.audience ≡ audience → result ≡ own_claims_of parts own }
{
    let OwnToken {
        id,
        secret,
        scope,
        iv: _,
    } = own;
    Claims {
        audience,
        not_before: None,
        expires: None,
        material: InputMaterial {
            id,
            secret,
            salt: Bytes::new(alloc),
            id_context: None,
            alg: Algorithm::EightByteTag,
        },
        scope,
    }
}

/// The device as a client of its server, with the token of these claims, which is minted under this key.
pub(crate) fn own_client<A: Ciphers>(
    alloc: Global,
    claims: &Claims,
    key: &[u8; 16],
    iv: &[u8; 13],
) -> Result<Client, EnrollError>
    ensures holds { IfOk result (λ client. HoldsOwn A.is_sealing key.now iv.now claims.now client) }
    ensures lawful { OnOk result (IsLawful claims.now) }
    ensures refused { IfErr result (λ error. IsRefusal claims.now error) }
{
    let Enrolled { desk, .. } = enroll::<TokenCipher<A>>(alloc, claims, key, iv)?;
    let way = Route {
        next_hop: SERVER,
        origin: None,
    };
    let client = Client::new(alloc, desk, way)?;
    Ok(client)
}

/// For proofs: the parts are as long as their types allow. Does nothing.
pub(crate) fn fits(parts: &ServerParts, own: &OwnToken)
    ensures audience { IsUtf8 parts.now.audience × (length parts.now.audience < 2 ^ 64) }
    ensures scope { length own.now.scope < 2 ^ 64 }
    ensures iv { length own.now.iv ≡ 13 }
{
    let _audience = parts.audience.as_str();
    let _scope = own.scope.len();
    let _iv = own.iv;
}
