//! What a client was granted, and the way to its server.
ghost use Rattle.std.specs.Prelude.{◌≡◌, IfErr, IfOk, OnOk};
ghost use Rattle.osc_c.specs.Arguments.{IsUnfit};
ghost use Rattle.osc_c.specs.Plain.{peer_of};
ghost use Rattle.osc_c.specs.Granted.{IsAlgorithm, IsDesk, IsLawfulGrant, IsWay, id_context_of, origin_of};
ghost use Rattle.osc_c.specs.declared.calls.outcome.Outcome.TheVariants.{BadArgument};
ghost use Rattle.osc_model.specs.{algorithm_number};

use crate::calls::arguments::{is_host, optional};
use crate::calls::outcome::Outcome;
use crate::calls::plain::PlainPeer;
use osc_authz::ClientDesk;
use osc_client::{Origin, Route};
use osc_model::limits::LONGEST_PART;
use osc_model::{Algorithm, Bytes};
use std::alloc::{AllocError, Global};

/// The algorithm of this number: 10 or 30.
pub(crate) fn algorithm(number: u8) -> Result<Algorithm, Outcome>
    ensures ok { IfOk result (λ algorithm. number ≡ algorithm_number algorithm) }
    ensures err { IfErr result (λ outcome. (outcome ≡ BadArgument) × ¬ (IsAlgorithm number)) }
{
    match Algorithm::from_number(number as u64) {
        Some(algorithm) => Ok(algorithm),
        None => Err(Outcome::BadArgument),
    }
}

/// An id context: the bytes where the flag is 1, and none where it is 0.
pub(crate) fn id_context(
    alloc: Global,
    is_there: u8,
    bytes: &[u8],
) -> Result<Option<Bytes>, AllocError>
    ensures { IfOk result (λ context. context ≡ id_context_of is_there bytes.now) }
{
    optional(alloc, is_there == 1, bytes)
}

/// Refuses input material of lengths that no token may have (RFC 9203 section 3.2.1).
pub(crate) fn lawful(
    secret: &[u8],
    salt: &[u8],
    has_context: u8,
    context: &[u8],
) -> Result<(), Outcome>
    ensures ok { OnOk result (IsLawfulGrant secret.now salt.now (id_context_of has_context context.now)) }
    ensures err { IfErr result (λ outcome. (outcome ≡ BadArgument) × ¬ (IsLawfulGrant secret.now salt.now (id_context_of has_context context.now))) }
{
    if secret.is_empty()
        || secret.len() > LONGEST_PART
        || salt.len() > LONGEST_PART
        || (has_context == 1 && context.len() > LONGEST_PART)
    {
        return Err(Outcome::BadArgument);
    }
    Ok(())
}

/// The secret and the salt.
fn keying(alloc: Global, secret: &[u8], salt: &[u8]) -> Result<(Bytes, Bytes), AllocError>
    ensures { IfOk result (λ both. (both.0 ≡ secret.now) × (both.1 ≡ salt.now)) }
{
    let secret = Bytes::from_slice(alloc, secret)?;
    Ok((secret, Bytes::from_slice(alloc, salt)?))
}

/// What a client was granted: input material of lengths that a token may have.
pub(crate) fn desk(
    alloc: Global,
    token: &[u8],
    secret: &[u8],
    salt: &[u8],
    context: Option<Bytes>,
    alg: Algorithm,
) -> Result<ClientDesk, AllocError>
    requires { IsLawfulGrant secret.now salt.now context }
    ensures { IfOk result (λ desk. IsDesk token.now secret.now salt.now context alg desk) }
{
    let (secret, salt) = keying(alloc, secret, salt)?;
    let token = Bytes::from_slice(alloc, token)?;
    match ClientDesk::new(token, secret, salt, context, alg) {
        Ok(desk) => Ok(desk),
        // They are of such lengths.
        Err(_) => unreachable!(),
    }
}

/// The way to the server: straight where the host is empty, and else through a proxy that knows it by this host and port.
pub(crate) fn way(
    alloc: Global,
    next_hop: &PlainPeer,
    host: &[u8],
    port: u16,
) -> Result<Route, Outcome>
    ensures ok { IfOk result (λ way. way ≡ record { next_hop = peer_of next_hop.now; origin = origin_of host.now port }) }
    ensures lawful { IfOk result (λ way. IsWay host.now) }
    ensures err { IfErr result (IsUnfit (IsWay host.now)) }
{
    if host.is_empty() {
        return Ok(Route {
            next_hop: next_hop.peer(),
            origin: None,
        });
    }
    if !is_host(host) {
        return Err(Outcome::BadArgument);
    }
    match Origin::new(Bytes::from_slice(alloc, host)?, port) {
        Some(origin) => Ok(Route {
            next_hop: next_hop.peer(),
            origin: Some(origin),
        }),
        None => Err(Outcome::BadArgument),
    }
}
