//! A holder: a client as a library, with a token that is minted here, under the key of the lock's server.
ghost use Rattle.std.specs.Prelude.{◌<◌, IfOk};

use crate::fault::Fault;
use crate::place::Place;
use crate::supply::Draws;
use crate::wire::{lock_peer, sent};
use osc_authz::ClientDesk;
use osc_ccm::{Ccm, Suite};
use osc_client::{Client, Route};
use osc_model::{Algorithm, Bytes, ETags, Method, Moment, Peer, Request, Step};
use osc_scope::text_to_cbor;
use osc_token::{Audience, Claims, InputMaterial, mint};
use std::alloc::{AllocError, Global};

/// The key that the lock's server shares with who issues tokens for it.
pub const KEY: [u8; 16] = *b"@ABCDEFGHIJKLMNO";

/// For whom the tokens are.
pub const AUDIENCE: &str = "lock";

/// What an issuer grants a holder. No two grants have the same number or secret.
#[derive(Clone, Copy)]
pub struct Grant {
    /// The holder's name, which is the id context of its token: by it the lock knows who asks.
    pub name: &'static str,
    /// The token's id, and here also the last byte of the IV under which it is sealed, and of its holder's address.
    pub number: u8,
    /// The master secret, which the holder is told beside the token.
    pub secret: &'static [u8],
    /// What the holder may do.
    pub scope: &'static [u8],
    /// Until when, in seconds since 1970, if not for ever.
    pub expires: Option<u64>,
}

/// A holder of a token.
#[derive(Drop)]
pub struct TokenHolder {
    pub name: &'static str,
    pub at: Peer,
    client: Client,
    draws: Draws,
}

/// The bytes of the scope that this text says.
pub fn scope(alloc: Global, text: &[u8]) -> Result<Bytes, Fault> {
    let mut bytes = Vec::new(alloc);
    text_to_cbor(alloc, text, &mut bytes)?;
    Ok(Bytes::from_vec(bytes))
}

/// The secret and the id context.
fn secret_and_name(alloc: Global, grant: Grant) -> Result<(Bytes, Bytes), AllocError> {
    let secret = Bytes::from_slice(alloc, grant.secret)?;
    Ok((secret, Bytes::from_slice(alloc, grant.name.as_bytes())?))
}

fn material(alloc: Global, grant: Grant) -> Result<InputMaterial, AllocError> {
    let (secret, name) = secret_and_name(alloc, grant)?;
    Ok(InputMaterial {
        id: Bytes::from_slice(alloc, &[grant.number])?,
        secret,
        salt: Bytes::new(alloc),
        id_context: Some(name),
        alg: Algorithm::EightByteTag,
    })
}

/// What the token of this grant claims.
fn claims(alloc: Global, grant: Grant) -> Result<Claims, Fault> {
    let audience = Audience::new(alloc, AUDIENCE)?;
    let scope = scope(alloc, grant.scope)?;
    Ok(Claims {
        audience,
        not_before: None,
        expires: grant.expires,
        material: material(alloc, grant)?,
        scope,
    })
}

/// The token of this grant. Its IV is used for no other token.
fn token(alloc: Global, grant: Grant) -> Result<Bytes, Fault> {
    let claims = claims(alloc, grant)?;
    let mut token = Vec::new(alloc);
    let minted = mint::<Ccm<8>>(alloc, &claims, &KEY, &[grant.number; 13], &mut token);
    drop(claims);
    minted?;
    Ok(Bytes::from_vec(token))
}

/// What the holder of this grant is given: the token, and beside it, on a way that nobody else sees, what its contexts are derived from.
fn desk(alloc: Global, grant: Grant) -> Result<ClientDesk, Fault> {
    let token = token(alloc, grant)?;
    let (secret, name) = secret_and_name(alloc, grant)?;
    let salt = Bytes::new(alloc);
    let alg = Algorithm::EightByteTag;
    Ok(ClientDesk::new(token, secret, salt, Some(name), alg)?)
}

fn client(alloc: Global, grant: Grant) -> Result<Client, Fault> {
    let desk = desk(alloc, grant)?;
    let way = Route {
        next_hop: lock_peer(),
        origin: None,
    };
    Ok(Client::new(alloc, desk, way)?)
}

/// A request of this method on this resource, with a payload, and no other option.
fn request(
    alloc: Global,
    method: Method,
    place: Place,
    payload: &'static [u8],
) -> Result<Request, Fault>
    ensures { IfOk result (λ request. 0 < request.code.0) }
{
    let payload = Bytes::from_slice(alloc, payload)?;
    let path = place.path(alloc)?;
    Ok(Request {
        code: method.code(),
        path: Some(path),
        format: None,
        accept: None,
        if_match: ETags::new(alloc),
        if_none_match: false,
        payload,
    })
}

/// What this step sends; the step is dropped.
fn sent_by(alloc: Global, step: Step) -> Result<Option<Bytes>, Fault> {
    let datagram = sent(alloc, &step);
    drop(step);
    Ok(datagram?)
}

impl TokenHolder {
    /// The holder of this grant.
    pub fn new(alloc: Global, grant: Grant) -> Result<TokenHolder, Fault> {
        Ok(TokenHolder {
            name: grant.name,
            at: Peer::v4([198, 51, 100, grant.number], 61616),
            client: client(alloc, grant)?,
            draws: Draws::new(grant.number),
        })
    }

    /// Posts its token: the datagram for the lock.
    pub fn posts(&mut self, alloc: Global, now: Moment) -> Result<Option<Bytes>, Fault> {
        let draw = self.draws.draw();
        let step = self.client.exchange(alloc, now, &draw)?;
        sent_by(alloc, step)
    }

    /// Asks for this: the datagram for the lock, or none where it has no context, or waits for an answer still.
    pub fn asks(
        &mut self,
        alloc: Global,
        now: Moment,
        method: Method,
        place: Place,
        payload: &'static [u8],
    ) -> Result<Option<Bytes>, Fault> {
        let request = request(alloc, method, place, payload)?;
        let draw = self.draws.draw();
        let step = self.client.ask::<Suite>(alloc, now, &request, &draw);
        drop(request);
        sent_by(alloc, step?)
    }

    /// These bytes came from the lock: what the holder learns is in the step's `notes.result()`.
    pub fn hears(&mut self, alloc: Global, now: Moment, datagram: &Bytes) -> Result<Step, Fault> {
        let (lock, bytes) = (lock_peer(), datagram.as_slice());
        Ok(self.client.on_datagram::<Suite>(alloc, now, lock, bytes)?)
    }

    /// Time has passed: what is due goes to the lock again.
    pub fn ticks(&mut self, alloc: Global, now: Moment) -> Result<Option<Bytes>, Fault> {
        let step = self.client.on_tick(alloc, now);
        sent_by(alloc, step)
    }
}
