//! Where a world begins.
ghost use Rattle.std.specs.Prelude.{◌≡◌, ◌<◌, ◌^◌, ◌++◌, ℕ, List, [], ◌∷◌, IfErr, IfOk, None, OnErr, OnOk, Some, false, length, true};
ghost use Rattle.std.specs.List.{list_any};
ghost use Rattle.std.specs.Option.{ForSome};
ghost use Rattle.osc_authz.specs.{IsLawful, IsRefusal};
ghost use Rattle.osc_model.specs.{same_peer};
ghost use Rattle.osc_run.specs.{IsReached, IsTextOf};
ghost use Rattle.osc_token.specs.{FitTheirTypes};
ghost use Rattle.osc_world.specs.Nodes.{StandApart, is_among};
ghost use Rattle.osc_world.specs.Refusals.{IsFree, Refuses, RefusesPlace};
ghost use Rattle.osc_world.specs.Starts.{Enrols, IsEnrolled, begun, new_proxy, places_of};
ghost use Rattle.osc_world.specs.Starting.{AreParts};
ghost use Rattle.osc_world.specs.Worlds.{run_of};

use crate::error::{AdmitError, PlaceError};
use crate::nodes::{Nodes, Placed};
use crate::world::World;
use osc_authz::{ContextRules, DeskParts, EnrollError, Enrolled, ServerDesk, enroll};
use osc_ccm::Ciphers;
use osc_client::{Client, Route};
use osc_model::Peer;
use osc_model::laws::one_peer;
use osc_protect::TokenCipher;
use osc_proxy::{Proxy, Targets};
use osc_run::{Grant, Minted, kinds};
use osc_scope::Scope;
use osc_server::Server;
use osc_token::{Audience, Claims, InputMaterial};
use osc_tree::Tree;
use std::alloc::{AllocError, Global};
use std::marker::Model;

/// A client that is to be enrolled: where it is, the way to the server, what its token claims, and the IV under which the token is
/// sealed.
#[derive(Drop)]
pub struct NewHolder {
    /// Its address.
    pub at: Peer,
    /// To whom it sends, and the server behind it where that is a proxy.
    pub way: Route,
    /// What its token claims.
    pub claims: Claims,
    /// The IV under which its token is sealed; one IV is used for one token alone.
    pub iv: [u8; 13],
}

/// A world before its first event: the resources, what needs no protection, the key that the issuer of tokens and the server share, for
/// whom tokens are, the former key, what the server rules for its contexts, where it is, the clients that were enrolled,
/// and the proxies that were added. No two nodes share an address.
#[derive(Drop)]
pub struct Start {
    first: Tree,
    open_scope: Scope,
    key: [u8; 16],
    old_key: Option<[u8; 16]>,
    audience: Audience,
    rules: ContextRules,
    server_at: Peer,
    minted: Vec<Minted>,
    clients: Vec<Placed<Client>>,
    proxies: Vec<Placed<Proxy>>,
}

/// The parts of a world before its first event, for a network that isn't simulated: the grants with the texts of their tokens, and the
/// nodes.
#[derive(Drop)]
pub struct Parts {
    /// The grants.
    pub minted: Vec<Minted>,
    /// The server, which is where the start said, the clients, in the order in which they were enrolled, and the proxies, in the order
    /// in which they were added.
    pub nodes: Nodes,
}

impl Model for Start {
    ghost use Rattle.std.specs.Coded.{codes};
    ghost use Rattle.std.specs.List.{IsDistinct};
    ghost use Rattle.osc_model.specs.declared.algorithm.Algorithm.TheVariants.{EightByteTag};
    ghost use Rattle.osc_model.specs.{coded_scope, coded_tree, same_peer};
    ghost use Rattle.osc_run.specs.{IsTextOf};
    ghost use Rattle.osc_token.specs.{FitTheirTypes};
    ghost use Rattle.osc_world.specs.Nodes.{places};
    ghost use Rattle.osc_world.specs.Starts.{AreEnrolled, Beginning};

    ghost Value = { Beginning };

    ghost coded = { Prim.hlevel (codes, coded_scope, coded_tree) };

    ghost view = { λ s. record {
      first = s.first;
      open_scope = s.open_scope;
      key = s.key;
      old_key = s.old_key;
      audience = s.audience;
      rules = s.rules;
      server_at = s.server_at;
      minted = s.minted.items;
      clients = s.clients.items;
      proxies = s.proxies.items;
    } };

    ghost invariant = { λ s. AreEnrolled s.minted.items s.clients.items × IsDistinct same_peer (places s.server_at s.clients.items s.proxies.items) };
}

impl Start {
    /// A world with these resources, and with no old key, no rules for contexts, no client and no proxy yet; takes no memory.
    pub fn new(
        alloc: Global,
        first: Tree,
        open_scope: Scope,
        key: [u8; 16],
        audience: Audience,
        server_at: Peer,
    ) -> Start
        ensures { result ≡ record { first = first; open_scope = open_scope; key = key; old_key = None; audience = audience; rules = record { revoked = None; seconds = None; remembered = 0; reserved = None; subtrees = true; answers = false }; server_at = server_at; minted = []; clients = []; proxies = [] } }
    {
        Start {
            first,
            open_scope,
            key,
            old_key: None,
            audience,
            rules: ContextRules::none(),
            server_at,
            minted: Vec::new(alloc),
            clients: Vec::new(alloc),
            proxies: Vec::new(alloc),
        }
    }

    /// From now on the server opens a token that doesn't open under its key under this one, its former key.
    pub fn keep_old_key(&mut self, key: [u8; 16])
        ensures { self.new ≡ record self.old { old_key = Some key } }
    {
        self.old_key = Some(key);
    }

    /// From now on the server rules this for its contexts.
    pub fn rule_contexts(&mut self, rules: ContextRules)
        ensures { self.new ≡ record self.old { rules = rules } }
    {
        self.rules = rules;
    }

    /// Whether a node is there.
    pub fn is_taken(&self, at: Peer) -> bool
        ensures { result ≡ is_among at (places_of self.now) }
    {
        self.server_at == at || stands_at(&self.clients, at) || forwards_at(&self.proxies, at)
    }

    /// Enrolls a client: its claims are a grant, of which it gets the token. Its number is that of the clients before it.
    ///
    /// # Errors
    ///
    /// `AddressTaken` where a node is at its address; else `Refused`, for the reason that [`osc_authz::enroll`] has, or for lack of memory,
    /// whatever its claims are. Then nothing has changed.
    pub fn enroll<A: Ciphers>(&mut self, alloc: Global, holder: NewHolder) -> Result<(), AdmitError>
        ensures enrolled { OnOk result (Enrols A.is_sealing self.old holder self.new) }
        ensures free { OnOk result (IsFree self.old holder.at) }
        ensures lawful { OnOk result (IsLawful holder.claims) }
        ensures refused { IfErr result (λ error. Refuses self.old holder error) }
        ensures err { OnErr result (self.new ≡ self.old) }
    {
        if self.is_taken(holder.at) {
            return Err(AdmitError::AddressTaken);
        }
        self.admit::<A>(alloc, holder)?;
        Ok(())
    }

    /// The same of a client whose address is free.
    fn admit<A: Ciphers>(&mut self, alloc: Global, holder: NewHolder) -> Result<(), EnrollError>
        requires { IsFree self.old holder.at }
        ensures enrolled { OnOk result (Enrols A.is_sealing self.old holder self.new) }
        ensures lawful { OnOk result (IsLawful holder.claims) }
        ensures refused { IfErr result (λ error. IsRefusal holder.claims error) }
        ensures err { OnErr result (self.new ≡ self.old) }
    {
        one_peer();
        self.minted.reserve(1)?;
        self.clients.reserve(1)?;
        let number = self.clients.len();
        let (minted, placed) = enrolled::<A>(alloc, &self.key, number, holder)?;
        self.minted.push_reserved(minted);
        self.clients.push_reserved(placed);
        Ok(())
    }

    /// Adds a proxy that is there and forwards to these targets. Its number is that of the proxies before it.
    ///
    /// # Errors
    ///
    /// `AddressTaken` where a node is there, `Memory` where none does and there was no memory. Then nothing has changed.
    pub fn add_proxy(&mut self, alloc: Global, at: Peer, targets: Targets) -> Result<(), PlaceError>
        ensures added { OnOk result (self.new ≡ record self.old { proxies = self.old.proxies ++ new_proxy at targets ∷ [] }) }
        ensures free { OnOk result (IsFree self.old at) }
        ensures refused { IfErr result (λ error. RefusesPlace self.old at error) }
        ensures err { OnErr result (self.new ≡ self.old) }
    {
        if self.is_taken(at) {
            return Err(PlaceError::AddressTaken);
        }
        self.add(alloc, at, targets)?;
        Ok(())
    }

    /// The same where the address is free.
    fn add(&mut self, alloc: Global, at: Peer, targets: Targets) -> Result<(), AllocError>
        requires { IsFree self.old at }
        ensures added { OnOk result (self.new ≡ record self.old { proxies = self.old.proxies ++ new_proxy at targets ∷ [] }) }
        ensures err { OnErr result (self.new ≡ self.old) }
    {
        one_peer();
        self.proxies.reserve(1)?;
        let proxy = Proxy::new(alloc, targets)?;
        self.proxies.push_reserved(Placed { at, node: proxy });
        Ok(())
    }

    /// The world that begins so. Nothing was sent, and nothing happened yet.
    pub fn begin(self, alloc: Global) -> Result<World, AllocError>
        ensures begun { IfOk result (λ world. world ≡ begun self) }
        ensures reached { IfOk result (λ world. IsReached (run_of world)) }
        ensures apart { IfOk result (λ world. StandApart world.nodes) }
    {
        let first = self.first.copy(alloc)?;
        let Parts { minted, nodes } = self.into_parts(alloc)?;
        Ok(World::begun(alloc, minted, first, nodes))
    }

    /// The nodes of the world that begins so, and the grants.
    pub fn into_parts(self, alloc: Global) -> Result<Parts, AllocError>
        ensures { IfOk result (λ parts. AreParts self parts) }
    {
        let Start {
            first,
            open_scope,
            key,
            old_key,
            audience,
            rules,
            server_at,
            minted,
            clients,
            proxies,
        } = self;
        let desk = ServerDesk::of(
            alloc,
            DeskParts {
                key,
                old_key,
                audience,
                rules,
            },
        );
        let server = Server::new(alloc, first, desk, open_scope)?;
        let nodes = Nodes::new(server_at, server, clients, proxies);
        Ok(Parts { minted, nodes })
    }
}

/// Whether one of the clients is there.
fn stands_at(clients: &[Placed<Client>], at: Peer) -> bool
    ensures { result ≡ list_any (λ placed. same_peer placed.at at) clients.now }
{
    clients.iter().any(|placed| placed.at == at)
}

/// Whether one of the proxies does.
fn forwards_at(proxies: &[Placed<Proxy>], at: Peer) -> bool
    ensures { result ≡ list_any (λ placed. same_peer placed.at at) proxies.now }
{
    proxies.iter().any(|placed| placed.at == at)
}

/// The grant of the claims, and the client that holds it.
fn enrolled<A: Ciphers>(
    alloc: Global,
    key: &[u8; 16],
    number: usize,
    holder: NewHolder,
) -> Result<(Minted, Placed<Client>), EnrollError>
    ensures enrolled { IfOk result (λ made. IsEnrolled A.is_sealing key.now number holder made.0 made.1) }
    ensures text { IfOk result (λ made. IsTextOf made.0.grant made.0.text) }
    ensures lawful { OnOk result (IsLawful holder.claims) }
    ensures refused { IfErr result (λ error. IsRefusal holder.claims error) }
{
    kinds::minted_texts();
    fits(&holder.claims);
    let NewHolder {
        at,
        way,
        claims,
        iv,
    } = holder;
    let Enrolled { desk, scope, text } = enroll::<TokenCipher<A>>(alloc, &claims, key, &iv)?;
    let client = Client::new(alloc, desk, way)?;
    let Claims {
        not_before,
        expires,
        material,
        ..
    } = claims;
    let grant = Grant {
        material,
        scope,
        not_before,
        expires,
        holder: number,
    };
    Ok((Minted { grant, text }, Placed { at, node: client }))
}

/// For proofs: the parts of claims are as long as their types allow. Does nothing.
fn fits(claims: &Claims)
    ensures { FitTheirTypes claims.now }
{
    let _ = claims.audience.as_str();
    let _ = claims.scope.len();
    seconds_fit(claims.not_before);
    seconds_fit(claims.expires);
    material_fits(&claims.material);
}

/// The same of input material.
fn material_fits(material: &InputMaterial)
    ensures id { length material.now.id < 2 ^ 64 }
    ensures secret { length material.now.secret < 2 ^ 64 }
    ensures salt { length material.now.salt < 2 ^ 64 }
    ensures id_context { ForSome material.now.id_context (λ bytes. length bytes < 2 ^ 64) }
{
    let _ = material.id.len();
    let _ = material.secret.len();
    let _ = material.salt.len();
    if let Some(id_context) = &material.id_context {
        let _ = id_context.len();
    }
}

/// The same of a number of seconds.
fn seconds_fit(seconds: Option<u64>)
    ensures { ForSome seconds (λ s. s < 2 ^ 64) }
{
    if let Some(seconds) = seconds {
        let _ = seconds;
    }
}
