//! The device.
ghost use Rattle.std.specs.Prelude.{◌≡◌, ◌≤◌, ◌↔◌, true, false, [], List, None, Some, length, IfErr, IfNone, IfOk, IfSome, IsSome};
ghost use Rattle.std.specs.FinMap as map;
ghost use Rattle.osc_scope.specs.{Entry, IsScope};
ghost use Rattle.osc_client.specs.{PostFits, acts_at, restarted, core as own_core};
ghost use Rattle.osc_run.specs.{ClientStep, ServerStep};
ghost use Rattle.osc_server.specs.{core, again};
ghost use Rattle.osc_model.specs.{quiet, stands};
ghost use Rattle.osc_model.specs.declared.node.Moment.{Moment as AnyMoment};
ghost use Rattle.osc_authz.specs.{KeepsPlace};
ghost use Rattle.osc_rounds.specs.{IsLawfulServer};
ghost use Rattle.osc_device.specs.Answered.{own_request as own_request_of};
ghost use Rattle.osc_device.specs.Begun.{IsBegun, IsGranted, IsNoDevice, own_claims as own_claims_of};
ghost use Rattle.osc_device.specs.Calls.{HandsOut, HasRuled, HasTicked};
ghost use Rattle.osc_device.specs.Carrying.{Carries, ComesBack, Reaches, asked_at, at_server};
ghost use Rattle.osc_device.specs.Runs.{AllGoOn, restarts};
ghost use Rattle.osc_device.specs.Ruling.{method_of};
ghost use Rattle.osc_device.specs.State.{server_address};

use crate::beginning::{OWN, SERVER, fits, own_claims, own_client, reaches_too_far, server_of};
use crate::calls::{DeviceCalls, nothing, own_request};
use crate::draws::OwnDraws;
use crate::error::NewError;
use crate::laws::{
    a_context_is_made, a_place_is_kept, a_request_is_answered, runs_go_on, runs_go_on_alone,
    runs_keep_their_promises,
};
use crate::own_token::{OwnToken, ServerParts};
use crate::round::Round;
use crate::ruling::{Ruled, Ruling};
use osc_ccm::Ciphers;
use osc_client::Client;
use osc_model::limits::LONGEST_ID;
use osc_model::{Draw, Moment, Path, Peer, Request, Step};
use osc_server::Server;
use osc_tree::Tree;
use osc_world::laws::where_a_world_begins;
use std::alloc::{AllocError, Global};
use std::marker::Model;

/// A server, and the device itself as a client of it.
pub struct Device {
    server: Server,
    own: Client,
}

impl Drop for Device {
    fn drop(self) {
        let Device { server: _, own: _ } = self;
    }
}

impl Model for Device {
    ghost use Rattle.std.specs.Prelude.{◌≡◌, None};
    ghost use Rattle.std.specs.Coded.{codes};
    ghost use Rattle.osc_model.specs.{coded_scope, coded_tree};
    ghost use Rattle.osc_client.specs.{PostFits};
    ghost use Rattle.osc_device.specs.State.{State, server_address};

    ghost Value = { State };

    ghost coded = { Prim.hlevel (codes, coded_scope, coded_tree) };

    ghost view = { λ d. record { server = d.server; own = d.own } };

    ghost invariant = { λ d. (d.own.origin ≡ None) × (d.own.next_hop ≡ server_address) × PostFits d.own };
}

/// Whether a resource is at this path, if there is one.
fn is_there(tree: &Tree, path: &Option<Path>) -> bool
    ensures { result ≡ stands tree.now path.now }
{
    match path {
        Some(path) => has_resource(tree, path),
        None => false,
    }
}

/// Whether a resource is at this path.
fn has_resource(tree: &Tree, path: &Path) -> bool
    ensures { result ≡ map.contains_key tree.now path.now }
{
    tree.get(path).is_some()
}

/// For proofs: what is true of each server. Does nothing.
fn is_lawful(server: &Server)
    ensures { IsLawfulServer server.now }
{
    let _resources = server.tree().len();
    let _desk = server.desk();
}

/// For proofs: each server keeps the place that it is to keep. Does nothing.
fn keeps_its_place(server: &Server)
    ensures { KeepsPlace server.now.desk.rules.reserved server.now.desk.table }
{
    server.desk().keeps_a_place();
}

/// For proofs: how many bytes a draw has. Does nothing.
fn is_drawn(draw: &Draw)
    ensures { length draw.now.0 ≡ 32 }
{
    let _bytes = draw.0.as_slice();
}

impl Device {
    /// A device whose server has these parts, and which holds this token, minted under the server's key. It has no context yet: [`DeviceCalls::open`]
    /// makes one.
    ///
    /// # Errors
    ///
    /// The first that applies: `Id` where the token's id has more than 64 bytes, `Subtrees` where its scope reaches below its paths and the server
    /// refuses that, `Token` where its scope isn't one, its claims have more than
    /// 65535 bytes, or its secret doesn't have 1 to 64, and `TooLong` where its post, which [`DeviceCalls::open`] sends, would be longer than a datagram
    /// may be: 1152 bytes; or `Token` for lack of memory, whatever they are.
    pub fn new<A: Ciphers>(
        alloc: Global,
        parts: ServerParts,
        own: OwnToken,
    ) -> Result<Device, NewError>
        ensures begun { IfOk result (λ device. IsBegun A.is_sealing parts own device) }
        ensures granted { IfOk result (λ device. (entries : List Entry) × IsScope own.scope entries × IsGranted A.is_sealing device (own_claims_of parts own) entries) }
        ensures fits { IfOk result (λ device. PostFits device.own) }
        // Its server keeps a place for its token.
        ensures place { IfOk result (λ device. device.server.desk.rules.reserved ≡ Some own.id) }
        ensures refused { IfErr result (λ error. IsNoDevice parts own error) }
    {
        where_a_world_begins::<A>();
        fits(&parts, &own);
        if own.id.len() > LONGEST_ID {
            return Err(NewError::Id);
        }
        let far = reaches_too_far(alloc, &parts, &own)?;
        if far {
            return Err(NewError::Subtrees);
        }
        let key = parts.key;
        let iv = own.iv;
        let audience = parts.audience.clone()?;
        let id = own.id.clone()?;
        let claims = own_claims(alloc, audience, own);
        let client = own_client::<A>(alloc, &claims, &key, &iv)?;
        if !client.post_fits() {
            return Err(NewError::TooLong);
        }
        let server = server_of(alloc, parts, id)?;
        Ok(Device {
            server,
            own: client,
        })
    }

    /// The server, with its resources.
    pub fn server(&self) -> &Server
        ensures { result.now ≡ self.now.server }
    {
        &self.server
    }

    /// The device as a client of its server.
    pub fn own(&self) -> &Client
        ensures { result.now ≡ self.now.own }
    {
        &self.own
    }

    /// The time has come for what is due by this moment: the server lets its notes go whose lifetime has ended, and what the device began
    /// and nobody acknowledged goes to the server again. Memory is taken for that alone: without it that is lost, as on the way, and what is
    /// over ends all the same.
    pub fn on_tick<A: Ciphers>(&mut self, alloc: Global, now: Moment, server_draw: &Draw) -> Round
        ensures { HasTicked A.is_sealing self.old now server_draw.now result self.new }
    {
        runs_go_on::<A>();
        runs_keep_their_promises::<A>();
        let _let_go = self.server.on_tick(alloc, now);
        let begun = self.own.on_tick(alloc, now);
        self.carry::<A>(alloc, now, begun, server_draw)
    }

    /// The first moment at which a tick does anything for the device itself, in ms, or none where no tick would: the server has nothing
    /// that is ever due.
    pub fn next_deadline(&self) -> Option<u64>
        ensures some { IfSome result (λ deadline. (now : AnyMoment) → (acts_at self.now.own now ≡ true) ↔ (deadline ≤ now.ms)) }
        ensures none { IfNone result ((now : AnyMoment) → acts_at self.now.own now ≡ false) }
    {
        self.own.next_deadline()
    }

    /// Starts again: the server as [`Server::restart`] says, and the device without its context, so that it posts its token again.
    pub fn restart(&mut self)
        ensures server { self.new.server ≡ again self.old.server }
        ensures own { self.new.own ≡ restarted self.old.own }
        ensures kinds { ((now : AnyMoment) → ServerStep (core self.old.server) now quiet (core self.new.server))
            × ClientStep false (own_core self.old.own) quiet (own_core self.new.own) }
        ensures run { (now : AnyMoment) → AllGoOn self.old restarts self.new }
    {
        runs_go_on_alone();
        self.server.restart();
        self.own.restart();
    }

    /// Gives back what the server keeps in hand.
    pub(crate) fn give_back(&mut self)
        ensures { self.new ≡ self.old }
    {
        self.server.give_back();
    }

    /// Takes it again, where it can be had.
    pub(crate) fn take_in_hand(&mut self, alloc: Global)
        ensures { self.new ≡ self.old }
    {
        self.server.take_in_hand(alloc);
    }

    /// Rules so with the memory that there is.
    fn rule_once<A: Ciphers>(
        &mut self,
        alloc: Global,
        now: Moment,
        ruling: Ruling,
        id: &[u8],
        draws: OwnDraws,
    ) -> Result<Option<Ruled>, AllocError>
        ensures { HandsOut
            (HasRuled A.is_sealing A.TAG self.old id.now (λ path. asked_at now draws (own_request_of (method_of ruling) path None [])))
            (IsSome self.old.server.desk.rules.revoked) self.old result self.new }
    {
        match self.server.desk().revocation_of(alloc, id)? {
            Some(path) => {
                let request = own_request(alloc, ruling.method(), path, nothing(alloc));
                let round = self.ask::<A>(alloc, now, &request, draws)?;
                let is_revoked = is_there(self.server.tree(), &request.path);
                Ok(Some(Ruled { round, is_revoked }))
            }
            None => Ok(None),
        }
    }

    /// Hands what was sent to the server, and what that answers to the device.
    fn carry<A: Ciphers>(
        &mut self,
        alloc: Global,
        now: Moment,
        begun: Step,
        server_draw: &Draw,
    ) -> Round
        ensures carries { Carries A.is_sealing self.old now server_draw.now result self.new }
        ensures begun { result.begun ≡ begun }
    {
        let served = self.served::<A>(alloc, now, &begun, server_draw);
        let learnt = self.learnt::<A>(alloc, now, &served);
        Round {
            begun,
            served,
            learnt,
        }
    }

    /// The server's step for what was sent, if anything was and there is memory for it.
    fn served<A: Ciphers>(
        &mut self,
        alloc: Global,
        now: Moment,
        begun: &Step,
        server_draw: &Draw,
    ) -> Option<Step>
        ensures served { Reaches A.is_sealing self.old.server (at_server now server_draw.now begun.now.out) result self.new.server }
        ensures own { self.new.own ≡ self.old.own }
    {
        match begun.out.as_slice() {
            [datagram] => self
                .server
                .on_datagram::<A>(alloc, now, OWN, datagram.bytes.as_slice(), server_draw)
                .ok(),
            _ => None,
        }
    }

    /// The device's step for what came back, if anything did and there is memory for it.
    fn learnt<A: Ciphers>(
        &mut self,
        alloc: Global,
        now: Moment,
        served: &Option<Step>,
    ) -> Option<Step>
        ensures learnt { ComesBack A.is_sealing self.old.own now served.now result self.new.own }
        ensures server { self.new.server ≡ self.old.server }
    {
        let Some(step) = served else {
            return None;
        };
        match step.out.as_slice() {
            [datagram] => self
                .own
                .on_datagram::<A>(alloc, now, SERVER, datagram.bytes.as_slice())
                .ok(),
            _ => None,
        }
    }
}

impl DeviceCalls for Device {
    type Error = AllocError;

    ghost state = { λ device. device };

    ghost yields = { λ T Makes Lacks old result new. HandsOut Makes Lacks old result new };

    fn on_datagram<A: Ciphers>(
        &mut self,
        alloc: Global,
        now: Moment,
        from: Peer,
        bytes: &[u8],
        draw: &Draw,
    ) -> Result<Step, AllocError> {
        runs_go_on_alone();
        self.server.on_datagram::<A>(alloc, now, from, bytes, draw)
    }

    fn open<A: Ciphers>(
        &mut self,
        alloc: Global,
        now: Moment,
        draws: OwnDraws,
    ) -> Result<Round, AllocError> {
        a_context_is_made::<A>();
        a_place_is_kept::<A>();
        runs_go_on::<A>();
        keeps_its_place(&self.server);
        is_drawn(&draws.server);
        is_drawn(&draws.own);
        let begun = self.own.exchange(alloc, now, &draws.own)?;
        self.own.has_lawful_parts();
        Ok(self.carry::<A>(alloc, now, begun, &draws.server))
    }

    fn ask<A: Ciphers>(
        &mut self,
        alloc: Global,
        now: Moment,
        request: &Request,
        draws: OwnDraws,
    ) -> Result<Round, AllocError> {
        a_request_is_answered::<A>();
        runs_go_on::<A>();
        runs_keep_their_promises::<A>();
        is_lawful(&self.server);
        let begun = self.own.ask::<A>(alloc, now, request, &draws.own)?;
        self.own.has_lawful_parts();
        Ok(self.carry::<A>(alloc, now, begun, &draws.server))
    }

    fn rule<A: Ciphers>(
        &mut self,
        alloc: Global,
        now: Moment,
        ruling: Ruling,
        id: &[u8],
        draws: OwnDraws,
    ) -> Result<Option<Ruled>, AllocError> {
        self.give_back();
        let found = self.rule_once::<A>(alloc, now, ruling, id, draws);
        self.take_in_hand(alloc);
        found
    }
}
