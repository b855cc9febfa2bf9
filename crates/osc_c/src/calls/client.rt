//! A client by calls of plain numbers and bytes.
ghost use Rattle.std.specs.Prelude.{◌≡◌, ◌<◌, IfErr, IfOk, None};
ghost use Rattle.osc_c.specs.Ends.{Ends};
ghost use Rattle.osc_c.specs.Client.{AnswersOrReads, AskedAt, AskedBy, BegunAt, BegunBy, HeardAt, HeardBy, IsBegun, IsFresh, IsNewClient, TellsContext, TellsDeadline, TickedAt, TickedBy};
ghost use Rattle.osc_c.specs.Arguments.{IsUnfit};
ghost use Rattle.osc_c.specs.Given.{grant_given, request_given};
ghost use Rattle.osc_c.specs.Granted.{FitsClient};
ghost use Rattle.osc_c.specs.Last.{HandsOut, nothing};
ghost use Rattle.osc_c.specs.Results.{TellsResult, learnt_in};
ghost use Rattle.osc_c.specs.Plain.{draw_of, peer_of};
ghost use Rattle.osc_client.specs.{restarted};

use crate::calls::arguments::{flag, moment, sized, tell};
use crate::calls::granted;
use crate::calls::last::Last;
use crate::calls::outcome::Outcome;
use crate::calls::plain::{PlainClientSettings, PlainDraw, PlainPeer, PlainRequest, PlainResult};
use crate::calls::requests::request;
use crate::calls::results::tell_result;
use osc_authz::ClientDesk;
use osc_ccm::Ciphers;
use osc_client::{Client, Route};
use osc_model::{Moment, Request};
use std::alloc::{AllocError, Global};

/// A client, and the step that it made last.
pub struct ClientNode {
    /// The client.
    pub client: Client,
    /// Its last step.
    pub last: Last,
}

impl Drop for ClientNode {
    fn drop(self) {
        let ClientNode { client: _, last: _ } = self;
    }
}

impl ClientNode {
    /// A client that was granted this, and reaches its server this way.
    fn of(alloc: Global, desk: ClientDesk, way: Route) -> Result<ClientNode, AllocError>
        ensures { IfOk result (λ node. IsFresh desk way node) }
    {
        Ok(ClientNode {
            client: Client::new(alloc, desk, way)?,
            last: Last::nothing(),
        })
    }

    /// A client that was granted this, and does it this way. What it is made of is judged before memory is taken.
    pub fn new(alloc: Global, settings: &PlainClientSettings<'_>) -> Result<ClientNode, Outcome>
        ensures ok { IfOk result (λ node. IsNewClient (grant_given settings.now) node) }
        ensures err { IfErr result (IsUnfit (FitsClient (grant_given settings.now))) }
    {
        sized(settings.size, size_of::<PlainClientSettings<'_>>())?;
        let alg = granted::algorithm(settings.algorithm)?;
        flag(settings.has_context)?;
        granted::lawful(
            settings.secret.bytes,
            settings.salt.bytes,
            settings.has_context,
            settings.context.bytes,
        )?;
        let way = granted::way(
            alloc,
            &settings.next_hop,
            settings.host.bytes,
            settings.port,
        )?;
        let context = granted::id_context(alloc, settings.has_context, settings.context.bytes)?;
        let desk = granted::desk(
            alloc,
            settings.token.bytes,
            settings.secret.bytes,
            settings.salt.bytes,
            context,
            alg,
        )?;
        Ok(ClientNode::of(alloc, desk, way)?)
    }

    /// Asks for this under protection.
    pub fn ask<A: Ciphers>(
        &mut self,
        alloc: Global,
        now: u64,
        given: &PlainRequest<'_>,
        draw: &PlainDraw,
    ) -> Outcome
        ensures { AskedBy A.is_sealing A.TAG self.old (request_given now given.now draw.now) result self.new }
    {
        let now = match moment(now) {
            Ok(now) => now,
            Err(outcome) => return outcome,
        };
        match request(alloc, given) {
            Ok(request) => self.ask_at::<A>(alloc, now, &request, draw),
            Err(outcome) => outcome,
        }
    }

    /// What the client learnt in its last step.
    pub fn result(&self, learnt: &mut PlainResult, payload: &mut [u8]) -> Outcome
        ensures { TellsResult (learnt_in self.now.last) learnt.old payload.old result learnt.new payload.new }
    {
        match self.last.step() {
            Some(step) => tell_result(&step.notes, learnt, payload),
            None => Outcome::Nothing,
        }
    }

    /// Posts the token. Where it isn't begun, the step tells why.
    pub fn exchange(&mut self, alloc: Global, now: u64, draw: &PlainDraw) -> Outcome
        ensures { BegunBy self.old now (draw_of draw.now) result self.new }
    {
        match moment(now) {
            Ok(now) => self.exchange_at(alloc, now, draw),
            Err(outcome) => outcome,
        }
    }

    /// The same at a moment.
    fn exchange_at(&mut self, alloc: Global, now: Moment, draw: &PlainDraw) -> Outcome
        ensures { Ends self.old result self.new (self.old.client.waiting ≡ None) (BegunAt self.old now (draw_of draw.now) self.new) }
    {
        match self.client.exchange(alloc, now, &draw.draw()) {
            Ok(step) => {
                self.last = Last::of(step);
                Outcome::Done
            }
            Err(_) => Outcome::NoMemory,
        }
    }

    /// Asks for this at a moment. Where it isn't begun, the step tells why.
    fn ask_at<A: Ciphers>(
        &mut self,
        alloc: Global,
        now: Moment,
        request: &Request,
        draw: &PlainDraw,
    ) -> Outcome
        requires { 0 < request.now.code.0 }
        ensures { Ends self.old result self.new (IsBegun A.is_sealing A.TAG self.old request.now (draw_of draw.now)) (AskedAt A.is_sealing A.TAG self.old (record { at = now; draw = draw_of draw.now; request = request.now }) self.new) }
    {
        match self.client.ask::<A>(alloc, now, request, &draw.draw()) {
            Ok(step) => {
                self.last = Last::of(step);
                Outcome::Done
            }
            Err(_) => Outcome::NoMemory,
        }
    }

    /// These bytes came from this peer as one datagram.
    pub fn on_datagram<A: Ciphers>(
        &mut self,
        alloc: Global,
        now: u64,
        from: &PlainPeer,
        bytes: &[u8],
    ) -> Outcome
        ensures { HeardBy A.is_sealing self.old (record { ms = now; from = peer_of from.now; bytes = bytes.now }) result self.new }
    {
        match moment(now) {
            Ok(now) => self.hear::<A>(alloc, now, from, bytes),
            Err(outcome) => outcome,
        }
    }

    /// The same at a moment.
    fn hear<A: Ciphers>(
        &mut self,
        alloc: Global,
        now: Moment,
        from: &PlainPeer,
        bytes: &[u8],
    ) -> Outcome
        ensures { Ends self.old result self.new (AnswersOrReads self.old now (peer_of from.now) bytes.now) (HeardAt A.is_sealing self.old now (peer_of from.now) bytes.now self.new) }
    {
        match self.client.on_datagram::<A>(alloc, now, from.peer(), bytes) {
            Ok(step) => {
                self.last = Last::of(step);
                Outcome::Done
            }
            Err(_) => Outcome::NoMemory,
        }
    }

    /// What is due by now is done, whatever memory there is; where what should have gone out was lost, it says so.
    pub fn on_tick(&mut self, alloc: Global, now: u64) -> Outcome
        ensures { TickedBy self.old now result self.new }
    {
        match moment(now) {
            Ok(now) => Outcome::of_tick(self.tick(alloc, now)),
            Err(outcome) => outcome,
        }
    }

    /// The same at a moment: whether what should have gone out was lost.
    fn tick(&mut self, alloc: Global, now: Moment) -> bool
        ensures { TickedAt self.old now result self.new }
    {
        let step = self.client.on_tick(alloc, now);
        let lost = step.notes.lost();
        self.last = Last::of(step);
        lost
    }

    /// The first moment at which a tick does anything.
    pub fn next_deadline(&self, moment: &mut u64) -> Outcome
        ensures { TellsDeadline self.now moment.old result moment.new }
    {
        tell(self.client.next_deadline(), moment)
    }

    /// Takes the next datagram of the last step.
    pub fn next(&mut self, to: &mut PlainPeer, bytes: &mut [u8], size: &mut usize) -> Outcome
        ensures handed { HandsOut self.old.last (record { to = to.old; bytes = bytes.old; size = size.old }) result self.new.last (record { to = to.new; bytes = bytes.new; size = size.new }) }
        ensures kept { self.new.client ≡ self.old.client }
    {
        self.last.next(to, bytes, size)
    }

    /// The number that its next request takes, where it has a context.
    pub fn context(&self, number: &mut u64) -> Outcome
        ensures { TellsContext self.now number.old result number.new }
    {
        let next = match self.client.context() {
            Some(context) => Some(context.sender().next_number()),
            None => None,
        };
        tell(next, number)
    }

    /// Starts again: it forgets its context and what it heard.
    pub fn restart(&mut self)
        ensures { self.new ≡ record { client = restarted self.old.client; last = nothing } }
    {
        self.client.restart();
        self.last = Last::nothing();
    }
}
