//! The client.
ghost use Rattle.std.specs.Prelude.{◌≡◌, ℕ, ◌≤◌, ◌<◌, ◌↔◌, List, [], ◌∷◌, length, false, true, None, IfOk, IfErr, IfNone, IfSome, IsErr, IsSome, IsTrue, IsFalse, OnOk, OnErr, Some, is_some, option_map};
ghost use Rattle.osc_coap.specs.{Spells, bare, spelling};
ghost use Rattle.osc_coap.specs.declared.kind.Kind.TheVariants.{Confirmable};
ghost use Rattle.osc_model.specs.{quiet, sends};
ghost use Rattle.osc_model.specs.declared.node.Draw.{Draw as AnyDraw};
ghost use Rattle.osc_model.specs.declared.node.Moment.{Moment as AnyMoment};
ghost use Rattle.osc_model.specs.declared.step.ClientResult.TheVariants as result_of;
ghost use Rattle.osc_context.specs.{greatest_number};
ghost use Rattle.osc_authz.specs.{ClientContextState};
ghost use Rattle.osc_message.specs.{fresh, settled, IsSendableHeard, heard as heard_as, Receives, AreSendable, datagram, is_confirmable, rejection, acts};
ghost use Rattle.osc_message.specs.declared.handling.Handling.TheVariants as handling;
ghost use Rattle.osc_message.specs.declared.heard.Heard.TheVariants as heard;
ghost use Rattle.osc_message.specs.declared.received.Received.{Received as AnyReceived};
ghost use Rattle.osc_client.specs.Answering.{CountsInMemory};
ghost use Rattle.osc_client.specs.Hearing.{Begins, Hears, Requests, Ticks};
ghost use Rattle.osc_client.specs.Case.{case_of as case_in, counts as counts_of, is_ended as is_ended_of};
ghost use Rattle.osc_client.specs.Table.{Answers, AnswersNew, Counts, NewTakesMemory, SendsOne, Settles, TakesMemory, refusal as refusal_of};
ghost use Rattle.osc_run.specs.{ClientStep, IsSkipped};
ghost use Rattle.osc_client.specs.State.{core, skipped_to};
ghost use Rattle.osc_protect.specs.{IsDraft};
ghost use Rattle.osc_client.specs.Sending.{IsFree, IsHindered, PostFits, PostIsTooLong, acts_at, is_over_by, opened, plain_of, restarted};
ghost use Rattle.osc_client.specs.Inner.Bounds.{AsksFor, IsLawful, NeedsContext, room_for};
ghost use Rattle.osc_client.specs.Lawful.{IsLawfulClient};
ghost use Rattle.osc_client.specs.Route.{IsLawfulOrigin, through};

use crate::Endpoint;
use crate::answering::{Learnt, learn, outcome_of};
use crate::asking::{AskRoom, SealedAsk, fitting, sealed};
use crate::case::{ResponseCase, case_of, is_ended};
use crate::exchanging::{each_post_fits, post_message};
use crate::proxied::outside_with;
use crate::refusing::refused;
use crate::route::{Origin, Route};
use crate::sending::{acknowledged, refusal};
use crate::waiting::{Awaited, Waiting};
use osc_authz::{ClientContext, ClientDesk};
use osc_ccm::Ciphers;
use osc_coap::{Kind, MessageBuilder};
use osc_context::NUMBER_LIMIT;
use osc_message::laws::{ticks_at_rest, what_is_heard};
use osc_message::{Arrival, Handling, Heard, ReplyRoom, Ticked, noted};
use osc_model::limits::EXCHANGE_LIFETIME;
use osc_model::{
    ClientResult, Code, Datagrams, Draw, Moment, Peer, Request, Step, StepNotes, refusals,
};
use osc_protect::Draft;
use osc_run::kinds;
use std::alloc::{AllocError, Global};
use std::marker::Model;

/// A client: what was granted, the way to the server, its security context, what it waits for, and its message layer.
pub struct Client {
    desk: ClientDesk,
    next_hop: Peer,
    origin: Option<Origin>,
    context: Option<ClientContext>,
    waiting: Option<Waiting>,
    endpoint: Endpoint,
}

impl Drop for Client {
    fn drop(self) {
        let Client {
            desk: _,
            next_hop: _,
            origin: _,
            context: _,
            waiting: _,
            endpoint: _,
        } = self;
    }
}

impl Model for Client {
    ghost use Rattle.osc_client.specs.State.{State};
    ghost use Rattle.osc_client.specs.Inner.Bounds.{HasContext, IsOfGrant, KeepsOwn};

    ghost Value = { State };

    ghost view = { λ c. record { desk = c.desk; next_hop = c.next_hop; origin = c.origin; context = c.context; waiting = c.waiting; endpoint = c.endpoint } };

    ghost invariant = { λ c. KeepsOwn c.next_hop c.waiting c.endpoint.sending × HasContext c.context c.waiting × IsOfGrant c.desk c.context };
}

/// Whether what waits is over, where its message was acknowledged before this tick, or no message is left after it.
fn is_over(now: Moment, acknowledged: bool, none_left: bool, waiting: &Option<Waiting>) -> bool
    ensures { result ≡ is_over_by now acknowledged none_left waiting.now }
{
    match waiting {
        None => false,
        Some(waiting) if acknowledged => waiting.until <= now.ms,
        Some(_) => none_left,
    }
}

// For proofs: what the type of an origin says.
fn has_lawful_origin(origin: &Option<Origin>)
    ensures { IfSome origin.now IsLawfulOrigin }
{
    if let Some(origin) = origin {
        let _host = origin.host();
        let _port = origin.port();
    }
}

// For proofs: how long the token is of what waits.
fn has_whole_token(waiting: &Option<Waiting>)
    ensures { IfSome waiting.now (λ waiting. length waiting.token ≡ 8) }
{
    if let Some(waiting) = waiting {
        is_whole(&waiting.token);
    }
}

// For proofs: how many bytes a token has.
fn is_whole(token: &[u8; 8])
    ensures { length token.now ≡ 8 }
{
    let _bytes = token.as_slice();
}

impl Client {
    /// A client that was granted this, and reaches its server this way; it has no context and waits for nothing.
    pub fn new(alloc: Global, desk: ClientDesk, way: Route) -> Result<Client, AllocError>
        ensures { IfOk result (λ client. client ≡ record { desk = desk; next_hop = way.next_hop; origin = way.origin; context = None; waiting = None; endpoint = fresh }) }
    {
        let Route { next_hop, origin } = way;
        Ok(Client {
            desk,
            next_hop,
            origin,
            context: None,
            waiting: None,
            endpoint: Endpoint::new(alloc)?,
        })
    }

    /// To whom it sends.
    pub fn next_hop(&self) -> Peer
        ensures { result ≡ self.now.next_hop }
    {
        self.next_hop
    }

    /// What stays outside of a protected request of the client (RFC 8613 section 4.2): a confirmable POST with this message ID and this
    /// token, and with the options by which a proxy finds the server, where there is one.
    pub fn outside(&self, id: u16, token: &[u8; 8]) -> MessageBuilder
        ensures { result ≡ through self.now.origin (bare Confirmable 2 id token.now) }
    {
        outside_with(&self.origin, id, token)
    }

    /// Its security context, if it has one.
    pub fn context(&self) -> Option<&ClientContext>
        ensures { option_map (λ context. context.now) result ≡ self.now.context }
    {
        self.context.as_ref()
    }

    /// Raises the number that the context takes next to this one; a lower one changes nothing, and so does any without a context.
    /// Takes no memory.
    pub fn skip_to(&mut self, number: u64)
        ensures skipped { self.new ≡ skipped_to number self.old }
        ensures kind { IsSkipped (core self.old) (core self.new) }
    {
        if let Some(context) = &mut self.context {
            context.skip_to(number);
        }
    }

    /// Whether an exchange or a request waits for its answer.
    pub fn is_waiting(&self) -> bool
        ensures { result ≡ is_some self.now.waiting }
    {
        self.waiting.is_some()
    }

    /// For proofs: what is true of each client. Does nothing.
    pub fn has_lawful_parts(&self)
        ensures { IsLawfulClient self.now }
    {
        has_lawful_origin(&self.origin);
        has_whole_token(&self.waiting);
        let _desk = &self.desk;
    }

    /// How many messages of its own are open: outstanding, or waiting.
    pub fn open_messages(&self) -> usize
        ensures { result ≡ length self.now.endpoint.sending }
    {
        self.endpoint.open_messages()
    }

    /// Whether the post of its token fits a datagram, whatever is drawn for it. Where it doesn't, no [`Client::exchange`] begins: each is refused
    /// by 14, or by 17. Takes no memory.
    pub fn post_fits(&self) -> bool
        ensures fits { IsTrue result ↔ PostFits self.now }
        ensures too_long { IsFalse result ↔ PostIsTooLong self.now }
    {
        each_post_fits(&self.origin, &self.desk)
    }

    /// Begins an exchange: posts the token, a drawn nonce and the recipient ID that it offers to authz-info. Refused, with nothing
    /// changed, by 17 where something is open and by 14 where the post is longer than a datagram may be.
    pub fn exchange(&mut self, alloc: Global, now: Moment, draw: &Draw) -> Result<Step, AllocError>
        ensures begun { IfOk result (λ step. Begins self.old now draw.now step self.new) }
        ensures kind { IfOk result (λ step. ClientStep false (core self.old) step.notes (core self.new)) }
        ensures err { OnErr result (self.new ≡ self.old) }
        // What is busy is refused without memory.
        ensures needs_memory { OnErr result (self.old.waiting ≡ None) }
    {
        kinds::exchanges_that_start();
        if self.waiting.is_some() {
            return Ok(refused(alloc, refusals::BUSY));
        }
        let begun = self.desk.start(self.context.as_ref(), draw);
        let mut body = Vec::new(alloc);
        self.desk.write_post(alloc, &begun, &mut body)?;
        let id = self.endpoint.own_id(draw);
        let Ok(post) = post_message(&self.origin, id, &draw.token(), &body) else {
            return Ok(refused(alloc, refusals::DATAGRAM_TOO_LONG));
        };
        let room = ReplyRoom::new(alloc, post.bytes().len())?;
        let nonce = *begun.nonce1();
        let out = self.open(room, now, draw, &post, Awaited::Exchange(begun));
        Ok(Step {
            out,
            notes: StepNotes::quiet().with_drawn(nonce),
        })
    }

    /// Asks for this: protects the request under the context's next number, and sends it. Refused, with nothing changed, by 17 where
    /// something is open, by 22 without a context, by 18 once its numbers are used up, and by 14 where the datagram would be
    /// longer than one may be.
    pub fn ask<A: Ciphers>(
        &mut self,
        alloc: Global,
        now: Moment,
        request: &Request,
        draw: &Draw,
    ) -> Result<Step, AllocError>
        requires { 0 < request.now.code.0 }
        ensures asked { IfOk result (λ step. Requests A.is_sealing A.TAG self.old (record { at = now; draw = draw.now; request = request.now }) step self.new) }
        ensures kind { IfOk result (λ step. ClientStep false (core self.old) step.notes (core self.new)) }
        ensures err { OnErr result (self.new ≡ self.old) }
        // What hinders a request is told without memory.
        ensures needs_memory { OnErr result ((context : ClientContextState) × IsFree A.is_sealing A.TAG self.old request.now draw.now context) }
    {
        let mut draft = Draft::new();
        let room = match self.prepared::<A>(alloc, request, draw, &mut draft)? {
            Ok(room) => room,
            Err(number) => return Ok(refused(alloc, number)),
        };
        let context = self.context.as_mut().unwrap();
        let SealedAsk {
            note,
            ask,
            datagram,
        } = sealed::<A>(context, room, &mut draft);
        let out = self.open(datagram, now, draw, &draft.message, Awaited::Ask(ask));
        Ok(Step {
            out,
            notes: StepNotes::quiet().with_seal(note),
        })
    }

    /// Writes the request, and takes the memory for it; or answers the number of what hinders it.
    #[inline(never)]
    fn prepared<A: Ciphers>(
        &self,
        alloc: Global,
        request: &Request,
        draw: &Draw,
        draft: &mut Draft,
    ) -> Result<Result<AskRoom, u8>, AllocError>
        requires { 0 < request.now.code.0 }
        ensures free { IfOk result (λ prepared. IfOk prepared (λ room. (context : ClientContextState)
            × IsFree A.is_sealing A.TAG self.now request.now draw.now context
            × IsDraft A.TAG context.name context.next (plain_of self.now draw.now request.now) draft.new
            × (room ≡ room_for A.TAG context.name context.next (plain_of self.now draw.now request.now)))) }
        ensures hindered { IfOk result (λ prepared. IfErr prepared (λ number. IsHindered A.is_sealing A.TAG self.now request.now draw.now number)) }
        ensures needs_memory { IsErr result → (context : ClientContextState) × IsFree A.is_sealing A.TAG self.now request.now draw.now context }
    {
        if self.waiting.is_some() {
            return Ok(Err(refusals::BUSY));
        }
        let Some(context) = &self.context else {
            return Ok(Err(refusals::NO_CONTEXT));
        };
        if context.sender().next_number() > NUMBER_LIMIT {
            return Ok(Err(refusals::EXHAUSTED));
        }
        let id = self.endpoint.own_id(draw);
        match fitting::<A>(context, &self.origin, id, &draw.token(), request, draft) {
            Some(size) => Ok(Ok(AskRoom::new(alloc, context, size)?)),
            None => Ok(Err(refusals::DATAGRAM_TOO_LONG)),
        }
    }

    /// Sends a confirmable message, for which there is room, and waits for what it opens; takes no memory.
    fn open(
        &mut self,
        room: ReplyRoom,
        now: Moment,
        draw: &Draw,
        message: &MessageBuilder,
        what: Awaited,
    ) -> Datagrams
        requires idle { self.old.waiting ≡ None }
        requires room { length (spelling message.now) ≤ room }
        requires context { NeedsContext self.old.context what }
        requires lawful { IsLawful what }
        ensures sent { result ≡ datagram self.old.next_hop message.now ∷ [] }
        ensures opened { self.new ≡ opened self.old now draw.now message.now what }
        ensures spelled { Spells (spelling message.now) message.now }
        ensures fits { AreSendable result }
    {
        let (out, kept) = room.fill(self.next_hop, message.bytes());
        let id = self.endpoint.take_id(draw);
        self.endpoint
            .send(now, self.next_hop, id, draw, kept)
            .unwrap();
        self.waiting = Some(Waiting {
            token: draw.token(),
            id,
            until: now.ms + EXCHANGE_LIFETIME,
            what,
        });
        out
    }

    /// These bytes came from this peer at this moment as one datagram: the step that answers them. What is sent is at most one
    /// datagram, to that peer: a Reset, an acknowledgement, a refusal, or what answered the same message before. The outcome of an
    /// answer that counts is in the step's notes. Without memory for it an `AllocError`; then nothing has changed.
    pub fn on_datagram<A: Ciphers>(
        &mut self,
        alloc: Global,
        now: Moment,
        from: Peer,
        bytes: &[u8],
    ) -> Result<Step, AllocError>
        ensures heard { IfOk result (λ step. (draw : AnyDraw) → Hears A.is_sealing self.old (record { at = now; from = from; draw = draw; what = bytes.now }) step self.new) }
        ensures sent { IfOk result (λ step. SendsOne from step.out) }
        ensures kind { IfOk result (λ step. ClientStep false (core self.old) step.notes (core self.new)) }
        ensures err { OnErr result (self.new ≡ self.old) }
        // What is neither answered nor read takes no memory.
        ensures needs_memory { OnErr result ((received : AnyReceived) × Receives bytes.now received
            × TakesMemory self.old from (heard_as self.old.endpoint.seen now from received)) }
    {
        what_is_heard();
        kinds::exchanges_that_make();
        let heard = self.endpoint.on_datagram(alloc, now, from, bytes)?;
        self.answer::<A>(alloc, now, from, heard)
    }

    /// What is sent for what is heard, and what is kept after it.
    fn answer<A: Ciphers>(
        &mut self,
        alloc: Global,
        now: Moment,
        from: Peer,
        heard: Heard<'_>,
    ) -> Result<Step, AllocError>
        requires { IsSendableHeard heard }
        ensures answered { IfOk result (λ step. (draw : AnyDraw) (bytes : List ℕ) → Answers A.is_sealing self.old (record { at = now; from = from; draw = draw; what = bytes }) heard.entry step self.new) }
        ensures err { OnErr result (self.new ≡ self.old) }
        ensures fits { IfOk result (λ step. AreSendable step.out) }
        ensures needs_memory { OnErr result (TakesMemory self.old from heard.entry) }
    {
        match heard {
            Heard::Alone(out) => Ok(Step::sending(out)),
            Heard::Empty(kind, id) => Ok(self.settle_empty(alloc, now, from, kind, id)),
            Heard::Message(message) => {
                // No random bytes are used.
                let draw = Draw([0; 32]);
                let came = Arrival {
                    at: now,
                    from,
                    draw: &draw,
                    message,
                };
                self.answer_new::<A>(alloc, came)
            }
        }
    }

    /// What is sent for a new message, and what is kept after it.
    fn answer_new<A: Ciphers>(
        &mut self,
        alloc: Global,
        came: Arrival<'_>,
    ) -> Result<Step, AllocError>
        ensures answered { IfOk result (λ step. AnswersNew A.is_sealing self.old came.entry (case_in self.old.next_hop came.entry.from self.old.waiting came.entry.what) step self.new) }
        ensures err { OnErr result (self.new ≡ self.old) }
        ensures fits { IfOk result (λ step. AreSendable step.out) }
        ensures needs_memory { OnErr result (NewTakesMemory self.old.waiting came.entry.what (case_in self.old.next_hop came.entry.from self.old.waiting came.entry.what)) }
    {
        match case_of(self.next_hop, came.from, &self.waiting, &came.message) {
            ResponseCase::Refused => self.refuse(alloc, came),
            ResponseCase::Unused => self.reject(alloc, came),
            ResponseCase::Counted => self.count::<A>(alloc, came),
        }
    }

    /// Settles what an empty acknowledgement or Reset names; a Reset ends it.
    fn settle_empty(&mut self, alloc: Global, now: Moment, from: Peer, kind: Kind, id: u16) -> Step
        ensures settled { Settles (is_ended_of self.old.next_hop from kind id self.old.waiting) self.old (settled self.old.endpoint now from (heard.Empty kind id) handling.Dropped) result self.new }
        ensures silent { result.out ≡ [] }
    {
        let is_ended = is_ended(self.next_hop, from, kind, id, &self.waiting);
        self.endpoint.settle_empty(now, from, kind, id);
        if is_ended {
            self.waiting = None;
            return Step {
                out: Datagrams::new(alloc),
                notes: StepNotes::quiet().with_result(ClientResult::Unverified(Code(0))),
            };
        }
        Step::sending(Datagrams::new(alloc))
    }

    /// Refuses a request with a critical option that isn't recognised, and notes it for a repeat.
    fn refuse(&mut self, alloc: Global, came: Arrival<'_>) -> Result<Step, AllocError>
        ensures sent { IfOk result (λ step. step ≡ sends (datagram came.entry.from (refusal_of came.entry.what) ∷ [])) }
        ensures kept { OnOk result (self.new ≡ record self.old { endpoint = settled self.old.endpoint came.entry.at came.entry.from (heard.Message came.entry.what) (handling.Answered (Some (spelling (refusal_of came.entry.what)))) }) }
        ensures fits { IfOk result (λ step. AreSendable step.out) }
        ensures err { OnErr result (self.new ≡ self.old) }
    {
        let Arrival {
            at,
            from,
            message,
            ..
        } = came;
        let (out, bytes) = noted(alloc, from, &refusal(&message))?;
        self.endpoint.settle(
            at,
            from,
            &Heard::Message(message),
            Handling::Answered(Some(bytes)),
        );
        Ok(Step::sending(out))
    }

    /// Rejects a message that the client has no use for, where it is confirmable, and else ignores it; an acknowledgement acknowledges all the
    /// same.
    fn reject(&mut self, alloc: Global, came: Arrival<'_>) -> Result<Step, AllocError>
        ensures sent { IfOk result (λ step. step ≡ sends (rejection came.entry.from came.entry.what.kind came.entry.what.id)) }
        ensures kept { OnOk result (self.new ≡ record self.old { endpoint = settled self.old.endpoint came.entry.at came.entry.from (heard.Message came.entry.what) handling.Dropped }) }
        ensures fits { IfOk result (λ step. AreSendable step.out) }
        ensures err { OnErr result (self.new ≡ self.old) }
        ensures needs_memory { OnErr result (is_confirmable came.entry.what.kind ≡ true) }
    {
        let Arrival {
            at,
            from,
            message,
            ..
        } = came;
        let step = self.endpoint.reject(alloc, at, from, message)?;
        Ok(step)
    }

    /// The outcome of a response that counts.
    fn count<A: Ciphers>(&mut self, alloc: Global, came: Arrival<'_>) -> Result<Step, AllocError>
        requires { counts_of self.old.next_hop came.from came.what self.old.waiting ≡ true }
        ensures answered { IfOk result (λ step. Counts A.is_sealing self.old came.entry step self.new) }
        ensures fits { IfOk result (λ step. AreSendable step.out) }
        ensures err { OnErr result (self.new ≡ self.old) }
        ensures needs_memory { OnErr result (CountsInMemory self.old.waiting came.entry.what) }
    {
        let Arrival {
            at,
            from,
            message,
            ..
        } = came;
        let (out, bytes) = acknowledged(alloc, from, &message)?;
        let waiting = self.waiting.take().unwrap();
        let id = waiting.id;
        let Learnt { outcome, waiting } = outcome_of::<A>(
            alloc,
            &self.desk,
            &self.context,
            waiting,
            &message,
        );
        self.waiting = waiting;
        match outcome {
            Ok(outcome) => {
                let notes = learn(&mut self.context, outcome);
                self.endpoint.settle(
                    at,
                    from,
                    &Heard::Message(message),
                    Handling::Counted(id, bytes),
                );
                Ok(Step { out, notes })
            }
            Err(_) => Err(AllocError),
        }
    }

    /// Sends what is due again, and ends what waits once it is over: where it was acknowledged, 247 seconds after it was sent, and
    /// else once its message is given up. Memory is taken for what is sent alone: without it that is lost, as on the way, which the
    /// notes say, and what is over ends all the same.
    pub fn on_tick(&mut self, alloc: Global, now: Moment) -> Step
        ensures ticked { Ticks self.old now result self.new }
        ensures few { length result.out ≤ length self.old.endpoint.sending }
        ensures kind { ClientStep false (core self.old) result.notes (core self.new) }
    {
        let acknowledged = self.endpoint.open_messages() == 0;
        let Ticked { out, lost, .. } = self.endpoint.on_tick(alloc, now);
        let none_left = self.endpoint.open_messages() == 0;
        if is_over(now, acknowledged, none_left, &self.waiting) {
            self.waiting = None;
            return Step {
                out,
                notes: StepNotes::quiet()
                    .with_result(ClientResult::TimedOut)
                    .with_lost(lost),
            };
        }
        Step::of_tick(out, lost)
    }

    /// The first moment at which a tick sends, gives up or ends anything, in ms, or none where no tick would. What was acknowledged ends
    /// 247 seconds after it was sent.
    ///
    /// The work is that of `Endpoint::next_deadline`.
    pub fn next_deadline(&self) -> Option<u64>
        ensures some { IfSome result (λ deadline. (now : AnyMoment) → (acts_at self.now now ≡ true) ↔ (deadline ≤ now.ms)) }
        ensures none { IfNone result ((now : AnyMoment) → acts_at self.now now ≡ false) }
        // Whatever waits has an end.
        ensures waits { IsSome self.now.waiting → IsSome result }
    {
        ticks_at_rest();
        match &self.waiting {
            Some(waiting) if self.endpoint.open_messages() == 0 => Some(waiting.until),
            _ => self.endpoint.next_deadline(),
        }
    }

    /// Starts again: forgets its context, what it waits for and what was heard, and keeps its grant and the way to the server. Takes no
    /// memory.
    pub fn restart(&mut self)
        ensures kind { ClientStep false (core self.old) quiet (core self.new) }
        ensures restarted { self.new ≡ restarted self.old }
    {
        self.context = None;
        self.waiting = None;
        self.endpoint.clear();
    }
}
