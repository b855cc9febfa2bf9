//! The server.
ghost use Rattle.std.specs.Prelude.{◌≡◌, ◌≤◌, ◌<◌, ℕ, List, length, false, true, IfOk, None, OnErr, Some, option_map};
ghost use Rattle.std.specs.List.{All};
ghost use Rattle.osc_authz.specs.{AreMarked, IsTable, KeepsPlace};
ghost use Rattle.osc_coap.specs.{Spells};
ghost use Rattle.osc_coap.specs.Message.{Message};
ghost use Rattle.osc_message.specs.{fresh, AnswersAlone, heard as heard_as, Receives, FitsDatagram, datagram, is_confirmable as is_confirmable_of, rejection as rejection_of, acts};
ghost use Rattle.osc_message.specs.declared.received.Received.{Received as AnyReceived};
ghost use Rattle.osc_model.specs.{apply, MayReply, sends, quiet};
ghost use Rattle.osc_model.specs.Tree.{Tree as AnyTree};
ghost use Rattle.osc_model.specs.declared.node.Moment.{Moment as AnyMoment};
ghost use Rattle.osc_options.specs.{value as value_in};
ghost use Rattle.osc_run.specs.{ServerStep};
ghost use Rattle.osc_server.specs.Case.{IsAnswered, IsNewAnswered, case_of as case_in};
ghost use Rattle.osc_server.specs.Hearing.{Hears, Ticks};
ghost use Rattle.osc_server.specs.Inner.Parts.{AnswersBy, DifferAt, FitsAResource, HeardSendsTo, IsMessage, SendsTo, may_change_by, noted_by};
ghost use Rattle.osc_server.specs.State.{core};
ghost use Rattle.osc_server.specs.Steps.{again};
ghost use Rattle.osc_server.specs.Table.{Answers, AnswersNew, AnswersPost, AnswersProtected, AnswersWith, Refuses, Sends, refusal_code, refusal_number, refusal_to as refusal_to_of, refused_for as refused_for_of, reply_to as reply_to_of};

use crate::Endpoint;
use crate::again::answered_again;
use crate::answer::{refusal_to, sent_as, sent_reply};
use crate::case::{RequestCase, case_of};
use crate::in_hand::InHand;
use crate::posting::{POST_ANSWER, POST_PAYLOAD, notes_of, post_answer};
use crate::refusal::Refusal;
use crate::serving::{SealedAnswer, SealedArrival, prepared, sealed_request, serve_opened};
use osc_authz::laws::{answers_stay, marks_stay};
use osc_authz::{Post, RevokedMarks, ServerDesk, Standing};
use osc_ccm::Ciphers;
use osc_message::laws::{what_is_heard, what_nodes_send};
use osc_message::{Arrival, Handling, Heard, MessageRoom, ReplyRoom, Ticked, rejection};
use osc_model::limits::GET;
use osc_model::{
    Bytes, Code, Datagrams, Draw, Moment, Path, Peer, RefusedRequest, Reply, Step, StepNotes,
};
use osc_options::{OscoreValue, reply_message_size};
use osc_protect::TokenCipher;
use osc_protect::laws::one_request;
use osc_run::kinds;
use osc_scope::Scope;
use osc_tree::{Grant, Tree};
use std::alloc::{AllocError, Global};
use std::marker::Model;

/// A server: its resources, the desk at authz-info with the security contexts, the scope of what needs no protection, of which
/// GETs alone count, and its message layer. Where its desk has a revocation path, it keeps 2 KB of memory in hand, so that there is room for
/// a change below that path where there is no other.
pub struct Server {
    tree: Tree,
    desk: ServerDesk,
    open_scope: Scope,
    endpoint: Endpoint,
    marks: RevokedMarks,
    in_hand: InHand,
}

impl Drop for Server {
    fn drop(self) {
        let Server {
            tree: _,
            desk: _,
            open_scope: _,
            endpoint: _,
            marks: _,
            in_hand: _,
        } = self;
    }
}

impl Model for Server {
    ghost use Rattle.osc_server.specs.State.{State};
    ghost use Rattle.osc_server.specs.Inner.Parts.{IsQuiet};
    ghost use Rattle.osc_authz.specs.{AreMarked};
    ghost use Rattle.std.specs.Coded.{codes};
    ghost use Rattle.osc_model.specs.{coded_scope, coded_tree};

    ghost Value = { State };

    ghost coded = { Prim.hlevel (codes, coded_scope, coded_tree) };

    ghost view = { λ s. record { tree = s.tree; desk = s.desk; open_scope = s.open_scope; endpoint = s.endpoint } };

    ghost invariant = { λ s. IsQuiet s.endpoint × AreMarked s.tree s.desk.table s.marks };
}

impl Server {
    /// A server of these resources, with this desk, on which the open scope's GETs need no protection. It has heard nothing yet;
    /// the room for what it hears is taken here.
    pub fn new(
        alloc: Global,
        tree: Tree,
        desk: ServerDesk,
        open_scope: Scope,
    ) -> Result<Server, AllocError>
        ensures { IfOk result (λ server. server ≡ record { tree = tree; desk = desk; open_scope = open_scope; endpoint = fresh }) }
    {
        let endpoint = Endpoint::new(alloc)?;
        let marks = desk.marks(&tree);
        let mut in_hand = InHand::nothing();
        keep_in_hand(alloc, &desk, &mut in_hand);
        Ok(Server {
            tree,
            desk,
            open_scope,
            endpoint,
            marks,
            in_hand,
        })
    }

    /// The resources.
    pub fn tree(&self) -> &Tree
        ensures { result.now ≡ self.now.tree }
    {
        &self.tree
    }

    /// The desk, which finds the security context that a request means ([`ServerDesk::find`]).
    pub fn desk(&self) -> &ServerDesk
        ensures desk { result.now ≡ self.now.desk }
        ensures table { IsTable self.now.desk.table }
        ensures kept { KeepsPlace self.now.desk.rules.reserved self.now.desk.table }
    {
        self.desk.has_a_table();
        self.desk.keeps_a_place();
        &self.desk
    }

    /// Gives back what the server keeps in hand, for a call that needs memory and found none: [`Server::take_in_hand`] takes it again.
    pub fn give_back(&mut self)
        ensures { self.new ≡ self.old }
    {
        self.in_hand.give_back();
    }

    /// Takes what the server keeps in hand, where it isn't there and can be had; each tick does.
    pub fn take_in_hand(&mut self, alloc: Global)
        ensures { self.new ≡ self.old }
    {
        keep_in_hand(alloc, &self.desk, &mut self.in_hand);
    }

    /// These bytes came from this peer at this moment as one datagram: the step that answers them. What is sent is at most
    /// one datagram, to that peer: a Reset, an acknowledgement with the reply, or a reply to a request that isn't
    /// confirmable. A request that is answered is noted, so that a repeat is answered by the same bytes. Where its desk keeps answers, the last
    /// protected request of a context is answered by the same sealed bytes whenever it comes again from the same peer, in whatever message.
    /// The draw gives the first message ID of the server's own, and the nonce of a post.
    ///
    /// Without memory for it an `AllocError`; then nothing has changed. What the resources themselves lack of memory is answered,
    /// by 5.00, to a GET on an open path and to a request that opened. A change below the revocation path, at a server that has one, may use
    /// the memory that is in hand; no other request does.
    pub fn on_datagram<A: Ciphers>(
        &mut self,
        alloc: Global,
        now: Moment,
        from: Peer,
        bytes: &[u8],
        draw: &Draw,
    ) -> Result<Step, AllocError>
        ensures heard { IfOk result (λ step. Hears A.is_sealing self.old (record { at = now; from = from; draw = draw.now; what = bytes.now }) step self.new) }
        ensures one { IfOk result (λ step. length step.out ≤ 1) }
        ensures messages { IfOk result (λ step. All (λ d. (m : Message) × Spells d.bytes m) step.out) }
        ensures addressed { IfOk result (λ step. All (λ d. d.to ≡ from) step.out) }
        ensures kind { IfOk result (λ step. ServerStep (core self.old) now step.notes (core self.new)) }
        ensures same { self.new.open_scope ≡ self.old.open_scope }
        ensures err { OnErr result (self.new ≡ self.old) }

        // What isn't answered takes no memory.
        ensures needs_memory { OnErr result ((received : AnyReceived) × Receives bytes.now received
            × IsAnswered self.old.open_scope (heard_as self.old.endpoint.seen now from received)) }
    {
        what_is_heard();
        kinds::posts_that_agree::<TokenCipher<A>>();
        kinds::posts_that_are_refused::<TokenCipher<A>>();
        kinds::posts_that_are_known::<TokenCipher<A>>();
        kinds::requests_that_open();
        answers_stay();
        kinds::what_is_sealed();
        drawn(draw);
        self.desk.has_a_table();
        let heard = self.hear(alloc, now, from, bytes)?;
        self.answer::<A>(alloc, now, from, draw, heard)
    }

    /// What these bytes are to the message layer.
    fn hear<'a>(
        &self,
        alloc: Global,
        now: Moment,
        from: Peer,
        bytes: &'a [u8],
    ) -> Result<Heard<'a>, AllocError>
        ensures heard { IfOk result (λ heard. (received : AnyReceived) × Receives bytes.now received × (heard ≡ heard_as self.now.endpoint.seen now from received)) }
        ensures alone { IfOk result (AnswersAlone self.now.endpoint.seen now from) }
        ensures sent { IfOk result (HeardSendsTo from) }
        ensures needs_memory { OnErr result ((received : AnyReceived) × Receives bytes.now received
            × IsAnswered self.now.open_scope (heard_as self.now.endpoint.seen now from received)) }
    {
        self.endpoint.on_datagram(alloc, now, from, bytes)
    }

    /// What is sent for what is heard.
    fn answer<A: Ciphers>(
        &mut self,
        alloc: Global,
        now: Moment,
        from: Peer,
        draw: &Draw,
        heard: Heard<'_>,
    ) -> Result<Step, AllocError>
        requires { HeardSendsTo from heard }
        ensures answered { (bytes : List ℕ)
            → IfOk result (λ step. Answers A.is_sealing self.old (record { at = now; from = from; draw = draw.now; what = bytes }) heard.entry step self.new) }
        ensures table { IfOk result (λ _. IsTable self.new.desk.table) }
        ensures sent { IfOk result (λ step. SendsTo from step.out) }
        ensures same { self.new.open_scope ≡ self.old.open_scope }
        ensures err { OnErr result (self.new ≡ self.old) }
        ensures needs_memory { OnErr result (IsAnswered self.old.open_scope heard.entry) }
    {
        match heard {
            Heard::Alone(out) => {
                self.desk.has_a_table();
                return Ok(Step::sending(out));
            }
            Heard::Empty(kind, id) => {
                self.endpoint.settle_empty(now, from, kind, id);
                self.desk.has_a_table();
                Ok(Step::sending(Datagrams::new(alloc)))
            }
            Heard::Message(message) => self.answer_new::<A>(
                alloc,
                Arrival {
                    at: now,
                    from,
                    draw,
                    message,
                },
            ),
        }
    }

    /// What is sent for a new message, in the case that it is.
    fn answer_new<A: Ciphers>(
        &mut self,
        alloc: Global,
        came: Arrival<'_>,
    ) -> Result<Step, AllocError>
        ensures answered { IfOk result (λ step. AnswersNew A.is_sealing self.old came.entry (case_in self.old.open_scope came.entry.what) step self.new) }
        ensures table { IfOk result (λ _. IsTable self.new.desk.table) }
        ensures sent { IfOk result (λ step. SendsTo came.entry.from step.out) }
        ensures same { self.new.open_scope ≡ self.old.open_scope }
        ensures err { OnErr result (self.new ≡ self.old) }
        ensures needs_memory { OnErr result (IsNewAnswered came.entry.what (case_in self.old.open_scope came.entry.what)) }
    {
        let mut place = None;
        match case_of(alloc, &self.open_scope, &came.message, &mut place)? {
            RequestCase::Unused => {
                self.desk.has_a_table();
                reject(alloc, &came)
            }
            RequestCase::BadOption => self.refuse(alloc, came, Code::BAD_OPTION),
            RequestCase::ProxyAsked => self.refuse(alloc, came, Code::PROXYING_NOT_SUPPORTED),
            RequestCase::Protected(value) => self.protected::<A>(alloc, came, &value),
            RequestCase::Posted => self.posted::<A>(alloc, came),
            RequestCase::NotPosted => self.refuse(alloc, came, Code::METHOD_NOT_ALLOWED),
            RequestCase::OpenGet(grant) => {
                let reply = open_reply(alloc, self.desk.revoked(), &mut self.tree, &grant);
                self.give(alloc, came, &reply)
            }
            RequestCase::Unauthorised => self.refuse(alloc, came, Code::UNAUTHORIZED),
        }
    }

    /// Answers a GET on an open path with this reply.
    #[inline(never)]
    fn give(&mut self, alloc: Global, came: Arrival<'_>, reply: &Reply) -> Result<Step, AllocError>
        requires { FitsAResource reply.now }
        ensures replied { IfOk result (λ step. AnswersWith self.old came.entry reply.now step self.new) }
        ensures table { IfOk result (λ _. IsTable self.new.desk.table) }
        ensures sent { IfOk result (λ step. SendsTo came.entry.from step.out) }
        ensures same { self.new.open_scope ≡ self.old.open_scope }
        ensures err { OnErr result (self.new ≡ self.old) }
    {
        let out = self.reply(alloc, came, reply)?;
        self.desk.has_a_table();
        Ok(Step::sending(out))
    }

    /// Answers the request, which isn't served, with a reply of this code alone.
    #[inline(never)]
    fn refuse(&mut self, alloc: Global, came: Arrival<'_>, code: Code) -> Result<Step, AllocError>
        requires { 0 < code.0 }
        ensures refused { IfOk result (λ step. Refuses self.old came.entry code step self.new) }
        ensures table { IfOk result (λ _. IsTable self.new.desk.table) }
        ensures sent { IfOk result (λ step. SendsTo came.entry.from step.out) }
        ensures err { OnErr result (self.new ≡ self.old) }
    {
        let out = self.reply(alloc, came, &Reply::bare(alloc, code))?;
        let why = RefusedRequest { code, reason: None };
        self.desk.has_a_table();
        Ok(Step::refusing(why, out))
    }

    /// Answers the request with an unprotected reply, which is written where it is sent; of resources and desk nothing changes.
    fn reply(
        &mut self,
        alloc: Global,
        came: Arrival<'_>,
        reply: &Reply,
    ) -> Result<Datagrams, AllocError>
        requires { FitsAResource reply.now }
        ensures replied { IfOk result (λ out. AnswersBy self.old came.entry (reply_to_of self.old.endpoint came.entry reply.now) out self.new) }
        ensures sent { IfOk result (SendsTo came.entry.from) }
        ensures err { OnErr result (self.new ≡ self.old) }
    {
        let size = reply_message_size(came.message.token(), reply);
        let room = ReplyRoom::new(alloc, size)?;
        let (out, bytes) = sent_reply(room, &self.endpoint, &came, reply);
        self.note(came, bytes);
        Ok(out)
    }

    /// Notes the request with the bytes that answered it, for a repeat; takes no memory.
    fn note(&mut self, came: Arrival<'_>, reply: Bytes)
        requires message { IsMessage reply }
        requires fits { FitsDatagram reply }
        ensures { self.new ≡ record self.old { endpoint = noted_by self.old.endpoint came.entry reply } }
    {
        let Arrival {
            at,
            from,
            draw,
            message,
        } = came;
        self.endpoint.take_reply_id(draw, &message);
        self.endpoint.settle(
            at,
            from,
            &Heard::Message(message),
            Handling::Answered(Some(reply)),
        );
    }

    /// Judges a post to authz-info, and answers it. All memory is taken before the desk changes.
    #[inline(never)]
    fn posted<A: Ciphers>(&mut self, alloc: Global, came: Arrival<'_>) -> Result<Step, AllocError>
        ensures answered { IfOk result (λ step. AnswersPost A.is_sealing self.old came.entry step self.new) }
        ensures table { IfOk result (λ _. IsTable self.new.desk.table) }
        ensures sent { IfOk result (λ step. SendsTo came.entry.from step.out) }
        ensures same { self.new.open_scope ≡ self.old.open_scope }
        ensures err { OnErr result (self.new ≡ self.old) }
    {
        let payload = MessageRoom::new(alloc, POST_PAYLOAD)?;
        let room = ReplyRoom::new(alloc, POST_ANSWER)?;
        let body = came.message.payload().unwrap_or(&[]);
        let on = Standing {
            at: came.at,
            tree: &self.tree,
        };
        let Post {
            opened,
            answer,
            holder,
        } = self
            .desk
            .post::<TokenCipher<A>>(alloc, &on, &mut self.marks, body, came.draw)?;
        let (out, reply) = post_answer(alloc, payload, room, &self.endpoint, &came, answer);
        self.note(came, reply);
        self.desk.has_a_table();
        Ok(Step {
            out,
            notes: notes_of(opened, answer, holder),
        })
    }

    /// Answers a protected request with this value of the OSCORE option. Its number is accepted once nothing can fail. Where it comes again,
    /// what its reply carried sealed goes out again.
    #[inline(never)]
    fn protected<A: Ciphers>(
        &mut self,
        alloc: Global,
        came: Arrival<'_>,
        value: &OscoreValue<'_>,
    ) -> Result<Step, AllocError>
        requires { value_in 9 came.what.options ≡ Some value.now }
        ensures answered { IfOk result (λ step. AnswersProtected A.is_sealing self.old came.entry step self.new) }
        ensures table { IfOk result (λ _. IsTable self.new.desk.table) }
        ensures sent { IfOk result (λ step. SendsTo came.entry.from step.out) }
        ensures same { self.new.open_scope ≡ self.old.open_scope }
        ensures err { OnErr result (self.new ≡ self.old) }
    {
        let Ok(says) = sealed_request(value, &came.message) else {
            return self.complain(alloc, came, Refusal::Malformed);
        };
        answers_stay();
        one_request();
        let request = SealedArrival { came: &came, says };
        match prepared::<A>(
            alloc,
            &self.desk,
            &self.tree,
            &self.marks,
            &request,
            &mut self.in_hand,
        ) {
            Ok(Ok(taken)) => {
                let sealed = serve_opened::<A>(
                    alloc,
                    &mut self.desk,
                    &mut self.tree,
                    &self.endpoint,
                    &request,
                    taken,
                );
                mark_changed(&self.desk, &mut self.marks, &self.tree, &sealed.notes);
                keep_in_hand(alloc, &self.desk, &mut self.in_hand);
                let SealedAnswer { out, reply, notes } = sealed;
                self.note(came, reply);
                self.desk.has_a_table();
                return Ok(Step { out, notes });
            }
            Ok(Err(refusal)) => {
                match answered_again(alloc, &self.desk, &self.endpoint, &request, refusal)? {
                    Some((out, reply)) => {
                        self.note(came, reply);
                        self.desk.has_a_table();
                        Ok(Step::sending(out))
                    }
                    None => self.complain(alloc, came, refusal),
                }
            }
            Err(error) => Err(error),
        }
    }

    /// Says why a protected request isn't served.
    #[inline(never)]
    fn complain(
        &mut self,
        alloc: Global,
        came: Arrival<'_>,
        refusal: Refusal,
    ) -> Result<Step, AllocError>
        ensures sends { IfOk result (λ step. Sends self.old came.entry (refusal_to_of self.old.endpoint came.entry refusal)
            (refused_for_of (refusal_code refusal) (Some (refusal_number refusal))) step self.new) }
        ensures table { IfOk result (λ _. IsTable self.new.desk.table) }
        ensures sent { IfOk result (λ step. SendsTo came.entry.from step.out) }
        ensures err { OnErr result (self.new ≡ self.old) }
    {
        let answer = refusal_to(&self.endpoint, &came, refusal);
        let room = ReplyRoom::new(alloc, answer.bytes().len())?;
        let (out, reply) = sent_as(room, came.from, &answer);
        self.note(came, reply);
        self.desk.has_a_table();
        Ok(Step::refusing(refusal.noted(), out))
    }

    /// Lets the notes of what was heard go whose lifetime has ended. Nothing that a server sends waits for an acknowledgement, so
    /// nothing is sent, and no memory is taken but what is kept in hand, where it isn't there and can be had.
    pub fn on_tick(&mut self, alloc: Global, now: Moment) -> Step
        ensures ticked { Ticks self.old now result self.new }
        ensures kind { ServerStep (core self.old) now result.notes (core self.new) }
    {
        let Ticked { out, .. } = self.endpoint.on_tick(alloc, now);
        keep_in_hand(alloc, &self.desk, &mut self.in_hand);
        Step::sending(out)
    }

    /// The first moment at which a tick does anything but let notes go: none, since nothing that a server sends waits for an
    /// acknowledgement.
    pub fn next_deadline(&self) -> Option<u64>
        ensures none { result ≡ None }
        ensures idle { (now : AnyMoment) → acts self.now.endpoint.pace now self.now.endpoint.sending ≡ false }
    {
        // The clause `idle` is the server's invariant.
        let _ = &self.endpoint;
        None
    }

    /// Starts again: forgets the security contexts and what was heard, and keeps resources, open scope, key and audience. Takes no
    /// memory.
    pub fn restart(&mut self)
        ensures kind { (now : AnyMoment) → ServerStep (core self.old) now quiet (core self.new) }
        ensures restarted { self.new ≡ again self.old }
    {
        marks_stay();
        self.desk.clear();
        self.endpoint.clear();
        self.marks = RevokedMarks::none();
    }
}

/// Takes what a server with this desk keeps in hand, where it isn't there and can be had.
fn keep_in_hand(alloc: Global, desk: &ServerDesk, in_hand: &mut InHand) {
    if desk.revoked().is_some() {
        in_hand.take(alloc);
    }
}

/// Marks the contexts whose tokens are revoked by what the request that was served changed, and unmarks those that aren't any more.
fn mark_changed(desk: &ServerDesk, marks: &mut RevokedMarks, tree: &Tree, notes: &StepNotes)
    ensures { (before : AnyTree) → DifferAt (may_change_by notes.now.served) before tree.now → AreMarked before desk.now.table marks.old
        → AreMarked tree.now desk.now.table marks.new }
{
    if let Some(path) = path_changed(notes) {
        desk.mark(marks, tree, path);
    }
}

/// The path whose resource the request that was served may change: none for a GET.
fn path_changed(notes: &StepNotes) -> Option<&Path>
    ensures { option_map (λ path. path.now) result ≡ may_change_by notes.now.served }
{
    match &notes.served()?.request {
        Ok(request) => {
            if request.code.0 == GET {
                None
            } else {
                request.path.as_ref()
            }
        }
        Err(_) => None,
    }
}

/// A message that a server has no use for: a confirmable one is rejected by a Reset, any other is ignored. Nothing that a server sends waits
/// for an acknowledgement, so there is nothing to settle.
fn reject(alloc: Global, came: &Arrival<'_>) -> Result<Step, AllocError>
    ensures step { IfOk result (λ step. step ≡ sends (rejection_of came.now.from came.now.what.kind came.now.what.id)) }
    ensures sent { IfOk result (λ step. SendsTo came.now.from step.out) }
    ensures needs_memory { OnErr result (is_confirmable_of came.now.what.kind ≡ true) }
{
    what_nodes_send();
    let message = &came.message;
    let out = rejection(alloc, came.from, message.kind(), message.id())?;
    Ok(Step::sending(out))
}

/// For proofs: how many bytes are drawn. Does nothing.
fn drawn(draw: &Draw)
    ensures { length draw.now.0 ≡ 32 }
{
    let _ = &draw.0;
}

/// The reply to a GET on an open path: 5.00 for lack of memory.
fn open_reply(alloc: Global, root: Option<&Path>, tree: &mut Tree, grant: &Grant<'_>) -> Reply
    requires { grant.now.request.code.0 ≡ 1 }
    ensures reply { MayReply (apply (option_map (λ path. path.now) root.entry) tree.old grant.now.scope grant.now.request) result }
    ensures short { FitsAResource result }
    ensures same { tree.new ≡ tree.old }
{
    // For the proof alone: the call tells that what the tree has fits a datagram.
    let _count = tree.len();
    match tree.apply_granted(alloc, root, grant) {
        Ok(reply) => reply,
        Err(_) => Reply::bare(alloc, Code::INTERNAL_SERVER_ERROR),
    }
}
