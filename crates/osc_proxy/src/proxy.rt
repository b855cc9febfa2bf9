//! The proxy.
ghost use Rattle.std.specs.Prelude.{◌≡◌, ◌≢◌, ℕ, ◌≤◌, ◌<◌, ◌+◌, ◌-◌, ◌↔◌, List, [], length, true, false, None, Option, Some, IfOk, OnErr, OnOk, IfSome, IfNone, IsSome};
ghost use Rattle.osc_coap.specs.{is_request_code, datagram_limit, HasSpelling, spelling};
ghost use Rattle.osc_model.specs.{sends};
ghost use Rattle.osc_model.specs.declared.node.Moment.{Moment as AnyMoment};
ghost use Rattle.osc_message.specs.{is_reached, fresh, fresh_with, settled, AnswersAlone, IsSendableHeard, heard as heard_as, Receives, AreSendable, is_confirmable as is_confirmable_of, rejection};
ghost use Rattle.osc_message.specs.declared.received.Received.{Received as AnyReceived};
ghost use Rattle.osc_message.specs.declared.handling.Handling.TheVariants as handling;
ghost use Rattle.osc_message.specs.declared.heard.Heard.TheVariants as heard;
ghost use Rattle.osc_proxy.specs.Inner.Bounds.{AsksFor, CanCount, HeardFits, IsApart, IsNamed, names_one};
ghost use Rattle.osc_proxy.specs.Case.{IsNewAnswered, case_of as case_in, ended_by as ended_by_of};
ghost use Rattle.osc_proxy.specs.Ends.{EachHasItsExchange};
ghost use Rattle.osc_proxy.specs.Exchanges.{HasOwnTokens, count, first_key, get, is_named, is_overdue, none_open};
ghost use Rattle.osc_proxy.specs.Inner.Going.{Acknowledges, CanClose, IsOwn};
ghost use Rattle.osc_proxy.specs.Hearing.{Hears, MayBeAnswered};
ghost use Rattle.osc_proxy.specs.ProxyUri.{HostAndPort};
ghost use Rattle.osc_proxy.specs.Route.{Names};
ghost use Rattle.osc_proxy.specs.State.{restarted};
ghost use Rattle.osc_proxy.specs.Table.{Answers, AnswersMessage, AnswersNew, Counts, Ends, ForwardsBy, IsAnswered, Settles, IsForwarded, IsRefused, forwarded_by, key_for as key_for_of};
ghost use Rattle.osc_proxy.specs.Ticks.{AreOfExchanges, Ticks, acts};
ghost use Rattle.osc_proxy.specs.declared.exchanges.Exchange.{Exchange as AnyExchange};

use crate::Endpoint;
use crate::answering::{answer_back, failing};
use crate::case::{ForwardCase, case_of, ended_by};
use crate::deadline::{first_of, messages_deadline};
use crate::exchanges::{Exchanges, FailureRoom};
use crate::forwarding::{forwarded_message, forwarded_token};
use crate::opening::opened;
use crate::sending::{Acknowledged, Own, alone, going, has_room, send_back, send_own};
use crate::targets::Targets;
use crate::ticking::tick;
use osc_coap::{Kind, MessageBuilder, MessageRef};
use osc_message::laws::{ticks_send_few, what_nodes_send};
use osc_message::{Arrival, Handling, Heard, MessageName, is_confirmable, noted};
use osc_model::{Code, Datagrams, Draw, Moment, Peer, RefusedRequest, Step};
use std::alloc::{AllocError, Global};
use std::marker::Model;

/// A forward proxy: its targets, the exchanges that are open, and its message layer. It seals and opens nothing.
pub struct Proxy {
    targets: Targets,
    exchanges: Exchanges,
    endpoint: Endpoint,
}

impl Drop for Proxy {
    fn drop(self) {
        let Proxy {
            targets: _,
            exchanges: _,
            endpoint: _,
        } = self;
    }
}

impl Model for Proxy {
    ghost use Rattle.osc_proxy.specs.Ends.{EachHasItsExchange};
    ghost use Rattle.osc_proxy.specs.State.{State};

    ghost Value = { State };

    ghost view = { λ p. record { targets = p.targets; exchanges = p.exchanges; endpoint = p.endpoint } };

    ghost invariant = { λ p. EachHasItsExchange p.exchanges p.endpoint.sending };
}

impl Proxy {
    /// A proxy that forwards to these targets; it has heard nothing. Refused only for lack of memory.
    pub fn new(alloc: Global, targets: Targets) -> Result<Proxy, AllocError>
        ensures { IfOk result (λ proxy. proxy ≡ record { targets = targets; exchanges = none_open; endpoint = fresh }) }
    {
        let exchanges = Exchanges::new(alloc)?;
        let endpoint = Endpoint::new(alloc)?;
        Ok(Proxy {
            targets,
            exchanges,
            endpoint,
        })
    }

    /// The same, where up to `most` confirmable messages of its own may be outstanding to a peer as long as none to it is lost (RFC 7252
    /// section 4.7). Refused only for lack of memory.
    pub fn with_pace(alloc: Global, targets: Targets, most: u8) -> Result<Proxy, AllocError>
        requires { (1 ≤ most) × (most ≤ 16) }
        ensures { IfOk result (λ proxy. proxy ≡ record { targets = targets; exchanges = none_open; endpoint = fresh_with (most - 1) }) }
    {
        let exchanges = Exchanges::new(alloc)?;
        let endpoint = Endpoint::with_pace(alloc, most)?;
        Ok(Proxy {
            targets,
            exchanges,
            endpoint,
        })
    }

    /// How many confirmable messages of its own may be outstanding to one peer.
    pub fn most_outstanding(&self) -> u8
        ensures value { result ≡ 1 + self.now.endpoint.pace.more }
        ensures bound { result ≤ 16 }
    {
        self.endpoint.most_outstanding()
    }

    /// How many exchanges are open: at most 64.
    pub fn open_exchanges(&self) -> usize
        ensures value { result ≡ count self.now.exchanges }
        ensures exchanges { EachHasItsExchange self.now.exchanges self.now.endpoint.sending }
        ensures own_tokens { HasOwnTokens self.now.exchanges }
    {
        // For the proof alone: it tells what always holds of a proxy.
        let _endpoint = &self.endpoint;
        self.exchanges.count()
    }

    /// How many confirmable messages of its own are open: outstanding, or waiting.
    pub fn open_messages(&self) -> usize
        ensures { result ≡ length self.now.endpoint.sending }
    {
        self.endpoint.open_messages()
    }

    /// These bytes came from this peer at this moment as one datagram: the step that answers them, with these random bytes. What is
    /// sent is at most two datagrams. Without memory an `AllocError`; then nothing has changed.
    pub fn on_datagram(
        &mut self,
        alloc: Global,
        now: Moment,
        from: Peer,
        bytes: &[u8],
        draw: &Draw,
    ) -> Result<Step, AllocError>
        ensures heard { IfOk result (λ step. Hears self.old (record { at = now; from = from; draw = draw.now; what = bytes.now }) step self.new) }
        ensures few { IfOk result (λ step. length step.out ≤ 2) }
        ensures err { OnErr result (self.new ≡ self.old) }
        // Each open message that is a request has an exchange that is open.
        ensures exchanges { EachHasItsExchange self.new.exchanges self.new.endpoint.sending }
        ensures own_tokens { HasOwnTokens self.new.exchanges }
        // What isn't answered takes no memory; nor does a repeat, where nothing was answered before.
        ensures needs_memory { OnErr result (MayBeAnswered self.old (record { at = now; from = from; draw = draw.now; what = bytes.now })) }
    {
        let step = self.step_for(alloc, now, from, bytes, draw);
        // For the proof alone: the call tells what always holds of a proxy.
        let _open = self.open_exchanges();
        step
    }

    /// The same, without what always holds of a proxy.
    fn step_for(
        &mut self,
        alloc: Global,
        now: Moment,
        from: Peer,
        bytes: &[u8],
        draw: &Draw,
    ) -> Result<Step, AllocError>
        ensures heard { IfOk result (λ step. Hears self.old (record { at = now; from = from; draw = draw.now; what = bytes.now }) step self.new) }
        ensures few { IfOk result (λ step. length step.out ≤ 2) }
        ensures err { OnErr result (self.new ≡ self.old) }
        ensures needs_memory { OnErr result (MayBeAnswered self.old (record { at = now; from = from; draw = draw.now; what = bytes.now })) }
    {
        let heard = self.hear(alloc, now, from, bytes)?;
        self.answer(alloc, now, from, draw, heard)
    }

    /// What these bytes are to the message layer.
    fn hear<'a>(
        &self,
        alloc: Global,
        now: Moment,
        from: Peer,
        bytes: &'a [u8],
    ) -> Result<Heard<'a>, AllocError>
        ensures heard { IfOk result (λ heard. (received : AnyReceived) × Receives bytes.now received × (heard ≡ heard_as self.now.endpoint.seen now from received)) }
        ensures alone { IfOk result (AnswersAlone self.now.endpoint.seen now from) }
        ensures fits { IfOk result IsSendableHeard }
        ensures short { IfOk result HeardFits }
        ensures apart { IfOk result IsApart }
        ensures needs_memory { OnErr result ((received : AnyReceived) × Receives bytes.now received × IsAnswered self.now from (heard_as self.now.endpoint.seen now from received)) }
    {
        self.endpoint.on_datagram(alloc, now, from, bytes)
    }

    /// What is sent for what is heard, and what is kept after it.
    fn answer(
        &mut self,
        alloc: Global,
        now: Moment,
        from: Peer,
        draw: &Draw,
        heard: Heard<'_>,
    ) -> Result<Step, AllocError>
        requires fits { IsSendableHeard heard }
        requires short { HeardFits heard }
        requires apart { IsApart heard }
        ensures answered { IfOk result (λ step. (bytes : List ℕ) → Answers self.old (record { at = now; from = from; draw = draw.now; what = bytes }) heard.entry step self.new) }
        ensures fits { IfOk result (λ step. AreSendable step.out) }
        ensures err { OnErr result (self.new ≡ self.old) }
        ensures needs_memory { OnErr result (IsAnswered self.old from heard.entry) }
    {
        match heard {
            Heard::Alone(out) => Ok(Step::sending(out)),
            Heard::Empty(kind, id) => {
                let named = MessageName { peer: from, id };
                Ok(self.settle_empty(alloc, now, draw, kind, named))
            }
            Heard::Message(message) => self.answer_new(
                alloc,
                Arrival {
                    at: now,
                    from,
                    draw,
                    message,
                },
            ),
        }
    }

    /// What is sent for a new message, and what is kept after it.
    fn answer_new(&mut self, alloc: Global, came: Arrival<'_>) -> Result<Step, AllocError>
        requires short { length (spelling came.what) ≤ datagram_limit }
        requires apart { is_request_code came.what.code ≡ true → names_one came.what.kind ≡ false }
        ensures answered { IfOk result (λ step. AnswersMessage self.old came.entry step self.new) }
        ensures fits { IfOk result (λ step. AreSendable step.out) }
        ensures err { OnErr result (self.new ≡ self.old) }
        ensures needs_memory { OnErr result ((named : Option HostAndPort) × Names came.entry.what.options named
            × IsNewAnswered came.entry.what (case_in self.old.targets self.old.exchanges came.entry.from named came.entry.what)) }
    {
        let case = case_of(&self.targets, &self.exchanges, came.from, &came.message);
        self.answer_in(alloc, came, case)
    }

    /// What is sent for a new message in this case, and what is kept after it.
    fn answer_in(
        &mut self,
        alloc: Global,
        came: Arrival<'_>,
        case: ForwardCase,
    ) -> Result<Step, AllocError>
        requires { AsksFor self.old.exchanges came.from came.what case }
        ensures answered { IfOk result (λ step. AnswersNew self.old came.entry case step self.new) }
        ensures fits { IfOk result (λ step. AreSendable step.out) }
        ensures err { OnErr result (self.new ≡ self.old) }
        ensures needs_memory { OnErr result (IsNewAnswered came.entry.what case) }
    {
        match case {
            ForwardCase::Refused(why) => self.refuse(alloc, came, why),
            ForwardCase::Forwarded(to) => self.forward(alloc, came, to),
            ForwardCase::Counted(key) => self.count(alloc, came, key),
            ForwardCase::Unused => self.reject(alloc, came),
        }
    }

    /// Settles what an empty acknowledgement or Reset of this kind names, and ends the exchange that it ends; takes no memory.
    fn settle_empty(
        &mut self,
        alloc: Global,
        now: Moment,
        draw: &Draw,
        kind: Kind,
        named: MessageName,
    ) -> Step
        ensures settled { Settles (ended_by_of kind (first_key (is_named named.peer named.id) self.old.exchanges)) kind self.old
            (record { at = now; from = named.peer; draw = draw.now; what = named.id }) result self.new }
        ensures fits { AreSendable result.out }
    {
        match ended_by(&self.exchanges, kind, named) {
            Some(key) => self.end(alloc, now, draw, named, key),
            None => self.acknowledge(alloc, now, kind, named),
        }
    }

    /// What an empty acknowledgement or Reset names is acknowledged, and no more.
    fn acknowledge(&mut self, alloc: Global, now: Moment, kind: Kind, named: MessageName) -> Step
        ensures step { result ≡ sends [] }
        ensures kept { self.new ≡ record self.old { endpoint = settled self.old.endpoint now named.peer (heard.Empty kind named.id) handling.Dropped } }
    {
        self.endpoint.settle_empty(now, named.peer, kind, named.id);
        Step::sending(Datagrams::new(alloc))
    }

    /// Rejects a message that is for no exchange, where it is confirmable, and else ignores it; an acknowledgement acknowledges all the same.
    fn reject(&mut self, alloc: Global, came: Arrival<'_>) -> Result<Step, AllocError>
        ensures sent { IfOk result (λ step. step ≡ sends (rejection came.entry.from came.entry.what.kind came.entry.what.id)) }
        ensures kept { OnOk result (self.new ≡ record self.old { endpoint = settled self.old.endpoint came.entry.at came.entry.from (heard.Message came.entry.what) handling.Dropped }) }
        ensures fits { IfOk result (λ step. AreSendable step.out) }
        ensures err { OnErr result (self.new ≡ self.old) }
        ensures needs_memory { OnErr result (is_confirmable_of came.entry.what.kind ≡ true) }
    {
        let Arrival {
            at,
            from,
            message,
            ..
        } = came;
        let step = self.endpoint.reject(alloc, at, from, message)?;
        Ok(step)
    }

    /// Answers a request that isn't forwarded by this code, and notes it for a repeat.
    fn refuse(&mut self, alloc: Global, came: Arrival<'_>, why: Code) -> Result<Step, AllocError>
        requires why { 0 < why.0 }
        requires kind { names_one came.what.kind ≡ false }
        ensures refused { IfOk result (λ step. IsRefused why self.old came.entry step self.new) }
        ensures fits { IfOk result (λ step. AreSendable step.out) }
        ensures err { OnErr result (self.new ≡ self.old) }
    {
        let Arrival {
            at,
            from,
            draw,
            message,
        } = came;
        let reply = self.endpoint.reply_start(draw, &message, why.0);
        let (out, bytes) = noted(alloc, from, &reply)?;
        self.endpoint.take_reply_id(draw, &message);
        self.endpoint.settle(
            at,
            from,
            &Heard::Message(message),
            Handling::Answered(Some(bytes)),
        );
        Ok(Step::refusing(
            RefusedRequest {
                code: why,
                reason: None,
            },
            out,
        ))
    }

    /// The key of the exchange of such a request, where one is free and there is room for one more message to the target.
    fn key_for(&self, message: &MessageRef<'_>, to: Peer) -> Option<u8>
        ensures { result ≡ key_for_of self.now message.now to }
    {
        if has_room(&self.endpoint, is_confirmable(message.kind()), to) {
            self.exchanges.free_key()
        } else {
            None
        }
    }

    /// Forwards a request to this peer, or refuses it.
    fn forward(&mut self, alloc: Global, came: Arrival<'_>, to: Peer) -> Result<Step, AllocError>
        requires code { 0 < came.what.code }
        requires kind { names_one came.what.kind ≡ false }
        ensures forwarded { IfOk result (λ step. ForwardsBy (key_for_of self.old came.entry.what to) self.old came.entry to step self.new) }
        ensures fits { IfOk result (λ step. AreSendable step.out) }
        ensures err { OnErr result (self.new ≡ self.old) }
    {
        let Some(key) = self.key_for(&came.message, to) else {
            return self.refuse(alloc, came, Code::SERVICE_UNAVAILABLE);
        };
        let id = self.endpoint.own_id(came.draw);
        match forwarded_message(&came.message, id, &forwarded_token(key, came.draw)) {
            Ok(forwarded) => self.forward_as(alloc, came, to, key, &forwarded),
            Err(_) => self.refuse(alloc, came, Code::REQUEST_ENTITY_TOO_LARGE),
        }
    }

    /// Forwards a request by this message, in the exchange of this key.
    fn forward_as(
        &mut self,
        alloc: Global,
        came: Arrival<'_>,
        to: Peer,
        key: u8,
        forwarded: &MessageBuilder,
    ) -> Result<Step, AllocError>
        requires key { key_for_of self.old came.what to ≡ Some key }
        requires kind { names_one came.what.kind ≡ false }
        requires forwarded { forwarded.now ≡ forwarded_by self.old (record { came = came; to = to; key = key }) }
        ensures forwarded { IfOk result (λ step. IsForwarded self.old (record { came = came.entry; to = to; key = key }) step self.new) }
        ensures fits { IfOk result (λ step. AreSendable step.out) }
        ensures err { OnErr result (self.new ≡ self.old) }
    {
        let own = Own::new(alloc, to, is_confirmable(came.message.kind()), forwarded)?;
        let acknowledged = Acknowledged::new(alloc, came.from, &came.message)?;
        let room = self.exchanges.take_room(alloc)?;
        Ok(self.open(alloc, came, key, own, acknowledged, room))
    }

    /// Opens the exchange of this key, and sends the message that is forwarded; takes no memory.
    fn open(
        &mut self,
        alloc: Global,
        came: Arrival<'_>,
        key: u8,
        own: Own,
        acknowledged: Acknowledged,
        room: FailureRoom,
    ) -> Step
        requires key { key_for_of self.old came.what own.to ≡ Some key }
        requires kind { names_one came.what.kind ≡ false }
        requires own { IsOwn own.to (is_confirmable_of came.what.kind) (spelling (forwarded_by self.old (record { came = came; to = own.to; key = key }))) own }
        requires acknowledged { Acknowledges came.from came.what acknowledged }
        requires lawful { HasSpelling (forwarded_by self.old (record { came = came; to = own.to; key = key })) }
        ensures forwarded { IsForwarded self.old (record { came = came.entry; to = own.to; key = key }) result self.new }
        ensures fits { AreSendable result.out }
    {
        what_nodes_send();
        let id = self.endpoint.own_id(came.draw);
        let exchange = opened(key, id, &came, own.to, room);
        let Arrival {
            at,
            from,
            draw,
            message,
        } = came;
        let Acknowledged { out, reply } = acknowledged;
        self.endpoint.settle(
            at,
            from,
            &Heard::Message(message),
            Handling::Answered(reply),
        );
        let sent = send_own(&mut self.endpoint, at, draw, own);
        self.exchanges.open(exchange);
        Step::sending(going(alloc, out, sent))
    }

    /// Sends a response that counts back to the client, and closes its exchange.
    fn count(&mut self, alloc: Global, came: Arrival<'_>, key: usize) -> Result<Step, AllocError>
        requires { CanCount self.old.exchanges came.from came.what key }
        ensures counted { IfOk result (λ step. Counts key self.old came.entry step self.new) }
        ensures fits { IfOk result (λ step. AreSendable step.out) }
        ensures err { OnErr result (self.new ≡ self.old) }
    {
        let exchange = self.exchanges.get(key).unwrap();
        let id = self.endpoint.own_id(came.draw);
        let answer = answer_back(came.from, &came.message, exchange, id);
        let own = Own::new(alloc, exchange.client, exchange.confirmable, &answer)?;
        let named = exchange.id;
        let acknowledged = Acknowledged::new(alloc, came.from, &came.message)?;
        Ok(self.close(alloc, came, key, named, own, acknowledged))
    }

    /// Closes the exchange that a response counts for, and sends the answer back; takes no memory.
    fn close(
        &mut self,
        alloc: Global,
        came: Arrival<'_>,
        key: usize,
        named: u16,
        own: Own,
        acknowledged: Acknowledged,
    ) -> Step
        requires exchange { CanClose self.old came key named own }
        requires acknowledged { Acknowledges came.from came.what acknowledged }
        ensures counted { Counts key self.old came.entry result self.new }
        ensures fits { AreSendable result.out }
    {
        what_nodes_send();
        let Arrival {
            at,
            from,
            draw,
            message,
        } = came;
        let Acknowledged { out, reply } = acknowledged;
        self.endpoint.settle(
            at,
            from,
            &Heard::Message(message),
            Handling::Counted(named, reply),
        );
        self.exchanges.close_answered(key);
        let sent = send_back(&mut self.endpoint, at, draw, own);
        Step::sending(going(alloc, out, sent))
    }

    /// Ends an exchange whose forwarded message was rejected by a Reset, which names it; takes no memory.
    fn end(
        &mut self,
        alloc: Global,
        now: Moment,
        draw: &Draw,
        rejected: MessageName,
        key: usize,
    ) -> Step
        requires { IsNamed self.old.exchanges rejected.peer rejected.id key }
        ensures ended { Ends key self.old (record { at = now; from = rejected.peer; draw = draw.now; what = rejected.id }) result self.new }
        ensures fits { AreSendable result.out }
    {
        let MessageName { peer: from, id } = rejected;
        self.endpoint.settle_empty(now, from, Kind::Reset, id);
        let exchange = self.exchanges.close(key).unwrap();
        let own = failing(exchange, self.endpoint.own_id(draw), Code::BAD_GATEWAY);
        let sent = send_back(&mut self.endpoint, now, draw, own);
        Step::sending(alone(alloc, sent))
    }

    /// Ends the exchanges that were opened 247 seconds ago or earlier, and those whose forwarded message was given up, by 5.04, and sends
    /// what is due at this moment. Memory is taken for what is sent alone: without it that is lost, as on the way, which the step says, and
    /// all else is done.
    pub fn on_tick(&mut self, alloc: Global, now: Moment, draw: &Draw) -> Step
        ensures ticked { Ticks self.old now draw.now result self.new }
        ensures few { length result.out ≤ length self.old.endpoint.sending + count self.old.exchanges }
        // Each request that is sent is that of an exchange that was open and isn't over.
        ensures requests { AreOfExchanges self.old now result.out }
        // No exchange is over that is open still.
        ensures none_over { (key : ℕ) (exchange : AnyExchange) → get self.new.exchanges key ≡ Some exchange → is_overdue now exchange ≡ false }
        ensures exchanges { EachHasItsExchange self.new.exchanges self.new.endpoint.sending }
        ensures own_tokens { HasOwnTokens self.new.exchanges }
    {
        ticks_send_few();
        let step = tick(&mut self.exchanges, &mut self.endpoint, alloc, now, draw);
        // For the proof alone: the call tells what always holds of a proxy.
        let _open = self.open_exchanges();
        step
    }

    /// The first moment at which a tick sends, gives up or ends anything, in ms, or none where no tick would.
    ///
    /// The work is that of `Endpoint::next_deadline`.
    pub fn next_deadline(&self) -> Option<u64>
        ensures some { IfSome result (λ deadline. (now : AnyMoment) → (acts now self.now ≡ true) ↔ (deadline ≤ now.ms)) }
        ensures none { IfNone result ((now : AnyMoment) → acts now self.now ≡ false) }
        // There is one where an exchange is open, or a message.
        ensures exchange { 0 < count self.now.exchanges → IsSome result }
        ensures message { self.now.endpoint.sending ≢ [] → IsSome result }
    {
        self.deadline()
    }

    /// The same, by what is reached at each moment.
    fn deadline(&self) -> Option<u64>
        ensures reached { (now : AnyMoment) → is_reached now result ≡ acts now self.now }
        ensures exchange { 0 < count self.now.exchanges → IsSome result }
        ensures message { self.now.endpoint.sending ≢ [] → IsSome result }
    {
        first_of(
            messages_deadline(&self.endpoint),
            self.exchanges.first_end(),
        )
    }

    /// Starts again: forgets the open exchanges and what was heard, and keeps its targets and its pace. Takes no memory.
    pub fn restart(&mut self)
        ensures { self.new ≡ restarted self.old }
    {
        self.exchanges.clear();
        self.endpoint.clear();
    }
}
