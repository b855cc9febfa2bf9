//! The message layer of a node.
ghost use Rattle.std.specs.Prelude.{◌≡◌, ◌≢◌, ◌≤◌, ◌<◌, ◌+◌, ◌-◌, ◌↔◌, [], length, None, true, false, IsOk, IfOk, IsSome, OnOk, OnErr, IfSome, IfNone};
ghost use Rattle.std.specs.List.{list_any};
ghost use Rattle.std.specs.Option.{option_copied};
ghost use Rattle.osc_model.specs.Refusals as refusal;
ghost use Rattle.osc_model.specs.declared.node.Moment.{Moment as AnyMoment};
ghost use Rattle.osc_message.specs.Received.{Receives};
ghost use Rattle.osc_message.specs.Heard.{AnswersAlone, IsSendableHeard, SendsAlone, heard as heard_as, noted_reply as reply_noted};
ghost use Rattle.osc_message.specs.Confirmables.{takes as takes_of, takes_in};
ghost use Rattle.osc_message.specs.Pace.{goes_at_once as goes_at_once_of, with_open};
ghost use Rattle.osc_message.specs.Bounds.{most_open, places as places_in};
ghost use Rattle.osc_message.specs.Ticks.{names, tick_sends, tick_gives_up, acts};
ghost use Rattle.osc_message.specs.Timeout.{timeout_of};
ghost use Rattle.osc_message.specs.Endpoint.{fresh, fresh_with, own_id as own_id_of, id_taken, settled, withdrawn, after_tick};
ghost use Rattle.osc_message.specs.Sending.{AreSendable, FitsDatagram, GoesOut, IsSendableHandling, IsSendableReply, reply_start as reply_start_of, reply_id as reply_id_of, replied, is_confirmable as is_confirmable_of, rejection as rejection_of};
ghost use Rattle.osc_message.specs.Limits.{IsWithinLimits};
ghost use Rattle.osc_message.specs.declared.handling.Handling.TheVariants.{Dropped};
ghost use Rattle.osc_message.specs.declared.heard.Heard.TheVariants as heard;
ghost use Rattle.osc_message.specs.declared.received.Received.{Received as AnyReceived};
ghost use Rattle.osc_model.specs.{sends};

use crate::confirmable::{acknowledge, withdraw};
use crate::deadline::deadline;
use crate::due::Due;
use crate::handling::{Handling, acknowledge_by, handle_seen, handle_sending};
use crate::heard::{Heard, hear};
use crate::laws::what_nodes_send;
use crate::pace::Pace;
use crate::queue::{goes_at_once, push, takes};
use crate::queued::Queued;
use crate::received::receive;
use crate::sending::{is_confirmable, rejection, reply_kind};
use crate::tick::{Ticked, gives_up, tick};
use osc_coap::{Kind, MessageBuilder, MessageRef};
use osc_dedup::Duplicates;
use osc_model::{Bytes, Datagram, Draw, Moment, Peer, Step, refusals};
use std::alloc::{AllocError, Global};
use std::marker::Model;
use thiserror::Error;

/// A confirmable message isn't taken: 16 others wait for its peer, or its peer has none open and 64 other peers have one.
#[derive(Clone, Copy, Debug, PartialEq, Eq, Error)]
#[error("too many confirmable messages are open")]
pub struct QueueFull;

impl QueueFull {
    /// The number by which programs name the refusal.
    pub fn number(self) -> u8
        ensures { result ≡ refusal.queue_full }
    {
        refusals::QUEUE_FULL
    }
}

/// The message layer of a node: what was heard lately, the open confirmable messages, and the node's own message IDs.
///
/// A number of confirmable messages may be outstanding to one peer: 1, or up to 16. Once a message to the peer was sent again, they go out one at
/// a time, until one that was sent once is acknowledged.
///
/// All the room that it needs for messages, but for their bytes, is taken when it is made: 64 notes, and places for as many confirmable
/// messages as the node may have open at once, where one at a time is outstanding to a peer. A node that sends none has 0, one that awaits one
/// thing at a time 1, and `MOST_OPEN` are enough for any: to each of 64 peers one message that is outstanding and 16 that wait. For each more
/// that may be outstanding to a peer there are 64 more.
pub struct Endpoint<const PLACES: usize> {
    seen: Duplicates,
    sending: Vec<Queued>,
    // Room to write down what is due of each open message, at a tick.
    dues: Vec<Due>,
    // The ID of the next message of the node's own, once it has made one.
    next_id: Option<u16>,
    pace: Pace,
    // How many messages may be open.
    places: usize,
}

impl<const PLACES: usize> Drop for Endpoint<PLACES> {
    fn drop(self) {
        let Endpoint {
            seen: _,
            sending: _,
            dues: _,
            next_id: _,
            pace: _,
            places: _,
        } = self;
    }
}

impl<const PLACES: usize> Model for Endpoint<PLACES> {
    ghost use Rattle.std.specs.Prelude.{◌≡◌, ◌≤◌, vec_len, vec_capacity};
    ghost use Rattle.osc_message.specs.Endpoint.{EndpointState};
    ghost use Rattle.osc_message.specs.Bounds.{AreShort, places as places_of};
    ghost use Rattle.osc_message.specs.Queue.{IsSoundQueue, messages};

    ghost Value = { EndpointState };

    ghost view = { λ e. record { seen = e.seen; sending = messages e.sending.items; next_id = e.next_id; pace = e.pace } };

    ghost invariant = { λ e. (vec_len e.sending ≤ e.places) × (e.places ≤ vec_capacity e.sending) × (e.places ≤ vec_capacity e.dues) × IsSoundQueue e.pace e.sending.items × AreShort e.seen
        × (e.places ≡ places_of PLACES e.pace) };
}

impl<const PLACES: usize> Endpoint<PLACES> {
    /// Nothing was heard yet, nothing is open, and no message was made; one confirmable message at a time is outstanding to a peer. Refused
    /// only for lack of memory.
    pub fn new(alloc: Global) -> Result<Endpoint<PLACES>, AllocError>
        ensures { IfOk result (λ endpoint. endpoint ≡ fresh) }
    {
        Endpoint::with_places(alloc, Pace::new(alloc, 1)?, PLACES)
    }

    /// The same, where up to `most` confirmable messages may be outstanding to a peer. Refused only for lack of memory.
    pub fn with_pace(alloc: Global, most: u8) -> Result<Endpoint<PLACES>, AllocError>
        requires most { (1 ≤ most) × (most ≤ 16) }
        requires places { PLACES ≤ most_open }
        ensures { IfOk result (λ endpoint. endpoint ≡ fresh_with (most - 1)) }
    {
        let pace = Pace::new(alloc, most)?;
        let places = PLACES + 64 * pace.more();
        Endpoint::with_places(alloc, pace, places)
    }

    /// The same, of this pace, with so many places.
    fn with_places(alloc: Global, pace: Pace, places: usize) -> Result<Endpoint<PLACES>, AllocError>
        requires { places ≡ places_in PLACES pace }
        ensures { IfOk result (λ endpoint. endpoint ≡ record { seen = []; sending = []; next_id = None; pace = pace }) }
    {
        Ok(Endpoint {
            seen: Duplicates::new(alloc)?,
            sending: Vec::with_capacity(alloc, places)?,
            dues: Vec::with_capacity(alloc, places)?,
            next_id: None,
            pace,
            places,
        })
    }

    /// Forgets all, as if it were new; takes no memory. As many may be outstanding to a peer as before.
    pub fn clear(&mut self)
        ensures { self.new ≡ fresh_with self.old.pace.more }
    {
        self.seen.clear();
        self.sending.clear();
        self.next_id = None;
        self.pace.clear();
    }

    /// How many confirmable messages may be outstanding to one peer.
    pub fn most_outstanding(&self) -> u8
        ensures value { result ≡ 1 + self.now.pace.more }
        ensures bound { result ≤ 16 }
    {
        self.pace.most()
    }

    /// What these bytes, which came from this peer, are to the message layer: either it answers them by itself, or they are left to the
    /// node. Changes nothing; memory is taken for what is sent by this alone, and without it there is an `AllocError`.
    pub fn on_datagram<'a>(
        &self,
        alloc: Global,
        now: Moment,
        from: Peer,
        datagram: &'a [u8],
    ) -> Result<Heard<'a>, AllocError>
        ensures heard { IfOk result (λ heard. (received : AnyReceived) × Receives datagram.now received × (heard ≡ heard_as self.now.seen now from received)) }
        ensures alone { IfOk result (AnswersAlone self.now.seen now from) }
        ensures fits { IfOk result IsSendableHeard }
        ensures needs_memory { OnErr result ((received : AnyReceived) × Receives datagram.now received × SendsAlone (heard_as self.now.seen now from received)) }
    {
        what_nodes_send();
        hear(alloc, &self.seen, now, from, receive(datagram))
    }

    /// The bytes that answered the message of this ID, where it was noted with some and its lifetime hasn't ended.
    pub fn noted_reply(&self, now: Moment, from: Peer, id: u16) -> Option<&Bytes>
        ensures noted { option_copied result ≡ reply_noted self.now.seen now from id }
        ensures short { IsSendableReply (option_copied result) }
    {
        self.seen.look(now, from, id)?.reply.as_ref()
    }

    /// An empty acknowledgement or Reset came: what it names is acknowledged. Takes no memory.
    pub fn settle_empty(&mut self, now: Moment, from: Peer, kind: Kind, id: u16)
        ensures { self.new ≡ settled self.old now from (heard.Empty kind id) Dropped }
    {
        self.settle(now, from, &Heard::Empty(kind, id), Handling::Dropped);
    }

    /// A message came that the node has no use for: the step that rejects it, where it is confirmable, and else sends nothing. It isn't
    /// noted, and an acknowledgement acknowledges all the same. Memory is taken for the Reset alone; without it nothing has changed.
    pub fn reject(
        &mut self,
        alloc: Global,
        now: Moment,
        from: Peer,
        message: MessageRef<'_>,
    ) -> Result<Step, AllocError>
        ensures sent { IfOk result (λ step. step ≡ sends (rejection_of from message.entry.kind message.entry.id)) }
        ensures fits { IfOk result (λ step. AreSendable step.out) }
        ensures dropped { OnOk result (self.new ≡ settled self.old now from (heard.Message message.entry) Dropped) }
        ensures err { OnErr result (self.new ≡ self.old) }
        ensures needs_memory { OnErr result (is_confirmable_of message.entry.kind ≡ true) }
    {
        let out = rejection(alloc, from, message.kind(), message.id())?;
        self.settle(now, from, &Heard::Message(message), Handling::Dropped);
        Ok(Step::sending(out))
    }

    /// Makes the changes of what was heard: a message is noted, a confirmable one acknowledged. It was answered by at most 1,152
    /// bytes. Takes no memory.
    ///
    /// An acknowledgement acknowledges whatever the node makes of the response in it, also where it is dropped.
    pub fn settle(&mut self, now: Moment, from: Peer, heard: &Heard<'_>, handling: Handling)
        requires { IsSendableHandling handling }
        ensures { self.new ≡ settled self.old now from heard.now handling }
    {
        match heard {
            Heard::Empty(_, id) => acknowledge(&mut self.pace, &mut self.sending, from, *id),
            Heard::Message(message) => {
                acknowledge_by(
                    &mut self.pace,
                    &mut self.sending,
                    from,
                    message.kind(),
                    message.id(),
                );
                handle_sending(&mut self.pace, &mut self.sending, from, &handling);
                handle_seen(&mut self.seen, now, from, message, handling);
            }
            _ => {}
        }
    }

    /// The message ID of the node's next message of its own: the first one is the draw's, each later one the next.
    pub fn own_id(&self, draw: &Draw) -> u16
        ensures { result ≡ own_id_of draw.now self.now.next_id }
    {
        match self.next_id {
            Some(id) => id,
            None => draw.message_id(),
        }
    }

    /// Takes the message ID of a message of the node's own.
    pub fn take_id(&mut self, draw: &Draw) -> u16
        ensures id { result ≡ own_id_of draw.now self.old.next_id }
        ensures taken { self.new ≡ id_taken draw.now self.old }
    {
        let id = self.own_id(draw);
        self.next_id = Some(id.wrapping_add(1));
        id
    }

    /// The reply's message as far as its token: the acknowledgement of a confirmable request, and a non-confirmable message of
    /// the node's own to another. Its ID is taken once the reply is settled, by `take_reply_id`.
    pub fn reply_start(&self, draw: &Draw, request: &MessageRef<'_>, code: u8) -> MessageBuilder
        requires { 0 < code }
        ensures { result ≡ reply_start_of draw.now self.now.next_id request.now code }
    {
        let kind = reply_kind(request.kind());
        MessageBuilder::start(kind, code, self.reply_id(draw, request), request.token())
    }

    /// The message ID of the reply: that of a confirmable request, and the node's next one for another.
    pub fn reply_id(&self, draw: &Draw, request: &MessageRef<'_>) -> u16
        ensures { result ≡ reply_id_of draw.now self.now.next_id request.now }
    {
        if is_confirmable(request.kind()) {
            request.id()
        } else {
            self.own_id(draw)
        }
    }

    /// Takes the message ID of the reply, where it is the node's own.
    pub fn take_reply_id(&mut self, draw: &Draw, request: &MessageRef<'_>)
        ensures { self.new ≡ replied draw.now request.now self.old }
    {
        if !is_confirmable(request.kind()) {
            let _id = self.take_id(draw);
        }
    }

    /// How many confirmable messages are open: outstanding, or waiting.
    pub fn open_messages(&self) -> usize
        ensures count { result ≡ length self.now.sending }
        ensures limits { IsWithinLimits self.now.pace self.now.sending }
    {
        self.sending.len()
    }

    /// Whether `send` takes a confirmable message to this peer.
    ///
    /// The work grows with the number of open messages.
    pub fn takes(&self, to: Peer) -> bool
        ensures value { result ≡ takes_in (places_in PLACES self.now.pace) to self.now.sending }
        ensures enough { most_open ≤ PLACES → result ≡ takes_of to self.now.sending }
    {
        takes(&self.sending, to) && self.sending.len() < self.places
    }

    /// Takes a confirmable message, of at most 1,152 bytes, and answers whether it goes out now; else it waits for its turn. Its
    /// initial timeout is the draw's. Takes no memory.
    ///
    /// The work grows with the number of open messages.
    ///
    /// # Errors
    ///
    /// `QueueFull` exactly where 16 others wait for the peer, or it has none open and 64 others have one, or all places are taken,
    /// which `MOST_OPEN` never are; nothing is changed then.
    pub fn send(
        &mut self,
        now: Moment,
        to: Peer,
        id: u16,
        draw: &Draw,
        bytes: Bytes,
    ) -> Result<bool, QueueFull>
        requires { FitsDatagram bytes }
        ensures taken { IsOk result ↔ (takes_in (places_in PLACES self.old.pace) to self.old.sending ≡ true) }
        ensures enough { most_open ≤ PLACES → IsOk result ↔ (takes_of to self.old.sending ≡ true) }
        ensures goes { IfOk result (λ goes. goes ≡ goes_at_once_of self.old.pace to self.old.sending) }
        ensures ok { OnOk result (self.new ≡ record self.old { sending = with_open self.old.pace now to id (timeout_of draw.now) bytes self.old.sending }) }
        ensures err { OnErr result (self.new ≡ self.old) }
    {
        if !takes(&self.sending, to) || self.sending.len() >= self.places {
            return Err(QueueFull);
        }
        let goes = goes_at_once(&self.pace, &self.sending, to);
        push(
            &mut self.sending,
            now,
            id,
            draw,
            Datagram { to, bytes },
            goes,
        );
        Ok(goes)
    }

    /// The confirmable messages of this name leave, whether they are outstanding or wait: nothing of them is sent any more. Takes no memory.
    pub fn withdraw(&mut self, to: Peer, id: u16)
        ensures { self.new ≡ withdrawn to id self.old }
    {
        withdraw(&mut self.sending, to, id);
    }

    /// Sends what is due at this moment, gives up what nobody acknowledged, and lets the notes go whose lifetime has ended. Memory is
    /// taken for what is sent alone: without it that is lost, as on the way, which it says, and all else is done.
    ///
    /// The work grows with the number of open messages, and so again for each one that is given up.
    pub fn on_tick(&mut self, alloc: Global, now: Moment) -> Ticked
        ensures sent { GoesOut result.lost (tick_sends self.old.pace now self.old.sending) result.out }
        ensures fits { AreSendable result.out }
        ensures few { length result.out ≤ length self.old.sending }
        ensures given_up { result.given_up ≡ length (tick_gives_up self.old.pace now self.old.sending) }
        ensures ticked { self.new ≡ after_tick now self.old }
    {
        self.seen.expire(now);
        tick(
            &mut self.pace,
            &mut self.sending,
            &mut self.dues,
            alloc,
            now,
        )
    }

    /// Whether a tick at this moment gives up a confirmable message of this name.
    ///
    /// The work grows with the number of open messages.
    pub fn gives_up(&self, now: Moment, to: Peer, id: u16) -> bool
        ensures { result ≡ list_any (names to id) (tick_gives_up self.now.pace now self.now.sending) }
    {
        gives_up(now, &self.sending, to, id)
    }

    /// The first moment at which a tick sends or gives up anything, in ms, or none where no tick would.
    ///
    /// The work grows with the number of open messages.
    pub fn next_deadline(&self) -> Option<u64>
        ensures some { IfSome result (λ deadline. (now : AnyMoment) → (acts self.now.pace now self.now.sending ≡ true) ↔ (deadline ≤ now.ms)) }
        ensures none { IfNone result ((now : AnyMoment) → acts self.now.pace now self.now.sending ≡ false) }
        // Each open message has one: it is outstanding, or one before it is, or it goes out at once.
        ensures open { self.now.sending ≢ [] → IsSome result }
    {
        deadline(&self.pace, &self.sending)
    }
}
