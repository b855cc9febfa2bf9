//! The exchanges that a proxy has open (RFC 7252 section 5.7.2).
ghost use Rattle.std.specs.Prelude.{◌≡◌, ◌+◌, ◌≤◌, ◌<◌, ◌∷◌, ◌++◌, ℕ, List, length, None, Some, IfOk, OnSome, IfNone, IsSome, option_copied, nat_le};
ghost use Rattle.osc_model.specs.declared.node.Moment.{Moment as AnyMoment};
ghost use Rattle.std.specs.Option.{option_to_list};
ghost use Rattle.osc_message.specs.{is_reached, tick_gives_up};
ghost use Rattle.osc_proxy.specs.Ends.{without_over};
ghost use Rattle.osc_proxy.specs.Inner.Over.{own_given_up};
ghost use Rattle.osc_proxy.specs.declared.exchanges.Exchange.{Exchange as AnyExchange};
ghost use Rattle.osc_proxy.specs.Exchanges as spec;
ghost use Rattle.osc_proxy.specs.Ticks.{any_overdue, is_given_up as is_given_up_of, is_over as is_over_by, without_its};

use crate::Endpoint;
use crate::deadline::first_of;
use crate::token::Token;
use arrayvec::ArrayVec;
use osc_coap::MessageRef;
use osc_message::{MessageName, MessageRoom, is_acknowledgement};
use osc_model::limits::EXCHANGE_LIFETIME;
use osc_model::{Bytes, Moment, Peer};
use slab::Slab;
use std::alloc::{AllocError, Global};
use std::fmt;
use std::marker::Model;

/// How many exchanges are open at most.
const MOST_EXCHANGES: usize = 64;

/// Forwarded messages that were given up: at most one for each exchange.
pub(crate) type GivenUp = ArrayVec<MessageName, MOST_EXCHANGES>;

/// How long a message without options and payload is at most, in bytes: a header and a token.
const LONGEST_FAILURE: usize = 12;

/// A request that was forwarded, and whose answer hasn't gone back yet.
#[derive(Debug, Drop)]
pub struct Exchange {
    /// Who sent the request, and gets the answer.
    pub client: Peer,
    /// The client's token, which the answer carries.
    pub client_token: Token,
    /// Whether the request is confirmable; so is its answer then.
    pub confirmable: bool,
    /// To whom the request was forwarded.
    pub target: Peer,
    /// The message ID of the forwarded message.
    pub id: u16,
    /// The token of the forwarded message.
    pub token: [u8; 8],
    /// When it was opened.
    pub opened: Moment,
    /// Room for the answer that says that none came.
    pub room: FailureRoom,
}

/// Room for an answer without options and payload, so that an exchange ends without memory.
#[derive(Drop)]
pub struct FailureRoom {
    sent: MessageRoom,
    kept: MessageRoom,
}

impl Model for FailureRoom {
    ghost use Rattle.std.specs.Prelude.{◌≡◌};

    ghost Value = { Unit {0} };

    ghost view = { λ room. tt };

    ghost invariant = { λ room. (room.sent ≡ 12) × (room.kept ≡ 12) };
}

impl fmt::Debug for FailureRoom {
    fn fmt<W: fmt::Write>(&self, f: &mut fmt::Formatter<W>) -> fmt::Result {
        f.write_str("FailureRoom")
    }
}

impl FailureRoom {
    /// Room for one answer. Refused only for lack of memory.
    pub fn new(alloc: Global) -> Result<FailureRoom, AllocError>
        ensures { IfOk result (λ room. room ≡ tt) }
    {
        Ok(FailureRoom {
            sent: MessageRoom::new(alloc, LONGEST_FAILURE)?,
            kept: MessageRoom::new(alloc, LONGEST_FAILURE)?,
        })
    }

    /// The answer's bytes, to be sent and to be kept; takes no memory.
    pub(crate) fn fill(self, bytes: &[u8]) -> (Bytes, Bytes)
        requires { length bytes.now ≤ 12 }
        ensures { result ≡ (bytes.now, bytes.now) }
    {
        let FailureRoom { sent, kept } = self;
        (sent.fill(bytes), kept.fill(bytes))
    }
}

/// The open exchanges, each under a key; contracts see what is under each key, and the next key. All the room that they need
/// is taken when the table is made.
pub struct Exchanges {
    open: Slab<Exchange>,
    /// That of an exchange that was answered, for the next one.
    spare: Option<FailureRoom>,
}

impl Drop for Exchanges {
    fn drop(self) {
        let Exchanges { open: _, spare: _ } = self;
    }
}

impl Model for Exchanges {
    ghost use Rattle.std.specs.Prelude.{◌≤◌};
    ghost use Rattle.osc_proxy.specs.Exchanges.{HasOwnTokens, Table, count};

    ghost Value = { Table };

    ghost view = { λ e. record { slots = e.open.slots; next = e.open.vacant_key } };

    ghost invariant = { λ e. (64 ≤ e.open.capacity) × HasOwnTokens (record { slots = e.open.slots; next = e.open.vacant_key })
        × (count (record { slots = e.open.slots; next = e.open.vacant_key }) ≤ 64) };
}

/// Whether the response, which came from this peer, answers the request of the exchange.
fn answers(from: Peer, message: &MessageRef<'_>, exchange: &Exchange) -> bool
    ensures { result ≡ spec.answers from message.now exchange.now }
{
    exchange.target == from
        && exchange.token.as_slice() == message.token()
        && (!is_acknowledgement(message.kind()) || exchange.id == message.id())
}

/// Whether this peer and this message ID name the forwarded message of the exchange, and it is confirmable.
fn is_named(from: Peer, id: u16, exchange: &Exchange) -> bool
    ensures { result ≡ spec.is_named from id exchange.now }
{
    exchange.confirmable && exchange.target == from && exchange.id == id
}

/// When no answer is awaited any more, in ms.
fn end_of(exchange: &Exchange) -> u64
    ensures { (now : AnyMoment) → nat_le result now.ms ≡ spec.is_overdue now exchange.now }
{
    exchange.opened.ms + EXCHANGE_LIFETIME
}

/// Whether no answer came for so long that it isn't awaited any more.
fn is_overdue(now: Moment, exchange: &Exchange) -> bool
    ensures { result ≡ spec.is_overdue now exchange.now }
{
    end_of(exchange) <= now.ms
}

/// Whether the exchange's forwarded message is among those that were given up.
fn is_given_up(given_up: &[MessageName], exchange: &Exchange) -> bool
    ensures { result ≡ is_given_up_of given_up.now exchange.now }
{
    given_up
        .iter()
        .any(|name| is_named(name.peer, name.id, exchange))
}

/// The name of the exchange's forwarded message, where a tick of the message layer gives that up at this moment.
fn given_up_of(endpoint: &Endpoint, now: Moment, exchange: &Exchange) -> Option<MessageName>
    ensures { result ≡ own_given_up (tick_gives_up endpoint.now.pace now endpoint.now.sending) exchange.now }
{
    if exchange.confirmable && endpoint.gives_up(now, exchange.target, exchange.id) {
        Some(MessageName {
            peer: exchange.target,
            id: exchange.id,
        })
    } else {
        None
    }
}

fn add(names: &mut GivenUp, name: Option<MessageName>)
    requires { length names.old.items < 64 }
    ensures { names.new.items ≡ names.old.items ++ option_to_list name }
{
    if let Some(name) = name {
        names.push(name);
    }
}

/// Whether no answer is awaited any more.
fn is_over(now: Moment, given_up: &[MessageName], exchange: &Exchange) -> bool
    ensures { result ≡ is_over_by now given_up.now exchange.now }
{
    is_given_up(given_up, exchange) || is_overdue(now, exchange)
}

/// The forwarded message of this exchange leaves the message layer, whether it is outstanding or waits. Takes no memory.
pub(crate) fn withdraw(endpoint: &mut Endpoint, exchange: &Exchange)
    ensures { endpoint.new ≡ without_its endpoint.old exchange.now }
{
    if exchange.confirmable {
        endpoint.withdraw(exchange.target, exchange.id);
    }
}

impl Exchanges {
    /// No exchange is open. Refused only for lack of memory.
    pub fn new(alloc: Global) -> Result<Exchanges, AllocError>
        ensures { IfOk result (λ exchanges. exchanges ≡ spec.none_open) }
    {
        Ok(Exchanges {
            open: Slab::with_capacity(alloc, MOST_EXCHANGES)?,
            spare: None,
        })
    }

    /// Forgets all, as if it were new; takes no memory.
    pub fn clear(&mut self)
        ensures { self.new ≡ spec.none_open }
    {
        self.open.clear();
    }

    /// How many are open.
    pub fn count(&self) -> usize
        ensures value { result ≡ spec.count self.now }
        ensures own_tokens { spec.HasOwnTokens self.now }
        ensures most { result ≤ 64 }
    {
        self.open.len()
    }

    /// The key of the next exchange; none where 64 are open.
    pub fn free_key(&self) -> Option<u8>
        ensures { result ≡ spec.free_key self.now }
    {
        let key = self.open.vacant_key();
        if MOST_EXCHANGES <= self.open.len() || 256 <= key {
            return None;
        }
        Some(key as u8)
    }

    /// Opens an exchange under the free key, with which its token begins; takes no memory.
    pub fn open(&mut self, exchange: Exchange)
        requires free { IsSome (spec.free_key self.old) }
        requires own_token { (rest : List ℕ) × (exchange.token ≡ self.old.next ∷ rest) }
        ensures was_free { spec.get self.old self.old.next ≡ None }
        ensures opened { spec.Changes self.old self.new self.old.next (Some exchange) }
        ensures count { spec.count self.new ≡ spec.count self.old + 1 }
    {
        let _key = self.open.insert_reserved(exchange);
    }

    /// Room for the next exchange: that of one that was answered, or, where there is none left, new memory.
    pub(crate) fn take_room(&mut self, alloc: Global) -> Result<FailureRoom, AllocError>
        ensures { self.new ≡ self.old }
    {
        match self.spare.take() {
            Some(room) => Ok(room),
            None => FailureRoom::new(alloc),
        }
    }

    /// The exchange of this key, if one is open.
    pub fn get(&self, key: usize) -> Option<&Exchange>
        ensures { option_copied result ≡ spec.get self.now key }
    {
        self.open.get(key)
    }

    /// The key of the exchange whose request this response answers, which came from this peer: it has the token of the forwarded
    /// message, and in an acknowledgement its message ID too. Of several the lowest.
    pub fn find(&self, from: Peer, message: &MessageRef<'_>) -> Option<usize>
        ensures { result ≡ spec.first_key (spec.answers from message.now) self.now }
    {
        // For the proof alone: what always holds of the table is that the token of each exchange begins with its key.
        let _open = &self.open;
        let [key, ..] = message.token() else {
            return None;
        };
        let key = *key as usize;
        match self.get(key) {
            Some(exchange) => {
                if answers(from, message, exchange) {
                    Some(key)
                } else {
                    None
                }
            }
            None => None,
        }
    }

    /// The key of the exchange whose forwarded message is confirmable and is named by an empty acknowledgement or a Reset of this
    /// peer with this message ID. Of several the lowest.
    pub fn find_named(&self, from: Peer, id: u16) -> Option<usize>
        ensures { result ≡ spec.first_key (spec.is_named from id) self.now }
    {
        for (key, exchange) in self.open.iter() {
            if is_named(from, id, exchange) {
                return Some(key);
            }
        }
        None
    }

    /// The lowest key of an exchange that is over: its forwarded message was given up, being among these, or it was opened 247 seconds
    /// ago or earlier.
    pub fn find_over(&self, now: Moment, given_up: &[MessageName]) -> Option<usize>
        ensures { result ≡ spec.first_key (is_over_by now given_up.now) self.now }
    {
        for (key, exchange) in self.open.iter() {
            if is_over(now, given_up, exchange) {
                return Some(key);
            }
        }
        None
    }

    /// The forwarded messages of exchanges that a tick of the message layer gives up at this moment.
    pub fn given_up(&self, endpoint: &Endpoint, now: Moment) -> GivenUp
        ensures { (key : ℕ) (exchange : AnyExchange) → spec.get self.now key ≡ Some exchange
            → is_given_up_of result.items exchange ≡ is_given_up_of (tick_gives_up endpoint.now.pace now endpoint.now.sending) exchange }
    {
        let mut names = GivenUp::new();
        for (_, exchange) in self.open.iter() {
            add(&mut names, given_up_of(endpoint, now, exchange));
        }
        names
    }

    /// The first moment at which the end of an exchange is due, in ms, or none where no exchange is open.
    pub fn first_end(&self) -> Option<u64>
        ensures reached { (now : AnyMoment) → is_reached now result ≡ any_overdue now self.now }
        ensures open { 0 < spec.count self.now → IsSome result }
    {
        let mut first = None;
        for (_, exchange) in self.open.iter() {
            first = first_of(first, Some(end_of(exchange)));
        }
        first
    }

    /// The forwarded messages of exchanges that are over leave the message layer. Takes no memory.
    pub fn withdraw_over(&self, endpoint: &mut Endpoint, now: Moment)
        ensures { endpoint.new ≡ record endpoint.old { sending = without_over now self.now endpoint.old.sending } }
    {
        for (_, exchange) in self.open.iter() {
            if is_overdue(now, exchange) {
                withdraw(endpoint, exchange);
            }
        }
    }

    /// Closes the exchange of this key, which is handed back, if one is open; the next exchange gets its key. Takes no memory.
    pub fn close(&mut self, key: usize) -> Option<Exchange>
        ensures value { result ≡ spec.get self.old key }
        ensures closed { spec.Changes self.old self.new key None }
        ensures count { OnSome result (spec.count self.new + 1 ≡ spec.count self.old) }
        ensures next { OnSome result (self.new.next ≡ key) }
        ensures absent { IfNone result (self.new ≡ self.old) }
    {
        self.open.try_remove(key)
    }

    /// The same of one that is answered: its room is left to the next one.
    pub(crate) fn close_answered(&mut self, key: usize)
        requires { IsSome (spec.get self.old key) }
        ensures closed { spec.Changes self.old self.new key None }
        ensures count { spec.count self.new + 1 ≡ spec.count self.old }
        ensures next { self.new.next ≡ key }
    {
        let Exchange { room, .. } = self.close(key).unwrap();
        self.spare = Some(room);
    }
}
