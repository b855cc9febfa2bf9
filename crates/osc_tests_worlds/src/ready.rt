//! Rounds that end well. What is assumed of a world before an exchange, or a request, that goes straight to the server is decided by what
//! the world tells; then two deliveries are the whole round, and what is promised has come about.

use crate::common::{GREATEST, SCOPE, accepted, counts, has, history, takes_place, world_of};
use crate::quiet::is_quiet;
use osc_authz::{ServerContext, Standing};
use osc_client::Client;
use osc_fixtures::{DELETE, GET, POST, PUT, Right, SERVER, drawn, own, place, request};
use osc_model::{ClientResult, Code, ContextName, Draw, Moment, Path, Peer, Reply, SharedName};
use osc_run::Actor;
use osc_scope::{Scope, Verdict};
use osc_tree::Tree;
use osc_world::{Event, SentDatagram, What, World};
use std::alloc::Global;
use std::process::Abort;
use std::test::*;

/// The longest id context.
const LONGEST_ID_CONTEXT: usize = 64;

/// The most token ids with a live context.
const MOST_IDS: usize = 64;

// ---- what is assumed

/// What happens next: whose it is, when, and with which draw.
#[derive(Clone, Copy)]
pub(crate) struct Next {
    pub client: usize,
    pub now: Moment,
    pub draw: Draw,
}

pub(crate) fn at(client: usize, ms: u64, number: u8) -> Next {
    Next {
        client,
        now: osc_fixtures::at(ms),
        draw: drawn(number),
    }
}

fn client_of(world: &World, number: usize) -> Option<&Client> {
    match world.client(number) {
        Some(placed) => Some(&placed.node),
        None => None,
    }
}

pub(crate) fn place_of(world: &World, number: usize) -> Option<Peer> {
    match world.client(number) {
        Some(placed) => Some(placed.at),
        None => None,
    }
}

/// No datagram waits, and there is a client of this number, which waits for nothing and sends there.
pub(crate) fn is_idle(world: &World, client: usize, next_hop: Peer) -> bool {
    match client_of(world, client) {
        Some(client) => world.next_waiting().is_none()
            && client.next_hop() == next_hop
            && !client.is_waiting(),
        None => false,
    }
}

/// The kind of a message is confirmable or non-confirmable, so that its message ID is its sender's own (RFC 7252 section 3).
fn is_own(datagram: &[u8]) -> bool {
    match datagram {
        [first, ..] => first & 0x30 < 0x20,
        [] => false,
    }
}

fn id_of(datagram: &[u8]) -> Option<u16> {
    match datagram {
        [_, _, high, low, ..] if is_own(datagram) => Some(256 * *high as u16 + *low as u16),
        _ => None,
    }
}

/// The message ID of this datagram, if it was sent from there.
fn id_from(sent: &SentDatagram, at: Peer) -> Option<u16> {
    if sent.from != at {
        return None;
    }
    id_of(sent.bytes.as_slice())
}

/// The message ID that whoever is there takes next: the one that is drawn, and each later one the next.
pub(crate) fn next_id(world: &World, at: Peer, draw: Draw) -> u16 {
    let mut next = draw.message_id();
    for sent in world.sent() {
        next = match id_from(sent, at) {
            Some(id) => id.wrapping_add(1),
            None => next,
        };
    }
    next
}

/// Nothing with this message ID was sent from one to the other.
pub(crate) fn is_new(world: &World, from: Peer, to: Peer, id: u16) -> bool {
    world
        .sent()
        .iter()
        .all(|sent| sent.to != to || id_from(sent, from) != Some(id))
}

/// The message ID that the client takes wasn't heard at the server.
fn has_a_new_id(world: &World, next: Next) -> bool {
    match place_of(world, next.client) {
        Some(at) => is_new(world, at, SERVER, next_id(world, at, next.draw)),
        None => false,
    }
}

/// What is assumed of both: the client sends straight to the server.
fn may_begin(world: &World, next: Next) -> bool {
    is_idle(world, next.client, SERVER) && has_a_new_id(world, next)
}

/// The live context at the server of this name.
fn held<'a>(world: &'a World, now: Moment, name: &SharedName) -> Option<&'a ServerContext> {
    let kid_context = match &name.id_context {
        Some(bytes) => Some(bytes.as_slice()),
        None => None,
    };
    let desk = world.server().desk();
    let tree = world.server().tree();
    let marks = desk.marks(tree);
    let on = Standing { at: now, tree };
    match desk.find(&on, &marks, name.client_id.as_slice(), kid_context) {
        Some(context) if *context.name() == *name => Some(context),
        _ => None,
    }
}

/// The live context at the server that the client has too.
fn shared(world: &World, now: Moment, client: usize) -> Option<&ServerContext> {
    match client_of(world, client)?.context() {
        Some(context) => held(world, now, context.name()),
        None => None,
    }
}

/// The client's token is in its time; and there is room for a context of it, beside those that the other clients share with the
/// server, which are all that it has in these worlds.
pub(crate) fn is_welcome(world: &World, next: Next) -> bool {
    is_in_time(world, next)
        && (0..world.minted().len())
            .filter(|other| *other != next.client && shared(world, next.now, *other).is_some())
            .count()
            < MOST_IDS
}

fn is_in_time(world: &World, next: Next) -> bool {
    let seconds = next.now.ms / 1000;
    match world.minted().get(next.client) {
        Some(minted) => {
            minted.grant.not_before.is_none_or(|first| first <= seconds)
                && minted.grant.expires.is_none_or(|end| seconds < end)
        }
        None => false,
    }
}

/// What is assumed of an exchange.
fn may_exchange(world: &World, next: Next) -> bool {
    may_begin(world, next) && is_welcome(world, next)
}

/// The number that the client takes next is one that may be taken, and fresh in the live context that both have, whose id context is no
/// longer than one may be.
pub(crate) fn has_a_fresh_number(world: &World, next: Next) -> bool {
    match (
        next_number(world, next.client),
        shared(world, next.now, next.client),
    ) {
        (Some(number), Some(context)) => number <= GREATEST
            && context.recipient().is_fresh(number)
            && is_short(context.name()),
        _ => false,
    }
}

fn is_short(name: &ContextName) -> bool {
    match &name.id_context {
        Some(bytes) => bytes.len() <= LONGEST_ID_CONTEXT,
        None => true,
    }
}

fn next_number(world: &World, client: usize) -> Option<u64> {
    match client_of(world, client)?.context() {
        Some(context) => Some(context.sender().next_number()),
        None => None,
    }
}

/// What is assumed of a request.
pub(crate) fn may_ask(world: &World, next: Next) -> bool {
    may_begin(world, next) && has_a_fresh_number(world, next)
}

// ---- the outcome

fn happens(alloc: Global, world: &mut World, next: Next, what: What) -> bool {
    let event = Event {
        moment: next.now,
        draw: next.draw,
        what,
    };
    takes_place(alloc, world, event)
}

/// A quiet round of at most this number of deliveries takes them all and leaves nothing.
fn takes(alloc: Global, world: &mut World, next: Next, deliveries: usize) -> bool {
    let before = world.records().len();
    is_quiet(alloc, world, next.now.ms, deliveries) == Some(true)
        && world.records().len() == before.wrapping_add(deliveries)
        && world.next_waiting().is_none()
}

/// What the last step of a client told it.
pub(crate) fn learnt(world: &World) -> Option<&ClientResult> {
    let mut told = None;
    for step in world.steps() {
        told = match step.actor() {
            Actor::Client(_) => step.notes().result(),
            _ => told,
        };
    }
    told
}

/// What was begun wasn't too long for a datagram.
fn was_sent(world: &World) -> bool {
    learnt(world) != Some(&ClientResult::Refused(14))
}

/// GET, POST and PUT on `/log`, and no more of what one can do there.
fn is_scope(alloc: Global, scope: &Scope) -> bool {
    match Path::from_text(alloc, b"/log") {
        Ok(Some(path)) => [
            (GET, Verdict::Granted),
            (POST, Verdict::Granted),
            (PUT, Verdict::Granted),
            (DELETE, Verdict::NoMethod),
        ]
        .iter()
        .all(|(code, verdict)| scope.verdict(Some(&path), Code(*code)) == *verdict),
        _ => false,
    }
}

/// Both have a context of one name, the server's with the token's scope, in which no number was taken yet.
fn has_made(alloc: Global, world: &World, next: Next) -> bool {
    learnt(world) == Some(&ClientResult::Made)
        && next_number(world, next.client) == Some(0)
        && shared(world, next.now, next.client).is_some_and(|context| {
            context.recipient().is_fresh(0) && is_scope(alloc, context.scope())
        })
}

/// An exchange as it is promised, by this number of deliveries.
pub(crate) fn makes(
    rt: &impl Abort,
    alloc: Global,
    world: &mut World,
    next: Next,
    deliveries: usize,
) {
    let exchange = What::Exchange {
        client: next.client,
    };
    assert!(rt; happens(alloc, world, next, exchange));
    assert!(rt; was_sent(world));
    assert!(rt; takes(alloc, world, next, deliveries));
    assert!(rt; has_made(alloc, world, next));
}

/// The same, straight to the server.
pub(crate) fn makes_one(rt: &impl Abort, alloc: Global, world: &mut World, next: Next) {
    assert!(rt; may_exchange(world, next));
    makes(rt, alloc, world, next, 2);
}

/// A request's code, its payload, and the code and the payload of what it is answered.
pub(crate) type Row = (u8, &'static [u8], Code, &'static [u8]);

fn is_reply(reply: &Reply, row: Row) -> bool {
    reply.code == row.2 && reply.payload.as_slice() == row.3
}

/// The client learnt an answer, which is this one.
pub(crate) fn is_answered(world: &World, row: Row) -> bool {
    match learnt(world) {
        Some(ClientResult::Answer(reply)) => is_reply(reply, row),
        _ => false,
    }
}

/// The last entry is of this number, and was answered so.
pub(crate) fn is_served(alloc: Global, world: &World, number: Option<u64>, row: Row) -> bool {
    match world.history(alloc) {
        Ok(all) => match all.last() {
            Some(entry) => Some(entry.number) == number && is_reply(&entry.reply, row),
            None => false,
        },
        Err(_) => false,
    }
}

fn asks(alloc: Global, world: &mut World, next: Next, row: Row) -> bool {
    let client = next.client;
    match request(alloc, b"/log", row.0, row.1) {
        Ok(request) => happens(alloc, world, next, What::Ask { client, request }),
        Err(_) => false,
    }
}

/// A request as it is promised, by this number of deliveries: one entry more, and its reply is the answer.
pub(crate) fn serves(
    rt: &impl Abort,
    alloc: Global,
    world: &mut World,
    next: Next,
    row: Row,
    deliveries: usize,
) {
    let number = next_number(world, next.client);
    let before = history(alloc, world);
    assert!(rt; asks(alloc, world, next, row));
    assert!(rt; was_sent(world));
    assert!(rt; takes(alloc, world, next, deliveries));
    assert!(rt; history(alloc, world) == before.wrapping_add(1));
    assert!(rt; is_served(alloc, world, number, row));
    assert!(rt; is_answered(world, row));
}

/// The same, straight to the server.
fn is_served_and_answered(rt: &impl Abort, alloc: Global, world: &mut World, next: Next, row: Row) {
    assert!(rt; may_ask(world, next));
    serves(rt, alloc, world, next, row, 2);
}

/// A POST that makes the resource, and a GET of it.
pub(crate) const POSTED: Row = (POST, b"a", Code::CREATED, b"");

pub(crate) const GOT: Row = (GET, b"", Code::CONTENT, b"a");

// ---- worlds

fn one_client(alloc: Global, right: Right) -> Result<World, Fail> {
    world_of(alloc, Tree::new(alloc), &[right])
}

/// A first exchange and two requests; a second exchange over the live context, and a request.
fn exchanges_twice(rt: &impl Abort, alloc: Global, world: &mut World) {
    assert!(rt; !may_ask(world, at(0, 0, 200)));
    makes_one(rt, alloc, world, at(0, 0, 200));
    is_served_and_answered(rt, alloc, world, at(0, 0, 201), POSTED);
    is_served_and_answered(rt, alloc, world, at(0, 0, 202), GOT);
    makes_one(rt, alloc, world, at(0, 0, 203));
    is_served_and_answered(
        rt,
        alloc,
        world,
        at(0, 0, 204),
        (POST, b"b", Code::CHANGED, b""),
    );
    assert!(rt; accepted(alloc, world) == 3);
    assert!(rt; world.premise_holds());
}

#[test]
fn a_first_exchange_and_a_second(rt: HostRuntime) -> Result<(), Fail> {
    let mut world = one_client(rt.alloc(), own(0, SCOPE))?;
    exchanges_twice(&rt, rt.alloc(), &mut world);
    drop(world);
    Ok(())
}

/// An exchange and a request, at this moment.
fn exchanges_and_asks(rt: &impl Abort, alloc: Global, world: &mut World, ms: u64) {
    makes_one(rt, alloc, world, at(0, ms, 200));
    is_served_and_answered(rt, alloc, world, at(0, ms, 201), POSTED);
}

#[test]
fn a_salt_and_an_id_context(rt: HostRuntime) -> Result<(), Fail> {
    let mut salted = own(0, SCOPE);
    salted.salt = b"\x9e\x7c\xa9\x22\x23\x78\x63\x40";
    salted.id_context = Some(b"\x37\xcb\xf3\x21\x00\x17\xa2\xd3");
    let mut world = one_client(rt.alloc(), salted)?;
    exchanges_and_asks(&rt, rt.alloc(), &mut world, 0);
    drop(world);
    Ok(())
}

/// In its last millisecond a token is in its time; then neither an exchange nor a request is promised anything.
fn is_over(rt: &impl Abort, alloc: Global, world: &mut World) {
    exchanges_and_asks(rt, alloc, world, 99_999);
    assert!(rt; may_ask(world, at(0, 99_999, 202)));
    assert!(rt; !may_ask(world, at(0, 100_000, 202)));
    assert!(rt; !may_exchange(world, at(0, 100_000, 202)));
}

#[test]
fn a_token_about_to_expire(rt: HostRuntime) -> Result<(), Fail> {
    let mut dated = own(0, SCOPE);
    dated.expires = Some(100);
    let mut world = one_client(rt.alloc(), dated)?;
    is_over(&rt, rt.alloc(), &mut world);
    drop(world);
    Ok(())
}

/// Clients of the numbers 0 to 64.
fn many_clients(alloc: Global) -> Result<World, Fail> {
    let mut rights = Vec::new(alloc);
    for client in 0..65 {
        rights.push(own(client, SCOPE))?;
    }
    let world = world_of(alloc, Tree::new(alloc), rights.as_slice());
    drop(rights);
    world
}

/// Each of 64 clients makes a context beside those that the others have; there is no room for one more, and each may exchange again.
fn crowds(rt: &impl Abort, alloc: Global, world: &mut World) {
    for client in 0..64u8 {
        makes_one(rt, alloc, world, at(client as usize, 0, 191 + client));
    }
    is_served_and_answered(rt, alloc, world, at(63, 0, 255), POSTED);
    assert!(rt; !may_exchange(world, at(64, 0, 255)));
    makes_one(rt, alloc, world, at(63, 0, 255));
}

#[test]
fn beside_63_other_contexts(rt: HostRuntime) -> Result<(), Fail> {
    let mut world = many_clients(rt.alloc())?;
    assert!(rt; place_of(&world, 64) == Some(place(64)));
    crowds(&rt, rt.alloc(), &mut world);
    drop(world);
    Ok(())
}

/// As many bytes as a resource may have.
const MOST_BYTES: &[u8] = &[b'a'; 512];

/// They are put, by the one request of the history, and come back. What is assumed of a run holds before and after.
fn puts_and_gets(rt: &impl Abort, alloc: Global, world: &mut World) {
    makes_one(rt, alloc, world, at(0, 0, 200));
    assert!(rt; world.premise_holds());
    assert!(rt; counts(alloc, world) == (0, 0, 0));
    assert!(rt; world.tree().len() == 0);
    is_served_and_answered(
        rt,
        alloc,
        world,
        at(0, 0, 201),
        (PUT, MOST_BYTES, Code::CREATED, b""),
    );
    assert!(rt; world.premise_holds());
    assert!(rt; counts(alloc, world) == (1, 1, 1));
    assert!(rt; has(alloc, world, MOST_BYTES));
    is_served_and_answered(
        rt,
        alloc,
        world,
        at(0, 0, 202),
        (GET, b"", Code::CONTENT, MOST_BYTES),
    );
}

#[test]
fn a_resource_of_512_bytes(rt: HostRuntime) -> Result<(), Fail> {
    let mut world = one_client(rt.alloc(), own(0, SCOPE))?;
    puts_and_gets(&rt, rt.alloc(), &mut world);
    drop(world);
    Ok(())
}
