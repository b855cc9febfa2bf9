//! What happens by a line of a script.
ghost use Rattle.std.specs.Prelude.{◌≡◌, IfOk, Some, option_map};
ghost use Rattle.osc_simulation.specs.Events as spec;

use crate::copies::{altered, grafted};
use crate::lying::text_of;
use crate::names::{Names, number_of, proxy_number};
use osc_model::{Bytes, Peer, Request};
use osc_run::Actor;
use osc_script::{Change, Line, NodeName};
use osc_world::{SentDatagram, What};
use std::alloc::{AllocError, Global};

/// What happens by a line that is one event, in a world that sent these datagrams; by any other line nothing.
pub fn what_of(
    alloc: Global,
    names: &Names,
    sent: &[SentDatagram],
    line: &Line,
) -> Result<Option<What>, AllocError>
    ensures { IfOk result (λ what. what ≡ spec.what_of names.now sent.now line.now) }
{
    match line {
        Line::Exchange { client } => Ok(Some(What::Exchange {
            client: number_of(names.clients(), *client),
        })),
        Line::Ask { client, request } => asks(alloc, number_of(names.clients(), *client), request),
        Line::Tick { node } => Ok(Some(ticks(sent, actor_of(names, *node)))),
        Line::Restart { node } => Ok(Some(restarts(sent, actor_of(names, *node)))),
        Line::Deliver { datagram } => Ok(Some(What::Deliver {
            datagram: datagram_number(sent, *datagram),
        })),
        Line::Alter { datagram, changes } => {
            what_altered(
                alloc,
                sent,
                changes.as_slice(),
                datagram_of(sent, *datagram),
            )
        }
        Line::Graft { header, body } => {
            what_grafted(
                alloc,
                sent,
                datagram_of(sent, *header),
                datagram_of(sent, *body),
            )
        }
        Line::Inject { from, to, bytes } => injects(alloc, from.address(), to.address(), bytes),
        Line::Lie {
            client,
            number,
            request,
        } => lies(alloc, number_of(names.clients(), *client), *number, request),
        _ => Ok(None),
    }
}

/// The client of this number is to send the request.
fn asks(alloc: Global, client: usize, request: &Request) -> Result<Option<What>, AllocError>
    ensures { IfOk result (λ what. what ≡ Some (What.Ask client request.now)) }
{
    let request = request.clone()?;
    Ok(Some(What::Ask { client, request }))
}

/// The holder of the client of this number seals the request's plaintext at this number.
fn lies(
    alloc: Global,
    client: usize,
    number: u64,
    request: &Request,
) -> Result<Option<What>, AllocError>
    ensures { IfOk result (λ what. what ≡ Some (What.Lie client number (spec.text_of request.now))) }
{
    let text = text_of(alloc, request)?;
    Ok(Some(What::Lie {
        client,
        number,
        text,
    }))
}

/// These bytes come from one address to another.
fn injects(alloc: Global, from: Peer, to: Peer, bytes: &Bytes) -> Result<Option<What>, AllocError>
    ensures { IfOk result (λ what. what ≡ Some (What.Inject from to bytes.now)) }
{
    let bytes = bytes.clone()?;
    Ok(Some(What::Inject { from, to, bytes }))
}

/// The number in the world of a datagram, which a script counts from 1; for 0, the number of the next one.
pub fn datagram_number(sent: &[SentDatagram], number: u64) -> usize
    ensures { result ≡ spec.datagram_number sent.now number }
{
    if number == 0 {
        sent.len()
    } else {
        (number - 1) as usize
    }
}

/// The datagram that a script counts so, if it was sent.
fn datagram_of(sent: &[SentDatagram], number: u64) -> Option<&SentDatagram>
    ensures { option_map (λ datagram. datagram.now) result ≡ spec.datagram_of sent.now number }
{
    sent.get(datagram_number(sent, number))
}

/// What would be the next datagram wasn't sent, so nothing comes to anyone.
fn nothing_comes(sent: &[SentDatagram]) -> What
    ensures { result ≡ spec.nothing_comes sent.now }
{
    What::Deliver {
        datagram: sent.len(),
    }
}

/// The node of this name; the stranger isn't one.
fn actor_of(names: &Names, node: NodeName) -> Option<Actor>
    ensures { result ≡ spec.actor_of names.now node }
{
    match node {
        NodeName::Server => Some(Actor::Server),
        NodeName::Client(client) => Some(Actor::Client(number_of(names.clients(), client))),
        NodeName::Proxy(proxy) => Some(Actor::Proxy(proxy_number(names.proxies(), proxy))),
        NodeName::Stranger => None,
    }
}

fn ticks(sent: &[SentDatagram], node: Option<Actor>) -> What
    ensures { result ≡ spec.ticks sent.now node }
{
    match node {
        Some(node) => What::Tick { node },
        None => nothing_comes(sent),
    }
}

fn restarts(sent: &[SentDatagram], node: Option<Actor>) -> What
    ensures { result ≡ spec.restarts sent.now node }
{
    match node {
        Some(node) => What::Restart { node },
        None => nothing_comes(sent),
    }
}

/// A copy of a datagram comes to its addressee, with these bytes changed, if it was sent and has them.
fn what_altered(
    alloc: Global,
    sent: &[SentDatagram],
    changes: &[Change],
    datagram: Option<&SentDatagram>,
) -> Result<Option<What>, AllocError>
    ensures { IfOk result (λ what. what ≡ Some (spec.what_altered sent.now changes.now (option_map (λ datagram. datagram.now) datagram.entry))) }
{
    match datagram {
        Some(datagram) => {
            let bytes = altered(alloc, changes, datagram.bytes.as_slice())?;
            Ok(Some(comes_like(sent, datagram, bytes)))
        }
        None => Ok(Some(nothing_comes(sent))),
    }
}

/// The header and the token of one datagram come with the options and the payload of another, if both were sent.
fn what_grafted(
    alloc: Global,
    sent: &[SentDatagram],
    header: Option<&SentDatagram>,
    body: Option<&SentDatagram>,
) -> Result<Option<What>, AllocError>
    ensures { IfOk result (λ what. what ≡ Some (spec.what_grafted sent.now (option_map (λ datagram. datagram.now) header.entry)
        (option_map (λ datagram. datagram.now) body.entry))) }
{
    match (header, body) {
        (Some(header), Some(body)) => {
            let bytes = grafted(alloc, header.bytes.as_slice(), body.bytes.as_slice())?;
            Ok(Some(comes_like(sent, header, Some(bytes))))
        }
        _ => Ok(Some(nothing_comes(sent))),
    }
}

/// These bytes, if there are any, come from the datagram's sender to its addressee.
fn comes_like(sent: &[SentDatagram], datagram: &SentDatagram, bytes: Option<Bytes>) -> What
    ensures { result ≡ spec.comes_like sent.now datagram.now bytes }
{
    match bytes {
        Some(bytes) => What::Inject {
            from: datagram.from,
            to: datagram.to,
            bytes,
        },
        None => nothing_comes(sent),
    }
}
