//! What an event of a world prints.
ghost use Rattle.std.specs.Prelude.{◌≡◌, ◌<◌, ◌+◌, ◌^◌, IfOk, length, option_map, reverse, string_bytes};
ghost use Rattle.osc_model.specs.declared.step.ClientResult.TheVariants.{Answer, Unverified};
ghost use Rattle.osc_simulation.specs.Records as spec;
ghost use Rattle.osc_simulation.specs.Records.{NamesPeer, PrintAllRecords, PrintAllSent, PrintsRecord, PrintsSent, TellsMessage};

use crate::names::name_of_number;
use crate::trace::{format_text, message_text, short_text, wanted_bytes_text};
use osc_coap::MessageRef;
use osc_model::{Bytes, ClientResult, Code, Entry, Peer, Reply};
use osc_run::{Actor, Minted, Noted};
use osc_script::{ClientName, NodeName};
use osc_world::{Record, SentDatagram, World};
use std::alloc::{AllocError, Global};
use std::cmp::min;

// ---- an event

/// What these events of a world print, one after another.
pub(crate) fn records_text(
    alloc: Global,
    with_bytes: bool,
    clients: &[ClientName],
    world: &World,
    records: &[Record],
) -> Result<Vec<u8>, AllocError>
    ensures { IfOk result (λ text. PrintAllRecords with_bytes clients.now world.now records.now text.items) }
{
    let mut text = Vec::new(alloc);
    for event in records {
        let more = record_text(alloc, with_bytes, clients, world, event)?;
        text.extend_from_slice(&more)?;
    }
    Ok(text)
}

/// What an event of a world prints: what was served, what a client learnt and what was sent; `nothing` where there is
/// none of it.
pub(crate) fn record_text(
    alloc: Global,
    with_bytes: bool,
    clients: &[ClientName],
    world: &World,
    event: &Record,
) -> Result<Vec<u8>, AllocError>
    ensures { IfOk result (λ text. PrintsRecord with_bytes clients.now world.now event.now text.items) }
{
    let step = step_of(world, event);
    let mut text = step_text(alloc, clients, world.minted(), step)?;
    let sent = sent_at(event, world.sent());
    let lines = sent_lines(alloc, with_bytes, event.first, sent)?;
    text.extend_from_slice(&lines)?;
    if text.is_empty() {
        text.extend_from_slice(b"nothing\n")?;
    }
    Ok(text)
}

/// The step that was taken at the event, if one was.
pub fn step_of<'a>(world: &'a World, event: &Record) -> Option<&'a Noted>
    ensures { option_map (λ step. step.now) result ≡ spec.step_at event.now.step world.now.steps }
{
    step_at(event.step, world.steps())
}

/// The step of this number, if one was taken; the steps are lent with the oldest first.
fn step_at(number: Option<usize>, steps: &[Noted]) -> Option<&Noted>
    ensures { option_map (λ step. step.now) result ≡ spec.step_at number (reverse steps.now) }
{
    steps.get(number?)
}

/// The datagrams that an event sent.
pub fn sent_at<'a>(event: &Record, sent: &'a [SentDatagram]) -> &'a [SentDatagram]
    ensures sent { result.now ≡ spec.sent_at event.now sent.now }
    ensures few { event.now.first + length result.now < 2 ^ 64 }
{
    let end = min(event.end, sent.len());
    &sent[min(event.first, end)..end]
}

// ---- what a step noted

/// What a step noted, if one was taken: what was served, and what a client learnt.
fn step_text(
    alloc: Global,
    clients: &[ClientName],
    minted: &[Minted],
    step: Option<&Noted>,
) -> Result<Vec<u8>, AllocError>
    ensures { IfOk result (λ text. text.items ≡ spec.step_text clients.now minted.now (option_map (λ step. step.now) step.entry)) }
{
    let mut text = Vec::new(alloc);
    if let Some(step) = step {
        let served = served_text(alloc, clients, minted, step.notes().served())?;
        let learnt = result_text(alloc, clients, step.actor(), step.notes().result())?;
        text.extend_from_slice(served.as_bytes())?;
        text.extend_from_slice(learnt.as_bytes())?;
    }
    Ok(text)
}

/// `served CLIENT NUMBER CODE`, if a request was.
fn served_text(
    alloc: Global,
    clients: &[ClientName],
    minted: &[Minted],
    served: Option<&Entry>,
) -> Result<String, AllocError>
    ensures { IfOk result (λ text. string_bytes text ≡ spec.served_text clients.now minted.now (option_map (λ entry. entry.now) served.entry)) }
{
    match served {
        Some(entry) => served_line(alloc, clients, minted, entry),
        None => Ok(String::new(alloc)),
    }
}

fn served_line(
    alloc: Global,
    clients: &[ClientName],
    minted: &[Minted],
    entry: &Entry,
) -> Result<String, AllocError>
    ensures { IfOk result (λ text. string_bytes text ≡ spec.served_text clients.now minted.now (Some entry.now)) }
{
    let words = served_words(alloc, clients, minted, entry)?;
    format!(in alloc; "{words}\n")
}

/// `served CLIENT NUMBER CODE`: whose request was served, its number, and the code that it was answered.
pub fn served_words(
    alloc: Global,
    clients: &[ClientName],
    minted: &[Minted],
    entry: &Entry,
) -> Result<String, AllocError>
    ensures { IfOk result (λ text. string_bytes text ≡ spec.served_words clients.now minted.now entry.now) }
{
    let holder = holder_name(clients, minted, &entry.context.secret);
    let code = entry.reply.code;
    format!(in alloc; "served {holder} {} {code}", entry.number)
}

/// The holder of the first grant with this secret, or `?` where no grant has it.
fn holder_name(clients: &[ClientName], minted: &[Minted], secret: &Bytes) -> &'static str
    ensures { result.now ≡ spec.holder_text clients.now minted.now secret.now }
{
    for m in minted {
        if m.grant.material.secret == *secret {
            return name_of_number(clients, m.grant.holder);
        }
    }
    "?"
}

/// The client and what it learnt, if it did.
pub(crate) fn result_text(
    alloc: Global,
    clients: &[ClientName],
    actor: Actor,
    learnt: Option<&ClientResult>,
) -> Result<String, AllocError>
    ensures { IfOk result (λ text. string_bytes text ≡ spec.result_text clients.now actor (option_map (λ learnt. learnt.now) learnt.entry)) }
{
    let Some(learnt) = learnt else {
        return Ok(String::new(alloc));
    };
    let client = actor_name(clients, actor);
    let learnt = learnt_text(alloc, learnt)?;
    format!(in alloc; "{client} {learnt}\n")
}

/// A client's name; the other nodes learn nothing.
fn actor_name(clients: &[ClientName], actor: Actor) -> &'static str
    ensures { result.now ≡ spec.actor_text clients.now actor }
{
    match actor {
        Actor::Client(number) => name_of_number(clients, number),
        Actor::Server | Actor::Proxy(_) => "?",
    }
}

/// `context`, `answer CODE FORMAT BYTES`, `unverified CODE`, `timeout` or `refused N`.
pub fn learnt_text(alloc: Global, learnt: &ClientResult) -> Result<String, AllocError>
    ensures { IfOk result (λ text. string_bytes text ≡ spec.learnt_text learnt.now) }
{
    match learnt {
        ClientResult::Made => "context".to_string(alloc),
        ClientResult::Answer(reply) => answer_text(alloc, reply),
        ClientResult::Unverified(code) => unverified_text(alloc, *code),
        ClientResult::TimedOut => "timeout".to_string(alloc),
        ClientResult::Refused(number) => format!(in alloc; "refused {number}"),
    }
}

fn answer_text(alloc: Global, reply: &Reply) -> Result<String, AllocError>
    ensures { IfOk result (λ text. string_bytes text ≡ spec.learnt_text (Answer reply.now)) }
{
    let code = reply.code;
    let format = format_text(alloc, reply.format)?;
    let payload = short_text(alloc, reply.payload.as_slice())?;
    format!(in alloc; "answer {code} {format} {payload}")
}

fn unverified_text(alloc: Global, code: Code) -> Result<String, AllocError>
    ensures { IfOk result (λ text. string_bytes text ≡ spec.learnt_text (Unverified code)) }
{
    let code = code;
    format!(in alloc; "unverified {code}")
}

// ---- what was sent

/// A line for each datagram, after as many that were sent before.
fn sent_lines(
    alloc: Global,
    with_bytes: bool,
    before: usize,
    datagrams: &[SentDatagram],
) -> Result<Vec<u8>, AllocError>
    requires { before + length datagrams.now < 2 ^ 64 }
    ensures { IfOk result (λ lines. PrintAllSent with_bytes (before + 1) datagrams.now lines.items) }
{
    let mut lines = Vec::new(alloc);
    let mut number = before;
    for datagram in datagrams {
        number += 1;
        let line = sent_line(alloc, with_bytes, number, datagram)?;
        lines.extend_from_slice(line.as_bytes())?;
    }
    Ok(lines)
}

/// `sent K FROM>TO TYPE CODE`, with the bytes where they are wanted.
fn sent_line(
    alloc: Global,
    with_bytes: bool,
    number: usize,
    datagram: &SentDatagram,
) -> Result<String, AllocError>
    ensures { IfOk result (λ line. PrintsSent with_bytes number datagram.now (string_bytes line)) }
{
    let from = peer_name(datagram.from);
    let to = peer_name(datagram.to);
    let message = bytes_message_text(alloc, datagram.bytes.as_slice())?;
    let bytes = wanted_bytes_text(alloc, with_bytes, datagram.bytes.as_slice())?;
    format!(in alloc; "sent {number} {from}>{to} {message}{bytes}\n")
}

/// The name of the node that is there, or `?`.
fn peer_name(peer: Peer) -> &'static str
    ensures { NamesPeer peer result.now }
{
    match NodeName::at(peer) {
        Some(node) => node.name(),
        None => "?",
    }
}

/// The type and the code of the message that the bytes are, or `?` where they are none.
fn bytes_message_text(alloc: Global, bytes: &[u8]) -> Result<String, AllocError>
    ensures { IfOk result (λ text. TellsMessage bytes.now (string_bytes text)) }
{
    match MessageRef::parse(bytes) {
        Ok(message) => message_text(alloc, &message),
        Err(_) => "?".to_string(alloc),
    }
}
