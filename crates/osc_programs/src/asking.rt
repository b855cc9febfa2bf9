//! A client that runs on a socket: one exchange, and one protected request.
ghost use Rattle.std.specs.Prelude.{◌≡◌, ◌≢◌, ◌⊎◌, ◌+◌, ◌-◌, ◌^◌, min, ◌∷◌, [], Err, List, IfErr, IfOk, IfSome, None, Option, Some, option_map, string_bytes};
ghost use Rattle.std.specs.Io.KnownBytes.{Appends};
ghost use Rattle.osc_client.specs.{acts_at, IsStep, HostAndPort};
ghost use Rattle.osc_client.specs.State.{State as AnyClient};
ghost use Rattle.osc_model.specs.declared.step.Step.{Step as AnyStep};
ghost use Rattle.osc_turn.specs.{Received};
ghost use Rattle.osc_turn.specs.Time.{ms_of};
ghost use Rattle.osc_programs.specs.Unread.{TellsWhy};
ghost use Rattle.osc_words.specs.Settings.{StandsFor, AreClientSettings, IsClientFault, IsKeyFault};
ghost use Rattle.osc_words.specs.declared.settings.client.ClientSettings.{ClientSettings as AnySettings};
ghost use Rattle.osc_simulation.specs.{is_sealing};
ghost use Rattle.osc_programs.specs.Conversation as spec;
ghost use Rattle.osc_programs.specs.Ended as ends;
ghost use Rattle.osc_programs.specs.Input.{IsWithin, TakesAtMost, longest_settings};
ghost use Rattle.osc_programs.specs.Strange.{IsTold};
ghost use Rattle.osc_programs.specs.System as system;
ghost use Rattle.osc_programs.specs.System.{Passed as AnyPassed};
ghost use Rattle.osc_programs.specs.Turning as turning;
ghost use Rattle.osc_programs.specs.Written.{IsBegun};
ghost use Rattle.osc_programs.specs.declared.asking.AskEnd.{AskEnd as AnyOutcome};

use crate::ended::Ended;
use crate::issue::written;
use crate::reading::client_settings;
use crate::requests::tell_end;
use crate::running::{copy_of, opened, send, tell_failure};
use crate::strange::{Aside, OnError, tell_strange};
use crate::supply::{moment_and_draw, supply_of};
use crate::turns::take_turn;
use crate::udp::Sockets;
use osc_authz::ClientDesk;
use osc_ccm::Suite;
use osc_client::{Client, Origin, Route};
use osc_log::Log;
use osc_model::{Bytes, ClientResult, Moment, Peer, Request, Step};
use osc_simulation::learnt_text;
use osc_turn::{ClockAndRandom, Pace, Port, Seeds, Turned, Watch};
use osc_words::{ClientSettings, ClientWords, Patience};
use std::alloc::{AllocError, Global};
use std::io::{Eprint, Read, Write};
use std::time::Clock;

/// The outcome of a program's client at last: its last result, or none where it still waited when its patience was over.
#[derive(Drop)]
pub(crate) enum AskEnd {
    /// The last result.
    Told(ClientResult),
    /// Something is still open.
    Open,
}

/// What is left of a client's patience.
#[derive(Clone, Copy, Debug, PartialEq, Eq)]
pub(crate) struct Left {
    /// How many turns it may still take.
    pub turns: u64,
    /// From which millisecond on it begins none.
    pub until: u64,
}

impl Left {
    /// All of it, for a client that begins to wait at this moment.
    pub fn all(patience: Patience, now: Moment) -> Left
        ensures turns { result.turns ≡ patience.turns }
        ensures until { result.until ≡ min (now.ms + patience.millis) (2 ^ 64 - 1) }
    {
        Left {
            turns: patience.turns,
            until: now.ms.saturating_add(patience.millis),
        }
    }
}

/// What a client learnt by a step, if it did, and at which moment.
#[derive(Drop)]
pub(crate) struct Learnt {
    /// The moment, which is the client's time.
    pub at: Moment,
    /// What it learnt.
    pub result: Option<ClientResult>,
}

/// Runs a client with the settings that the reader gives: it posts its token, and where that makes a context it sends the request of
/// the words, protected. The line of its last result is written, or `c1 open` where its patience is over before. Where the words want it raw, only
/// the payload of an answer is written, and the line of any other end goes to the standard error. Where there are no settings, the log tells
/// why; where the port fails, a line on the standard error does.
/// A line there also tells at once what the client doesn't understand of an answer.
pub fn ask<R: Clock + Eprint + Seeds + Sockets, I: Read, L: Log, W: Write>(
    alloc: Global,
    runtime: &R,
    reader: &mut I,
    log: &mut L,
    writer: &mut W,
    words: &ClientWords,
) -> Ended
    ensures told { (result ≡ Ended.Done) ⊎ (result ≡ Ended.NotDone) → (first last : AnyClient) × (outcome : AnyOutcome) × (settings : AnySettings)
        × IfSome (I.remaining reader.old) (λ text. StandsFor AreClientSettings text settings) × spec.IsClientOf settings first
        × (talks : spec.Talks words.now.patience words.now.request first outcome last)
        × system.RunsOn (R.gave runtime.now) (R.opened runtime.now (settings.bind ∷ []) (Some settings.peer)) R.Socket.received R.Socket.sent talks.start talks.passed
        × (result ≡ spec.ended_by_outcome outcome) × Appends (W.contents writer.old) (W.contents writer.new) (spec.printed_text words.now.raw outcome) }
    ensures bad { result ≡ Ended.BadSettings → TellsWhy (λ document. IsKeyFault (IsClientFault document)) (I.remaining reader.old) (L.told log.old) (L.told log.new) }
    ensures short { (result ≡ Ended.Done) ⊎ (result ≡ Ended.NotDone) → IsWithin longest_settings (I.remaining reader.old) }
    ensures end { TakesAtMost (longest_settings + 1) (I.remaining reader.old) (I.remaining reader.new) }
    ensures ends { ends.EndsClient words.now.request result }
{
    match outcome_of(alloc, runtime, reader, log, words) {
        Ok(outcome) => {
            tell_aside(alloc, runtime, words.raw, &outcome);
            told(alloc, writer, words.raw, &outcome)
        }
        Err(ended) => ended,
    }
}

// ---- the last result

// Where only a payload is written, the line of what is no answer of class 2 goes to the standard error, if that can be written.
fn tell_aside<R: Eprint>(alloc: Global, runtime: &R, raw: bool, outcome: &AskEnd) {
    if raw && ended_by_outcome(outcome) != Ended::Done {
        if let Ok(line) = outcome_line(alloc, outcome) {
            let _told = runtime.eprintln(line.as_str().trim_end());
        }
    }
}

pub(crate) fn told<W: Write>(alloc: Global, writer: &mut W, raw: bool, outcome: &AskEnd) -> Ended
    ensures told { (result ≡ Ended.Done) ⊎ (result ≡ Ended.NotDone) → (result ≡ spec.ended_by_outcome outcome.now)
        × Appends (W.contents writer.old) (W.contents writer.new) (spec.printed_text raw outcome.now) }
    ensures cut { result ≡ Ended.OutOfMemory → Appends (W.contents writer.old) (W.contents writer.new) [] }
    ensures begun { result ≡ Ended.Failed → IsBegun (spec.printed_text raw outcome.now) (W.contents writer.old) (W.contents writer.new) }
    ensures ends { ends.EndsTold result }
{
    let Ok(text) = printed(alloc, raw, outcome) else {
        return Ended::OutOfMemory;
    };
    match written(writer, &text) {
        Ended::Done => ended_by_outcome(outcome),
        fault => fault,
    }
}

fn printed(alloc: Global, raw: bool, outcome: &AskEnd) -> Result<Vec<u8>, AllocError>
    ensures { IfOk result (λ text. text.items ≡ spec.printed_text raw outcome.now) }
{
    if raw {
        return Vec::from_slice(alloc, payload_of(outcome));
    }
    let line = outcome_line(alloc, outcome)?;
    Vec::from_slice(alloc, line.as_bytes())
}

// The payload of an answer.
fn payload_of(outcome: &AskEnd) -> &[u8]
    ensures { result.now ≡ spec.raw_text outcome.now }
{
    match outcome {
        AskEnd::Told(ClientResult::Answer(reply)) => reply.payload.as_slice(),
        _ => &[],
    }
}

pub(crate) fn outcome_line(alloc: Global, outcome: &AskEnd) -> Result<String, AllocError>
    ensures { IfOk result (λ line. string_bytes line ≡ spec.outcome_text outcome.now) }
{
    match outcome {
        AskEnd::Told(learnt) => {
            let learnt = learnt_text(alloc, learnt)?;
            format!(in alloc; "c1 {learnt}\n")
        }
        AskEnd::Open => "c1 open\n".to_string(alloc),
    }
}

// An answer of class 2 is success.
fn ended_by_outcome(outcome: &AskEnd) -> Ended
    ensures { result ≡ spec.ended_by_outcome outcome.now }
{
    match outcome {
        AskEnd::Told(ClientResult::Answer(reply)) if reply.code.0 / 32 == 2 => Ended::Done,
        _ => Ended::NotDone,
    }
}

// ---- the client

fn outcome_of<R: Clock + Eprint + Seeds + Sockets, I: Read, L: Log>(
    alloc: Global,
    runtime: &R,
    reader: &mut I,
    log: &mut L,
    words: &ClientWords,
) -> Result<AskEnd, Ended>
    ensures talks { IfOk result (λ outcome. (first last : AnyClient) × (settings : AnySettings)
        × IfSome (I.remaining reader.old) (λ text. StandsFor AreClientSettings text settings) × spec.IsClientOf settings first
        × (talks : spec.Talks words.now.patience words.now.request first outcome last)
        × system.RunsOn (R.gave runtime.now) (R.opened runtime.now (settings.bind ∷ []) (Some settings.peer)) R.Socket.received R.Socket.sent talks.start talks.passed) }
    ensures bad { IfErr result (λ ended. ended ≡ Ended.BadSettings → TellsWhy (λ document. IsKeyFault (IsClientFault document)) (I.remaining reader.old) (L.told log.old) (L.told log.new)) }
    ensures short { IfOk result (λ _. IsWithin longest_settings (I.remaining reader.old)) }
    ensures end { TakesAtMost (longest_settings + 1) (I.remaining reader.old) (I.remaining reader.new) }
    ensures ends { IfErr result (ends.CannotAsk words.now.request) }
{
    let settings = client_settings(alloc, reader, log)?;
    let bind = settings.bind;
    let peer = settings.peer;
    let client = client_of(alloc, settings)?;
    run_at(alloc, runtime, bind, peer, client, words)
}

// A client with this grant. Settings have the lengths that a grant and an origin need.
pub(crate) fn client_of(alloc: Global, settings: ClientSettings) -> Result<Client, Ended>
    ensures client { IfOk result (λ client. spec.IsClientOf settings client) }
    ensures fault { IfErr result ends.IsFault }
{
    let ClientSettings {
        peer,
        origin,
        token,
        secret,
        salt,
        context,
        alg,
        ..
    } = settings;
    let way = Route {
        next_hop: peer,
        origin: origin_of(origin)?,
    };
    let Ok(desk) = ClientDesk::new(token, secret, salt, context, alg) else {
        return Err(Ended::Failed);
    };
    match Client::new(alloc, desk, way) {
        Ok(client) => Ok(client),
        Err(_) => Err(Ended::OutOfMemory),
    }
}

// The server of this host and port, if one is named.
fn origin_of(named: Option<(Bytes, u16)>) -> Result<Option<Origin>, Ended>
    ensures origin { IfOk result (λ origin. option_map (λ (o : HostAndPort). (o.host, o.port)) origin ≡ named) }
    ensures fault { IfErr result ends.IsFault }
{
    let Some((host, port)) = named else {
        return Ok(None);
    };
    match Origin::new(host, port) {
        Some(origin) => Ok(Some(origin)),
        None => Err(Ended::Failed),
    }
}

// ---- turns

// A client that runs in a program: itself, the pace that it keeps, what hands it moments and draws, and where it tells at once what it doesn't understand.
#[derive(Drop)]
pub(crate) struct Talking<A: Aside + Drop, W: Watch + Drop> {
    pub client: Client,
    pub pace: Pace,
    pub supply: ClockAndRandom<W>,
    pub aside: A,
}

// The client's conversation at its own address, with the peer that everything goes to.
fn run_at<R: Clock + Eprint + Seeds + Sockets>(
    alloc: Global,
    runtime: &R,
    bind: Peer,
    peer: Peer,
    client: Client,
    words: &ClientWords,
) -> Result<AskEnd, Ended>
    ensures talks { IfOk result (λ outcome. (last : AnyClient) × (talks : spec.Talks words.now.patience words.now.request client outcome last)
        × system.RunsOn (R.gave runtime.now) (R.opened runtime.now (bind ∷ []) (Some peer)) R.Socket.received R.Socket.sent talks.start talks.passed) }
    ensures ends { IfErr result (ends.CannotTalk words.now.request) }
{
    let mut port = opened(alloc, runtime, &[bind], Some(peer))?;
    let supply = supply_of(runtime)?;
    let mut talking = Talking {
        client,
        pace: Pace::START,
        supply,
        aside: OnError::new(runtime),
    };
    let outcome = run(alloc, &mut port, &mut talking, words);
    tell_failure(alloc, runtime, &port);
    tell_end(alloc, runtime, &talking.client, &outcome);
    outcome
}

// An exchange, and the request where that made a context; what the steps send is handed to the port.
fn run<A: Aside + Drop, W: Watch + Drop, P: Port>(
    alloc: Global,
    port: &mut P,
    talking: &mut Talking<A, W>,
    words: &ClientWords,
) -> Result<AskEnd, Ended>
    ensures converses { IfOk result (λ outcome. (passed : AnyPassed)
        × spec.Converses words.now.patience words.now.request (record { node = talking.old.client; busy = talking.old.pace.busy_since; supply = talking.old.supply }) (record { passed = passed; outcome = outcome }) (record { node = talking.new.client; busy = talking.new.pace.busy_since; supply = talking.new.supply })
        × system.Passes P.received P.sent port.old port.new passed) }
    ensures ends { IfErr result (ends.CannotTalk words.now.request) }
{
    let learnt = post(alloc, port, talking)?;
    let mut left = Left::all(words.patience, learnt.at);
    let exchanged = awaited(alloc, port, talking, &mut left, learnt)?;
    go_on(alloc, port, talking, &mut left, words, exchanged)
}

// The request, where the outcome of the post lets it be sent.
fn go_on<A: Aside + Drop, W: Watch + Drop, P: Port>(
    alloc: Global,
    port: &mut P,
    talking: &mut Talking<A, W>,
    left: &mut Left,
    words: &ClientWords,
    exchanged: AskEnd,
) -> Result<AskEnd, Ended>
    ensures goes_on { IfOk result (λ outcome. (passed : AnyPassed)
        × spec.GoesOn left.old.until left.old.turns words.now.request exchanged (record { node = talking.old.client; busy = talking.old.pace.busy_since; supply = talking.old.supply }) (record { passed = passed; outcome = outcome }) (record { node = talking.new.client; busy = talking.new.pace.busy_since; supply = talking.new.supply })
        × system.Passes P.received P.sent port.old port.new passed) }
    ensures ends { IfErr result (ends.CannotTalk words.now.request) }
{
    match exchanged {
        AskEnd::Told(result) => go_on_by(alloc, port, talking, left, words, result),
        AskEnd::Open => Ok(AskEnd::Open),
    }
}

// The same, where the client has learnt this.
fn go_on_by<A: Aside + Drop, W: Watch + Drop, P: Port>(
    alloc: Global,
    port: &mut P,
    talking: &mut Talking<A, W>,
    left: &mut Left,
    words: &ClientWords,
    told: ClientResult,
) -> Result<AskEnd, Ended>
    ensures goes_on { IfOk result (λ outcome. (passed : AnyPassed)
        × spec.GoesOnBy left.old.until left.old.turns words.now.request told (record { node = talking.old.client; busy = talking.old.pace.busy_since; supply = talking.old.supply }) (record { passed = passed; outcome = outcome }) (record { node = talking.new.client; busy = talking.new.pace.busy_since; supply = talking.new.supply })
        × system.Passes P.received P.sent port.old port.new passed) }
    ensures ends { IfErr result (ends.CannotTalk words.now.request) }
{
    match told {
        ClientResult::Made => ask_and_wait(alloc, port, talking, left, words),
        other => Ok(AskEnd::Told(other)),
    }
}

// Sends the request, and waits for the outcome.
fn ask_and_wait<A: Aside + Drop, W: Watch + Drop, P: Port>(
    alloc: Global,
    port: &mut P,
    talking: &mut Talking<A, W>,
    left: &mut Left,
    words: &ClientWords,
) -> Result<AskEnd, Ended>
    ensures requests { IfOk result (λ outcome. (passed : AnyPassed)
        × spec.Requests left.old.until left.old.turns words.now.request (record { node = talking.old.client; busy = talking.old.pace.busy_since; supply = talking.old.supply }) (record { passed = passed; outcome = outcome }) (record { node = talking.new.client; busy = talking.new.pace.busy_since; supply = talking.new.supply })
        × system.Passes P.received P.sent port.old port.new passed) }
    ensures ends { IfErr result (ends.CannotTalk words.now.request) }
{
    let learnt = send_request(alloc, port, talking, &words.request)?;
    awaited(alloc, port, talking, left, learnt)
}

// Posts the token.
pub(crate) fn post<A: Aside + Drop, W: Watch + Drop, P: Port>(
    alloc: Global,
    port: &mut P,
    talking: &mut Talking<A, W>,
) -> Result<Learnt, Ended>
    ensures posts { IfOk result (λ learnt. (step : AnyStep) × spec.Posts (record { node = talking.old.client; busy = talking.old.pace.busy_since; supply = talking.old.supply }) step (record { node = talking.new.client; busy = talking.new.pace.busy_since; supply = talking.new.supply })
        × (step.notes.result ≡ learnt.result) × system.Passes P.received P.sent port.old port.new (spec.sent_alone step)) }
    ensures at { IfOk result (λ learnt. learnt.at.ms ≡ ms_of talking.new.supply.time) }
    ensures fault { IfErr result ends.IsFault }
{
    let (now, draw) = moment_and_draw(&mut talking.supply)?;
    match talking.client.exchange(alloc, now, &draw) {
        Ok(step) => sent(port, now, step),
        Err(_) => Err(Ended::OutOfMemory),
    }
}

// Sends the request, protected. One with the code 0.00 is no request.
pub(crate) fn send_request<A: Aside + Drop, W: Watch + Drop, P: Port>(
    alloc: Global,
    port: &mut P,
    talking: &mut Talking<A, W>,
    request: &Request,
) -> Result<Learnt, Ended>
    ensures sends { IfOk result (λ learnt. (step : AnyStep) × spec.Sends request.now (record { node = talking.old.client; busy = talking.old.pace.busy_since; supply = talking.old.supply }) step (record { node = talking.new.client; busy = talking.new.pace.busy_since; supply = talking.new.supply })
        × (step.notes.result ≡ learnt.result) × system.Passes P.received P.sent port.old port.new (spec.sent_alone step)) }
    ensures at { IfOk result (λ learnt. learnt.at.ms ≡ ms_of talking.new.supply.time) }
    ensures ends { IfErr result (ends.CannotTalk request.now) }
{
    if request.code.0 == 0 {
        return Err(Ended::BadCommandLine);
    }
    let (now, draw) = moment_and_draw(&mut talking.supply)?;
    match talking.client.ask::<Suite>(alloc, now, request, &draw) {
        Ok(step) => sent(port, now, step),
        Err(_) => Err(Ended::OutOfMemory),
    }
}

// Sends what the step of this moment sends: what the client learnt by it, if it did.
fn sent<P: Port>(port: &mut P, now: Moment, step: Step) -> Result<Learnt, Ended>
    ensures learnt { IfOk result (λ learnt. learnt.result ≡ step.notes.result) }
    ensures at { IfOk result (λ learnt. learnt.at ≡ now) }
    ensures passed { IfOk result (λ _. system.Passes P.received P.sent port.old port.new (spec.sent_alone step)) }
    ensures fault { IfErr result ends.IsFault }
{
    let result = sent_by(port, &step);
    drop(step);
    Ok(Learnt {
        at: now,
        result: result?,
    })
}

// The same of a step that somebody else drops.
fn sent_by<P: Port>(port: &mut P, step: &Step) -> Result<Option<ClientResult>, Ended>
    ensures learnt { IfOk result (λ learnt. learnt ≡ step.now.notes.result) }
    ensures passed { IfOk result (λ _. system.Passes P.received P.sent port.old port.new (spec.sent_alone step.now)) }
    ensures fault { IfErr result ends.IsFault }
{
    send(port, &step.out)?;
    copy_of(step.notes.result())
}

// Turns until the client has learnt something, if it hasn't yet.
pub(crate) fn awaited<A: Aside + Drop, W: Watch + Drop, P: Port>(
    alloc: Global,
    port: &mut P,
    talking: &mut Talking<A, W>,
    left: &mut Left,
    learnt: Learnt,
) -> Result<AskEnd, Ended>
    requires { learnt.at.ms ≡ ms_of talking.old.supply.time }
    ensures waits { IfOk result (λ outcome. (passed : AnyPassed)
        × spec.Waits left.old.until left.old.turns learnt.result (record { node = talking.old.client; busy = talking.old.pace.busy_since; supply = talking.old.supply }) (record { passed = passed; outcome = outcome }) left.new.turns (record { node = talking.new.client; busy = talking.new.pace.busy_since; supply = talking.new.supply })
        × system.Passes P.received P.sent port.old port.new passed) }
    ensures until { left.new.until ≡ left.old.until }
    ensures fault { IfErr result ends.IsFault }
{
    let Learnt { at, result } = learnt;
    match result {
        Some(result) => Ok(AskEnd::Told(result)),
        None => wait(alloc, port, talking, left, at),
    }
}

// Turns until the client, whose time this is, has learnt something, as long as turns are left and its time isn't up.
fn wait<A: Aside + Drop, W: Watch + Drop, P: Port>(
    alloc: Global,
    port: &mut P,
    talking: &mut Talking<A, W>,
    left: &mut Left,
    at: Moment,
) -> Result<AskEnd, Ended>
    requires { at.ms ≡ ms_of talking.old.supply.time }
    ensures waits { IfOk result (λ outcome. (passed : AnyPassed)
        × spec.Waits left.old.until left.old.turns None (record { node = talking.old.client; busy = talking.old.pace.busy_since; supply = talking.old.supply }) (record { passed = passed; outcome = outcome }) left.new.turns (record { node = talking.new.client; busy = talking.new.pace.busy_since; supply = talking.new.supply })
        × system.Passes P.received P.sent port.old port.new passed) }
    ensures until { left.new.until ≡ left.old.until }
    ensures fault { IfErr result ends.IsFault }
{
    let Left { turns: most, until } = *left;
    let mut now = at;
    for taken in 0..most {
        if until <= now.ms {
            left.turns = most - taken;
            return Ok(AskEnd::Open);
        }
        let learnt = client_turn(alloc, port, talking)?;
        let Learnt { at, result: told } = learnt;
        now = at;
        if let Some(result) = told {
            left.turns = most - taken - 1;
            return Ok(AskEnd::Told(result));
        }
    }
    left.turns = 0;
    Ok(AskEnd::Open)
}

// What the client learnt by a turn, if it did. What it doesn't understand of what came is told.
pub(crate) fn client_turn<A: Aside + Drop, W: Watch + Drop, P: Port>(
    alloc: Global,
    port: &mut P,
    talking: &mut Talking<A, W>,
) -> Result<Learnt, Ended>
    ensures takes { IfOk result (λ learnt. (received : List (Option Received)) × (step : AnyStep) × turning.TakesTurn acts_at (IsStep is_sealing) (record { node = talking.old.client; busy = talking.old.pace.busy_since; supply = talking.old.supply }) received step (record { node = talking.new.client; busy = talking.new.pace.busy_since; supply = talking.new.supply })
        × (step.notes.result ≡ learnt.result) × system.Passes P.received P.sent port.old port.new (record { received = received; sent = step.out })
        × IsTold step.notes.opens (A.told talking.old.aside) (A.told talking.new.aside)) }
    ensures at { IfOk result (λ learnt. learnt.at.ms ≡ ms_of talking.new.supply.time) }
    ensures fault { IfErr result ends.IsFault }
{
    match take_turn(
        alloc,
        &mut talking.supply,
        port,
        &mut talking.client,
        &mut talking.pace,
    ) {
        Ok((at, turned)) => {
            tell_strange(&mut talking.aside, &turned.step.notes);
            learnt_of(at, turned)
        }
        Err(ended) => Err(ended),
    }
}

// What the client learnt by the turn of this moment, if all that it sent went out.
fn learnt_of(at: Moment, turned: Turned) -> Result<Learnt, Ended>
    ensures learnt { IfOk result (λ learnt. learnt.result ≡ turned.step.notes.result) }
    ensures at { IfOk result (λ learnt. learnt.at ≡ at) }
    ensures lost { turned.fault ≢ None → result ≡ Err Ended.PortFailed }
    ensures fault { IfErr result ends.IsFault }
{
    let result = learnt_by(&turned);
    drop(turned);
    Ok(Learnt {
        at,
        result: result?,
    })
}

// The same of a turn that somebody else drops.
fn learnt_by(turned: &Turned) -> Result<Option<ClientResult>, Ended>
    ensures learnt { IfOk result (λ learnt. learnt ≡ turned.now.step.notes.result) }
    ensures lost { turned.now.fault ≢ None → result ≡ Err Ended.PortFailed }
    ensures fault { IfErr result ends.IsFault }
{
    match turned.fault {
        None => copy_of(turned.step.notes.result()),
        Some(_) => Err(Ended::PortFailed),
    }
}
