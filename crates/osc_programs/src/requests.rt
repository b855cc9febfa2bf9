//! A client that stays: one exchange, and the requests of a file, one after another under the same context.
ghost use Rattle.std.specs.Prelude.{◌≡◌, ◌⊎◌, ◌+◌, ℕ, [], ◌∷◌, List, Option, Some, None, IfErr, IfOk, IfSome, is_some, not, option_map, string_bytes};
ghost use Rattle.std.specs.Io.KnownBytes.{Appends};
ghost use Rattle.osc_client.specs.State.{State as AnyClient};
ghost use Rattle.osc_model.specs.declared.request.Request.{Request as AnyRequest};
ghost use Rattle.osc_turn.specs.{ClockAndRandomState, IsSeeded};
ghost use Rattle.osc_words.specs.RequestLines as lines;
ghost use Rattle.osc_words.specs.Settings.{StandsFor, AreClientSettings, IsClientFault, IsKeyFault};
ghost use Rattle.osc_words.specs.declared.settings.client.ClientSettings.{ClientSettings as AnySettings};
ghost use Rattle.osc_programs.specs.Conversation as conversation;
ghost use Rattle.osc_programs.specs.Ended as ends;
ghost use Rattle.osc_programs.specs.Input.{IsWithin, TakesAtMost, longest_script, longest_settings};
ghost use Rattle.osc_programs.specs.Staying as spec;
ghost use Rattle.osc_programs.specs.Staying.{Progress as AnyProgress};
ghost use Rattle.osc_programs.specs.System as system;
ghost use Rattle.osc_programs.specs.System.{Passed as AnyPassed};
ghost use Rattle.osc_programs.specs.Unread.{TellsWhy};

use crate::asking::{
    AskEnd, Left, Talking, awaited, client_of, client_turn, post, send_request, told,
};
use crate::ended::{Ended, said};
use crate::input::script_bytes;
use crate::reading::client_settings;
use crate::running::{opened, tell_failure};
use crate::strange::{Aside, OnError};
use crate::supply::{moment_and_draw, supply_of};
use crate::udp::Sockets;
use osc_client::Client;
use osc_log::Log;
use osc_model::{ClientResult, Moment, Peer, Request, refusals};
use osc_script::ScriptError;
use osc_simulation::learnt_text;
use osc_turn::{Pace, Port, Seeds, Watch};
use osc_words::{Patience, read_requests};
use std::alloc::{AllocError, Global};
use std::io::{Eprint, Read, Write};
use std::time::Clock;

/// What a client is asked for that stays.
#[derive(Drop)]
pub struct Asked {
    /// The requests, in order; none stands for a line that says none.
    pub requests: Vec<Option<Request>>,
    /// How they are sent.
    pub manner: Manner,
}

/// How requests are sent one after another.
#[derive(Clone, Copy, Debug, PartialEq, Eq)]
pub struct Manner {
    /// How long the client waits after each post and each request.
    pub patience: Patience,
    /// How many milliseconds pass at least from one request to the next.
    pub pause: u64,
    /// Whether a request is sent again under a new context also where it may have been served.
    pub again: bool,
}

/// A message of a client.
#[derive(Clone, Copy, Debug, PartialEq, Eq)]
pub(crate) enum About {
    /// The post of its token.
    Post,
    /// A request.
    Request,
}

/// What came of a request.
#[derive(Drop)]
pub(crate) struct LineEnd {
    /// The message that the outcome is of.
    pub about: About,
    /// Whether the request was sent; if not, it can't have been served.
    pub sent: bool,
    /// The outcome.
    pub outcome: AskEnd,
}

/// The requests that the reader gives, a line each, where it gives no more bytes than a script may have.
pub fn requests_from<I: Read>(alloc: Global, reader: &mut I) -> Result<Vec<Option<Request>>, Ended>
    ensures said { IfOk result (λ said. IfSome (I.remaining reader.old) (λ text. lines.Say (lines.lines_of text) said.items)) }
    ensures bad { IfErr result (λ ended. (n : ℕ) → ended ≡ Ended.BadLine n → IfSome (I.remaining reader.old) (λ text. lines.IsFirstBad (lines.lines_of text) n)) }
    ensures end { TakesAtMost (longest_script + 1) (I.remaining reader.old) (I.remaining reader.new) }
{
    let text = script_bytes(alloc, reader)?;
    requests_in(alloc, &text)
}

fn requests_in(alloc: Global, text: &[u8]) -> Result<Vec<Option<Request>>, Ended>
    ensures said { IfOk result (λ said. lines.Say (lines.lines_of text.now) said.items) }
    ensures bad { IfErr result (λ ended. (n : ℕ) → ended ≡ Ended.BadLine n → lines.IsFirstBad (lines.lines_of text.now) n) }
{
    match read_requests(alloc, text) {
        Ok(requests) => Ok(requests),
        Err(ScriptError::BadLine(number)) => Err(Ended::BadLine(number)),
        Err(ScriptError::OutOfMemory) => Err(Ended::OutOfMemory),
    }
}

/// The line that tells on the standard error why there are no requests, if one does.
pub fn requests_fault(alloc: Global, ended: Ended) -> Result<Option<String>, AllocError>
    ensures { IfOk result (λ line. option_map string_bytes line ≡ spec.requests_fault_of ended) }
{
    match ended {
        Ended::BadLine(number) => bad_line(alloc, number),
        Ended::TooLong => said(alloc, "--requests: more than 16777216 bytes"),
        Ended::OutOfMemory => said(alloc, "out of memory"),
        _ => Ok(None),
    }
}

fn bad_line(alloc: Global, number: u64) -> Result<Option<String>, AllocError>
    ensures { IfOk result (λ line. option_map string_bytes line ≡ spec.requests_fault_of (Ended.BadLine number)) }
{
    Ok(Some(format!(in alloc;
        "--requests: line {number}: should be METHOD PATH [HEX] [format=N]"
    )?))
}

/// Runs a client with the settings that the reader gives: it posts its token, and sends each request under the context that this makes. Where the
/// server has no such context any more, or its numbers are used up, it posts its token once again. It sends a request again only where it was never sent, or
/// where that is asked for. The line of what came of each request is written, in order, as that of `osc client`; a line on the standard error says of
/// one that isn't answered which message failed, and whether the request may have been served.
/// A line there also tells at once what the client doesn't understand of an answer.
pub fn ask_each<R: Clock + Eprint + Seeds + Sockets, I: Read, L: Log, W: Write>(
    alloc: Global,
    runtime: &R,
    reader: &mut I,
    log: &mut L,
    writer: &mut W,
    asked: &Asked,
) -> Ended
    ensures told { (result ≡ Ended.Done) ⊎ (result ≡ Ended.NotDone) → (first : AnyClient) × (settings : AnySettings)
        × IfSome (I.remaining reader.old) (λ text. StandsFor AreClientSettings text settings) × conversation.IsClientOf settings first
        × (start : ClockAndRandomState) × (last : AnyProgress) × IsSeeded start × spec.Stays asked.now.manner (spec.begun first start) asked.now.requests.items last
        × system.RunsOn (R.gave runtime.now) (R.opened runtime.now (settings.bind ∷ []) (Some settings.peer)) R.Socket.received R.Socket.sent start last.passed
        × (result ≡ spec.ended_by_ends last.ends) × Appends (W.contents writer.old) (W.contents writer.new) (spec.ends_text last.ends) }
    ensures bad { result ≡ Ended.BadSettings → TellsWhy (λ document. IsKeyFault (IsClientFault document)) (I.remaining reader.old) (L.told log.old) (L.told log.new) }
    ensures short { (result ≡ Ended.Done) ⊎ (result ≡ Ended.NotDone) → IsWithin longest_settings (I.remaining reader.old) }
    ensures end { TakesAtMost (longest_settings + 1) (I.remaining reader.old) (I.remaining reader.new) }
    ensures ends { ends.EndsEach result }
{
    match each_by(alloc, runtime, reader, log, writer, asked) {
        Ok(ended) => ended,
        Err(ended) => ended,
    }
}

fn each_by<R: Clock + Eprint + Seeds + Sockets, I: Read, L: Log, W: Write>(
    alloc: Global,
    runtime: &R,
    reader: &mut I,
    log: &mut L,
    writer: &mut W,
    asked: &Asked,
) -> Result<Ended, Ended>
    ensures stays { IfOk result (λ ended. (first : AnyClient) × (settings : AnySettings)
        × IfSome (I.remaining reader.old) (λ text. StandsFor AreClientSettings text settings) × conversation.IsClientOf settings first
        × (start : ClockAndRandomState) × (last : AnyProgress) × IsSeeded start × spec.Stays asked.now.manner (spec.begun first start) asked.now.requests.items last
        × system.RunsOn (R.gave runtime.now) (R.opened runtime.now (settings.bind ∷ []) (Some settings.peer)) R.Socket.received R.Socket.sent start last.passed
        × (ended ≡ spec.ended_by_ends last.ends) × Appends (W.contents writer.old) (W.contents writer.new) (spec.ends_text last.ends)) }
    ensures bad { IfErr result (λ ended. ended ≡ Ended.BadSettings → TellsWhy (λ document. IsKeyFault (IsClientFault document)) (I.remaining reader.old) (L.told log.old) (L.told log.new)) }
    ensures short { IfOk result (λ _. IsWithin longest_settings (I.remaining reader.old)) }
    ensures end { TakesAtMost (longest_settings + 1) (I.remaining reader.old) (I.remaining reader.new) }
    ensures ends { IfErr result ends.CannotAskEach }
{
    let settings = client_settings(alloc, reader, log)?;
    let bind = settings.bind;
    let peer = settings.peer;
    let client = client_of(alloc, settings)?;
    run_at(alloc, runtime, (bind, peer), client, writer, asked)
}

// ---- one after another

// A client that stays: itself, with what it runs by; from which millisecond on its next request may be sent; and whether the server said that it
// has no such context.
#[derive(Drop)]
struct Staying<A: Aside + Drop, W: Watch + Drop> {
    talking: Talking<A, W>,
    due: u64,
    stale: bool,
}

// The client at its own address, with the peer that everything goes to.
fn run_at<R: Clock + Eprint + Seeds + Sockets, W: Write>(
    alloc: Global,
    runtime: &R,
    way: (Peer, Peer),
    client: Client,
    writer: &mut W,
    asked: &Asked,
) -> Result<Ended, Ended>
    ensures stays { IfOk result (λ ended. (start : ClockAndRandomState) × (last : AnyProgress) × IsSeeded start
        × spec.Stays asked.now.manner (spec.begun client start) asked.now.requests.items last
        × system.RunsOn (R.gave runtime.now) (R.opened runtime.now (way.0 ∷ []) (Some way.1)) R.Socket.received R.Socket.sent start last.passed
        × (ended ≡ spec.ended_by_ends last.ends) × Appends (W.contents writer.old) (W.contents writer.new) (spec.ends_text last.ends)) }
    ensures ends { IfErr result ends.CannotTalkEach }
{
    let mut port = opened(alloc, runtime, &[way.0], Some(way.1))?;
    let supply = supply_of(runtime)?;
    let mut staying = Staying {
        talking: Talking {
            client,
            pace: Pace::START,
            supply,
            aside: OnError::new(runtime),
        },
        due: 0,
        stale: false,
    };
    let ended = each(alloc, runtime, &mut port, &mut staying, writer, asked);
    tell_failure(alloc, runtime, &port);
    ended
}

// Each request, in order.
fn each<R: Eprint, A: Aside + Drop, T: Watch + Drop, P: Port, W: Write>(
    alloc: Global,
    runtime: &R,
    port: &mut P,
    staying: &mut Staying<A, T>,
    writer: &mut W,
    asked: &Asked,
) -> Result<Ended, Ended>
    ensures stays { IfOk result (λ ended. (last : AnyProgress)
        × spec.Stays asked.now.manner (record { client = (record { node = staying.old.talking.client; busy = staying.old.talking.pace.busy_since; supply = staying.old.talking.supply }); due = staying.old.due; stale = staying.old.stale; ends = []; passed = system.nothing_passed }) asked.now.requests.items last
        × system.Passes P.received P.sent port.old port.new last.passed
        × (ended ≡ spec.ended_by_ends last.ends) × Appends (W.contents writer.old) (W.contents writer.new) (spec.ends_text last.ends)) }
    ensures ends { IfErr result (λ ended. (request : AnyRequest) × ends.CannotTalk request ended) }
{
    let mut ended = Ended::Done;
    let mut number: u64 = 0;
    for entry in &asked.requests {
        number = number.saturating_add(1);
        if let Some(request) = entry {
            let end = one(alloc, port, staying, asked.manner, request)?;
            let well = tell(alloc, runtime, writer, number, end)?;
            ended = ended_with(ended, well);
        }
    }
    Ok(ended)
}

// One more request, no earlier than it is due.
fn one<A: Aside + Drop, T: Watch + Drop, P: Port>(
    alloc: Global,
    port: &mut P,
    staying: &mut Staying<A, T>,
    manner: Manner,
    request: &Request,
) -> Result<LineEnd, Ended>
    ensures attended { IfOk result (λ end. (passed : AnyPassed)
        × spec.Attended manner request.now (record { node = staying.old.talking.client; busy = staying.old.talking.pace.busy_since; supply = staying.old.talking.supply }) staying.old.due staying.old.stale end passed (record { node = staying.new.talking.client; busy = staying.new.talking.pace.busy_since; supply = staying.new.talking.supply }) staying.new.due staying.new.stale
        × system.Passes P.received P.sent port.old port.new passed) }
    ensures ends { IfErr result (ends.CannotTalk request.now) }
{
    let now = paused(alloc, port, &mut staying.talking, staying.due)?;
    let end = attended(
        alloc,
        port,
        &mut staying.talking,
        (manner, staying.stale),
        request,
    )?;
    staying.due = now.ms.saturating_add(manner.pause);
    staying.stale = is_stale(&end);
    Ok(end)
}

// Turns, until a moment is no earlier than this one: that moment.
fn paused<A: Aside + Drop, T: Watch + Drop, P: Port>(
    alloc: Global,
    port: &mut P,
    talking: &mut Talking<A, T>,
    due: u64,
) -> Result<Moment, Ended>
    ensures pauses { IfOk result (λ now. (passed : AnyPassed) × spec.Pauses due (record { node = talking.old.client; busy = talking.old.pace.busy_since; supply = talking.old.supply }) now passed (record { node = talking.new.client; busy = talking.new.pace.busy_since; supply = talking.new.supply })
        × system.Passes P.received P.sent port.old port.new passed) }
    ensures fault { IfErr result ends.IsFault }
{
    for _ in 0..u64::MAX {
        let (now, _draw) = moment_and_draw(&mut talking.supply)?;
        if due <= now.ms {
            return Ok(now);
        }
        let learnt = client_turn(alloc, port, talking)?;
        drop(learnt);
    }
    Err(Ended::Failed)
}

// ---- one request

// The request, of a client whose context was told to be gone or not.
fn attended<A: Aside + Drop, T: Watch + Drop, P: Port>(
    alloc: Global,
    port: &mut P,
    talking: &mut Talking<A, T>,
    how: (Manner, bool),
    request: &Request,
) -> Result<LineEnd, Ended>
    ensures attends { IfOk result (λ end. (passed : AnyPassed) × spec.Attends how.0.again how.0.patience request.now (record { node = talking.old.client; busy = talking.old.pace.busy_since; supply = talking.old.supply }) how.1 end passed (record { node = talking.new.client; busy = talking.new.pace.busy_since; supply = talking.new.supply })
        × system.Passes P.received P.sent port.old port.new passed) }
    ensures ends { IfErr result (ends.CannotTalk request.now) }
{
    let (manner, stale) = how;
    if stale {
        return asked_after_post(alloc, port, talking, manner.patience, request);
    }
    let first = asked_once(alloc, port, talking, manner.patience, request)?;
    if goes_again(manner.again, &first) {
        let end = asked_after_post(alloc, port, talking, manner.patience, request)?;
        return Ok(sent_by(first.sent, end));
    }
    Ok(first)
}

// The same, sent the first time or not.
fn sent_by(first: bool, end: LineEnd) -> LineEnd
    ensures { result ≡ spec.sent_by first end }
{
    LineEnd {
        about: end.about,
        sent: first || end.sent,
        outcome: end.outcome,
    }
}

// The token's post, and the request where that makes a context.
fn asked_after_post<A: Aside + Drop, T: Watch + Drop, P: Port>(
    alloc: Global,
    port: &mut P,
    talking: &mut Talking<A, T>,
    patience: Patience,
    request: &Request,
) -> Result<LineEnd, Ended>
    ensures asks { IfOk result (λ end. (passed : AnyPassed) × spec.AsksAfterPost patience request.now (record { node = talking.old.client; busy = talking.old.pace.busy_since; supply = talking.old.supply }) end passed (record { node = talking.new.client; busy = talking.new.pace.busy_since; supply = talking.new.supply })
        × system.Passes P.received P.sent port.old port.new passed) }
    ensures ends { IfErr result (ends.CannotTalk request.now) }
{
    let outcome = renewed(alloc, port, talking, patience)?;
    if is_made(&outcome) {
        return asked_once(alloc, port, talking, patience, request);
    }
    Ok(LineEnd {
        about: About::Post,
        sent: false,
        outcome,
    })
}

// The token's post.
fn renewed<A: Aside + Drop, T: Watch + Drop, P: Port>(
    alloc: Global,
    port: &mut P,
    talking: &mut Talking<A, T>,
    patience: Patience,
) -> Result<AskEnd, Ended>
    ensures renews { IfOk result (λ outcome. (passed : AnyPassed) × spec.Renews patience (record { node = talking.old.client; busy = talking.old.pace.busy_since; supply = talking.old.supply }) outcome passed (record { node = talking.new.client; busy = talking.new.pace.busy_since; supply = talking.new.supply })
        × system.Passes P.received P.sent port.old port.new passed) }
    ensures fault { IfErr result ends.IsFault }
{
    let learnt = post(alloc, port, talking)?;
    let mut left = Left::all(patience, learnt.at);
    awaited(alloc, port, talking, &mut left, learnt)
}

// The request, once.
fn asked_once<A: Aside + Drop, T: Watch + Drop, P: Port>(
    alloc: Global,
    port: &mut P,
    talking: &mut Talking<A, T>,
    patience: Patience,
    request: &Request,
) -> Result<LineEnd, Ended>
    ensures once { IfOk result (λ end. (passed : AnyPassed) × spec.Once patience request.now (record { node = talking.old.client; busy = talking.old.pace.busy_since; supply = talking.old.supply }) end passed (record { node = talking.new.client; busy = talking.new.pace.busy_since; supply = talking.new.supply })
        × system.Passes P.received P.sent port.old port.new passed) }
    ensures ends { IfErr result (ends.CannotTalk request.now) }
{
    let learnt = send_request(alloc, port, talking, request)?;
    let mut left = Left::all(patience, learnt.at);
    let sent = went_out(&learnt.result);
    let outcome = awaited(alloc, port, talking, &mut left, learnt)?;
    Ok(LineEnd {
        about: About::Request,
        sent,
        outcome,
    })
}

// A request of which something is learnt at once was refused.
fn went_out(learnt: &Option<ClientResult>) -> bool
    ensures { result ≡ not (is_some learnt.now) }
{
    match learnt {
        Some(_) => false,
        None => true,
    }
}

// ---- what an outcome says

fn goes_again(again: bool, end: &LineEnd) -> bool
    ensures { result ≡ spec.goes_again again end.now }
{
    !end.sent && lacks_context(&end.outcome) || again && is_gone(&end.outcome)
}

fn is_made(outcome: &AskEnd) -> bool
    ensures { result ≡ spec.is_made outcome.now }
{
    matches!(outcome, AskEnd::Told(ClientResult::Made))
}

fn is_gone(outcome: &AskEnd) -> bool
    ensures { result ≡ spec.is_gone outcome.now }
{
    match outcome {
        AskEnd::Told(ClientResult::Unverified(code)) => code.0 == 129,
        _ => false,
    }
}

fn lacks_context(outcome: &AskEnd) -> bool
    ensures { result ≡ spec.lacks_context outcome.now }
{
    match outcome {
        AskEnd::Told(ClientResult::Refused(number)) => {
            *number == refusals::NO_CONTEXT || *number == refusals::EXHAUSTED
        }
        _ => false,
    }
}

fn is_stale(end: &LineEnd) -> bool
    ensures { result ≡ spec.is_stale end.now }
{
    match end.about {
        About::Post => true,
        About::Request => is_gone(&end.outcome),
    }
}

// ---- what is told

// Writes the line of what came of a request: whether its answer is of class 2.
fn tell<R: Eprint, W: Write>(
    alloc: Global,
    runtime: &R,
    writer: &mut W,
    number: u64,
    end: LineEnd,
) -> Result<bool, Ended>
    ensures told { IfOk result (λ well. (well ≡ spec.is_answered_well end.outcome) × Appends (W.contents writer.old) (W.contents writer.new) (conversation.outcome_text end.outcome)) }
    ensures ends { IfErr result (λ ended. (request : AnyRequest) → ends.CannotTalk request ended) }
{
    let well = tell_by(alloc, runtime, writer, number, &end);
    drop(end);
    well
}

// The same of an end that somebody else drops.
fn tell_by<R: Eprint, W: Write>(
    alloc: Global,
    runtime: &R,
    writer: &mut W,
    number: u64,
    end: &LineEnd,
) -> Result<bool, Ended>
    ensures told { IfOk result (λ well. (well ≡ spec.is_answered_well end.now.outcome) × Appends (W.contents writer.old) (W.contents writer.new) (conversation.outcome_text end.now.outcome)) }
    ensures ends { IfErr result (λ ended. (request : AnyRequest) → ends.CannotTalk request ended) }
{
    tell_fault(alloc, runtime, number, end);
    match told(alloc, writer, false, &end.outcome) {
        Ended::Done => Ok(true),
        Ended::NotDone => Ok(false),
        Ended::OutOfMemory => Err(Ended::OutOfMemory),
        _ => Err(Ended::Failed),
    }
}

// How it ends after one more request, which was answered so.
fn ended_with(ended: Ended, well: bool) -> Ended
    ensures { result ≡ spec.ended_with ended well }
{
    if well { ended } else { Ended::NotDone }
}

// Where a request isn't answered, a line on the standard error says which message failed, and whether the request may have been served.
fn tell_fault<R: Eprint>(alloc: Global, runtime: &R, number: u64, end: &LineEnd) {
    if !is_answered(&end.outcome) {
        if let Ok(line) = fault_line(alloc, number, end) {
            let _told = runtime.eprintln(line.as_str());
        }
    }
}

/// The same of a client that made one exchange, and sent one request where that made a context.
pub(crate) fn tell_end<R: Eprint>(
    alloc: Global,
    runtime: &R,
    client: &Client,
    outcome: &Result<AskEnd, Ended>,
) {
    if let Ok(outcome) = outcome {
        if !is_answered(outcome) {
            let about = last_of(client);
            if let Ok(text) = fault_text(alloc, about, is_sent(about, outcome), outcome) {
                let _told = runtime.eprintln(text.as_str());
            }
        }
    }
}

// Its last message: without a context no request was sent.
fn last_of(client: &Client) -> About {
    match client.context() {
        Some(_) => About::Request,
        None => About::Post,
    }
}

// A request that is refused is never sent.
fn is_sent(about: About, outcome: &AskEnd) -> bool {
    about == About::Request && !matches!(outcome, AskEnd::Told(ClientResult::Refused(_)))
}

fn is_answered(outcome: &AskEnd) -> bool
    ensures { result ≡ spec.is_answered outcome.now }
{
    matches!(outcome, AskEnd::Told(ClientResult::Answer(_)))
}

fn fault_line(alloc: Global, number: u64, end: &LineEnd) -> Result<String, AllocError>
    ensures { IfOk result (λ line. string_bytes line ≡ spec.fault_line number end.now) }
{
    let text = fault_text(alloc, end.about, end.sent, &end.outcome)?;
    format!(in alloc; "line {number}: {text}")
}

fn fault_text(
    alloc: Global,
    about: About,
    sent: bool,
    outcome: &AskEnd,
) -> Result<String, AllocError>
    ensures { IfOk result (λ text. string_bytes text ≡ spec.fault_text about sent outcome.now) }
{
    let about = about_text(about);
    let words = told_words(alloc, sent, outcome)?;
    format!(in alloc; "{about}: {words}")
}

fn told_words(alloc: Global, sent: bool, outcome: &AskEnd) -> Result<String, AllocError>
    ensures { IfOk result (λ words. string_bytes words ≡ spec.told_words sent outcome.now) }
{
    let mut words = outcome_words(alloc, outcome)?;
    words.push_str(known_text(sent))?;
    Ok(words)
}

fn about_text(about: About) -> &'static str
    ensures { result.now ≡ spec.about_text about }
{
    match about {
        About::Post => "the token's post",
        About::Request => "the request",
    }
}

fn outcome_words(alloc: Global, outcome: &AskEnd) -> Result<String, AllocError>
    ensures { IfOk result (λ words. string_bytes words ≡ spec.outcome_words outcome.now) }
{
    match outcome {
        AskEnd::Told(learnt) => learnt_text(alloc, learnt),
        AskEnd::Open => "open".to_string(alloc),
    }
}

// What is known of a request that isn't answered.
fn known_text(sent: bool) -> &'static str
    ensures { result.now ≡ spec.known_text sent }
{
    if sent {
        "; the request may have been served"
    } else {
        "; the request wasn't sent"
    }
}
