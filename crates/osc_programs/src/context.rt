//! A security context for another stack: a token is posted, and what the exchange makes is written.
ghost use Rattle.std.specs.Prelude.{◌≡◌, ◌≢◌, ◌+◌, ◌∷◌, [], IfErr, IfOk, IfSome, IsSome, Some};
ghost use Rattle.std.specs.Io.KnownBytes.{Appends};
ghost use Rattle.osc_authz.specs.{ClientContextState};
ghost use Rattle.osc_client.specs.State.{State as AnyClient};
ghost use Rattle.osc_model.specs.declared.step.ClientResult.TheVariants as learnt;
ghost use Rattle.osc_words.specs.Settings.{StandsFor, AreClientSettings, IsClientFault, IsKeyFault};
ghost use Rattle.osc_words.specs.declared.settings.client.ClientSettings.{ClientSettings as AnySettings};
ghost use Rattle.osc_programs.specs.Context as spec;
ghost use Rattle.osc_programs.specs.Conversation.{IsClientOf};
ghost use Rattle.osc_programs.specs.Ended as ends;
ghost use Rattle.osc_programs.specs.Input.{IsWithin, TakesAtMost, longest_settings};
ghost use Rattle.osc_programs.specs.System as system;
ghost use Rattle.osc_programs.specs.System.{Passed as AnyPassed};
ghost use Rattle.osc_programs.specs.Unread.{TellsWhy};

use crate::asking::{AskEnd, Left, Talking, awaited, client_of, outcome_line, post};
use crate::context_text::context_text;
use crate::ended::Ended;
use crate::issue::written;
use crate::reading::client_settings;
use crate::running::{opened, tell_failure};
use crate::strange::{Aside, OnError};
use crate::supply::supply_of;
use crate::udp::Sockets;
use osc_client::Client;
use osc_log::Log;
use osc_model::{ClientResult, Peer};
use osc_turn::{Pace, Port, Seeds, Watch};
use osc_words::{ContextForm, ContextWords, Patience};
use std::alloc::Global;
use std::io::{Eprint, Read, Write};
use std::time::Clock;

/// Posts the token of the settings that the reader gives, and writes the security context which that makes, in the form of the words. Nobody has
/// sealed anything under it yet, and it is kept nowhere else. Where no context is made, nothing is written, and a line on the standard error has the
/// client's last result. Where there are no settings, the log tells why; where the port fails, a line on the standard error does.
pub fn make_context<R: Clock + Eprint + Seeds + Sockets, I: Read, L: Log, W: Write>(
    alloc: Global,
    runtime: &R,
    reader: &mut I,
    log: &mut L,
    writer: &mut W,
    words: &ContextWords,
) -> Ended
    ensures made { result ≡ Ended.Done → (first last : AnyClient) × (settings : AnySettings) × (context : ClientContextState)
        × IfSome (I.remaining reader.old) (λ text. StandsFor AreClientSettings text settings) × IsClientOf settings first
        × (agrees : spec.Agrees words.now.patience first last)
        × system.RunsOn (R.gave runtime.now) (R.opened runtime.now (settings.bind ∷ []) (Some settings.peer)) R.Socket.received R.Socket.sent agrees.start agrees.passed
        × spec.HasUnused last context × Appends (W.contents writer.old) (W.contents writer.new) (spec.context_text words.now.form context) }
    ensures none { result ≢ Ended.Done → result ≢ Ended.Failed → Appends (W.contents writer.old) (W.contents writer.new) [] }
    ensures bad { result ≡ Ended.BadSettings → TellsWhy (λ document. IsKeyFault (IsClientFault document)) (I.remaining reader.old) (L.told log.old) (L.told log.new) }
    ensures short { result ≡ Ended.Done → IsWithin longest_settings (I.remaining reader.old) }
    ensures end { TakesAtMost (longest_settings + 1) (I.remaining reader.old) (I.remaining reader.new) }
    ensures ends { spec.EndsContext result }
{
    match made_text(alloc, runtime, reader, log, words) {
        Ok(text) => {
            tell_secrets(runtime, words);
            written(writer, &text)
        }
        Err(ended) => ended,
    }
}

// Where the context goes to the standard output, a line on the standard error says what follows.
fn tell_secrets<R: Eprint>(runtime: &R, words: &ContextWords) {
    if words.out.is_none() {
        let _told = runtime.eprintln("secrets follow: who has this context can act for the client");
    }
}

// The text of the context which the exchange makes.
fn made_text<R: Clock + Eprint + Seeds + Sockets, I: Read, L: Log>(
    alloc: Global,
    runtime: &R,
    reader: &mut I,
    log: &mut L,
    words: &ContextWords,
) -> Result<Vec<u8>, Ended>
    ensures made { IfOk result (λ text. (first last : AnyClient) × (settings : AnySettings) × (context : ClientContextState)
        × IfSome (I.remaining reader.old) (λ text. StandsFor AreClientSettings text settings) × IsClientOf settings first
        × (agrees : spec.Agrees words.now.patience first last)
        × system.RunsOn (R.gave runtime.now) (R.opened runtime.now (settings.bind ∷ []) (Some settings.peer)) R.Socket.received R.Socket.sent agrees.start agrees.passed
        × spec.HasUnused last context × (text.items ≡ spec.context_text words.now.form context)) }
    ensures bad { IfErr result (λ ended. ended ≡ Ended.BadSettings → TellsWhy (λ document. IsKeyFault (IsClientFault document)) (I.remaining reader.old) (L.told log.old) (L.told log.new)) }
    ensures short { IfOk result (λ _. IsWithin longest_settings (I.remaining reader.old)) }
    ensures end { TakesAtMost (longest_settings + 1) (I.remaining reader.old) (I.remaining reader.new) }
    ensures ends { IfErr result spec.CannotAgree }
{
    let settings = client_settings(alloc, reader, log)?;
    let bind = settings.bind;
    let peer = settings.peer;
    let client = client_of(alloc, settings)?;
    made_at(alloc, runtime, bind, peer, client, words)
}

// The same of this client at its own address, with the peer that everything goes to.
fn made_at<R: Clock + Eprint + Seeds + Sockets>(
    alloc: Global,
    runtime: &R,
    bind: Peer,
    peer: Peer,
    client: Client,
    words: &ContextWords,
) -> Result<Vec<u8>, Ended>
    ensures made { IfOk result (λ text. (last : AnyClient) × (context : ClientContextState) × (agrees : spec.Agrees words.now.patience client last)
        × system.RunsOn (R.gave runtime.now) (R.opened runtime.now (bind ∷ []) (Some peer)) R.Socket.received R.Socket.sent agrees.start agrees.passed
        × spec.HasUnused last context × (text.items ≡ spec.context_text words.now.form context)) }
    ensures ends { IfErr result spec.CannotTurn }
{
    let mut port = opened(alloc, runtime, &[bind], Some(peer))?;
    let supply = supply_of(runtime)?;
    let mut talking = Talking {
        client,
        pace: Pace::START,
        supply,
        aside: OnError::new(runtime),
    };
    let made = made_by(alloc, runtime, &mut port, &mut talking, words);
    tell_failure(alloc, runtime, &port);
    made
}

// The same of this client at this port.
fn made_by<R: Eprint, A: Aside + Drop, W: Watch + Drop, P: Port>(
    alloc: Global,
    runtime: &R,
    port: &mut P,
    talking: &mut Talking<A, W>,
    words: &ContextWords,
) -> Result<Vec<u8>, Ended>
    ensures made { IfOk result (λ text. (passed : AnyPassed) × (context : ClientContextState)
        × spec.Exchanges words.now.patience (record { node = talking.old.client; busy = talking.old.pace.busy_since; supply = talking.old.supply }) (record { passed = passed; outcome = AskEnd.Told learnt.Made }) (record { node = talking.new.client; busy = talking.new.pace.busy_since; supply = talking.new.supply })
        × system.Passes P.received P.sent port.old port.new passed
        × spec.HasUnused talking.new.client context × (text.items ≡ spec.context_text words.now.form context)) }
    ensures ends { IfErr result spec.CannotTurn }
{
    let ended = exchanged(alloc, port, talking, words.patience)?;
    match ended {
        AskEnd::Told(ClientResult::Made) => text_of(alloc, words.form, &talking.client),
        _ => {
            tell_end(alloc, runtime, &ended);
            Err(Ended::NotDone)
        }
    }
}

// The outcome of the exchange.
fn exchanged<A: Aside + Drop, W: Watch + Drop, P: Port>(
    alloc: Global,
    port: &mut P,
    talking: &mut Talking<A, W>,
    patience: Patience,
) -> Result<AskEnd, Ended>
    ensures exchanges { IfOk result (λ outcome. (passed : AnyPassed)
        × spec.Exchanges patience (record { node = talking.old.client; busy = talking.old.pace.busy_since; supply = talking.old.supply }) (record { passed = passed; outcome = outcome }) (record { node = talking.new.client; busy = talking.new.pace.busy_since; supply = talking.new.supply })
        × system.Passes P.received P.sent port.old port.new passed) }
    ensures fault { IfErr result ends.IsFault }
{
    let learnt = post(alloc, port, talking)?;
    let mut left = Left::all(patience, learnt.at);
    awaited(alloc, port, talking, &mut left, learnt)
}

// The text of the client's context.
fn text_of(alloc: Global, form: ContextForm, client: &Client) -> Result<Vec<u8>, Ended>
    requires { IsSome client.now.context }
    ensures text { IfOk result (λ text. (context : ClientContextState) × (client.now.context ≡ Some context) × (text.items ≡ spec.context_text form context)) }
    ensures memory { IfErr result (λ ended. ended ≡ Ended.OutOfMemory) }
{
    match context_text(alloc, form, client.context().unwrap()) {
        Ok(text) => Ok(text),
        Err(_) => Err(Ended::OutOfMemory),
    }
}

// A line on the standard error has the last result, if that can be written.
fn tell_end<R: Eprint>(alloc: Global, runtime: &R, ended: &AskEnd) {
    if let Ok(line) = outcome_line(alloc, ended) {
        let _told = runtime.eprintln(line.as_str().trim_end());
    }
}
