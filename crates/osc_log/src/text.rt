//! Lines of text.
ghost use Rattle.std.specs.Prelude.{◌≡◌, ◌++◌, IfOk, Ok, option_map, string_bytes};
ghost use Rattle.osc_log.specs.Text as spec;

use crate::kind::Kind;
use crate::turn::Turn;
use crate::words::{code_words, method_text, path_text, reason_words};
use osc_model::{Code, Datagram, Entry, Moment, Peer, RefusedRequest, Request};
use std::alloc::{AllocError, Global};

/// `MOMENT A.B.C.D:PORT WHAT` for a datagram that a turn sent, where WHAT is `refused CODE: WHY`, `served METHOD PATH: CODE by ID` or else
/// `sent CODE`, with ` by ID` where it answers a post that was agreed to. The ID is that of the token. Nothing of a payload or a key is in it.
pub(crate) fn line_text(
    alloc: Global,
    turn: &Turn<'_>,
    datagram: &Datagram,
) -> Result<Vec<u8>, AllocError>
    ensures { IfOk result (λ line. line.items ≡ spec.line_text turn.entry.now datagram.now) }
{
    let who = who_text(alloc, turn.moment(), datagram.to)?;
    let what = what_text(alloc, turn, datagram.bytes.as_slice())?;
    let mut line = Vec::from_slice(alloc, who.as_bytes())?;
    line.extend_from_slice(&what)?;
    line.push(b'\n')?;
    Ok(line)
}

// When, and who: the moment in milliseconds, and an address.
fn who_text(alloc: Global, now: Moment, peer: Peer) -> Result<String, AllocError>
    ensures { IfOk result (λ text. string_bytes text ≡ spec.who_text now peer) }
{
    let ms = now.ms;
    format!(in alloc; "{ms} {peer} ")
}

// What the turn refused or served, or else what it sent.
fn what_text(alloc: Global, turn: &Turn<'_>, bytes: &[u8]) -> Result<Vec<u8>, AllocError>
    ensures { IfOk result (λ text. text.items ≡ spec.what_text turn.entry.now.step.notes bytes.now) }
{
    match (turn.refused(), turn.served()) {
        (Some(refused), _) => refused_text(alloc, refused),
        (None, Some(entry)) => named(alloc, served_text(alloc, entry)?, turn.holder()),
        (None, None) => named(alloc, sent_text(alloc, bytes)?, turn.holder()),
    }
}

fn sent_text(alloc: Global, bytes: &[u8]) -> Result<Vec<u8>, AllocError>
    ensures { IfOk result (λ text. text.items ≡ spec.sent_text bytes.now) }
{
    let code = Code(bytes.get(1).copied().unwrap_or(0));
    let text = format!(in alloc; "sent {code}")?;
    Vec::from_slice(alloc, text.as_bytes())
}

// ---- by whose token

// The text, and after it by whose token that was, where there is one.
fn named(alloc: Global, mut text: Vec<u8>, holder: Option<&[u8]>) -> Result<Vec<u8>, AllocError>
    ensures { IfOk result (λ more. more.items ≡ text.items ++ spec.by_text (option_map (λ id. id.now) holder.entry)) }
{
    let by = by_text(alloc, holder)?;
    text.extend_from_slice(&by)?;
    Ok(text)
}

// ` by ID`, where there is one.
fn by_text(alloc: Global, holder: Option<&[u8]>) -> Result<Vec<u8>, AllocError>
    ensures { IfOk result (λ text. text.items ≡ spec.by_text (option_map (λ id. id.now) holder.entry)) }
{
    match holder {
        Some(id) => {
            let id = id_text(alloc, id)?;
            let mut text = Vec::from_slice(alloc, b" by ")?;
            text.extend_from_slice(&id)?;
            Ok(text)
        }
        None => Ok(Vec::new(alloc)),
    }
}

// The id in hexadecimal, or `-` where it has no byte.
fn id_text(alloc: Global, id: &[u8]) -> Result<Vec<u8>, AllocError>
    ensures { IfOk result (λ text. text.items ≡ spec.id_text id.now) }
{
    if id.is_empty() {
        return Vec::from_slice(alloc, b"-");
    }
    let digits = hex::encode(alloc, id)?;
    Vec::from_slice(alloc, digits.as_bytes())
}

// ---- what was served

fn served_text(alloc: Global, entry: &Entry) -> Result<Vec<u8>, AllocError>
    ensures { IfOk result (λ text. text.items ≡ spec.served_text entry.now) }
{
    let asked = asked_text(alloc, &entry.request)?;
    let code = entry.reply.code;
    let answered = format!(in alloc; ": {code}")?;
    let mut text = Vec::from_slice(alloc, b"served ")?;
    text.extend_from_slice(&asked)?;
    text.extend_from_slice(answered.as_bytes())?;
    Ok(text)
}

// The method and the path of what was opened.
fn asked_text(alloc: Global, asked: &Result<Request, Code>) -> Result<Vec<u8>, AllocError>
    ensures { IfOk result (λ text. text.items ≡ spec.asked_text asked.now) }
{
    match asked {
        Ok(request) => request_text(alloc, request),
        Err(_) => Vec::from_slice(alloc, b"what is no request"),
    }
}

fn request_text(alloc: Global, request: &Request) -> Result<Vec<u8>, AllocError>
    ensures { IfOk result (λ text. text.items ≡ spec.asked_text (Ok request.now)) }
{
    let method = method_text(alloc, request.code)?;
    let path = path_text(alloc, request.path.as_ref())?;
    let mut text = Vec::from_slice(alloc, method.as_bytes())?;
    text.push(b' ')?;
    text.extend_from_slice(path.as_bytes())?;
    Ok(text)
}

// ---- why a request was refused

fn refused_text(alloc: Global, refused: RefusedRequest) -> Result<Vec<u8>, AllocError>
    ensures { IfOk result (λ text. text.items ≡ spec.refused_text refused) }
{
    let text = refused_line(alloc, refused)?;
    Vec::from_slice(alloc, text.as_bytes())
}

fn refused_line(alloc: Global, refused: RefusedRequest) -> Result<String, AllocError>
    ensures { IfOk result (λ text. string_bytes text ≡ spec.refused_text refused) }
{
    let code = refused.code;
    let why = why_text(alloc, refused.code, refused.reason)?;
    format!(in alloc; "refused {code}: {why}")
}

fn why_text(alloc: Global, why: Code, reason: Option<u8>) -> Result<String, AllocError>
    ensures { IfOk result (λ text. string_bytes text ≡ spec.why_text why reason) }
{
    match reason {
        Some(number) => {
            let words = reason_words(number);
            format!(in alloc; "{words} ({number})")
        }
        None => code_words(why.0).to_string(alloc),
    }
}

// ---- what was left out

/// `MOMENT left out N KIND`.
pub(crate) fn left_out_text(
    alloc: Global,
    now: Moment,
    kind: Kind,
    count: u64,
) -> Result<Vec<u8>, AllocError>
    ensures { IfOk result (λ text. text.items ≡ spec.left_out_text now kind count) }
{
    let line = left_out_line(alloc, now, kind, count)?;
    Vec::from_slice(alloc, line.as_bytes())
}

fn left_out_line(alloc: Global, now: Moment, kind: Kind, count: u64) -> Result<String, AllocError>
    ensures { IfOk result (λ text. string_bytes text ≡ spec.left_out_text now kind count) }
{
    let ms = now.ms;
    let words = kind.words();
    format!(in alloc; "{ms} left out {count} {words}\n")
}
