//! Lines of JSON, each one object.
ghost use Rattle.std.specs.Prelude.{◌≡◌, IfOk, Ok, option_map};
ghost use Rattle.osc_log.specs.Inner.Objects.{members_of};
ghost use Rattle.osc_log.specs.Json as spec;
ghost use Rattle.osc_log.specs.Turns.{code_in as code_of};

use crate::kind::Kind;
use crate::object::Object;
use crate::turn::{Telling, Turn};
use crate::words::{method_text, path_text, why_words};
use osc_model::{Code, Datagram, Entry, Peer, RefusedRequest, Request};
use std::alloc::{AllocError, Global};

/// The object of a datagram that the turn sent, on a line. Nothing of a payload, a token but its id, or a key is in it.
pub(crate) fn line_text(
    alloc: Global,
    telling: &Telling<'_>,
    turn: &Turn<'_>,
    datagram: &Datagram,
) -> Result<Vec<u8>, AllocError>
    ensures { IfOk result (λ text. text.items ≡ spec.line_text telling.entry.now turn.entry.now datagram.now) }
{
    what_object(alloc, telling, turn, datagram)?.line(alloc)
}

// What the turn refused or served, or else what it sent.
fn what_object(
    alloc: Global,
    telling: &Telling<'_>,
    turn: &Turn<'_>,
    datagram: &Datagram,
) -> Result<Object, AllocError>
    ensures { IfOk result (λ o. members_of o ≡ spec.what_members telling.entry.now datagram.now turn.entry.now.step.notes) }
{
    match (turn.refused(), turn.served()) {
        (Some(refused), _) => {
            let o = to_peer(alloc, telling.time(), "refused", datagram.to)?;
            refused_object(alloc, o, refused)
        }
        (None, Some(entry)) => {
            let o = to_peer(alloc, telling.time(), "served", datagram.to)?;
            served_object(alloc, o, turn.holder(), entry)
        }
        (None, None) => {
            let o = to_peer(alloc, telling.time(), "sent", datagram.to)?;
            with_code(alloc, o, code_in(datagram.bytes.as_slice()))
        }
    }
}

fn code_in(bytes: &[u8]) -> u8
    ensures { result ≡ code_of bytes.now }
{
    bytes.get(1).copied().unwrap_or(0)
}

fn to_peer(alloc: Global, time: &str, level: &str, peer: Peer) -> Result<Object, AllocError>
    ensures { IfOk result (λ o. members_of o ≡ spec.to_peer time.now level.now peer) }
{
    let peer = peer.to_string(alloc)?;
    Object::begun(alloc, time, level)?.with_text(alloc, "peer", &peer)
}

fn with_code(alloc: Global, o: Object, code: u8) -> Result<Object, AllocError>
    ensures { IfOk result (λ more. members_of more ≡ spec.with_code code (members_of o)) }
{
    let code = Code(code).to_string(alloc)?;
    o.with_text(alloc, "code", &code)
}

// ---- what was served

fn served_object(
    alloc: Global,
    o: Object,
    holder: Option<&[u8]>,
    entry: &Entry,
) -> Result<Object, AllocError>
    ensures { IfOk result (λ more. members_of more ≡ spec.served_members (option_map (λ id. id.now) holder.entry) entry.now (members_of o)) }
{
    let o = with_token(alloc, o, holder)?;
    let o = with_asked(alloc, o, &entry.request)?;
    with_code(alloc, o, entry.reply.code.0)
}

fn with_token(alloc: Global, o: Object, token: Option<&[u8]>) -> Result<Object, AllocError>
    ensures { IfOk result (λ more. members_of more ≡ spec.with_token (option_map (λ id. id.now) token.entry) (members_of o)) }
{
    match token {
        Some(id) => {
            let id = hex::encode(alloc, id)?;
            o.with_text(alloc, "token", &id)
        }
        None => Ok(o),
    }
}

// The method and the path of what was opened.
fn with_asked(alloc: Global, o: Object, asked: &Result<Request, Code>) -> Result<Object, AllocError>
    ensures { IfOk result (λ more. members_of more ≡ spec.with_asked asked.now (members_of o)) }
{
    match asked {
        Ok(request) => with_request(alloc, o, request),
        Err(_) => Ok(o),
    }
}

fn with_request(alloc: Global, o: Object, request: &Request) -> Result<Object, AllocError>
    ensures { IfOk result (λ more. members_of more ≡ spec.with_asked (Ok request.now) (members_of o)) }
{
    let method = method_text(alloc, request.code)?;
    let path = path_text(alloc, request.path.as_ref())?;
    o.with_text(alloc, "method", &method)?
        .with_text(alloc, "path", &path)
}

// ---- what was refused

fn refused_object(alloc: Global, o: Object, refused: RefusedRequest) -> Result<Object, AllocError>
    ensures { IfOk result (λ more. members_of more ≡ spec.refused_members refused (members_of o)) }
{
    let o = with_code(alloc, o, refused.code.0)?;
    with_reason(alloc, o, refused.reason)?.with_text(
        alloc,
        "why",
        why_words(refused.code, refused.reason),
    )
}

fn with_reason(alloc: Global, o: Object, reason: Option<u8>) -> Result<Object, AllocError>
    ensures { IfOk result (λ more. members_of more ≡ spec.with_reason reason (members_of o)) }
{
    match reason {
        Some(number) => o.with_number(alloc, "reason", number as u64),
        None => Ok(o),
    }
}

/// The object of how many lines of a kind were left out.
pub(crate) fn left_out_text(
    alloc: Global,
    time: &str,
    kind: Kind,
    count: u64,
) -> Result<Vec<u8>, AllocError>
    ensures { IfOk result (λ text. text.items ≡ spec.left_out_text time.now kind count) }
{
    Object::begun(alloc, time, kind.level())?
        .with_number(alloc, "left_out", count)?
        .with_text(alloc, "what", kind.words())?
        .line(alloc)
}
