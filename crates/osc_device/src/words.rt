//! What a step of a server did, in the words of whoever made the device.
ghost use Rattle.std.specs.Prelude.{◌≡◌, IfSome, option_copied, option_map};
ghost use Rattle.osc_device.specs.Words.{IsTokenOf, holder_of as holder_of_entry, refused_in, request_in, served_by as served_by_of, served_in};

use osc_model::{
    Code, ContextName, Entry, Method, Note, Path, Peer, RefusedRequest, Reply, Request, Step,
};
use osc_token::name_in;
use std::fmt;
use std::marker::Model;

/// Who asked: what a request tells of the context that it means (RFC 8613 section 6.1). Neither is a secret.
#[derive(Clone, Copy, Debug, PartialEq, Eq)]
pub struct Holder<'a> {
    /// The kid: the client's sender ID, which the server gave it at its exchange, 0 to 7 bytes.
    pub kid: &'a [u8],
    /// The kid context, where the context has one: the id context of its token, by which an issuer can tell holders apart.
    pub kid_context: Option<&'a [u8]>,
}

/// A protected request that was served. Contracts see a record of the seven that its calls and fields tell.
#[derive(Drop)]
pub struct Served<'a> {
    /// Who asked.
    pub by: Holder<'a>,
    /// By which number of its own: the Partial IV.
    pub number: u64,
    /// What it was answered.
    pub reply: &'a Reply,
    /// The id of the token that made its context: 0 to 64 bytes, as [`crate::DeviceCalls::revoke`] takes it.
    pub token: Option<&'a [u8]>,
    // What opened, where it is a request.
    request: Option<&'a Request>,
}

/// A request that was refused.
#[derive(Clone, Copy, Debug, PartialEq, Eq)]
pub struct Refused<'a> {
    /// Who asked.
    pub from: Peer,
    /// The code that it was answered, and the number of the reason, where the code alone doesn't tell it.
    pub why: RefusedRequest,
    /// Of a post whose token opened, so that it is genuine: the token's id, where it says one of at most 64 bytes. Of other requests none, since nothing
    /// proves who sent them.
    pub token: Option<&'a [u8]>,
}

impl<'a> Model for Served<'a> {
    ghost use Rattle.std.specs.Prelude.{option_map};
    ghost use Rattle.osc_device.specs.Words.{ServedRequest, served_as};

    ghost Value = { ServedRequest };

    ghost view = { λ s. served_as (record { kid = s.by.kid.now; kid_context = option_map (λ bytes. bytes.now) s.by.kid_context }) s.number (option_map (λ request. request.now) s.request) s.reply.now (option_map (λ id. id.now) s.token) };
}

// What was opened isn't printed.
impl<'a> fmt::Debug for Served<'a> {
    fn fmt<W: fmt::Write>(&self, f: &mut fmt::Formatter<W>) -> fmt::Result {
        f.write_str("Served")
    }
}

impl<'a> Served<'a> {
    /// The protected request that this step of a server served, if it served one: lent as the server read it. Takes no memory.
    pub fn in_step(step: &'a Step) -> Option<Served<'a>>
        ensures { result ≡ served_in step.now.notes }
    {
        match step.notes.served() {
            Some(entry) => Some(served_by(entry, step.notes.holder())),
            None => None,
        }
    }

    /// The method; none where what opened is no request, or its code is no method's.
    pub fn method(&self) -> Option<Method>
        ensures { result ≡ self.now.method }
    {
        match self.request {
            Some(request) => Method::from_code(request.code),
            None => None,
        }
    }

    /// The path, where it has one.
    pub fn path(&self) -> Option<&Path>
        ensures { option_map (λ path. path.now) result ≡ self.now.path }
    {
        match self.request {
            Some(request) => request.path.as_ref(),
            None => None,
        }
    }

    /// The payload: 0 to 1,152 bytes.
    pub fn payload(&self) -> &[u8]
        ensures { result.now ≡ self.now.payload }
    {
        match self.request {
            Some(request) => request.payload.as_slice(),
            None => &[],
        }
    }
}

fn served_by<'a>(entry: &'a Entry, token: Option<&'a [u8]>) -> Served<'a>
    ensures { result ≡ served_by_of (option_copied token.entry) entry.now }
{
    Served {
        by: holder_of(entry),
        number: entry.number,
        reply: &entry.reply,
        token,
        request: request_of(&entry.request),
    }
}

/// The request that a text was read as, if it is one.
fn request_of(read: &Result<Request, Code>) -> Option<&Request>
    ensures { option_map (λ request. request.now) result ≡ request_in read.now }
{
    match read {
        Ok(request) => Some(request),
        Err(_) => None,
    }
}

fn holder_of(entry: &Entry) -> Holder<'_>
    ensures kid { result.kid.now ≡ (holder_of_entry entry.now).kid }
    ensures kid_context { option_map (λ bytes. bytes.now) result.kid_context ≡ (holder_of_entry entry.now).kid_context }
{
    Holder {
        kid: entry.context.client_id.as_slice(),
        kid_context: id_context(&entry.context),
    }
}

fn id_context(name: &ContextName) -> Option<&[u8]>
    ensures { option_map (λ bytes. bytes.now) result ≡ name.now.id_context }
{
    match &name.id_context {
        Some(bytes) => Some(bytes.as_slice()),
        None => None,
    }
}

/// The id of the token that was opened, if one was and it says one.
fn token_of(opened: Option<&Note>) -> Option<&[u8]>
    ensures { IsTokenOf (option_copied opened.entry) (option_copied result) }
{
    match opened {
        Some(note) => name_in(note.plaintext.as_slice()),
        None => None,
    }
}

impl<'a> Refused<'a> {
    /// The request that this step of a server refused, if it refused one: lent as the server read it. Takes no memory.
    pub fn in_step(step: &'a Step) -> Option<Refused<'a>>
        ensures refused { option_map (λ refused. (refused.from, refused.why)) result ≡ refused_in step.now }
        ensures token { IfSome result (λ refused. IsTokenOf step.now.notes.opens (option_copied refused.token)) }
    {
        match (step.notes.refused(), step.out.as_slice()) {
            (Some(why), [datagram]) => Some(Refused {
                from: datagram.to,
                why,
                token: token_of(step.notes.opens()),
            }),
            _ => None,
        }
    }
}
