//! Runs as rows: what each step did, in small numbers.
use osc_model::{
    Algorithm, AssociatedData, Bytes, ClientResult, Code, ContextName, Entry, Moment, Note, Reply,
    SharedName, Side, StepNotes,
};
use osc_options::request_in;
use osc_run::{Grant, Minted, Noted, Notes};
use osc_scope::Scope;
use osc_token::InputMaterial;
use std::alloc::Global;
use std::process::Abort;

/// The secret of the one context, and the token key.
const SECRET: u8 = 7;

const KEY: u8 = 9;

/// The claims that were sealed into the one token.
pub(crate) const CLAIMS: u8 = 5;

/// One use of a key: each part is told by a byte.
#[derive(Clone, Copy)]
pub(crate) struct Use {
    pub(crate) secret: u8,
    pub(crate) number: u64,
    pub(crate) nonce: u8,
    pub(crate) aad: u8,
    pub(crate) text: u8,
}

/// What one step did.
#[derive(Clone, Copy)]
pub(crate) enum Row {
    /// A client began an exchange with this nonce.
    Started(u8),
    /// A token with these claims opened, and the server drew this nonce.
    Posted(u8, u8),
    /// A client made its context.
    Made,
    /// A client sealed a request, or its holder in a lie.
    Asked(bool, Use),
    /// A server opened a request, and sealed a reply under its nonce.
    Served(Use),
    /// A client opened that reply.
    Answered(Use),
    /// The server opened what a server seals.
    Reflected(Use),
    /// A proxy did something.
    Relayed,
}

/// The requests of the run, and one of a lie.
pub(crate) const FIRST: Use = Use {
    secret: SECRET,
    number: 0,
    nonce: 0,
    aad: 0,
    text: 0,
};

pub(crate) const SECOND: Use = Use {
    number: 1,
    nonce: 1,
    aad: 1,
    text: 1,
    ..FIRST
};

const LIE: Use = Use { text: 8, ..SECOND };

/// The reply to a request: under its nonce and associated data.
fn reply_to(asked: Use) -> Use {
    Use { text: 100, ..asked }
}

/// A run in which the proxy does something, two requests are served, one of them is answered, and one more is sealed in a lie.
pub(crate) const RUN: [Row; 10] = [
    Row::Started(1),
    Row::Posted(CLAIMS, 2),
    Row::Made,
    Row::Asked(false, FIRST),
    Row::Relayed,
    Row::Served(FIRST),
    Row::Answered(FIRST),
    Row::Asked(false, SECOND),
    Row::Asked(true, LIE),
    Row::Served(SECOND),
];

/// The name with this secret, and client ID 01, or with nothing else.
fn name(rt: &impl Abort, alloc: Global, secret: u8, of_token: bool) -> SharedName {
    let client_id: &[u8] = if of_token { b"" } else { b"\x01" };
    let name = ContextName {
        secret: Bytes::from_slice(alloc, &[secret]).expect(rt, "memory"),
        salt: Bytes::new(alloc),
        id_context: None,
        client_id: Bytes::from_slice(alloc, client_id).expect(rt, "memory"),
        server_id: Bytes::new(alloc),
        alg: Algorithm::EightByteTag,
    };
    SharedName::new(alloc, name).expect(rt, "memory")
}

/// The note of a use by this end.
fn note(rt: &impl Abort, alloc: Global, side: Side, used: Use) -> Note {
    Note {
        context: name(rt, alloc, used.secret, used.secret == KEY),
        side,
        number: used.number,
        nonce: [used.nonce; 13],
        aad: AssociatedData::from_slice(&[used.aad]),
        plaintext: Bytes::from_slice(alloc, &[used.text]).expect(rt, "memory"),
    }
}

/// The entry of a request that was served, and answered 2.04.
fn entry(rt: &impl Abort, alloc: Global, asked: Use) -> Entry {
    Entry {
        context: name(rt, alloc, asked.secret, false),
        number: asked.number,
        plaintext: Bytes::from_slice(alloc, &[asked.text]).expect(rt, "memory"),
        request: request_in(alloc, &[asked.text]).expect(rt, "memory"),
        moment: Moment::START,
        reply: Reply::bare(alloc, Code(68)),
    }
}

/// The notes of a step that opened a token.
fn posted(rt: &impl Abort, alloc: Global, claims: u8, nonce: u8) -> StepNotes {
    let opening = Use {
        secret: KEY,
        text: claims,
        ..FIRST
    };
    StepNotes::quiet()
        .with_open(note(rt, alloc, Side::Server, opening))
        .with_drawn([nonce; 8])
}

/// The notes of a step that served a request.
fn served(rt: &impl Abort, alloc: Global, asked: Use) -> StepNotes {
    StepNotes::quiet()
        .with_open(note(rt, alloc, Side::Server, asked))
        .with_seal(note(rt, alloc, Side::Server, reply_to(asked)))
        .with_entry(entry(rt, alloc, asked))
}

/// The notes of a step that accepted the reply to a request.
fn answered(rt: &impl Abort, alloc: Global, asked: Use) -> StepNotes {
    StepNotes::quiet()
        .with_open(note(rt, alloc, Side::Client, reply_to(asked)))
        .with_result(ClientResult::Answer(Reply::bare(alloc, Code(68))))
}

/// The step that the row stands for.
fn noted(rt: &impl Abort, alloc: Global, row: Row) -> Noted {
    match row {
        Row::Started(nonce) => Noted::by_client(
            0,
            false,
            StepNotes::quiet().with_drawn([nonce; 8]),
        ),
        Row::Posted(claims, nonce) => Noted::by_server(posted(rt, alloc, claims, nonce)),
        Row::Made => Noted::by_client(0, false, StepNotes::quiet().with_result(ClientResult::Made)),
        Row::Asked(lied, asked) => {
            let seals = note(rt, alloc, Side::Client, asked);
            Noted::by_client(0, lied, StepNotes::quiet().with_seal(seals))
        }
        Row::Served(asked) => Noted::by_server(served(rt, alloc, asked)),
        Row::Answered(asked) => Noted::by_client(0, false, answered(rt, alloc, asked)),
        Row::Reflected(asked) => {
            let opens = note(rt, alloc, Side::Server, reply_to(asked));
            Noted::by_server(StepNotes::quiet().with_open(opens))
        }
        Row::Relayed => Noted::by_proxy(0, StepNotes::quiet()),
    }
}

/// The notes of the rows.
pub(crate) fn run(rt: &impl Abort, alloc: Global, rows: &[Row]) -> Notes {
    let mut notes = Notes::new(alloc);
    for row in rows {
        notes.reserve().expect(rt, "memory");
        notes.add(noted(rt, alloc, *row));
    }
    notes
}

/// A grant with this secret, whose token has these claims.
pub(crate) fn minted(rt: &impl Abort, alloc: Global, secret: u8, claims: u8) -> Minted {
    Minted {
        grant: Grant {
            material: InputMaterial {
                id: Bytes::new(alloc),
                secret: Bytes::from_slice(alloc, &[secret]).expect(rt, "memory"),
                salt: Bytes::new(alloc),
                id_context: None,
                alg: Algorithm::EightByteTag,
            },
            scope: Scope::new(alloc),
            not_before: None,
            expires: None,
            holder: 0,
        },
        text: Bytes::from_slice(alloc, &[claims]).expect(rt, "memory"),
    }
}

/// What was minted before the runs: a grant for the context, and one for another.
pub(crate) const GRANTS: [(u8, u8); 2] = [(SECRET, CLAIMS), (SECRET + 1, CLAIMS + 1)];
