//! The payloads of an exchange (RFC 9203 sections 4.1 and 4.2).

ghost use Rattle.std.specs.Prelude.{◌≡◌, ◌++◌, [], ◌∷◌, option_map, option_and_then, OnOk, OnErr};
ghost use Rattle.osc_authz.specs.Exchange.{post_item};
ghost use Rattle.osc_authz.specs.Inner.Payload as spec;
ghost use Rattle.osc_cbor.specs.{value_under, as_bytes, spelling, pairs_of};

use osc_cbor::{Item, ItemRef, PairRefs, first_value, write};
use osc_context::ID_LIMIT;
use std::alloc::{AllocError, Global};

/// The label of the token.
const TOKEN: u64 = 1;

/// The label of the client's nonce.
const NONCE1: u64 = 40;

/// The label of the server's nonce.
const NONCE2: u64 = 42;

/// The label of the client's recipient ID.
const CLIENT_ID: u64 = 43;

/// The label of the server's recipient ID.
const SERVER_ID: u64 = 44;

/// The most bytes of a nonce.
const NONCE_LIMIT: usize = 64;

/// The fields of a post.
#[derive(Clone, Copy)]
pub(crate) struct PostFields<'a> {
    pub(crate) token: &'a [u8],
    pub(crate) nonce1: &'a [u8],
    pub(crate) client_id: &'a [u8],
}

/// The fields of an answer.
#[derive(Clone, Copy)]
pub(crate) struct AnswerFields<'a> {
    pub(crate) nonce2: &'a [u8],
    pub(crate) server_id: &'a [u8],
}

/// The bytes, if the item that was found is a byte string.
fn bytes_found<'a>(found: Option<ItemRef<'a>>) -> Option<&'a [u8]>
    ensures { option_map (λ bytes. bytes.now) result ≡ option_and_then as_bytes found.entry }
{
    found?.as_bytes()
}

/// The nonce, if the item that was found is one: 1 to 64 bytes.
fn nonce_found<'a>(found: Option<ItemRef<'a>>) -> Option<&'a [u8]>
    ensures { option_map (λ nonce. nonce.now) result ≡ option_and_then spec.if_nonce (option_and_then as_bytes found.entry) }
{
    let nonce = bytes_found(found)?;
    (1 <= nonce.len() && nonce.len() <= NONCE_LIMIT).then_some(nonce)
}

/// The recipient ID, if the item that was found is one: at most 7 bytes.
fn id_found<'a>(found: Option<ItemRef<'a>>) -> Option<&'a [u8]>
    ensures { option_map (λ id. id.now) result ≡ option_and_then spec.if_id (option_and_then as_bytes found.entry) }
{
    let id = bytes_found(found)?;
    (id.len() <= ID_LIMIT).then_some(id)
}

/// What a post's labels have in a map.
#[derive(Drop)]
struct PostValues<'a> {
    token: Option<ItemRef<'a>>,
    nonce1: Option<ItemRef<'a>>,
    client_id: Option<ItemRef<'a>>,
}

/// What a post's labels have in a map, in one pass over its pairs.
fn post_values<'a>(pairs: PairRefs<'a>) -> PostValues<'a>
    ensures token { result.token ≡ value_under 1 (pairs_of pairs.entry) }
    ensures nonce1 { result.nonce1 ≡ value_under 40 (pairs_of pairs.entry) }
    ensures client_id { result.client_id ≡ value_under 43 (pairs_of pairs.entry) }
{
    let mut token = None;
    let mut nonce1 = None;
    let mut client_id = None;
    let mut pairs = pairs;
    while let Some((label, value)) = pairs.next_labelled(TOKEN, CLIENT_ID) {
        token = first_value(token, TOKEN, label, &value);
        nonce1 = first_value(nonce1, NONCE1, label, &value);
        client_id = first_value(client_id, CLIENT_ID, label, &value);
    }
    PostValues {
        token,
        nonce1,
        client_id,
    }
}

/// The fields of a post, where the item is one.
pub(crate) fn post_fields<'a>(item: &ItemRef<'a>) -> Option<PostFields<'a>>
    ensures { option_map (λ post. (post.token.now, post.nonce1.now, post.client_id.now)) result ≡ spec.post_fields item.now }
{
    let values = post_values(item.as_map()?);
    Some(PostFields {
        token: bytes_found(values.token)?,
        nonce1: nonce_found(values.nonce1)?,
        client_id: id_found(values.client_id)?,
    })
}

/// What the labels of an answer's nonce and recipient ID have in a map, in one pass over its pairs.
fn answer_values<'a>(pairs: PairRefs<'a>) -> (Option<ItemRef<'a>>, Option<ItemRef<'a>>)
    ensures nonce2 { result.0 ≡ value_under 42 (pairs_of pairs.entry) }
    ensures server_id { result.1 ≡ value_under 44 (pairs_of pairs.entry) }
{
    let mut nonce2 = None;
    let mut server_id = None;
    let mut pairs = pairs;
    while let Some((label, value)) = pairs.next_labelled(NONCE2, SERVER_ID) {
        nonce2 = first_value(nonce2, NONCE2, label, &value);
        server_id = first_value(server_id, SERVER_ID, label, &value);
    }
    (nonce2, server_id)
}

/// The fields of an answer, where the item is one.
pub(crate) fn answer_fields<'a>(item: &ItemRef<'a>) -> Option<AnswerFields<'a>>
    ensures { option_map (λ answer. (answer.nonce2.now, answer.server_id.now)) result ≡ spec.answer_fields item.now }
{
    let (nonce2, server_id) = answer_values(item.as_map()?);
    Some(AnswerFields {
        nonce2: nonce_found(nonce2)?,
        server_id: id_found(server_id)?,
    })
}

/// Appends a post. Without memory all stays as it was.
pub(crate) fn write_post(
    alloc: Global,
    token: &[u8],
    nonce1: &[u8; 8],
    client_id: u8,
    out: &mut Vec<u8>,
) -> Result<(), AllocError>
    ensures ok { OnOk result (out.new.items ≡ out.old.items ++ spelling (post_item token.now nonce1.now (client_id ∷ []))) }
    ensures err { OnErr result (out.new.items ≡ out.old.items) }
{
    let fields = vec![in alloc;
        (
            Item::Unsigned(TOKEN),
            Item::Bytes(Vec::from_slice(alloc, token)?)
        ),
        (
            Item::Unsigned(NONCE1),
            Item::Bytes(Vec::from_slice(alloc, nonce1)?)
        ),
        (
            Item::Unsigned(CLIENT_ID),
            Item::Bytes(vec![in alloc; client_id]?)
        ),
    ]?;
    write(&Item::Map(fields), out)
}
