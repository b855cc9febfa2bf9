//! The post that begins an exchange.
ghost use Rattle.std.specs.Prelude.{◌≡◌, ◌≤◌, ◌<◌, ◌↔◌, [], length, IsOk, IsTrue, IsFalse, IfOk};
ghost use Rattle.osc_cbor.specs.{head};
ghost use Rattle.osc_coap.specs.{datagram_limit, spelling};
ghost use Rattle.osc_client.specs.Sending.{OfEachPost, post_with};
ghost use Rattle.osc_client.specs.Route.{through as through_of};
ghost use Rattle.osc_protect.specs.{longest_message};

use crate::proxied::{add_host, add_scheme};
use crate::route::Origin;
use osc_authz::ClientDesk;
use osc_coap::laws::{length_of_growing, length_of_spelling};
use osc_coap::{DATAGRAM_LIMIT, DatagramTooLong, Kind, MessageBuilder};
use osc_model::limits::{ACE_CBOR, AUTHZ_INFO_SEGMENT, POST};
use osc_options::numbers::{CONTENT_FORMAT, URI_PATH};

/// How many bytes a post has of its payload and of the marker of that, beside its token and the token's head: a map of three, a nonce of 8 bytes
/// and a recipient ID of one (RFC 9203 section 4.1).
const BESIDE_TOKEN: usize = 18;

/// The post without a body, as it goes to the server: through a proxy, where there is one, with the options by which the proxy finds the
/// server among its own.
fn post_around(origin: &Option<Origin>, id: u16, token: &[u8; 8]) -> MessageBuilder
    ensures { result ≡ through_of origin.now (post_with id token.now []) }
{
    length_of_growing();
    let mut post = MessageBuilder::start(Kind::Confirmable, POST, id, token);
    add_host(&mut post, origin);
    post.option(URI_PATH, AUTHZ_INFO_SEGMENT).unwrap();
    post.option(CONTENT_FORMAT, &[ACE_CBOR as u8]).unwrap();
    add_scheme(&mut post, origin);
    post
}

/// The post with this body, as it goes to the server; refused only where it is longer than a datagram may be.
pub(crate) fn post_message(
    origin: &Option<Origin>,
    id: u16,
    token: &[u8; 8],
    body: &[u8],
) -> Result<MessageBuilder, DatagramTooLong>
    ensures ok { IfOk result (λ post. post ≡ through_of origin.now (post_with id token.now body.now)) }
    ensures fits { IsOk result ↔ (length (spelling (through_of origin.now (post_with id token.now body.now))) ≤ datagram_limit) }
{
    let mut post = post_around(origin, id, token);
    post.payload(body)?;
    Ok(post)
}

/// How many bytes the head of a byte string of `size` bytes has (RFC 8949 section 3), which is no longer than a datagram may be.
fn head_size(size: usize) -> usize
    requires { size ≤ datagram_limit }
    ensures size { result ≡ length (head 2 size) }
    ensures few { result ≤ 3 }
{
    if size < 24 {
        1
    } else if size < 256 {
        2
    } else {
        3
    }
}

/// Whether each post of this grant's token fits a datagram on this way, whatever is drawn for it; else none does.
pub(crate) fn each_post_fits(origin: &Option<Origin>, desk: &ClientDesk) -> bool
    ensures fits { IsTrue result → OfEachPost (λ size. size ≤ longest_message) desk.now origin.now }
    ensures too_long { IsFalse result → OfEachPost (λ size. longest_message < size) desk.now origin.now }
{
    length_of_spelling();
    let token = desk.token.len();
    if token > DATAGRAM_LIMIT {
        return false;
    }
    // What is around the payload is as long in each.
    let post = post_around(origin, 0, &[0; 8]);
    post.bytes().len() + BESIDE_TOKEN + head_size(token) + token <= DATAGRAM_LIMIT
}
