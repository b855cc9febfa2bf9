//! What a proxy forwards, and what it sends back (RFC 7252 sections 5.7.1 and 5.7.2).
ghost use Rattle.std.specs.Prelude.{◌≡◌, ◌<◌, ◌≤◌, ◌↔◌, None, length, IsOk, IfOk, OnOk};
ghost use Rattle.osc_coap.specs.{last_number, datagram_limit, spelling};
ghost use Rattle.osc_options.specs.Inner.Merging.{with_options};
ghost use Rattle.osc_options.specs.{AreInOrder};
ghost use Rattle.osc_proxy.specs.Forwarding as spec;
ghost use Rattle.osc_proxy.specs.Inner.Rewriting.{rewritten, stays, staying};

use osc_coap::laws::{fewer_options, length_of_spelling, one_spelling};
use osc_coap::{DatagramTooLong, Kind, MessageBuilder, MessageRef, Options};
use osc_model::Draw;
use osc_options::has_option;
use osc_options::numbers::{PROXY_SCHEME, PROXY_URI, URI_HOST, URI_PATH, URI_PORT, URI_QUERY};

/// Which options stay where a message is written again.
#[derive(Clone, Copy)]
enum Rewriting {
    /// All.
    Whole,
    /// Those that are for the target, of a request that has a Proxy-Uri or has none.
    ForTarget(bool),
}

/// Whether an option of this number is for the proxy, of a request that has a Proxy-Uri or has none.
fn is_taken_out(by_uri: bool, number: u16) -> bool
    ensures { result ≡ spec.is_taken_out by_uri number }
{
    match number {
        URI_PORT | PROXY_URI | PROXY_SCHEME => true,
        URI_HOST | URI_PATH | URI_QUERY => by_uri,
        _ => false,
    }
}

/// Whether an option of this number stays.
fn is_kept(rewriting: Rewriting, number: u16) -> bool
    ensures { result ≡ stays rewriting number }
{
    match rewriting {
        Rewriting::Whole => true,
        Rewriting::ForTarget(by_uri) => !is_taken_out(by_uri, number),
    }
}

/// Adds those of the options that stay.
fn add_options(
    message: &mut MessageBuilder,
    options: Options<'_>,
    rewriting: Rewriting,
) -> Result<(), DatagramTooLong>
    requires code { 0 < message.old.code }
    requires first { message.old.payload ≡ None }
    requires order { AreInOrder (last_number 0 message.old.options) (staying rewriting options) }
    ensures ok { OnOk result (message.new ≡ with_options message.old (staying rewriting options.entry)) }
    ensures variant { IsOk result
        ↔ (length (spelling (with_options message.old (staying rewriting options.entry))) ≤ datagram_limit) }
{
    length_of_spelling();
    one_spelling();
    for (number, value) in options {
        if is_kept(rewriting, number) {
            message.option(number, value)?;
        }
    }
    let _bytes = message.bytes();
    Ok(())
}

/// The message with another kind, message ID and token, and those of its options that stay.
fn rewrite(
    kind: Kind,
    id: u16,
    token: &[u8],
    rewriting: Rewriting,
    message: &MessageRef<'_>,
) -> Result<MessageBuilder, DatagramTooLong>
    requires code { 0 < message.now.code }
    requires token { length token.now ≤ 8 }
    ensures ok { IfOk result (λ m. m ≡ rewritten kind id token.now rewriting message.now) }
    ensures fits { IsOk result ↔ (length (spelling (rewritten kind id token.now rewriting message.now)) ≤ datagram_limit) }
{
    length_of_spelling();
    fewer_options();
    let mut written = MessageBuilder::start(kind, message.code(), id, token);
    add_options(&mut written, message.options(), rewriting)?;
    written.payload(message.payload().unwrap_or(&[]))?;
    Ok(written)
}

/// The message that is forwarded of a request: the same kind, code and payload, with a message ID and a token of the proxy's own,
/// and without the options that are for the proxy: Uri-Port, Proxy-Uri and Proxy-Scheme, and beside a Proxy-Uri also Uri-Host,
/// Uri-Path and Uri-Query. All others stay in their order, known or not. Refused only where it is longer than a datagram may be.
/// Takes no memory.
pub fn forwarded_message(
    message: &MessageRef<'_>,
    id: u16,
    token: &[u8],
) -> Result<MessageBuilder, DatagramTooLong>
    requires code { 0 < message.now.code }
    requires token { length token.now ≤ 8 }
    ensures ok { IfOk result (λ m. m ≡ spec.forwarded id token.now message.now) }
    ensures fits { IsOk result ↔ (length (spelling (spec.forwarded id token.now message.now)) ≤ datagram_limit) }
{
    let by_uri = has_option(message, PROXY_URI);
    rewrite(
        message.kind(),
        id,
        token,
        Rewriting::ForTarget(by_uri),
        message,
    )
}

/// The token of a forwarded message, by which its answer is found: the key of its exchange, and seven bytes of the draw.
pub fn forwarded_token(key: u8, draw: &Draw) -> [u8; 8]
    ensures { result ≡ spec.forwarded_token key draw.now }
{
    let [_, b, c, d, e, f, g, h] = draw.token();
    [key, b, c, d, e, f, g, h]
}

/// The message that a response goes back in: the same code, options and payload, with the client's token, and a kind and message ID
/// of its own. Refused only where it is longer than a datagram may be. Takes no memory.
pub fn answer_message(
    response: &MessageRef<'_>,
    kind: Kind,
    id: u16,
    token: &[u8],
) -> Result<MessageBuilder, DatagramTooLong>
    requires code { 0 < response.now.code }
    requires token { length token.now ≤ 8 }
    ensures ok { IfOk result (λ m. m ≡ spec.answer kind id token.now response.now) }
    ensures fits { IsOk result ↔ (length (spelling (spec.answer kind id token.now response.now)) ≤ datagram_limit) }
{
    rewrite(kind, id, token, Rewriting::Whole, response)
}
