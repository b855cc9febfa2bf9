//! Messages to a server behind a proxy (RFC 7252 section 5.7.2).
ghost use Rattle.std.specs.Prelude.{◌≡◌, ◌<◌, ◌≤◌, ◌↔◌, ◌++◌, [], None, length, OnOk, IsOk};
ghost use Rattle.osc_coap.specs.{bare, last_number, datagram_limit, spelling};
ghost use Rattle.osc_coap.specs.declared.kind.Kind.TheVariants.{Confirmable};
ghost use Rattle.osc_client.specs.Inner.Around.{options_before, options_behind};
ghost use Rattle.osc_client.specs.Route.{port_options, through as through_of};

use crate::route::Origin;
use osc_coap::laws::{length_of_growing, length_of_spelling};
use osc_coap::{DatagramTooLong, Kind, MessageBuilder};
use osc_model::limits::{DEFAULT_PORT, POST};
use osc_options::numbers::{PROXY_SCHEME, URI_HOST, URI_PORT};

/// Adds the Uri-Port option where the port isn't that of the scheme: a whole number without leading zero bytes (RFC 7252 section 3.2).
fn add_port(message: &mut MessageBuilder, port: u16) -> Result<(), DatagramTooLong>
    requires code { 0 < message.old.code }
    requires first { message.old.payload ≡ None }
    requires order { last_number 0 message.old.options ≤ 7 }
    ensures ok { OnOk result (message.new ≡ record message.old { options = message.old.options ++ port_options port }) }
    ensures fits { IsOk result
        ↔ (length (spelling (record message.old { options = message.old.options ++ port_options port })) ≤ datagram_limit) }
{
    // For the proof alone: the call tells how long the message is.
    let _bytes = message.bytes();
    if port == DEFAULT_PORT {
        Ok(())
    } else if port == 0 {
        message.option(URI_PORT, &[])
    } else if port < 256 {
        message.option(URI_PORT, &[port as u8])
    } else {
        message.option(URI_PORT, &[(port / 256) as u8, (port % 256) as u8])
    }
}

/// Adds Uri-Host and Uri-Port to a message without options, where it goes through a proxy. That fits a datagram, with a host of 255 bytes
/// too.
pub(crate) fn add_host(message: &mut MessageBuilder, origin: &Option<Origin>)
    requires code { 0 < message.old.code }
    requires none { message.old.options ≡ [] }
    requires first { message.old.payload ≡ None }
    requires token { length message.old.token ≤ 8 }
    ensures host { message.new ≡ record message.old { options = options_before origin.now } }
    ensures last { last_number 0 message.new.options ≤ 7 }
    ensures short { length (spelling message.new) ≤ 280 }
{
    length_of_spelling();
    if let Some(origin) = origin {
        message.option(URI_HOST, origin.host()).unwrap();
        add_port(message, origin.port()).unwrap();
    }
}

/// Adds Proxy-Scheme behind the options of a message, where it goes through a proxy.
pub(crate) fn add_scheme(message: &mut MessageBuilder, origin: &Option<Origin>)
    requires code { 0 < message.old.code }
    requires first { message.old.payload ≡ None }
    requires rises { last_number 0 message.old.options ≤ 39 }
    requires short { length (spelling message.old) ≤ 1024 }
    ensures scheme { message.new ≡ record message.old { options = message.old.options ++ options_behind origin.now } }
{
    length_of_growing();
    if origin.is_some() {
        message.option(PROXY_SCHEME, b"coap").unwrap();
    }
}

/// What stays outside of a protected request (RFC 8613 section 4.2): a confirmable POST with this message ID and this token, and with the
/// options by which a proxy finds the server, where there is one.
pub(crate) fn outside_with(origin: &Option<Origin>, id: u16, token: &[u8; 8]) -> MessageBuilder
    ensures { result ≡ through_of origin.now (bare Confirmable 2 id token.now) }
{
    let mut message = MessageBuilder::start(Kind::Confirmable, POST, id, token);
    add_host(&mut message, origin);
    add_scheme(&mut message, origin);
    message
}
