//! The exchange of a request that is forwarded.
ghost use Rattle.std.specs.Prelude.{◌≡◌};
ghost use Rattle.osc_proxy.specs.Table.{exchange_of};

use crate::exchanges::{Exchange, FailureRoom};
use crate::forwarding::forwarded_token;
use crate::token::Token;
use osc_message::{Arrival, is_confirmable};
use osc_model::Peer;

/// The exchange of this key for the request that came, whose forwarded message has this ID.
pub(crate) fn opened(key: u8, id: u16, came: &Arrival<'_>, to: Peer, room: FailureRoom) -> Exchange
    ensures { result ≡ exchange_of id (record { came = came.now; to = to; key = key }) }
{
    Exchange {
        client: came.from,
        client_token: Token::new(came.message.token()),
        confirmable: is_confirmable(came.message.kind()),
        target: to,
        id,
        token: forwarded_token(key, came.draw),
        opened: came.at,
        room,
    }
}
