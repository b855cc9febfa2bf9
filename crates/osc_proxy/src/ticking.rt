//! What comes due at a proxy.
ghost use Rattle.std.specs.Prelude.{◌≡◌, ◌≤◌, ◌<◌, ◌+◌, ◌++◌, [], true, List, if◌then◌else◌, vec_len, vec_capacity};
ghost use Rattle.std.specs.Option.{option_to_list};
ghost use Rattle.osc_model.specs.declared.step.Datagram.{Datagram as AnyDatagram};
ghost use Rattle.osc_coap.specs.{HasSpelling, spelling};
ghost use Rattle.osc_message.specs.{AreSendable, FitsDatagram, GoesOut};
ghost use Rattle.osc_proxy.specs.Inner.Bounds.{IsOpen};
ghost use Rattle.osc_proxy.specs.Exchanges.{count};
ghost use Rattle.osc_proxy.specs.Table.{Closes, back_kept, back_sends};
ghost use Rattle.osc_proxy.specs.Ticks.{AllEnd, Ticks, timeout, without_its};
ghost use Rattle.osc_proxy.specs.declared.exchanges.Exchange.{Exchange as AnyExchange};
ghost use Rattle.osc_proxy.specs.declared.targets.Target.{Target as AnyTarget};

use crate::Endpoint;
use crate::answering::failing;
use crate::exchanges::{Exchanges, withdraw};
use crate::sending::send_back;
use osc_message::{MessageName, Ticked};
use osc_model::{Code, Datagram, Datagrams, Draw, Moment, Step};
use std::alloc::Global;

/// Puts a datagram, if there is one, after the others where there is room for it; elsewhere it is lost. Takes no memory.
fn put(out: &mut Vec<Datagram>, room: bool, sent: Option<Datagram>)
    requires { room ≡ true → vec_len out.old < vec_capacity out.old }
    ensures items { out.new.items ≡ out.old.items ++ (if room then option_to_list sent else []) }
    ensures len { vec_len out.new ≤ vec_len out.old + 1 }
    ensures capacity { vec_capacity out.new ≡ vec_capacity out.old }
{
    if room {
        if let Some(sent) = sent {
            out.push_reserved(sent);
        }
    }
}

/// Ends the exchange of this key by 5.04: its datagram, where it goes out at once. Takes no memory.
fn end(
    exchanges: &mut Exchanges,
    endpoint: &mut Endpoint,
    now: Moment,
    draw: &Draw,
    key: usize,
) -> Option<Datagram>
    requires { IsOpen exchanges.old key }
    ensures ended { (exchange : AnyExchange) × Closes key exchange exchanges.old exchanges.new
        × (option_to_list result ≡ back_sends (without_its endpoint.old exchange) exchange (timeout endpoint.old draw.now exchange))
        × (endpoint.new ≡ back_kept (without_its endpoint.old exchange) now draw.now exchange (timeout endpoint.old draw.now exchange))
        × FitsDatagram (spelling (timeout endpoint.old draw.now exchange)) × HasSpelling (timeout endpoint.old draw.now exchange) }
    ensures count { count exchanges.new + 1 ≡ count exchanges.old }
{
    let exchange = exchanges.close(key).unwrap();
    withdraw(endpoint, &exchange);
    let own = failing(exchange, endpoint.own_id(draw), Code::GATEWAY_TIMEOUT);
    send_back(endpoint, now, draw, own)
}

/// A tick: when it comes, what is drawn for it, and the forwarded messages that it gave up.
#[derive(Clone, Copy)]
struct AtTick<'a> {
    at: Moment,
    draw: &'a Draw,
    given_up: &'a [MessageName],
}

/// Ends each exchange that is over by 5.04. The datagrams go after the others where there is room for them, and are lost elsewhere.
/// Takes no memory.
fn all_end(
    exchanges: &mut Exchanges,
    endpoint: &mut Endpoint,
    out: &mut Vec<Datagram>,
    room: bool,
    tick: AtTick<'_>,
)
    requires { room ≡ true → vec_len out.old + count exchanges.old ≤ vec_capacity out.old }
    ensures { (answers : List AnyDatagram) × (out.new.items ≡ out.old.items ++ (if room then answers else []))
        × ((targets : List AnyTarget) → AllEnd tick.entry.at tick.entry.draw.now tick.entry.given_up.now (record { targets = targets; exchanges = exchanges.old; endpoint = endpoint.old }) answers
        (record { targets = targets; exchanges = exchanges.new; endpoint = endpoint.new })) × AreSendable answers }
{
    for _ in 0..exchanges.count() {
        let Some(key) = exchanges.find_over(tick.at, tick.given_up) else {
            return;
        };
        let sent = end(exchanges, endpoint, tick.at, tick.draw, key);
        put(out, room, sent);
    }
}

/// The datagrams of a tick, and whether answers were lost for lack of memory.
#[derive(Drop)]
struct Sent {
    out: Datagrams,
    lost: bool,
}

/// Ends each exchange that is over by 5.04. The datagrams go after the others, or, without memory for them, are lost. If no exchange is
/// over, it takes no memory.
fn answer_all(
    exchanges: &mut Exchanges,
    endpoint: &mut Endpoint,
    alloc: Global,
    out: Datagrams,
    tick: AtTick<'_>,
) -> Sent
    ensures { (answers : List AnyDatagram) × (told : List AnyDatagram) × (result.out ≡ out ++ told) × GoesOut result.lost answers told
        × ((targets : List AnyTarget) → AllEnd tick.entry.at tick.entry.draw.now tick.entry.given_up.now (record { targets = targets; exchanges = exchanges.old; endpoint = endpoint.old }) answers
        (record { targets = targets; exchanges = exchanges.new; endpoint = endpoint.new })) × AreSendable answers }
{
    if exchanges.find_over(tick.at, tick.given_up).is_none() {
        return Sent { out, lost: false };
    }
    match out.into_vec(exchanges.count()) {
        Ok(mut room) => {
            all_end(exchanges, endpoint, &mut room, true, tick);
            Sent {
                out: Datagrams::from_vec(room),
                lost: false,
            }
        }
        Err(same) => {
            let mut none = Vec::new(alloc);
            all_end(exchanges, endpoint, &mut none, false, tick);
            Sent {
                out: same,
                lost: true,
            }
        }
    }
}

/// What comes due at this moment.
pub(crate) fn tick(
    exchanges: &mut Exchanges,
    endpoint: &mut Endpoint,
    alloc: Global,
    now: Moment,
    draw: &Draw,
) -> Step
    ensures { (targets : List AnyTarget) → Ticks (record { targets = targets; exchanges = exchanges.old; endpoint = endpoint.old }) now draw.now result
        (record { targets = targets; exchanges = exchanges.new; endpoint = endpoint.new }) }
{
    exchanges.withdraw_over(endpoint, now);
    let given_up = exchanges.given_up(endpoint, now);
    let Ticked {
        out,
        lost: lost_repeats,
        ..
    } = endpoint.on_tick(alloc, now);
    let tick = AtTick {
        at: now,
        draw,
        given_up: given_up.as_slice(),
    };
    let Sent { out, lost } = answer_all(exchanges, endpoint, alloc, out, tick);
    Step::of_tick(out, lost_repeats || lost)
}
