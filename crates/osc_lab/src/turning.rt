//! A node's turn at its socket: what comes from the socket of a node comes from that node's address in the script, and what goes to such an address
//! goes to the node's socket.
ghost use Rattle.std.specs.Prelude.{◌≡◌, ◌||◌, Option, None, Some, false, true, IfErr, IfOk, OnErr, is_some, map, option_map};
ghost use Rattle.osc_lab.specs.Inner.Telling as inner;
ghost use Rattle.osc_lab.specs.Network.{named, posted};
ghost use Rattle.osc_programs.specs.Ended as ends;
ghost use Rattle.osc_turn.specs.{CameIn, Received, busy_after, cause_of, grown, must_tick};

use crate::cast::Cast;
use crate::port::AddressMap;
use crate::ports::PacedPort;
use osc_ccm::Suite;
use osc_model::{Datagram, Draw, Moment, Peer, Step};
use osc_programs::{Ended, moment_and_draw};
use osc_run::Node;
use osc_turn::{ClockAndRandom, Pace, Port, PortFault, Stepped, Watch};

/// A turn that made a step.
#[derive(Drop)]
pub(crate) struct LabTurn {
    /// Whether the node was busy: it took what came in this turn, or in its last one. After that a turn may be a tick though something waits.
    pub busy: bool,
    /// The step.
    pub step: Step,
    /// Of the sends that failed, the first one's fault.
    pub fault: Option<PortFault>,
}

/// A turn of the node, at the next moment and with the next draw.
pub(crate) fn turn_of<W: Watch + Drop, P: Port + Drop, N: Node<Suite>>(
    cast: Cast<'_>,
    supply: &mut ClockAndRandom<W>,
    port: &mut PacedPort<P>,
    node: &mut N,
) -> Result<LabTurn, Ended>
    ensures takes { IfOk result (λ turned. inner.Took (inner.network P.received P.sent cast.entry.addresses.now) N.acts N.is_step turned.step turned.busy
        (inner.at_port node.old port.old supply.old) (inner.at_port node.new port.new supply.new)) }
    ensures err { OnErr result (node.new ≡ node.old) }
    ensures not_sent { OnErr result (P.sent port.new.port ≡ P.sent port.old.port) }
    ensures fault { IfErr result ends.IsFault }
{
    let (now, draw) = moment_and_draw(supply)?;
    let was_busy = port.is_busy();
    let Stepped { received, step } = step_at(cast, port, node, now, &draw)?;
    let fault = send_out(&mut port.port, cast.addresses, step.out.as_slice());
    Ok(LabTurn {
        busy: either(was_busy, received),
        step,
        fault,
    })
}

/// Whether one of them was busy.
pub(crate) fn either(one: bool, other: bool) -> bool
    ensures { result ≡ one || other }
{
    one || other
}

// The step of a turn: a tick, where one is due, or the step for what the port gives. Nothing is sent.
fn step_at<P: Port + Drop, N: Node<Suite>>(
    cast: Cast<'_>,
    port: &mut PacedPort<P>,
    node: &mut N,
    now: Moment,
    draw: &Draw,
) -> Result<Stepped, Ended>
    ensures done { IfOk result (λ stepped. (came : Option Received)
        × CameIn (must_tick (N.acts node.old now) port.old.pace.busy_since now) came (P.received port.old.port) (P.received port.new.port)
        × (stepped.received ≡ is_some came)
        × N.is_step node.old (cause_of now draw.now (option_map (named cast.entry.addresses.now) came)) stepped.step node.new) }
    ensures pace { IfOk result (λ stepped. port.new.pace.busy_since ≡ busy_after port.old.pace.busy_since now stepped.received) }
    ensures not_sent { P.sent port.new.port ≡ P.sent port.old.port }
    ensures err { OnErr result (node.new ≡ node.old) }
    ensures fault { IfErr result ends.IsFault }
{
    let due = acts(node, now) || port.pace.is_due(now);
    let stepped = step_by(cast, &mut port.port, node, due, now, draw)?;
    port.pace = paced(port.pace, now, stepped.received);
    Ok(stepped)
}

// Whether something of the node's own is due at this moment.
fn acts<N: Node<Suite>>(node: &N, now: Moment) -> bool
    ensures { result ≡ N.acts node.now now }
{
    match node.next_due() {
        Some(first) => first <= now.ms,
        None => false,
    }
}

// The pace after one more turn, in which a datagram came, or none.
fn paced(pace: Pace, now: Moment, received: bool) -> Pace
    ensures { result.busy_since ≡ busy_after pace.busy_since now received }
{
    if !received {
        return Pace::START;
    }
    Pace {
        busy_since: Some(pace.busy_since.unwrap_or(now)),
    }
}

// A step that is a tick, or that takes what came.
fn step_by<P: Port, N: Node<Suite>>(
    cast: Cast<'_>,
    port: &mut P,
    node: &mut N,
    due: bool,
    now: Moment,
    draw: &Draw,
) -> Result<Stepped, Ended>
    ensures done { IfOk result (λ stepped. (came : Option Received)
        × CameIn due came (P.received port.old) (P.received port.new)
        × (stepped.received ≡ is_some came)
        × N.is_step node.old (cause_of now draw.now (option_map (named cast.entry.addresses.now) came)) stepped.step node.new) }
    ensures not_sent { P.sent port.new ≡ P.sent port.old }
    ensures err { OnErr result (node.new ≡ node.old) }
    ensures fault { IfErr result ends.IsFault }
{
    if due {
        return Ok(ticked(cast, node, now, draw));
    }
    let mut buffer = [0; 1153];
    match port.receive(&mut buffer) {
        Ok(None) => Ok(ticked(cast, node, now, draw)),
        Ok(Some((from, len))) => heard(cast, node, now, from, &buffer[..len], draw),
        Err(_) => Err(Ended::PortFailed),
    }
}

// A step that is a tick.
fn ticked<N: Node<Suite>>(cast: Cast<'_>, node: &mut N, now: Moment, draw: &Draw) -> Stepped
    ensures ticks { N.is_step node.old (cause_of now draw.now None) result.step node.new }
    ensures nothing { result.received ≡ false }
{
    Stepped {
        received: false,
        step: node.tick(cast.alloc, now, draw),
    }
}

// The step for what came from this socket.
fn heard<N: Node<Suite>>(
    cast: Cast<'_>,
    node: &mut N,
    now: Moment,
    from: Peer,
    bytes: &[u8],
    draw: &Draw,
) -> Result<Stepped, Ended>
    ensures hears { IfOk result (λ stepped. (stepped.received ≡ true)
        × N.is_step node.old (cause_of now draw.now (Some (named cast.entry.addresses.now (from, bytes.now)))) stepped.step node.new) }
    ensures err { OnErr result (node.new ≡ node.old) }
    ensures fault { IfErr result ends.IsFault }
{
    let from = cast.addresses.script(from);
    match node.hear(cast.alloc, now, from, bytes, draw) {
        Ok(step) => Ok(Stepped {
            received: true,
            step,
        }),
        Err(_) => Err(Ended::OutOfMemory),
    }
}

/// Hands these datagrams to the port in order, each once, to the socket of the node that it is for. After a failure the rest is still sent; the
/// fault is that of the first one.
pub(crate) fn send_out<P: Port>(
    port: &mut P,
    addresses: &AddressMap,
    out: &[Datagram],
) -> Option<PortFault>
    ensures sent { P.sent port.new ≡ grown (P.sent port.old) (map (posted addresses.now) out.now) }
    ensures not_received { P.received port.new ≡ P.received port.old }
{
    let mut fault = None;
    for datagram in out {
        let sent = port.send(addresses.socket(datagram.to), datagram.bytes.as_slice());
        fault = fault.or(sent.err());
    }
    fault
}
