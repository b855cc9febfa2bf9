//! One turn of a node at its port.
ghost use Rattle.std.specs.Prelude.{◌≡◌, ◌≤◌, ◌∷◌, [], Option, IfErr, IfOk, IfSome, IsErr, IsSome, OnErr, OnOk, is_some};
ghost use Rattle.osc_turn.specs.Ports.{CountsFault, Received, cause_of, grown, received_in};
ghost use Rattle.osc_turn.specs.Turns.{IsRefusedBy};

use crate::error::TurnError;
use crate::port::{Port, PortFault};
use osc_ccm::Ciphers;
use osc_model::{Datagram, Draw, Moment, Peer, Step};
use osc_run::Node;
use std::alloc::{AllocError, Global};

/// A turn that made a step.
#[derive(Debug, Drop)]
pub struct Turned {
    /// Whether a datagram came; else the step is that of a tick.
    pub received: bool,
    /// The step.
    pub step: Step,
    /// Of the sends that failed, the first one's fault. Their datagrams are lost; the step is kept, and all others were sent.
    pub fault: Option<PortFault>,
}

/// A step that was made, of which nothing was sent yet.
#[derive(Debug, Drop)]
pub struct Stepped {
    /// Whether a datagram came; else the step is that of a tick.
    pub received: bool,
    /// The step.
    pub step: Step,
}

/// One turn: receives at most one datagram (none gives a tick), makes one step and sends its datagrams in order, each once.
///
/// # Errors
///
/// `Port` where the receive failed. `Memory` where a datagram came and there was no memory for its step; then it is lost. The node is as
/// before, and nothing was sent.
pub fn turn<A: Ciphers, P: Port, N: Node<A>>(
    alloc: Global,
    port: &mut P,
    node: &mut N,
    now: Moment,
    draw: &Draw,
) -> Result<Turned, TurnError>
    ensures done { IfOk result (λ turned. (came : Option Received)
        × (P.received port.new ≡ grown (P.received port.old) (came ∷ []))
        × (turned.received ≡ is_some came)
        × N.is_step node.old (cause_of now draw.now came) turned.step node.new
        × (P.sent port.new ≡ grown (P.sent port.old) turned.step.out)) }
    ensures fault { IfOk result (λ turned. CountsFault turned.fault (P.failures port.old) (P.failures port.new)) }
    ensures refused { IfErr result (λ error. IsRefusedBy error (P.received port.old) (P.received port.new) (P.failures port.old) (P.failures port.new)) }
    ensures err { OnErr result (node.new ≡ node.old) }
    ensures not_sent { OnErr result (P.sent port.new ≡ P.sent port.old) }
{
    let stepped = step_on_receipt::<A, P, N>(alloc, port, node, now, draw)?;
    Ok(send_step(port, stepped))
}

/// The first half of a turn: receives at most one datagram, and makes one step. Nothing is sent.
pub(crate) fn step_on_receipt<A: Ciphers, P: Port, N: Node<A>>(
    alloc: Global,
    port: &mut P,
    node: &mut N,
    now: Moment,
    draw: &Draw,
) -> Result<Stepped, TurnError>
    ensures done { IfOk result (λ stepped. (came : Option Received)
        × (P.received port.new ≡ grown (P.received port.old) (came ∷ []))
        × (stepped.received ≡ is_some came)
        × N.is_step node.old (cause_of now draw.now came) stepped.step node.new) }
    ensures refused { IfErr result (λ error. IsRefusedBy error (P.received port.old) (P.received port.new) (P.failures port.old) (P.failures port.new)) }
    ensures err { OnErr result (node.new ≡ node.old) }
    ensures not_sent { P.sent port.new ≡ P.sent port.old }
    ensures no_fault { OnOk result (P.failures port.new ≡ P.failures port.old) }
{
    let mut buffer = [0; 1153];
    let got = port.receive(&mut buffer)?;
    match step_of::<A, N>(alloc, node, now, draw, &buffer, got) {
        Ok(step) => Ok(Stepped {
            received: got.is_some(),
            step,
        }),
        Err(_) => Err(TurnError::Memory),
    }
}

/// The second half of a turn: sends the step's datagrams in order, each once.
pub fn send_step<P: Port>(port: &mut P, stepped: Stepped) -> Turned
    ensures step { result.step ≡ stepped.step }
    ensures received { result.received ≡ stepped.received }
    ensures sent { P.sent port.new ≡ grown (P.sent port.old) stepped.step.out }
    ensures not_received { P.received port.new ≡ P.received port.old }
    ensures fault { CountsFault result.fault (P.failures port.old) (P.failures port.new) }
{
    let Stepped { received, step } = stepped;
    let fault = send_all(port, step.out.as_slice());
    Turned {
        received,
        step,
        fault,
    }
}

/// The step that the node makes of what was received.
pub(crate) fn step_of<A: Ciphers, N: Node<A>>(
    alloc: Global,
    node: &mut N,
    now: Moment,
    draw: &Draw,
    buffer: &[u8; 1153],
    got: Option<(Peer, usize)>,
) -> Result<Step, AllocError>
    requires { IfSome got (λ datagram. datagram.1 ≤ 1153) }
    ensures made { IfOk result (λ step. N.is_step node.old (cause_of now draw.now (received_in buffer.now got)) step node.new) }
    ensures err { OnErr result (node.new ≡ node.old) }
    ensures came { IsErr result → IsSome got }
{
    match got {
        Some((from, len)) => node.hear(alloc, now, from, &buffer[..len], draw),
        None => Ok(node.tick(alloc, now, draw)),
    }
}

/// Sends these in order, each once. After a failure the rest is still sent; the fault is that of the first one.
pub fn send_all<P: Port>(port: &mut P, datagrams: &[Datagram]) -> Option<PortFault>
    ensures sent { P.sent port.new ≡ grown (P.sent port.old) datagrams.now }
    ensures not_received { P.received port.new ≡ P.received port.old }
    ensures fault { CountsFault result (P.failures port.old) (P.failures port.new) }
{
    let mut fault = None;
    for datagram in datagrams {
        let sent = port.send(datagram.to, datagram.bytes.as_slice());
        fault = fault.or(sent.err());
    }
    fault
}
