//! One turn, and whether it tells what the queues know of it.

use crate::queues::Queues;
use osc_ccm::Suite;
use osc_fixtures::{at, drawn};
use osc_model::{ClientResult, Draw, Moment, Step};
use osc_run::Node;
use osc_turn::{PortFault, TurnError, Turned, paced_turn, send_all, turn};
use std::alloc::{AllocError, Global};
use std::process::Abort;
use std::test::*;

/// What the queues know before a turn.
#[derive(Clone, Copy)]
struct Before {
    waiting: usize,
    sent: usize,
    failures: usize,
    lost: usize,
}

fn counts<R: Abort>(port: &Queues<'_, R>) -> Before {
    Before {
        waiting: port.waiting.len(),
        sent: port.sent.len(),
        failures: port.failures,
        lost: port.lost,
    }
}

/// How many datagrams didn't go: one where a call failed, and what was lost on its way.
fn missing<R: Abort>(port: &Queues<'_, R>, before: Before) -> usize {
    let lost = port.lost.saturating_sub(before.lost);
    if port.failures == before.failures {
        lost
    } else {
        lost.saturating_add(1)
    }
}

/// Whether this fault is told by the number 32 where a call failed, and no other is told.
fn is_fault(fault: Option<PortFault>, failed: bool) -> bool {
    match fault {
        Some(fault) => failed && fault.number() == 32,
        None => !failed,
    }
}

/// Whether the turn tells if a datagram came and if a send failed, and all of the step was sent but for the datagram of the call that
/// failed.
fn is_told<R: Abort>(port: &Queues<'_, R>, before: Before, turned: &Turned) -> bool {
    let out = turned.step.out.as_slice();
    turned.received == (port.waiting.len() != before.waiting)
        && is_fault(turned.fault, port.failures != before.failures)
        && port.sent.get(before.sent..) == Some(out)
        && port.gone.len().checked_add(missing(port, before)) == Some(out.len())
}

/// Whether the receive failed: what waits is still to be had, and nothing was sent.
fn is_refused<R: Abort>(port: &Queues<'_, R>, before: Before, error: TurnError) -> bool {
    error == TurnError::Port(PortFault)
        && error.number() == 32
        && port.failures != before.failures
        && port.waiting.len() == before.waiting
        && port.sent.len() == before.sent
}

/// What stands for a response that didn't open, where another would be a code.
pub(crate) const UNVERIFIED: u8 = 2;

/// What a client learnt in the step: 0 for nothing, 1 for a context, `UNVERIFIED`, the code of an answer that opened; 255 for all else.
fn learnt(turned: Turned) -> u8 {
    let learnt = match turned.step.notes.result() {
        None => 0,
        Some(ClientResult::Made) => 1,
        Some(ClientResult::Answer(reply)) => reply.code.0,
        Some(ClientResult::Unverified(_)) => UNVERIFIED,
        Some(_) => 255,
    };
    drop(turned);
    learnt
}

/// One turn, at the pace of the port's node, if it keeps one.
fn turns<R: Abort, N: Node<Suite>>(
    alloc: Global,
    port: &mut Queues<'_, R>,
    node: &mut N,
    now: Moment,
    draw: &Draw,
) -> Result<Turned, TurnError> {
    let Some(mut pace) = port.pace else {
        return turn::<Suite, _, _>(alloc, port, node, now, draw);
    };
    let turned = paced_turn::<Suite, _, _>(alloc, port, node, &mut pace, now, draw);
    port.pace = Some(pace);
    turned
}

/// One turn at this moment, each second with bytes of its own: what a client learnt, or `None` where the receive failed.
pub(crate) fn takes<R: Abort, N: Node<Suite>>(
    rt: &R,
    alloc: Global,
    port: &mut Queues<'_, R>,
    node: &mut N,
    ms: u64,
) -> Option<u8> {
    let before = counts(port);
    match turns(alloc, port, node, at(ms), &drawn((ms / 1_000 % 256) as u8)) {
        Ok(turned) => {
            assert!(rt; is_told(port, before, &turned));
            Some(learnt(turned))
        }
        Err(error) => {
            assert!(rt; is_refused(port, before, error));
            None
        }
    }
}

/// Sends what a client's own step sends.
pub(crate) fn sends<R: Abort>(rt: &R, port: &mut Queues<'_, R>, step: Result<Step, AllocError>) {
    let step = step.expect(rt, "memory");
    let before = counts(port);
    let fault = send_all(port, step.out.as_slice());
    assert!(rt; fault.is_some() == (port.failures != before.failures));
    drop(step);
}
