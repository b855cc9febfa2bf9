//! Turns that tick in time, whatever comes: for what is due, and each 10 milliseconds at the latest.
ghost use Rattle.std.specs.Prelude.{◌≡◌, None, Option, false, IfErr, IfOk, OnErr, OnOk, is_some};
ghost use Rattle.osc_turn.specs.Pace.{CameIn, IsRefusedIn, busy_after, is_due, must_tick};
ghost use Rattle.osc_turn.specs.Ports.{CountsFault, Received, cause_of, grown};

use crate::error::TurnError;
use crate::port::Port;
use crate::turning::{Stepped, Turned, send_step, step_on_receipt};
use osc_ccm::Ciphers;
use osc_model::{Draw, Moment};
use osc_run::Node;
use std::alloc::Global;

// How long a node takes what comes without a tick between, in milliseconds.
const TICK_MILLIS: u64 = 10;

/// Since when a node has taken what came, without a tick between.
#[derive(Clone, Copy, Debug, PartialEq, Eq)]
pub struct Pace {
    /// The moment of its first turn after the last tick; none where its last turn ticked, or where it took none yet.
    pub busy_since: Option<Moment>,
}

impl Pace {
    /// That of a node which took no turn yet.
    pub const START: Pace = Pace { busy_since: None };

    /// Whether a tick is due at this moment: the node has taken what came for 10 milliseconds.
    pub fn is_due(self, now: Moment) -> bool
        ensures { result ≡ is_due self.busy_since now }
    {
        match self.busy_since {
            Some(since) => since.ms + TICK_MILLIS <= now.ms,
            None => false,
        }
    }

    // After one more turn, in which a datagram came, or none.
    pub(crate) fn after(self, now: Moment, received: bool) -> Pace
        ensures { result.busy_since ≡ busy_after self.busy_since now received }
    {
        if !received {
            return Pace::START;
        }
        Pace {
            busy_since: Some(self.busy_since.unwrap_or(now)),
        }
    }
}

/// One turn of a node that keeps this pace: where something of its own is due, or it has taken what came for 10 milliseconds, the node
/// ticks, and what waits at the port stays there until the next turn; else it is a [`turn`]. So what is due goes out before anything more is
/// taken, and what is over ends, whatever comes.
///
/// # Errors
///
/// As of [`turn`]; none where the node ticks without asking the port.
pub fn paced_turn<A: Ciphers, P: Port, N: Node<A>>(
    alloc: Global,
    port: &mut P,
    node: &mut N,
    pace: &mut Pace,
    now: Moment,
    draw: &Draw,
) -> Result<Turned, TurnError>
    ensures done { IfOk result (λ turned. (came : Option Received)
        × CameIn (must_tick (N.acts node.old now) pace.old.busy_since now) came (P.received port.old) (P.received port.new)
        × (turned.received ≡ is_some came)
        × N.is_step node.old (cause_of now draw.now came) turned.step node.new
        × (P.sent port.new ≡ grown (P.sent port.old) turned.step.out)) }
    ensures fault { IfOk result (λ turned. CountsFault turned.fault (P.failures port.old) (P.failures port.new)) }
    ensures pace { IfOk result (λ turned. pace.new.busy_since ≡ busy_after pace.old.busy_since now turned.received) }
    ensures refused { IfErr result (λ error. IsRefusedIn (must_tick (N.acts node.old now) pace.old.busy_since now) error
        (P.received port.old) (P.received port.new) (P.failures port.old) (P.failures port.new)) }
    ensures err { OnErr result (node.new ≡ node.old) }
    ensures not_sent { OnErr result (P.sent port.new ≡ P.sent port.old) }
    ensures pace_kept { OnErr result (pace.new ≡ pace.old) }
{
    let stepped = paced_step::<A, P, N>(alloc, port, node, pace, now, draw)?;
    Ok(send_step(port, stepped))
}

/// The first half of a [`paced_turn`]: takes what came, or ticks, and makes one step. Nothing is sent: whoever keeps something of a step
/// does so between it and [`send_step`], so that nobody is told of what may be lost.
///
/// # Errors
///
/// As of [`paced_turn`].
pub fn paced_step<A: Ciphers, P: Port, N: Node<A>>(
    alloc: Global,
    port: &mut P,
    node: &mut N,
    pace: &mut Pace,
    now: Moment,
    draw: &Draw,
) -> Result<Stepped, TurnError>
    ensures done { IfOk result (λ stepped. (came : Option Received)
        × CameIn (must_tick (N.acts node.old now) pace.old.busy_since now) came (P.received port.old) (P.received port.new)
        × (stepped.received ≡ is_some came)
        × N.is_step node.old (cause_of now draw.now came) stepped.step node.new) }
    ensures pace { IfOk result (λ stepped. pace.new.busy_since ≡ busy_after pace.old.busy_since now stepped.received) }
    ensures refused { IfErr result (λ error. IsRefusedIn (must_tick (N.acts node.old now) pace.old.busy_since now) error
        (P.received port.old) (P.received port.new) (P.failures port.old) (P.failures port.new)) }
    ensures err { OnErr result (node.new ≡ node.old) }
    ensures not_sent { P.sent port.new ≡ P.sent port.old }
    ensures no_fault { OnOk result (P.failures port.new ≡ P.failures port.old) }
    ensures pace_kept { OnErr result (pace.new ≡ pace.old) }
{
    let due = must_tick::<A, N>(node, *pace, now);
    let stepped = step_by::<A, P, N>(alloc, port, node, due, now, draw)?;
    *pace = pace.after(now, stepped.received);
    Ok(stepped)
}

// Whether a tick has to come: something of the node's own is due, or it has taken what came for so long.
pub(crate) fn must_tick<A: Ciphers, N: Node<A>>(node: &N, pace: Pace, now: Moment) -> bool
    ensures { result ≡ must_tick (N.acts node.now now) pace.busy_since now }
{
    acts::<A, N>(node, now) || pace.is_due(now)
}

// Whether something of the node's own is due at this moment: its first deadline isn't above it.
fn acts<A: Ciphers, N: Node<A>>(node: &N, now: Moment) -> bool
    ensures { result ≡ N.acts node.now now }
{
    match node.next_due() {
        Some(first) => first <= now.ms,
        None => false,
    }
}

// A step that is a tick, or that takes what came.
fn step_by<A: Ciphers, P: Port, N: Node<A>>(
    alloc: Global,
    port: &mut P,
    node: &mut N,
    due: bool,
    now: Moment,
    draw: &Draw,
) -> Result<Stepped, TurnError>
    ensures done { IfOk result (λ stepped. (came : Option Received)
        × CameIn due came (P.received port.old) (P.received port.new)
        × (stepped.received ≡ is_some came)
        × N.is_step node.old (cause_of now draw.now came) stepped.step node.new) }
    ensures refused { IfErr result (λ error. IsRefusedIn due error
        (P.received port.old) (P.received port.new) (P.failures port.old) (P.failures port.new)) }
    ensures err { OnErr result (node.new ≡ node.old) }
    ensures not_sent { P.sent port.new ≡ P.sent port.old }
    ensures no_fault { OnOk result (P.failures port.new ≡ P.failures port.old) }
{
    if due {
        Ok(ticked::<A, N>(alloc, node, now, draw))
    } else {
        step_on_receipt::<A, P, N>(alloc, port, node, now, draw)
    }
}

// A step that is a tick: no port is asked for what came.
fn ticked<A: Ciphers, N: Node<A>>(alloc: Global, node: &mut N, now: Moment, draw: &Draw) -> Stepped
    ensures ticks { N.is_step node.old (cause_of now draw.now None) result.step node.new }
    ensures nothing { result.received ≡ false }
{
    let step = node.tick(alloc, now, draw);
    Stepped {
        received: false,
        step,
    }
}
