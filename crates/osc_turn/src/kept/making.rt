//! The steps of a turn, one after another.
ghost use Rattle.std.specs.Prelude.{◌≡◌, IfErr, IfNone, IfOk, IfSome, OnOk};
ghost use Rattle.osc_turn.specs.Inner.Making.{FirstFails, MakesFirst, MakesNext, NextFails};
ghost use Rattle.osc_turn.specs.Running.{running};

use crate::clock_and_random::ClockAndRandom;
use crate::error::TurnError;
use crate::pace::{Pace, must_tick, paced_step};
use crate::port::Port;
use crate::turning::{Stepped, step_of};
use crate::watch::Watch;
use osc_ccm::Ciphers;
use osc_model::Moment;
use osc_run::Node;
use std::alloc::Global;

/// The first step of a turn at this moment: a tick, where one has to come, or of what the port gives.
pub(crate) fn first_step<A: Ciphers, W: Watch + Drop, P: Port, N: Node<A>>(
    alloc: Global,
    supply: &mut ClockAndRandom<W>,
    port: &mut P,
    node: &mut N,
    pace: &mut Pace,
    now: Moment,
) -> Result<Stepped, TurnError>
    ensures made { IfOk result (λ stepped. MakesFirst N.acts N.is_step now (running node.old pace.old.busy_since supply.old) stepped
        (running node.new pace.new.busy_since supply.new) (P.received port.old) (P.received port.new)) }
    ensures fails { IfErr result (λ error. FirstFails N.acts N.is_step now error (running node.old pace.old.busy_since supply.old)
        (running node.new pace.new.busy_since supply.new) (P.received port.old) (P.received port.new) (P.failures port.old) (P.failures port.new)) }
    ensures no_fault { OnOk result (P.failures port.new ≡ P.failures port.old) }
    ensures not_sent { P.sent port.new ≡ P.sent port.old }
{
    let draw = supply.draw();
    match paced_step::<A, P, N>(alloc, port, node, pace, now, &draw) {
        Ok(stepped) => Ok(stepped),
        Err(TurnError::Memory) => {
            *pace = Pace::START;
            Err(TurnError::Memory)
        }
        Err(error) => Err(error),
    }
}

/// One step more, of a datagram that waits: none where the last step was a tick, where one has to come now, or where nothing waits.
pub(crate) fn next_step<A: Ciphers, W: Watch + Drop, P: Port, N: Node<A>>(
    alloc: Global,
    supply: &mut ClockAndRandom<W>,
    port: &mut P,
    node: &mut N,
    pace: &mut Pace,
    now: Moment,
) -> Result<Option<Stepped>, TurnError>
    ensures made { IfOk result (λ next. IfSome next (λ stepped. MakesNext N.acts N.is_step now (running node.old pace.old.busy_since supply.old) stepped
        (running node.new pace.new.busy_since supply.new) (P.received port.old) (P.received port.new))) }
    ensures nothing { IfOk result (λ next. IfNone next ((running node.new pace.new.busy_since supply.new ≡ running node.old pace.old.busy_since supply.old)
        × (P.received port.new ≡ P.received port.old))) }
    ensures fails { IfErr result (λ error. NextFails N.acts N.is_step now error (running node.old pace.old.busy_since supply.old)
        (running node.new pace.new.busy_since supply.new) (P.received port.old) (P.received port.new) (P.failures port.old) (P.failures port.new)) }
    ensures no_fault { OnOk result (P.failures port.new ≡ P.failures port.old) }
    ensures not_sent { P.sent port.new ≡ P.sent port.old }
{
    if pace.busy_since.is_none() || must_tick::<A, N>(node, *pace, now) {
        return Ok(None);
    }
    let mut buffer = [0; 1153];
    let got = port.receive_waiting(&mut buffer)?;
    if got.is_none() {
        return Ok(None);
    }
    let draw = supply.draw();
    match step_of::<A, N>(alloc, node, now, &draw, &buffer, got) {
        Ok(step) => {
            *pace = pace.after(now, true);
            Ok(Some(Stepped {
                received: true,
                step,
            }))
        }
        Err(_) => {
            *pace = Pace::START;
            Err(TurnError::Memory)
        }
    }
}
