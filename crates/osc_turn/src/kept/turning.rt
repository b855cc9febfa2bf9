//! One turn of a node, and of what keeps its steps.
ghost use Rattle.std.specs.Prelude.{◌≡◌, ◌≤◌, ◌<◌, ◌++◌, ◌∷◌, [], false, true, IfErr, IfOk, IsOk, List, None, OnErr, OnOk, Option, length};
ghost use Rattle.std.specs.List.{flat_map};
ghost use Rattle.sqlite_disk.specs.Disk.{MoreFaults};
ghost use Rattle.osc_model.specs.declared.step.Datagram.{Datagram as AnyDatagram};
ghost use Rattle.osc_run.specs.{Cause};
ghost use Rattle.osc_store.specs.Causes.{WhyNotKept};
ghost use Rattle.osc_turn.specs.{CountsFault, Received, grown};
ghost use Rattle.osc_turn.specs.Kept.Changes.{path_changed_by};
ghost use Rattle.osc_turn.specs.Kept.Turns.{Stands};
ghost use Rattle.osc_turn.specs.Inner.Making.{HasEnded, HasMade, HasTaken};
ghost use Rattle.osc_turn.specs.Running.{DoesTurn, DropsTurn, FailsTurn, MissesTurn, Running as AnyRunning, any_changed, at_port, most_steps, running};
ghost use Rattle.osc_turn.specs.declared.turning.Stepped.{Stepped as AnyStepped};
ghost use Rattle.osc_turn.specs.Unsent.{IfFailed, IfLost, IfNoMoment, IfNotKept};

use crate::clock_and_random::ClockAndRandom;
use crate::error::TurnError;
use crate::kept::batch::{Batch, MOST_STEPS};
use crate::kept::error::Unsent;
use crate::kept::keeping::KeepsSteps;
use crate::kept::making::{first_step, next_step};
use crate::pace::Pace;
use crate::port::{Port, PortFault};
use crate::turning::{Stepped, send_all};
use crate::watch::Watch;
use osc_ccm::Ciphers;
use osc_run::Node;
use osc_store::KeepError;
use std::alloc::Global;

/// A node, and what keeps its steps: nothing does where that is `osc_store::Forgetful`.
#[derive(Drop)]
pub struct KeptNode<N, K> {
    /// The node.
    pub node: N,
    /// What keeps its steps.
    pub keeper: K,
}

/// How a turn ended that made steps, all of whose changes are kept.
#[derive(Clone, Copy, Debug, PartialEq, Eq)]
pub struct Taken {
    /// Why it took nothing more, where that is an error: a receive that failed, or no memory for the step of what came last, which is lost.
    pub ended: Option<TurnError>,
    /// Of the sends that failed, the first one's fault. Their datagrams are lost; the steps are kept, and all others were sent.
    pub fault: Option<PortFault>,
}

/// One turn of a node that keeps this pace, at one reading of the clocks: a tick where one has to come; else what the port gives, and then each datagram
/// that waits there, until a tick has to come, up to 64 steps. What they changed is kept at once, before anything of them is sent; where nothing
/// changed, what keeps them does what it left for such a time. Then all that they send is sent, in order. The steps are in the batch.
///
/// However far the turn came, and so at whatever moment the power goes: nothing of it was handed to the port, and the next start finds the resources
/// before it or after it; or it finds those after it.
///
/// # Errors
///
/// `NoMoment` where the clocks can't be read. `NoStep` as of a paced turn, before the first step. `NotKept` where a change isn't kept, with the cause:
/// nothing was sent, and the node has moved on, so it may take no other turn. It never comes where what keeps the steps never fails, as where
/// nothing is kept.
pub fn kept_turn<A: Ciphers, W: Watch + Drop, P: Port, N: Node<A>, K: KeepsSteps<A, N>>(
    alloc: Global,
    supply: &mut ClockAndRandom<W>,
    port: &mut P,
    kept: &mut KeptNode<N, K>,
    pace: &mut Pace,
    batch: &mut Batch,
) -> Result<Taken, Unsent>
    ensures done { IfOk result (λ taken. DoesTurn N.acts N.is_step taken
        (running kept.old.node pace.old.busy_since supply.old) (at_port (P.received port.old) (P.sent port.old) (P.failures port.old)) batch.new
        (running kept.new.node pace.new.busy_since supply.new) (at_port (P.received port.new) (P.sent port.new) (P.failures port.new))) }
    ensures kept { OnOk result (K.keeps kept.old.keeper kept.old.node → K.keeps kept.new.keeper kept.new.node) }
    ensures settled { OnOk result (K.pending kept.new.keeper ≡ false) }
    ensures no_moment { IfErr result (IfNoMoment ((kept.new ≡ kept.old) × (pace.new ≡ pace.old) × (supply.new.generator ≡ supply.old.generator)
        × (at_port (P.received port.new) (P.sent port.new) (P.failures port.new) ≡ at_port (P.received port.old) (P.sent port.old) (P.failures port.old)))) }
    ensures lost { IfErr result (IfLost ((kept.new.keeper ≡ kept.old.keeper) × DropsTurn N.acts N.is_step
        (running kept.old.node pace.old.busy_since supply.old) (at_port (P.received port.old) (P.sent port.old) (P.failures port.old)) batch.new
        (running kept.new.node pace.new.busy_since supply.new) (at_port (P.received port.new) (P.sent port.new) (P.failures port.new)))) }
    ensures failed { IfErr result (IfFailed ((kept.new ≡ kept.old) × FailsTurn N.acts N.is_step
        (running kept.old.node pace.old.busy_since supply.old) (at_port (P.received port.old) (P.sent port.old) (P.failures port.old))
        (running kept.new.node pace.new.busy_since supply.new) (at_port (P.received port.new) (P.sent port.new) (P.failures port.new)))) }
    ensures not_kept { IfErr result (IfNotKept (λ error. MissesTurn N.acts N.is_step
        (running kept.old.node pace.old.busy_since supply.old) (at_port (P.received port.old) (P.sent port.old) (P.failures port.old)) batch.new
        (running kept.new.node pace.new.busy_since supply.new) (at_port (P.received port.new) (P.sent port.new) (P.failures port.new)))) }
    ensures nothing { IfErr result (IfNotKept (λ error. K.pending kept.old.keeper ≡ false → any_changed batch.new.steps ≡ false
        → K.owes kept.old.keeper ≡ true)) }
    ensures cause { K.keeps kept.old.keeper kept.old.node → K.trusted kept.new.keeper → IfErr result (IfNotKept (λ error.
        WhyNotKept (MoreFaults (K.faults kept.old.keeper) (K.faults kept.new.keeper)) (K.too_long kept.new.node) error)) }
    ensures fails { IfErr result (IfNotKept (λ error. K.may_fail)) }
    ensures named { IfErr result (IfNotKept (λ error. K.names kept.new.keeper error)) }
    ensures counts { K.faults kept.old.keeper ≤ K.faults kept.new.keeper }
    ensures trust { K.trusted kept.new.keeper → K.trusted kept.old.keeper }
    ensures file { K.file kept.new.keeper ≡ K.file kept.old.keeper }
    ensures not_sent { OnErr result (P.sent port.new ≡ P.sent port.old) }
    ensures stands { K.keeps kept.old.keeper kept.old.node → (sent : List AnyDatagram) × (P.sent port.new ≡ grown (P.sent port.old) sent)
        × Stands K.keeps K.may_hold kept.old.node kept.new.node kept.new.keeper sent }
{
    let now = match supply.moment() {
        Ok(now) => now,
        Err(error) => return Err(Unsent::NoMoment(error)),
    };
    batch.begin(now);
    match first_step::<A, W, P, N>(alloc, supply, port, &mut kept.node, pace, now) {
        Ok(stepped) => batch.push(stepped),
        Err(error) => return Err(Unsent::NoStep(error)),
    }
    match keep_steps::<A, W, P, N, K>(alloc, supply, port, kept, pace, batch) {
        Ok(ended) => Ok(Taken {
            ended,
            fault: send_steps(port, batch.steps()),
        }),
        Err(error) => Err(Unsent::NotKept(error)),
    }
}

// All that a turn does after its first step, up to what is sent. The batch has that step, which isn't written yet.
fn keep_steps<A: Ciphers, W: Watch + Drop, P: Port, N: Node<A>, K: KeepsSteps<A, N>>(
    alloc: Global,
    supply: &mut ClockAndRandom<W>,
    port: &mut P,
    kept: &mut KeptNode<N, K>,
    pace: &mut Pace,
    batch: &mut Batch,
) -> Result<Option<TurnError>, KeepError>
    requires { length batch.old.steps ≡ 1 }
    ensures ended { (first : AnyRunning N) (received : Option (List (Option Received)))
        → HasMade N.acts N.is_step batch.old.at first batch.old (running kept.old.node pace.old.busy_since supply.old) received (P.received port.old)
        → IfOk result (λ ended. HasEnded N.acts N.is_step batch.old.at first ended batch.new
        (running kept.new.node pace.new.busy_since supply.new) received (P.received port.new) (P.failures port.old) (P.failures port.new)) }
    ensures missed { (first : AnyRunning N) (received : Option (List (Option Received)))
        → HasMade N.acts N.is_step batch.old.at first batch.old (running kept.old.node pace.old.busy_since supply.old) received (P.received port.old)
        → OnErr result (HasTaken N.acts N.is_step batch.old.at first batch.new (running kept.new.node pace.new.busy_since supply.new) received (P.received port.new)) }
    ensures kept { (begun : N) (cause : Cause) (stepped : AnyStepped) → batch.old.steps ≡ stepped ∷ [] → N.is_step begun cause stepped.step kept.old.node
        → K.keeps kept.old.keeper begun → OnOk result (K.keeps kept.new.keeper kept.new.node) }
    ensures crash { (begun : N) (cause : Cause) (stepped : AnyStepped) → batch.old.steps ≡ stepped ∷ [] → N.is_step begun cause stepped.step kept.old.node
        → K.keeps kept.old.keeper begun → OnErr result (K.may_hold kept.new.keeper begun kept.new.node) }
    ensures cause { (begun : N) (cause : Cause) (stepped : AnyStepped) → batch.old.steps ≡ stepped ∷ [] → N.is_step begun cause stepped.step kept.old.node
        → K.keeps kept.old.keeper begun → K.trusted kept.new.keeper
        → IfErr result (WhyNotKept (MoreFaults (K.faults kept.old.keeper) (K.faults kept.new.keeper)) (K.too_long kept.new.node)) }
    ensures nothing { OnErr result (K.pending kept.old.keeper ≡ false → any_changed batch.new.steps ≡ false → K.owes kept.old.keeper ≡ true) }
    ensures settled { OnOk result (K.pending kept.new.keeper ≡ false) }
    ensures fails { OnErr result K.may_fail }
    ensures named { IfErr result (K.names kept.new.keeper) }
    ensures counts { K.faults kept.old.keeper ≤ K.faults kept.new.keeper }
    ensures trust { K.trusted kept.new.keeper → K.trusted kept.old.keeper }
    ensures file { K.file kept.new.keeper ≡ K.file kept.old.keeper }
    ensures not_sent { P.sent port.new ≡ P.sent port.old }
{
    write_first::<A, N, K>(kept, batch)?;
    let ended = more_steps::<A, W, P, N, K>(alloc, supply, port, kept, pace, batch)?;
    settle::<A, N, K>(&mut kept.keeper, batch.any_changed())?;
    Ok(ended)
}

// Steps of what waits, each written after it was made, while there is room for more.
fn more_steps<A: Ciphers, W: Watch + Drop, P: Port, N: Node<A>, K: KeepsSteps<A, N>>(
    alloc: Global,
    supply: &mut ClockAndRandom<W>,
    port: &mut P,
    kept: &mut KeptNode<N, K>,
    pace: &mut Pace,
    batch: &mut Batch,
) -> Result<Option<TurnError>, KeepError>
    requires { length batch.old.steps ≡ 1 }
    ensures ended { (first : AnyRunning N) (received : Option (List (Option Received)))
        → HasMade N.acts N.is_step batch.old.at first batch.old (running kept.old.node pace.old.busy_since supply.old) received (P.received port.old)
        → IfOk result (λ ended. HasEnded N.acts N.is_step batch.old.at first ended batch.new
        (running kept.new.node pace.new.busy_since supply.new) received (P.received port.new) (P.failures port.old) (P.failures port.new)) }
    ensures missed { (first : AnyRunning N) (received : Option (List (Option Received)))
        → HasMade N.acts N.is_step batch.old.at first batch.old (running kept.old.node pace.old.busy_since supply.old) received (P.received port.old)
        → OnErr result (HasTaken N.acts N.is_step batch.old.at first batch.new (running kept.new.node pace.new.busy_since supply.new) received (P.received port.new)) }
    ensures written { (begun : N) → K.writes kept.old.keeper begun kept.old.node → OnOk result (K.writes kept.new.keeper begun kept.new.node) }
    ensures crash { (begun : N) → K.writes kept.old.keeper begun kept.old.node → OnErr result (K.may_hold kept.new.keeper begun begun) }
    ensures cause { (begun : N) → K.writes kept.old.keeper begun kept.old.node → K.trusted kept.new.keeper
        → IfErr result (WhyNotKept (MoreFaults (K.faults kept.old.keeper) (K.faults kept.new.keeper)) (K.too_long kept.new.node)) }
    ensures nothing { any_changed batch.new.steps ≡ false → IsOk result × (kept.new.keeper ≡ kept.old.keeper) }
    ensures more { any_changed batch.new.steps ≡ false → any_changed batch.old.steps ≡ false }
    ensures fails { OnErr result K.may_fail }
    ensures named { IfErr result (K.names kept.new.keeper) }
    ensures counts { K.faults kept.old.keeper ≤ K.faults kept.new.keeper }
    ensures trust { K.trusted kept.new.keeper → K.trusted kept.old.keeper }
    ensures file { K.file kept.new.keeper ≡ K.file kept.old.keeper }
    ensures not_sent { P.sent port.new ≡ P.sent port.old }
{
    let now = batch.at();
    for _ in 1..MOST_STEPS {
        match next_step::<A, W, P, N>(alloc, supply, port, &mut kept.node, pace, now) {
            Ok(Some(stepped)) => write_made::<A, N, K>(kept, batch, stepped)?,
            Ok(None) => return Ok(None),
            Err(error) => return Ok(Some(error)),
        }
    }
    Ok(None)
}

// Writes what the first step changed, which the batch has alone.
fn write_first<A: Ciphers, N: Node<A>, K: KeepsSteps<A, N>>(
    kept: &mut KeptNode<N, K>,
    batch: &Batch,
) -> Result<(), KeepError>
    requires { length batch.now.steps ≡ 1 }
    ensures node { kept.new.node ≡ kept.old.node }
    ensures written { (begun old : N) (cause : Cause) (stepped : AnyStepped) → batch.now.steps ≡ stepped ∷ [] → N.is_step old cause stepped.step kept.old.node
        → K.writes kept.old.keeper begun old → OnOk result (K.writes kept.new.keeper begun kept.new.node) }
    ensures crash { (begun old : N) (cause : Cause) (stepped : AnyStepped) → batch.now.steps ≡ stepped ∷ [] → N.is_step old cause stepped.step kept.old.node
        → K.writes kept.old.keeper begun old → K.may_hold kept.new.keeper begun begun }
    ensures cause { (begun old : N) (cause : Cause) (stepped : AnyStepped) → batch.now.steps ≡ stepped ∷ [] → N.is_step old cause stepped.step kept.old.node
        → K.writes kept.old.keeper begun old → K.trusted kept.new.keeper
        → IfErr result (WhyNotKept (MoreFaults (K.faults kept.old.keeper) (K.faults kept.new.keeper)) (K.too_long kept.new.node)) }
    ensures nothing { any_changed batch.now.steps ≡ false → IsOk result × (kept.new.keeper ≡ kept.old.keeper) }
    ensures fails { OnErr result K.may_fail }
    ensures named { IfErr result (K.names kept.new.keeper) }
    ensures counts { K.faults kept.old.keeper ≤ K.faults kept.new.keeper }
    ensures trust { K.trusted kept.new.keeper → K.trusted kept.old.keeper }
    ensures file { K.file kept.new.keeper ≡ K.file kept.old.keeper }
{
    kept.keeper
        .write_step(&kept.node, &batch.steps()[0].step.notes)
}

// Writes what the node's last step changed, and adds it to the batch.
fn write_made<A: Ciphers, N: Node<A>, K: KeepsSteps<A, N>>(
    kept: &mut KeptNode<N, K>,
    batch: &mut Batch,
    stepped: Stepped,
) -> Result<(), KeepError>
    requires { length batch.old.steps < most_steps }
    ensures node { kept.new.node ≡ kept.old.node }
    ensures batch { batch.new ≡ record batch.old { steps = batch.old.steps ++ stepped ∷ [] } }
    ensures written { (begun old : N) (cause : Cause) → N.is_step old cause stepped.step kept.old.node
        → K.writes kept.old.keeper begun old → OnOk result (K.writes kept.new.keeper begun kept.new.node) }
    ensures crash { (begun old : N) (cause : Cause) → N.is_step old cause stepped.step kept.old.node
        → K.writes kept.old.keeper begun old → K.may_hold kept.new.keeper begun begun }
    ensures cause { (begun old : N) (cause : Cause) → N.is_step old cause stepped.step kept.old.node
        → K.writes kept.old.keeper begun old → K.trusted kept.new.keeper
        → IfErr result (WhyNotKept (MoreFaults (K.faults kept.old.keeper) (K.faults kept.new.keeper)) (K.too_long kept.new.node)) }
    ensures nothing { path_changed_by stepped.step.notes.served ≡ None → IsOk result × (kept.new.keeper ≡ kept.old.keeper) }
    ensures fails { OnErr result K.may_fail }
    ensures named { IfErr result (K.names kept.new.keeper) }
    ensures counts { K.faults kept.old.keeper ≤ K.faults kept.new.keeper }
    ensures trust { K.trusted kept.new.keeper → K.trusted kept.old.keeper }
    ensures file { K.file kept.new.keeper ≡ K.file kept.old.keeper }
{
    let written = kept.keeper.write_step(&kept.node, &stepped.step.notes);
    batch.push(stepped);
    written
}

// Keeps all that is written, at once; where no step changed anything, it does what is left for such a time.
fn settle<A: Ciphers, N: Node<A>, K: KeepsSteps<A, N>>(
    keeper: &mut K,
    changed: bool,
) -> Result<(), KeepError>
    ensures kept { (first last : N) → K.writes keeper.old first last → OnOk result (K.keeps keeper.new last) }
    ensures crash { (first last : N) → K.writes keeper.old first last → K.may_hold keeper.new first last }
    ensures cause { (first last : N) → K.writes keeper.old first last → K.trusted keeper.new
        → IfErr result (WhyNotKept (MoreFaults (K.faults keeper.old) (K.faults keeper.new)) ⊥) }
    ensures nothing { OnErr result (K.pending keeper.old ≡ false → changed ≡ false → K.owes keeper.old ≡ true) }
    ensures settled { OnOk result (K.pending keeper.new ≡ false) }
    ensures fails { OnErr result K.may_fail }
    ensures named { IfErr result (K.names keeper.new) }
    ensures counts { K.faults keeper.old ≤ K.faults keeper.new }
    ensures trust { K.trusted keeper.new → K.trusted keeper.old }
    ensures file { K.file keeper.new ≡ K.file keeper.old }
{
    keeper.commit()?;
    if changed {
        return Ok(());
    }
    keeper.rest()
}

// Sends all that these steps send, in order, each once. After a failure the rest is still sent; the fault is that of the first one.
fn send_steps<P: Port>(port: &mut P, steps: &[Stepped]) -> Option<PortFault>
    ensures sent { P.sent port.new ≡ grown (P.sent port.old) (flat_map (λ stepped. stepped.step.out) steps.now) }
    ensures not_received { P.received port.new ≡ P.received port.old }
    ensures fault { CountsFault result (P.failures port.old) (P.failures port.new) }
{
    let mut fault = None;
    for stepped in steps {
        let sent = send_all(port, stepped.step.out.as_slice());
        fault = fault.or(sent);
    }
    fault
}
