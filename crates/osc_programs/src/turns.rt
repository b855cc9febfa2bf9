//! Turns of a node at a port, at the moments of a clock and with the bytes of a generator.
ghost use Rattle.std.specs.Prelude.{◌≡◌, ◌≤◌, ◌++◌, ◌∷◌, [], ℕ, List, None, Option, Some, IfErr, IfOk, IfSome, OnErr, OnOk};
ghost use Rattle.osc_turn.specs.{Received};
ghost use Rattle.osc_turn.specs.Running.{EndsBy, Running, running};
ghost use Rattle.osc_turn.specs.Time.{ms_of};
ghost use Rattle.osc_programs.specs.Ended as ends;
ghost use Rattle.osc_programs.specs.Kept.{HasCause, LeavesKept};
ghost use Rattle.osc_log.specs.{Tells};
ghost use Rattle.osc_programs.specs.System as system;
ghost use Rattle.osc_programs.specs.Turning as spec;

use crate::ended::{Ended, ended_by_io};
use crate::holding::{AskedNode, Holding};
use crate::supply::moment_and_draw;
use osc_ccm::Suite;
use osc_log::laws::telling_goes_on;
use osc_log::{Log, Turn};
use osc_model::Moment;
use osc_run::Node;
use osc_turn::{
    Batch, ClockAndRandom, KeepsSteps, KeptNode, Pace, Port, Stepped, TurnError, Turned, Unsent,
    Watch, kept_turn, paced_turn,
};
use std::alloc::Global;

/// What a node takes its turns by: what hands it moments and draws, the pace that it keeps, and room for the steps of one turn.
#[derive(Drop)]
pub(crate) struct Rhythm<W: Watch + Drop> {
    supply: ClockAndRandom<W>,
    pace: Pace,
    batch: Batch,
}

/// The node takes this number of turns, unless one fails, and the log tells of each. What its steps changed is kept before anything of the turn is handed
/// to the port; where it isn't kept, nothing of that turn is sent, and the turns end. A datagram that can't be sent is lost, as on the way; so
/// is what came where there is no memory for its step.
pub(crate) fn take_turns<
    W: Watch + Drop,
    P: Port,
    N: Node<Suite> + Holding,
    K: KeepsSteps<Suite, N>,
    L: Log,
>(
    alloc: Global,
    supply: ClockAndRandom<W>,
    port: &mut P,
    kept: &mut KeptNode<N, K>,
    log: &mut L,
    turns: u64,
) -> Ended
    ensures turns { (taken : ℕ) × (turned : spec.Shown) × (last : Running N) × (came : List (Option Received))
        × spec.Turns N.acts N.is_step N.held taken (running kept.old.node None supply) turned last
        × spec.LeavesNode N.acts N.is_step last result came kept.new.node
        × (taken ≤ turns) × (result ≡ Ended.Done → taken ≡ turns)
        × system.Passes P.received P.sent port.old port.new (system.then_passed turned.passed (record { received = came; sent = [] }))
        × Tells (L.told log.old) (L.told log.new) turned.events
        × (K.keeps kept.old.keeper kept.old.node → LeavesKept K.keeps K.may_hold result last.node kept.new.node kept.new.keeper) }
    ensures cause { K.keeps kept.old.keeper kept.old.node → HasCause K.trusted K.faults (K.too_long kept.new.node) kept.old.keeper kept.new.keeper result }
    ensures fails { (error : _) → result ≡ Ended.NotKept error → K.may_fail }
    ensures counts { K.faults kept.old.keeper ≤ K.faults kept.new.keeper }
    ensures trust { K.trusted kept.new.keeper → K.trusted kept.old.keeper }
    ensures file { K.file kept.new.keeper ≡ K.file kept.old.keeper }
    ensures ends { ends.EndsKept result }
{
    telling_goes_on();
    match Batch::new(alloc, Moment::START) {
        Ok(batch) => {
            let mut rhythm = Rhythm {
                supply,
                pace: Pace::START,
                batch,
            };
            turns_in(alloc, &mut rhythm, port, kept, log, turns)
        }
        Err(_) => Ended::OutOfMemory,
    }
}

// The same in this rhythm.
fn turns_in<W: Watch + Drop, P: Port, N: Node<Suite> + Holding, K: KeepsSteps<Suite, N>, L: Log>(
    alloc: Global,
    rhythm: &mut Rhythm<W>,
    port: &mut P,
    kept: &mut KeptNode<N, K>,
    log: &mut L,
    turns: u64,
) -> Ended
    ensures turns { (taken : ℕ) × (turned : spec.Shown) × (last : Running N) × (came : List (Option Received))
        × spec.Turns N.acts N.is_step N.held taken (running kept.old.node rhythm.old.pace.busy_since rhythm.old.supply) turned last
        × spec.LeavesNode N.acts N.is_step last result came kept.new.node
        × (taken ≤ turns) × (result ≡ Ended.Done → taken ≡ turns)
        × system.Passes P.received P.sent port.old port.new (system.then_passed turned.passed (record { received = came; sent = [] }))
        × Tells (L.told log.old) (L.told log.new) turned.events
        × (K.keeps kept.old.keeper kept.old.node → LeavesKept K.keeps K.may_hold result last.node kept.new.node kept.new.keeper) }
    ensures cause { K.keeps kept.old.keeper kept.old.node → HasCause K.trusted K.faults (K.too_long kept.new.node) kept.old.keeper kept.new.keeper result }
    ensures fails { (error : _) → result ≡ Ended.NotKept error → K.may_fail }
    ensures counts { K.faults kept.old.keeper ≤ K.faults kept.new.keeper }
    ensures trust { K.trusted kept.new.keeper → K.trusted kept.old.keeper }
    ensures file { K.file kept.new.keeper ≡ K.file kept.old.keeper }
    ensures ends { ends.EndsKept result }
{
    telling_goes_on();
    for _ in 0..turns {
        match one_turn(alloc, rhythm, port, kept, log) {
            Ok(None) => {}
            Ok(Some(ended)) => return ended,
            Err(ended) => return ended,
        }
    }
    Ended::Done
}

// One turn, of which the log tells, and how it ended the node, if it did. An error where it made no step that is kept.
fn one_turn<W: Watch + Drop, P: Port, N: Node<Suite> + Holding, K: KeepsSteps<Suite, N>, L: Log>(
    alloc: Global,
    rhythm: &mut Rhythm<W>,
    port: &mut P,
    kept: &mut KeptNode<N, K>,
    log: &mut L,
) -> Result<Option<Ended>, Ended>
    ensures ok { OnOk result ((shown : spec.Shown)
        × spec.GoesOn N.acts N.is_step N.held (running kept.old.node rhythm.old.pace.busy_since rhythm.old.supply) shown (running kept.new.node rhythm.new.pace.busy_since rhythm.new.supply)
        × system.Passes P.received P.sent port.old port.new shown.passed × Tells (L.told log.old) (L.told log.new) shown.events) }
    ensures kept { OnOk result (K.keeps kept.old.keeper kept.old.node → K.keeps kept.new.keeper kept.new.node) }
    ensures over { IfOk result (λ ended. IfSome ended ends.IsFault) }
    ensures err { IfErr result (λ ended. (came : List (Option Received))
        × spec.LeavesNode N.acts N.is_step (running kept.old.node rhythm.old.pace.busy_since rhythm.old.supply) ended came kept.new.node
        × system.Passes P.received P.sent port.old port.new (record { received = came; sent = [] }) × (log.new ≡ log.old)) }
    ensures held { IfErr result (λ ended. K.keeps kept.old.keeper kept.old.node
        → LeavesKept K.keeps K.may_hold ended kept.old.node kept.new.node kept.new.keeper) }
    ensures cause { IfErr result (λ ended. K.keeps kept.old.keeper kept.old.node
        → HasCause K.trusted K.faults (K.too_long kept.new.node) kept.old.keeper kept.new.keeper ended) }
    ensures fails { IfErr result (λ ended. (error : _) → ended ≡ Ended.NotKept error → K.may_fail) }
    ensures counts { K.faults kept.old.keeper ≤ K.faults kept.new.keeper }
    ensures trust { K.trusted kept.new.keeper → K.trusted kept.old.keeper }
    ensures file { K.file kept.new.keeper ≡ K.file kept.old.keeper }
    ensures fault { IfErr result ends.EndsUnkept }
{
    match kept_turn::<Suite, _, _, _, _>(
        alloc,
        &mut rhythm.supply,
        port,
        kept,
        &mut rhythm.pace,
        &mut rhythm.batch,
    ) {
        Ok(taken) => Ok(tell_turn(alloc, log, rhythm, &kept.node, taken.ended)),
        Err(unsent) => match unsent {
            Unsent::NoMoment(error) => Err(ended_by_io(&error)),
            Unsent::NoStep(error) => match error {
                TurnError::Memory => {
                    tell_lost(log, rhythm);
                    Ok(None)
                }
                TurnError::Port(_) => Err(Ended::PortFailed),
            },
            Unsent::NotKept(error) => Err(Ended::NotKept(error)),
        },
    }
}

// ---- what is told

// The log tells of a turn of this node, and of what was lost, if anything was. Answers how the node ends that took nothing more for this reason, if
// it does.
fn tell_turn<W: Watch + Drop, N: Holding, L: Log>(
    alloc: Global,
    log: &mut L,
    rhythm: &Rhythm<W>,
    node: &N,
    ended: Option<TurnError>,
) -> Option<Ended>
    ensures told { (lost : Option Received) (before after : ℕ) → EndsBy ended lost before after → Tells (L.told log.old) (L.told log.new)
        (spec.of_clock rhythm.now.batch.at rhythm.now.supply
        ++ (spec.of_steps rhythm.now.batch.at (N.held node.now) rhythm.now.batch.steps ++ spec.of_lost rhythm.now.batch.at lost)) }
    ensures over { IfSome result ends.IsFault }
{
    telling_goes_on();
    let now = rhythm.batch.at();
    tell_clock(log, now, &rhythm.supply);
    tell_steps(alloc, log, now, rhythm.batch.steps(), node);
    tell_end(log, now, ended)
}

// The log tells that what came is lost.
fn tell_lost<W: Watch + Drop, L: Log>(log: &mut L, rhythm: &Rhythm<W>)
    ensures { (came : Received) → Tells (L.told log.old) (L.told log.new)
        (spec.of_clock rhythm.now.batch.at rhythm.now.supply ++ spec.of_lost rhythm.now.batch.at (Some came)) }
{
    telling_goes_on();
    let now = rhythm.batch.at();
    tell_clock(log, now, &rhythm.supply);
    log.lost(now);
}

// The log tells by how much the wall clock is behind this moment, where that is due.
fn tell_clock<W: Watch + Drop, L: Log>(log: &mut L, now: Moment, supply: &ClockAndRandom<W>)
    ensures { Tells (L.told log.old) (L.told log.new) (spec.of_clock now supply.now) }
{
    telling_goes_on();
    match supply.seconds_behind() {
        Some(seconds) => log.behind(now, seconds),
        None => {}
    }
}

// The log tells of these steps of this node, at this moment.
fn tell_steps<N: Holding, L: Log>(
    alloc: Global,
    log: &mut L,
    now: Moment,
    steps: &[Stepped],
    node: &N,
)
    ensures { Tells (L.told log.old) (L.told log.new) (spec.of_steps now (N.held node.now) steps.now) }
{
    telling_goes_on();
    for stepped in steps {
        tell_step(alloc, log, now, stepped, node);
    }
}

fn tell_step<N: Holding, L: Log>(
    alloc: Global,
    log: &mut L,
    now: Moment,
    stepped: &Stepped,
    node: &N,
)
    ensures { Tells (L.told log.old) (L.told log.new) (spec.of_step now (N.held node.now) stepped.now ∷ []) }
{
    let turn = Turn {
        now,
        received: stepped.received,
        step: &stepped.step,
    };
    log.turn(alloc, &turn, &AskedNode { node });
}

// The log tells of what was lost, if anything was. A receive that failed ends the node.
fn tell_end<L: Log>(log: &mut L, now: Moment, ended: Option<TurnError>) -> Option<Ended>
    ensures told { (lost : Option Received) (before after : ℕ) → EndsBy ended lost before after → Tells (L.told log.old) (L.told log.new) (spec.of_lost now lost) }
    ensures over { IfSome result ends.IsFault }
{
    telling_goes_on();
    match ended {
        None => None,
        Some(error) => tell_error(log, now, error),
    }
}

// The same, where the turn ended by this error.
fn tell_error<L: Log>(log: &mut L, now: Moment, error: TurnError) -> Option<Ended>
    ensures told { (lost : Option Received) (before after : ℕ) → EndsBy (Some error) lost before after → Tells (L.told log.old) (L.told log.new) (spec.of_lost now lost) }
    ensures over { IfSome result ends.IsFault }
{
    telling_goes_on();
    match error {
        TurnError::Memory => {
            log.lost(now);
            None
        }
        TurnError::Port(_) => Some(Ended::PortFailed),
    }
}

// ---- one step

/// One turn of the node, of one step, at the next moment and with the next draw; and that moment.
pub fn take_turn<W: Watch + Drop, P: Port, N: Node<Suite>>(
    alloc: Global,
    supply: &mut ClockAndRandom<W>,
    port: &mut P,
    node: &mut N,
    pace: &mut Pace,
) -> Result<(Moment, Turned), Ended>
    ensures takes { IfOk result (λ taken. (received : List (Option Received)) × spec.TakesTurn N.acts N.is_step
        (running node.old pace.old.busy_since supply.old) received taken.1.step (running node.new pace.new.busy_since supply.new)
        × system.Passes P.received P.sent port.old port.new (record { received = received; sent = taken.1.step.out })) }
    ensures at { IfOk result (λ taken. taken.0.ms ≡ ms_of supply.new.time) }
    ensures err { OnErr result ((node.new ≡ node.old) × (P.sent port.new ≡ P.sent port.old)) }
    ensures fault { IfErr result ends.IsFault }
{
    let (now, draw) = moment_and_draw(supply)?;
    match paced_turn::<Suite, _, _>(alloc, port, node, pace, now, &draw) {
        Ok(turned) => Ok((now, turned)),
        Err(error) => Err(ended_by_turn(error)),
    }
}

// How a program ends that couldn't take a turn.
fn ended_by_turn(error: TurnError) -> Ended
    ensures { ends.IsFault result }
{
    match error {
        TurnError::Port(_) => Ended::PortFailed,
        TurnError::Memory => Ended::OutOfMemory,
    }
}
