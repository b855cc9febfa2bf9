//! The nodes of a lab, which take their turns one after another.
ghost use Rattle.std.specs.Prelude.{◌≡◌, ◌≢◌, ◌<◌, ◌∷◌, ◌↔◌, Err, None, false, length, IfErr, IfOk, IsTrue, OnErr, OnOk};
ghost use Rattle.osc_client.specs.{acts_at, IsStep};
ghost use Rattle.osc_run.specs.{history, by_client};
ghost use Rattle.osc_run.specs.Premise.{Premise};
ghost use Rattle.osc_run.specs.declared.noted.Actor.TheVariants as actor;
ghost use Rattle.osc_model.specs.declared.node.Draw.{Draw as AnyDraw};
ghost use Rattle.osc_model.specs.declared.node.Moment.{Moment as AnyMoment};
ghost use Rattle.osc_simulation.specs.{is_sealing};
ghost use Rattle.osc_turn.specs.{Gives};
ghost use Rattle.osc_world.specs.declared.nodes.Whose.TheVariants as whose;
ghost use Rattle.osc_programs.specs.Ended as ends;
ghost use Rattle.osc_lab.specs.Inner.Telling as inner;
ghost use Rattle.osc_lab.specs.Lab as spec;
ghost use Rattle.osc_lab.specs.Telling as telling;
ghost use Rattle.osc_lab.specs.Turning as turning;

use crate::cast::{Cast, Who};
use crate::ports::{Means, PacedPort};
use crate::telling::tell_result;
use crate::turning::{LabTurn, either, send_out, turn_of};
use osc_ccm::Suite;
use osc_client::Client;
use osc_model::{Step, StepNotes};
use osc_programs::{Ended, moment_and_draw};
use osc_run::{Actor, Minted, Node, Noted, Notes};
use osc_script::Line;
use osc_tree::Tree;
use osc_turn::{ClockAndRandom, Port, PortFault, Watch};
use osc_world::{Nodes, Parts};
use std::alloc::{AllocError, Global};
use std::io::Write;

/// The nodes of a lab, and what was noted of their steps.
#[derive(Drop)]
pub(crate) struct LabNodes {
    nodes: Nodes,
    minted: Vec<Minted>,
    notes: Notes,
}

impl LabNodes {
    /// The nodes that these parts of a world are; nothing is noted yet.
    pub fn new(alloc: Global, parts: Parts) -> LabNodes
        ensures { inner.lab_of result ≡ spec.lab_in parts }
    {
        let Parts { minted, nodes } = parts;
        LabNodes {
            nodes,
            minted,
            notes: Notes::new(alloc),
        }
    }

    /// The resources.
    pub fn tree(&self) -> &Tree
        ensures { result.now ≡ self.now.nodes.server.tree }
    {
        self.nodes.server().tree()
    }

    /// How many requests were served.
    pub fn count_entries(&self, alloc: Global) -> Result<usize, AllocError>
        ensures { IfOk result (λ entries. entries ≡ length (history self.now.notes.steps)) }
    {
        Ok(self.notes.history(alloc)?.len())
    }

    /// Whether what is assumed of a run held.
    pub fn premise_holds(&self) -> bool
        ensures { IsTrue result ↔ Premise self.now.minted.items self.now.notes.steps }
    {
        self.notes.premise_holds(&self.minted)
    }

    /// Whether the client of this number waits for something.
    pub fn is_waiting(&self, number: usize) -> bool
        ensures { result ≡ spec.is_waiting self.now.nodes.clients number }
    {
        match self.nodes.client(number) {
            Some(placed) => placed.node.is_waiting(),
            None => false,
        }
    }

    /// The client does what the line says, which is noted. What it learnt at once, if it did, is told.
    pub fn begin<W: Watch + Drop, P: Port + Drop, O: Write>(
        &mut self,
        means: &mut Means<W, P>,
        who: Who<'_>,
        asked: &Line,
        writer: &mut O,
    ) -> Result<(), Ended>
        ensures begins { OnOk result (turning.LineBegins (inner.network P.received P.sent who.entry.cast.addresses.now) asked.now who.entry.number (inner.live self.old means.old) (inner.live self.new means.new)) }
        ensures leads { OnErr result (inner.LeadsTo (inner.network P.received P.sent who.entry.cast.addresses.now) (inner.live self.old means.old) (inner.live self.new means.new)) }
        ensures told { OnOk result (inner.Tells who.entry.cast.clients.now (telling.learnt self.old.notes.steps) (telling.learnt self.new.notes.steps) (O.contents writer.old) (O.contents writer.new)) }
        ensures stopped { IfErr result (λ ended. inner.Stops ended who.entry.cast.clients.now (telling.learnt self.old.notes.steps) (telling.learnt self.new.notes.steps) (O.contents writer.old) (O.contents writer.new)) }
    {
        let Some(placed) = self.nodes.client_mut(who.number) else {
            return Ok(());
        };
        let Some(port) = means.ports.clients.get_mut(who.number) else {
            return Err(Ended::PortFailed);
        };
        let asked = ClientLine { who, line: asked };
        let notes = &mut self.notes;
        client_begins(
            &mut means.supply,
            port,
            &mut placed.node,
            asked,
            notes,
            writer,
        )
    }

    /// Each node takes one turn: whether one of them was busy. What clients learn is told, in order.
    pub fn round<W: Watch + Drop, P: Port + Drop, O: Write>(
        &mut self,
        means: &mut Means<W, P>,
        cast: Cast<'_>,
        writer: &mut O,
    ) -> Result<bool, Ended>
        ensures takes { IfOk result (λ busy. turning.WholeTurn (inner.network P.received P.sent cast.entry.addresses.now) busy (inner.live self.old means.old) (inner.live self.new means.new)) }
        ensures leads { OnErr result (inner.LeadsTo (inner.network P.received P.sent cast.entry.addresses.now) (inner.live self.old means.old) (inner.live self.new means.new)) }
        ensures told { OnOk result (inner.Tells cast.entry.clients.now (telling.learnt self.old.notes.steps) (telling.learnt self.new.notes.steps) (O.contents writer.old) (O.contents writer.new)) }
        ensures stopped { IfErr result (λ ended. inner.Stops ended cast.entry.clients.now (telling.learnt self.old.notes.steps) (telling.learnt self.new.notes.steps) (O.contents writer.old) (O.contents writer.new)) }
    {
        let server = self.server_turn(means, cast)?;
        let proxies = self.proxy_turns(means, cast)?;
        let clients = self.client_turns(means, cast, writer)?;
        let others = either(proxies, clients);
        Ok(either(server, others))
    }

    // The server's turn, which is noted: whether it was busy.
    fn server_turn<W: Watch + Drop, P: Port + Drop>(
        &mut self,
        means: &mut Means<W, P>,
        cast: Cast<'_>,
    ) -> Result<bool, Ended>
        ensures takes { IfOk result (λ busy. turning.Turn (inner.network P.received P.sent cast.entry.addresses.now) whose.Server busy (inner.live self.old means.old) (inner.live self.new means.new)) }
        ensures leads { OnErr result (inner.LeadsTo (inner.network P.received P.sent cast.entry.addresses.now) (inner.live self.old means.old) (inner.live self.new means.new)) }
        ensures learns { telling.learnt self.new.notes.steps ≡ telling.learnt self.old.notes.steps }
        ensures fault { IfErr result ends.IsFault }
    {
        let port = &mut means.ports.server;
        let node = self.nodes.server_mut();
        noted_turn(
            cast,
            &mut means.supply,
            port,
            node,
            Actor::Server,
            &mut self.notes,
        )
    }

    // The proxies' turns, one after another: whether one of them was busy.
    fn proxy_turns<W: Watch + Drop, P: Port + Drop>(
        &mut self,
        means: &mut Means<W, P>,
        cast: Cast<'_>,
    ) -> Result<bool, Ended>
        ensures take { IfOk result (λ busy. turning.Turns (inner.network P.received P.sent cast.entry.addresses.now) whose.Proxy (inner.live self.old means.old) (length self.old.nodes.proxies) busy (inner.live self.new means.new)) }
        ensures leads { OnErr result (inner.LeadsTo (inner.network P.received P.sent cast.entry.addresses.now) (inner.live self.old means.old) (inner.live self.new means.new)) }
        ensures learns { telling.learnt self.new.notes.steps ≡ telling.learnt self.old.notes.steps }
        ensures fault { IfErr result ends.IsFault }
    {
        let mut busy = false;
        for number in 0..self.nodes.proxies().len() {
            let one = self.proxy_turn(means, cast, number)?;
            busy = either(busy, one);
        }
        Ok(busy)
    }

    // The proxy's turn, which is noted: whether it was busy.
    fn proxy_turn<W: Watch + Drop, P: Port + Drop>(
        &mut self,
        means: &mut Means<W, P>,
        cast: Cast<'_>,
        number: usize,
    ) -> Result<bool, Ended>
        ensures takes { IfOk result (λ busy. turning.Turn (inner.network P.received P.sent cast.entry.addresses.now) (whose.Proxy number) busy (inner.live self.old means.old) (inner.live self.new means.new)) }
        ensures leads { OnErr result (inner.LeadsTo (inner.network P.received P.sent cast.entry.addresses.now) (inner.live self.old means.old) (inner.live self.new means.new)) }
        ensures learns { telling.learnt self.new.notes.steps ≡ telling.learnt self.old.notes.steps }
        ensures fault { IfErr result ends.IsFault }
    {
        let Some(port) = means.ports.proxies.get_mut(number) else {
            return Err(Ended::PortFailed);
        };
        let Some(placed) = self.nodes.proxy_mut(number) else {
            return Err(Ended::PortFailed);
        };
        noted_turn(
            cast,
            &mut means.supply,
            port,
            &mut placed.node,
            Actor::Proxy(number),
            &mut self.notes,
        )
    }

    // The clients' turns, one after another: whether one of them was busy.
    fn client_turns<W: Watch + Drop, P: Port + Drop, O: Write>(
        &mut self,
        means: &mut Means<W, P>,
        cast: Cast<'_>,
        writer: &mut O,
    ) -> Result<bool, Ended>
        ensures take { IfOk result (λ busy. turning.Turns (inner.network P.received P.sent cast.entry.addresses.now) whose.Client (inner.live self.old means.old) (length self.old.nodes.clients) busy (inner.live self.new means.new)) }
        ensures leads { OnErr result (inner.LeadsTo (inner.network P.received P.sent cast.entry.addresses.now) (inner.live self.old means.old) (inner.live self.new means.new)) }
        ensures told { OnOk result (inner.Tells cast.entry.clients.now (telling.learnt self.old.notes.steps) (telling.learnt self.new.notes.steps) (O.contents writer.old) (O.contents writer.new)) }
        ensures stopped { IfErr result (λ ended. inner.Stops ended cast.entry.clients.now (telling.learnt self.old.notes.steps) (telling.learnt self.new.notes.steps) (O.contents writer.old) (O.contents writer.new)) }
    {
        let mut busy = false;
        for number in 0..self.nodes.clients().len() {
            let who = Who { cast, number };
            let one = self.client_turn(means, who, writer)?;
            busy = either(busy, one);
        }
        Ok(busy)
    }

    // The client's turn, which is noted; what it learns is told.
    fn client_turn<W: Watch + Drop, P: Port + Drop, O: Write>(
        &mut self,
        means: &mut Means<W, P>,
        who: Who<'_>,
        writer: &mut O,
    ) -> Result<bool, Ended>
        ensures takes { IfOk result (λ busy. turning.Turn (inner.network P.received P.sent who.entry.cast.addresses.now) (whose.Client who.entry.number) busy (inner.live self.old means.old) (inner.live self.new means.new)) }
        ensures leads { OnErr result (inner.LeadsTo (inner.network P.received P.sent who.entry.cast.addresses.now) (inner.live self.old means.old) (inner.live self.new means.new)) }
        ensures told { OnOk result (inner.Tells who.entry.cast.clients.now (telling.learnt self.old.notes.steps) (telling.learnt self.new.notes.steps) (O.contents writer.old) (O.contents writer.new)) }
        ensures stopped { IfErr result (λ ended. inner.Stops ended who.entry.cast.clients.now (telling.learnt self.old.notes.steps) (telling.learnt self.new.notes.steps) (O.contents writer.old) (O.contents writer.new)) }
    {
        let Some(port) = means.ports.clients.get_mut(who.number) else {
            return Err(Ended::PortFailed);
        };
        let Some(placed) = self.nodes.client_mut(who.number) else {
            return Err(Ended::PortFailed);
        };
        let notes = &mut self.notes;
        client_turns_at(
            &mut means.supply,
            port,
            &mut placed.node,
            who,
            notes,
            writer,
        )
    }
}

// ---- a client

// A client, and the line that has it do something.
#[derive(Clone, Copy)]
struct ClientLine<'a> {
    who: Who<'a>,
    line: &'a Line,
}

// The client does what the line says.
fn client_begins<W: Watch + Drop, P: Port + Drop, O: Write>(
    supply: &mut ClockAndRandom<W>,
    port: &mut PacedPort<P>,
    client: &mut Client,
    asked: ClientLine<'_>,
    notes: &mut Notes,
    writer: &mut O,
) -> Result<(), Ended>
    ensures begins { OnOk result (inner.DidAsked (inner.network P.received P.sent asked.entry.who.cast.addresses.now) asked.entry.line.now asked.entry.who.number
        (inner.seen client.old port.old supply.old notes.old.steps) (inner.seen client.new port.new supply.new notes.new.steps)) }
    ensures halts { OnErr result (inner.DidOrStayed (inner.network P.received P.sent asked.entry.who.cast.addresses.now) asked.entry.line.now asked.entry.who.number
        (inner.seen client.old port.old supply.old notes.old.steps) (inner.seen client.new port.new supply.new notes.new.steps)) }
    ensures told { OnOk result (inner.Tells asked.entry.who.cast.clients.now (telling.learnt notes.old.steps) (telling.learnt notes.new.steps) (O.contents writer.old) (O.contents writer.new)) }
    ensures stopped { IfErr result (λ ended. inner.Stops ended asked.entry.who.cast.clients.now (telling.learnt notes.old.steps) (telling.learnt notes.new.steps) (O.contents writer.old) (O.contents writer.new)) }
{
    reserve(notes)?;
    let Some(step) = begun(asked, supply, client)? else {
        return Ok(());
    };
    let fault = send_out(
        &mut port.port,
        asked.who.cast.addresses,
        step.out.as_slice(),
    );
    let Step { notes: done, .. } = step;
    note(asked.who, done, notes, writer)?;
    unless_lost(fault)
}

// The client takes a turn: whether it was busy.
fn client_turns_at<W: Watch + Drop, P: Port + Drop, O: Write>(
    supply: &mut ClockAndRandom<W>,
    port: &mut PacedPort<P>,
    client: &mut Client,
    who: Who<'_>,
    notes: &mut Notes,
    writer: &mut O,
) -> Result<bool, Ended>
    ensures takes { IfOk result (λ busy. inner.TookTurn (inner.network P.received P.sent who.entry.cast.addresses.now) acts_at (IsStep is_sealing) (actor.Client who.entry.number) busy
        (inner.seen client.old port.old supply.old notes.old.steps) (inner.seen client.new port.new supply.new notes.new.steps)) }
    ensures halts { OnErr result (inner.TookOrStayed (inner.network P.received P.sent who.entry.cast.addresses.now) acts_at (IsStep is_sealing) (actor.Client who.entry.number)
        (inner.seen client.old port.old supply.old notes.old.steps) (inner.seen client.new port.new supply.new notes.new.steps)) }
    ensures told { OnOk result (inner.Tells who.entry.cast.clients.now (telling.learnt notes.old.steps) (telling.learnt notes.new.steps) (O.contents writer.old) (O.contents writer.new)) }
    ensures stopped { IfErr result (λ ended. inner.Stops ended who.entry.cast.clients.now (telling.learnt notes.old.steps) (telling.learnt notes.new.steps) (O.contents writer.old) (O.contents writer.new)) }
{
    reserve(notes)?;
    let turned = turn_of(who.cast, supply, port, client)?;
    let LabTurn { busy, step, fault } = turned;
    let Step { notes: done, .. } = step;
    note(who, done, notes, writer)?;
    unless_lost(fault)?;
    Ok(busy)
}

// Tells what the client learnt by a step, if it did, and notes the step, for which there is room.
fn note<O: Write>(
    who: Who<'_>,
    step: StepNotes,
    notes: &mut Notes,
    writer: &mut O,
) -> Result<(), Ended>
    requires { 0 < notes.old.room }
    ensures noted { notes.new.steps ≡ by_client who.entry.number false step ∷ notes.old.steps }
    ensures told { OnOk result (inner.Tells who.entry.cast.clients.now (telling.learnt notes.old.steps) (telling.learnt notes.new.steps) (O.contents writer.old) (O.contents writer.new)) }
    ensures stopped { IfErr result (λ ended. inner.Stops ended who.entry.cast.clients.now (telling.learnt notes.old.steps) (telling.learnt notes.new.steps) (O.contents writer.old) (O.contents writer.new)) }
{
    let told = tell_result(who, step.result(), writer);
    notes.add(Noted::by_client(who.number, false, step));
    told
}

// The step by which the client does what the line says, if it says something: a request with the code 0.00 is no request.
fn begun<W: Watch + Drop>(
    asked: ClientLine<'_>,
    supply: &mut ClockAndRandom<W>,
    client: &mut Client,
) -> Result<Option<Step>, Ended>
    ensures begins { IfOk result (λ begun. (now : AnyMoment) × (draw : AnyDraw) × Gives supply.old now draw supply.new
        × inner.Begins (turning.task_of asked.entry.line.now now draw) client.old begun client.new) }
    ensures err { OnErr result (client.new ≡ client.old) }
    ensures fault { IfErr result ends.IsFault }
{
    let (now, draw) = moment_and_draw(supply)?;
    let alloc = asked.who.cast.alloc;
    match asked.line {
        Line::Exchange { .. } => match client.exchange(alloc, now, &draw) {
            Ok(step) => Ok(Some(step)),
            Err(_) => Err(Ended::OutOfMemory),
        },
        Line::Ask { request, .. } if request.code.0 > 0 => {
            match client.ask::<Suite>(alloc, now, request, &draw) {
                Ok(step) => Ok(Some(step)),
                Err(_) => Err(Ended::OutOfMemory),
            }
        }
        _ => Ok(None),
    }
}

// ---- turns

fn reserve(notes: &mut Notes) -> Result<(), Ended>
    ensures ok { OnOk result (0 < notes.new.room) }
    ensures steps { notes.new.steps ≡ notes.old.steps }
    ensures fault { IfErr result ends.IsFault }
{
    match notes.reserve() {
        Ok(()) => Ok(()),
        Err(_) => Err(Ended::OutOfMemory),
    }
}

// The node's turn, which is noted as this actor's, which learns nothing: whether it was busy.
fn noted_turn<W: Watch + Drop, P: Port + Drop, N: Node<Suite>>(
    cast: Cast<'_>,
    supply: &mut ClockAndRandom<W>,
    port: &mut PacedPort<P>,
    node: &mut N,
    actor: Actor,
    notes: &mut Notes,
) -> Result<bool, Ended>
    requires { inner.LearnsNothing actor }
    ensures takes { IfOk result (λ busy. inner.TookTurn (inner.network P.received P.sent cast.entry.addresses.now) N.acts N.is_step actor busy
        (inner.seen node.old port.old supply.old notes.old.steps) (inner.seen node.new port.new supply.new notes.new.steps)) }
    ensures halts { OnErr result (inner.TookOrStayed (inner.network P.received P.sent cast.entry.addresses.now) N.acts N.is_step actor
        (inner.seen node.old port.old supply.old notes.old.steps) (inner.seen node.new port.new supply.new notes.new.steps)) }
    ensures learns { telling.learnt notes.new.steps ≡ telling.learnt notes.old.steps }
    ensures fault { IfErr result ends.IsFault }
{
    reserve(notes)?;
    let turned = turn_of(cast, supply, port, node)?;
    let LabTurn { busy, step, fault } = turned;
    let Step { notes: done, .. } = step;
    notes.add(noted_as(actor, done));
    unless_lost(fault)?;
    Ok(busy)
}

// A step of this actor, in which no holder lies.
fn noted_as(actor: Actor, notes: StepNotes) -> Noted
    ensures { result ≡ record { actor = actor; lied = false; notes = notes } }
{
    match actor {
        Actor::Server => Noted::by_server(notes),
        Actor::Client(number) => Noted::by_client(number, false, notes),
        Actor::Proxy(number) => Noted::by_proxy(number, notes),
    }
}

// One of the datagrams of a step was lost, or none was.
fn unless_lost(fault: Option<PortFault>) -> Result<(), Ended>
    ensures ok { OnOk result (fault ≡ None) }
    ensures lost { fault ≢ None → result ≡ Err Ended.PortFailed }
    ensures fault { IfErr result ends.IsFault }
{
    match fault {
        None => Ok(()),
        Some(_) => Err(Ended::PortFailed),
    }
}
