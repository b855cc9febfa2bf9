//! A lab: what a script's clients ask, over sockets of this machine.
ghost use Rattle.std.specs.Prelude.{◌≡◌, ◌≢◌, ◌↔◌, ◌+◌, ◌∷◌, ℕ, List, Bool, None, [], length, true, IfErr, IfOk, IfSome, IsTrue, OnErr, OnOk};
ghost use Rattle.std.specs.FinMap as map;
ghost use Rattle.std.specs.Io.KnownBytes.{Appends};
ghost use Rattle.std.specs.List.{list_all};
ghost use Rattle.osc_run.specs.{history};
ghost use Rattle.osc_run.specs.Premise.{Premise};
ghost use Rattle.osc_script.specs.{IsScript};
ghost use Rattle.osc_simulation.specs.{granted, names_in, CanPutAll, IsStartOf, end_text};
ghost use Rattle.osc_world.specs.{AreParts, Beginning};
ghost use Rattle.osc_programs.specs.Ended as ends;
ghost use Rattle.osc_programs.specs.Input.{IsBeyond, TakesAtMost, longest_script};
ghost use Rattle.osc_lab.specs.Usage as usage;
ghost use Rattle.osc_lab.specs.Inner.Telling as inner;
ghost use Rattle.osc_lab.specs.Telling as telling;
ghost use Rattle.osc_lab.specs.Turning as turning;
ghost use Rattle.osc_lab.specs.Whole as spec;

use crate::cast::{Cast, Who};
use crate::nodes::LabNodes;
use crate::ports::{Means, bind_all};
use crate::telling::{tell, tell_open};
use crate::turning::either;
use crate::usage::lab_script;
use osc_programs::{Ended, Sockets, script_bytes, supply_of};
use osc_script::{ClientName, Line, Script};
use osc_simulation::{Names, end_text, name_of_number, number_of, start_of};
use osc_turn::{Port, Seeds, Watch};
use osc_world::Parts;
use std::alloc::Global;
use std::io::{Read, Write};
use std::time::Clock;

/// Runs the script that the reader gives with a server, clients and proxies on sockets of this machine, of IPv6 or IPv4, in one process, which take
/// their turns one after another: moments are those of the clock, and random bytes are drawn. Its lines are `put`, `open`, `revoked`,
/// `grant`, `via`, `exchange` and `ask`. After each exchange or request the nodes take turns until its client waits for nothing and no node was
/// busy in a whole turn, or until this number of whole turns is gone; a client that waits still is `open` then. It writes what the clients
/// learn, as it comes, and the end lines.
///
/// A script with another line, or one that means nothing, does nothing: `BadLine` has the number of the first such line. Nor does one that is
/// too long.
pub fn lab<R: Clock + Seeds + Sockets, I: Read, W: Write>(
    alloc: Global,
    runtime: &R,
    reader: &mut I,
    writer: &mut W,
    turns: u64,
    ipv6: bool,
) -> Ended
    ensures done { result ≡ Ended.Done → (text : List ℕ)
        × IfSome (I.remaining reader.old) (λ script. spec.Labs (R.gave runtime.now) (R.opened runtime.now (spec.any_place ipv6 ∷ []) None) R.Socket.listens R.Socket.received R.Socket.sent turns script text)
        × Appends (W.contents writer.old) (W.contents writer.new) text }
    ensures bad { (n : ℕ) → result ≡ Ended.BadLine n → IfSome (I.remaining reader.old) (λ script. usage.IsFirstUnused script n)
        × Appends (W.contents writer.old) (W.contents writer.new) [] }
    ensures long { result ≡ Ended.TooLong → IsBeyond longest_script (I.remaining reader.old) × Appends (W.contents writer.old) (W.contents writer.new) [] }
    ensures end { TakesAtMost (longest_script + 1) (I.remaining reader.old) (I.remaining reader.new) }
    ensures early { result ≢ Ended.Done → spec.EndsEarly (R.gave runtime.now) (R.opened runtime.now (spec.any_place ipv6 ∷ []) None) R.Socket.listens R.Socket.received R.Socket.sent result turns (I.remaining reader.old)
        (W.contents writer.old) (W.contents writer.new) }
    ensures ends { ends.EndsLab result }
{
    match script_of(alloc, reader) {
        Ok(script) => lab_of(alloc, runtime, script, writer, turns, ipv6),
        Err(ended) => ended,
    }
}

// The script, if a lab uses each of its lines.
fn script_of<I: Read>(alloc: Global, reader: &mut I) -> Result<Script, Ended>
    ensures read { IfOk result (λ lines. IfSome (I.remaining reader.old) (λ text. IsScript text lines)) }
    ensures used { IfOk result (λ lines. list_all usage.is_used lines ≡ true) }
    ensures puts { IfOk result (λ lines. CanPutAll map.empty lines) }
    ensures bad { IfErr result (λ ended. (n : ℕ) → ended ≡ Ended.BadLine n → IfSome (I.remaining reader.old) (λ text. usage.IsFirstUnused text n)) }
    ensures long { IfErr result (λ ended. ended ≡ Ended.TooLong → IsBeyond longest_script (I.remaining reader.old)) }
    ensures end { TakesAtMost (longest_script + 1) (I.remaining reader.old) (I.remaining reader.new) }
    ensures ends { IfErr result ends.CannotLab }
{
    let bytes = script_bytes(alloc, reader)?;
    lab_script(alloc, &bytes)
}

// ---- the nodes

// The lab of this script, to its end, or how it ends early.
fn lab_of<R: Clock + Seeds + Sockets, W: Write>(
    alloc: Global,
    runtime: &R,
    script: Script,
    writer: &mut W,
    turns: u64,
    ipv6: bool,
) -> Ended
    requires { CanPutAll map.empty script }
    ensures done { result ≡ Ended.Done → (text : List ℕ)
        × spec.LinesPrint (R.gave runtime.now) (R.opened runtime.now (spec.any_place ipv6 ∷ []) None) R.Socket.listens R.Socket.received R.Socket.sent turns script text
        × Appends (W.contents writer.old) (W.contents writer.new) text }
    ensures early { result ≢ Ended.Done → spec.LinesStop (R.gave runtime.now) (R.opened runtime.now (spec.any_place ipv6 ∷ []) None) R.Socket.listens R.Socket.received R.Socket.sent result turns script
        (W.contents writer.old) (W.contents writer.new) }
    ensures ends { ends.EndsTurns result }
{
    let done = lab_lines(alloc, runtime, script.lines(), writer, turns, ipv6);
    drop(script);
    match done {
        Ok(()) => Ended::Done,
        Err(ended) => ended,
    }
}

// The lab of these lines, on sockets of this machine.
fn lab_lines<R: Clock + Seeds + Sockets, W: Write>(
    alloc: Global,
    runtime: &R,
    lines: &[Line],
    writer: &mut W,
    turns: u64,
    ipv6: bool,
) -> Result<(), Ended>
    requires { CanPutAll map.empty lines.now }
    ensures done { OnOk result ((text : List ℕ)
        × spec.LinesPrint (R.gave runtime.now) (R.opened runtime.now (spec.any_place ipv6 ∷ []) None) R.Socket.listens R.Socket.received R.Socket.sent turns lines.now text
        × Appends (W.contents writer.old) (W.contents writer.new) text) }
    ensures early { IfErr result (λ ended. spec.LinesStop (R.gave runtime.now) (R.opened runtime.now (spec.any_place ipv6 ∷ []) None) R.Socket.listens R.Socket.received R.Socket.sent ended turns lines.now
        (W.contents writer.old) (W.contents writer.new)) }
    ensures fault { IfErr result ends.IsFault }
{
    let names = names_of(alloc, lines)?;
    let parts = parts_of(alloc, &names, lines)?;
    let (ports, addresses) = bind_all(alloc, runtime, &parts, ipv6)?;
    let supply = supply_of(runtime)?;
    let mut means = Means { supply, ports };
    let mut nodes = LabNodes::new(alloc, parts);
    let cast = Cast {
        alloc,
        clients: names.clients(),
        addresses: &addresses,
    };
    run(&mut means, &mut nodes, cast, lines, turns, writer)
}

fn names_of(alloc: Global, lines: &[Line]) -> Result<Names, Ended>
    ensures names { IfOk result (λ names. names ≡ names_in lines.now) }
    ensures fault { IfErr result ends.IsFault }
{
    match Names::of(alloc, lines) {
        Ok(names) => Ok(names),
        Err(_) => Err(Ended::OutOfMemory),
    }
}

// The nodes that the lines set up, and the grants.
fn parts_of(alloc: Global, names: &Names, lines: &[Line]) -> Result<Parts, Ended>
    requires puts { CanPutAll map.empty lines.now }
    requires names { names.now ≡ names_in lines.now }
    ensures parts { IfOk result (λ parts. (start : Beginning) × IsStartOf lines.now start × AreParts start parts) }
    ensures fault { IfErr result ends.IsFault }
{
    let Ok(start) = start_of(alloc, names, lines) else {
        return Err(Ended::OutOfMemory);
    };
    match start.into_parts(alloc) {
        Ok(parts) => Ok(parts),
        Err(_) => Err(Ended::OutOfMemory),
    }
}

// ---- what the clients ask

// The outcome of the lines, one after another, and the end lines: over any ports.
fn run<W: Watch + Drop, P: Port + Drop, O: Write>(
    means: &mut Means<W, P>,
    nodes: &mut LabNodes,
    cast: Cast<'_>,
    lines: &[Line],
    turns: u64,
    writer: &mut O,
) -> Result<(), Ended>
    requires { cast.clients.now ≡ granted lines.now }
    ensures prints { OnOk result ((text : List ℕ)
        × telling.Prints (inner.network P.received P.sent cast.entry.addresses.now) turns lines.now (inner.live nodes.old means.old) text (inner.live nodes.new means.new)
        × Appends (O.contents writer.old) (O.contents writer.new) text) }
    ensures stops { IfErr result (λ ended. telling.EndsWith (λ text. telling.BreaksOff (inner.network P.received P.sent cast.entry.addresses.now) turns lines.now (inner.live nodes.old means.old) text (inner.live nodes.new means.new)) ended
        (O.contents writer.old) (O.contents writer.new)) }
    ensures fault { IfErr result ends.IsFault }
{
    run_lines(means, nodes, cast, lines, turns, writer)?;
    tell_end(cast.alloc, nodes, writer)
}

// The outcome of the lines.
fn run_lines<W: Watch + Drop, P: Port + Drop, O: Write>(
    means: &mut Means<W, P>,
    nodes: &mut LabNodes,
    cast: Cast<'_>,
    lines: &[Line],
    turns: u64,
    writer: &mut O,
) -> Result<(), Ended>
    requires { cast.clients.now ≡ granted lines.now }
    ensures tells { OnOk result ((text : List ℕ)
        × telling.TellsLines (inner.network P.received P.sent cast.entry.addresses.now) (telling.rules_of turns lines.now) (inner.live nodes.old means.old) lines.now text (inner.live nodes.new means.new)
        × Appends (O.contents writer.old) (O.contents writer.new) text) }
    ensures stops { IfErr result (λ ended. telling.EndsWith (λ text. telling.BreaksOff (inner.network P.received P.sent cast.entry.addresses.now) turns lines.now (inner.live nodes.old means.old) text (inner.live nodes.new means.new)) ended
        (O.contents writer.old) (O.contents writer.new)) }
    ensures fault { IfErr result ends.IsFault }
{
    for line in lines {
        run_line(means, nodes, cast, line, turns, writer)?;
    }
    Ok(())
}

// The outcome of one line.
fn run_line<W: Watch + Drop, P: Port + Drop, O: Write>(
    means: &mut Means<W, P>,
    nodes: &mut LabNodes,
    cast: Cast<'_>,
    line: &Line,
    turns: u64,
    writer: &mut O,
) -> Result<(), Ended>
    ensures comes { OnOk result ((text : List ℕ)
        × telling.ComesOf (inner.network P.received P.sent cast.entry.addresses.now) (record { clients = cast.entry.clients.now; turns = turns }) line.now (telling.client_of line.now) (inner.live nodes.old means.old) text (inner.live nodes.new means.new)
        × Appends (O.contents writer.old) (O.contents writer.new) text) }
    ensures leads { OnErr result (inner.LeadsTo (inner.network P.received P.sent cast.entry.addresses.now) (inner.live nodes.old means.old) (inner.live nodes.new means.new)) }
    ensures stopped { IfErr result (λ ended. inner.Stops ended cast.entry.clients.now (telling.learnt nodes.old.notes.steps) (telling.learnt nodes.new.notes.steps) (O.contents writer.old) (O.contents writer.new)) }
{
    match client_of(line) {
        Some(client) => {
            let who = Who {
                cast,
                number: number_of(cast.clients, client),
            };
            perform(means, nodes, who, line, turns, writer)
        }
        None => Ok(()),
    }
}

// The client that a line has do something, if it does.
fn client_of(line: &Line) -> Option<ClientName>
    ensures { result ≡ telling.client_of line.now }
{
    match line {
        Line::Exchange { client } => Some(*client),
        Line::Ask { client, .. } => Some(*client),
        _ => None,
    }
}

// The client does what the line says, and turns; what clients learn is told as it comes, and that the client waits still, where it does.
fn perform<W: Watch + Drop, P: Port + Drop, O: Write>(
    means: &mut Means<W, P>,
    nodes: &mut LabNodes,
    who: Who<'_>,
    asked: &Line,
    turns: u64,
    writer: &mut O,
) -> Result<(), Ended>
    ensures tells { OnOk result ((text : List ℕ)
        × telling.TellsLine (inner.network P.received P.sent who.entry.cast.addresses.now) (record { clients = who.entry.cast.clients.now; turns = turns }) asked.now who.entry.number (inner.live nodes.old means.old) text (inner.live nodes.new means.new)
        × Appends (O.contents writer.old) (O.contents writer.new) text) }
    ensures leads { OnErr result (inner.LeadsTo (inner.network P.received P.sent who.entry.cast.addresses.now) (inner.live nodes.old means.old) (inner.live nodes.new means.new)) }
    ensures stopped { IfErr result (λ ended. inner.Stops ended who.entry.cast.clients.now (telling.learnt nodes.old.notes.steps) (telling.learnt nodes.new.notes.steps) (O.contents writer.old) (O.contents writer.new)) }
{
    nodes.begin(means, who, asked, writer)?;
    take_whole_turns(means, nodes, who, turns, writer)?;
    tell_open(
        who.cast.alloc,
        name_of_number(who.cast.clients, who.number),
        nodes.is_waiting(who.number),
        writer,
    )
}

// Whole turns, until the client waits for nothing and no node was busy in one, or until they are gone.
fn take_whole_turns<W: Watch + Drop, P: Port + Drop, O: Write>(
    means: &mut Means<W, P>,
    nodes: &mut LabNodes,
    who: Who<'_>,
    turns: u64,
    writer: &mut O,
) -> Result<(), Ended>
    ensures takes { OnOk result (turning.TakesTurns (inner.network P.received P.sent who.entry.cast.addresses.now) who.entry.number turns (inner.live nodes.old means.old) (inner.live nodes.new means.new)) }
    ensures told { OnOk result (inner.Tells who.entry.cast.clients.now (telling.learnt nodes.old.notes.steps) (telling.learnt nodes.new.notes.steps) (O.contents writer.old) (O.contents writer.new)) }
    ensures leads { OnErr result (inner.LeadsTo (inner.network P.received P.sent who.entry.cast.addresses.now) (inner.live nodes.old means.old) (inner.live nodes.new means.new)) }
    ensures stopped { IfErr result (λ ended. inner.Stops ended who.entry.cast.clients.now (telling.learnt nodes.old.notes.steps) (telling.learnt nodes.new.notes.steps) (O.contents writer.old) (O.contents writer.new)) }
{
    for _ in 0..turns {
        let busy = nodes.round(means, who.cast, writer)?;
        if !either(busy, nodes.is_waiting(who.number)) {
            return Ok(());
        }
    }
    Ok(())
}

// The end lines.
fn tell_end<O: Write>(alloc: Global, nodes: &LabNodes, writer: &mut O) -> Result<(), Ended>
    ensures told { OnOk result ((held : Bool) × (IsTrue held ↔ Premise nodes.now.minted.items nodes.now.notes.steps)
        × Appends (O.contents writer.old) (O.contents writer.new) (end_text nodes.now.nodes.server.tree (length (history nodes.now.notes.steps)) held)) }
    ensures untold { IfErr result (λ ended. inner.IsUntold ended (O.contents writer.old) (O.contents writer.new)) }
{
    let Ok(entries) = nodes.count_entries(alloc) else {
        return Err(Ended::OutOfMemory);
    };
    let held = nodes.premise_holds();
    let Ok(lines) = end_text(alloc, nodes.tree(), entries, held) else {
        return Err(Ended::OutOfMemory);
    };
    tell(writer, &lines)
}
