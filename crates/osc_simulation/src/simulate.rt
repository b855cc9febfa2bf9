//! A script's trace.
ghost use Rattle.std.specs.Prelude.{◌≡◌, ◌≢◌, ◌++◌, [], ℕ, List, IfErr, IfOk, OnOk, Err, drop, length};
ghost use Rattle.std.specs.Io.KnownBytes.{Appends};
ghost use Rattle.std.specs.FinMap as map;
ghost use Rattle.osc_run.specs.{history};
ghost use Rattle.osc_script.specs.{IsFirstBad};
ghost use Rattle.osc_simulation.specs.SetUp.{CanPutAll};
ghost use Rattle.osc_simulation.specs.Records.{PrintAllRecords};
ghost use Rattle.osc_simulation.specs.Simulation as spec;
ghost use Rattle.osc_simulation.specs.Simulation.{CutShort, IsCut, Simulates};
ghost use Rattle.osc_simulation.specs.declared.stage.Stage.{Stage as AnyStage};
ghost use Rattle.osc_script.specs.declared.line.Line.{Line as AnyLine};

use crate::error::TraceError;
use crate::names::{Names, number_of};
use crate::record::records_text;
use crate::set_up::first_world;
use crate::stage::Stage;
use crate::trace::{TraceForm, alone_text, end_text, numbered};
use osc_script::{ClientName, Line, read_script};
use osc_world::{Record, World};
use std::alloc::{AllocError, Global};
use std::cmp::min;
use std::io::Write;

/// Writes the trace of the script of these bytes in this form: each line's events as it is done, then the end lines, and then what the
/// entries of the client of `only` are answered alone, if there is one. What a line prints is flushed before the next is done.
///
/// # Errors
///
/// `BadLine` has the number of the first line that means nothing; nothing is written then. For lack of memory the lines so far are
/// written.
pub fn trace_script<W: Write>(
    alloc: Global,
    script: &[u8],
    form: TraceForm,
    only: Option<ClientName>,
    writer: &mut W,
) -> Result<(), TraceError>
    ensures done { OnOk result ((printed : List ℕ) × Simulates form only script.now printed × Appends (W.contents writer.old) (W.contents writer.new) printed) }
    ensures bad { (n : ℕ) → result ≡ Err (TraceError.BadLine n) → IsFirstBad script.now n × Appends (W.contents writer.old) (W.contents writer.new) [] }
    ensures cut { result ≡ Err TraceError.OutOfMemory → (printed : List ℕ) × CutShort form script.now printed × Appends (W.contents writer.old) (W.contents writer.new) printed }
{
    let script = read_script(alloc, script)?;
    let traced = trace_lines(alloc, script.lines(), form, only, writer);
    drop(script);
    traced
}

// What is wanted of a trace: its form, and the client whose entries are answered alone, if there is one.
#[derive(Clone, Copy)]
struct Wanted {
    form: TraceForm,
    only: Option<ClientName>,
}

// The trace of these lines.
fn trace_lines<W: Write>(
    alloc: Global,
    lines: &[Line],
    form: TraceForm,
    only: Option<ClientName>,
    writer: &mut W,
) -> Result<(), TraceError>
    requires { CanPutAll map.empty lines.now }
    ensures done { OnOk result ((printed : List ℕ) × spec.IsTrace form only lines.now printed × Appends (W.contents writer.old) (W.contents writer.new) printed) }
    ensures bad { (n : ℕ) → result ≢ Err (TraceError.BadLine n) }
    ensures cut { result ≡ Err TraceError.OutOfMemory → (printed : List ℕ) × IsCut form lines.now printed × Appends (W.contents writer.old) (W.contents writer.new) printed }
{
    let names = Names::of(alloc, lines)?;
    let world = first_world(alloc, &names, lines)?;
    let mut stage = Stage::first(world);
    let wanted = Wanted { form, only };
    let traced = trace_from(alloc, &mut stage, &names, lines, wanted, writer);
    drop(stage);
    traced
}

// The events of a run that begins, its end lines, and what is wanted of one client.
fn trace_from<W: Write>(
    alloc: Global,
    stage: &mut Stage,
    names: &Names,
    lines: &[Line],
    wanted: Wanted,
    writer: &mut W,
) -> Result<(), TraceError>
    ensures done { OnOk result ((printed end : List ℕ) × spec.Prints (record { form = wanted.form; names = names.now }) 1 stage.old lines.now printed stage.new
        × spec.IsEnd stage.new.world end
        × Appends (W.contents writer.old) (W.contents writer.new) (printed ++ end ++ spec.only_text names.now stage.new.world wanted.only)) }
    ensures bad { (n : ℕ) → result ≢ Err (TraceError.BadLine n) }
    ensures cut { result ≡ Err TraceError.OutOfMemory
        → (printed : List ℕ) × spec.IsFront (record { form = wanted.form; names = names.now }) stage.old lines.now printed × Appends (W.contents writer.old) (W.contents writer.new) printed }
{
    trace_events(alloc, stage, names, lines, wanted.form, writer)?;
    trace_end(alloc, stage.world(), writer)?;
    trace_alone(alloc, stage.world(), names, wanted.only, writer)
}

// Does what the lines say.
fn trace_events<W: Write>(
    alloc: Global,
    stage: &mut Stage,
    names: &Names,
    lines: &[Line],
    form: TraceForm,
    writer: &mut W,
) -> Result<(), TraceError>
    ensures done { OnOk result ((printed : List ℕ) × spec.Prints (record { form = form; names = names.now }) 1 stage.old lines.now printed stage.new
        × Appends (W.contents writer.old) (W.contents writer.new) printed) }
    ensures bad { (n : ℕ) → result ≢ Err (TraceError.BadLine n) }
    ensures cut { result ≡ Err TraceError.OutOfMemory → (printed : List ℕ) × (before after : List AnyLine) × (last : AnyStage) × (lines.now ≡ before ++ after)
        × spec.Prints (record { form = form; names = names.now }) 1 stage.old before printed last × Appends (W.contents writer.old) (W.contents writer.new) printed }
{
    let mut number = 0;
    for line in lines {
        number += 1;
        let more = line_text(alloc, stage, names, number, line, form)?;
        put(writer, &more)?;
    }
    Ok(())
}

// Writes and flushes this, if it is anything.
fn put<W: Write>(writer: &mut W, text: &[u8]) -> Result<(), TraceError>
    ensures written { OnOk result (Appends (W.contents writer.old) (W.contents writer.new) text.now) }
    ensures failed { IfErr result (λ error. error ≡ TraceError.Output) }
{
    if text.is_empty() {
        return Ok(());
    }
    if writer.write_all(text).is_err() || writer.flush().is_err() {
        return Err(TraceError::Output);
    }
    Ok(())
}

// Does what the line of this number says: the text that it prints.
fn line_text(
    alloc: Global,
    stage: &mut Stage,
    names: &Names,
    number: usize,
    line: &Line,
    form: TraceForm,
) -> Result<Vec<u8>, AllocError>
    ensures { IfOk result (λ text. spec.PrintsLine (record { form = form; names = names.now }) number stage.old line.now text.items stage.new) }
{
    let before = count_events(stage);
    let quiet = stage.does(alloc, names, line)?;
    let mut text = text_behind(alloc, form.bytes, names, stage, before)?;
    add_quiet(&mut text, quiet)?;
    behind_number(alloc, form.lines, number, text)
}

// The text after the number of the script's line, where that is wanted.
fn behind_number(
    alloc: Global,
    wanted: bool,
    number: usize,
    text: Vec<u8>,
) -> Result<Vec<u8>, AllocError>
    ensures { IfOk result (λ lines. lines.items ≡ spec.behind_number wanted number text.items) }
{
    if wanted {
        numbered(alloc, number, &text)
    } else {
        Ok(text)
    }
}

// How many events there were.
fn count_events(stage: &Stage) -> usize
    ensures { result ≡ length stage.now.world.records }
{
    stage.world().records().len()
}

// What the events print that came after this number of them.
fn text_behind(
    alloc: Global,
    with_bytes: bool,
    names: &Names,
    stage: &Stage,
    before: usize,
) -> Result<Vec<u8>, AllocError>
    ensures { IfOk result (λ text. PrintAllRecords with_bytes names.now.clients stage.now.world (drop before stage.now.world.records) text.items) }
{
    let world = stage.world();
    records_text(
        alloc,
        with_bytes,
        names.clients(),
        world,
        behind(world.records(), before),
    )
}

// The records after this number of them.
fn behind(records: &[Record], before: usize) -> &[Record]
    ensures { result.now ≡ drop before records.now }
{
    &records[min(before, records.len())..]
}

// `not quiet` after a quiet round that was stopped.
fn add_quiet(text: &mut Vec<u8>, quiet: bool) -> Result<(), AllocError>
    ensures { OnOk result (text.new.items ≡ text.old.items ++ spec.quiet_text quiet) }
{
    if quiet {
        return Ok(());
    }
    Ok(text.extend_from_slice(b"not quiet\n")?)
}

// The end lines of a world.
fn trace_end<W: Write>(alloc: Global, world: &World, writer: &mut W) -> Result<(), TraceError>
    ensures done { OnOk result ((end : List ℕ) × spec.IsEnd world.now end × Appends (W.contents writer.old) (W.contents writer.new) end) }
    ensures bad { (n : ℕ) → result ≢ Err (TraceError.BadLine n) }
    ensures cut { result ≡ Err TraceError.OutOfMemory → writer.new ≡ writer.old }
{
    let lines = end_lines(alloc, world)?;
    put(writer, &lines)
}

fn end_lines(alloc: Global, world: &World) -> Result<Vec<u8>, AllocError>
    ensures { IfOk result (λ lines. spec.IsEnd world.now lines.items) }
{
    let entries = count_entries(alloc, world)?;
    let held = world.premise_holds();
    end_text(alloc, world.tree(), entries, held)
}

// What the entries of the wanted client are answered alone, if one is wanted.
fn trace_alone<W: Write>(
    alloc: Global,
    world: &World,
    names: &Names,
    only: Option<ClientName>,
    writer: &mut W,
) -> Result<(), TraceError>
    ensures done { OnOk result (Appends (W.contents writer.old) (W.contents writer.new) (spec.only_text names.now world.now only)) }
    ensures bad { (n : ℕ) → result ≢ Err (TraceError.BadLine n) }
    ensures cut { result ≡ Err TraceError.OutOfMemory → writer.new ≡ writer.old }
{
    let lines = only_lines(alloc, world, names, only)?;
    put(writer, &lines)
}

fn only_lines(
    alloc: Global,
    world: &World,
    names: &Names,
    only: Option<ClientName>,
) -> Result<Vec<u8>, AllocError>
    ensures { IfOk result (λ lines. lines.items ≡ spec.only_text names.now world.now only) }
{
    let Some(client) = only else {
        return Ok(Vec::new(alloc));
    };
    let answers = world.alone(alloc, number_of(names.clients(), client))?;
    alone_text(alloc, client, &answers)
}

// How many requests are in the history.
fn count_entries(alloc: Global, world: &World) -> Result<usize, AllocError>
    ensures { IfOk result (λ count. count ≡ length (history world.now.steps)) }
{
    Ok(world.history(alloc)?.len())
}
