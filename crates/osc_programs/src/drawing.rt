//! A script in, the diagram of its run out.
ghost use Rattle.std.specs.Prelude.{◌≡◌, ◌≢◌, ◌⊎◌, ◌+◌, ℕ, List, IfErr, IfOk, IfSome};
ghost use Rattle.std.specs.Io.KnownBytes.{Appends};
ghost use Rattle.osc_diagram.specs.Chart.{capture as capture_of};
ghost use Rattle.osc_diagram.specs.{IsDiagramOf};
ghost use Rattle.osc_diagram.specs.declared.diagram.Diagram.{Diagram as AnyDiagram};
ghost use Rattle.osc_programs.specs.Drawing as spec;
ghost use Rattle.osc_programs.specs.Ended as ends;
ghost use Rattle.osc_programs.specs.Input.{IsBeyond, TakesAtMost, longest_script};
ghost use Rattle.osc_programs.specs.Written.{IsBegun, last_line};
ghost use Rattle.osc_script.specs.{IsFirstBad};
ghost use Rattle.osc_simulation.specs.{bad_line_text};

use crate::ended::Ended;
use crate::input::script_bytes;
use crate::issue::written;
use crate::simulate::{tell_bad_line, told_last};
use osc_diagram::{Diagram, capture, chart_text, diagram_of, picture};
use osc_model::Bytes;
use osc_script::ScriptError;
use osc_words::DiagramForm;
use std::alloc::{AllocError, Global};
use std::io::{Read, Write};

/// Runs the script that the reader gives, and writes its diagram in this form, in place of its trace. A script with a line that stands for
/// nothing does nothing: the number of the first such line is all that is written. For lack of memory `out of memory` is. Of a script that is too long nothing is.
pub fn draw<R: Read, W: Write>(
    alloc: Global,
    reader: &mut R,
    writer: &mut W,
    form: DiagramForm,
) -> Ended
    ensures done { result ≡ Ended.Done → IfSome (R.remaining reader.old) (λ script. (diagram : AnyDiagram) × IsDiagramOf script diagram
        × Appends (W.contents writer.old) (W.contents writer.new) (spec.drawn_as form diagram)) }
    ensures bad { (n : ℕ) → result ≡ Ended.BadLine n → IfSome (R.remaining reader.old) (λ script. IsFirstBad script n
        × Appends (W.contents writer.old) (W.contents writer.new) (bad_line_text n)) }
    ensures cut { result ≡ Ended.OutOfMemory → IsBegun last_line (W.contents writer.old) (W.contents writer.new) }
    ensures long { result ≡ Ended.TooLong → IsBeyond longest_script (R.remaining reader.old) × (writer.new ≡ writer.old) }
    ensures end { TakesAtMost (longest_script + 1) (R.remaining reader.old) (R.remaining reader.new) }
    ensures words { result ≢ Ended.BadCommandLine }
    ensures ends { ends.EndsSim result }
{
    match run(alloc, reader, writer, form) {
        Ended::OutOfMemory => told_last(writer),
        ended => ended,
    }
}

// The same, but that lack of memory isn't told.
fn run<R: Read, W: Write>(alloc: Global, reader: &mut R, writer: &mut W, form: DiagramForm) -> Ended
    ensures done { result ≡ Ended.Done → IfSome (R.remaining reader.old) (λ script. (diagram : AnyDiagram) × IsDiagramOf script diagram
        × Appends (W.contents writer.old) (W.contents writer.new) (spec.drawn_as form diagram)) }
    ensures bad { (n : ℕ) → result ≡ Ended.BadLine n → IfSome (R.remaining reader.old) (λ script. IsFirstBad script n
        × Appends (W.contents writer.old) (W.contents writer.new) (bad_line_text n)) }
    ensures cut { result ≡ Ended.OutOfMemory → writer.new ≡ writer.old }
    ensures long { result ≡ Ended.TooLong → IsBeyond longest_script (R.remaining reader.old) × (writer.new ≡ writer.old) }
    ensures end { TakesAtMost (longest_script + 1) (R.remaining reader.old) (R.remaining reader.new) }
    ensures words { result ≢ Ended.BadCommandLine }
    ensures ends { ends.EndsSim result }
{
    match script_bytes(alloc, reader) {
        Ok(script) => draw_script(alloc, &script, form, writer),
        Err(ended) => ended,
    }
}

// Runs the script of these bytes, and writes its diagram.
fn draw_script<W: Write>(alloc: Global, script: &[u8], form: DiagramForm, writer: &mut W) -> Ended
    ensures done { result ≡ Ended.Done → (diagram : AnyDiagram) × IsDiagramOf script.now diagram
        × Appends (W.contents writer.old) (W.contents writer.new) (spec.drawn_as form diagram) }
    ensures bad { (n : ℕ) → result ≡ Ended.BadLine n → IsFirstBad script.now n × Appends (W.contents writer.old) (W.contents writer.new) (bad_line_text n) }
    ensures cut { result ≡ Ended.OutOfMemory → writer.new ≡ writer.old }
    ensures whole { result ≢ Ended.TooLong }
    ensures words { result ≢ Ended.BadCommandLine }
    ensures ends { ends.EndsSim result }
{
    match diagram_of(alloc, script) {
        Ok(diagram) => write_diagram(alloc, &diagram, form, writer),
        Err(ScriptError::BadLine(number)) => tell_bad_line(alloc, number, writer),
        Err(ScriptError::OutOfMemory) => Ended::OutOfMemory,
    }
}

fn write_diagram<W: Write>(
    alloc: Global,
    diagram: &Diagram,
    form: DiagramForm,
    writer: &mut W,
) -> Ended
    ensures done { result ≡ Ended.Done → Appends (W.contents writer.old) (W.contents writer.new) (spec.drawn_as form diagram.now) }
    ensures bad { (n : ℕ) → result ≢ Ended.BadLine n }
    ensures cut { result ≡ Ended.OutOfMemory → writer.new ≡ writer.old }
    ensures whole { result ≢ Ended.TooLong }
    ensures words { result ≢ Ended.BadCommandLine }
    ensures ends { ends.EndsSim result }
{
    match drawn_as(alloc, diagram, form) {
        Ok(text) => put(writer, &text),
        Err(_) => Ended::OutOfMemory,
    }
}

// Writes all of it.
fn put<W: Write>(writer: &mut W, text: &[u8]) -> Ended
    ensures done { result ≡ Ended.Done → Appends (W.contents writer.old) (W.contents writer.new) text.now }
    ensures cases { (result ≡ Ended.Done) ⊎ (result ≡ Ended.Failed) }
    ensures bad { (n : ℕ) → result ≢ Ended.BadLine n }
    ensures whole { result ≢ Ended.TooLong }
    ensures words { result ≢ Ended.BadCommandLine }
    ensures ends { ends.EndsSim result }
{
    match written(writer, text) {
        Ended::Done => Ended::Done,
        _ => Ended::Failed,
    }
}

fn drawn_as(alloc: Global, diagram: &Diagram, form: DiagramForm) -> Result<Vec<u8>, AllocError>
    ensures { IfOk result (λ text. text.items ≡ spec.drawn_as form diagram.now) }
{
    match form {
        DiagramForm::Text => chart_text(alloc, &diagram.columns, &diagram.marks),
        DiagramForm::Svg => picture(alloc, &diagram.columns, &diagram.marks),
    }
}

// ---- a capture

/// Runs the script of these bytes, and writes the datagrams of its run, for Wireshark, and its keys.
pub fn write_capture<F: Write, K: Write>(
    alloc: Global,
    script: &[u8],
    file: &mut F,
    keys: &mut K,
) -> Ended
    ensures done { result ≡ Ended.Done → (diagram : AnyDiagram) × IsDiagramOf script.now diagram
        × Appends (F.contents file.old) (F.contents file.new) (capture_of diagram.marks.items)
        × Appends (K.contents keys.old) (K.contents keys.new) (spec.joined diagram.keys.items) }
    ensures bad { (n : ℕ) → result ≡ Ended.BadLine n → IsFirstBad script.now n × (file.new ≡ file.old) × (keys.new ≡ keys.old) }
    ensures cut { result ≡ Ended.OutOfMemory → (file.new ≡ file.old) × (keys.new ≡ keys.old) }
    ensures ends { ends.EndsSim result }
{
    match diagram_of(alloc, script) {
        Ok(diagram) => write_both(alloc, &diagram, file, keys),
        Err(ScriptError::BadLine(number)) => Ended::BadLine(number),
        Err(ScriptError::OutOfMemory) => Ended::OutOfMemory,
    }
}

fn write_both<F: Write, K: Write>(
    alloc: Global,
    diagram: &Diagram,
    file: &mut F,
    keys: &mut K,
) -> Ended
    ensures done { result ≡ Ended.Done → Appends (F.contents file.old) (F.contents file.new) (capture_of diagram.now.marks.items)
        × Appends (K.contents keys.old) (K.contents keys.new) (spec.joined diagram.now.keys.items) }
    ensures bad { (n : ℕ) → result ≢ Ended.BadLine n }
    ensures cut { result ≡ Ended.OutOfMemory → (file.new ≡ file.old) × (keys.new ≡ keys.old) }
    ensures ends { ends.EndsSim result }
{
    match both_of(alloc, diagram) {
        Ok((datagrams, lines)) => put_both(file, &datagrams, keys, &lines),
        Err(_) => Ended::OutOfMemory,
    }
}

fn put_both<F: Write, K: Write>(file: &mut F, datagrams: &[u8], keys: &mut K, lines: &[u8]) -> Ended
    ensures done { result ≡ Ended.Done → Appends (F.contents file.old) (F.contents file.new) datagrams.now
        × Appends (K.contents keys.old) (K.contents keys.new) lines.now }
    ensures cases { (result ≡ Ended.Done) ⊎ (result ≡ Ended.Failed) }
    ensures bad { (n : ℕ) → result ≢ Ended.BadLine n }
    ensures ends { ends.EndsSim result }
{
    match put(file, datagrams) {
        Ended::Done => put(keys, lines),
        ended => ended,
    }
}

// The datagrams and the keys, as they are in their files.
fn both_of(alloc: Global, diagram: &Diagram) -> Result<(Vec<u8>, Vec<u8>), AllocError>
    ensures { IfOk result (λ both. (both.0.items ≡ capture_of diagram.now.marks.items) × (both.1.items ≡ spec.joined diagram.now.keys.items)) }
{
    let lines = joined(alloc, &diagram.keys)?;
    let datagrams = capture(alloc, &diagram.marks)?;
    Ok((datagrams, lines))
}

fn joined(alloc: Global, lines: &[Bytes]) -> Result<Vec<u8>, AllocError>
    ensures { IfOk result (λ text. text.items ≡ spec.joined lines.now) }
{
    let mut text = Vec::new(alloc);
    for line in lines {
        text.extend_from_slice(line.as_slice())?;
    }
    Ok(text)
}
