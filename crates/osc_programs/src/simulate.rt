//! A script in, its trace out.
ghost use Rattle.std.specs.Prelude.{◌≡◌, ◌≢◌, ◌⊎◌, ◌+◌, ◌++◌, ℕ, List, IfSome};
ghost use Rattle.std.specs.Io.KnownBytes.{Appends};
ghost use Rattle.osc_programs.specs.Ended as ends;
ghost use Rattle.osc_programs.specs.Input.{IsBeyond, TakesAtMost, longest_script};
ghost use Rattle.osc_programs.specs.Written.{IsBegun, IsBegunAfter, last_line};
ghost use Rattle.osc_script.specs.{IsFirstBad};
ghost use Rattle.osc_simulation.specs.{CutShort, Simulates, bad_line_text};

use crate::ended::Ended;
use crate::input::script_bytes;
use crate::issue::written;
use osc_script::ClientName;
use osc_simulation::{TraceError, TraceForm, bad_line_text, trace_script};
use std::alloc::Global;
use std::io::{Read, Write};

/// Runs the script that the reader gives, and writes its trace in this form, line by line: each line's events as it is done, then the
/// end lines, and then what the entries of the client of `only` are answered alone, if there is one. A script with a line that stands for
/// nothing does nothing: the number of the first such line is all that is written. For lack of memory the lines so far are written, and
/// `out of memory` last. A script that is too long does nothing either, and nothing is written.
pub fn sim<R: Read, W: Write>(
    alloc: Global,
    reader: &mut R,
    writer: &mut W,
    form: TraceForm,
    only: Option<ClientName>,
) -> Ended
    ensures done { result ≡ Ended.Done → IfSome (R.remaining reader.old) (λ script. (text : List ℕ) × Simulates form only script text
        × Appends (W.contents writer.old) (W.contents writer.new) text) }
    ensures bad { (n : ℕ) → result ≡ Ended.BadLine n → IfSome (R.remaining reader.old) (λ script. IsFirstBad script n
        × Appends (W.contents writer.old) (W.contents writer.new) (bad_line_text n)) }
    ensures cut { result ≡ Ended.OutOfMemory → (printed : List ℕ) × IfSome (R.remaining reader.old) (λ script. CutShort form script printed)
        × IsBegunAfter printed last_line (W.contents writer.old) (W.contents writer.new) }
    ensures long { result ≡ Ended.TooLong → IsBeyond longest_script (R.remaining reader.old) × (writer.new ≡ writer.old) }
    ensures end { TakesAtMost (longest_script + 1) (R.remaining reader.old) (R.remaining reader.new) }
    ensures words { result ≢ Ended.BadCommandLine }
    ensures ends { ends.EndsSim result }
{
    match run(alloc, reader, writer, form, only) {
        Ended::OutOfMemory => told_last(writer),
        ended => ended,
    }
}

/// Tells last that memory ran out; where this can't be written, the first fault counts.
pub(crate) fn told_last<W: Write>(writer: &mut W) -> Ended
    ensures ended { result ≡ Ended.OutOfMemory }
    ensures last { IsBegun last_line (W.contents writer.old) (W.contents writer.new) }
{
    let _last = written(writer, b"out of memory\n");
    Ended::OutOfMemory
}

// The same, but that lack of memory isn't told.
fn run<R: Read, W: Write>(
    alloc: Global,
    reader: &mut R,
    writer: &mut W,
    form: TraceForm,
    only: Option<ClientName>,
) -> Ended
    ensures done { result ≡ Ended.Done → IfSome (R.remaining reader.old) (λ script. (text : List ℕ) × Simulates form only script text
        × Appends (W.contents writer.old) (W.contents writer.new) text) }
    ensures bad { (n : ℕ) → result ≡ Ended.BadLine n → IfSome (R.remaining reader.old) (λ script. IsFirstBad script n
        × Appends (W.contents writer.old) (W.contents writer.new) (bad_line_text n)) }
    ensures cut { result ≡ Ended.OutOfMemory → (printed : List ℕ) × IfSome (R.remaining reader.old) (λ script. CutShort form script printed)
        × Appends (W.contents writer.old) (W.contents writer.new) printed }
    ensures long { result ≡ Ended.TooLong → IsBeyond longest_script (R.remaining reader.old) × (writer.new ≡ writer.old) }
    ensures end { TakesAtMost (longest_script + 1) (R.remaining reader.old) (R.remaining reader.new) }
    ensures words { result ≢ Ended.BadCommandLine }
    ensures ends { ends.EndsSim result }
{
    match script_bytes(alloc, reader) {
        Ok(script) => run_script(alloc, &script, form, only, writer),
        Err(ended) => ended,
    }
}

/// Runs the script of these bytes, and writes its trace in this form, line by line, each flushed before the next is done: each line's
/// events, then the end lines, and then what the entries of the client of `only` are answered alone, if there is one; of a script with a
/// line that means nothing the number of the first such line alone. For lack of memory the lines so far are written.
pub fn run_script<W: Write>(
    alloc: Global,
    script: &[u8],
    form: TraceForm,
    only: Option<ClientName>,
    writer: &mut W,
) -> Ended
    ensures done { result ≡ Ended.Done → (printed : List ℕ) × Simulates form only script.now printed × Appends (W.contents writer.old) (W.contents writer.new) printed }
    ensures bad { (n : ℕ) → result ≡ Ended.BadLine n → IsFirstBad script.now n × Appends (W.contents writer.old) (W.contents writer.new) (bad_line_text n) }
    ensures cut { result ≡ Ended.OutOfMemory → (printed : List ℕ) × CutShort form script.now printed × Appends (W.contents writer.old) (W.contents writer.new) printed }
    ensures whole { result ≢ Ended.TooLong }
    ensures words { result ≢ Ended.BadCommandLine }
    ensures ends { ends.EndsSim result }
{
    match trace_script(alloc, script, form, only, writer) {
        Ok(()) => Ended::Done,
        Err(TraceError::BadLine(number)) => tell_bad_line(alloc, number, writer),
        Err(TraceError::OutOfMemory) => Ended::OutOfMemory,
        Err(TraceError::Output) => Ended::Failed,
    }
}

/// `line N: bad`.
pub(crate) fn tell_bad_line<W: Write>(alloc: Global, number: u64, writer: &mut W) -> Ended
    ensures bad { (n : ℕ) → result ≡ Ended.BadLine n → (number ≡ n) × Appends (W.contents writer.old) (W.contents writer.new) (bad_line_text n) }
    ensures cut { result ≡ Ended.OutOfMemory → writer.new ≡ writer.old }
    ensures cases { (result ≡ Ended.BadLine number) ⊎ ((result ≡ Ended.OutOfMemory) ⊎ (result ≡ Ended.Failed)) }
    ensures ends { ends.EndsSim result }
{
    let Ok(line) = bad_line_text(alloc, number) else {
        return Ended::OutOfMemory;
    };
    match written(writer, line.as_bytes()) {
        Ended::Done => Ended::BadLine(number),
        _ => Ended::Failed,
    }
}
