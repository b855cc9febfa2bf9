//! The lines of a script that a lab uses.
ghost use Rattle.std.specs.Prelude.{◌≡◌, ◌≢◌, ◌≤◌, ◌-◌, ◌==◌, ℕ, true, IfErr, IfOk, take, not};
ghost use Rattle.std.specs.FinMap as map;
ghost use Rattle.std.specs.List.{list_all, position};
ghost use Rattle.osc_script.specs.{IsFirstBad, IsScript, lines_of};
ghost use Rattle.osc_simulation.specs.{CanPutAll};
ghost use Rattle.osc_programs.specs.Ended as ends;
ghost use Rattle.osc_lab.specs.Usage as spec;

use osc_programs::Ended;
use osc_script::laws::one_script;
use osc_script::{Line, Script, ScriptError, read_script};
use osc_simulation::laws::a_script_fits;
use std::alloc::Global;

/// The script, if a lab uses each of its lines.
pub(crate) fn lab_script(alloc: Global, bytes: &[u8]) -> Result<Script, Ended>
    ensures read { IfOk result (λ lines. IsScript bytes.now lines) }
    ensures used { IfOk result (λ lines. list_all spec.is_used lines ≡ true) }
    ensures puts { IfOk result (λ lines. CanPutAll map.empty lines) }
    ensures bad { IfErr result (λ ended. (n : ℕ) → ended ≡ Ended.BadLine n → spec.IsFirstUnused bytes.now n) }
    ensures whole { IfErr result (λ ended. ended ≢ Ended.TooLong) }
    ensures ends { IfErr result ends.CannotLab }
{
    a_script_fits();
    match read_script(alloc, bytes) {
        Ok(script) => match first_other(script.lines()) {
            None => Ok(script),
            Some(place) => Err(Ended::BadLine(place as u64 + 1)),
        },
        Err(ScriptError::BadLine(number)) => Err(first_unused(alloc, bytes, number)),
        Err(ScriptError::OutOfMemory) => Err(Ended::OutOfMemory),
    }
}

// The first line that a lab doesn't use, where the line of this number is the first that stands for nothing: one of another kind may be before it.
fn first_unused(alloc: Global, bytes: &[u8], number: u64) -> Ended
    requires { IsFirstBad bytes.now number }
    ensures bad { (n : ℕ) → result ≡ Ended.BadLine n → spec.IsFirstUnused bytes.now n }
    ensures whole { result ≢ Ended.TooLong }
    ensures ends { ends.CannotLab result }
{
    one_script();
    match read_script(alloc, lines_before(bytes, number)) {
        Ok(script) => match first_other(script.lines()) {
            None => Ended::BadLine(number),
            Some(place) => Ended::BadLine(place as u64 + 1),
        },
        // The lines before it stand for something, so that only memory can want.
        Err(_) => Ended::OutOfMemory,
    }
}

// The lines before that of this number, from 1.
fn lines_before(bytes: &[u8], number: u64) -> &[u8]
    requires { 1 ≤ number }
    ensures { lines_of result.now ≡ take (number - 1) (lines_of bytes.now) }
{
    let mut at = 0;
    for _ in 1..number {
        match line_end(&bytes[at..]) {
            Some(end) => at += end + 1,
            None => return bytes,
        }
    }
    &bytes[..at]
}

// Where the first line feed is.
fn line_end(bytes: &[u8]) -> Option<usize>
    ensures { result ≡ position (λ b. b == 10) bytes.now }
{
    bytes.iter().position(|byte| *byte == b'\n')
}

// Where the first line is that a lab doesn't use.
fn first_other(lines: &[Line]) -> Option<usize>
    ensures { result ≡ position (λ line. not (spec.is_used line)) lines.now }
{
    lines.iter().position(|line| !is_used(line))
}

// Whether a line sets up the nodes, or has a client exchange or ask.
fn is_used(line: &Line) -> bool
    ensures { result ≡ spec.is_used line.now }
{
    match line {
        Line::Skipped
        | Line::Put { .. }
        | Line::Open { .. }
        | Line::Revoked { .. }
        | Line::Grant { .. }
        | Line::Via { .. }
        | Line::Exchange { .. }
        | Line::Ask { .. } => true,
        _ => false,
    }
}
