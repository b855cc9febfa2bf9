//! A script, read whole before its first event.

ghost use Rattle.std.specs.Prelude.{◌≡◌, ℕ, [], ◌∷◌, ◌++◌, IfOk, IfSome, map};
ghost use Rattle.osc_script.specs.Line.{StandsFor};
ghost use Rattle.osc_script.specs.Script.{IsScript, IsFirstBad, IsFirstBadIn, without_empty_last, StandFor};
ghost use Rattle.osc_script.specs.Inner.Place.{IsPlace};
ghost use Rattle.osc_script.specs.Values.{Reads};
ghost use Rattle.osc_script.specs.declared.read.ScriptError.TheVariants.{OutOfMemory};

use crate::line::{Line, Script};
use crate::place::LinesAbove;
use crate::split::parts;
use crate::text;
use std::alloc::{AllocError, AllocFailed, Global};

/// Why a text is no script.
#[derive(Clone, Copy, Debug, PartialEq, Eq)]
pub enum ScriptError {
    /// The line of this number, counted from 1, is the first that applies for nothing.
    BadLine(u64),
    OutOfMemory,
}

impl From<AllocError> for ScriptError {
    ghost from_gives = { λ _ e. e ≡ OutOfMemory };

    fn from(_e: AllocError) -> ScriptError {
        ScriptError::OutOfMemory
    }
}

impl<T: Drop> From<AllocFailed<T>> for ScriptError {
    ghost from_gives = { λ _ e. e ≡ OutOfMemory };

    fn from(_e: AllocFailed<T>) -> ScriptError {
        ScriptError::OutOfMemory
    }
}

/// The lines that the text says, one for each of its lines. Lines end with a line feed, which the last may lack,
/// and are words parted by one space each.
///
/// Set-up lines (`put`, `open`, `revoked`, `grant`, `proxy`, `via`) are before the first event, which is any line but those and `at`, `draw`,
/// `drop` and `skip`. A path is put once, and at most 1024 are. At most one line says the revocation path. A client is granted once, and a
/// line that names it is after its grant; at most one says by which proxy it sends. An event that names a proxy is after a line
/// that makes it. The moment doesn't fall.
///
/// `OutOfMemory` says nothing of the text.
pub fn read_script(alloc: Global, text: &[u8]) -> Result<Script, ScriptError>
    ensures read { IfOk result (λ script. IsScript text.now script) }
    ensures bad { (n : ℕ) → result ≡ Err (ScriptError.BadLine n) → IsFirstBad text.now n }
{
    let parts = parts(alloc, text, b'\n')?;
    let lines = read_lines(alloc, without_empty_last(&parts))?;
    Ok(Script::new(lines))
}

// What the texts stand for, one after another.
fn read_lines(alloc: Global, texts: &[&[u8]]) -> Result<Vec<Line>, ScriptError>
    ensures read { IfOk result (λ lines. StandFor [] (map (λ text. text.now) texts.now) lines.items) }
    ensures bad { (n : ℕ) → result ≡ Err (ScriptError.BadLine n) → IsFirstBadIn (map (λ text. text.now) texts.now) n }
{
    let mut lines = Vec::new(alloc);
    let mut place = LinesAbove::FIRST;
    for text in texts {
        let Some(line) = next_line(alloc, &mut place, &lines, text)? else {
            return Err(ScriptError::BadLine(lines.len() as u64 + 1));
        };
        lines.push(line)?;
    }
    Ok(lines)
}

// After a last line feed there is no line.
fn without_empty_last<'a, 'b>(parts: &'b [&'a [u8]]) -> &'b [&'a [u8]]
    ensures { map (λ part. part.now) result.now ≡ without_empty_last (map (λ part. part.now) parts.now) }
{
    match parts {
        [before @ .., last] if last.is_empty() => before,
        _ => parts,
    }
}

// What the text stands for, after the lines above it, whose place goes on where it stands for something.
fn next_line(
    alloc: Global,
    place: &mut LinesAbove,
    above: &[Line],
    text: &[u8],
) -> Result<Option<Line>, AllocError>
    requires { IsPlace above.now place.old }
    ensures found { IfOk result (λ found. Reads (StandsFor above.now text.now) found) }
    ensures place { IfOk result (λ found. IfSome found (λ line. IsPlace (above.now ++ line ∷ []) place.new)) }
{
    let Some(line) = text::line(alloc, text)? else {
        return Ok(None);
    };
    let Some(next) = place.behind(above, &line) else {
        return Ok(None);
    };
    *place = next;
    Ok(Some(line))
}
