//! The text of a line.

ghost use Rattle.std.specs.Prelude.{◌≡◌, ◌==◌, ◌↔◌, IfOk, IsTrue, map};
ghost use Rattle.std.specs.List.{slice_split};
ghost use Rattle.osc_script.specs.Line.{IsSkipped, Says};
ghost use Rattle.osc_script.specs.Values.{Reads};

use crate::line::Line;
use crate::say::say;
use std::alloc::{AllocError, Global};
use std::str;

/// What the text of a line says, if it says anything.
pub(crate) fn line(alloc: Global, text: &[u8]) -> Result<Option<Line>, AllocError>
    ensures { IfOk result (λ found. Reads (Says text.now) found) }
{
    let Ok(text) = str::from_utf8(text) else {
        return Ok(None);
    };
    if is_skipped(text.as_bytes()) {
        return Ok(Some(Line::Skipped));
    }
    let words = words(alloc, text)?;
    say(alloc, &words)
}

fn is_skipped(text: &[u8]) -> bool
    ensures { IsTrue result ↔ IsSkipped text.now }
{
    match text {
        [] => true,
        [first, ..] => *first == b'#',
    }
}

// The words of a line.
fn words(alloc: Global, line: &str) -> Result<Vec<&str>, AllocError>
    ensures { IfOk result (λ words. map (λ word. word.now) words.items ≡ slice_split (λ b. b == 32) line.now) }
{
    line.split(' ').collect(alloc)
}
