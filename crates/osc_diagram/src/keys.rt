//! The keys of a run's contexts, for Wireshark.
ghost use Rattle.std.specs.Prelude.{◌≡◌, ◌++◌, ◌∷◌, [], IfOk, OnOk, option_map};
ghost use Rattle.osc_diagram.specs.Chart.{key_line as line_of};
ghost use Rattle.osc_diagram.specs.Keys as spec;

use crate::key_line;
use osc_model::{Bytes, ContextName, Note};
use osc_run::Noted;
use std::alloc::{AllocError, Global};

/// A line for each context under which one of these steps sealed, once, in the order in which they first did.
pub(crate) fn keys_of(alloc: Global, steps: &[Noted]) -> Result<Vec<Bytes>, AllocError>
    ensures { IfOk result (λ lines. lines.items ≡ spec.keys_of steps.now) }
{
    let mut lines = Vec::new(alloc);
    for step in steps {
        add_seal(alloc, &mut lines, step.notes().seals())?;
    }
    Ok(lines)
}

fn add_seal(alloc: Global, lines: &mut Vec<Bytes>, seals: Option<&Note>) -> Result<(), AllocError>
    ensures { OnOk result (lines.new.items ≡ spec.with_seal lines.old.items (option_map (λ note. note.now) seals.entry)) }
{
    match seals {
        Some(note) => add_line(lines, line(alloc, &note.context)?),
        None => Ok(()),
    }
}

fn line(alloc: Global, context: &ContextName) -> Result<Bytes, AllocError>
    ensures { IfOk result (λ line. line ≡ line_of context.now) }
{
    let line = key_line(alloc, context)?;
    Bytes::from_slice(alloc, line.as_bytes())
}

// Adds the line, if it isn't there.
fn add_line(lines: &mut Vec<Bytes>, line: Bytes) -> Result<(), AllocError>
    ensures { OnOk result (lines.new.items ≡ spec.with_line lines.old.items line) }
{
    if has_line(lines, &line) {
        return Ok(());
    }
    append(lines, line)
}

fn has_line(lines: &[Bytes], line: &Bytes) -> bool
    ensures { result ≡ spec.has_line lines.now line.now }
{
    lines.iter().any(|other| *other == *line)
}

fn append(lines: &mut Vec<Bytes>, line: Bytes) -> Result<(), AllocError>
    ensures { OnOk result (lines.new.items ≡ lines.old.items ++ line ∷ []) }
{
    Ok(lines.push(line)?)
}
