//! The line of counters.
ghost use Rattle.std.specs.Prelude.{◌≡◌, IfOk, ◌++◌, codes, decimal, string_bytes};
ghost use Rattle.osc_log.specs.Counters as spec;
ghost use Rattle.osc_log.specs.Inner.Building.{line_of};

use crate::counters::Counters;
use crate::held::{Held, TellsHeld};
use crate::line::LogLine;
use crate::turn::{Telling, Turn};
use osc_model::Moment;
use std::alloc::{AllocError, Global};

/// The line of the counters with this turn, where they are due, and else nothing.
pub(crate) fn due_text<N: TellsHeld>(
    alloc: Global,
    telling: &Telling<'_>,
    turn: &Turn<'_>,
    counters: Counters,
    node: &N,
) -> Result<Vec<u8>, AllocError>
    ensures { IfOk result (λ text. text.items ≡ spec.due_text telling.entry.now turn.entry.now counters (N.held node.now)) }
{
    let counters = counters.with_turn(turn);
    if counters.are_due(turn) {
        counted_text(alloc, telling, turn.moment(), &counters, node.held())
    } else {
        Ok(Vec::new(alloc))
    }
}

// The line of these counters, and of what the node holds.
fn counted_text(
    alloc: Global,
    telling: &Telling<'_>,
    now: Moment,
    counters: &Counters,
    held: Held,
) -> Result<Vec<u8>, AllocError>
    ensures { IfOk result (λ text. text.items ≡ spec.counted_text telling.entry.now now counters.now held) }
{
    let line = LogLine::new(alloc, telling.form(), now, telling.time(), "counted")?
        .number(alloc, "received", counters.received)?
        .number(alloc, "sent", counters.sent)?
        .number(alloc, "served", counters.served)?
        .number(alloc, "refused", counters.refused)?;
    with_held(alloc, held, with_counts(alloc, &counters.reasons, line)?)?.ended(alloc)
}

fn with_counts(alloc: Global, counts: &[u64], line: LogLine) -> Result<LogLine, AllocError>
    ensures { IfOk result (λ more. line_of more ≡ spec.with_counts 0 counts.now (line_of line)) }
{
    let mut more = line;
    let mut place = 0;
    for count in counts {
        more = with_count(alloc, place, *count, more)?;
        place += 1;
    }
    Ok(more)
}

fn with_count(alloc: Global, place: usize, count: u64, line: LogLine) -> Result<LogLine, AllocError>
    ensures { IfOk result (λ more. line_of more ≡ spec.with_count place count (line_of line)) }
{
    if count == 0 {
        return Ok(line);
    }
    let key = key_of(alloc, place)?;
    line.number(alloc, &key, count)
}

fn key_of(alloc: Global, place: usize) -> Result<String, AllocError>
    ensures { IfOk result (λ key. string_bytes key ≡ codes "refused_" ++ decimal place) }
{
    format!(in alloc; "refused_{place}")
}

fn with_held(alloc: Global, held: Held, line: LogLine) -> Result<LogLine, AllocError>
    ensures { IfOk result (λ more. line_of more ≡ spec.with_held held (line_of line)) }
{
    match held {
        Held::Server {
            contexts,
            resources,
        } => line
            .number(alloc, "contexts", contexts as u64)?
            .number(alloc, "resources", resources as u64),
        Held::Proxy { exchanges } => line.number(alloc, "exchanges", exchanges as u64),
    }
}
