//! What is told of a turn: its lines, but for some lines where there are many of their kind, and counters where they are due.
ghost use Rattle.std.specs.Prelude.{◌≡◌, ◌++◌, IfOk, List, OnOk, ℕ};
ghost use Rattle.osc_log.specs.Limits.{after_line};
ghost use Rattle.osc_log.specs.Time.{IsTime};
ghost use Rattle.osc_log.specs.Sent as spec;

use crate::counting::due_text;
use crate::form::Form;
use crate::held::TellsHeld;
use crate::kind::Kind;
use crate::limits::{Limits, Tally};
use crate::seen::Seen;
use crate::time::time_text;
use crate::turn::{Telling, Turn};
use crate::{json, text};
use osc_model::{Datagram, Moment};
use std::alloc::{AllocError, Global};

/// The lines that are told of a turn, where this much was seen.
pub(crate) fn text_of<N: TellsHeld>(
    alloc: Global,
    form: Form,
    turn: &Turn<'_>,
    node: &N,
    seen: &Seen,
) -> Result<Vec<u8>, AllocError>
    ensures { IfOk result (λ told. (time : List ℕ) × IsTime turn.entry.now.now time
        × (told.items ≡ spec.turn_text form time seen.now turn.entry.now (N.held node.now))) }
{
    let time = time_text(turn.moment());
    text_at(alloc, form, time.as_str(), turn, node, seen)
}

// The same at this time.
fn text_at<N: TellsHeld>(
    alloc: Global,
    form: Form,
    time: &str,
    turn: &Turn<'_>,
    node: &N,
    seen: &Seen,
) -> Result<Vec<u8>, AllocError>
    ensures { IfOk result (λ told. told.items ≡ spec.turn_text form time.now seen.now turn.entry.now (N.held node.now)) }
{
    let telling = Telling { form, time };
    let mut text = told_by(alloc, &telling, turn, seen.limits)?;
    add(
        &mut text,
        &due_text(alloc, &telling, turn, seen.counters, node)?,
    )?;
    Ok(text)
}

fn add(text: &mut Vec<u8>, more: &[u8]) -> Result<(), AllocError>
    ensures { OnOk result (text.new.items ≡ text.old.items ++ more.now) }
{
    Ok(text.extend_from_slice(more)?)
}

// What is told of the datagrams that a turn sent.
fn told_by(
    alloc: Global,
    telling: &Telling<'_>,
    turn: &Turn<'_>,
    limits: Limits,
) -> Result<Vec<u8>, AllocError>
    ensures { IfOk result (λ told. told.items ≡ spec.told_by telling.entry.now turn.entry.now limits turn.entry.now.step.out) }
{
    let mut text = Vec::new(alloc);
    let mut counted = limits;
    for datagram in turn.sent() {
        add(
            &mut text,
            &told_of(alloc, telling, turn, counted, datagram)?,
        )?;
        counted = counted.after_line(turn);
    }
    Ok(text)
}

/// How many lines of each kind were told and left out after those of a turn.
pub(crate) fn after_lines(turn: &Turn<'_>, limits: Limits) -> Limits
    ensures { result ≡ spec.after_lines turn.entry.now limits turn.entry.now.step.out }
{
    let mut counted = limits;
    for _datagram in turn.sent() {
        counted = counted.after_line(turn);
    }
    counted
}

// What is told of a datagram that a turn sent: how many lines were left out before, if it is time to tell, and its line, if that isn't left out.
fn told_of(
    alloc: Global,
    telling: &Telling<'_>,
    turn: &Turn<'_>,
    limits: Limits,
    datagram: &Datagram,
) -> Result<Vec<u8>, AllocError>
    ensures { IfOk result (λ text. text.items ≡ spec.told_of telling.entry.now turn.entry.now limits datagram.now) }
{
    let mut text = ended_text(alloc, telling, turn.moment(), limits)?;
    add(
        &mut text,
        &line_told(alloc, telling, turn, limits, datagram)?,
    )?;
    Ok(text)
}

// The line of a datagram, unless it is left out.
fn line_told(
    alloc: Global,
    telling: &Telling<'_>,
    turn: &Turn<'_>,
    limits: Limits,
    datagram: &Datagram,
) -> Result<Vec<u8>, AllocError>
    ensures { IfOk result (λ text. text.items ≡ spec.line_told telling.entry.now turn.entry.now datagram.now limits) }
{
    if limits.at(turn.moment()).tell(Kind::of(turn)) {
        line_text(alloc, telling, turn, datagram)
    } else {
        Ok(Vec::new(alloc))
    }
}

fn line_text(
    alloc: Global,
    telling: &Telling<'_>,
    turn: &Turn<'_>,
    datagram: &Datagram,
) -> Result<Vec<u8>, AllocError>
    ensures { IfOk result (λ text. text.items ≡ spec.line_text telling.entry.now turn.entry.now datagram.now) }
{
    match telling.form() {
        Form::Text => text::line_text(alloc, turn, datagram),
        Form::Json => json::line_text(alloc, telling, turn, datagram),
    }
}

// How many lines were left out, where a new second begins.
fn ended_text(
    alloc: Global,
    telling: &Telling<'_>,
    now: Moment,
    limits: Limits,
) -> Result<Vec<u8>, AllocError>
    ensures { IfOk result (λ text. text.items ≡ spec.ended_text telling.entry.now now limits) }
{
    if now.ms / 1000 == limits.second {
        return Ok(Vec::new(alloc));
    }
    all_left_out(alloc, telling, now, limits)
}

fn all_left_out(
    alloc: Global,
    telling: &Telling<'_>,
    now: Moment,
    limits: Limits,
) -> Result<Vec<u8>, AllocError>
    ensures { IfOk result (λ text. text.items ≡ spec.all_left_out telling.entry.now now limits) }
{
    let mut text = left_out_of(alloc, telling, now, Kind::NoContext, limits.no_context)?;
    add(
        &mut text,
        &left_out_of(
            alloc,
            telling,
            now,
            Kind::UnderContext,
            limits.under_context,
        )?,
    )?;
    add(
        &mut text,
        &left_out_of(alloc, telling, now, Kind::Sent, limits.sent)?,
    )?;
    Ok(text)
}

// How many lines of this kind were left out, where any was.
fn left_out_of(
    alloc: Global,
    telling: &Telling<'_>,
    now: Moment,
    kind: Kind,
    tally: Tally,
) -> Result<Vec<u8>, AllocError>
    ensures { IfOk result (λ text. text.items ≡ spec.left_out_of telling.entry.now now kind tally) }
{
    if tally.left_out == 0 {
        return Ok(Vec::new(alloc));
    }
    left_out_text(alloc, telling, now, kind, tally.left_out)
}

fn left_out_text(
    alloc: Global,
    telling: &Telling<'_>,
    now: Moment,
    kind: Kind,
    count: u64,
) -> Result<Vec<u8>, AllocError>
    ensures { IfOk result (λ text. text.items ≡ spec.left_out_by telling.entry.now.form telling.entry.now.time now kind count) }
{
    match telling.form() {
        Form::Text => text::left_out_text(alloc, now, kind, count),
        Form::Json => json::left_out_text(alloc, telling.time(), kind, count),
    }
}
