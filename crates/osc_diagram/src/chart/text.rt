//! A chart as text.
ghost use Rattle.std.specs.Prelude.{◌≡◌, ◌++◌, ◌∷◌, [], IfOk, OnOk, codes, decimal, flat_map, string_bytes};
ghost use Rattle.osc_diagram.specs.Chart.Label.{label, number_text};
ghost use Rattle.osc_diagram.specs.Chart.Text as spec;

use crate::chart::chart::{Arrow, Column, Mark};
use crate::chart::drawing::{Stroke, add_cells, column_of};
use crate::chart::label::{label_of, number_text};
use osc_model::Moment;
use std::alloc::{AllocError, Global};

/// The chart as text: a line of names, and then a line for each mark, in order. Before an arrow is the number of its datagram, and
/// after it what it says; one that doesn't arrive ends in `x`. Each column is 8 letters wide.
pub fn chart_text(alloc: Global, columns: &[Column], marks: &[Mark]) -> Result<Vec<u8>, AllocError>
    ensures { IfOk result (λ text. text.items ≡ spec.chart_text columns.now marks.now) }
{
    let mut text = names_line(alloc, columns)?;
    for mark in marks {
        add_mark(alloc, &mut text, columns, mark)?;
    }
    Ok(text)
}

// The names, each of which ends at its column's line.
fn names_line(alloc: Global, columns: &[Column]) -> Result<Vec<u8>, AllocError>
    ensures { IfOk result (λ text. text.items ≡ flat_map spec.name_cell columns.now ++ 10 ∷ []) }
{
    let mut text = Vec::new(alloc);
    for column in columns {
        add_behind_spaces(&mut text, 8, column.name.as_bytes())?;
    }
    text.push(b'\n')?;
    Ok(text)
}

// After spaces, so that it is so long at least.
fn add_behind_spaces(text: &mut Vec<u8>, width: usize, word: &[u8]) -> Result<(), AllocError>
    ensures { OnOk result (text.new.items ≡ text.old.items ++ spec.behind_spaces width word.now) }
{
    add_spaces(text, width.saturating_sub(word.len()))?;
    text.extend_from_slice(word)
}

fn add_spaces(text: &mut Vec<u8>, count: usize) -> Result<(), AllocError>
    ensures { OnOk result (text.new.items ≡ text.old.items ++ spec.spaces count) }
{
    for _i in 0..count {
        text.push(b' ')?;
    }
    Ok(())
}

// The line of a mark.
fn add_mark(
    alloc: Global,
    text: &mut Vec<u8>,
    columns: &[Column],
    mark: &Mark,
) -> Result<(), AllocError>
    ensures { OnOk result (text.new.items ≡ text.old.items ++ spec.mark_line columns.now mark.now) }
{
    match mark {
        Mark::Arrow(arrow) => add_arrow(alloc, text, columns, arrow),
        Mark::Note { at, text: says } => {
            let stroke = Stroke::Dot(column_of(columns, *at));
            add_line(text, columns, b"", stroke, says.as_slice())
        }
        Mark::Time(moment) => add_time(alloc, text, columns, *moment),
    }
}

fn add_arrow(
    alloc: Global,
    text: &mut Vec<u8>,
    columns: &[Column],
    arrow: &Arrow,
) -> Result<(), AllocError>
    ensures { OnOk result (text.new.items ≡ text.old.items ++ spec.drawn columns.now (number_text arrow.now.way)
        (spec.stroke_of columns.now arrow.now) (label arrow.now)) }
{
    let number = number_text(alloc, arrow.way)?;
    let label = label_of(alloc, arrow)?;
    let stroke = stroke_of(columns, arrow);
    add_line(text, columns, number.as_bytes(), stroke, label.as_bytes())
}

// Where an arrow goes.
pub(crate) fn stroke_of(columns: &[Column], arrow: &Arrow) -> Stroke
    ensures { result ≡ spec.stroke_of columns.now arrow.now }
{
    Stroke::Line(
        column_of(columns, arrow.from),
        column_of(columns, arrow.to),
        arrow.arrives,
    )
}

fn add_time(
    alloc: Global,
    text: &mut Vec<u8>,
    columns: &[Column],
    moment: Moment,
) -> Result<(), AllocError>
    ensures { OnOk result (text.new.items ≡ text.old.items ++ spec.drawn columns.now [] Stroke.Nothing (codes "at " ++ decimal moment.ms ++ codes " ms")) }
{
    let says = time_text(alloc, moment)?;
    add_line(text, columns, b"", Stroke::Nothing, says.as_bytes())
}

pub(crate) fn time_text(alloc: Global, moment: Moment) -> Result<String, AllocError>
    ensures { IfOk result (λ text. string_bytes text ≡ codes "at " ++ decimal moment.ms ++ codes " ms") }
{
    format!(in alloc; "at {} ms", moment.ms)
}

// What is before the columns, what goes over these, and what it says.
fn add_line(
    text: &mut Vec<u8>,
    columns: &[Column],
    margin: &[u8],
    stroke: Stroke,
    label: &[u8],
) -> Result<(), AllocError>
    ensures { OnOk result (text.new.items ≡ text.old.items ++ spec.drawn columns.now margin.now stroke label.now) }
{
    add_behind_spaces(text, 4, margin)?;
    text.extend_from_slice(b"   ")?;
    add_cells(text, stroke, columns.len())?;
    text.extend_from_slice(label)?;
    text.push(b'\n')?;
    Ok(())
}
