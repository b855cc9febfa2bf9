//! What is at a column in a line of a chart.
ghost use Rattle.std.specs.Prelude.{◌≡◌, ◌+◌, ◌++◌, ◌<◌, ◌^◌, OnOk, if◌then◌else◌, codes, length, position, ◌≤◌, IfSome};
ghost use Rattle.osc_diagram.specs.Chart.Chart as chart;
ghost use Rattle.osc_diagram.specs.Chart.Drawing as spec;

use crate::chart::chart::Column;
use osc_model::Peer;
use std::alloc::AllocError;

/// What goes over the columns in one line, each by its number from 0.
#[derive(Clone, Copy)]
pub(crate) enum Stroke {
    /// Nothing.
    Nothing,
    /// Something happens at a column.
    Dot(usize),
    /// A datagram goes from one to another, and arrives or doesn't.
    Line(usize, usize, bool),
}

/// The column of a peer; one after the last, where nobody is there.
pub(crate) fn column_of(columns: &[Column], peer: Peer) -> usize
    ensures column { result ≡ chart.column_of columns.now peer }
    ensures few { result ≤ length columns.now }
{
    place_of(columns, peer).unwrap_or(columns.len())
}

// Which of the columns is there first.
fn place_of(columns: &[Column], peer: Peer) -> Option<usize>
    ensures place { result ≡ position (chart.stands_at peer) columns.now }
    ensures few { IfSome result (λ place. place < length columns.now) }
{
    columns.iter().position(|column| column.at == peer)
}

/// What is at this number of columns, after this text.
pub(crate) fn add_cells(text: &mut Vec<u8>, stroke: Stroke, count: usize) -> Result<(), AllocError>
    ensures { OnOk result (text.new.items ≡ text.old.items ++ spec.cells stroke count) }
{
    for i in 0..count {
        text.extend_from_slice(cell(stroke, i))?;
    }
    Ok(())
}

// What is at the column of this number: 8 letters.
fn cell(stroke: Stroke, i: usize) -> &'static [u8]
    requires { i + 1 < 2 ^ 64 }
    ensures { result.now ≡ spec.cell stroke i }
{
    match stroke {
        Stroke::Nothing => b"|       ",
        Stroke::Dot(at) => dot(i == at),
        Stroke::Line(from, to, arrives) => line(from, to, arrives, i),
    }
}

fn dot(here: bool) -> &'static [u8]
    ensures { result.now ≡ (if here then codes "*       " else spec.idle) }
{
    if here { b"*       " } else { b"|       " }
}

fn line(from: usize, to: usize, arrives: bool, i: usize) -> &'static [u8]
    requires { i + 1 < 2 ^ 64 }
    ensures { result.now ≡ spec.cell (Stroke.Line from to arrives) i }
{
    if from == to {
        return if i == from {
            turn(arrives)
        } else {
            b"|       "
        };
    }
    if from < to {
        if from <= i && i < to {
            return to_the_right(i == from, i + 1 == to, arrives);
        }
        return b"|       ";
    }
    if to <= i && i < from {
        return to_the_left(i == to, arrives);
    }
    b"|       "
}

fn turn(arrives: bool) -> &'static [u8]
    ensures { result.now ≡ spec.turn arrives }
{
    if arrives { b"|<--.   " } else { b"|x--.   " }
}

fn to_the_right(begins: bool, ends: bool, arrives: bool) -> &'static [u8]
    ensures { result.now ≡ spec.to_the_right begins ends arrives }
{
    match (begins, ends, arrives) {
        (true, true, true) => b"|------>",
        (false, true, true) => b"------->",
        (true, true, false) => b"|-----x ",
        (false, true, false) => b"------x ",
        (true, false, _) => b"|-------",
        (false, false, _) => b"--------",
    }
}

fn to_the_left(ends: bool, arrives: bool) -> &'static [u8]
    ensures { result.now ≡ spec.to_the_left ends arrives }
{
    match (ends, arrives) {
        (true, true) => b"|<------",
        (true, false) => b"| x-----",
        (false, _) => b"--------",
    }
}
