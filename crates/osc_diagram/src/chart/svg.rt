//! A chart as a picture.
ghost use Rattle.std.specs.Prelude.{◌≡◌, ◌+◌, ◌<◌, ◌≤◌, ◌^◌, ◌++◌, IfOk, OnOk, codes, decimal, flat_map, length, string_bytes};
ghost use Rattle.osc_diagram.specs.Chart.Chart as chart;
ghost use Rattle.osc_diagram.specs.Chart.Picture as spec;

use crate::chart::chart::{Arrow, Column, Mark, Way};
use crate::chart::drawing::column_of;
use crate::chart::label::{label_of, number_text};
use crate::chart::text::time_text;
use osc_model::{Bytes, Moment, Peer};
use std::alloc::{AllocError, Global};

/// How the picture begins, up to its size.
const ROOT: &str =
    "<svg xmlns=\"http://www.w3.org/2000/svg\" role=\"img\" aria-labelledby=\"title desc\"";

/// What it is, in words.
const HEAD: &str =
    "<title id=\"title\">A run as a message sequence chart</title>\n<desc id=\"desc\">Each column is a node. From the top down, each line is a datagram from one to another, with its number, or what happened at a node.</desc>\n";

/// How it looks, where the reader likes it light and where dark.
const STYLE: &str =
    "<style>\n.paper{fill:#fff}text{font:13px ui-monospace,monospace;fill:#1b1b1b}\n.name{font-weight:bold;text-anchor:middle}.number{text-anchor:end}.time{fill:#6b6b6b}.note{fill:#00695c}circle{fill:#00695c}\npath{fill:none;stroke:#1b1b1b;stroke-width:1.4}.line{stroke:#9a9a9a;stroke-width:1}\n.again{stroke-dasharray:2 3}.forged{stroke:#7a35d6}.lost{stroke:#b3261e;stroke-dasharray:6 4}\n.tip{fill:#1b1b1b;stroke:none}.forgery{fill:#7a35d6;stroke:none}.cross{stroke:#b3261e}\n.in{marker-end:url(#tip)}.forged.in{marker-end:url(#forgery)}.lost{marker-end:url(#cross)}\n@media(prefers-color-scheme:dark){.paper{fill:#161616}text{fill:#ececec}.time{fill:#9a9a9a}.note{fill:#80cbc4}circle{fill:#80cbc4}\npath{stroke:#ececec}.line{stroke:#7d7d7d}.forged{stroke:#c9a7ff}.lost{stroke:#ff8a80}.tip{fill:#ececec;stroke:none}.forgery{fill:#c9a7ff;stroke:none}.cross{stroke:#ff8a80}}\n</style>\n<defs><marker id=\"tip\" markerUnits=\"userSpaceOnUse\" markerWidth=\"10\" markerHeight=\"10\" refX=\"9\" refY=\"5\" orient=\"auto\"><path class=\"tip\" d=\"M0 1L9 5L0 9z\"/></marker>\n<marker id=\"forgery\" markerUnits=\"userSpaceOnUse\" markerWidth=\"10\" markerHeight=\"10\" refX=\"9\" refY=\"5\" orient=\"auto\"><path class=\"forgery\" d=\"M0 1L9 5L0 9z\"/></marker>\n<marker id=\"cross\" markerUnits=\"userSpaceOnUse\" markerWidth=\"10\" markerHeight=\"10\" refX=\"5\" refY=\"5\" orient=\"auto\"><path class=\"cross\" d=\"M1 1L9 9M1 9L9 1\"/></marker></defs>\n<rect class=\"paper\" width=\"100%\" height=\"100%\"/>\n";

/// The chart as a picture in SVG, which has no script: the columns, and then a group for each mark, in order. It is light or dark as its
/// reader likes it (`prefers-color-scheme`), and each arrow has the names of its ends as its title.
pub fn picture(alloc: Global, columns: &[Column], marks: &[Mark]) -> Result<Vec<u8>, AllocError>
    ensures { IfOk result (λ text. text.items ≡ spec.picture columns.now marks.now) }
{
    if columns.len() >= MOST || marks.len() >= MOST {
        return Err(AllocError);
    }
    let mut text = head(alloc, columns, marks.len())?;
    add_columns(alloc, &mut text, columns, marks.len())?;
    add_groups(alloc, &mut text, columns, marks)?;
    text.extend_from_slice(b"</svg>\n")?;
    Ok(text)
}

// More than memory holds.
const MOST: usize = 1 << 50;

// The start of the picture, with its size.
fn head(alloc: Global, columns: &[Column], rows: usize) -> Result<Vec<u8>, AllocError>
    requires columns { length columns.now < 2 ^ 50 }
    requires rows { rows < 2 ^ 50 }
    ensures { IfOk result (λ text. text.items ≡ ROOT.now ++ spec.size_text (spec.width_of columns.now) (spec.y_of rows) ++ HEAD.now ++ STYLE.now) }
{
    let mut text = Vec::from_slice(alloc, ROOT.as_bytes())?;
    add_size(alloc, &mut text, label_x(columns) + 560, y_of(rows))?;
    text.extend_from_slice(HEAD.as_bytes())?;
    text.extend_from_slice(STYLE.as_bytes())?;
    Ok(text)
}

#[tactic(auto, unfolding(crate::specs::Chart::Picture::size_text))]
fn add_size(
    alloc: Global,
    text: &mut Vec<u8>,
    width: usize,
    height: usize,
) -> Result<(), AllocError>
    ensures { OnOk result (text.new.items ≡ text.old.items ++ spec.size_text width height) }
{
    add_number(alloc, text, " viewBox=\"0 0 ", width)?;
    add_number(alloc, text, " ", height)?;
    add_number(alloc, text, "\" width=\"", width)?;
    add_number(alloc, text, "\" height=\"", height)?;
    text.extend_from_slice(b"\">\n")?;
    Ok(())
}

// Some words, and a number after them.
fn add_number(
    alloc: Global,
    text: &mut Vec<u8>,
    words: &str,
    number: usize,
) -> Result<(), AllocError>
    ensures { OnOk result (text.new.items ≡ text.old.items ++ words.now ++ decimal number) }
{
    let digits = number.to_string(alloc)?;
    text.extend_from_slice(words.as_bytes())?;
    text.extend_from_slice(digits.as_bytes())
}

// ---- where things are

// The line of a column.
fn x_of(column: usize) -> usize
    requires { column ≤ 2 ^ 50 }
    ensures { result ≡ spec.x_of column }
{
    70 + 90 * column
}

// The middle of a row.
fn y_of(row: usize) -> usize
    requires { row ≤ 2 ^ 50 }
    ensures { result ≡ spec.y_of row }
{
    60 + 22 * row
}

// Where what an arrow says begins.
fn label_x(columns: &[Column]) -> usize
    requires { length columns.now < 2 ^ 50 }
    ensures { result ≡ spec.label_x columns.now }
{
    20 + 90 * columns.len()
}

fn end_x(from: usize, to: usize, arrives: bool) -> usize
    requires from { from ≤ 2 ^ 50 }
    requires to { to ≤ 2 ^ 50 }
    ensures { result ≡ spec.end_x from to arrives }
{
    if arrives {
        x_of(to)
    } else {
        (x_of(from) + 3 * x_of(to)) / 4
    }
}

// ---- texts

// A text at a place, of this class.
#[tactic(auto, unfolding(crate::specs::Chart::Picture::text_at))]
fn add_text(
    alloc: Global,
    out: &mut Vec<u8>,
    class: &str,
    x: usize,
    y: usize,
    text: &[u8],
) -> Result<(), AllocError>
    ensures { OnOk result (out.new.items ≡ out.old.items ++ spec.text_at class.now x y text.now) }
{
    add_start(alloc, out, class, x, y)?;
    out.extend_from_slice(b"\">")?;
    add_escaped(out, text)?;
    out.extend_from_slice(b"</text>")
}

#[tactic(auto, unfolding(crate::specs::Chart::Picture::text_start))]
fn add_start(
    alloc: Global,
    out: &mut Vec<u8>,
    class: &str,
    x: usize,
    y: usize,
) -> Result<(), AllocError>
    ensures { OnOk result (out.new.items ≡ out.old.items ++ spec.text_start class.now x y) }
{
    out.extend_from_slice(b"<text class=\"")?;
    out.extend_from_slice(class.as_bytes())?;
    add_number(alloc, out, "\" x=\"", x)?;
    add_number(alloc, out, "\" y=\"", y)
}

// A text as it is in XML.
#[tactic(auto, unfolding(crate::specs::Chart::Picture::escaped))]
fn add_escaped(out: &mut Vec<u8>, text: &[u8]) -> Result<(), AllocError>
    ensures { OnOk result (out.new.items ≡ out.old.items ++ spec.escaped text.now) }
{
    for byte in text {
        add_byte(out, *byte)?;
    }
    Ok(())
}

fn add_byte(out: &mut Vec<u8>, byte: u8) -> Result<(), AllocError>
    ensures { OnOk result (out.new.items ≡ out.old.items ++ spec.escaped_byte byte) }
{
    match byte {
        b'&' => out.extend_from_slice(b"&amp;"),
        b'<' => out.extend_from_slice(b"&lt;"),
        b'>' => out.extend_from_slice(b"&gt;"),
        _ => Ok(out.push(byte)?),
    }
}

// The name of a column, or `?`.
fn name_of(columns: &[Column], column: usize) -> &'static str
    ensures { result.now ≡ spec.name_of columns.now column }
{
    match columns.get(column) {
        Some(column) => column.name,
        None => "?",
    }
}

// ---- the columns

fn add_columns(
    alloc: Global,
    text: &mut Vec<u8>,
    columns: &[Column],
    rows: usize,
) -> Result<(), AllocError>
    requires columns { length columns.now < 2 ^ 50 }
    requires rows { rows < 2 ^ 50 }
    ensures { OnOk result (text.new.items ≡ text.old.items ++ spec.columns_from (spec.y_of rows) 0 columns.now) }
{
    let height = y_of(rows);
    let mut number = 0;
    for column in columns {
        add_column(alloc, text, height, number, column)?;
        number += 1;
    }
    Ok(())
}

// Its name, and its line down to this height.
#[tactic(auto, unfolding(crate::specs::Chart::Picture::column_at))]
fn add_column(
    alloc: Global,
    text: &mut Vec<u8>,
    height: usize,
    number: usize,
    column: &Column,
) -> Result<(), AllocError>
    requires { number ≤ 2 ^ 50 }
    ensures { OnOk result (text.new.items ≡ text.old.items ++ spec.column_at height number column.now) }
{
    let x = x_of(number);
    add_text(alloc, text, "name", x, 30, column.name.as_bytes())?;
    add_number(alloc, text, "<path class=\"line\" d=\"M", x)?;
    add_number(alloc, text, " 40V", height)?;
    text.extend_from_slice(b"\"/>\n")?;
    Ok(())
}

// ---- the rows

// A group for each mark, in order.
fn add_groups(
    alloc: Global,
    text: &mut Vec<u8>,
    columns: &[Column],
    marks: &[Mark],
) -> Result<(), AllocError>
    requires columns { length columns.now < 2 ^ 50 }
    requires rows { length marks.now < 2 ^ 50 }
    ensures { OnOk result (text.new.items ≡ text.old.items ++ spec.groups columns.now 0 marks.now) }
{
    let mut row = 0;
    for mark in marks {
        add_group(alloc, text, columns, row, mark)?;
        row += 1;
    }
    Ok(())
}

// The group of a mark in a row.
#[tactic(auto, unfolding(crate::specs::Chart::Picture::group))]
fn add_group(
    alloc: Global,
    text: &mut Vec<u8>,
    columns: &[Column],
    row: usize,
    mark: &Mark,
) -> Result<(), AllocError>
    requires columns { length columns.now < 2 ^ 50 }
    requires row { row ≤ 2 ^ 50 }
    ensures { OnOk result (text.new.items ≡ text.old.items ++ spec.group columns.now row mark.now) }
{
    text.extend_from_slice(b"<g>")?;
    add_mark(alloc, text, columns, row, mark)?;
    text.extend_from_slice(b"</g>\n")
}

#[tactic(auto, unfolding(crate::specs::Chart::Picture::mark_group))]
fn add_mark(
    alloc: Global,
    text: &mut Vec<u8>,
    columns: &[Column],
    row: usize,
    mark: &Mark,
) -> Result<(), AllocError>
    requires columns { length columns.now < 2 ^ 50 }
    requires row { row ≤ 2 ^ 50 }
    ensures { OnOk result (text.new.items ≡ text.old.items ++ spec.mark_group columns.now row mark.now) }
{
    match mark {
        Mark::Arrow(arrow) => add_arrow(alloc, text, columns, row, arrow),
        Mark::Note { at, text: says } => add_note(alloc, text, columns, row, (*at, says)),
        Mark::Time(moment) => add_time(alloc, text, columns, row, *moment),
    }
}

#[tactic(auto, unfolding(crate::specs::Chart::Picture::arrow_group))]
fn add_arrow(
    alloc: Global,
    text: &mut Vec<u8>,
    columns: &[Column],
    row: usize,
    arrow: &Arrow,
) -> Result<(), AllocError>
    requires columns { length columns.now < 2 ^ 50 }
    requires row { row ≤ 2 ^ 50 }
    ensures { OnOk result (text.new.items ≡ text.old.items ++ spec.arrow_group columns.now row arrow.now) }
{
    let number = number_text(alloc, arrow.way)?;
    let label = label_of(alloc, arrow)?;
    let from = column_of(columns, arrow.from);
    let to = column_of(columns, arrow.to);
    add_title(text, columns, from, to)?;
    add_line(alloc, text, arrow, (from, to), row)?;
    add_text(alloc, text, "number", 30, y_of(row) + 4, number.as_bytes())?;
    add_text(
        alloc,
        text,
        "label",
        label_x(columns),
        y_of(row) + 4,
        label.as_bytes(),
    )
}

// Who sends it to whom.
#[tactic(auto, unfolding(crate::specs::Chart::Picture::title_of))]
fn add_title(
    text: &mut Vec<u8>,
    columns: &[Column],
    from: usize,
    to: usize,
) -> Result<(), AllocError>
    ensures { OnOk result (text.new.items ≡ text.old.items ++ spec.title_of columns.now from to) }
{
    text.extend_from_slice(b"<title>")?;
    text.extend_from_slice(name_of(columns, from).as_bytes())?;
    text.extend_from_slice(b" to ")?;
    text.extend_from_slice(name_of(columns, to).as_bytes())?;
    text.extend_from_slice(b"</title>")
}

// From a column to another, in a row.
#[tactic(auto, unfolding(crate::specs::Chart::Picture::line_between))]
fn add_line(
    alloc: Global,
    text: &mut Vec<u8>,
    arrow: &Arrow,
    ends: (usize, usize),
    row: usize,
) -> Result<(), AllocError>
    requires from { ends.0 ≤ 2 ^ 50 }
    requires to { ends.1 ≤ 2 ^ 50 }
    requires row { row ≤ 2 ^ 50 }
    ensures { OnOk result (text.new.items ≡ text.old.items ++ spec.line_between arrow.now ends.0 ends.1 row) }
{
    add_class(text, arrow)?;
    add_number(alloc, text, "\" d=\"M", x_of(ends.0))?;
    add_number(alloc, text, " ", y_of(row))?;
    add_path(alloc, text, ends.0, ends.1, arrow.arrives)?;
    text.extend_from_slice(b"\"/>")
}

#[tactic(auto, unfolding(crate::specs::Chart::Picture::class_of))]
fn add_class(text: &mut Vec<u8>, arrow: &Arrow) -> Result<(), AllocError>
    ensures { OnOk result (text.new.items ≡ text.old.items ++ spec.class_of arrow.now) }
{
    text.extend_from_slice(b"<path class=\"")?;
    text.extend_from_slice(way_class(arrow.way))?;
    text.extend_from_slice(end_class(arrow.arrives))
}

fn way_class(way: Way) -> &'static [u8]
    ensures { result.now ≡ spec.way_class way }
{
    match way {
        Way::Sent(_) => b"sent",
        Way::Again(_) => b"again",
        Way::Forged => b"forged",
    }
}

fn end_class(arrives: bool) -> &'static [u8]
    ensures { result.now ≡ spec.end_class arrives }
{
    if arrives { b" in" } else { b" lost" }
}

// To its end, or round to where it begins.
#[tactic(auto, unfolding(crate::specs::Chart::Picture::path_to))]
fn add_path(
    alloc: Global,
    text: &mut Vec<u8>,
    from: usize,
    to: usize,
    arrives: bool,
) -> Result<(), AllocError>
    requires from { from ≤ 2 ^ 50 }
    requires to { to ≤ 2 ^ 50 }
    ensures { OnOk result (text.new.items ≡ text.old.items ++ spec.path_to from to arrives) }
{
    if from == to {
        return text.extend_from_slice(b"h36v9h-30");
    }
    add_number(alloc, text, "H", end_x(from, to, arrives))
}

fn add_note(
    alloc: Global,
    text: &mut Vec<u8>,
    columns: &[Column],
    row: usize,
    note: (Peer, &Bytes),
) -> Result<(), AllocError>
    requires columns { length columns.now < 2 ^ 50 }
    requires row { row ≤ 2 ^ 50 }
    ensures { OnOk result (text.new.items ≡ text.old.items ++ (spec.dot_at (chart.column_of columns.now note.entry.0) row
        ++ spec.text_at (codes "note") (spec.label_x columns.now) (spec.y_of row + 4) note.entry.1.now)) }
{
    let (at, says) = note;
    add_dot(alloc, text, column_of(columns, at), row)?;
    add_text(
        alloc,
        text,
        "note",
        label_x(columns),
        y_of(row) + 4,
        says.as_slice(),
    )
}

#[tactic(auto, unfolding(crate::specs::Chart::Picture::dot_at))]
fn add_dot(alloc: Global, text: &mut Vec<u8>, column: usize, row: usize) -> Result<(), AllocError>
    requires column { column ≤ 2 ^ 50 }
    requires row { row ≤ 2 ^ 50 }
    ensures { OnOk result (text.new.items ≡ text.old.items ++ spec.dot_at column row) }
{
    add_number(alloc, text, "<circle cx=\"", x_of(column))?;
    add_number(alloc, text, "\" cy=\"", y_of(row))?;
    text.extend_from_slice(b"\" r=\"4\"/>")?;
    Ok(())
}

fn add_time(
    alloc: Global,
    text: &mut Vec<u8>,
    columns: &[Column],
    row: usize,
    moment: Moment,
) -> Result<(), AllocError>
    requires columns { length columns.now < 2 ^ 50 }
    requires row { row ≤ 2 ^ 50 }
    ensures { OnOk result (text.new.items ≡ text.old.items
        ++ spec.text_at (codes "time") (spec.label_x columns.now) (spec.y_of row + 4) (codes "at " ++ decimal moment.ms ++ codes " ms")) }
{
    let says = time_text(alloc, moment)?;
    add_text(
        alloc,
        text,
        "time",
        label_x(columns),
        y_of(row) + 4,
        says.as_bytes(),
    )
}
