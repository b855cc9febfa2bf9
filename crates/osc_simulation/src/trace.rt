//! The lines of a trace.
ghost use Rattle.std.specs.Prelude.{◌≡◌, ◌<◌, ◌+◌, ◌++◌, ◌∷◌, [], true, if◌then◌else◌, IfOk, OnOk, Some, codes, decimal, flat_map, string_bytes};
ghost use Rattle.std.specs.FinMap as map;
ghost use Rattle.osc_script.specs.{client_name};
ghost use Rattle.osc_simulation.specs.Text as text;
ghost use Rattle.osc_simulation.specs.Trace as spec;

use osc_coap::MessageRef;
use osc_model::{Code, Datagram, Path, Reply, Resource, Step};
use osc_options::has_option;
use osc_options::numbers::OSCORE;
use osc_script::{ClientName, NodeName};
use osc_tree::Tree;
use std::alloc::{AllocError, Global};
use std::fmt;

/// How the events of a trace are printed.
#[derive(Clone, Copy, Debug, PartialEq, Eq)]
pub struct TraceForm {
    /// With the bytes of their datagrams.
    pub bytes: bool,
    /// Each line after the number of the script's line whose event it is, from 1.
    pub lines: bool,
}

/// The message's type and code, marked where it has an OSCORE option.
pub(crate) fn message_text(alloc: Global, message: &MessageRef<'_>) -> Result<String, AllocError>
    ensures { IfOk result (λ part. string_bytes part ≡ spec.message_text message.now) }
{
    let kind = message.kind();
    let code = Code(message.code());
    let mark = if has_option(message, OSCORE) {
        " oscore"
    } else {
        ""
    };
    format!(in alloc; "{kind} {code}{mark}")
}

/// The bytes of a datagram after a space, where they are wanted.
pub(crate) fn wanted_bytes_text(
    alloc: Global,
    with_bytes: bool,
    bytes: &[u8],
) -> Result<String, AllocError>
    ensures { IfOk result (λ part. string_bytes part ≡ spec.wanted_bytes_text with_bytes bytes.now) }
{
    if !with_bytes {
        return Ok(String::new(alloc));
    }
    let digits = hex::encode(alloc, bytes)?;
    format!(in alloc; " {digits}")
}

/// The end lines: the resources, how many requests are in the history, and whether what is assumed of the run held.
pub fn end_text(
    alloc: Global,
    tree: &Tree,
    entries: usize,
    held: bool,
) -> Result<Vec<u8>, AllocError>
    ensures { IfOk result (λ text. text.items ≡ spec.end_text tree.now entries held) }
{
    let mut text = tree_lines(alloc, tree)?;
    text.extend_from_slice(history_line(alloc, entries)?.as_bytes())?;
    text.extend_from_slice(premise_line(held))?;
    Ok(text)
}

// `history N`.
fn history_line(alloc: Global, entries: usize) -> Result<String, AllocError>
    ensures { IfOk result (λ line. string_bytes line ≡ spec.history_text entries) }
{
    format!(in alloc; "history {entries}\n")
}

fn premise_line(held: bool) -> &'static [u8]
    ensures { result.now ≡ spec.premise_text held }
{
    if held {
        b"premise: held\n"
    } else {
        b"premise: broken\n"
    }
}

fn tree_lines(alloc: Global, tree: &Tree) -> Result<Vec<u8>, AllocError>
    ensures { IfOk result (λ lines. lines.items ≡ flat_map spec.resource_text (map.entries tree.now)) }
{
    let mut lines = Vec::new(alloc);
    for (path, resource) in tree.iter() {
        lines.extend_from_slice(&resource_line(alloc, path, resource)?)?;
    }
    Ok(lines)
}

// `tree PATH FORMAT BYTES`.
fn resource_line(alloc: Global, path: &Path, resource: &Resource) -> Result<Vec<u8>, AllocError>
    ensures { IfOk result (λ line. line.items ≡ spec.resource_text (path.now, resource.now)) }
{
    let value = value_text(alloc, resource)?;
    let mut line = Vec::from_slice(alloc, b"tree ")?;
    line.extend_from_slice(path.text())?;
    line.push(b' ')?;
    line.extend_from_slice(value.as_bytes())?;
    line.push(b'\n')?;
    Ok(line)
}

// A resource's Content-Format and its payload.
fn value_text(alloc: Global, resource: &Resource) -> Result<String, AllocError>
    ensures { IfOk result (λ part. string_bytes part ≡ text.format_text resource.now.format ++ codes " " ++ text.short_text resource.now.payload) }
{
    let format = format_text(alloc, resource.format)?;
    let payload = short_text(alloc, resource.payload.as_slice())?;
    format!(in alloc; "{format} {payload}")
}

/// A Content-Format, or `none`.
pub(crate) fn format_text(alloc: Global, format: Option<u16>) -> Result<String, AllocError>
    ensures { IfOk result (λ part. string_bytes part ≡ text.format_text format) }
{
    match format {
        None => "none".to_string(alloc),
        Some(format) => format.to_string(alloc),
    }
}

/// Bytes in hexadecimal, `-` for none, or only how many there are where they are more than 32.
pub(crate) fn short_text(alloc: Global, bytes: &[u8]) -> Result<String, AllocError>
    ensures { IfOk result (λ part. string_bytes part ≡ text.short_text bytes.now) }
{
    if bytes.len() > 32 {
        return format!(in alloc; "bytes={}", bytes.len());
    }
    bytes_text(alloc, bytes)
}

fn bytes_text(alloc: Global, bytes: &[u8]) -> Result<String, AllocError>
    ensures { IfOk result (λ part. string_bytes part ≡ text.bytes_text bytes.now) }
{
    if bytes.is_empty() {
        return "-".to_string(alloc);
    }
    hex::encode(alloc, bytes)
}

/// What a client's entries are answered alone: `alone CLIENT NUMBER CODE` for each.
pub(crate) fn alone_text(
    alloc: Global,
    client: ClientName,
    answers: &[(u64, Reply)],
) -> Result<Vec<u8>, AllocError>
    ensures { IfOk result (λ lines. lines.items ≡ spec.alone_text (client_name client) answers.now) }
{
    let mut lines = Vec::new(alloc);
    for answer in answers {
        lines.extend_from_slice(alone_line(alloc, client, answer)?.as_bytes())?;
    }
    Ok(lines)
}

fn alone_line(
    alloc: Global,
    client: ClientName,
    answer: &(u64, Reply),
) -> Result<String, AllocError>
    ensures { IfOk result (λ line. string_bytes line ≡ spec.alone_line (client_name client) answer.now) }
{
    let client = client.name();
    let code = answer.1.code;
    format!(in alloc; "alone {client} {} {code}\n", answer.0)
}

/// Each line of the text after this number: `N: `.
pub(crate) fn numbered(alloc: Global, number: usize, text: &[u8]) -> Result<Vec<u8>, AllocError>
    ensures { IfOk result (λ lines. lines.items ≡ spec.numbered number text.now) }
{
    let words = number_words(alloc, number)?;
    words_before(alloc, words.as_bytes(), text)
}

fn number_words(alloc: Global, number: usize) -> Result<String, AllocError>
    ensures { IfOk result (λ words. string_bytes words ≡ decimal number ++ codes ": ") }
{
    format!(in alloc; "{number}: ")
}

// These words before each line of the text.
fn words_before(alloc: Global, words: &[u8], text: &[u8]) -> Result<Vec<u8>, AllocError>
    ensures { IfOk result (λ lines. lines.items ≡ spec.words_before words.now true text.now) }
{
    let mut lines = Vec::new(alloc);
    let mut begins = true;
    for byte in text {
        add_byte(&mut lines, words, begins, *byte)?;
        begins = *byte == b'\n';
    }
    Ok(lines)
}

// The byte, after the words where a line begins with it.
fn add_byte(lines: &mut Vec<u8>, words: &[u8], begins: bool, byte: u8) -> Result<(), AllocError>
    ensures { OnOk result (lines.new.items ≡ lines.old.items ++ (if begins then words.now else []) ++ byte ∷ []) }
{
    if begins {
        lines.extend_from_slice(words)?;
    }
    Ok(lines.push(byte)?)
}

/// `line N: bad`.
pub fn bad_line_text(alloc: Global, number: u64) -> Result<String, AllocError>
    ensures { IfOk result (λ line. string_bytes line ≡ spec.bad_line_text number) }
{
    format!(in alloc; "line {number}: bad\n")
}
