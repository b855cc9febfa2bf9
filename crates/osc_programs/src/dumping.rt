//! The resources of a store as settings name them: TOML 1.0.0, of which each line ends in a line feed.
ghost use Rattle.std.specs.FinMap as map;
ghost use Rattle.std.specs.Prelude.{◌≡◌, ◌++◌, IfOk, OnOk, drop, string_bytes};
ghost use Rattle.std.specs.List.{flat_map};
ghost use Rattle.std.specs.Str.{chars};
ghost use Rattle.osc_programs.specs.Storing as spec;

use osc_model::{Bytes, Path, Resource};
use osc_tree::Tree;
use std::alloc::{AllocError, Global};
use std::str;

/// A table `[[resource]]` for each resource, in the order of the bytes of their paths, with an empty line between two. Settings read each as the
/// same resource.
pub(crate) fn dump_text(alloc: Global, tree: &Tree) -> Result<Vec<u8>, AllocError>
    ensures { IfOk result (λ text. text.items ≡ spec.dump_lines tree.now) }
{
    let text = tables(alloc, tree)?;
    Vec::from_slice(alloc, without_first(&text))
}

fn without_first(text: &[u8]) -> &[u8]
    ensures { result.now ≡ drop 1 text.now }
{
    match text.split_first() {
        Some((_first, rest)) => rest,
        None => text,
    }
}

// The tables, each after an empty line.
fn tables(alloc: Global, tree: &Tree) -> Result<Vec<u8>, AllocError>
    ensures { IfOk result (λ text. text.items ≡ flat_map spec.dump_table (map.entries tree.now)) }
{
    let mut text = Vec::new(alloc);
    for (path, resource) in tree.iter() {
        text.extend_from_slice(&table(alloc, path, resource)?)?;
    }
    Ok(text)
}

#[tactic(auto, unfolding(crate::specs::Storing::dump_table))]
fn table(alloc: Global, path: &Path, resource: &Resource) -> Result<Vec<u8>, AllocError>
    ensures { IfOk result (λ text. text.items ≡ spec.dump_table (path.now, resource.now)) }
{
    let path = path_line(alloc, path)?;
    let format = format_line(alloc, resource.format)?;
    let payload = payload_line(alloc, &resource.payload)?;
    let mut text = Vec::from_slice(alloc, b"\n[[resource]]\n")?;
    text.extend_from_slice(&path)?;
    text.extend_from_slice(format.as_bytes())?;
    text.extend_from_slice(&payload)?;
    Ok(text)
}

fn path_line(alloc: Global, path: &Path) -> Result<Vec<u8>, AllocError>
    ensures { IfOk result (λ text. text.items ≡ spec.path_line path.now) }
{
    let quoted = quoted(alloc, path)?;
    let mut text = Vec::from_slice(alloc, b"path = \"")?;
    text.extend_from_slice(quoted.as_bytes())?;
    text.extend_from_slice(b"\"\n")?;
    Ok(text)
}

fn quoted(alloc: Global, path: &Path) -> Result<String, AllocError>
    ensures { IfOk result (λ text. string_bytes text ≡ flat_map spec.quoted_char (chars path.now)) }
{
    match str::from_utf8(path.text()) {
        Ok(text) => quoted_text(alloc, text),
        // The text of a path is UTF-8.
        Err(_) => unreachable!(),
    }
}

fn quoted_text(alloc: Global, text: &str) -> Result<String, AllocError>
    ensures { IfOk result (λ quoted. string_bytes quoted ≡ flat_map spec.quoted_char (chars text.now)) }
{
    let letters = letters_of(alloc, text)?;
    quoted_chars(alloc, &letters)
}

fn letters_of(alloc: Global, text: &str) -> Result<Vec<char>, AllocError>
    ensures { IfOk result (λ letters. letters.items ≡ chars text.now) }
{
    text.chars().collect(alloc)
}

fn quoted_chars(alloc: Global, letters: &[char]) -> Result<String, AllocError>
    ensures { IfOk result (λ quoted. string_bytes quoted ≡ flat_map spec.quoted_char letters.now) }
{
    let mut text = String::new(alloc);
    for letter in letters {
        add_quoted(alloc, &mut text, *letter)?;
    }
    Ok(text)
}

fn add_quoted(alloc: Global, text: &mut String, letter: char) -> Result<(), AllocError>
    ensures { OnOk result (string_bytes text.new ≡ string_bytes text.old ++ spec.quoted_char letter) }
{
    if is_escaped(letter) {
        let number = hex::encode(alloc, (letter as u16).to_be_bytes().as_slice())?;
        text.push_str("\\u")?;
        text.push_str(number.as_str())
    } else {
        text.push(letter)
    }
}

// Whether it can't stand for itself in a basic string, or would move a cursor.
fn is_escaped(letter: char) -> bool
    ensures { result ≡ spec.is_escaped letter }
{
    letter.is_control() || letter == '"' || letter == '\\'
}

fn format_line(alloc: Global, format: Option<u16>) -> Result<String, AllocError>
    ensures { IfOk result (λ text. string_bytes text ≡ spec.format_line format) }
{
    match format {
        Some(format) => format!(in alloc; "format = {format}\n"),
        None => Ok(String::new(alloc)),
    }
}

fn payload_line(alloc: Global, payload: &Bytes) -> Result<Vec<u8>, AllocError>
    ensures { IfOk result (λ text. text.items ≡ spec.payload_line payload.now) }
{
    let digits = hex::encode(alloc, payload.as_slice())?;
    let mut text = Vec::from_slice(alloc, b"hex = \"")?;
    text.extend_from_slice(digits.as_bytes())?;
    text.extend_from_slice(b"\"\n")?;
    Ok(text)
}
