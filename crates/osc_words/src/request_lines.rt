//! Requests in a file, one a line.
ghost use Rattle.std.specs.Prelude.{◌≡◌, ◌↔◌, ℕ, Err, IfOk, IsTrue, map, option_map};
ghost use Rattle.osc_script.specs.{IsSkipped, Reads, SpellsShortNumber, words_of};
ghost use Rattle.osc_words.specs.ClientWords.{SpellsMethod};
ghost use Rattle.osc_words.specs.RequestLines as spec;
ghost use Rattle.osc_words.specs.Values.{IsGiven};

use osc_model::{Bytes, Code, ETags, Path, Request};
use osc_script::{ScriptError, values};
use std::alloc::{AllocError, Global};
use std::str;

/// The requests that a text says: for each of its lines one, or none where the line is empty or begins with `#`.
///
/// A line is `METHOD PATH [HEX] [format=N]`, with one space between words: the payload is none where `HEX` isn't there.
///
/// # Errors
///
/// `BadLine` with the number of the first line that says nothing, counted from 1; `OutOfMemory` says nothing of the text.
pub fn read_requests(alloc: Global, text: &[u8]) -> Result<Vec<Option<Request>>, ScriptError>
    ensures read { IfOk result (λ said. spec.Say (spec.lines_of text.now) said.items) }
    ensures bad { (n : ℕ) → result ≡ Err (ScriptError.BadLine n) → spec.IsFirstBad (spec.lines_of text.now) n }
{
    let lines = lines(alloc, text)?;
    read_lines(alloc, &lines)
}

// What each of them says.
fn read_lines(alloc: Global, lines: &[&[u8]]) -> Result<Vec<Option<Request>>, ScriptError>
    ensures read { IfOk result (λ said. spec.Say (map (λ line. line.now) lines.now) said.items) }
    ensures bad { (n : ℕ) → result ≡ Err (ScriptError.BadLine n) → spec.IsFirstBad (map (λ line. line.now) lines.now) n }
{
    let mut said = Vec::new(alloc);
    for line in lines {
        let Some(request) = line_in(alloc, line)? else {
            return Err(ScriptError::BadLine(said.len() as u64 + 1));
        };
        said.push(request)?;
    }
    Ok(said)
}

// What one line says, if it says anything.
fn line_in(alloc: Global, line: &[u8]) -> Result<Option<Option<Request>>, AllocError>
    ensures { IfOk result (λ found. Reads (spec.Says line.now) found) }
{
    if is_skipped(line) {
        return Ok(Some(None));
    }
    let Ok(text) = str::from_utf8(line) else {
        return Ok(None);
    };
    match request_of(alloc, text)? {
        Some(request) => Ok(Some(Some(request))),
        None => Ok(None),
    }
}

fn is_skipped(line: &[u8]) -> bool
    ensures { IsTrue result ↔ IsSkipped line.now }
{
    match line {
        [] => true,
        [first, ..] => *first == b'#',
    }
}

// The lines of a text.
fn lines(alloc: Global, text: &[u8]) -> Result<Vec<&[u8]>, AllocError>
    ensures { IfOk result (λ lines. map (λ line. line.now) lines.items ≡ spec.lines_of text.now) }
{
    text.split(|b| *b == b'\n').collect(alloc)
}

// ---- one request

// The request that a line says.
fn request_of(alloc: Global, line: &str) -> Result<Option<Request>, AllocError>
    ensures { IfOk result (λ found. Reads (spec.SaysRequest line.now) found) }
{
    let words = words(alloc, line)?;
    request_in(alloc, &words)
}

// The words of a line.
fn words(alloc: Global, line: &str) -> Result<Vec<&str>, AllocError>
    ensures { IfOk result (λ words. map (λ word. word.now) words.items ≡ words_of line.now) }
{
    line.split(' ').collect(alloc)
}

// The request of these words.
fn request_in(alloc: Global, words: &[&str]) -> Result<Option<Request>, AllocError>
    ensures { IfOk result (λ found. Reads (spec.IsRequestIn (spec.parts_of (map (λ word. word.now) words.now))) found) }
{
    match words {
        [method, path] => request(alloc, method, path, "", None),
        [method, path, word] => request_of_three(alloc, method, path, word),
        [method, path, hex, word] => request_of_four(alloc, method, path, hex, word),
        [] => Ok(None),
        [_] => Ok(None),
        [_, _, _, _, _, ..] => Ok(None),
    }
}

// That of three.
fn request_of_three(
    alloc: Global,
    method: &str,
    path: &str,
    word: &str,
) -> Result<Option<Request>, AllocError>
    ensures { IfOk result (λ found. Reads (spec.IsRequestOf (spec.with_third method.now path.now word.now (spec.format_digits word.now))) found) }
{
    match format_digits(word) {
        Some(digits) => request(alloc, method, path, "", Some(digits)),
        None => request(alloc, method, path, word, None),
    }
}

// That of four.
fn request_of_four(
    alloc: Global,
    method: &str,
    path: &str,
    hex: &str,
    word: &str,
) -> Result<Option<Request>, AllocError>
    ensures { IfOk result (λ found. Reads (spec.IsRequestIn (spec.with_fourth method.now path.now hex.now (spec.format_digits word.now))) found) }
{
    match format_digits(word) {
        Some(digits) => request(alloc, method, path, hex, Some(digits)),
        None => Ok(None),
    }
}

// What is after `format=` in a word that begins so.
fn format_digits(word: &str) -> Option<&[u8]>
    ensures { option_map (λ digits. digits.now) result ≡ spec.format_digits word.now }
{
    word.as_bytes().strip_prefix(b"format=")
}

// The request of these parts.
fn request(
    alloc: Global,
    method: &str,
    path: &str,
    hex: &str,
    digits: Option<&[u8]>,
) -> Result<Option<Request>, AllocError>
    ensures { IfOk result (λ found. Reads (spec.IsRequestOf (record { method = method.now; path = path.now; hex = hex.now; digits = option_map (λ digits. digits.now) digits.entry })) found) }
{
    let Some(code) = code(method) else {
        return Ok(None);
    };
    let Some(format) = format(digits) else {
        return Ok(None);
    };
    let Some(path) = Path::from_text(alloc, path.as_bytes())? else {
        return Ok(None);
    };
    let Some(payload) = values::bytes(alloc, hex)? else {
        return Ok(None);
    };
    Ok(Some(Request {
        code,
        format,
        path: Some(path),
        payload,
        accept: None,
        if_match: ETags::new(alloc),
        if_none_match: false,
    }))
}

fn code(method: &str) -> Option<Code>
    ensures { Reads (SpellsMethod method.now) result }
{
    match values::method(method) {
        Some(method) => Some(method.code()),
        None => None,
    }
}

// The format of these digits, where there are any.
fn format(digits: Option<&[u8]>) -> Option<Option<u16>>
    ensures { Reads (IsGiven SpellsShortNumber (option_map (λ digits. digits.now) digits.entry)) result }
{
    match digits {
        None => Some(None),
        Some(digits) => match short_number(digits) {
            Some(format) => Some(Some(format)),
            None => None,
        },
    }
}

fn short_number(digits: &[u8]) -> Option<u16>
    ensures { Reads (SpellsShortNumber digits.now) result }
{
    match values::decimal(digits) {
        Some(number) => u16::try_from(number).ok(),
        None => None,
    }
}
