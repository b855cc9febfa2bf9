//! Scripts as bytes, and what their traces say.

use osc_simulation::{TraceForm, trace_script};
use std::alloc::{AllocError, Global};

/// The trace of the script; none where a line of it is bad or memory runs out.
pub(crate) fn trace_of(alloc: Global, script: &[u8], with_bytes: bool) -> Option<Vec<u8>> {
    let mut text = Vec::new(alloc);
    let form = TraceForm {
        bytes: with_bytes,
        lines: false,
    };
    match trace_script(alloc, script, form, None, &mut text) {
        Ok(()) => Some(text),
        Err(_) => None,
    }
}

/// Three parts of a script, one after another.
pub(crate) fn joined(
    alloc: Global,
    before: &[u8],
    between: &[u8],
    after: &[u8],
) -> Result<Vec<u8>, AllocError> {
    let mut script = Vec::from_slice(alloc, before)?;
    script.extend_from_slice(between)?;
    script.extend_from_slice(after)?;
    Ok(script)
}

/// How many lines of the text begin so.
pub(crate) fn count_lines(text: &[u8], beginning: &[u8]) -> usize {
    let mut count = 0usize;
    for line in text.split(|byte| *byte == b'\n') {
        if line.starts_with(beginning) {
            count = count.saturating_add(1);
        }
    }
    count
}

/// The last word of the last line that begins so; nothing where none does.
pub(crate) fn last_word<'a>(text: &'a [u8], beginning: &[u8]) -> &'a [u8] {
    let mut last: &[u8] = b"";
    for line in text.split(|byte| *byte == b'\n') {
        if line.starts_with(beginning) {
            last = word_at_end(line);
        }
    }
    last
}

fn word_at_end(line: &[u8]) -> &[u8] {
    let mut last = line;
    for word in line.split(|byte| *byte == b' ') {
        last = word;
    }
    last
}

/// Whether what is assumed of the run held.
pub(crate) fn is_held(text: &[u8]) -> bool {
    text.ends_with(b"premise: held\n")
}

/// Whether there is no resource but `/log`, and that holds `a`.
pub(crate) fn holds_one_letter(text: &[u8]) -> bool {
    count_lines(text, b"tree ") == count_lines(text, b"tree /log none 61")
}

/// Whether what is assumed held, and no request was served and there is no resource, or one was served and `/log` holds `a`.
pub(crate) fn is_all_or_nothing(text: &[u8]) -> bool {
    if text.ends_with(b"tree /log none 61\nhistory 1\npremise: held\n") {
        return count_lines(text, b"tree ") == 1;
    }
    text.ends_with(b"history 0\npremise: held\n") && count_lines(text, b"tree ") == 0
}
