//! Each proper beginning of the four datagrams from the token to the first answer, from who sent the whole: it serves nothing, and
//! gives the client neither a context nor an answer. The run goes on to one answer, or to none.

use crate::sweeps::first_answer::{DATAGRAMS, Waiting, digits};
use crate::sweeps::traces::{count_lines, is_all_or_nothing, joined, trace_of};
use std::alloc::{AllocError, Global};
use std::test::*;

/// How many requests were served, and how many contexts and answers the client got, in this trace.
fn gives(trace: &[u8]) -> (usize, usize, usize) {
    (
        count_lines(trace, b"served "),
        count_lines(trace, b"c1 context"),
        count_lines(trace, b"c1 answer "),
    )
}

/// The line by which these digits come where the datagram waits.
fn line(alloc: Global, waiting: &Waiting, digits: &[u8]) -> Result<Vec<u8>, AllocError> {
    let way = waiting.way;
    let inject = format!(in alloc; "inject {way} ")?;
    let bytes = if digits.is_empty() { b"-" } else { digits };
    joined(alloc, inject.as_bytes(), bytes, b"\n")
}

/// The trace of the script up to where the datagram waits, this line, and what follows it.
fn trace_with(alloc: Global, waiting: &Waiting, line: &[u8], after: &[u8]) -> Option<Vec<u8>> {
    let script = joined(alloc, waiting.before, line, after).ok()?;
    trace_of(alloc, &script, false)
}

/// Whether this line gives nothing where the datagram waits, and the run goes on well after it.
fn gives_nothing(alloc: Global, waiting: &Waiting, line: &[u8]) -> Option<bool> {
    let without = trace_with(alloc, waiting, b"", b"")?;
    let with = trace_with(alloc, waiting, line, b"")?;
    let whole = trace_with(alloc, waiting, line, waiting.after)?;
    Some(gives(&with) == gives(&without) && is_all_or_nothing(&whole))
}

/// The same of these digits of the datagram.
fn does_nothing(alloc: Global, waiting: &Waiting, digits: &[u8]) -> bool {
    match line(alloc, waiting, digits) {
        Ok(line) => gives_nothing(alloc, waiting, &line) == Some(true),
        Err(_) => false,
    }
}

/// The digits of the first `bytes` bytes.
fn front(digits: &[u8], bytes: usize) -> &[u8] {
    match digits.get(..bytes.saturating_mul(2)) {
        Some(front) => front,
        None => digits,
    }
}

#[test]
fn each_beginning_of_the_first_datagrams(rt: HostRuntime) -> Result<(), Fail> {
    for waiting in &DATAGRAMS {
        let number = waiting.number;
        let digits = digits(rt.alloc(), waiting).ok_or("a datagram")?;
        assert!(rt; digits.len() > 40, "datagram {number}");
        for bytes in 0..digits.len() / 2 {
            assert!(rt;
                does_nothing(rt.alloc(), waiting, front(&digits, bytes)),
                "datagram {number}, {bytes} bytes"
            );
        }
        // The whole gives a context, an entry or an answer, but for the post of the token, of which the server alone makes a context.
        let gives_none = does_nothing(rt.alloc(), waiting, &digits);
        assert!(rt; gives_none == (number == 1), "datagram {number}");
    }
    Ok(())
}
