//! Each bit of the four datagrams from the token to the first answer, altered in a copy that comes just before the datagram itself: the
//! request is served once, or nothing is.

use crate::sweeps::first_answer::{DATAGRAMS, Waiting, digits};
use crate::sweeps::traces::{is_all_or_nothing, joined, trace_of};
use std::alloc::{AllocError, Global};
use std::test::*;

/// The bits of a byte.
const BITS: [&str; 8] = ["01", "02", "04", "08", "10", "20", "40", "80"];

/// The script in which a copy with this bit altered comes first.
fn script(
    alloc: Global,
    waiting: &Waiting,
    offset: usize,
    bit: &str,
) -> Result<Vec<u8>, AllocError> {
    let number = waiting.number;
    let alter = format!(in alloc; "alter {number} {offset} {bit}\n")?;
    joined(alloc, waiting.before, alter.as_bytes(), waiting.after)
}

/// Whether what is wanted of the run is so.
fn goes_well(alloc: Global, waiting: &Waiting, offset: usize, bit: &str) -> bool {
    match script(alloc, waiting, offset, bit) {
        Ok(script) => match trace_of(alloc, &script, false) {
            Some(trace) => is_all_or_nothing(&trace),
            None => false,
        },
        Err(_) => false,
    }
}

/// How many bytes the datagram has.
fn length(alloc: Global, waiting: &Waiting) -> usize {
    match digits(alloc, waiting) {
        Some(digits) => digits.len() / 2,
        None => 0,
    }
}

#[test]
fn each_bit_of_the_first_datagrams(rt: HostRuntime) {
    for waiting in &DATAGRAMS {
        let number = waiting.number;
        let length = length(rt.alloc(), waiting);
        assert!(rt; length > 20, "datagram {number}");
        for offset in 0..length {
            for &bit in &BITS {
                assert!(rt;
                    goes_well(rt.alloc(), waiting, offset, bit),
                    "datagram {number}, byte {offset}, bit {bit}"
                );
            }
        }
    }
}
