//! Scripts that are drawn, with lies, restarts, losses, copies that are altered and grafted, and datagrams that nobody sent: where there is memory,
//! none lacks it, and the server answers 5.00 to nobody.

use crate::sweeps::drawing::{Draws, script};
use crate::sweeps::traces::{count_lines, trace_of};
use std::alloc::Global;
use std::process::Abort;
use std::test::*;

/// How many scripts are drawn from one seed, and how many lines of events each has.
const SCRIPTS: usize = 100;

const EVENTS: usize = 100;

fn has(line: &[u8], part: &[u8]) -> bool {
    line.windows(part.len().max(1))
        .position(|beside| beside == part)
        != None
}

/// Whether the line says that the server answered 5.00, outside or inside a protected reply.
fn is_internal_error(line: &[u8]) -> bool {
    if line.starts_with(b"served ") {
        return line.ends_with(b" 5.00");
    }
    line.starts_with(b"sent ") && has(line, b" s>") && has(line, b" 5.00")
}

/// Whether no line says so.
fn has_no_internal_error(trace: &[u8]) -> bool {
    let mut none = true;
    for line in trace.split(|byte| *byte == b'\n') {
        none = none && !is_internal_error(line);
    }
    none
}

/// Whether a script's run went well, and whether it served something.
fn run(alloc: Global, draws: &mut Draws) -> (bool, bool) {
    let Ok(script) = script(alloc, draws, EVENTS) else {
        return (false, false);
    };
    match trace_of(alloc, &script, false) {
        Some(trace) => (
            has_no_internal_error(&trace),
            count_lines(&trace, b"served ") > 0,
        ),
        None => (false, false),
    }
}

/// Draws scripts from this seed: each goes well, and most of them serve something.
fn draws(rt: &impl Abort, alloc: Global, seed: u64) {
    let mut draws = Draws::from_seed(seed);
    let mut serving = 0usize;
    for number in 0..SCRIPTS {
        let (well, serves) = run(alloc, &mut draws);
        assert!(rt; well, "script {number}");
        if serves {
            serving = serving.saturating_add(1);
        }
    }
    assert!(rt; serving > SCRIPTS / 2, "{serving} of them serve something");
}

#[test]
fn the_first_hundred_scripts(rt: HostRuntime) {
    draws(&rt, rt.alloc(), 1);
}

#[test]
fn the_second_hundred_scripts(rt: HostRuntime) {
    draws(&rt, rt.alloc(), 2);
}

#[test]
fn the_third_hundred_scripts(rt: HostRuntime) {
    draws(&rt, rt.alloc(), 3);
}

#[test]
fn the_fourth_hundred_scripts(rt: HostRuntime) {
    draws(&rt, rt.alloc(), 4);
}
