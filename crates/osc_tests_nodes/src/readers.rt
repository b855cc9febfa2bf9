//! What was served, asked and accepted in a run.
use crate::steps::{RUN, Row, run};
use osc_run::Notes;
use std::alloc::Global;
use std::process::Abort;

/// The numbers of what was served.
fn served(rt: &impl Abort, alloc: Global, notes: &Notes) -> Vec<u64> {
    let history = notes.history(alloc).expect(rt, "memory");
    let mut numbers = Vec::new(alloc);
    for entry in history {
        numbers.push(entry.number).expect(rt, "memory");
    }
    numbers
}

/// The numbers of what was asked, each with whether it was a lie.
fn asked(rt: &impl Abort, alloc: Global, notes: &Notes) -> Vec<(u64, bool)> {
    let asked = notes.asked(alloc).expect(rt, "memory");
    let mut numbers = Vec::new(alloc);
    for question in asked {
        numbers
            .push((question.number, question.lied))
            .expect(rt, "memory");
    }
    numbers
}

/// The numbers of what was accepted.
fn accepted(rt: &impl Abort, alloc: Global, notes: &Notes) -> Vec<u64> {
    let accepted = notes.accepted(alloc).expect(rt, "memory");
    let mut numbers = Vec::new(alloc);
    for acceptance in accepted {
        numbers.push(acceptance.number).expect(rt, "memory");
    }
    numbers
}

/// Whether these are the numbers that were served, asked and accepted in the steps.
fn reads(
    rt: &impl Abort,
    alloc: Global,
    rows: &[Row],
    numbers: (&[u64], &[(u64, bool)], &[u64]),
) -> bool {
    let notes = run(rt, alloc, rows);
    let (served, asked) = (served(rt, alloc, &notes), asked(rt, alloc, &notes));
    let accepted = accepted(rt, alloc, &notes);
    drop(notes);
    served.as_slice() == numbers.0
        && asked.as_slice() == numbers.1
        && accepted.as_slice() == numbers.2
}

#[test]
fn what_is_read(rt: HostRuntime) {
    let all: (&[u64], &[(u64, bool)], &[u64]) = (
        &[0, 1],
        &[(0, false), (1, false), (1, true)],
        &[0],
    );
    assert!(rt; reads(&rt, rt.alloc(), &RUN, all));
    assert!(rt; reads(&rt, rt.alloc(), &[], (&[], &[], &[])));
}
