//! Whether what is assumed of a run holds: of a run as it should be, and of runs that break one part of it.
use crate::steps::{CLAIMS, FIRST, GRANTS, RUN, Row, Use, minted, run};
use osc_run::Minted;
use std::alloc::Global;
use std::process::Abort;

/// The grants of these secrets and claims.
fn grants(rt: &impl Abort, alloc: Global, pairs: &[(u8, u8)]) -> Vec<Minted> {
    let mut all = Vec::new(alloc);
    for (secret, claims) in pairs {
        all.push(minted(rt, alloc, *secret, *claims))
            .expect(rt, "memory");
    }
    all
}

/// Whether it holds of these steps and grants.
fn holds(rt: &impl Abort, alloc: Global, rows: &[Row], pairs: &[(u8, u8)]) -> bool {
    let notes = run(rt, alloc, rows);
    let grants = grants(rt, alloc, pairs);
    let holds = notes.premise_holds(&grants);
    drop(grants);
    drop(notes);
    holds
}

/// Whether it holds of the run with another step in this place.
fn holds_with(rt: &impl Abort, alloc: Global, place: usize, row: Row) -> bool {
    let mut rows = RUN;
    rows[place % RUN.len()] = row;
    holds(rt, alloc, &rows, &GRANTS)
}

#[test]
fn a_run_as_it_should_be(rt: HostRuntime) {
    assert!(rt; holds(&rt, rt.alloc(), &RUN, &GRANTS));
    assert!(rt; holds(&rt, rt.alloc(), &[], &[]));
}

/// The request of number 0 with one part changed.
const OTHERS: [Use; 4] = [
    Use { secret: 8, ..FIRST },
    Use { nonce: 1, ..FIRST },
    Use { aad: 1, ..FIRST },
    Use { text: 1, ..FIRST },
];

/// What opened was sealed otherwise, or not at all, or only later, or by the end that opens it.
#[test]
fn what_opens_was_sealed(rt: HostRuntime) {
    for &other in &OTHERS {
        assert!(rt; !holds_with(&rt, rt.alloc(), 5, Row::Served(other)));
    }
    // The text of a reply is its own.
    for other in &OTHERS[..3] {
        assert!(rt; !holds_with(&rt, rt.alloc(), 6, Row::Answered(*other)));
    }
    assert!(rt; !holds_with(&rt, rt.alloc(), 3, Row::Relayed));
    assert!(rt; !holds_with(&rt, rt.alloc(), 2, Row::Served(FIRST)));
    assert!(rt; !holds_with(&rt, rt.alloc(), 6, Row::Reflected(FIRST)));
}

/// The number of what was sealed isn't compared: nonce and associated data say it.
#[test]
fn numbers_are_not_compared(rt: HostRuntime) {
    let other = Use { number: 3, ..FIRST };
    assert!(rt; holds_with(&rt, rt.alloc(), 6, Row::Answered(other)));
}

#[test]
fn what_opens_as_a_token_was_minted(rt: HostRuntime) {
    assert!(rt; holds_with(&rt, rt.alloc(), 1, Row::Posted(CLAIMS + 1, 2)));
    assert!(rt; !holds_with(&rt, rt.alloc(), 1, Row::Posted(CLAIMS + 2, 2)));
    assert!(rt; !holds(&rt, rt.alloc(), &RUN, &[]));
}

#[test]
fn no_nonce_is_drawn_twice(rt: HostRuntime) {
    assert!(rt; !holds_with(&rt, rt.alloc(), 1, Row::Posted(CLAIMS, 1)));
    assert!(rt; !holds_with(&rt, rt.alloc(), 4, Row::Started(1)));
    assert!(rt; !holds_with(&rt, rt.alloc(), 4, Row::Started(2)));
    assert!(rt; holds_with(&rt, rt.alloc(), 4, Row::Started(3)));
}

#[test]
fn no_secret_is_shared(rt: HostRuntime) {
    let (secret, claims) = GRANTS[0];
    let same = [GRANTS[0], GRANTS[1], (secret, claims + 2)];
    assert!(rt; !holds(&rt, rt.alloc(), &RUN, &same));
    let other = [GRANTS[0], GRANTS[1], (secret + 2, claims)];
    assert!(rt; holds(&rt, rt.alloc(), &RUN, &other));
}
