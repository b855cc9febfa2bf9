//! A node starts again between two events of a run: what is assumed holds still, and what was asked to be put is there once, or not.

use crate::sweeps::traces::{holds_one_letter, is_held, trace_of};
use std::alloc::{AllocError, Global};
use std::process::Abort;
use std::test::*;

/// An exchange, a POST and a GET, straight: what sets up, and each event.
const STRAIGHT: (&str, [&str; 9]) = (
    "grant c1 /log:GET+POST\n",
    [
        "exchange c1\n",
        "deliver 1\n",
        "deliver 2\n",
        "ask c1 POST /log 61\n",
        "deliver 3\n",
        "deliver 4\n",
        "ask c1 GET /log -\n",
        "deliver 5\n",
        "deliver 6\n",
    ],
);

/// An exchange and a POST through a proxy, which starts again before the answer comes to it, and what the client sends again then.
const BY_PROXY: (&str, [&str; 19]) = (
    "grant c1 /log:POST\nvia c1 p1\n",
    [
        "exchange c1\n",
        "deliver 1\n",
        "deliver 2\n",
        "deliver 3\n",
        "deliver 4\n",
        "deliver 5\n",
        "deliver 6\n",
        "ask c1 POST /log 61\n",
        "deliver 7\n",
        "deliver 9\n",
        "drop 8\nrestart p1\n",
        "at 2000\ntick c1\n",
        "deliver 10\n",
        "deliver 11\n",
        "deliver 12\n",
        "deliver 13\n",
        "deliver 14\n",
        "deliver 15\n",
        "deliver 16\n",
    ],
);

/// What stands for a delivery after the restart, where whatever waits comes then.
fn quietly(line: &str) -> &str {
    if line.starts_with("deliver ") {
        "quiet\n"
    } else {
        line
    }
}

/// The run with a restart of the node after this number of its events. Each datagram of the run comes after it still, or whatever waits
/// in its place, and at last whatever waits.
fn script(
    alloc: Global,
    first: &str,
    events: &[&str],
    node: &str,
    place: usize,
    quiet: bool,
) -> Result<String, AllocError> {
    let mut script = first.to_string(alloc)?;
    for (number, line) in events.iter().enumerate() {
        if number == place {
            let restart = format!(in alloc; "restart {node}\n")?;
            script.push_str(&restart)?;
        }
        let line = if quiet && number >= place {
            quietly(line)
        } else {
            line
        };
        script.push_str(line)?;
    }
    script.push_str("quiet\n")?;
    Ok(script)
}

/// Whether what is wanted of the script is so.
fn goes_well(alloc: Global, script: Result<String, AllocError>) -> bool {
    match script {
        Ok(script) => match trace_of(alloc, script.as_bytes(), false) {
            Some(trace) => is_held(&trace) && holds_one_letter(&trace),
            None => false,
        },
        Err(_) => false,
    }
}

/// Each node in turn starts again before each event.
fn sweeps(rt: &impl Abort, alloc: Global, first: &str, events: &[&str], nodes: &[&str]) {
    for node in nodes {
        for place in 0..events.len() {
            for &quiet in &[false, true] {
                assert!(rt;
                    goes_well(alloc, script(alloc, first, events, node, place, quiet)),
                    "{node} before event {place}"
                );
            }
        }
    }
}

#[test]
fn a_restart_at_each_place_of_a_straight_run(rt: HostRuntime) {
    let (first, events) = STRAIGHT;
    sweeps(&rt, rt.alloc(), first, &events, &["s", "c1"]);
}

#[test]
fn a_restart_at_each_place_of_a_run_by_proxy(rt: HostRuntime) {
    let (first, events) = BY_PROXY;
    sweeps(&rt, rt.alloc(), first, &events, &["s", "c1", "p1"]);
}
