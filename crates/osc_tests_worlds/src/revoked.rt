//! Tokens that are revoked and let in again between each two calls of a holder, and contexts that get too old.

use crate::common::{asks_for, begun, exchanges, history, is_enrolled, start, takes_place};
use crate::quiet::{is_quiet, settles};
use osc_authz::ContextRules;
use osc_fixtures::{DELETE, POST, PUT, at, drawn, own, request, straight};
use osc_model::Path;
use osc_tree::Tree;
use osc_world::{Event, What, World};
use std::alloc::Global;
use std::process::Abort;
use std::test::*;

/// PUT and DELETE on the path that revokes the guest's token.
pub(crate) const OWNER: &[u8] = b"\x81\x82\x6b/revoked/01\x0c";

/// GET and POST on `/log`.
const GUEST: &[u8] = b"\x81\x82\x64/log\x03";

/// The same, and PUT on the path that revokes its own token.
const LEAVING: &[u8] = b"\x82\x82\x64/log\x03\x82\x6b/revoked/01\x04";

/// The calls of the guest, each with the numbers of its two events.
const CALLS: [(u8, u8, u8); 4] = [(0, 210, 211), (1, 212, 213), (2, 214, 215), (3, 216, 217)];

/// Before which of them its token is revoked, and before which it is let in again.
const TURNS: [(u8, u8); 10] = [
    (0, 1),
    (0, 2),
    (0, 3),
    (0, 4),
    (1, 2),
    (1, 3),
    (1, 4),
    (2, 3),
    (2, 4),
    (3, 4),
];

/// An owner, and a guest with this scope, at a server where resources under `/revoked` revoke tokens, and contexts count for this number of seconds.
pub(crate) fn world(
    alloc: Global,
    guest: &'static [u8],
    seconds: Option<u32>,
    remembered: u8,
) -> Result<World, Fail> {
    let mut start = start(alloc, Tree::new(alloc), "s")?;
    let revoked = Path::from_text(alloc, b"/revoked")?;
    start.rule_contexts(ContextRules {
        revoked,
        seconds,
        remembered,
        reserved: None,
        subtrees: true,
        answers: false,
    });
    let whole = is_enrolled(alloc, &mut start, own(0, OWNER), Ok(straight()))
        && is_enrolled(alloc, &mut start, own(1, guest), Ok(straight()));
    begun(alloc, start, whole)
}

/// The owner's request on the path that revokes the guest's token, by a quiet round.
fn owner_asks(alloc: Global, world: &mut World, number: u8, code: u8) -> bool {
    asks_for(alloc, world, number, (0, b"/revoked/01", code, b"")) && settles(alloc, world)
}

/// A call of the guest: it posts its token and appends, each by a quiet round.
fn guest_calls(alloc: Global, world: &mut World, posts: u8, asks: u8) -> bool {
    exchanges(alloc, world, posts, 1)
        && settles(alloc, world)
        && asks_for(alloc, world, asks, (1, b"/log", POST, b"a"))
        && settles(alloc, world)
}

/// The guest's token is revoked before the one of its calls, and let in again before the other: those between aren't served, and all others are.
fn is_out_between(rt: &impl Abort, alloc: Global, world: &mut World, out: u8, back: u8) {
    assert!(rt; exchanges(alloc, world, 200, 0));
    assert!(rt; settles(alloc, world));
    let mut served = 0usize;
    for &(call, posts, asks) in &CALLS {
        if call == out {
            assert!(rt; owner_asks(alloc, world, 201, PUT));
            served = served.wrapping_add(1);
        }
        if call == back {
            assert!(rt; owner_asks(alloc, world, 202, DELETE));
            served = served.wrapping_add(1);
        }
        assert!(rt; guest_calls(alloc, world, posts, asks));
        if call < out || back <= call {
            served = served.wrapping_add(1);
        }
        assert!(rt; history(alloc, world) == served);
    }
    assert!(rt; world.premise_holds());
}

#[test]
fn between_each_two_calls(rt: HostRuntime) -> Result<(), Fail> {
    for &(out, back) in &TURNS {
        let mut world = world(rt.alloc(), GUEST, None, 0)?;
        is_out_between(&rt, rt.alloc(), &mut world, out, back);
        drop(world);
    }
    Ok(())
}

/// A holder revokes its own token: that is answered, and nothing after it.
#[test]
fn by_its_holder(rt: HostRuntime) -> Result<(), Fail> {
    let mut world = world(rt.alloc(), LEAVING, None, 0)?;
    let called = guest_calls(rt.alloc(), &mut world, 210, 211);
    let leaves = asks_for(rt.alloc(), &mut world, 220, (1, b"/revoked/01", PUT, b""))
        && settles(rt.alloc(), &mut world);
    let left = history(rt.alloc(), &world);
    let calls = guest_calls(rt.alloc(), &mut world, 222, 223);
    let after = history(rt.alloc(), &world);
    drop(world);
    assert!(&rt; called && leaves && calls);
    assert!(&rt; left == 2);
    assert!(&rt; after == 2);
    Ok(())
}

/// The guest appends at this moment, by a quiet round.
fn appends_at(alloc: Global, world: &mut World, number: u8, ms: u64) -> bool {
    let Ok(request) = request(alloc, b"/log", POST, b"a") else {
        return false;
    };
    let event = Event {
        moment: at(ms),
        draw: drawn(number),
        what: What::Ask { client: 1, request },
    };
    takes_place(alloc, world, event) && is_quiet(alloc, world, ms, 9) == Some(true)
}

/// A context counts until two seconds after its post: what comes later isn't served, until the token is posted again.
#[test]
fn contexts_get_too_old(rt: HostRuntime) -> Result<(), Fail> {
    let mut world = world(rt.alloc(), GUEST, Some(2), 8)?;
    let made = exchanges(rt.alloc(), &mut world, 210, 1) && settles(rt.alloc(), &mut world);
    let young = appends_at(rt.alloc(), &mut world, 211, 1999);
    let in_time = history(rt.alloc(), &world);
    let old = appends_at(rt.alloc(), &mut world, 212, 2000);
    let late = history(rt.alloc(), &world);
    let event = Event {
        moment: at(2000),
        draw: drawn(213),
        what: What::Exchange { client: 1 },
    };
    let anew = takes_place(rt.alloc(), &mut world, event)
        && is_quiet(rt.alloc(), &mut world, 2000, 9) == Some(true)
        && appends_at(rt.alloc(), &mut world, 214, 3999);
    let again = history(rt.alloc(), &world);
    let holds = world.premise_holds();
    drop(world);
    assert!(&rt; made && young && old && anew);
    assert!(&rt; in_time == 1);
    assert!(&rt; late == 1);
    assert!(&rt; again == 2);
    assert!(&rt; holds);
    Ok(())
}
