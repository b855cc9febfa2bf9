//! A holder that makes as many resources as there is room for, and the owner that revokes its token.

use crate::common::{Asked, asks_for, exchanges, history, takes_place, world_of};
use crate::quiet::settles;
use crate::ready::learnt;
use crate::revoked::{OWNER, world};
use osc_fixtures::{PUT, at, drawn, own, request};
use osc_model::{ClientResult, Code, RefusedRequest};
use osc_run::Actor;
use osc_tree::Tree;
use osc_world::{Event, What, World};
use std::alloc::Global;
use std::process::Abort;
use std::test::*;

/// PUT on `/r` and on what is below it.
const FILLER: &[u8] = b"\x81\x82\x62/r\x14";

/// The owner's request that revokes the holder's token.
const REVOKES: Asked = (0, b"/revoked/01", PUT, b"");

/// What answers the post of a revoked token.
const REVOKED: RefusedRequest = RefusedRequest {
    code: Code::UNAUTHORIZED,
    reason: Some(38),
};

/// The holder's PUT of the resource of this number, by a quiet round.
fn makes(alloc: Global, world: &mut World, number: u16) -> bool {
    let high = (number / 32 % 64) as u8;
    let low = (number % 32) as u8;
    let path = [b'/', b'r', b'/', 64 + high, 64 + low];
    let Ok(request) = request(alloc, path.as_slice(), PUT, b"") else {
        return false;
    };
    let event = Event {
        moment: at(0),
        draw: drawn(low),
        what: What::Ask { client: 1, request },
    };
    takes_place(alloc, world, event) && settles(alloc, world)
}

/// The first `count` of them, one after the other.
fn makes_all(alloc: Global, world: &mut World, count: u16) -> bool {
    for number in 0..count {
        if !makes(alloc, world, number) {
            return false;
        }
    }
    true
}

/// The exchange of this client, by a quiet round.
fn joins(alloc: Global, world: &mut World, number: u8, client: usize) -> bool {
    exchanges(alloc, world, number, client) && settles(alloc, world)
}

/// Whether the last answer that a client was told has this code.
fn is_answered(world: &World, code: Code) -> bool {
    match learnt(world) {
        Some(ClientResult::Answer(reply)) => reply.code == code,
        _ => false,
    }
}

/// Whether it was told an unprotected 4.01.
fn is_unauthorized(world: &World) -> bool {
    learnt(world) == Some(&ClientResult::Unverified(Code::UNAUTHORIZED))
}

/// Why the server's last step served no request, if it refused one.
fn refused(world: &World) -> Option<RefusedRequest> {
    let mut last = None;
    for step in world.steps() {
        last = match step.actor() {
            Actor::Server => step.notes().refused(),
            _ => last,
        };
    }
    last
}

/// The holder makes 960 resources, and no other one, since what is left is for those that revoke tokens.
fn fills(rt: &impl Abort, alloc: Global, world: &mut World) {
    assert!(rt; joins(alloc, world, 200, 0));
    assert!(rt; joins(alloc, world, 201, 1));
    assert!(rt; makes_all(alloc, world, 960));
    assert!(rt; is_answered(world, Code::CREATED));
    assert!(rt; makes(alloc, world, 960));
    assert!(rt; is_answered(world, Code::SERVICE_UNAVAILABLE));
    assert!(rt; world.tree().len() == 960);
    assert!(rt; makes(alloc, world, 959));
    assert!(rt; is_answered(world, Code::CHANGED));
}

/// The owner revokes the holder's token, as if there were room: neither a request nor a post of the holder counts any more.
fn is_revoked(rt: &impl Abort, alloc: Global, world: &mut World) {
    assert!(rt; asks_for(alloc, world, 202, REVOKES) && settles(alloc, world));
    assert!(rt; is_answered(world, Code::CREATED));
    assert!(rt; world.tree().len() == 961);
    assert!(rt; makes(alloc, world, 0));
    assert!(rt; is_unauthorized(world));
    assert!(rt; joins(alloc, world, 203, 1));
    assert!(rt; is_unauthorized(world));
    assert!(rt; refused(world) == Some(REVOKED));
    assert!(rt; history(alloc, world) == 963);
}

#[test]
fn who_fills_the_tree_is_revoked(rt: HostRuntime) -> Result<(), Fail> {
    let mut world = world(rt.alloc(), FILLER, None, 0)?;
    fills(&rt, rt.alloc(), &mut world);
    is_revoked(&rt, rt.alloc(), &mut world);
    drop(world);
    Ok(())
}

/// At a server without a revocation path the holder makes 1,024.
fn fills_all(rt: &impl Abort, alloc: Global, world: &mut World) {
    assert!(rt; joins(alloc, world, 201, 1));
    assert!(rt; makes_all(alloc, world, 1024));
    assert!(rt; is_answered(world, Code::CREATED));
    assert!(rt; makes(alloc, world, 1024));
    assert!(rt; is_answered(world, Code::SERVICE_UNAVAILABLE));
    assert!(rt; world.tree().len() == 1024);
}

#[test]
fn no_place_is_kept_where_none_is_revoked(rt: HostRuntime) -> Result<(), Fail> {
    let rights = [own(0, OWNER), own(1, FILLER)];
    let mut world = world_of(rt.alloc(), Tree::new(rt.alloc()), &rights)?;
    fills_all(&rt, rt.alloc(), &mut world);
    drop(world);
    Ok(())
}
