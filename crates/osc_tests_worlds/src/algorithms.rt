//! A client of each algorithm in one world, and clients whose token names the other algorithm than they do.

use crate::common::{SCOPE, asks, asks_for, counts, delivers, exchanges, has, injects, world_of};
use crate::quiet::settles;
use osc_fixtures::{POST, Right, SERVER, own, place};
use osc_model::{Algorithm, Bytes};
use osc_tree::Tree;
use osc_world::World;
use std::alloc::{AllocError, Global};
use std::process::Abort;
use std::test::*;

/// The right of a client under tags of 16 bytes.
fn long(client: u8) -> Right {
    Right {
        alg: Algorithm::SixteenByteTag,
        ..own(client, SCOPE)
    }
}

/// How many bytes this datagram has.
fn length(world: &World, datagram: usize) -> usize {
    match world.sent().get(datagram) {
        Some(sent) => sent.bytes.len(),
        None => 0,
    }
}

/// Each of them has a context and is served. What is protected under a tag of 16 bytes is 8 bytes longer.
fn are_served(rt: &impl Abort, alloc: Global, world: &mut World) {
    assert!(rt; exchanges(alloc, world, 201, 0));
    assert!(rt; settles(alloc, world));
    assert!(rt; exchanges(alloc, world, 202, 1));
    assert!(rt; settles(alloc, world));
    assert!(rt; asks_for(alloc, world, 203, (0, b"/log", POST, b"a")));
    assert!(rt; settles(alloc, world));
    assert!(rt; asks_for(alloc, world, 204, (1, b"/log", POST, b"b")));
    assert!(rt; settles(alloc, world));
    assert!(rt; counts(alloc, world) == (2, 2, 2));
    assert!(rt; has(alloc, world, b"ab"));
    assert!(rt; world.premise_holds());
    assert!(rt; world.sent().len() == 8);
    assert!(rt; length(world, 6) == length(world, 4).wrapping_add(8));
    assert!(rt; length(world, 7) == length(world, 5).wrapping_add(8));
}

#[test]
fn one_client_of_each(rt: HostRuntime) -> Result<(), Fail> {
    let alloc = rt.alloc();
    let mut world = world_of(alloc, Tree::new(alloc), &[own(0, SCOPE), long(1)])?;
    are_served(&rt, alloc, &mut world);
    drop(world);
    Ok(())
}

/// The bytes of the post that was sent second.
fn second_post(alloc: Global, world: &World) -> Result<Bytes, AllocError> {
    match world.sent().get(1) {
        Some(sent) => sent.bytes.clone(),
        None => Ok(Bytes::new(alloc)),
    }
}

/// Both clients begin an exchange with one draw, and the second one's post comes to the server from where the first one is. So
/// both ends have one secret and the same nonces, and each its own algorithm: no request is served, and no request is answered.
fn is_not_served(rt: &impl Abort, alloc: Global, world: &mut World) {
    assert!(rt; exchanges(alloc, world, 1, 0));
    assert!(rt; exchanges(alloc, world, 1, 1));
    let post = second_post(alloc, world).expect(rt, "memory");
    assert!(rt; injects(alloc, world, 2, place(0), SERVER, post.as_slice()));
    drop(post);
    assert!(rt; world.sent().len() == 3);
    assert!(rt; delivers(alloc, world, 3, 2));
    assert!(rt; asks(alloc, world, 4, POST, b"a"));
    assert!(rt; world.sent().len() == 4);
    assert!(rt; delivers(alloc, world, 5, 3));
    assert!(rt; world.sent().len() == 5);
    assert!(rt; delivers(alloc, world, 6, 4));
    assert!(rt; counts(alloc, world) == (0, 1, 0));
    assert!(rt; !has(alloc, world, b"a"));
}

/// The first client's right, and a token with its secret that names the other algorithm.
fn with_another(first: Right) -> [Right; 2] {
    let alg = match first.alg {
        Algorithm::EightByteTag => Algorithm::SixteenByteTag,
        Algorithm::SixteenByteTag => Algorithm::EightByteTag,
    };
    let second = Right {
        client: 1,
        alg,
        ..first
    };
    [first, second]
}

#[test]
fn a_token_of_the_other_algorithm(rt: HostRuntime) -> Result<(), Fail> {
    let alloc = rt.alloc();
    for first in [own(0, SCOPE), long(0)] {
        let mut world = world_of(alloc, Tree::new(alloc), &with_another(first))?;
        is_not_served(&rt, alloc, &mut world);
        drop(world);
    }
    Ok(())
}
