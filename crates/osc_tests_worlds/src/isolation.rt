//! What each owner is answered, whatever the others do.

use crate::common::{Asked, asks_for, exchanges, world_of};
use crate::quiet::settles;
use crate::trees::{crowded, full};
use osc_fixtures::{DELETE, GET, POST, Right, own};
use osc_model::{Code, Reply};
use osc_tree::Tree;
use osc_world::World;
use std::alloc::{AllocError, Global};
use std::process::Abort;
use std::test::*;

/// GET, POST and DELETE on `/a`.
const ON_A: &[u8] = b"\x81\x82\x62/a\x0b";

/// The same on `/b`.
const ON_B: &[u8] = b"\x81\x82\x62/b\x0b";

/// The number of a request, and what it is answered: code and payload.
type Answer = (u64, Code, &'static [u8]);

/// A list of answers, borrowed.
type Answers<'a> = Result<Vec<(u64, &'a Reply)>, AllocError>;

fn is_answer(number: u64, reply: &Reply, wanted: &Answer) -> bool {
    number == wanted.0 && reply.code == wanted.1 && reply.payload.as_slice() == wanted.2
}

/// Whether these are the wanted answers.
fn are(given: Answers<'_>, wanted: &[Answer]) -> bool {
    match given {
        Ok(all) => {
            all.len() == wanted.len()
                && all
                    .iter()
                    .zip(wanted.iter())
                    .all(|(answer, row)| is_answer(answer.0, answer.1, row))
        }
        Err(_) => false,
    }
}

/// What the entries under a secret of such bytes were answered in the history.
fn served<'a>(alloc: Global, world: &'a World, secret: u8) -> Answers<'a> {
    let mut all = Vec::new(alloc);
    for entry in world.history(alloc)?.iter() {
        if entry.context.secret.as_slice() == [secret; 16].as_slice() {
            all.push((entry.number, &entry.reply))?;
        }
    }
    Ok(all)
}

/// What a client accepted.
fn accepted<'a>(alloc: Global, world: &'a World, client: usize) -> Answers<'a> {
    let mut all = Vec::new(alloc);
    for acceptance in world.accepted(alloc)?.iter() {
        if acceptance.by == client {
            all.push((acceptance.number, acceptance.reply))?;
        }
    }
    Ok(all)
}

/// Whether a client's entries are answered so where they alone follow the first resources.
fn is_alone(alloc: Global, world: &World, client: usize, wanted: &[Answer]) -> bool {
    match world.alone(alloc, client) {
        Ok(all) => {
            all.len() == wanted.len()
                && all
                    .iter()
                    .zip(wanted.iter())
                    .all(|(answer, row)| is_answer(answer.0, &answer.1, row))
        }
        Err(_) => false,
    }
}

/// Whether a client's entries have the very replies in the history that they have alone.
fn is_undisturbed(alloc: Global, world: &World, client: usize, secret: u8) -> bool {
    match (served(alloc, world, secret), world.alone(alloc, client)) {
        (Ok(served), Ok(alone)) => {
            served.len() == alone.len()
                && served
                    .iter()
                    .zip(alone.iter())
                    .all(|(one, other)| one.0 == other.0 && *one.1 == other.1)
        }
        _ => false,
    }
}

/// The exchange of this client, in the event of this number, by a quiet round.
fn joins(alloc: Global, world: &mut World, number: u8, client: usize) -> bool {
    exchanges(alloc, world, number, client) && settles(alloc, world)
}

/// A request, by a quiet round.
fn asks(alloc: Global, world: &mut World, number: u8, asked: Asked) -> bool {
    asks_for(alloc, world, number, asked) && settles(alloc, world)
}

/// What the first owner learns in either world.
const FIRST: [Answer; 2] = [(0, Code::CREATED, b""), (1, Code::CONTENT, b"a")];

/// The first owner posts a byte and gets it; the second one, if it does anything, posts a byte at the same time.
fn posts_and_gets(rt: &impl Abort, alloc: Global, world: &mut World, with_second: bool) {
    assert!(rt; exchanges(alloc, world, 200, 0));
    if with_second {
        assert!(rt; exchanges(alloc, world, 201, 1));
    }
    assert!(rt; settles(alloc, world));
    assert!(rt; asks_for(alloc, world, 202, (0, b"/a", POST, b"a")));
    if with_second {
        assert!(rt; asks_for(alloc, world, 203, (1, b"/b", POST, b"b")));
    }
    assert!(rt; settles(alloc, world));
    assert!(rt; asks(alloc, world, 204, (0, b"/a", GET, b"")));
    assert!(rt; world.premise_holds());
}

/// The first owner learnt the same, in the history and alone.
fn has_its_own(rt: &impl Abort, alloc: Global, world: &World) {
    assert!(rt; are(accepted(alloc, world, 0), &FIRST));
    assert!(rt; are(served(alloc, world, 0), &FIRST));
    assert!(rt; is_alone(alloc, world, 0, &FIRST));
    assert!(rt; is_undisturbed(alloc, world, 0, 0));
}

#[test]
fn two_owners(rt: HostRuntime) -> Result<(), Fail> {
    let rights = [own(0, ON_A), own(1, ON_B)];
    let mut world = world_of(rt.alloc(), Tree::new(rt.alloc()), &rights)?;
    posts_and_gets(&rt, rt.alloc(), &mut world, true);
    has_its_own(&rt, rt.alloc(), &world);
    assert!(rt; is_alone(rt.alloc(), &world, 1, &[(0, Code::CREATED, b"")]));
    assert!(rt; is_undisturbed(rt.alloc(), &world, 1, 1));
    assert!(rt; is_alone(rt.alloc(), &world, 2, &[]));
    drop(world);
    Ok(())
}

#[test]
fn one_owner(rt: HostRuntime) -> Result<(), Fail> {
    let rights = [own(0, ON_A)];
    let mut world = world_of(rt.alloc(), Tree::new(rt.alloc()), &rights)?;
    posts_and_gets(&rt, rt.alloc(), &mut world, false);
    has_its_own(&rt, rt.alloc(), &world);
    drop(world);
    Ok(())
}

/// A world of two owners over these resources, in which both have a context.
fn joined(alloc: Global, first: Tree, rights: &[Right]) -> Result<World, Fail> {
    let mut world = world_of(alloc, first, rights)?;
    let both = joins(alloc, &mut world, 200, 0) && joins(alloc, &mut world, 201, 1);
    both.then_some(()).ok_or("not joined")?;
    Ok(world)
}

/// One takes the last place; the other finds none (5.03), and would alone, where what was promised it ends.
fn takes_the_last_place(rt: &impl Abort, alloc: Global, world: &mut World) {
    assert!(rt; asks(alloc, world, 202, (1, b"/b", POST, b"b")));
    assert!(rt; asks(alloc, world, 203, (0, b"/a", POST, b"a")));
    assert!(rt;
        are(
            served(alloc, world, 0),
            &[(0, Code::SERVICE_UNAVAILABLE, b"")]
        )
    );
    assert!(rt; is_alone(alloc, world, 0, &[(0, Code::CREATED, b"")]));
    assert!(rt; are(served(alloc, world, 1), &[(0, Code::CREATED, b"")]));
    assert!(rt; is_undisturbed(alloc, world, 1, 1));
    assert!(rt; world.premise_holds());
}

#[test]
fn a_crowded_tree(rt: HostRuntime) -> Result<(), Fail> {
    let rights = [own(0, ON_A), own(1, ON_B)];
    let mut world = joined(rt.alloc(), crowded(rt.alloc())?, &rights)?;
    takes_the_last_place(&rt, rt.alloc(), &mut world);
    drop(world);
    Ok(())
}

/// What the first owner is answered where another fills the place that it left, and what it would be alone.
const LEFT: [Answer; 3] = [
    (0, Code::DELETED, b""),
    (1, Code::SERVICE_UNAVAILABLE, b""),
    (2, Code::NOT_FOUND, b""),
];

const LEFT_ALONE: [Answer; 3] = [
    (0, Code::DELETED, b""),
    (1, Code::CREATED, b""),
    (2, Code::CONTENT, b"a"),
];

/// The same of the other.
const FILLED: [Answer; 2] = [(0, Code::CREATED, b""), (1, Code::CONTENT, b"b")];

const FILLED_ALONE: [Answer; 2] = [
    (0, Code::SERVICE_UNAVAILABLE, b""),
    (1, Code::NOT_FOUND, b""),
];

/// One deletes, the other fills: the promise to the first ends at its 5.03; that to the other at the one that it would meet alone,
/// where the first resources leave no place.
fn deletes_and_is_filled(rt: &impl Abort, alloc: Global, world: &mut World) {
    assert!(rt; asks(alloc, world, 202, (0, b"/a", DELETE, b"")));
    assert!(rt; asks(alloc, world, 203, (1, b"/b", POST, b"b")));
    assert!(rt; asks(alloc, world, 204, (0, b"/a", POST, b"a")));
    assert!(rt; asks(alloc, world, 205, (0, b"/a", GET, b"")));
    assert!(rt; asks(alloc, world, 206, (1, b"/b", GET, b"")));
    assert!(rt; are(served(alloc, world, 0), &LEFT));
    assert!(rt; is_alone(alloc, world, 0, &LEFT_ALONE));
    assert!(rt; are(served(alloc, world, 1), &FILLED));
    assert!(rt; is_alone(alloc, world, 1, &FILLED_ALONE));
    assert!(rt; world.premise_holds());
}

#[test]
fn one_deletes_and_one_fills(rt: HostRuntime) -> Result<(), Fail> {
    let rights = [own(0, ON_A), own(1, ON_B)];
    let mut world = joined(rt.alloc(), full(rt.alloc(), b"/a")?, &rights)?;
    deletes_and_is_filled(&rt, rt.alloc(), &mut world);
    drop(world);
    Ok(())
}

/// The other way round: where another made room, the first owner is served what alone it would find no place for.
fn fills_what_was_deleted(rt: &impl Abort, alloc: Global, world: &mut World) {
    assert!(rt; asks(alloc, world, 202, (1, b"/b", DELETE, b"")));
    assert!(rt; asks(alloc, world, 203, (0, b"/a", POST, b"a")));
    assert!(rt; are(served(alloc, world, 0), &[(0, Code::CREATED, b"")]));
    assert!(rt; is_alone(alloc, world, 0, &[(0, Code::SERVICE_UNAVAILABLE, b"")]));
    assert!(rt; are(served(alloc, world, 1), &[(0, Code::DELETED, b"")]));
    assert!(rt; is_undisturbed(alloc, world, 1, 1));
    assert!(rt; world.premise_holds());
}

#[test]
fn one_makes_room(rt: HostRuntime) -> Result<(), Fail> {
    let rights = [own(0, ON_A), own(1, ON_B)];
    let mut world = joined(rt.alloc(), full(rt.alloc(), b"/b")?, &rights)?;
    fills_what_was_deleted(&rt, rt.alloc(), &mut world);
    drop(world);
    Ok(())
}

/// What is assumed is broken: two grants share a secret. Each client's entries are then all of that secret, under its own grant's scope.
fn shares(rt: &impl Abort, alloc: Global, world: &mut World) {
    assert!(rt; asks(alloc, world, 202, (0, b"/a", POST, b"a")));
    assert!(rt; !world.premise_holds());
    assert!(rt; is_alone(alloc, world, 0, &[(0, Code::CREATED, b"")]));
    assert!(rt; is_alone(alloc, world, 1, &[(0, Code::FORBIDDEN, b"")]));
}

#[test]
fn two_owners_of_one_secret(rt: HostRuntime) -> Result<(), Fail> {
    let mut second = own(1, ON_B);
    second.secret = 0;
    let rights = [own(0, ON_A), second];
    let mut world = joined(rt.alloc(), Tree::new(rt.alloc()), &rights)?;
    shares(&rt, rt.alloc(), &mut world);
    drop(world);
    Ok(())
}
