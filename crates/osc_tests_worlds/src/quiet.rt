//! Quiet rounds: what waits is delivered, in order of sending, and what was dropped isn't; and numbers that are skipped.
ghost use Rattle.std.specs.Prelude.{◌%◌, replicate};

use crate::common::{GREATEST, accepted, asks, counts, exchanges, has, takes_place, world};
use osc_ccm::Suite;
use osc_fixtures::{POST, at, drawn};
use osc_model::Draw;
use osc_run::Actor;
use osc_world::{Draws, Event, What, World};
use std::alloc::Global;
use std::process::Abort;
use std::test::*;

/// Each event draws its number, so often as it has bytes.
pub(crate) struct Numbered;

impl Draws for Numbered {
    ghost use Rattle.std.specs.Prelude.{◌%◌, replicate};

    ghost drawn = { λ _ event. record { 0 = replicate 32 (event % 256) } };

    fn draw(&self, event: usize) -> Draw {
        Draw([(event % 256) as u8; 32])
    }
}

/// A quiet round at this moment; none where there was no memory for it.
pub(crate) fn is_quiet(alloc: Global, world: &mut World, ms: u64, limit: usize) -> Option<bool> {
    world
        .quiet::<Suite, Numbered>(alloc, at(ms), &Numbered, limit)
        .ok()
}

/// Whether a quiet round at the start leaves nothing; nine deliveries are more than any of these takes.
pub(crate) fn settles(alloc: Global, world: &mut World) -> bool {
    is_quiet(alloc, world, 0, 9) == Some(true)
}

/// The numbers of what waits.
fn waits(alloc: Global, world: &World, numbers: &[usize]) -> bool {
    match world.waiting(alloc) {
        Ok(all) => all.as_slice() == numbers,
        Err(_) => false,
    }
}

/// A context, by a quiet round: the post and its answer.
pub(crate) fn exchanged(rt: &impl Abort, alloc: Global, world: &mut World) {
    assert!(rt; exchanges(alloc, world, 200, 0));
    assert!(rt; is_quiet(alloc, world, 0, 2) == Some(true));
}

/// A limit of zero delivers nothing and tells whether anything waits; each limit delivers at most that number.
fn limits(rt: &impl Abort, alloc: Global, world: &mut World) {
    assert!(rt; is_quiet(alloc, world, 0, 0) == Some(true));
    assert!(rt; settles(alloc, world));
    assert!(rt; world.records().len() == 0);
    assert!(rt; exchanges(alloc, world, 200, 0));
    assert!(rt; is_quiet(alloc, world, 0, 0) == Some(false));
    assert!(rt; world.records().len() == 1);
    assert!(rt; waits(alloc, world, &[0]));
    assert!(rt; is_quiet(alloc, world, 0, 1) == Some(false));
    assert!(rt; world.records().len() == 2);
    assert!(rt; waits(alloc, world, &[1]));
    assert!(rt; is_quiet(alloc, world, 0, 1) == Some(true));
    assert!(rt; world.records().len() == 3);
    assert!(rt; waits(alloc, world, &[]));
    assert!(rt; asks(alloc, world, 201, POST, b"a"));
    assert!(rt; is_quiet(alloc, world, 0, 100) == Some(true));
    assert!(rt; world.records().len() == 6);
    assert!(rt; counts(alloc, world) == (1, 1, 1));
    assert!(rt; has(alloc, world, b"a"));
    assert!(rt; world.premise_holds());
}

#[test]
fn a_round_has_a_limit(rt: HostRuntime) -> Result<(), Fail> {
    let mut world = world(rt.alloc())?;
    limits(&rt, rt.alloc(), &mut world);
    drop(world);
    Ok(())
}

/// The client's tick at this moment.
fn ticks(alloc: Global, world: &mut World, ms: u64) -> bool {
    let event = Event {
        moment: at(ms),
        draw: drawn(202),
        what: What::Tick {
            node: Actor::Client(0),
        },
    };
    takes_place(alloc, world, event)
}

/// A request that is dropped is delivered by no round, and comes again once it is due: 2 to 3 seconds later (RFC 7252 section 4.2).
fn loses_one(rt: &impl Abort, alloc: Global, world: &mut World) {
    exchanged(rt, alloc, world);
    assert!(rt; asks(alloc, world, 201, POST, b"a"));
    assert!(rt; waits(alloc, world, &[2]));
    world.drop_datagram(2);
    world.drop_datagram(2);
    world.drop_datagram(100);
    assert!(rt; waits(alloc, world, &[]));
    assert!(rt; world.next_waiting() == None);
    assert!(rt; settles(alloc, world));
    assert!(rt; counts(alloc, world) == (0, 1, 0));
    assert!(rt; ticks(alloc, world, 1999));
    assert!(rt; waits(alloc, world, &[]));
    assert!(rt; ticks(alloc, world, 3000));
    assert!(rt; waits(alloc, world, &[3]));
    assert!(rt; is_quiet(alloc, world, 3000, 9) == Some(true));
    assert!(rt; counts(alloc, world) == (1, 1, 1));
    assert!(rt; has(alloc, world, b"a"));
}

#[test]
fn a_datagram_that_is_dropped(rt: HostRuntime) -> Result<(), Fail> {
    let mut world = world(rt.alloc())?;
    loses_one(&rt, rt.alloc(), &mut world);
    drop(world);
    Ok(())
}

/// The number of the reply that was accepted last.
fn last_number(alloc: Global, world: &World) -> Option<u64> {
    match world.accepted(alloc) {
        Ok(all) => all.last().map(|acceptance| acceptance.number),
        Err(_) => None,
    }
}

/// Asks, by a quiet round; the number of the answered request.
fn number_asked(alloc: Global, world: &mut World) -> Option<u64> {
    if !asks(alloc, world, 203, POST, b"a") || !settles(alloc, world) {
        return None;
    }
    last_number(alloc, world)
}

/// Numbers are raised and never lowered; after the last one nothing is asked.
fn skips(rt: &impl Abort, alloc: Global, world: &mut World) {
    world.skip(0, 9);
    exchanged(rt, alloc, world);
    assert!(rt; number_asked(alloc, world) == Some(0));
    for &(client, number, next) in &[
        (0, 7, 7),
        (0, 3, 8),
        (1, 20, 9),
        (0, 9, 10),
        (0, GREATEST, GREATEST),
    ] {
        world.skip(client, number);
        assert!(rt; number_asked(alloc, world) == Some(next), "at {number}");
    }
    assert!(rt; accepted(alloc, world) == 6);
    assert!(rt; number_asked(alloc, world) == Some(GREATEST));
    assert!(rt; accepted(alloc, world) == 6);
}

#[test]
fn numbers_are_skipped(rt: HostRuntime) -> Result<(), Fail> {
    let mut world = world(rt.alloc())?;
    skips(&rt, rt.alloc(), &mut world);
    drop(world);
    Ok(())
}
