//! What happens to the lock, its owner and a technician.

use crate::bolt::{Bolt, Motor, Wanted};
use crate::fault::Fault;
use crate::holder::TokenHolder;
use crate::lock::Lock;
use crate::place::Place;
use crate::supply::at;
use crate::telling::tell_learnt;
use crate::wire::under_another_id;
use crate::words::{Shown, method_name};
use osc_model::{Bytes, Method, Moment};
use std::alloc::Global;
use std::io;

/// All of it, from the beginning on.
pub fn tell(
    rt: &impl Print,
    alloc: Global,
    lock: &mut Lock,
    owner: &mut TokenHolder,
    technician: &mut TokenHolder,
) -> Result<(), Fault> {
    lock.starts(rt, alloc, at(0), Bolt::Shut)?;
    the_owner_opens(rt, alloc, lock, owner)?;
    the_technician_is_overheard(rt, alloc, lock, owner, technician)?;
    the_bolt_jams(rt, alloc, lock, technician)?;
    waits(rt, alloc, lock, owner, technician)?;
    the_technicians_time_is_over(rt, alloc, lock, technician)?;
    the_lock_starts_again(rt, alloc, lock, owner)
}

fn the_owner_opens(
    rt: &impl Print,
    alloc: Global,
    lock: &mut Lock,
    owner: &mut TokenHolder,
) -> Result<(), Fault> {
    posts(rt, alloc, at(1), lock, owner)?;
    wants(rt, alloc, at(2), lock, owner, Wanted::Open)?;
    reads(rt, alloc, at(3), lock, owner, Place::Actual)
}

/// The technician shuts the lock, the owner opens it, and somebody who overheard the technician delivers its request again.
fn the_technician_is_overheard(
    rt: &impl Print,
    alloc: Global,
    lock: &mut Lock,
    owner: &mut TokenHolder,
    technician: &mut TokenHolder,
) -> Result<(), Fault> {
    posts(rt, alloc, at(10), lock, technician)?;
    let overheard = shuts(rt, alloc, at(11), lock, technician)?;
    wants(rt, alloc, at(12), lock, owner, Wanted::Open)?;
    if let Some(overheard) = overheard {
        again(rt, alloc, at(13), lock, technician, &overheard)?;
        under_a_new_id(rt, alloc, at(14), lock, technician, &overheard.request)?;
    }
    reads(rt, alloc, at(15), lock, owner, Place::Actual)
}

/// A request and its answer, as they were on the way.
#[derive(Drop)]
struct Overheard {
    request: Bytes,
    answer: Bytes,
}

/// The technician wants the lock shut: what could be overheard then.
fn shuts(
    rt: &impl Print,
    alloc: Global,
    now: Moment,
    lock: &mut Lock,
    technician: &mut TokenHolder,
) -> Result<Option<Overheard>, Fault> {
    let word = Wanted::Shut.word();
    tell_asked(rt, technician.name, Method::Put, Place::Wanted, word)?;
    let Some(request) = technician.asks(alloc, now, Method::Put, Place::Wanted, word)? else {
        return Ok(None);
    };
    let Some(answer) = lock.hears(rt, alloc, now, technician.at, &request)? else {
        return Ok(None);
    };
    learns(rt, alloc, now, technician, &answer)?;
    lock.acts(rt, alloc, now)?;
    Ok(Some(Overheard { request, answer }))
}

/// The same bytes come once more: they are answered as before, and nothing is served.
fn again(
    rt: &impl Print,
    alloc: Global,
    now: Moment,
    lock: &mut Lock,
    technician: &TokenHolder,
    overheard: &Overheard,
) -> Result<(), Fault> {
    println!(rt; "somebody: the technician's request again, by the same bytes")?;
    let told = lock.hears(rt, alloc, now, technician.at, &overheard.request)?;
    if told.as_ref() == Some(&overheard.answer) {
        println!(rt; "somebody: has the same answer")?;
    }
    lock.acts(rt, alloc, now)
}

/// The same protected request comes under another message ID: the same sealed answer goes out again, and it isn't served.
fn under_a_new_id(
    rt: &impl Print,
    alloc: Global,
    now: Moment,
    lock: &mut Lock,
    technician: &TokenHolder,
    request: &Bytes,
) -> Result<(), Fault> {
    println!(rt; "somebody: the technician's request again, under another message ID")?;
    let request = under_another_id(alloc, request)?;
    let _answer = lock.hears(rt, alloc, now, technician.at, &request)?;
    lock.acts(rt, alloc, now)
}

/// The technician's PUT is done and answered so: what it wanted isn't.
fn the_bolt_jams(
    rt: &impl Print,
    alloc: Global,
    lock: &mut Lock,
    technician: &mut TokenHolder,
) -> Result<(), Fault> {
    println!(rt; "something: is in the way of the bolt")?;
    lock.sticks(Motor::Sticks);
    wants(rt, alloc, at(20), lock, technician, Wanted::Shut)?;
    reads(rt, alloc, at(21), lock, technician, Place::Actual)?;
    println!(rt; "something: is gone")?;
    lock.sticks(Motor::Runs);
    Ok(())
}

fn the_technicians_time_is_over(
    rt: &impl Print,
    alloc: Global,
    lock: &mut Lock,
    technician: &mut TokenHolder,
) -> Result<(), Fault> {
    wants(rt, alloc, at(3_601), lock, technician, Wanted::Open)?;
    posts(rt, alloc, at(3_602), lock, technician)
}

/// What the owner's context was is gone: it posts its token again, and is served.
fn the_lock_starts_again(
    rt: &impl Print,
    alloc: Global,
    lock: &mut Lock,
    owner: &mut TokenHolder,
) -> Result<(), Fault> {
    lock.restarts(rt, alloc, at(3_700), Bolt::Open)?;
    reads(rt, alloc, at(3_701), lock, owner, Place::Actual)?;
    posts(rt, alloc, at(3_702), lock, owner)?;
    wants(rt, alloc, at(3_703), lock, owner, Wanted::Shut)?;
    reads(rt, alloc, at(3_704), lock, owner, Place::Log)
}

/// Nothing comes for an hour; each node ticks each second all the same.
fn waits(
    rt: &impl Print,
    alloc: Global,
    lock: &mut Lock,
    owner: &mut TokenHolder,
    technician: &mut TokenHolder,
) -> Result<(), Fault> {
    println!(rt; "an hour: passes")?;
    for second in 30..3_600 {
        lock.ticks(alloc, at(second));
        ticks(rt, alloc, at(second), lock, owner)?;
        ticks(rt, alloc, at(second), lock, technician)?;
    }
    Ok(())
}

// ---- a holder and the lock

/// What a holder's tick sends again goes to the lock.
fn ticks(
    rt: &impl Print,
    alloc: Global,
    now: Moment,
    lock: &mut Lock,
    holder: &mut TokenHolder,
) -> Result<(), Fault> {
    let due = holder.ticks(alloc, now)?;
    delivers(rt, alloc, now, lock, holder, due)
}

/// A holder posts its token.
fn posts(
    rt: &impl Print,
    alloc: Global,
    now: Moment,
    lock: &mut Lock,
    holder: &mut TokenHolder,
) -> Result<(), Fault> {
    println!(rt; "{}: posts its token", holder.name)?;
    let post = holder.posts(alloc, now)?;
    delivers(rt, alloc, now, lock, holder, post)
}

/// A holder writes what it wants.
fn wants(
    rt: &impl Print,
    alloc: Global,
    now: Moment,
    lock: &mut Lock,
    holder: &mut TokenHolder,
    wanted: Wanted,
) -> Result<(), Fault> {
    let word = wanted.word();
    tell_asked(rt, holder.name, Method::Put, Place::Wanted, word)?;
    let request = holder.asks(alloc, now, Method::Put, Place::Wanted, word)?;
    delivers(rt, alloc, now, lock, holder, request)
}

/// A holder reads what is there.
fn reads(
    rt: &impl Print,
    alloc: Global,
    now: Moment,
    lock: &mut Lock,
    holder: &mut TokenHolder,
    place: Place,
) -> Result<(), Fault> {
    tell_asked(rt, holder.name, Method::Get, place, b"")?;
    let request = holder.asks(alloc, now, Method::Get, place, b"")?;
    delivers(rt, alloc, now, lock, holder, request)
}

fn tell_asked(
    rt: &impl Print,
    name: &str,
    method: Method,
    place: Place,
    payload: &[u8],
) -> io::Result<()> {
    let method = method_name(method);
    let place = Shown(place.text());
    if payload.is_empty() {
        return println!(rt; "{name}: {method} {place}");
    }
    println!(rt; "{name}: {method} {place} {}", Shown(payload))
}

/// Hands a holder's datagram to the lock, and the answer to the holder; then the lock does what it is to do.
fn delivers(
    rt: &impl Print,
    alloc: Global,
    now: Moment,
    lock: &mut Lock,
    holder: &mut TokenHolder,
    datagram: Option<Bytes>,
) -> Result<(), Fault> {
    let Some(datagram) = datagram else {
        return Ok(());
    };
    if let Some(answer) = lock.hears(rt, alloc, now, holder.at, &datagram)? {
        learns(rt, alloc, now, holder, &answer)?;
    }
    lock.acts(rt, alloc, now)
}

/// Hands the answer to the holder, and tells what it learns.
fn learns(
    rt: &impl Print,
    alloc: Global,
    now: Moment,
    holder: &mut TokenHolder,
    answer: &Bytes,
) -> Result<(), Fault> {
    let step = holder.hears(alloc, now, answer)?;
    let told = tell_learnt(rt, holder.name, &step);
    drop(step);
    Ok(told?)
}
