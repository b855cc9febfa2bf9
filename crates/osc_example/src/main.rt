//! A lock: a device in a program of its own, and two holders of tokens who use it. Holders write what they want to `/lock/wanted`; the lock tries
//! it, and writes what is to `/lock/actual` and what happened to `/log`, by its own say. There is no network, no clock and no generator here: datagrams
//! are handed over by value, and moments and draws are written out. docs/LIBRARY.md goes through it.
#![tactic(auto)]

mod bolt;
mod fault;
mod holder;
mod lock;
mod place;
mod story;
mod supply;
mod telling;
mod wire;
mod wish;
mod words;

use fault::Fault;
use holder::{Grant, TokenHolder};
use lock::Lock;
use std::alloc::Global;
use std::process::ExitCode;
use supply::BEGINNING;

/// The owner, for ever.
const OWNER: Grant = Grant {
    name: "owner",
    number: 2,
    secret: b"the owner's secret",
    scope: b"/lock/wanted:GET+PUT,/lock/actual:GET,/log:GET",
    expires: None,
};

/// The technician, for an hour.
const TECHNICIAN: Grant = Grant {
    name: "technician",
    number: 3,
    secret: b"the technician's secret",
    scope: b"/lock/wanted:PUT,/lock/actual:GET",
    expires: Some(BEGINNING + 3_600),
};

fn main(rt: HostRuntime) -> ExitCode {
    match with_a_lock(&rt, rt.alloc()) {
        Ok(()) => ExitCode::SUCCESS,
        Err(fault) => {
            let _unsaid = eprintln!(&rt; "{fault}");
            ExitCode::FAILURE
        }
    }
}

// Each of these owns one node, and lends it to the next.

fn with_a_lock(rt: &impl Print, alloc: Global) -> Result<(), Fault> {
    let mut lock = Lock::new(alloc)?;
    let told = with_its_owner(rt, alloc, &mut lock);
    drop(lock);
    told
}

fn with_its_owner(rt: &impl Print, alloc: Global, lock: &mut Lock) -> Result<(), Fault> {
    let mut owner = TokenHolder::new(alloc, OWNER)?;
    let told = with_a_technician(rt, alloc, lock, &mut owner);
    drop(owner);
    told
}

fn with_a_technician(
    rt: &impl Print,
    alloc: Global,
    lock: &mut Lock,
    owner: &mut TokenHolder,
) -> Result<(), Fault> {
    let mut technician = TokenHolder::new(alloc, TECHNICIAN)?;
    let told = story::tell(rt, alloc, lock, owner, &mut technician);
    drop(technician);
    told
}
