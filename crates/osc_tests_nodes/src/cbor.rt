//! The laws of items, and an item for which there is no memory.
use osc_cbor::{laws, read};

#[test]
fn laws_are_there(_rt: HostRuntime) {
    laws::one_item();
    laws::what_is_written();
}

/// An array of bytes, a text and a map, in which a tagged array is: one allocation of each kind.
const OF_EVERY_KIND: &[u8] = b"\x83\x41a\x61b\xa1\x01\xc1\x81\x00";

/// The test allocates nothing else, so that each allocation of `read` can be refused in turn.
#[test]
fn a_refused_allocation_is_want_of_memory(rt: HostRuntime) {
    match read(rt.alloc(), OF_EVERY_KIND) {
        Ok((_, taken)) => assert!(rt; taken == OF_EVERY_KIND.len()),
        Err(fault) => assert!(rt; fault.number() == 9),
    }
}
