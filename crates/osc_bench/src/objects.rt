//! CBOR read.

use osc_cbor::read;
use std::alloc::Global;

/// Reads the item at the beginning of the bytes `rounds` times, and answers how many bytes it read in all.
#[unsafe(no_mangle)]
pub extern "C" fn osc_bench_read_item(alloc: Global, bytes: &[u8], rounds: u64) -> u64 {
    let mut taken = 0u64;
    for _ in 0..rounds {
        if let Ok((_, count)) = read(alloc, bytes) {
            taken = taken.wrapping_add(count as u64);
        }
    }
    taken
}
