//! The memory that a server keeps in hand.

use std::alloc::Global;

/// How many bytes are kept.
const BYTES: usize = 2048;

/// The memory that a server with a revocation path keeps in hand: a change below that path has it where there is no other. No contract rests
/// on it.
#[derive(Drop)]
pub(crate) struct InHand {
    block: Option<Vec<u8>>,
}

impl InHand {
    /// Nothing is in hand.
    pub(crate) fn nothing() -> InHand {
        InHand { block: None }
    }

    /// Takes the memory, where it isn't there and can be had.
    pub(crate) fn take(&mut self, alloc: Global) {
        if self.block.is_none() {
            self.block = Vec::with_capacity(alloc, BYTES).ok();
        }
    }

    /// Gives the memory back, and answers whether it was there.
    pub(crate) fn give_back(&mut self) -> bool {
        self.block.take().is_some()
    }
}
