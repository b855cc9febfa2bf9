//! A proxy as a node.
ghost use Rattle.std.specs.Prelude.{ℕ};
ghost use Rattle.osc_proxy.specs.State.{restarted};
ghost use Rattle.osc_proxy.specs.Steps.{IsStep, most_sent};
ghost use Rattle.osc_proxy.specs.Ticks.{acts};

use crate::proxy::Proxy;
use osc_ccm::Ciphers;
use osc_model::{Draw, Moment, Peer, Step};
use osc_run::Node;
use std::alloc::{AllocError, Global};

impl<A: Ciphers> Node<A> for Proxy {
    ghost is_step = { λ old cause step new. IsStep old cause step new };

    ghost acts = { λ state now. acts now state };

    ghost again = { λ old. restarted old };

    ghost most_sent = { λ state. most_sent state };

    fn hear(
        &mut self,
        alloc: Global,
        now: Moment,
        from: Peer,
        bytes: &[u8],
        draw: &Draw,
    ) -> Result<Step, AllocError> {
        self.on_datagram(alloc, now, from, bytes, draw)
    }

    fn tick(&mut self, alloc: Global, now: Moment, draw: &Draw) -> Step {
        self.on_tick(alloc, now, draw)
    }

    fn next_due(&self) -> Option<u64> {
        self.next_deadline()
    }

    fn start_again(&mut self) {
        self.restart();
    }

    fn most_sent(&self) -> Result<usize, AllocError> {
        let open = self
            .open_messages()
            .checked_add(self.open_exchanges())
            .ok_or(AllocError)?;
        open.checked_add(2).ok_or(AllocError)
    }
}
