//! A server as a node.
ghost use Rattle.std.specs.Prelude.{ℕ};
ghost use Rattle.osc_server.specs.Steps.{IsStep, acts, again};

use crate::server::Server;
use osc_ccm::Ciphers;
use osc_model::{Draw, Moment, Peer, Step};
use osc_run::Node;
use std::alloc::{AllocError, Global};

impl<A: Ciphers> Node<A> for Server {
    ghost is_step = { λ old cause step new. IsStep A.is_sealing old cause step new };

    ghost acts = { λ state now. acts state now };

    ghost again = { λ old. again old };

    ghost most_sent = { λ state. 1 };

    fn hear(
        &mut self,
        alloc: Global,
        now: Moment,
        from: Peer,
        bytes: &[u8],
        draw: &Draw,
    ) -> Result<Step, AllocError> {
        self.on_datagram::<A>(alloc, now, from, bytes, draw)
    }

    fn tick(&mut self, alloc: Global, now: Moment, _draw: &Draw) -> Step {
        self.on_tick(alloc, now)
    }

    fn next_due(&self) -> Option<u64> {
        self.next_deadline()
    }

    fn start_again(&mut self) {
        self.restart();
    }

    fn most_sent(&self) -> Result<usize, AllocError> {
        Ok(1)
    }
}
