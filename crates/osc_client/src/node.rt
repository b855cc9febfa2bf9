//! A client as a node.
ghost use Rattle.std.specs.Prelude.{ℕ};
ghost use Rattle.osc_client.specs.Sending.{acts_at, restarted};
ghost use Rattle.osc_client.specs.Steps.{IsStep, most_sent};

use crate::client::Client;
use osc_ccm::Ciphers;
use osc_model::{Draw, Moment, Peer, Step};
use osc_run::Node;
use std::alloc::{AllocError, Global};

impl<A: Ciphers> Node<A> for Client {
    ghost is_step = { λ old cause step new. IsStep A.is_sealing old cause step new };

    ghost acts = { λ state now. acts_at state now };

    ghost again = { λ old. restarted old };

    ghost most_sent = { λ state. most_sent state };

    fn hear(
        &mut self,
        alloc: Global,
        now: Moment,
        from: Peer,
        bytes: &[u8],
        _draw: &Draw,
    ) -> Result<Step, AllocError> {
        self.on_datagram::<A>(alloc, now, from, bytes)
    }

    fn tick(&mut self, alloc: Global, now: Moment, _draw: &Draw) -> Step {
        self.on_tick(alloc, now)
    }

    fn next_due(&self) -> Option<u64> {
        self.next_deadline()
    }

    fn start_again(&mut self) {
        self.restart();
    }

    fn most_sent(&self) -> Result<usize, AllocError> {
        let open = self.open_messages();
        Ok(if open == 0 { 1 } else { open })
    }
}
