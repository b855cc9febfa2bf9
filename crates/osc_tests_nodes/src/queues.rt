//! A port of queues in memory, at which one call fails, or loses what it sends.
ghost use Rattle.std.specs.Prelude.{◌≡◌, ◌≤◌, ◌+◌, Some, IfOk};

use osc_model::{Bytes, Datagram, Peer};
use osc_turn::{Pace, Port, PortFault};
use std::alloc::{AllocError, Global};
use std::collections::VecDeque;
use std::process::Abort;
use std::test::*;

/// A port of queues. Without memory for what it keeps the test ends.
#[derive(Drop)]
pub(crate) struct Queues<'a, R: Abort> {
    rt: &'a R,
    alloc: Global,
    /// What comes, each with its sender; the first comes next.
    pub waiting: VecDeque<(Peer, Bytes)>,
    /// What each receive gave.
    pub received: Vec<Option<(Peer, Bytes)>>,
    /// What it was asked to send.
    pub sent: Vec<Datagram>,
    /// What was sent of late.
    pub gone: Vec<Datagram>,
    /// The call that fails: the next one is 1. None fails where this is 0.
    pub failing: usize,
    /// How many calls failed.
    pub failures: usize,
    /// A send that would fail doesn't: what it sends is lost on its way, and nobody is told.
    pub is_silent: bool,
    /// How many datagrams were lost so.
    pub lost: usize,
    /// The pace of the node at this port; none where it takes what waits before it ticks.
    pub pace: Option<Pace>,
}

/// Whether this call fails; another one may be the next.
fn fails_now(failing: &mut usize) -> bool {
    match *failing {
        0 => false,
        1 => {
            *failing = 0;
            true
        }
        later => {
            *failing = later - 1;
            false
        }
    }
}

/// One more.
fn one_more(rt: &impl Abort, count: usize) -> usize
    ensures { result ≡ count + 1 }
{
    count.checked_add(1).expect(rt, "a count")
}

/// Writes what fits of the bytes into the buffer: how many these are.
fn fill(buffer: &mut [u8; 1153], bytes: &[u8]) -> usize
    ensures { result ≤ 1153 }
{
    let len = bytes.len().min(1153);
    buffer[..len].copy_from_slice(&bytes[..len]);
    len
}

/// A datagram of its own.
fn copy(alloc: Global, to: Peer, bytes: &[u8]) -> Result<Datagram, AllocError>
    ensures { IfOk result (λ datagram. datagram ≡ record { to = to; bytes = bytes.now }) }
{
    Ok(Datagram {
        to,
        bytes: Bytes::from_slice(alloc, bytes)?,
    })
}

impl<'a, R: Abort> Queues<'a, R> {
    /// No queue has anything, and the call of this number fails.
    pub fn new(rt: &'a R, alloc: Global, failing: usize) -> Queues<'a, R> {
        Queues {
            rt,
            alloc,
            waiting: VecDeque::new(alloc),
            received: Vec::new(alloc),
            sent: Vec::new(alloc),
            gone: Vec::new(alloc),
            failing,
            failures: 0,
            is_silent: false,
            lost: 0,
            pace: None,
        }
    }

    /// This comes next, after what waits already.
    pub fn comes(&mut self, from: Peer, bytes: Bytes) {
        self.waiting
            .push_back((from, bytes))
            .expect(self.rt, "memory");
    }
}

impl<R: Abort> Port for Queues<'_, R> {
    ghost failures = { λ q. q.failures };

    ghost received = { λ q. Some q.received.items };

    ghost sent = { λ q. Some q.sent.items };

    fn receive(&mut self, buffer: &mut [u8; 1153]) -> Result<Option<(Peer, usize)>, PortFault> {
        if fails_now(&mut self.failing) {
            self.failures = one_more(self.rt, self.failures);
            return Err(PortFault);
        }
        let Some((from, bytes)) = self.waiting.pop_front() else {
            self.received.push(None).expect(self.rt, "memory");
            return Ok(None);
        };
        let len = fill(buffer, bytes.as_slice());
        let kept = Bytes::from_slice(self.alloc, &buffer[..len]).expect(self.rt, "memory");
        self.received
            .push(Some((from, kept)))
            .expect(self.rt, "memory");
        Ok(Some((from, len)))
    }

    fn send(&mut self, to: Peer, bytes: &[u8]) -> Result<(), PortFault> {
        let asked = copy(self.alloc, to, bytes).expect(self.rt, "memory");
        self.sent.push(asked).expect(self.rt, "memory");
        if fails_now(&mut self.failing) {
            if self.is_silent {
                self.lost = self.lost.saturating_add(1);
                return Ok(());
            }
            self.failures = one_more(self.rt, self.failures);
            return Err(PortFault);
        }
        let goes = copy(self.alloc, to, bytes).expect(self.rt, "memory");
        self.gone.push(goes).expect(self.rt, "memory");
        Ok(())
    }
}
