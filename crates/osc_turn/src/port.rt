//! What takes datagrams and gives them.
ghost use Rattle.std.specs.Prelude.{◌≡◌, ◌≤◌, ◌<◌, [], ◌∷◌, ℕ, List, Option, IfOk, IfSome, OnErr, OnOk};
ghost use Rattle.osc_model.specs.Refusals as refusal;
ghost use Rattle.osc_model.specs.declared.step.Datagram.{Datagram};
ghost use Rattle.osc_turn.specs.Ports.{Received, came_for, grown, received_in};

use osc_model::{Peer, refusals};
use thiserror::Error;

/// A receive or a send that failed.
#[derive(Clone, Copy, Debug, PartialEq, Eq, Error)]
#[error("port failed")]
pub struct PortFault;

impl PortFault {
    /// The number by which programs name the refusal.
    pub fn number(self) -> u8
        ensures { result ≡ refusal.port_fault }
    {
        refusals::PORT_FAULT
    }
}

/// What takes datagrams and gives them, such as a socket, and counts the calls that failed.
///
/// Contracts see what it handed over and what it was asked to send where it tells that. A queue in memory does; of a socket nothing can be
/// said.
pub trait Port {
    // How many calls failed so far.
    ghost failures: { Self → ℕ };

    // What each receive that didn't fail gave so far: a datagram with its sender, or nothing.
    ghost received: { Self → Option (List (Option Received)) };

    // The datagrams that it was asked to send so far, whether or not that failed.
    ghost sent: { Self → Option (List Datagram) };

    /// Takes a datagram, if one came: answers its sender, and how many bytes of the buffer it has. The longest datagram that any node
    /// reads has 1152 bytes; of one that is longer than the buffer the first 1153 bytes are handed over.
    fn receive(&mut self, buffer: &mut [u8; 1153]) -> Result<Option<(Peer, usize)>, PortFault>
        ensures within { IfOk result (λ got. IfSome got (λ datagram. datagram.1 ≤ 1153)) }
        ensures received { IfOk result (λ got. received self.new ≡ grown (received self.old) (received_in buffer.new got ∷ [])) }
        ensures not_received { OnErr result (received self.new ≡ received self.old) }
        ensures not_sent { sent self.new ≡ sent self.old }
        ensures counted { OnErr result (failures self.old < failures self.new) }
        ensures not_counted { OnOk result (failures self.new ≡ failures self.old) };

    /// Takes a datagram that waits already, as `receive` does. Where none waits, it answers so at once, and that nothing came isn't told: `received` stays.
    fn receive_waiting(
        &mut self,
        buffer: &mut [u8; 1153],
    ) -> Result<Option<(Peer, usize)>, PortFault>
        ensures within { IfOk result (λ got. IfSome got (λ datagram. datagram.1 ≤ 1153)) }
        ensures received { IfOk result (λ got. received self.new ≡ grown (received self.old) (came_for (received_in buffer.new got))) }
        ensures not_received { OnErr result (received self.new ≡ received self.old) }
        ensures not_sent { sent self.new ≡ sent self.old }
        ensures counted { OnErr result (failures self.old < failures self.new) }
        ensures not_counted { OnOk result (failures self.new ≡ failures self.old) }
    {
        let _ = buffer;
        Ok(None)
    }

    /// Sends a datagram to this peer. After a failure it is lost.
    fn send(&mut self, to: Peer, bytes: &[u8]) -> Result<(), PortFault>
        ensures sent { sent self.new ≡ grown (sent self.old) ((record { to = to; bytes = bytes.now }) ∷ []) }
        ensures not_received { received self.new ≡ received self.old }
        ensures counted { OnErr result (failures self.old < failures self.new) }
        ensures not_counted { OnOk result (failures self.new ≡ failures self.old) };
}
