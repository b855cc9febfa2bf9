//! A node that takes steps: a server, a client, a proxy.
ghost use Rattle.std.specs.Prelude.{◌≡◌, ◌≤◌, ◌↔◌, ℕ, Bool, true, false, IfNone, IfOk, IfSome, OnErr, length};
ghost use Rattle.osc_model.specs.declared.node.Moment.{Moment as AnyMoment};
ghost use Rattle.osc_model.specs.declared.step.Step.{Step as AnyStep};
ghost use Rattle.osc_run.specs.Nodes.{Came, Cause, Due};

use osc_ccm::Ciphers;
use osc_model::{Draw, Moment, Peer, Step};
use std::alloc::{AllocError, Global};

/// A node, which takes a step for each datagram that comes to it and for each time at which something is due. Protected messages are
/// sealed and opened by the ciphers `A`.
pub trait Node<A: Ciphers> {
    // The node took this step for this cause, and is as the last of these after it.
    ghost is_step: { Self → Cause → AnyStep → Self → Type 0 };

    // Whether a tick at this moment sends, gives up or ends anything.
    ghost acts: { Self → AnyMoment → Bool };

    // The node as it starts again.
    ghost again: { Self → Self };

    // How many datagrams its next step sends at most.
    ghost most_sent: { Self → ℕ };

    /// These bytes came from this peer at this moment as one datagram: the step that answers them. Without memory for it an
    /// `AllocError`; then nothing has changed.
    fn hear(
        &mut self,
        alloc: Global,
        now: Moment,
        from: Peer,
        bytes: &[u8],
        draw: &Draw,
    ) -> Result<Step, AllocError>
        ensures heard { IfOk result (λ step. is_step self.old (Came (record { at = now; from = from; draw = draw.now; what = bytes.now })) step self.new) }
        ensures few { IfOk result (λ step. length step.out ≤ most_sent self.old) }
        ensures err { OnErr result (self.new ≡ self.old) };

    /// Nothing came by this moment: the step that sends what is due. It is done whatever memory there is: what can't be sent without
    /// it is lost, as on the way.
    fn tick(&mut self, alloc: Global, now: Moment, draw: &Draw) -> Step
        ensures ticked { is_step self.old (Due now draw.now) result self.new }
        ensures few { length result.out ≤ most_sent self.old };

    /// The first moment at which a tick does anything, in ms, or none where no tick would.
    fn next_due(&self) -> Option<u64>
        ensures some { IfSome result (λ deadline. (now : AnyMoment) → (acts self.now now ≡ true) ↔ (deadline ≤ now.ms)) }
        ensures none { IfNone result ((now : AnyMoment) → acts self.now now ≡ false) };

    /// Starts again: what the node was given stays, and what it learnt since is forgotten.
    fn start_again(&mut self)
        ensures { self.new ≡ again self.old };

    /// How many datagrams its next step sends at most. For more than there are numbers no memory is enough: then an `AllocError`.
    fn most_sent(&self) -> Result<usize, AllocError>
        ensures { IfOk result (λ most. most ≡ most_sent self.now) };
}
