//! What a node is to do at an event, and what it does.
ghost use Rattle.std.specs.Prelude.{◌≡◌, ◌≤◌, IfOk, OnErr, length};
ghost use Rattle.osc_client.specs.{core as core_of_client, most_sent as most_sent_by_client};
ghost use Rattle.osc_run.specs.{ClientStep};
ghost use Rattle.osc_world.specs.Inner.Tasks.{MayBeDone, client_task_of, task_of};
ghost use Rattle.osc_world.specs.Steps.{ClientDoes, Does, is_lie};
ghost use Rattle.osc_world.specs.declared.event.Event.{Event as AnyEvent};

use crate::adversary::lie;
use crate::event::Event;
use osc_ccm::Ciphers;
use osc_client::Client;
use osc_model::{Datagrams, Peer, Request, Step};
use osc_run::Node;
use std::alloc::{AllocError, Global};

/// What any node is to do.
#[derive(Clone, Copy)]
pub(crate) enum Job<'a> {
    /// To hear these bytes, which come from this address.
    Hear { from: Peer, bytes: &'a [u8] },
    /// To do what is due.
    Tick,
    /// To start again.
    StartAgain,
}

/// What a client is to do.
#[derive(Clone, Copy)]
pub(crate) enum ClientJob<'a> {
    /// To begin an exchange.
    Begin,
    /// To ask this.
    Ask(&'a Request),
    /// To seal this text at this number.
    TellLie { number: u64, text: &'a [u8] },
    /// What any node may be to do.
    Do(Job<'a>),
}

/// What any node does.
pub(crate) fn does<A: Ciphers, N: Node<A>>(
    alloc: Global,
    node: &mut N,
    event: &Event,
    job: Job<'_>,
) -> Result<Step, AllocError>
    ensures does { IfOk result (λ step. Does N.is_step N.again (task_of event.now job.entry) node.old step node.new) }
    ensures few { IfOk result (λ step. length step.out ≤ N.most_sent node.old) }
    ensures err { OnErr result (node.new ≡ node.old) }
{
    match job {
        Job::Hear { from, bytes } => node.hear(alloc, event.moment, from, bytes, &event.draw),
        Job::Tick => Ok(node.tick(alloc, event.moment, &event.draw)),
        Job::StartAgain => {
            node.start_again();
            Ok(Step::sending(Datagrams::new(alloc)))
        }
    }
}

/// How many datagrams any node sends at most in its next step.
pub(crate) fn most_by<A: Ciphers, N: Node<A>>(node: &N) -> Result<usize, AllocError>
    ensures { IfOk result (λ most. most ≡ N.most_sent node.now) }
{
    node.most_sent()
}

/// Whether a client's holder is to seal what it likes.
pub(crate) fn lies(job: ClientJob<'_>) -> bool
    ensures { (event : AnyEvent) → result ≡ is_lie (client_task_of event job.entry) }
{
    match job {
        ClientJob::TellLie { .. } => true,
        _ => false,
    }
}

/// What a client does.
pub(crate) fn client_does<A: Ciphers>(
    alloc: Global,
    client: &mut Client,
    event: &Event,
    job: ClientJob<'_>,
) -> Result<Step, AllocError>
    requires { MayBeDone job }
    ensures does { IfOk result (λ step. ClientDoes A.is_sealing A.TAG (client_task_of event.now job.entry) client.old step client.new) }
    ensures kind { IfOk result (λ step. ClientStep (is_lie (client_task_of event.now job.entry)) (core_of_client client.old) step.notes (core_of_client client.new)) }
    ensures few { IfOk result (λ step. length step.out ≤ most_sent_by_client client.old) }
    ensures err { OnErr result (client.new ≡ client.old) }
{
    match job {
        ClientJob::Begin => client.exchange(alloc, event.moment, &event.draw),
        ClientJob::Ask(request) => client.ask::<A>(alloc, event.moment, request, &event.draw),
        ClientJob::TellLie { number, text } => lie::<A>(alloc, client, number, text, &event.draw),
        ClientJob::Do(job) => does::<A, Client>(alloc, client, event, job),
    }
}
