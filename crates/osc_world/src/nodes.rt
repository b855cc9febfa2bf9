//! The nodes of a world, and the step that one of them takes at an event.
ghost use Rattle.std.specs.Prelude.{◌≡◌, ◌≤◌, IfOk, OnErr, length, option_map, position, slice_get};
ghost use Rattle.std.specs.Borrow.{sem};
ghost use Rattle.osc_client.specs.{most_sent as most_sent_by_client};
ghost use Rattle.osc_proxy.specs.{most_sent as most_sent_by_proxy};
ghost use Rattle.osc_rounds.specs.{IsLawfulServer};
ghost use Rattle.osc_world.specs.Inner.Kinds.{IsSkip, IsStep};
ghost use Rattle.osc_world.specs.Inner.Tasks.{MayBeDone, client_task_of, most_of, most_sent, task_of, whose_step};
ghost use Rattle.osc_world.specs.Lending.{LendsClient, LendsProxy, LendsServer};
ghost use Rattle.osc_world.specs.Lawful.{AreLawfulClients, AreLawfulProxies};
ghost use Rattle.osc_world.specs.Log.{sent_by};
ghost use Rattle.osc_world.specs.Nodes.{OfClient, OfProxy, OfServer, deed_by, deed_of, found, node_at, node_of, number_at, skipped};
ghost use Rattle.osc_world.specs.Steps.{Takes};

use crate::event::{Event, What};
use crate::jobs::{ClientJob, Job, client_does, does, lies, most_by};
use crate::log::SentDatagram;
use osc_ccm::Ciphers;
use osc_client::Client;
use osc_context::NUMBER_LIMIT;
use osc_model::{Datagrams, Peer};
use osc_proxy::Proxy;
use osc_run::{Actor, Noted};
use osc_server::Server;
use std::alloc::{AllocError, Global};
use std::marker::Model;

/// A node, and where it is.
pub struct Placed<N> {
    /// Its address.
    pub at: Peer,
    /// The client, or the proxy.
    pub node: N,
}

impl<N: Drop> Drop for Placed<N> {
    fn drop(self) {
        let Placed { at: _, node: _ } = self;
    }
}

/// Who is somewhere, or whose step something is.
#[derive(Clone, Copy, Debug, PartialEq, Eq)]
pub enum Whose {
    /// The server's.
    Server,
    /// That of the client of this number, if there is one.
    Client(usize),
    /// That of the proxy of this number, if there is one.
    Proxy(usize),
    /// Nobody's.
    Nobody,
}

/// A step that a node took: where the node is, what is noted of the step, and the datagrams that it sends.
#[derive(Drop)]
pub struct StepTaken {
    /// From where its datagrams come.
    pub at: Peer,
    /// Whose it was, and what it did beside sending.
    pub noted: Noted,
    /// What it sends.
    pub out: Datagrams,
}

/// A server, its clients and the proxies, each where it is: what a world has beside its network, and a lab beside its ports. One of
/// them takes a step at a time.
pub struct Nodes {
    server_at: Peer,
    server: Server,
    clients: Vec<Placed<Client>>,
    proxies: Vec<Placed<Proxy>>,
}

impl Drop for Nodes {
    fn drop(self) {
        let Nodes {
            server_at: _,
            server: _,
            clients: _,
            proxies: _,
        } = self;
    }
}

impl Model for Nodes {
    ghost use Rattle.osc_world.specs.Nodes.{NodeStates};
    ghost use Rattle.std.specs.Coded.{codes};
    ghost use Rattle.osc_model.specs.{coded_scope, coded_tree};

    ghost Value = { NodeStates };

    ghost coded = { Prim.hlevel (codes, coded_scope, coded_tree) };

    ghost view = { λ n. record { server_at = n.server_at; server = n.server; clients = n.clients.items; proxies = n.proxies.items } };
}

/// The number of the first of these that applies there.
fn number_at<N>(all: &[Placed<N>], at: Peer) -> Option<usize>
    ensures { result ≡ number_at all.now at }
{
    all.iter().position(|placed| placed.at == at)
}

/// The client of this number, if one was found, or else the proxy of that number.
fn found(client: Option<usize>, proxy: Option<usize>) -> Whose
    ensures { result ≡ found client proxy }
{
    match (client, proxy) {
        (Some(number), _) => Whose::Client(number),
        (None, Some(number)) => Whose::Proxy(number),
        (None, None) => Whose::Nobody,
    }
}

/// The node of this name.
fn node_of(node: Actor) -> Whose
    ensures { result ≡ node_of node }
{
    match node {
        Actor::Server => Whose::Server,
        Actor::Client(number) => Whose::Client(number),
        Actor::Proxy(number) => Whose::Proxy(number),
    }
}

/// For proofs: what is true of each client. Looks at each, and changes nothing.
fn are_lawful_clients(clients: &[Placed<Client>])
    ensures { AreLawfulClients clients.now }
{
    for placed in clients {
        placed.node.has_lawful_parts();
    }
}

/// For proofs: what is true of each proxy. Looks at each, and changes nothing.
fn are_lawful_proxies(proxies: &[Placed<Proxy>])
    ensures { AreLawfulProxies proxies.now }
{
    for placed in proxies {
        // The call tells what always holds of a proxy.
        let _open = placed.node.open_exchanges();
    }
}

impl Nodes {
    /// These nodes; takes no memory.
    pub fn new(
        server_at: Peer,
        server: Server,
        clients: Vec<Placed<Client>>,
        proxies: Vec<Placed<Proxy>>,
    ) -> Nodes
        ensures { result ≡ record { server_at = server_at; server = server; clients = clients.items; proxies = proxies.items } }
    {
        Nodes {
            server_at,
            server,
            clients,
            proxies,
        }
    }

    /// The server.
    pub fn server(&self) -> &Server
        ensures { result.now ≡ self.now.server }
    {
        &self.server
    }

    /// The client of this number, from 0, and where it is, if there is one.
    pub fn client(&self, number: usize) -> Option<&Placed<Client>>
        ensures { option_map (λ placed. placed.now) result ≡ slice_get self.now.clients number }
    {
        self.clients.get(number)
    }

    /// The proxy of this number, from 0, and where it is, if there is one.
    pub fn proxy(&self, number: usize) -> Option<&Placed<Proxy>>
        ensures { option_map (λ placed. placed.now) result ≡ slice_get self.now.proxies number }
    {
        self.proxies.get(number)
    }

    /// The clients, by their numbers.
    pub fn clients(&self) -> &[Placed<Client>]
        ensures { result.now ≡ self.now.clients }
    {
        &self.clients
    }

    /// The proxies, by their numbers.
    pub fn proxies(&self) -> &[Placed<Proxy>]
        ensures { result.now ≡ self.now.proxies }
    {
        &self.proxies
    }

    /// The server, for a step.
    pub fn server_mut(&mut self) -> &mut Server
        ensures* lends { sem 𝓛 (LendsServer self.entry result) }
        ensures is { result.now ≡ self.old.server }
    {
        &mut self.server
    }

    /// The client of this number, for a step, if there is one.
    pub fn client_mut(&mut self, number: usize) -> Option<&mut Placed<Client>>
        ensures* lends { sem 𝓛 (LendsClient self.entry number result) }
        ensures is { option_map (λ placed. placed.now) result ≡ slice_get self.old.clients number }
    {
        self.clients.get_mut(number)
    }

    /// The proxy of this number, for a step, if there is one.
    pub fn proxy_mut(&mut self, number: usize) -> Option<&mut Placed<Proxy>>
        ensures* lends { sem 𝓛 (LendsProxy self.entry number result) }
        ensures is { option_map (λ placed. placed.now) result ≡ slice_get self.old.proxies number }
    {
        self.proxies.get_mut(number)
    }

    /// The server, the clients and the proxies.
    pub fn into_parts(self) -> (Server, Vec<Placed<Client>>, Vec<Placed<Proxy>>)
        ensures server { result.0 ≡ self.server }
        ensures clients { result.1.items ≡ self.clients }
        ensures proxies { result.2.items ≡ self.proxies }
    {
        let Nodes {
            server_at: _,
            server,
            clients,
            proxies,
        } = self;
        (server, clients, proxies)
    }

    /// For proofs: what is true of each server. Does nothing.
    pub(crate) fn has_a_lawful_server(&self)
        ensures { IsLawfulServer self.now.server }
    {
        let _resources = self.server.tree().len();
        let _desk = self.server.desk();
    }

    /// For proofs: what is true of each client. Changes nothing.
    pub(crate) fn has_lawful_clients(&self)
        ensures { AreLawfulClients self.now.clients }
    {
        are_lawful_clients(&self.clients);
    }

    /// For proofs: what is true of each proxy. Changes nothing.
    pub(crate) fn has_lawful_proxies(&self)
        ensures { AreLawfulProxies self.now.proxies }
    {
        are_lawful_proxies(&self.proxies);
    }

    /// Who is there: the server, or the first client that does, or the first proxy.
    pub fn at(&self, at: Peer) -> Whose
        ensures { result ≡ node_at self.now at }
    {
        if self.server_at == at {
            return Whose::Server;
        }
        found(number_at(&self.clients, at), number_at(&self.proxies, at))
    }

    /// Whose step an event is.
    pub(crate) fn whose(&self, sent: &[SentDatagram], what: &What) -> Whose
        ensures { result ≡ whose_step self.now sent.now what.now }
    {
        match what {
            What::Exchange { client } | What::Ask { client, .. } | What::Lie { client, .. } => {
                Whose::Client(*client)
            }
            What::Tick { node } | What::Restart { node } => node_of(*node),
            What::Deliver { datagram } => match sent.get(*datagram) {
                Some(sent) => self.at(sent.to),
                None => Whose::Nobody,
            },
            What::Inject { to, .. } => self.at(*to),
        }
    }

    /// How many datagrams this node sends at most in its next step. For more than there are numbers no memory is enough.
    pub(crate) fn most_sent<A: Ciphers>(&self, whose: Whose) -> Result<usize, AllocError>
        ensures { IfOk result (λ most. most ≡ most_sent self.now whose) }
    {
        match whose {
            Whose::Server => most_by::<A, Server>(&self.server),
            Whose::Client(number) => match self.clients.get(number) {
                Some(placed) => most_by::<A, Client>(&placed.node),
                None => Ok(0),
            },
            Whose::Proxy(number) => match self.proxies.get(number) {
                Some(placed) => most_by::<A, Proxy>(&placed.node),
                None => Ok(0),
            },
            Whose::Nobody => Ok(0),
        }
    }

    /// What the event leads to is done by the node whose step it is. Without memory an `AllocError`; then nothing has changed.
    pub(crate) fn take<A: Ciphers>(
        &mut self,
        alloc: Global,
        whose: Whose,
        event: &Event,
        sent: &[SentDatagram],
    ) -> Result<Option<StepTaken>, AllocError>
        requires { whose ≡ whose_step self.old sent.now event.now.what }
        ensures takes { IfOk result (λ taken. Takes A.is_sealing A.TAG self.old (deed_of self.old sent.now event.now) taken self.new) }
        ensures step { IfOk result (λ taken. IsStep event.now.moment self.old taken self.new) }
        ensures few { IfOk result (λ taken. length (sent_by taken) ≤ most_sent self.old whose) }
        ensures err { OnErr result (self.new ≡ self.old) }
    {
        match &event.what {
            What::Exchange { client } => {
                self.client_takes::<A>(alloc, *client, event, ClientJob::Begin)
            }
            What::Ask { client, request } if request.code.0 > 0 => {
                self.client_takes::<A>(alloc, *client, event, ClientJob::Ask(request))
            }
            What::Ask { .. } => Ok(None),
            What::Lie {
                client,
                number,
                text,
            } if *number <= NUMBER_LIMIT => {
                let lie = ClientJob::TellLie {
                    number: *number,
                    text: text.as_slice(),
                };
                self.client_takes::<A>(alloc, *client, event, lie)
            }
            What::Lie { .. } => Ok(None),
            What::Tick { .. } => self.one_takes::<A>(alloc, whose, event, Job::Tick),
            What::Restart { .. } => self.one_takes::<A>(alloc, whose, event, Job::StartAgain),
            What::Deliver { datagram } => match sent.get(*datagram) {
                Some(sent) => {
                    let hear = Job::Hear {
                        from: sent.from,
                        bytes: sent.bytes.as_slice(),
                    };
                    self.one_takes::<A>(alloc, whose, event, hear)
                }
                None => Ok(None),
            },
            What::Inject { from, bytes, .. } => {
                let hear = Job::Hear {
                    from: *from,
                    bytes: bytes.as_slice(),
                };
                self.one_takes::<A>(alloc, whose, event, hear)
            }
        }
    }

    /// Raises the number that a client takes next; a lower one changes nothing, and so does a client that isn't there or has no
    /// context. Takes no memory.
    pub(crate) fn skip(&mut self, client: usize, number: u64)
        ensures skipped { self.new ≡ skipped client number self.old }
        ensures kind { IsSkip client self.old self.new }
    {
        let Some(placed) = self.clients.get_mut(client) else {
            return;
        };
        placed.node.skip_to(number);
    }

    /// This node does it, if it is there.
    fn one_takes<A: Ciphers>(
        &mut self,
        alloc: Global,
        whose: Whose,
        event: &Event,
        job: Job<'_>,
    ) -> Result<Option<StepTaken>, AllocError>
        ensures takes { IfOk result (λ taken. Takes A.is_sealing A.TAG self.old (deed_by whose (task_of event.now job.entry)) taken self.new) }
        ensures step { IfOk result (λ taken. IsStep event.now.moment self.old taken self.new) }
        ensures few { IfOk result (λ taken. length (sent_by taken) ≤ most_sent self.old whose) }
        ensures err { OnErr result (self.new ≡ self.old) }
    {
        match whose {
            Whose::Server => self.server_takes::<A>(alloc, event, job),
            Whose::Client(number) => {
                self.client_takes::<A>(alloc, number, event, ClientJob::Do(job))
            }
            Whose::Proxy(number) => self.proxy_takes::<A>(alloc, number, event, job),
            Whose::Nobody => Ok(None),
        }
    }

    /// The server does it.
    fn server_takes<A: Ciphers>(
        &mut self,
        alloc: Global,
        event: &Event,
        job: Job<'_>,
    ) -> Result<Option<StepTaken>, AllocError>
        ensures takes { IfOk result (λ taken. Takes A.is_sealing A.TAG self.old (OfServer (task_of event.now job.entry)) taken self.new) }
        ensures step { IfOk result (λ taken. IsStep event.now.moment self.old taken self.new) }
        ensures few { IfOk result (λ taken. length (sent_by taken) ≤ 1) }
        ensures err { OnErr result (self.new ≡ self.old) }
    {
        let step = does::<A, Server>(alloc, &mut self.server, event, job)?;
        Ok(Some(StepTaken {
            at: self.server_at,
            noted: Noted::by_server(step.notes),
            out: step.out,
        }))
    }

    /// The client of this number does it, if it is there.
    fn client_takes<A: Ciphers>(
        &mut self,
        alloc: Global,
        number: usize,
        event: &Event,
        job: ClientJob<'_>,
    ) -> Result<Option<StepTaken>, AllocError>
        requires { MayBeDone job }
        ensures takes { IfOk result (λ taken. Takes A.is_sealing A.TAG self.old (OfClient number (client_task_of event.now job.entry)) taken self.new) }
        ensures step { IfOk result (λ taken. IsStep event.now.moment self.old taken self.new) }
        ensures few { IfOk result (λ taken. length (sent_by taken) ≤ most_of most_sent_by_client (slice_get self.old.clients number)) }
        ensures err { OnErr result (self.new ≡ self.old) }
    {
        let Some(placed) = self.clients.get_mut(number) else {
            return Ok(None);
        };
        let step = client_does::<A>(alloc, &mut placed.node, event, job)?;
        Ok(Some(StepTaken {
            at: placed.at,
            noted: Noted::by_client(number, lies(job), step.notes),
            out: step.out,
        }))
    }

    /// The proxy of this number does it, if it is there.
    fn proxy_takes<A: Ciphers>(
        &mut self,
        alloc: Global,
        number: usize,
        event: &Event,
        job: Job<'_>,
    ) -> Result<Option<StepTaken>, AllocError>
        ensures takes { IfOk result (λ taken. Takes A.is_sealing A.TAG self.old (OfProxy number (task_of event.now job.entry)) taken self.new) }
        ensures step { IfOk result (λ taken. IsStep event.now.moment self.old taken self.new) }
        ensures few { IfOk result (λ taken. length (sent_by taken) ≤ most_of most_sent_by_proxy (slice_get self.old.proxies number)) }
        ensures err { OnErr result (self.new ≡ self.old) }
    {
        let Some(placed) = self.proxies.get_mut(number) else {
            return Ok(None);
        };
        let step = does::<A, Proxy>(alloc, &mut placed.node, event, job)?;
        Ok(Some(StepTaken {
            at: placed.at,
            noted: Noted::by_proxy(number, step.notes),
            out: step.out,
        }))
    }
}
