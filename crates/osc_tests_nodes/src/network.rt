//! The ports of a client, a proxy and a server, and what brings each one's datagrams to the others.
ghost use Rattle.std.specs.Prelude.{◌<◌};

use crate::queues::Queues;
use crate::telling::{sends, takes};
use osc_ccm::Suite;
use osc_client::Client;
use osc_fixtures::{CLIENT, PROXY, SERVER, at, drawn};
use osc_model::{Bytes, Datagram, Peer, Request};
use osc_proxy::Proxy;
use osc_server::Server;
use osc_turn::Pace;
use std::alloc::Global;
use std::mem;
use std::process::Abort;
use std::test::*;

/// What is done, turn by turn.
#[derive(Clone, Copy)]
pub(crate) enum Doing {
    /// The client begins an exchange.
    Exchanges,
    /// The client sends its request.
    Asks,
    /// The client's turn, the proxy's, the server's.
    Client,
    Proxy,
    Server,
    /// What waits for the client is lost.
    Loses,
    /// The proxy starts again.
    Restarts,
}

/// Three ports, of whose calls one fails.
#[derive(Drop)]
pub(crate) struct Network<'a, R: Abort> {
    rt: &'a R,
    alloc: Global,
    client: Queues<'a, R>,
    proxy: Queues<'a, R>,
    server: Queues<'a, R>,
    /// The call that fails, counted over all three: the next one is 1. None fails where this is 0.
    pub failing: usize,
}

impl<'a, R: Abort> Network<'a, R> {
    /// Nothing was sent, and the call of this number fails.
    pub fn new(rt: &'a R, alloc: Global, failing: usize) -> Network<'a, R> {
        Network {
            rt,
            alloc,
            client: Queues::new(rt, alloc, 0),
            proxy: Queues::new(rt, alloc, 0),
            server: Queues::new(rt, alloc, 0),
            failing,
        }
    }

    /// How many calls failed.
    pub fn failures(&self) -> (usize, usize, usize) {
        (
            self.client.failures,
            self.proxy.failures,
            self.server.failures,
        )
    }

    /// The call that would fail doesn't, if it sends: what it sends is lost on its way, and nobody is told.
    pub fn fails_silently(&mut self) {
        self.client.is_silent = true;
        self.proxy.is_silent = true;
        self.server.is_silent = true;
    }

    /// Each node ticks first where something of its own is due, and takes what waits then.
    pub fn keeps_pace(&mut self) {
        self.client.pace = Some(Pace::START);
        self.proxy.pace = Some(Pace::START);
        self.server.pace = Some(Pace::START);
    }

    /// Each datagram that a port was asked to send, port by port, each after the port to which it goes.
    pub fn all_sent(&self) -> Vec<u8> {
        let mut all = Vec::new(self.alloc);
        for &port in &[&self.client, &self.proxy, &self.server] {
            for datagram in &port.sent {
                all.extend_from_slice(&datagram.to.port.to_be_bytes())
                    .expect(self.rt, "memory");
                all.extend_from_slice(datagram.bytes.as_slice())
                    .expect(self.rt, "memory");
            }
        }
        all
    }

    /// What each receive of the proxy gave.
    pub fn came_to_proxy(&self) -> &[Option<(Peer, Bytes)>] {
        &self.proxy.received
    }

    /// What was sent from there comes to whom it was sent.
    fn deliver(&mut self, from: Peer, gone: Vec<Datagram>) {
        for datagram in gone {
            self.deliver_one(from, datagram);
        }
    }

    fn deliver_one(&mut self, from: Peer, datagram: Datagram) {
        let Datagram { to, bytes } = datagram;
        if to == CLIENT {
            self.client.comes(from, bytes);
        } else if to == PROXY {
            self.proxy.comes(from, bytes);
        } else {
            self.server.comes(from, bytes);
        }
    }

    /// What the client sent of late comes to whom it was sent.
    fn deliver_from_client(&mut self) {
        self.failing = self.client.failing;
        let gone = mem::replace(&mut self.client.gone, Vec::new(self.alloc));
        self.deliver(CLIENT, gone);
    }

    /// The client begins an exchange at this moment.
    pub fn exchanges(&mut self, client: &mut Client, ms: u64) {
        let step = client.exchange(self.alloc, at(ms), &drawn(1));
        self.client.failing = self.failing;
        sends(self.rt, &mut self.client, step);
        self.deliver_from_client();
    }

    /// The client asks for this at this moment.
    pub fn asks(&mut self, client: &mut Client, request: &Request, ms: u64)
        requires { 0 < request.now.code.0 }
    {
        let step = client.ask::<Suite>(self.alloc, at(ms), request, &drawn(2));
        self.client.failing = self.failing;
        sends(self.rt, &mut self.client, step);
        self.deliver_from_client();
    }

    /// The client's turn, and what it learns; none after a failed receive. It is as before then.
    fn client_turns(&mut self, client: &mut Client, ms: u64) -> Option<u8> {
        let open = client.open_messages();
        self.client.failing = self.failing;
        let learnt = takes(self.rt, self.alloc, &mut self.client, client, ms);
        assert!(self.rt; learnt.is_some() || client.open_messages() == open);
        self.deliver_from_client();
        learnt
    }

    /// The proxy's turn; none after a failed receive. It is as before then.
    fn proxy_turns(&mut self, proxy: &mut Proxy, ms: u64) -> Option<u8> {
        let open = (proxy.open_messages(), proxy.open_exchanges());
        self.proxy.failing = self.failing;
        let told = takes(self.rt, self.alloc, &mut self.proxy, proxy, ms);
        assert!(self.rt; told.is_some() || (proxy.open_messages(), proxy.open_exchanges()) == open);
        self.failing = self.proxy.failing;
        let gone = mem::replace(&mut self.proxy.gone, Vec::new(self.alloc));
        self.deliver(PROXY, gone);
        told
    }

    /// The server's turn; none after a failed receive. It is as before then.
    fn server_turns(&mut self, server: &mut Server, ms: u64) -> Option<u8> {
        let resources = server.tree().len();
        self.server.failing = self.failing;
        let told = takes(self.rt, self.alloc, &mut self.server, server, ms);
        assert!(self.rt; told.is_some() || server.tree().len() == resources);
        self.failing = self.server.failing;
        let gone = mem::replace(&mut self.server.gone, Vec::new(self.alloc));
        self.deliver(SERVER, gone);
        told
    }

    /// This is done at this moment, in ms: what the client learnt of it, 0 for nothing; none where a receive failed.
    pub fn does(
        &mut self,
        client: &mut Client,
        proxy: &mut Proxy,
        server: &mut Server,
        request: &Request,
        what: (u64, Doing),
    ) -> Option<u8>
        requires { 0 < request.now.code.0 }
    {
        let (ms, doing) = what;
        match doing {
            Doing::Exchanges => self.exchanges(client, ms),
            Doing::Asks => self.asks(client, request, ms),
            Doing::Client => return self.client_turns(client, ms),
            Doing::Proxy => return self.proxy_turns(proxy, ms),
            Doing::Server => return self.server_turns(server, ms),
            Doing::Loses => self.client.waiting.clear(),
            Doing::Restarts => proxy.restart(),
        }
        Some(0)
    }

    /// The proxy forwards what the client asked at this moment and the server answers it; but whatever came to the client meanwhile is lost,
    /// and the proxy starts again before the answer comes to it.
    pub fn forgets(&mut self, proxy: &mut Proxy, server: &mut Server, ms: u64) {
        self.proxy_turns(proxy, ms);
        self.server_turns(server, ms);
        self.client.waiting.clear();
        proxy.restart();
    }

    /// Four turns of each at this moment: the last that the client learnt, if anything, and else this.
    pub fn turns(
        &mut self,
        client: &mut Client,
        proxy: &mut Proxy,
        server: &mut Server,
        ms: u64,
        before: u8,
    ) -> u8 {
        let mut last = before;
        for _ in 0..4 {
            let learnt = self.client_turns(client, ms).unwrap_or(0);
            self.proxy_turns(proxy, ms);
            self.server_turns(server, ms);
            if learnt != 0 {
                last = learnt;
            }
        }
        last
    }
}
