//! What a server and a proxy hold, as their logs tell it.
ghost use Rattle.std.specs.Prelude.{◌≡◌, ◌<◌, if◌then◌else◌};
ghost use Rattle.osc_programs.specs.Holding as spec;

use osc_authz::ServerDesk;
use osc_log::{Held, TellsHeld};
use osc_proxy::Proxy;
use osc_server::Server;

/// A node of which is known what it holds.
pub(crate) trait Holding {
    ghost use Rattle.osc_log.specs.declared.held.Held.{Held};

    // What it holds.
    ghost held: { Self → Held };

    /// What it holds now.
    fn held_now(&self) -> Held
        ensures { result ≡ held self.now };
}

/// A node as a log asks it what it holds.
#[derive(Drop)]
pub(crate) struct AskedNode<'a, N: Holding> {
    pub node: &'a N,
}

impl<'a, N: Holding> TellsHeld for AskedNode<'a, N> {
    ghost held = { λ asked. N.held asked.node.now };

    fn held(&self) -> Held {
        self.node.held_now()
    }
}

impl Holding for Server {
    ghost held = { spec.server_held };

    fn held_now(&self) -> Held {
        Held::Server {
            contexts: contexts_of(self.desk()),
            resources: self.tree().len(),
        }
    }
}

impl Holding for Proxy {
    ghost held = { spec.proxy_held };

    fn held_now(&self) -> Held {
        Held::Proxy {
            exchanges: self.open_exchanges(),
        }
    }
}

// How many recipient IDs, each of one byte, name a security context.
fn contexts_of(desk: &ServerDesk) -> usize
    ensures { result ≡ spec.contexts_of desk.now.table }
{
    let mut count = 0;
    for id in 0..256u16 {
        if is_taken(desk, id) {
            count += 1;
        }
    }
    count
}

fn is_taken(desk: &ServerDesk, id: u16) -> bool
    requires { id < 256 }
    ensures { result ≡ spec.is_taken id desk.now.table }
{
    desk.get(&[id as u8]).is_some()
}
