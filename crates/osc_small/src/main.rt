//! A server on a UDP socket of IPv4: `osc_small 127.0.0.1:5683`. It has no resources: who has a token makes them, as far as the token grants that.
#![tactic(auto)]

use osc_authz::ServerDesk;
use osc_ccm::Suite;
use osc_model::Peer;
use osc_scope::Scope;
use osc_server::Server;
use osc_token::Audience;
use osc_tree::Tree;
use osc_turn::ClockAndRandom;
use std::net::{SocketAddr, UdpSocket};
use std::{env, io};

/// The key that the issuer of tokens has as well: `osc token --key 30313233343536373839616263646566 --aud door ..`.
const KEY: [u8; 16] = *b"0123456789abcdef";

fn main(rt: HostRuntime) -> io::Result<()> {
    for address in env::args(&rt)?.skip(1) {
        serve(&rt, &UdpSocket::bind(&rt, address.as_str())?)?;
    }
    Ok(())
}

fn serve(rt: &HostRuntime, socket: &UdpSocket) -> io::Result<()> {
    let alloc = rt.alloc();
    let desk = ServerDesk::new(alloc, KEY, Audience::new(alloc, "door")?);
    let mut server = Server::new(alloc, Tree::new(alloc), desk, Scope::new(alloc))?;
    let mut supply = ClockAndRandom::of_system(rt)?;
    let mut bytes = [0; 1153];
    for _ in 0..u64::MAX {
        let (count, from) = socket.recv_from(&mut bytes)?;
        let SocketAddr::V4(at) = from else { continue };
        let peer = Peer::v4(at.ip().octets(), at.port());
        let (now, draw) = (supply.moment()?, supply.draw());
        let step = server.on_datagram::<Suite>(alloc, now, peer, &bytes[..count], &draw)?;
        for answer in step.out.as_slice() {
            socket.send_to(answer.bytes.as_slice(), from)?;
        }
    }
    Ok(())
}
