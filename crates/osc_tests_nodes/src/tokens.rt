//! Tokens with dates, posted to a server whose table of contexts is full.
use osc_ccm::Suite;
use osc_fixtures::{CLIENT, GET_AND_POST, Right, at, drawn, empty_server, own, sent, token};
use osc_server::Server;
use std::alloc::{AllocError, Global};
use std::process::Abort;
use std::test::*;

/// What the token of this id gives until this second, if any.
fn until(id: u8, expires: Option<u64>) -> Right {
    Right {
        expires,
        ..own(id, GET_AND_POST)
    }
}

/// A post of the token of this id to authz-info, in a message of the same ID.
fn post(alloc: Global, id: u8, expires: Option<u64>) -> Result<Vec<u8>, AllocError> {
    let token = token(alloc, until(id, expires))?;
    let mut post = Vec::from_slice(alloc, &[0x40, 2, 0, id])?;
    post.extend_from_slice(b"\xbaauthz-info\x11\x13\xff\xa3\x01\x58")?;
    post.push((token.len() % 256) as u8)?;
    post.extend_from_slice(&token)?;
    post.extend_from_slice(b"\x18\x28\x48\0\0\0\0\0\0\0\x01\x18\x2b\x41\0")?;
    Ok(post)
}

/// The code that answers the datagram at this moment in ms; 0 where nothing does.
fn code(alloc: Global, server: &mut Server, ms: u64, datagram: &[u8]) -> u8 {
    match server.on_datagram::<Suite>(alloc, at(ms), CLIENT, datagram, &drawn(0)) {
        Ok(step) => {
            let code = sent(&step).get(1).copied().unwrap_or(0);
            drop(step);
            code
        }
        Err(_) => 0,
    }
}

/// Where 64 tokens have a context until 100 s, the 65th gets one from that millisecond on.
fn takes_the_place_of_the_dead(
    rt: &impl Abort,
    alloc: Global,
    server: &mut Server,
) -> Result<(), Fail> {
    for id in 1..65 {
        let post = post(alloc, id, Some(100))?;
        assert!(rt; code(alloc, server, 0, &post) == 0x41);
    }
    let mut further = post(alloc, 65, None)?;
    assert!(rt; code(alloc, server, 99_999, &further) == 0xa3);
    if let Some(id) = further.get_mut(2) {
        *id = 1;
    }
    assert!(rt; code(alloc, server, 100_000, &further) == 0x41);
    Ok(())
}

#[test]
fn sixty_five_tokens(rt: HostRuntime) -> Result<(), Fail> {
    let mut server = empty_server(rt.alloc())?;
    takes_the_place_of_the_dead(&rt, rt.alloc(), &mut server)
}
