//! A protected request that comes again, at a server that keeps the last answer of each context: the reply that was sealed before goes out again.
ghost use Rattle.std.specs.Prelude.{◌<◌, ◌≤◌, length};

use crate::protected::{
    Exchanged, FIRST, POST, POSTED, check, check_served, hears_from, is_refused_by, numbered,
    posts_again, request, request_under, sealed_under,
};
use osc_fixtures::{CLIENT, STRANGER, answering_server, empty_server, sent_in};
use osc_model::{Path, Peer, Step};
use osc_server::Server;
use std::alloc::{AllocError, Global};
use std::process::Abort;
use std::test::*;

/// What the server sends for the datagram from this peer.
fn answer_to(alloc: Global, server: &mut Server, from: Peer, datagram: &[u8]) -> Vec<u8> {
    sent_in(alloc, hears_from(alloc, server, from, datagram, 2))
}

/// How many bytes the resource has that the requests make.
fn logged(alloc: Global, server: &Server) -> Result<usize, AllocError> {
    let length = match Path::from_text(alloc, b"/log")? {
        Some(path) => match server.tree().get(&path) {
            Some(resource) => resource.payload.len(),
            None => 0,
        },
        None => 0,
    };
    Ok(length)
}

/// The datagram with this token of one byte, where it has none.
fn with_token(alloc: Global, datagram: &[u8], token: u8) -> Result<Vec<u8>, AllocError> {
    let mut bytes = Vec::new(alloc);
    for (at, byte) in datagram.iter().enumerate() {
        if at == 0 {
            bytes.push(*byte | 1)?;
        } else {
            bytes.push(*byte)?;
        }
        if at == 3 {
            bytes.push(token)?;
        }
    }
    Ok(bytes)
}

/// The datagram, whose message is non-confirmable.
fn non_confirmable(alloc: Global, datagram: &[u8]) -> Result<Vec<u8>, AllocError> {
    let mut bytes = Vec::from_slice(alloc, datagram)?;
    if let Some(first) = bytes.get_mut(0) {
        *first |= 0x10;
    }
    Ok(bytes)
}

/// The reply of a replay to the message of this ID.
fn replay(alloc: Global, id: u16) -> Result<Vec<u8>, AllocError> {
    numbered(alloc, b"\x60\x81\0\0\xd0\x01\xffReplay detected", id)
}

/// The first request of the first exchange's context is served: it, and its reply.
fn served_first(
    rt: &impl Abort,
    alloc: Global,
    server: &mut Server,
) -> Result<(Vec<u8>, Vec<u8>), Fail> {
    check(rt, alloc, server, POST, POSTED);
    let asked = request(alloc, 2, 0x0203, 0, b"a")?;
    let reply = answer_to(alloc, server, CLIENT, &asked);
    assert!(rt; reply.as_slice().starts_with(b"\x60\x44\x02\x03\x90\xff"));
    Ok((asked, reply))
}

/// The step seals, opens, serves and refuses nothing.
fn is_quiet(step: &Step) -> bool {
    let notes = &step.notes;
    notes.seals().is_none()
        && notes.opens().is_none()
        && notes.served().is_none()
        && notes.refused().is_none()
        && notes.holder().is_none()
}

/// The same sealed payload comes under another message ID and another token, and nothing is served again; the next request is served.
fn answers_again(rt: &impl Abort, alloc: Global, server: &mut Server) -> Result<(), Fail> {
    let (asked, reply) = served_first(rt, alloc, server)?;
    let other = numbered(alloc, &asked, 0x0204)?;
    let step = hears_from(alloc, server, CLIENT, &other, 2)?;
    assert!(rt; is_quiet(&step));
    let again = sent_in(alloc, Ok(step));
    assert!(rt; again.as_slice() == numbered(alloc, &reply, 0x0204)?.as_slice());
    let third = with_token(alloc, &numbered(alloc, &asked, 0x0205)?, 0xaa)?;
    let answered = answer_to(alloc, server, CLIENT, &third);
    let expected = with_token(alloc, &numbered(alloc, &reply, 0x0205)?, 0xaa)?;
    assert!(rt; answered.as_slice() == expected.as_slice());
    assert!(rt; logged(alloc, server)? == 1);
    let next = request(alloc, 2, 0x0206, 1, b"b")?;
    check_served(rt, alloc, server, 1, &next, b"\x44")?;
    assert!(rt; logged(alloc, server)? == 2);
    Ok(())
}

#[test]
fn a_request_comes_again(rt: HostRuntime) -> Result<(), Fail> {
    let mut server = answering_server(rt.alloc())?;
    answers_again(&rt, rt.alloc(), &mut server)
}

/// The same of messages that aren't confirmable: the reply has the server's next message ID.
fn answers_again_without_confirming(
    rt: &impl Abort,
    alloc: Global,
    server: &mut Server,
) -> Result<(), Fail> {
    check(rt, alloc, server, POST, POSTED);
    let asked = non_confirmable(alloc, &request(alloc, 2, 0x0203, 0, b"a")?)?;
    let reply = answer_to(alloc, server, CLIENT, &asked);
    let other = numbered(alloc, &asked, 0x0204)?;
    let again = answer_to(alloc, server, CLIENT, &other);
    assert!(rt; reply.as_slice().starts_with(b"\x50\x44"));
    assert!(rt; again.as_slice().starts_with(b"\x50\x44"));
    assert!(rt; again.get(2..4) != reply.get(2..4));
    assert!(rt; again.get(4..) == reply.get(4..));
    assert!(rt; logged(alloc, server)? == 1);
    Ok(())
}

#[test]
fn a_request_that_isnt_confirmable_comes_again(rt: HostRuntime) -> Result<(), Fail> {
    let mut server = answering_server(rt.alloc())?;
    answers_again_without_confirming(&rt, rt.alloc(), &mut server)
}

/// Another peer, a changed byte of what is sealed, and an older number: each is a replay.
fn refuses_others(rt: &impl Abort, alloc: Global, server: &mut Server) -> Result<(), Fail> {
    let (asked, _) = served_first(rt, alloc, server)?;
    let other = numbered(alloc, &asked, 0x0204)?;
    let told = answer_to(alloc, server, STRANGER, &other);
    assert!(rt; told.as_slice() == replay(alloc, 0x0204)?.as_slice());
    let mut changed = numbered(alloc, &asked, 0x0205)?;
    if let Some(last) = changed.last_mut() {
        *last ^= 1;
    }
    let told = answer_to(alloc, server, CLIENT, &changed);
    assert!(rt; told.as_slice() == replay(alloc, 0x0205)?.as_slice());
    let next = request(alloc, 2, 0x0206, 1, b"b")?;
    check_served(rt, alloc, server, 1, &next, b"\x44")?;
    let older = numbered(alloc, &asked, 0x0207)?;
    let told = answer_to(alloc, server, CLIENT, &older);
    assert!(rt; told.as_slice() == replay(alloc, 0x0207)?.as_slice());
    assert!(rt; logged(alloc, server)? == 2);
    Ok(())
}

#[test]
fn what_is_another_request(rt: HostRuntime) -> Result<(), Fail> {
    let mut server = answering_server(rt.alloc())?;
    refuses_others(&rt, rt.alloc(), &mut server)
}

/// Where no answer is kept, the request is a replay.
fn refuses(rt: &impl Abort, alloc: Global, server: &mut Server) -> Result<(), Fail> {
    let (asked, _) = served_first(rt, alloc, server)?;
    let other = numbered(alloc, &asked, 0x0204)?;
    let told = answer_to(alloc, server, CLIENT, &other);
    assert!(rt; told.as_slice() == replay(alloc, 0x0204)?.as_slice());
    Ok(())
}

#[test]
fn where_no_answers_are_kept(rt: HostRuntime) -> Result<(), Fail> {
    let mut server = empty_server(rt.alloc())?;
    refuses(&rt, rt.alloc(), &mut server)
}

/// The answer stays while a newer context is pending, and goes with its own context.
fn goes_with_its_context(rt: &impl Abort, alloc: Global, server: &mut Server) -> Result<(), Fail> {
    let (asked, reply) = served_first(rt, alloc, server)?;
    posts_again(rt, alloc, server, 0x0301, 3)?;
    let other = numbered(alloc, &asked, 0x0302)?;
    let again = answer_to(alloc, server, CLIENT, &other);
    assert!(rt; again.as_slice() == numbered(alloc, &reply, 0x0302)?.as_slice());
    let second = Exchanged { nonce: 3, id: 2 };
    let newer = request_under(alloc, second, 1, 0x0303, 0, b"")?;
    let text = sealed_under(alloc, server, second, 0, &newer)?;
    assert!(rt; text.as_slice().ends_with(b"\xffa"));
    let late = numbered(alloc, &asked, 0x0304)?;
    check(
        rt,
        alloc,
        server,
        &late,
        b"\x60\x81\x03\x04\xd0\x01\xffSecurity context not found",
    );
    Ok(())
}

#[test]
fn a_context_that_is_replaced(rt: HostRuntime) -> Result<(), Fail> {
    let mut server = answering_server(rt.alloc())?;
    goes_with_its_context(&rt, rt.alloc(), &mut server)
}

/// A server that started again keeps no answer.
#[test]
fn a_server_that_started_again(rt: HostRuntime) -> Result<(), Fail> {
    let alloc = rt.alloc();
    let mut server = answering_server(alloc)?;
    let (asked, _) = served_first(&rt, alloc, &mut server)?;
    server.restart();
    let other = numbered(alloc, &asked, 0x0204)?;
    check(
        &rt,
        alloc,
        &mut server,
        &other,
        b"\x60\x81\x02\x04\xd0\x01\xffSecurity context not found",
    );
    Ok(())
}

/// Where memory is refused, nothing has changed: the request is served and answered again when it comes once more.
fn serves_and_answers(rt: &impl Abort, alloc: Global, server: &mut Server) -> Result<(), Fail> {
    check(rt, alloc, server, POST, POSTED);
    let asked = request(alloc, 2, 0x0203, 0, b"a")?;
    if is_refused_by(alloc, server, &asked) {
        assert!(rt; server.tree().is_empty());
    }
    let reply = answer_to(alloc, server, CLIENT, &asked);
    let other = numbered(alloc, &asked, 0x0204)?;
    let length = logged(alloc, server)?;
    is_refused_by(alloc, server, &other);
    let again = answer_to(alloc, server, CLIENT, &other);
    assert!(rt; again.as_slice() == numbered(alloc, &reply, 0x0204)?.as_slice());
    assert!(rt; logged(alloc, server)? == length);
    Ok(())
}

#[test]
fn a_refused_allocation(rt: HostRuntime) -> Result<(), Fail> {
    let mut server = answering_server(rt.alloc())?;
    serves_and_answers(&rt, rt.alloc(), &mut server)
}
