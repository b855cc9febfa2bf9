//! Conditions of requests: asked in a world, and read from plaintexts.

use crate::common::{happens, world};
use crate::quiet::{exchanged, settles};
use osc_fixtures::{EVERY_METHOD, PUT, request, scope_of};
use osc_model::{Code, Reply, Request};
use osc_options::request_of;
use osc_scope::Scope;
use osc_tree::Tree;
use osc_world::{What, World};
use std::alloc::{AllocError, Global};
use std::process::Abort;
use std::test::*;

/// A PUT of this on `/log`, where nothing is there (RFC 7252 section 5.10.8.2).
fn put_where_none(alloc: Global, payload: &[u8]) -> Result<Request, AllocError> {
    let mut request = request(alloc, b"/log", PUT, payload)?;
    request.if_none_match = true;
    Ok(request)
}

/// Asks for that, by a quiet round.
fn puts_where_none(alloc: Global, world: &mut World, number: u8, payload: &[u8]) -> bool {
    match put_where_none(alloc, payload) {
        Ok(request) => {
            happens(alloc, world, number, What::Ask { client: 0, request }) && settles(alloc, world)
        }
        Err(_) => false,
    }
}

/// Whether the replies that were accepted have these codes.
fn answers(alloc: Global, world: &World, codes: &[Code]) -> bool {
    match world.accepted(alloc) {
        Ok(all) => {
            all.len() == codes.len()
                && all
                    .iter()
                    .zip(codes.iter())
                    .all(|(acceptance, code)| acceptance.reply.code == *code)
        }
        Err(_) => false,
    }
}

fn puts_twice(rt: &impl Abort, alloc: Global, world: &mut World) {
    exchanged(rt, alloc, world);
    assert!(rt; puts_where_none(alloc, world, 201, b"a"));
    assert!(rt; answers(alloc, world, &[Code::CREATED]));
    assert!(rt; puts_where_none(alloc, world, 202, b"a"));
    assert!(rt; answers(alloc, world, &[Code::CREATED, Code::PRECONDITION_FAILED]));
    assert!(rt; world.premise_holds());
}

#[test]
fn a_put_where_nothing_is_there(rt: HostRuntime) -> Result<(), Fail> {
    let mut world = world(rt.alloc())?;
    puts_twice(&rt, rt.alloc(), &mut world);
    drop(world);
    Ok(())
}

/// What the request of this plaintext is answered, where its options are accepted; else 4.02.
fn reply_to(alloc: Global, tree: &mut Tree, scope: &Scope, plaintext: &[u8]) -> Option<Reply> {
    match request_of(alloc, plaintext) {
        Ok(request) => tree.apply(alloc, None, scope, &request).ok(),
        Err(_) => Some(Reply::bare(alloc, Code::BAD_OPTION)),
    }
}

/// The same on a tree where `/e` is empty without a format, and `/f` is `1` with format 42.
fn first_reply(alloc: Global, scope: &Scope, plaintext: &[u8]) -> Option<Reply> {
    let mut tree = Tree::new(alloc);
    reply_to(alloc, &mut tree, scope, b"\x03\xb1e");
    reply_to(alloc, &mut tree, scope, b"\x03\xb1f\x11\x2a\xff1");
    let reply = reply_to(alloc, &mut tree, scope, plaintext);
    drop(tree);
    reply
}

/// Plaintexts, with the code and the payload that answer each.
const CASES: [(&[u8], Code, &[u8]); 10] = [
    // If-Match: the ETag of `/e`, another one, and an empty one.
    (
        b"\x03\x18\x6e\x34\x0b\x9c\xff\xb3\x7a\x98\xa1e\xffa",
        Code::CHANGED,
        b"",
    ),
    (
        b"\x03\x18\0\0\0\0\0\0\0\0\xa1e\xffa",
        Code::PRECONDITION_FAILED,
        b"",
    ),
    (b"\x03\x10\xa1e\xffa", Code::CHANGED, b""),
    (b"\x03\x10\xa1n\xffa", Code::PRECONDITION_FAILED, b""),
    // Accept.
    (b"\x01\xb1e\x61\x2b", Code::CONTENT, b""),
    (b"\x01\xb1f\x61\x2a", Code::CONTENT, b"1"),
    (b"\x01\xb1f\x61\x2b", Code::NOT_ACCEPTABLE, b""),
    // If-None-Match, the last of which has a byte too many.
    (b"\x03\x50\x61e\xffa", Code::PRECONDITION_FAILED, b""),
    (b"\x03\x50\x61n\xffa", Code::CREATED, b""),
    (b"\x03\x51\0\x61e\xffa", Code::BAD_OPTION, b""),
];

/// Whether the plaintext is answered so.
fn is_answered(alloc: Global, scope: &Scope, plaintext: &[u8], code: Code, payload: &[u8]) -> bool {
    match first_reply(alloc, scope, plaintext) {
        Some(reply) => reply.code == code && reply.payload.as_slice() == payload,
        None => false,
    }
}

#[test]
fn conditions_in_plaintexts(rt: HostRuntime) {
    let scope = scope_of(rt.alloc(), EVERY_METHOD).expect(&rt, "a scope");
    for &(plaintext, code, payload) in &CASES {
        assert!(rt;
            is_answered(rt.alloc(), &scope, plaintext, code, payload),
            "at {plaintext:?}"
        );
    }
    drop(scope);
}
