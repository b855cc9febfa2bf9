//! A post to authz-info where an allocation is refused.

use osc_authz::{Post, RevokedMarks, ServerDesk, Standing, laws};
use osc_ccm::Ccm;
use osc_model::{Draw, Moment};
use osc_token::Audience;
use osc_tree::Tree;
use std::alloc::{AllocError, Global};
use std::test::Fail;

/// The key that the server shares with the issuer of tokens.
const KEY: [u8; 16] = *b"@ABCDEFGHIJKLMNO";

/// A draw whose nonce ends in 2.
const DRAW: Draw = Draw([
    0, 0, 0, 0, 0, 0, 0, 2, 0, 0, 0, 0, 0, 0, 0, 0, 0, 0, 0, 0, 0, 0, 0, 0, 0, 0, 0, 0, 0, 0, 0, 0,
]);

fn desk_of(alloc: Global) -> Result<ServerDesk, AllocError> {
    Ok(ServerDesk::new(alloc, KEY, Audience::new(alloc, "s")?))
}

/// The result of a post: the server's recipient ID, or the number of the refusal, and whether the token opened.
type Outcome = (Result<u8, u8>, bool);

/// The result of this post.
fn outcome_of(post: &Post) -> Outcome {
    let answer = match post.answer {
        Ok(reply) => Ok(reply.answer().recipient_id),
        Err(error) => Err(error.number()),
    };
    (answer, post.opened.is_some())
}

/// The result of the post.
fn posted(desk: &mut ServerDesk, alloc: Global) -> Result<Outcome, AllocError> {
    let post = post_at(desk, alloc)?;
    let outcome = outcome_of(&post);
    drop(post);
    Ok(outcome)
}

/// The post, where no token is revoked.
fn post_at(desk: &mut ServerDesk, alloc: Global) -> Result<Post, AllocError> {
    laws::marks_stay();
    let tree = Tree::new(alloc);
    let mut marks = RevokedMarks::none();
    let on = Standing {
        at: Moment::START,
        tree: &tree,
    };
    let post = desk.post::<Ccm<8>>(alloc, &on, &mut marks, POST, &DRAW);
    drop(on);
    drop(marks);
    drop(tree);
    post
}

/// Whether a live context has the recipient ID 01, where no token is revoked.
fn is_found(desk: &ServerDesk, alloc: Global) -> bool {
    laws::marks_stay();
    let tree = Tree::new(alloc);
    let marks = RevokedMarks::none();
    let on = Standing {
        at: Moment::START,
        tree: &tree,
    };
    let found = desk.find(&on, &marks, &[1], None).is_some();
    drop(on);
    drop(marks);
    drop(tree);
    found
}

/// A post of the token of id 1, with a nonce that ends in 1 and the ID 00. The token was sealed by another implementation.
const POST: &[u8] =
    b"\xa3\x01\x58\x46\x83\x43\xa1\x01\x0a\xa1\x05\x4d\0\0\0\0\0\0\0\0\0\0\0\0\x01\x58\x2f\x7a\x0e\xde\x21\x71\xa9\xef\x96\x11\xe8\xb2\x3a\xfd\x72\x3e\x78\x79\xca\xdf\xb8\x87\xe3\xcb\x88\x90\x1d\xd4\x04\x61\xe9\xf3\x01\x24\xce\xe0\x4d\x4a\x5e\x85\x93\x1d\x22\x4b\x7c\xe6\xb4\xe2\x18\x28\x48\0\0\0\0\0\0\0\x01\x18\x2b\x41\0";

/// The id of the token goes with the post that is agreed to, and with the context that it made, but not with the post when it is known.
#[test]
fn whose_token_it_was(rt: HostRuntime) -> Result<(), Fail> {
    let alloc = rt.alloc();
    let mut desk = desk_of(alloc)?;
    let post = post_at(&mut desk, alloc)?;
    assert!(rt; post.holder.as_ref().map(|id| id.as_slice()) == Some(b"\x01".as_slice()));
    assert!(rt; desk.holder(&[1]).map(|id| id.as_slice()) == Some(b"\x01".as_slice()));
    assert!(rt; desk.holder(&[2]).is_none());
    Ok(())
}

/// Run with each allocation refused in turn: the desk is as before, and the same post makes a context after it.
#[test]
fn a_refused_allocation_leaves_the_desk(rt: HostRuntime) {
    let alloc = rt.alloc();
    let Ok(mut desk) = desk_of(alloc) else {
        return;
    };
    if posted(&mut desk, alloc).is_err() {
        assert!(rt; !is_found(&desk, rt.alloc()));
        assert!(rt; posted(&mut desk, alloc).ok() == Some((Ok(1), true)));
    }
    assert!(rt; is_found(&desk, rt.alloc()));
}
