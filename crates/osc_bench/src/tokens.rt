//! Tokens read, and posts to authz-info.

use osc_authz::laws::marks_stay;
use osc_authz::{ClientDesk, RevokedMarks, ServerDesk, Standing};
use osc_ccm::Ccm;
use osc_fixtures::{KEY, Right, desk, drawn, own, token};
use osc_model::Moment;
use osc_token::{Audience, read};
use osc_tree::Tree;
use std::alloc::{AllocError, Global};

/// GET, POST and DELETE on `/log`.
const SCOPE: &[u8] = b"\x81\x82\x64/log\x0b";

/// Reads a token `rounds` times, and answers how often it was granted; 0 for lack of memory.
#[unsafe(no_mangle)]
pub extern "C" fn osc_bench_read_token(alloc: Global, rounds: u64) -> u64 {
    tokens_read(alloc, rounds).unwrap_or(0)
}

/// Posts a token `rounds` times to a desk that has contexts of `others` other token ids, and answers how often that made a
/// context; 0 for lack of memory.
#[unsafe(no_mangle)]
pub extern "C" fn osc_bench_post(alloc: Global, others: u8, rounds: u64) -> u64 {
    contexts_made(alloc, others, rounds).unwrap_or(0)
}

// What the token of this id gives, until a date.
pub(crate) fn right_of(id: u8) -> Right {
    Right {
        expires: Some(100),
        ..own(id, SCOPE)
    }
}

fn tokens_read(alloc: Global, rounds: u64) -> Result<u64, AllocError> {
    let token = token(alloc, right_of(1))?;
    let audience = Audience::new(alloc, "s")?;
    let mut granted = 0u64;
    for _ in 0..rounds {
        let outcome = read::<Ccm<8>>(alloc, &token, &KEY, &audience, Moment::START)?;
        if outcome.is_ok() {
            granted = granted.wrapping_add(1);
        }
        drop(outcome);
    }
    Ok(granted)
}

// The payload of a post of the token of this id.
pub(crate) fn post_of(alloc: Global, id: u8) -> Result<Vec<u8>, AllocError> {
    let client = desk(alloc, right_of(id))?;
    let body = first_post(alloc, &client, id);
    drop(client);
    body
}

// The payload of the client's first post.
pub(crate) fn first_post(
    alloc: Global,
    client: &ClientDesk,
    id: u8,
) -> Result<Vec<u8>, AllocError> {
    let exchange = client.start(None, &drawn(id));
    let mut body = Vec::new(alloc);
    let written = client.write_post(alloc, &exchange, &mut body);
    drop(exchange);
    written?;
    Ok(body)
}

fn contexts_made(alloc: Global, others: u8, rounds: u64) -> Result<u64, AllocError> {
    let mut desk = ServerDesk::new(alloc, KEY, Audience::new(alloc, "s")?);
    let made = posts_behind(alloc, &mut desk, others, rounds);
    drop(desk);
    made
}

// How many posts made a context, after those of `others` other token ids.
fn posts_behind(
    alloc: Global,
    desk: &mut ServerDesk,
    others: u8,
    rounds: u64,
) -> Result<u64, AllocError> {
    for id in 0..others {
        post_token(alloc, desk, id)?;
    }
    let body = post_of(alloc, 255)?;
    let made = posts_made(alloc, desk, &body, rounds);
    drop(body);
    made
}

// Posts the token of this id.
fn post_token(alloc: Global, desk: &mut ServerDesk, id: u8) -> Result<(), AllocError> {
    let body = post_of(alloc, id)?;
    let made = is_made(alloc, desk, &body, id);
    drop(body);
    made?;
    Ok(())
}

// How many of this number of posts made a context.
fn posts_made(
    alloc: Global,
    desk: &mut ServerDesk,
    body: &[u8],
    rounds: u64,
) -> Result<u64, AllocError> {
    let mut made = 0u64;
    for _ in 0..rounds {
        if is_made(alloc, desk, body, 255)? {
            made = made.wrapping_add(1);
        }
    }
    Ok(made)
}

// Whether the post made a context, where this byte is drawn.
fn is_made(
    alloc: Global,
    desk: &mut ServerDesk,
    body: &[u8],
    byte: u8,
) -> Result<bool, AllocError> {
    // Nothing is revoked in a tree without resources.
    marks_stay();
    let tree = Tree::new(alloc);
    let mut marks = RevokedMarks::none();
    let on = Standing {
        at: Moment::START,
        tree: &tree,
    };
    let post = desk.post::<Ccm<8>>(alloc, &on, &mut marks, body, &drawn(byte))?;
    let is_made = post.answer.is_ok();
    drop(post);
    Ok(is_made)
}
