//! What is posted to authz-info, and what it answers (RFC 9203 section 4): the server's desk stays from row to row.

use crate::context::write_name;
use crate::line::Line;
use crate::nodes::KEY;
use crate::words::Word;
use osc_authz::{
    ClientDesk, ContextRules, DeskParts, Post, PostReply, RevokedMarks, ServerDesk, Standing, laws,
};
use osc_ccm::Ccm;
use osc_model::{Algorithm, Bytes, Code, Draw, Moment};
use osc_token::Audience;
use osc_tree::Tree;
use std::alloc::{AllocError, Global};

/// `desk SECONDS REMEMBERED RESERVED SUBTREES`: a desk for the audience "s" begins, with these rules: how long a context counts, how many
/// posts are known, the token id whose place is kept, and whether a scope may reach below its paths.
pub fn begin(
    alloc: Global,
    desk: &mut ServerDesk,
    words: &[Word<'_>],
    line: &mut Line,
) -> Option<()> {
    *desk = ServerDesk::of(alloc, parts_of(alloc, words)?);
    line.text("desk");
    Some(())
}

fn parts_of(alloc: Global, words: &[Word<'_>]) -> Option<DeskParts> {
    let [seconds, remembered, reserved, subtrees] = words else {
        return None;
    };
    let seconds = u32::try_from(seconds.number().unwrap_or(u64::MAX)).ok();
    let (remembered, subtrees) = (remembered.byte()?, subtrees.text()? == "subtrees");
    let audience = Audience::new(alloc, "s").ok()?;
    Some(DeskParts {
        key: KEY,
        old_key: None,
        audience,
        rules: ContextRules {
            revoked: None,
            seconds,
            remembered,
            reserved: reserved.copied_if_some(alloc)?,
            subtrees,
            answers: false,
        },
    })
}

/// `post AT NONCE2 BODY`: what is answered where the server draws this nonce, and whether the token opened. No token is revoked.
pub fn post(
    alloc: Global,
    desk: &mut ServerDesk,
    words: &[Word<'_>],
    line: &mut Line,
) -> Option<()> {
    let [at, draw, body] = words else {
        return None;
    };
    let (at, draw, body) = (at.moment()?, draw.draw()?, body.bytes()?);
    let post = post_at(alloc, desk, at, &draw, body).ok()?;
    write_post(&post, line);
    Some(())
}

fn post_at(
    alloc: Global,
    desk: &mut ServerDesk,
    at: Moment,
    draw: &Draw,
    body: &[u8],
) -> Result<Post, AllocError> {
    laws::marks_stay();
    let tree = Tree::new(alloc);
    let mut marks = RevokedMarks::none();
    let on = Standing { at, tree: &tree };
    let post = desk.post::<Ccm<8>>(alloc, &on, &mut marks, body, draw);
    drop(on);
    drop(marks);
    drop(tree);
    post
}

fn write_post(post: &Post, line: &mut Line) {
    match post.answer {
        Ok(PostReply::New(answer)) => {
            line.text("new");
            line.bytes(&answer.payload());
        }
        Ok(PostReply::Known(answer)) => {
            line.text("known");
            line.bytes(&answer.payload());
        }
        Err(error) => {
            line.number(error.number().into());
            line.number(error.code().0.into());
        }
    }
    line.test(post.opened.is_some());
}

/// `find AT ID`: the name of the live context with this recipient ID.
pub fn found(alloc: Global, desk: &ServerDesk, words: &[Word<'_>], line: &mut Line) -> Option<()> {
    let [at, id] = words else {
        return None;
    };
    let (at, id) = (at.moment()?, id.bytes()?);
    laws::marks_stay();
    let tree = Tree::new(alloc);
    let marks = RevokedMarks::none();
    let on = Standing { at, tree: &tree };
    match desk.find(&on, &marks, id, None) {
        Some(context) => write_name(context.name(), line),
        None => line.text("none"),
    }
    drop(on);
    drop(marks);
    drop(tree);
    Some(())
}

/// `accept ID`: a request of number 0 opened under this recipient ID: whether there is such a context, and the number is fresh.
pub fn accept(desk: &mut ServerDesk, words: &[Word<'_>], line: &mut Line) -> Option<()> {
    let [id] = words else {
        return None;
    };
    line.test(accepted(desk, id.bytes()?));
    Some(())
}

fn accepted(desk: &mut ServerDesk, id: &[u8]) -> bool {
    if let Some(context) = desk.get(id)
        && context.recipient().is_fresh(0)
    {
        let (number, _) = desk.accept(id, 0);
        number.spend();
        return true;
    }
    false
}

/// `forget`: the desk has no contexts.
pub fn forget(desk: &mut ServerDesk, line: &mut Line) -> Option<()> {
    desk.clear();
    line.text("forgotten");
    Some(())
}

/// A client that was granted this token, with this secret.
fn client_of(alloc: Global, token: &Word<'_>, secret: &Word<'_>) -> Option<ClientDesk> {
    let token = token.copied(alloc)?;
    let secret = secret.copied(alloc)?;
    let (salt, alg) = (Bytes::new(alloc), Algorithm::EightByteTag);
    ClientDesk::new(token, secret, salt, None, alg).ok()
}

/// `write_post TOKEN SECRET NONCE1`: the payload of the client's post.
pub fn written_post(alloc: Global, words: &[Word<'_>], line: &mut Line) -> Option<()> {
    let [token, secret, draw] = words else {
        return None;
    };
    let draw = draw.draw()?;
    let client = client_of(alloc, token, secret)?;
    let mut body = Vec::new(alloc);
    client
        .write_post(alloc, &client.start(None, &draw), &mut body)
        .ok()?;
    line.bytes(&body);
    Some(())
}

/// `finish TOKEN SECRET NONCE1 CODE PAYLOAD`: the name of the context that the client makes of this answer, or the number of the refusal.
pub fn finished(alloc: Global, words: &[Word<'_>], line: &mut Line) -> Option<()> {
    let [token, secret, draw, code, payload] = words else {
        return None;
    };
    let (draw, code, payload) = (draw.draw()?, Code(code.byte()?), payload.bytes()?);
    let client = client_of(alloc, token, secret)?;
    match client.finish(alloc, client.start(None, &draw), code, payload) {
        Ok(made) => write_name(made.name(), line),
        Err(error) => line.number(error.number().into()),
    }
    Some(())
}

/// `grant SECRET SALT ID_CONTEXT`: why no client is granted a token with this input material.
pub fn granted(alloc: Global, words: &[Word<'_>], line: &mut Line) -> Option<()> {
    let [secret, salt, id_context] = words else {
        return None;
    };
    let secret = secret.copied(alloc)?;
    let salt = salt.copied(alloc)?;
    let id_context = id_context.copied_if_some(alloc)?;
    let alg = Algorithm::EightByteTag;
    match ClientDesk::new(Bytes::new(alloc), secret, salt, id_context, alg) {
        Ok(client) => {
            drop(client);
            line.text("granted");
        }
        Err(error) => line.value(&error),
    }
    Some(())
}
