//! Security contexts (RFC 8613 section 3): their names, what is derived from them, nonces, and sequence numbers.

use crate::line::Line;
use crate::protection;
use crate::words::Word;
use osc_context::{
    ID_LIMIT, NUMBER_LIMIT, RecipientContext, SenderContext, derive, info_of, joined_salt,
    nonce_for, partial_iv_of,
};
use osc_model::{Bytes, ContextName, Side};
use std::alloc::Global;

/// The master secret of RFC 8613 appendix C.
const SECRET: [u8; 16] = [1, 2, 3, 4, 5, 6, 7, 8, 9, 10, 11, 12, 13, 14, 15, 16];

/// Rows whose first five words are a context.
pub fn told(alloc: Global, verb: &str, words: &[Word<'_>], line: &mut Line) -> Option<()> {
    let (context, words) = words.split_at_checked(5)?;
    let name = name_of(alloc, context)?;
    match verb {
        "info" => info(alloc, &name, words, line),
        "derive" => derived(alloc, &name, words, line),
        "take_numbers" => taken(alloc, &name, words, line),
        "accept_number" => accepted(alloc, &name, words, line),
        _ => protection::told(alloc, verb, name, words, line),
    }
}

/// `SALT ID_CONTEXT CLIENT_ID SERVER_ID ALGORITHM`: the context with the master secret of appendix C.
fn name_of(alloc: Global, words: &[Word<'_>]) -> Option<ContextName> {
    let [salt, id_context, client_id, server_id, alg] = words else {
        return None;
    };
    let alg = alg.algorithm()?;
    Some(ContextName {
        secret: Bytes::from_slice(alloc, &SECRET).ok()?,
        salt: salt.copied(alloc)?,
        id_context: id_context.copied_if_some(alloc)?,
        client_id: client_id.copied(alloc)?,
        server_id: server_id.copied(alloc)?,
        alg,
    })
}

/// Writes a name's parts: secret, salt, id context, the client's ID, the server's, and the algorithm's number.
pub fn write_name(name: &ContextName, line: &mut Line) {
    line.bytes(name.secret.as_slice());
    line.bytes(name.salt.as_slice());
    write_id_context(&name.id_context, line);
    line.bytes(name.client_id.as_slice());
    line.bytes(name.server_id.as_slice());
    line.number(name.alg.number());
}

/// Writes an id context, or `none`.
pub fn write_id_context(id_context: &Option<Bytes>, line: &mut Line) {
    match id_context {
        Some(bytes) => line.bytes(bytes.as_slice()),
        None => line.text("none"),
    }
}

/// `info`, a context and `ID OUTPUT SIZE`: the info that tells an output from the others (section 3.2.1).
fn info(alloc: Global, name: &ContextName, words: &[Word<'_>], line: &mut Line) -> Option<()> {
    let [id, output, size] = words else {
        return None;
    };
    let (output, size) = (output.text()?.as_bytes(), size.number()?);
    let info = info_of(alloc, name, id.bytes()?, output, size).ok()?;
    line.bytes(&info);
    Some(())
}

/// `derive`, a context and a side: what this end seals and opens with, each with its ID, key, common IV and nonce at number 0; or the number
/// of the refusal.
fn derived(alloc: Global, name: &ContextName, words: &[Word<'_>], line: &mut Line) -> Option<()> {
    let [side] = words else {
        return None;
    };
    match derive(alloc, name, side.side()?) {
        Ok((sender, recipient)) => write_ends(&sender, &recipient, line),
        Err(error) => line.number(error.number().into()),
    }
    Some(())
}

fn write_ends(sender: &SenderContext, recipient: &RecipientContext, line: &mut Line) {
    line.value(sender);
    line.bytes(sender.id());
    line.bytes(sender.key());
    line.bytes(sender.common_iv());
    line.bytes(&nonce_for(sender.common_iv(), sender.id(), 0));
    line.value(recipient);
    line.bytes(recipient.id());
    line.bytes(recipient.key());
    line.bytes(recipient.common_iv());
    line.bytes(&nonce_for(recipient.common_iv(), recipient.id(), 0));
}

/// `nonce COMMON_IV ID NUMBER` (section 5.2).
pub fn nonce(words: &[Word<'_>], line: &mut Line) -> Option<()> {
    let [common_iv, id, number] = words else {
        return None;
    };
    let (common_iv, id, number) = (common_iv.iv()?, id.bytes()?, number.number()?);
    if id.len() > ID_LIMIT || number > NUMBER_LIMIT {
        return None;
    }
    line.bytes(&nonce_for(&common_iv, id, number));
    Some(())
}

/// `partial_iv NUMBER`
pub fn partial_iv(words: &[Word<'_>], line: &mut Line) -> Option<()> {
    let [number] = words else {
        return None;
    };
    let number = number.number()?;
    if number > NUMBER_LIMIT {
        return None;
    }
    line.bytes(&partial_iv_of(number));
    Some(())
}

/// `master_salt SALT NONCE1 NONCE2` (RFC 9203 section 4.3).
pub fn master_salt(alloc: Global, words: &[Word<'_>], line: &mut Line) -> Option<()> {
    let [salt, nonce1, nonce2] = words else {
        return None;
    };
    let joined = joined_salt(alloc, salt.bytes()?, nonce1.bytes()?, nonce2.bytes()?).ok()?;
    line.bytes(joined.as_slice());
    Some(())
}

/// `take_numbers`, a context and what its client does: `take` takes the next number, and a number skips to it. The number that is first, each
/// that is taken, as it is seen and as it is spent, or the number of the refusal, and the number that is next.
fn taken(alloc: Global, name: &ContextName, words: &[Word<'_>], line: &mut Line) -> Option<()> {
    let (sender, recipient) = derive(alloc, name, Side::Client).ok()?;
    drop(recipient);
    let mut sender = sender;
    line.number(sender.next_number());
    for word in words {
        match word.number() {
            Some(number) => sender.skip_to(number),
            None => take(&mut sender, line),
        }
    }
    line.number(sender.next_number());
    drop(sender);
    Some(())
}

fn take(sender: &mut SenderContext, line: &mut Line) {
    match sender.take_number() {
        Ok(number) => {
            line.number(number.get());
            line.number(number.spend());
        }
        Err(error) => line.number(error.number().into()),
    }
}

/// `accept_number`, a context, a number and others: its client accepts the number of the server's; it, whose it is, and whether the others
/// are fresh after that.
fn accepted(alloc: Global, name: &ContextName, words: &[Word<'_>], line: &mut Line) -> Option<()> {
    let (sender, recipient) = derive(alloc, name, Side::Client).ok()?;
    drop(sender);
    let mut recipient = recipient;
    let done = accept(&mut recipient, words, line);
    drop(recipient);
    done
}

fn accept(recipient: &mut RecipientContext, words: &[Word<'_>], line: &mut Line) -> Option<()> {
    let (number, others) = words.split_first()?;
    let number = number.number()?;
    if number > NUMBER_LIMIT || !recipient.is_fresh(number) {
        return None;
    }
    let accepted = recipient.accept(number);
    line.value(&accepted);
    line.bytes(accepted.id());
    line.bytes(accepted.common_iv());
    line.number(accepted.get());
    accepted.spend();
    for other in others {
        line.test(recipient.is_fresh(other.number()?));
    }
    Some(())
}
