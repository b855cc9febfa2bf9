//! The lines that tell what a step did.

use crate::words::{Dotted, Shown, method_name};
use osc_device::{Refused, Served};
use osc_model::{ClientResult, Code, Path, Reply, Step};
use std::io;
use std::net::Ipv6Addr;

/// What a step did that served no protected request: what it refused, or else what it sent.
pub fn tell_other(rt: &impl Print, step: &Step) -> io::Result<()> {
    match Refused::in_step(step) {
        Some(refused) => tell_refused(rt, refused),
        None => tell_sent(rt, step),
    }
}

/// Who was refused, by which code, and the number of the reason, where the code alone doesn't tell it.
fn tell_refused(rt: &impl Print, refused: Refused) -> io::Result<()> {
    let address = Ipv6Addr::from_octets(refused.from.address).to_canonical();
    let code = Dotted(refused.why.code);
    match refused.why.reason {
        Some(number) => println!(rt; "lock: refused {address}: {code} ({number})"),
        None => println!(rt; "lock: refused {address}: {code}"),
    }
}

/// Who was served, what was asked for, and what it was answered.
pub fn tell_served(rt: &impl Print, served: &Served<'_>) -> io::Result<()> {
    let by = Shown(served.by.kid_context.unwrap_or(b"-"));
    let method = served.method().map_or("-", method_name);
    let path = Shown(served.path().map_or(b"-", Path::text));
    let code = Dotted(served.reply.code);
    if served.payload().is_empty() {
        return println!(rt; "lock: served {by}: {method} {path}: {code}");
    }
    let payload = Shown(served.payload());
    println!(rt; "lock: served {by}: {method} {path} {payload}: {code}")
}

/// The code of what was sent: an answer to the post of a token, or again what the same message was answered before.
fn tell_sent(rt: &impl Print, step: &Step) -> io::Result<()> {
    match step.out.as_slice() {
        [datagram] => {
            let code = datagram.bytes.as_slice().get(1).copied().unwrap_or(0);
            println!(rt; "lock: sent {}", Dotted(Code(code)))
        }
        _ => println!(rt; "lock: sent nothing"),
    }
}

/// What a holder learnt.
pub fn tell_learnt(rt: &impl Print, name: &str, step: &Step) -> io::Result<()> {
    match step.notes.result() {
        Some(ClientResult::Made) => println!(rt; "{name}: has a context"),
        Some(ClientResult::Answer(reply)) => tell_answer(rt, name, reply),
        Some(ClientResult::Unverified(code)) => {
            println!(rt; "{name}: unverified {}", Dotted(*code))
        }
        Some(ClientResult::TimedOut) => println!(rt; "{name}: no answer came"),
        Some(ClientResult::Refused(number)) => println!(rt; "{name}: not asked ({number})"),
        None => Ok(()),
    }
}

fn tell_answer(rt: &impl Print, name: &str, reply: &Reply) -> io::Result<()> {
    let code = Dotted(reply.code);
    if reply.payload.is_empty() {
        return println!(rt; "{name}: answered {code}");
    }
    println!(rt;
        "{name}: answered {code} {}",
        Shown(reply.payload.as_slice())
    )
}
