//! What the words of a line say.

ghost use Rattle.std.specs.Prelude.{◌≡◌, IfOk, map};
ghost use Rattle.osc_script.specs.Line.{Say};
ghost use Rattle.osc_script.specs.Inner.Reading.{client_line_in, datagram_line_in, line_in, node_line_in, timed_line_in, Gives};
ghost use Rattle.osc_script.specs.Values.{Reads};

use crate::clients::{ask, exchange, lie, skip};
use crate::datagrams::{alter, deliver, drop_line, graft, inject};
use crate::line::Line;
use crate::running::{at, draw, quiet, restart, tick};
use crate::set_up::{grant, open, proxy_line, put, revoked, via};
use std::alloc::{AllocError, Global};

/// What the words say, if they say anything.
pub(crate) fn say(alloc: Global, words: &[&str]) -> Result<Option<Line>, AllocError>
    ensures { IfOk result (λ found. Reads (Say (map (λ word. word.now) words.now)) found) }
{
    let [verb, args @ ..] = words else {
        return Ok(None);
    };
    match *verb {
        "grant" => grant(alloc, args),
        _ => plain_line(alloc, verb, args),
    }
}

// Those of a line that is no grant.
#[tactic(auto, unfolding(crate::specs::Inner::Reading::line_in))]
fn plain_line(alloc: Global, verb: &str, args: &[&str]) -> Result<Option<Line>, AllocError>
    ensures { IfOk result (λ found. Gives (line_in verb.now (map (λ arg. arg.now) args.now)) found) }
{
    match verb {
        "put" => put(alloc, args),
        "open" => open(alloc, args),
        "revoked" => revoked(alloc, args),
        "proxy" => Ok(proxy_line(args)),
        "via" => Ok(via(args)),
        _ => timed_line(alloc, verb, args),
    }
}

// Those of a line of time, clients, datagrams or nodes.
#[tactic(auto, unfolding(crate::specs::Inner::Reading::timed_line_in))]
fn timed_line(alloc: Global, verb: &str, args: &[&str]) -> Result<Option<Line>, AllocError>
    ensures { IfOk result (λ found. Gives (timed_line_in verb.now (map (λ arg. arg.now) args.now)) found) }
{
    match verb {
        "at" => Ok(at(args)),
        "draw" => draw(alloc, args),
        _ => client_line(alloc, verb, args),
    }
}

// Those of a line of clients, datagrams or nodes.
#[tactic(auto, unfolding(crate::specs::Inner::Reading::client_line_in))]
fn client_line(alloc: Global, verb: &str, args: &[&str]) -> Result<Option<Line>, AllocError>
    ensures { IfOk result (λ found. Gives (client_line_in verb.now (map (λ arg. arg.now) args.now)) found) }
{
    match verb {
        "exchange" => Ok(exchange(args)),
        "ask" => ask(alloc, args),
        "skip" => Ok(skip(args)),
        "lie" => lie(alloc, args),
        _ => datagram_line(alloc, verb, args),
    }
}

// Those of a line of datagrams or nodes.
#[tactic(auto, unfolding(crate::specs::Inner::Reading::datagram_line_in))]
fn datagram_line(alloc: Global, verb: &str, args: &[&str]) -> Result<Option<Line>, AllocError>
    ensures { IfOk result (λ found. Gives (datagram_line_in verb.now (map (λ arg. arg.now) args.now)) found) }
{
    match verb {
        "deliver" => Ok(deliver(args)),
        "drop" => Ok(drop_line(args)),
        "alter" => alter(alloc, args),
        "graft" => Ok(graft(args)),
        _ => node_line(alloc, verb, args),
    }
}

// Those of a line of nodes.
#[tactic(auto, unfolding(crate::specs::Inner::Reading::node_line_in))]
fn node_line(alloc: Global, verb: &str, args: &[&str]) -> Result<Option<Line>, AllocError>
    ensures { IfOk result (λ found. Gives (node_line_in verb.now (map (λ arg. arg.now) args.now)) found) }
{
    match verb {
        "tick" => Ok(tick(args)),
        "restart" => Ok(restart(args)),
        "inject" => inject(alloc, args),
        "quiet" => Ok(quiet(args)),
        _ => Ok(None),
    }
}
