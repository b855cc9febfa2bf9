//! What a line of a script says.

ghost use Rattle.std.specs.Prelude.{◌≡◌};

use crate::client_name::ClientName;
use crate::node::NodeName;
use crate::proxy_name::ProxyName;
use osc_model::{Algorithm, Bytes, Moment, Path, Request, Resource};
use std::marker::Model;

/// A change of one byte of a datagram.
#[derive(Clone, Copy, Debug, PartialEq, Eq)]
pub struct Change {
    /// Which byte, counted from 0.
    pub offset: u64,
    /// The bits of it that turn.
    pub mask: u8,
}

/// Changes in the order in which they are written; contracts see the list.
#[derive(Debug, Drop)]
pub struct Changes {
    items: Vec<Change>,
}

impl Model for Changes {
    ghost use Rattle.std.specs.Prelude.{List};
    ghost use Rattle.osc_script.specs.declared.line.Change.{Change as Turned};

    ghost Value = { List Turned };

    ghost view = { λ changes. changes.items.items };
}

impl Changes {
    pub(crate) fn from_vec(items: Vec<Change>) -> Changes
        ensures { result ≡ items.items }
    {
        Changes { items }
    }

    /// The changes, lent.
    pub fn as_slice(&self) -> &[Change]
        ensures { result.now ≡ self.now }
    {
        &self.items
    }
}

/// What a line says. PATH has a `/` before each segment, as in `/a/b`. A number is of decimal digits, without a
/// sign, below 2^64. BYTES is `-` for none, or parts joined by `+`, each pairs of hexadecimal digits, or one pair, `*`
/// and a count: `68+69*2` is `hii`. METHOD is `GET`, `POST`, `PUT` or `DELETE`. CLIENT is `c1` to `c9`, PROXY `p1` to `p9`; NODE,
/// FROM and TO are `s`, a client, a proxy, or `x`. J and K count the datagrams from 1, as they are sent.
///
/// Of a datagram's bytes and of a payload's the first 1,153 are here: with that many it is too long, whatever comes after them.
#[derive(Debug, Drop)]
pub enum Line {
    /// Nothing: the line is empty, or begins with `#`.
    Skipped,
    /// `put PATH FORMAT BYTES`: the path has this value at first. FORMAT is a number, or `none`.
    Put {
        path: Path,
        resource: Resource,
    },
    /// `open PATH`: a GET on the path needs no protection.
    Open {
        path: Path,
    },
    /// `revoked PATH`: a token is revoked where a resource is at this path with the digits of the token's id after it. The path has at
    /// most 4 segments.
    Revoked {
        path: Path,
    },
    /// `grant CLIENT SCOPE [nbf=N] [exp=N] [alg=30]`: the client has a token of this scope, such as `/log:GET+POST,/t:GET`, which counts
    /// from the second `nbf` on and from the second `exp` on no more, and whose contexts have the algorithm AES-CCM-16-128-128, or
    /// without `alg=30` AES-CCM-16-64-128. The scope is here as its bytes.
    Grant {
        client: ClientName,
        scope: Bytes,
        not_before: Option<u64>,
        expires: Option<u64>,
        alg: Algorithm,
    },
    /// `proxy PROXY`: there is this forward proxy, to the server alone.
    Proxy {
        proxy: ProxyName,
    },
    /// `via CLIENT PROXY`: the client sends what is for the server to this proxy, which there is by this line.
    Via {
        client: ClientName,
        proxy: ProxyName,
    },
    /// `at MS`: the moment from here on, in milliseconds. It doesn't fall.
    At {
        moment: Moment,
    },
    /// `draw HEX16`: the first eight random bytes of the next event, in 16 hexadecimal digits.
    Draw {
        nonce: [u8; 8],
    },
    /// `drop K`: a datagram that `quiet` doesn't deliver.
    Drop {
        datagram: u64,
    },
    /// `skip CLIENT N`: the client's next request has this number, at most 1099511627775, if that raises it.
    Skip {
        client: ClientName,
        number: u64,
    },
    /// `exchange CLIENT`: the client posts its token.
    Exchange {
        client: ClientName,
    },
    /// `ask CLIENT METHOD PATH BYTES`: the client sends this request, protected.
    Ask {
        client: ClientName,
        request: Request,
    },
    /// `tick NODE`: a node, which isn't `x`, does what is due.
    Tick {
        node: NodeName,
    },
    /// `restart NODE`: a node, which isn't `x`, starts again.
    Restart {
        node: NodeName,
    },
    /// `deliver K`: the datagram goes to its addressee, also again.
    Deliver {
        datagram: u64,
    },
    /// `alter K OFFSET HEX ..`, with one pair of OFFSET and HEX or more: a copy of the datagram, in which the byte at each
    /// offset is changed by the two hexadecimal digits, goes to its addressee.
    Alter {
        datagram: u64,
        changes: Changes,
    },
    /// `graft J K`: a datagram with the header and the token of J and the options and the payload of K goes from J's sender to
    /// J's addressee.
    Graft {
        header: u64,
        body: u64,
    },
    /// `inject FROM TO BYTES`: a datagram of these bytes comes from a node to a node, which may be the same.
    Inject {
        from: NodeName,
        to: NodeName,
        bytes: Bytes,
    },
    /// `lie CLIENT NUMBER METHOD PATH BYTES`: a request protected under this number, at most 1099511627775, is sent from the
    /// client, whose own numbers stay.
    Lie {
        client: ClientName,
        number: u64,
        request: Request,
    },
    /// `quiet`: all datagrams that were neither delivered nor dropped are delivered, until none is left.
    Quiet,
}

/// The lines of a script, which contracts see as the list of them.
#[derive(Debug)]
pub struct Script {
    lines: Vec<Line>,
}

impl Drop for Script {
    fn drop(self) {
        let Script { lines: _ } = self;
    }
}

impl Model for Script {
    ghost use Rattle.std.specs.Prelude.{List};
    ghost use Rattle.osc_script.specs.declared.line.Line.{Line as Said};

    ghost Value = { List Said };

    ghost view = { λ script. script.lines.items };
}

impl Script {
    pub(crate) fn new(lines: Vec<Line>) -> Script
        ensures { result ≡ lines.items }
    {
        Script { lines }
    }

    /// What the lines say, in order.
    pub fn lines(&self) -> &[Line]
        ensures { result.now ≡ self.now }
    {
        &self.lines
    }
}
