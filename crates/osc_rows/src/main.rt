//! Rows in, what each gives out, a line for a line: ciphers, items, messages, security contexts, tokens, rights and captures, byte by byte. A row is a verb
//! and its words; one that begins with `#` is a heading, and stays as it is. What a row should give is from the RFCs, or from another implementation of them.
#![tactic(auto)]

mod aes;
mod authz_info;
mod capture;
mod cbor;
mod ccm;
mod claims;
mod coap;
mod context;
mod cose;
mod dedup;
mod hkdf;
mod line;
mod message_layer;
mod nodes;
mod note;
mod option_value;
mod options;
mod plaintext;
mod protection;
mod requests;
mod scope;
mod token;
mod told;
mod window;
mod words;

use crate::line::Line;
use crate::nodes::Nodes;
use std::io;

fn main(rt: HostRuntime) -> io::Result<()> {
    let mut nodes = Nodes::new(rt.alloc())?;
    let done = each(&rt, &mut nodes);
    drop(nodes);
    done
}

fn each(rt: &HostRuntime, nodes: &mut Nodes) -> io::Result<()> {
    let alloc = rt.alloc();
    for row in rt.lines(alloc) {
        let mut line = Line::new(alloc);
        told::told(alloc, nodes, row?.as_str(), &mut line);
        println!(rt; "{}", line.as_str())?;
    }
    Ok(())
}
