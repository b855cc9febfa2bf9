//! The line that a row gives.

use osc_hkdf::hmac;
use osc_model::Peer;
use std::alloc::Global;
use std::fmt;
use std::fmt::Write;

/// A line, word by word. A word for which there is no memory is missing.
#[derive(Drop)]
pub struct Line {
    /// The words, each after a space.
    text: String,
}

impl Line {
    /// A line without words.
    pub fn new(alloc: Global) -> Line {
        Line {
            text: String::new(alloc),
        }
    }

    /// The words, parted by one space each.
    pub fn as_str(&self) -> &str {
        self.text
            .as_str()
            .strip_prefix(' ')
            .unwrap_or(self.text.as_str())
    }

    /// Adds a text.
    pub fn text(&mut self, text: &str) {
        let _ = write!(self.text, " {text}");
    }

    /// Adds a number.
    pub fn number(&mut self, number: u64) {
        let _ = write!(self.text, " {number}");
    }

    /// Adds a number, or `none`.
    pub fn some_number(&mut self, number: Option<u64>) {
        match number {
            Some(number) => self.number(number),
            None => self.text("none"),
        }
    }

    /// Adds `true` or `false`.
    pub fn test(&mut self, holds: bool) {
        self.text(if holds { "true" } else { "false" });
    }

    /// Adds what a value is printed as.
    pub fn value<T: fmt::Debug>(&mut self, value: &T) {
        let _ = write!(self.text, " {value:?}");
    }

    /// Adds what is said of a value.
    pub fn display<T: fmt::Display>(&mut self, value: &T) {
        let _ = write!(self.text, " {value}");
    }

    /// Adds bytes, as a row has them.
    pub fn bytes(&mut self, bytes: &[u8]) {
        self.text("x");
        self.digits(bytes);
    }

    /// Adds their digits to the last word.
    fn digits(&mut self, bytes: &[u8]) {
        for byte in bytes {
            let _ = write!(self.text, "{byte:02x}");
        }
    }

    /// Adds bytes as a row has them; of more than 100 how many there are, and their HMAC-SHA-256 under an empty key.
    pub fn short_bytes(&mut self, bytes: &[u8]) {
        if bytes.len() > 100 {
            self.number(bytes.len() as u64);
            self.bytes(&hmac(b"", bytes));
        } else {
            self.bytes(bytes);
        }
    }

    /// Adds bytes, or `none`.
    pub fn some_bytes(&mut self, bytes: Option<&[u8]>) {
        match bytes {
            Some(bytes) => self.bytes(bytes),
            None => self.text("none"),
        }
    }

    /// Adds an address and a port, as a row has them; and between them the zone, where the address isn't one of IPv4.
    pub fn peer(&mut self, peer: Peer) {
        self.text("x");
        match peer.octets() {
            Some(octets) => self.digits(&octets),
            None => {
                self.digits(&peer.address);
                self.digits(&peer.scope.to_be_bytes());
            }
        }
        self.digits(&peer.port.to_be_bytes());
    }
}
