//! The words of a row.

use osc_model::{Algorithm, Bytes, Draw, Moment, Peer, Side};
use std::alloc::Global;

/// A word of a row.
#[derive(Drop)]
pub enum Word<'a> {
    /// A number, in decimal digits.
    Number(u64),
    /// Bytes: an `x` and their hexadecimal digits, as in `x0914`; those between a `+` and a `*` come as often as the number says: `x40+07*3`.
    Bytes(Vec<u8>),
    /// Any other text, as `none`.
    Text(&'a str),
}

impl<'a> Word<'a> {
    /// The number, if it is one.
    pub fn number(&self) -> Option<u64> {
        match self {
            Word::Number(number) => Some(*number),
            _ => None,
        }
    }

    /// The bytes, if it is some.
    pub fn bytes(&self) -> Option<&[u8]> {
        match self {
            Word::Bytes(bytes) => Some(bytes),
            _ => None,
        }
    }

    /// The text, if it is another word.
    pub fn text(&self) -> Option<&'a str> {
        match self {
            Word::Text(text) => Some(text),
            _ => None,
        }
    }

    /// A number of 16 bits.
    pub fn short(&self) -> Option<u16> {
        u16::try_from(self.number()?).ok()
    }

    /// A number of 8 bits.
    pub fn byte(&self) -> Option<u8> {
        u8::try_from(self.number()?).ok()
    }

    /// A copy of the bytes.
    pub fn copied(&self, alloc: Global) -> Option<Bytes> {
        Bytes::from_slice(alloc, self.bytes()?).ok()
    }

    /// A copy of the bytes, or of none where it is another word.
    pub fn copied_if_some(&self, alloc: Global) -> Option<Option<Bytes>> {
        match self {
            Word::Bytes(bytes) => Some(Some(Bytes::from_slice(alloc, bytes).ok()?)),
            _ => Some(None),
        }
    }

    /// A key, or a block of a cipher.
    pub fn key(&self) -> Option<[u8; 16]> {
        <[u8; 16]>::try_from(self.bytes()?).ok()
    }

    /// An IV.
    pub fn iv(&self) -> Option<[u8; 13]> {
        <[u8; 13]>::try_from(self.bytes()?).ok()
    }

    /// An algorithm, by its number.
    pub fn algorithm(&self) -> Option<Algorithm> {
        Algorithm::from_number(self.number()?)
    }

    /// A moment, in milliseconds.
    pub fn moment(&self) -> Option<Moment> {
        Moment::new(self.number()?)
    }

    /// An end of a context: `client`, or else the server.
    pub fn side(&self) -> Option<Side> {
        if self.text()? == "client" {
            Some(Side::Client)
        } else {
            Some(Side::Server)
        }
    }

    /// An IPv4 address and a port, in six bytes; or an address, a zone of four bytes and a port, in 22.
    pub fn peer(&self) -> Option<Peer> {
        match self.bytes()? {
            [a, b, c, d, high, low] => {
                let port = 256 * *high as u16 + *low as u16;
                Some(Peer::v4([*a, *b, *c, *d], port))
            }
            bytes => v6_peer(bytes),
        }
    }

    /// A draw that begins with these bytes; zeros follow.
    pub fn draw(&self) -> Option<Draw> {
        let mut draw = [0; 32];
        for (place, byte) in draw.iter_mut().zip(self.bytes()?) {
            *place = *byte;
        }
        Some(Draw(draw))
    }
}

/// An address of 16 bytes, a zone of four, and a port of two.
fn v6_peer(bytes: &[u8]) -> Option<Peer> {
    let (address, bytes) = bytes.split_at_checked(16)?;
    let (zone, port) = bytes.split_at_checked(4)?;
    let address = <[u8; 16]>::try_from(address).ok()?;
    let zone = u32::from_be_bytes(<[u8; 4]>::try_from(zone).ok()?);
    let port = u16::from_be_bytes(<[u8; 2]>::try_from(port).ok()?);
    Some(Peer::v6(address, zone, port))
}

/// The words of a row, parted by one space each.
pub fn words<'a>(alloc: Global, row: &'a str) -> Option<Vec<Word<'a>>> {
    let mut words = Vec::new(alloc);
    for text in row.split(' ') {
        words.push(read(alloc, text)?).ok()?;
    }
    Some(words)
}

fn read<'a>(alloc: Global, text: &'a str) -> Option<Word<'a>> {
    if let Some(digits) = text.strip_prefix('x') {
        return Some(Word::Bytes(bytes(alloc, digits)?));
    }
    match text.parse() {
        Ok(number) => Some(Word::Number(number)),
        Err(_) => Some(Word::Text(text)),
    }
}

fn bytes(alloc: Global, digits: &str) -> Option<Vec<u8>> {
    match digits.split_once('+') {
        Some((first, more)) => repeated(alloc, first, more),
        None => hex::decode(alloc, digits).ok(),
    }
}

/// The bytes before a `+`, and those after it as often as the number behind the `*` says.
fn repeated(alloc: Global, first: &str, more: &str) -> Option<Vec<u8>> {
    let (again, count) = more.split_once('*')?;
    let count: u32 = count.parse().ok()?;
    let again = hex::decode(alloc, again).ok()?;
    let mut bytes = hex::decode(alloc, first).ok()?;
    for _ in 0..count {
        bytes.extend_from_slice(&again).ok()?;
    }
    Some(bytes)
}
