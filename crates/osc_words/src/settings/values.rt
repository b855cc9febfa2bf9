//! What the texts and the numbers of a document spell.
ghost use Rattle.std.specs.Prelude.{◌≡◌, ◌==◌, ◌↔◌, length, IfOk, IsTrue, MatchResult};
ghost use Rattle.std.specs.Net.Grammar.{IsSocketV4Text};
ghost use Rattle.std.specs.Net.Text.{socket_v4_text};
ghost use Rattle.osc_words.specs.Settings.Inner.Reading.{IsRefusal, SpellsPath};
ghost use Rattle.osc_words.specs.Settings.Values.{IsAddressFrom, IsAlgorithm, IsFileName, IsHost, IsIdBelow, IsPort, IsRevocationPath, IsSeconds, IsV4AddressFrom, IsV6AddressFrom, SpellsBytes, SpellsHex};

use crate::settings::error::ValueError;
use crate::settings::store_file::StoreFile;
use hex::{FromHex, FromHexError};
use osc_model::limits::{LONGEST_HOST, LONGEST_ID, MOST_REVOCATION_SEGMENTS};
use osc_model::{Algorithm, Bytes, Path, Peer, revoked_path};
use std::alloc::{AllocError, Global};
use std::net::{SocketAddrV4, SocketAddrV6};

/// An address and a port from `least` on: `A.B.C.D:PORT`, `[ADDRESS]:PORT` or `[ADDRESS%ZONE]:PORT`, the zone a number.
pub(crate) fn address(alloc: Global, text: &str, least: u16) -> Result<Peer, ValueError>
    ensures { MatchResult result (IsAddressFrom least text.now) (IsRefusal (IsAddressFrom least text.now)) }
{
    match v4_address(alloc, text, least) {
        Err(ValueError::Bad) => v6_address(text, least),
        read => read,
    }
}

fn v4_address(alloc: Global, text: &str, least: u16) -> Result<Peer, ValueError>
    ensures { MatchResult result (IsV4AddressFrom least text.now) (IsRefusal (IsV4AddressFrom least text.now)) }
{
    match SocketAddrV4::parse_ascii(text.as_bytes()) {
        Ok(address) => plain_address(alloc, address, text, least),
        Err(_) => Err(ValueError::Bad),
    }
}

// The address, where it has such a port and the text is as it is printed: std lets zeros lead a port.
fn plain_address(
    alloc: Global,
    address: SocketAddrV4,
    text: &str,
    least: u16,
) -> Result<Peer, ValueError>
    requires { IsSocketV4Text text.now address }
    ensures { MatchResult result (IsV4AddressFrom least text.now) (IsRefusal (IsV4AddressFrom least text.now)) }
{
    if address.port() < least {
        return Err(ValueError::Bad);
    }
    if is_printed(alloc, address, text)? {
        Ok(Peer::v4(address.ip().octets(), address.port()))
    } else {
        Err(ValueError::Bad)
    }
}

// Whether the text is as the address is printed.
fn is_printed(alloc: Global, address: SocketAddrV4, text: &str) -> Result<bool, AllocError>
    ensures { IfOk result (λ is. IsTrue is ↔ (text.now ≡ socket_v4_text address)) }
{
    let printed = format!(in alloc; "{address}")?;
    Ok(printed.as_str() == text)
}

fn v6_address(text: &str, least: u16) -> Result<Peer, ValueError>
    ensures { MatchResult result (IsV6AddressFrom least text.now) (IsRefusal (IsV6AddressFrom least text.now)) }
{
    match SocketAddrV6::parse_ascii(text.as_bytes()) {
        Ok(address) if address.port() >= least => Ok(Peer::v6(
            address.ip().octets(),
            address.scope_id(),
            address.port(),
        )),
        _ => Err(ValueError::Bad),
    }
}

/// `N` bytes in hexadecimal.
pub(crate) fn array<const N: usize>(text: &str) -> Result<[u8; N], ValueError>
    ensures { MatchResult result (SpellsBytes N N text.now) (IsRefusal (SpellsBytes N N text.now)) }
{
    match <[u8; N] as FromHex>::from_hex(text) {
        Ok(bytes) => Ok(bytes),
        Err(_) => Err(ValueError::Bad),
    }
}

/// Bytes in hexadecimal.
pub(crate) fn bytes(alloc: Global, text: &str) -> Result<Bytes, ValueError>
    ensures { MatchResult result (SpellsHex text.now) (IsRefusal (SpellsHex text.now)) }
{
    match hex::decode(alloc, text) {
        Ok(bytes) => Ok(Bytes::from_vec(bytes)),
        Err(FromHexError::OutOfMemory) => Err(ValueError::Memory),
        Err(_) => Err(ValueError::Bad),
    }
}

/// From `least` to `most` bytes in hexadecimal.
pub(crate) fn bytes_within(
    alloc: Global,
    text: &str,
    least: usize,
    most: usize,
) -> Result<Bytes, ValueError>
    ensures { MatchResult result (SpellsBytes least most text.now) (IsRefusal (SpellsBytes least most text.now)) }
{
    let bytes = bytes(alloc, text)?;
    if bytes.len() < least || bytes.len() > most {
        return Err(ValueError::Bad);
    }
    Ok(bytes)
}

/// A host, by the bytes of its text.
pub(crate) fn host(alloc: Global, text: &str) -> Result<Bytes, ValueError>
    ensures { MatchResult result (IsHost text.now) (IsRefusal (IsHost text.now)) }
{
    if text.is_empty() || text.len() > LONGEST_HOST {
        return Err(ValueError::Bad);
    }
    Ok(Bytes::from_slice(alloc, text.as_bytes())?)
}

/// The file of a name.
pub(crate) fn store_file(alloc: Global, text: &str) -> Result<StoreFile, ValueError>
    ensures { MatchResult result (IsFileName text.now) (IsRefusal (IsFileName text.now)) }
{
    if text.is_empty() {
        return Err(ValueError::Bad);
    }
    Ok(StoreFile::new(alloc, text)?)
}

/// The path of a text.
pub(crate) fn path(alloc: Global, text: &str) -> Result<Path, ValueError>
    ensures { MatchResult result (SpellsPath text.now) (IsRefusal (SpellsPath text.now)) }
{
    match Path::from_text(alloc, text.as_bytes())? {
        Some(path) => Ok(path),
        None => Err(ValueError::Bad),
    }
}

/// A path of at most 4 segments, of a text.
pub(crate) fn revocation_path(alloc: Global, text: &str) -> Result<Path, ValueError>
    ensures { MatchResult result (IsRevocationPath text.now) (IsRefusal (IsRevocationPath text.now)) }
{
    let path = path(alloc, text)?;
    if path.segments() > MOST_REVOCATION_SEGMENTS {
        return Err(ValueError::Bad);
    }
    Ok(path)
}

/// An id, whose digits make a path below this one.
pub(crate) fn id_below(alloc: Global, root: &Path, text: &str) -> Result<Bytes, ValueError>
    ensures { MatchResult result (IsIdBelow root.now text.now) (IsRefusal (IsIdBelow root.now text.now)) }
{
    let id = bytes_within(alloc, text, 0, LONGEST_ID)?;
    match revoked_path(alloc, root, id.as_slice())? {
        Some(_) => Ok(id),
        None => Err(ValueError::Bad),
    }
}

/// The port of a number.
pub(crate) fn port(number: i64) -> Result<u16, ValueError>
    ensures { MatchResult result (IsPort number) (IsRefusal (IsPort number)) }
{
    if 1 <= number && number <= 65535 {
        Ok(number as u16)
    } else {
        Err(ValueError::Bad)
    }
}

/// The seconds of a number.
pub(crate) fn seconds(number: i64) -> Result<u32, ValueError>
    ensures { MatchResult result (IsSeconds number) (IsRefusal (IsSeconds number)) }
{
    if 1 <= number && number <= 4294967295 {
        Ok(number as u32)
    } else {
        Err(ValueError::Bad)
    }
}

/// The algorithm of a number.
pub(crate) fn algorithm(number: i64) -> Result<Algorithm, ValueError>
    ensures { MatchResult result (IsAlgorithm number) (IsRefusal (IsAlgorithm number)) }
{
    match number {
        10 => Ok(Algorithm::EightByteTag),
        30 => Ok(Algorithm::SixteenByteTag),
        _ => Err(ValueError::Bad),
    }
}
