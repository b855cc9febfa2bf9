//! Single words of a script.

ghost use Rattle.std.specs.Prelude;
ghost use Rattle.std.specs.Prelude.{◌≡◌, ◌≢◌, length, slice_index, take, IfOk, IfSome, IsNone, ◌∷◌, [], map, option_map};
ghost use Rattle.osc_script.specs.Inner.Reading.{number_in, short_number_in, request_number_in, format_in, client_in, client_with, proxy_in, proxy_with, node_in, one_named, worker_in, method_in, hex_in, nonce_in, repeated_in, part_in, parts_in, bytes_in, kept_in, short_bytes_in, date_in, dates_in, one_date, algorithm_in};

use crate::client_name::ClientName;
use crate::node::NodeName;
use crate::proxy_name::ProxyName;
use crate::split::parts;
use crate::values::decoded;
use osc_model::limits::DATAGRAM_LIMIT;
use osc_model::{Algorithm, Bytes, Method};
use std::alloc::{AllocError, Global};
use std::cmp::min;
use std::str;

// The greatest number that a request has.
const LAST_NUMBER: u64 = 1099511627775;

// How many bytes of a datagram or a payload are kept: one more than a datagram has.
const MOST_KEPT: usize = DATAGRAM_LIMIT + 1;

/// A number of 64 bits, in decimal digits without a sign.
#[tactic(auto, unfolding(crate::specs::Inner::Reading::number_in))]
pub(crate) fn number(word: &[u8]) -> Option<u64>
    ensures { result ≡ number_in word.now }
{
    match word {
        [b'+', ..] => None,
        _ => unsigned(word),
    }
}

fn unsigned(word: &[u8]) -> Option<u64>
    ensures { slice_index word.now 0 ≢ 43 → result ≡ number_in word.now }
{
    str::from_utf8(word).ok()?.parse().ok()
}

/// The same of 16 bits.
#[tactic(auto, unfolding(crate::specs::Inner::Reading::short_number_in))]
pub(crate) fn short_number(word: &[u8]) -> Option<u16>
    ensures { result ≡ short_number_in word.now }
{
    u16::try_from(number(word)?).ok()
}

/// The number of a request.
#[tactic(auto, unfolding(crate::specs::Inner::Reading::request_number_in))]
pub(crate) fn request_number(word: &[u8]) -> Option<u64>
    ensures { result ≡ request_number_in word.now }
{
    let number = number(word)?;
    if number <= LAST_NUMBER {
        Some(number)
    } else {
        None
    }
}

/// A number of 16 bits, or `none`.
#[tactic(auto, unfolding(crate::specs::Inner::Reading::format_in))]
pub(crate) fn format(word: &[u8]) -> Option<Option<u16>>
    ensures { result ≡ format_in word.now }
{
    if word == b"none".as_slice() {
        return Some(None);
    }
    Some(Some(short_number(word)?))
}

/// A client's name.
#[tactic(auto, unfolding(crate::specs::Inner::Reading::client_in))]
pub(crate) fn client(word: &[u8]) -> Option<ClientName>
    ensures { result ≡ client_in word.now }
{
    match word {
        [b'c', digit] => client_of(digit.saturating_sub(b'0')),
        _ => None,
    }
}

// The client of a digit.
fn client_of(digit: u8) -> Option<ClientName>
    ensures { result ≡ client_with digit }
{
    ClientName::new(digit)
}

/// A proxy's name.
#[tactic(auto, unfolding(crate::specs::Inner::Reading::proxy_in))]
pub(crate) fn proxy(word: &[u8]) -> Option<ProxyName>
    ensures { result ≡ proxy_in word.now }
{
    match word {
        [b'p', digit] => proxy_of(digit.saturating_sub(b'0')),
        _ => None,
    }
}

// The proxy of a digit.
fn proxy_of(digit: u8) -> Option<ProxyName>
    ensures { result ≡ proxy_with digit }
{
    ProxyName::new(digit)
}

/// A node's name.
#[tactic(auto, unfolding(crate::specs::Inner::Reading::node_in))]
pub(crate) fn node(word: &str) -> Option<NodeName>
    ensures { result ≡ node_in word.now }
{
    if word == NodeName::Server.name() {
        Some(NodeName::Server)
    } else if word == NodeName::Stranger.name() {
        Some(NodeName::Stranger)
    } else {
        one_named(client(word.as_bytes()), proxy(word.as_bytes()))
    }
}

// The client, or else the proxy.
fn one_named(client: Option<ClientName>, proxy: Option<ProxyName>) -> Option<NodeName>
    ensures { result ≡ one_named client proxy }
{
    match client {
        Some(client) => Some(NodeName::Client(client)),
        None => Some(NodeName::Proxy(proxy?)),
    }
}

/// The name of a node that does something.
#[tactic(auto, unfolding(crate::specs::Inner::Reading::worker_in))]
pub(crate) fn worker(word: &str) -> Option<NodeName>
    ensures { result ≡ worker_in word.now }
{
    match node(word)? {
        NodeName::Stranger => None,
        NodeName::Client(client) => Some(NodeName::Client(client)),
        NodeName::Proxy(proxy) => Some(NodeName::Proxy(proxy)),
        NodeName::Server => Some(NodeName::Server),
    }
}

/// The name of a method.
#[tactic(auto, unfolding(crate::specs::Inner::Reading::method_in))]
pub(crate) fn method(word: &str) -> Option<Method>
    ensures { result ≡ method_in word.now }
{
    match word {
        "GET" => Some(Method::Get),
        "POST" => Some(Method::Post),
        "PUT" => Some(Method::Put),
        "DELETE" => Some(Method::Delete),
        _ => None,
    }
}

/// `[nbf=N] [exp=N]`: from when on, and until when.
#[tactic(auto, unfolding(crate::specs::Inner::Reading::dates_in))]
pub(crate) fn dates(words: &[&str]) -> Option<(Option<u64>, Option<u64>)>
    ensures { result ≡ dates_in (map (λ word. word.now) words.now) }
{
    match words {
        [] => Some((None, None)),
        [word] => one_date(
            date(b"nbf=", word.as_bytes()),
            date(b"exp=", word.as_bytes()),
        ),
        [first, second] => {
            let begins = date(b"nbf=", first.as_bytes())?;
            let ends = date(b"exp=", second.as_bytes())?;
            Some((Some(begins), Some(ends)))
        }
        _ => None,
    }
}

// The one that was found, or else the other.
fn one_date(begins: Option<u64>, ends: Option<u64>) -> Option<(Option<u64>, Option<u64>)>
    ensures { result ≡ one_date begins ends }
{
    match begins {
        Some(begins) => Some((Some(begins), None)),
        None => match ends {
            Some(ends) => Some((None, Some(ends))),
            None => None,
        },
    }
}

// The number after this name.
#[tactic(auto, unfolding(crate::specs::Inner::Reading::date_in))]
fn date(name: &[u8], word: &[u8]) -> Option<u64>
    ensures { result ≡ date_in name.now word.now }
{
    number(word.strip_prefix(name)?)
}

/// The words before a last word `alg=30`, and the algorithm: without that word all of them, and that of shorter tags.
#[tactic(auto, unfolding(crate::specs::Inner::Reading::algorithm_in))]
pub(crate) fn algorithm<'a, 'b>(words: &'a [&'b str]) -> (&'a [&'b str], Algorithm)
    ensures { (map (λ word. word.now) result.0.now, result.1) ≡ algorithm_in (map (λ word. word.now) words.now) }
{
    let [before @ .., last] = words else {
        return (words, Algorithm::EightByteTag);
    };
    if *last == "alg=30" {
        (before, Algorithm::SixteenByteTag)
    } else {
        (words, Algorithm::EightByteTag)
    }
}

/// The first 1,153 of the bytes of a word: a datagram with that many is too long, whatever comes after them.
#[tactic(auto, unfolding(crate::specs::Inner::Reading::kept_in))]
pub(crate) fn kept_bytes(alloc: Global, word: &[u8]) -> Result<Option<Bytes>, AllocError>
    ensures { IfOk result (λ found. found ≡ kept_in word.now) }
{
    first_bytes(alloc, word, MOST_KEPT)
}

/// All bytes of a word, if they are at most `most`.
pub(crate) fn short_bytes(
    alloc: Global,
    word: &[u8],
    most: u16,
) -> Result<Option<Bytes>, AllocError>
    ensures { IfOk result (λ found. found ≡ short_bytes_in most word.now) }
{
    match first_bytes(alloc, word, most as usize + 1)? {
        Some(bytes) if bytes.len() <= most as usize => Ok(Some(bytes)),
        _ => Ok(None),
    }
}

// `-` for no bytes, or parts joined by `+`. The whole word is read, and as many of the first bytes are made as are wanted.
#[tactic(auto, unfolding(crate::specs::Inner::Reading::bytes_in))]
fn first_bytes(alloc: Global, word: &[u8], most: usize) -> Result<Option<Bytes>, AllocError>
    ensures { IfOk result (λ found. found ≡ option_map (take most) (bytes_in word.now)) }
{
    if word == b"-".as_slice() {
        return Ok(Some(Bytes::new(alloc)));
    }
    let parts = parts(alloc, word, b'+')?;
    let Some(items) = joined(alloc, &parts, most)? else {
        return Ok(None);
    };
    Ok(Some(Bytes::from_slice(alloc, &items)?))
}

// The first bytes of the parts, one after another.
fn joined(alloc: Global, parts: &[&[u8]], most: usize) -> Result<Option<Vec<u8>>, AllocError>
    ensures { IfOk result (λ found. option_map (λ items. items.items) found ≡ option_map (take most) (parts_in (map (λ part. part.now) parts.now))) }
{
    let mut items = Vec::new(alloc);
    for part in parts {
        let Some(more) = part_of(alloc, part, most - items.len())? else {
            return Ok(None);
        };
        items.extend_from_slice(&more)?;
    }
    Ok(Some(items))
}

// The first bytes of pairs of hexadecimal digits, or of one pair, `*` and a count.
#[tactic(auto, unfolding(crate::specs::Inner::Reading::part_in))]
fn part_of(alloc: Global, part: &[u8], most: usize) -> Result<Option<Vec<u8>>, AllocError>
    ensures { IfOk result (λ found. option_map (λ items. items.items) found ≡ option_map (take most) (part_in part.now)) }
{
    match part {
        [high, low, b'*', digits @ ..] => repeated(alloc, &[*high, *low], digits, most),
        _ => first_pairs(alloc, part, most),
    }
}

// The byte of a pair of digits, as many times as the other digits say, but not more often than is wanted.
#[tactic(auto, unfolding(crate::specs::Inner::Reading::repeated_in))]
fn repeated(
    alloc: Global,
    pair: &[u8],
    digits: &[u8],
    most: usize,
) -> Result<Option<Vec<u8>>, AllocError>
    ensures { IfOk result (λ found. option_map (λ items. items.items) found ≡ option_map (take most) (repeated_in pair.now digits.now)) }
{
    let Some(byte) = pairs(alloc, pair)? else {
        return Ok(None);
    };
    let Some(count) = number(digits) else {
        return Ok(None);
    };
    Ok(Some(vec![in alloc; byte[0]; fewer(count as usize, most)]?))
}

fn fewer(count: usize, most: usize) -> usize
    ensures { result ≡ Prelude.min count most }
{
    min(count, most)
}

// The first bytes of pairs of digits.
fn first_pairs(alloc: Global, part: &[u8], most: usize) -> Result<Option<Vec<u8>>, AllocError>
    ensures { IfOk result (λ found. option_map (λ items. items.items) found ≡ option_map (take most) (hex_in part.now)) }
{
    let Some(mut bytes) = pairs(alloc, part)? else {
        return Ok(None);
    };
    bytes.truncate(most);
    Ok(Some(bytes))
}

/// Eight bytes, in 16 hexadecimal digits.
#[tactic(auto, unfolding(crate::specs::Inner::Reading::nonce_in))]
pub(crate) fn nonce(alloc: Global, word: &[u8]) -> Result<Option<[u8; 8]>, AllocError>
    ensures { IfOk result (λ found. found ≡ nonce_in word.now) }
{
    if word.len() != 16 {
        return Ok(None);
    }
    match pairs(alloc, word)? {
        Some(bytes) => Ok(eight(&bytes)),
        None => Ok(None),
    }
}

/// Pairs of hexadecimal digits in either case, at least one.
#[tactic(auto, unfolding(crate::specs::Inner::Reading::hex_in))]
pub(crate) fn pairs(alloc: Global, part: &[u8]) -> Result<Option<Vec<u8>>, AllocError>
    ensures { IfOk result (λ found. option_map (λ items. items.items) found ≡ hex_in part.now) }
{
    if part.is_empty() {
        return Ok(None);
    }
    decoded(alloc, part)
}

// The bytes, if there are eight.
fn eight(bytes: &[u8]) -> Option<[u8; 8]>
    ensures some { IfSome result (λ eight. eight ≡ bytes.now) }
    ensures none { IsNone result → length bytes.now ≢ 8 }
{
    match bytes {
        [a, b, c, d, e, f, g, h] => Some([*a, *b, *c, *d, *e, *f, *g, *h]),
        _ => None,
    }
}
