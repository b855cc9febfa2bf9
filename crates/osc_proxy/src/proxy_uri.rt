//! What a Proxy-Uri names (RFC 7252 sections 5.10.2 and 6.1).
ghost use Rattle.std.specs.Prelude.{◌≡◌, ◌≤◌, ◌<◌, true, length, option_map};
ghost use Rattle.std.specs.List.{AllByRecursion, prefix_len};
ghost use Rattle.osc_proxy.specs.ProxyUri.{Reads, is_digit as is_digit_of, is_host_byte as is_host_byte_of};
ghost use Rattle.osc_proxy.specs.Inner.Reading as spec;

use osc_model::limits::DEFAULT_PORT;

/// The host and the port that a request names for its target.
#[derive(Clone, Copy, Debug, PartialEq, Eq)]
pub struct TargetName<'a> {
    /// The host, as it is spelled.
    pub host: &'a [u8],
    /// The UDP port.
    pub port: u16,
}

/// Whether the byte may be in a host.
fn is_host_byte(byte: u8) -> bool
    ensures { result ≡ is_host_byte_of byte }
{
    byte != b':' && byte != b'/'
}

/// How many bytes at the front may be in a host.
fn host_length(bytes: &[u8]) -> usize
    ensures value { result ≡ prefix_len is_host_byte_of bytes.now }
    ensures most { result ≤ length bytes.now }
{
    let mut count = 0;
    for byte in bytes {
        if !is_host_byte(*byte) {
            return count;
        }
        count += 1;
    }
    count
}

/// Whether the byte is a digit.
fn is_digit(byte: u8) -> bool
    ensures { result ≡ is_digit_of byte }
{
    b'0' <= byte && byte <= b'9'
}

/// How many digits are at the front.
fn digits_length(bytes: &[u8]) -> usize
    ensures value { result ≡ prefix_len is_digit_of bytes.now }
    ensures most { result ≤ length bytes.now }
{
    let mut count = 0;
    for byte in bytes {
        if !is_digit(*byte) {
            return count;
        }
        count += 1;
    }
    count
}

/// Whether nothing is left but a '/'.
fn is_end(rest: &[u8]) -> bool
    ensures { result ≡ spec.is_end rest.now }
{
    match rest {
        [] => true,
        [byte] => *byte == b'/',
        _ => false,
    }
}

/// The port that the digits name.
fn port_of(digits: &[u8]) -> Option<u16>
    requires { AllByRecursion (λ byte. is_digit_of byte ≡ true) digits.now }
    ensures { result ≡ spec.port_of digits.now }
{
    if digits.is_empty() || 5 < digits.len() {
        return None;
    }
    let mut port: u32 = 0;
    for digit in digits {
        port = 10 * port + (*digit - b'0') as u32;
        if 65535 < port {
            return None;
        }
    }
    if port == 0 {
        return None;
    }
    Some(port as u16)
}

/// The port at the front of the bytes, where nothing but a '/' follows it.
#[tactic(auto, unfolding(crate::specs::Inner::Reading::port_at))]
fn port_at(bytes: &[u8]) -> Option<u16>
    ensures { result ≡ spec.port_at bytes.now }
{
    let (digits, rest) = bytes.split_at(digits_length(bytes));
    if is_end(rest) { port_of(digits) } else { None }
}

/// The port that is named after a host.
fn port_behind(rest: &[u8]) -> Option<u16>
    ensures { result ≡ spec.port_behind rest.now }
{
    if is_end(rest) {
        return Some(DEFAULT_PORT);
    }
    match rest {
        [b':', digits @ ..] => port_at(digits),
        _ => None,
    }
}

/// The host and the port that follow the scheme.
#[tactic(auto, unfolding(crate::specs::Inner::Reading::authority))]
fn authority(bytes: &[u8]) -> Option<TargetName<'_>>
    ensures { option_map (λ origin. (origin.host.now, origin.port)) result ≡ spec.authority bytes.now }
{
    let (host, rest) = bytes.split_at(host_length(bytes));
    if host.is_empty() {
        return None;
    }
    let port = port_behind(rest)?;
    Some(TargetName { host, port })
}

/// The host and the port, read from left to right.
#[tactic(auto, unfolding(crate::specs::Inner::Reading::host_and_port))]
fn host_and_port(uri: &[u8]) -> Option<TargetName<'_>>
    ensures { option_map (λ origin. (origin.host.now, origin.port)) result ≡ spec.host_and_port uri.now }
{
    authority(uri.strip_prefix(b"coap://")?)
}

/// The host and the port that a Proxy-Uri names, where it has the form `coap://host`, with `:port` or without, and with a last `/`
/// or without; none where it has another form, a path or a query among them, or names port 0 or one above 65535.
///
/// The scheme is spelled in lower case. A port has 1 to 5 digits, and is 5683 where no port is named. The host is lent from the bytes.
pub fn read_proxy_uri(uri: &[u8]) -> Option<TargetName<'_>>
    ensures { Reads uri.now (option_map (λ origin. (origin.host.now, origin.port)) result) }
{
    host_and_port(uri)
}
