//! What the options of a message say to a node before it acts on them (RFC 7252 sections 5.4.1, 5.4.2 and 5.10.2, RFC 8613
//! section 2).
ghost use Rattle.std.specs.Prelude.{◌≡◌, ◌≤◌, ◌==◌, ◌||◌, ◌∷◌, ℕ, List, length, IfSome};
ghost use Rattle.std.specs.List.{list_any};
ghost use Rattle.std.specs.Option.{option_map, option_or};
ghost use Rattle.osc_coap.specs.{NumberAndValue};
ghost use Rattle.osc_options.specs.Recognised as spec;
ghost use Rattle.osc_options.specs.Recognised.{recognised};
ghost use Rattle.osc_options.specs.Requests.{value as value_in};

use crate::fields::first_of;
use crate::numbers::{OSCORE, PROXY_SCHEME, PROXY_URI, URI_HOST, URI_PORT};
use crate::recognised::is_recognised;
use crate::table::{is_critical, is_unsafe};
use osc_coap::MessageRef;
use std::fmt;
use std::marker::Model;

/// The value of the first OSCORE option of a message, which lends it; contracts see its bytes.
#[derive(Drop)]
pub struct OscoreValue<'a> {
    bytes: &'a [u8],
}

impl<'a> Model for OscoreValue<'a> {
    ghost use Rattle.std.specs.Prelude.{List, ℕ};

    ghost Value = { List ℕ };

    ghost view = { λ value. value.bytes.now };
}

impl<'a> OscoreValue<'a> {
    /// The bytes.
    pub fn bytes(&self) -> &'a [u8]
        ensures { result.now ≡ self.now }
    {
        self.bytes
    }
}

/// What the options of a message say to a server before it acts on them.
#[derive(Debug, Drop)]
pub struct Survey<'a> {
    /// The first critical option that isn't recognised, by its number.
    pub unrecognised_critical: Option<u16>,
    /// The value of the first OSCORE option, recognised or not.
    pub oscore: Option<OscoreValue<'a>>,
    /// Whether there is a Proxy-Uri, recognised or not.
    pub has_proxy_uri: bool,
    /// Whether there is a Proxy-Scheme, recognised or not.
    pub has_proxy_scheme: bool,
}

/// The options that name the target of a request, by the values of the first of each that is recognised.
#[derive(Clone, Copy)]
pub struct TargetOptions<'a> {
    pub uri_host: Option<&'a [u8]>,
    pub uri_port: Option<&'a [u8]>,
    pub proxy_uri: Option<&'a [u8]>,
    pub proxy_scheme: Option<&'a [u8]>,
}

/// What the options of a request say to a proxy before it forwards the request.
#[derive(Clone, Copy, Debug)]
pub struct ProxySurvey<'a> {
    /// Whether an option that isn't recognised is unsafe to forward.
    pub has_unrecognised_unsafe: bool,
    /// The target that the recognised options name.
    pub named: TargetOptions<'a>,
}

// What a message carries isn't printed.
impl<'a> fmt::Debug for OscoreValue<'a> {
    fn fmt<W: fmt::Write>(&self, f: &mut fmt::Formatter<W>) -> fmt::Result {
        f.write_str("OscoreValue")
    }
}

impl<'a> fmt::Debug for TargetOptions<'a> {
    fn fmt<W: fmt::Write>(&self, f: &mut fmt::Formatter<W>) -> fmt::Result {
        f.write_str("TargetOptions")
    }
}

/// The first critical option that isn't recognised, among those before and this one, which follows one of number `behind`.
fn first_critical(before: Option<u16>, behind: u16, number: u16, value: &[u8]) -> Option<u16>
    ensures { (rest : List NumberAndValue)
        → option_or result (spec.unrecognised_critical number rest)
        ≡ option_or before (spec.unrecognised_critical behind ((number, value.now) ∷ rest)) }
{
    if before.is_some() || !is_critical(number) || is_recognised(behind, number, value) {
        return before;
    }
    Some(number)
}

/// Whether an option of the wanted number is there, among those before and this one.
fn any_of(before: bool, wanted: u16, number: u16) -> bool
    ensures { (value : List ℕ) (rest : List NumberAndValue)
        → (result || list_any (λ option. option.0 == wanted) rest)
        ≡ (before || list_any (λ option. option.0 == wanted) ((number, value) ∷ rest)) }
{
    before || number == wanted
}

/// Lends the value.
fn oscore_value(found: Option<&[u8]>) -> Option<OscoreValue<'_>>
    ensures { result ≡ option_map (λ v. v.now) found.entry }
{
    match found {
        Some(bytes) => Some(OscoreValue { bytes }),
        None => None,
    }
}

/// What the options of a message say to a server, found in one pass over them.
pub fn survey_of<'a>(message: &MessageRef<'a>) -> Survey<'a>
    ensures critical { result.unrecognised_critical ≡ spec.unrecognised_critical 0 message.now.options }
    ensures oscore { result.oscore ≡ value_in 9 message.now.options }
    ensures has_uri { result.has_proxy_uri ≡ list_any (λ option. option.0 == 35) message.now.options }
    ensures has_scheme { result.has_proxy_scheme ≡ list_any (λ option. option.0 == 39) message.now.options }
{
    let mut critical = None;
    let mut oscore = None;
    let mut has_uri = false;
    let mut has_scheme = false;
    let mut behind = 0;
    for (number, value) in message.options() {
        critical = first_critical(critical, behind, number, value);
        oscore = first_of(oscore, OSCORE, number, value);
        has_uri = any_of(has_uri, PROXY_URI, number);
        has_scheme = any_of(has_scheme, PROXY_SCHEME, number);
        behind = number;
    }
    Survey {
        unrecognised_critical: critical,
        oscore: oscore_value(oscore),
        has_proxy_uri: has_uri,
        has_proxy_scheme: has_scheme,
    }
}

/// Whether an option that isn't recognised is unsafe to forward, among those before and this one.
fn any_unsafe(before: bool, number: u16, known: bool) -> bool
    ensures { (behind : ℕ) (value : List ℕ) (rest : List NumberAndValue) → known ≡ spec.is_recognised behind (number, value)
        → (result || spec.has_unrecognised_unsafe number rest)
        ≡ (before || spec.has_unrecognised_unsafe behind ((number, value) ∷ rest)) }
{
    before || (!known && is_unsafe(number))
}

/// Adds a recognised option.
fn add_named<'a>(named: &mut TargetOptions<'a>, number: u16, value: &'a [u8])
    ensures host { (rest : List NumberAndValue)
        → option_or (option_map (λ v. v.now) named.new.uri_host) (value_in 3 rest)
        ≡ option_or (option_map (λ v. v.now) named.old.uri_host) (value_in 3 ((number, value.now) ∷ rest)) }
    ensures port { (rest : List NumberAndValue)
        → option_or (option_map (λ v. v.now) named.new.uri_port) (value_in 7 rest)
        ≡ option_or (option_map (λ v. v.now) named.old.uri_port) (value_in 7 ((number, value.now) ∷ rest)) }
    ensures uri { (rest : List NumberAndValue)
        → option_or (option_map (λ v. v.now) named.new.proxy_uri) (value_in 35 rest)
        ≡ option_or (option_map (λ v. v.now) named.old.proxy_uri) (value_in 35 ((number, value.now) ∷ rest)) }
    ensures scheme { (rest : List NumberAndValue)
        → option_or (option_map (λ v. v.now) named.new.proxy_scheme) (value_in 39 rest)
        ≡ option_or (option_map (λ v. v.now) named.old.proxy_scheme) (value_in 39 ((number, value.now) ∷ rest)) }
{
    named.uri_host = first_of(named.uri_host, URI_HOST, number, value);
    named.uri_port = first_of(named.uri_port, URI_PORT, number, value);
    named.proxy_uri = first_of(named.proxy_uri, PROXY_URI, number, value);
    named.proxy_scheme = first_of(named.proxy_scheme, PROXY_SCHEME, number, value);
}

/// Adds an option of which it is known whether it is recognised.
fn add<'a>(named: &mut TargetOptions<'a>, number: u16, value: &'a [u8], known: bool)
    ensures host { (behind : ℕ) (rest : List NumberAndValue) → known ≡ spec.is_recognised behind (number, value.now)
        → option_or (option_map (λ v. v.now) named.new.uri_host) (value_in 3 (recognised number rest))
        ≡ option_or (option_map (λ v. v.now) named.old.uri_host) (value_in 3 (recognised behind ((number, value.now) ∷ rest))) }
    ensures port { (behind : ℕ) (rest : List NumberAndValue) → known ≡ spec.is_recognised behind (number, value.now)
        → option_or (option_map (λ v. v.now) named.new.uri_port) (value_in 7 (recognised number rest))
        ≡ option_or (option_map (λ v. v.now) named.old.uri_port) (value_in 7 (recognised behind ((number, value.now) ∷ rest))) }
    ensures uri { (behind : ℕ) (rest : List NumberAndValue) → known ≡ spec.is_recognised behind (number, value.now)
        → option_or (option_map (λ v. v.now) named.new.proxy_uri) (value_in 35 (recognised number rest))
        ≡ option_or (option_map (λ v. v.now) named.old.proxy_uri) (value_in 35 (recognised behind ((number, value.now) ∷ rest))) }
    ensures scheme { (behind : ℕ) (rest : List NumberAndValue) → known ≡ spec.is_recognised behind (number, value.now)
        → option_or (option_map (λ v. v.now) named.new.proxy_scheme) (value_in 39 (recognised number rest))
        ≡ option_or (option_map (λ v. v.now) named.old.proxy_scheme) (value_in 39 (recognised behind ((number, value.now) ∷ rest))) }
{
    match number {
        URI_HOST | URI_PORT | PROXY_URI | PROXY_SCHEME => {}
        _ => return,
    }
    if known {
        add_named(named, number, value);
    }
}

/// What the options of a request say to a proxy, found in one pass over them.
pub fn proxy_survey_of<'a>(message: &MessageRef<'a>) -> ProxySurvey<'a>
    ensures unsafe_option { result.has_unrecognised_unsafe ≡ spec.has_unrecognised_unsafe 0 message.now.options }
    ensures host { option_map (λ v. v.now) result.named.uri_host ≡ value_in 3 (recognised 0 message.now.options) }
    ensures port { option_map (λ v. v.now) result.named.uri_port ≡ value_in 7 (recognised 0 message.now.options) }
    // A port has two bytes at most.
    ensures port_length { IfSome result.named.uri_port (λ v. length v.now ≤ 2) }
    ensures uri { option_map (λ v. v.now) result.named.proxy_uri ≡ value_in 35 (recognised 0 message.now.options) }
    ensures scheme { option_map (λ v. v.now) result.named.proxy_scheme ≡ value_in 39 (recognised 0 message.now.options) }
{
    let mut cannot_go = false;
    let mut named = TargetOptions {
        uri_host: None,
        uri_port: None,
        proxy_uri: None,
        proxy_scheme: None,
    };
    let mut before = 0;
    for (number, value) in message.options() {
        let known = is_recognised(before, number, value);
        cannot_go = any_unsafe(cannot_go, number, known);
        add(&mut named, number, value, known);
        before = number;
    }
    ProxySurvey {
        has_unrecognised_unsafe: cannot_go,
        named,
    }
}
