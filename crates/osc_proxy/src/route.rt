//! Where a request goes (RFC 7252 sections 5.7.2 and 5.10.2).
ghost use Rattle.std.specs.Prelude.{◌≡◌, ◌≤◌, ◌||◌, true, false, List, length, Option, is_some, option_map, IfSome, IfNone};
ghost use Rattle.osc_coap.specs.{NumberAndValue};
ghost use Rattle.osc_options.specs.{uri_host, uri_port, value as value_in};
ghost use Rattle.osc_proxy.specs.ProxyUri.{HostAndPort};
ghost use Rattle.osc_proxy.specs.Route as spec;

use crate::laws::something_is_named;
use crate::proxy_uri::{TargetName, read_proxy_uri};
use crate::targets::Targets;
use osc_coap::MessageRef;
use osc_model::Peer;
use osc_model::limits::DEFAULT_PORT;
use osc_options::{TargetOptions, proxy_survey_of, uint};

/// Where a request goes.
#[derive(Clone, Copy, Debug, PartialEq, Eq)]
pub enum Destination {
    /// It has an option that isn't recognised and is unsafe to forward: 4.02 (Bad Option).
    BadOption,
    /// It is for no proxy, and there is nothing else here: 4.04 (Not Found).
    NotFound,
    /// The scheme, the form of the URI, or the host and port that it names isn't one that is forwarded to: 5.05 (Proxying Not
    /// Supported).
    NotSupported,
    /// To this peer.
    To(Peer),
}

/// The port that Uri-Port names, or that of the scheme.
fn port_in(port: Option<&[u8]>) -> u16
    requires { IfSome port (λ v. length v.now ≤ 2) }
    ensures { result ≡ spec.port_in (option_map (λ v. v.now) port.entry) }
{
    match port {
        Some(bytes) => uint(bytes),
        None => DEFAULT_PORT,
    }
}

/// What Proxy-Scheme, Uri-Host and Uri-Port name.
fn named_by_scheme<'a>(
    scheme: &[u8],
    host: Option<&'a [u8]>,
    port: Option<&[u8]>,
) -> Option<TargetName<'a>>
    requires { IfSome port (λ v. length v.now ≤ 2) }
    ensures { option_map (λ origin. (origin.host.now, origin.port)) result
        ≡ spec.by_scheme scheme.now (option_map (λ v. v.now) host.entry) (option_map (λ v. v.now) port.entry) }
{
    if scheme != b"coap".as_slice() {
        return None;
    }
    let host = host?;
    Some(TargetName {
        host,
        port: port_in(port),
    })
}

/// What a request that is for a proxy names for its target, lent from it: a host and a port, or nothing that is known. A Proxy-Uri decides
/// alone where it is there; else Proxy-Scheme has to be `coap`, and Uri-Host has to be there. `None` where the request is for no proxy.
fn named_to_proxy<'a>(named: &TargetOptions<'a>) -> Option<Option<TargetName<'a>>>
    requires { IfSome named.now.uri_port (λ v. length v.now ≤ 2) }
    ensures some { IfSome result (λ origin. ((is_some named.now.proxy_uri || is_some named.now.proxy_scheme) ≡ true)
        × ((options : List NumberAndValue)
        → value_in uri_host options ≡ option_map (λ v. v.now) named.now.uri_host
        → value_in uri_port options ≡ option_map (λ v. v.now) named.now.uri_port
        → spec.NamesBy (option_map (λ v. v.now) named.now.proxy_uri) (option_map (λ v. v.now) named.now.proxy_scheme) options
        (option_map (λ origin. (origin.host.now, origin.port)) origin))) }
    ensures none { IfNone result ((is_some named.now.proxy_uri || is_some named.now.proxy_scheme) ≡ false) }
{
    if let Some(uri) = named.proxy_uri {
        return Some(read_proxy_uri(uri));
    }
    let scheme = named.proxy_scheme?;
    Some(named_by_scheme(scheme, named.uri_host, named.uri_port))
}

/// Where a request with these options goes; takes no memory. They are gone over once.
pub fn route_of(targets: &Targets, message: &MessageRef<'_>) -> Destination
    ensures { (named : Option HostAndPort) × spec.Names message.now.options named × (result ≡ spec.route targets.now message.now.options named) }
{
    something_is_named();
    let survey = proxy_survey_of(message);
    if survey.has_unrecognised_unsafe {
        return Destination::BadOption;
    }
    match named_to_proxy(&survey.named) {
        Some(named) => to_named(targets, named),
        None => Destination::NotFound,
    }
}

/// Where a request for this host and port goes.
fn to_named(targets: &Targets, named: Option<TargetName<'_>>) -> Destination
    ensures { result ≡ spec.to_named targets.now (option_map (λ origin. (origin.host.now, origin.port)) named.entry) }
{
    let Some(origin) = named else {
        return Destination::NotSupported;
    };
    match targets.find(origin.host, origin.port) {
        Some(peer) => Destination::To(peer),
        None => Destination::NotSupported,
    }
}
