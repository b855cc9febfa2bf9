//! The clients and the proxies of a script, and their numbers in a world.
ghost use Rattle.std.specs.Prelude.{◌≡◌, ◌==◌, ◌++◌, ◌∷◌, [], IfOk, OnOk, position};
ghost use Rattle.std.specs.List.{list_any};
ghost use Rattle.osc_simulation.specs.Names as spec;

use osc_script::{ClientName, Line, ProxyName};
use std::alloc::{AllocError, Global};
use std::marker::Model;

/// The clients of a script, in the order of the lines that grant, and its proxies, in the order of the lines that make them first: the
/// number of each in the world is its place, from 0.
pub struct Names {
    clients: Vec<ClientName>,
    proxies: Vec<ProxyName>,
}

impl Drop for Names {
    fn drop(self) {
        let Names {
            clients: _,
            proxies: _,
        } = self;
    }
}

impl Model for Names {
    ghost use Rattle.osc_simulation.specs.Names.{Names as Both};

    ghost Value = { Both };

    ghost view = { λ names. record { clients = names.clients.items; proxies = names.proxies.items } };
}

impl Names {
    /// Those of these lines.
    pub fn of(alloc: Global, lines: &[Line]) -> Result<Names, AllocError>
        ensures { IfOk result (λ names. names ≡ spec.names_in lines.now) }
    {
        let clients = granted(alloc, lines)?;
        let proxies = made(alloc, lines)?;
        Ok(Names { clients, proxies })
    }

    /// The clients, lent.
    pub fn clients(&self) -> &[ClientName]
        ensures { result.now ≡ self.now.clients }
    {
        &self.clients
    }

    /// The proxies, lent.
    pub fn proxies(&self) -> &[ProxyName]
        ensures { result.now ≡ self.now.proxies }
    {
        &self.proxies
    }
}

/// The clients, in the order of the lines that grant.
fn granted(alloc: Global, lines: &[Line]) -> Result<Vec<ClientName>, AllocError>
    ensures { IfOk result (λ clients. clients.items ≡ spec.granted lines.now) }
{
    let mut clients = Vec::new(alloc);
    for line in lines {
        if let Line::Grant { client, .. } = line {
            clients.push(*client)?;
        }
    }
    Ok(clients)
}

/// The proxies, in the order of the lines that make them first.
fn made(alloc: Global, lines: &[Line]) -> Result<Vec<ProxyName>, AllocError>
    ensures { IfOk result (λ proxies. proxies.items ≡ spec.made lines.now) }
{
    let mut proxies = Vec::new(alloc);
    for line in lines {
        make(&mut proxies, line)?;
    }
    Ok(proxies)
}

/// Adds the proxy that the line makes, if it makes one.
fn make(proxies: &mut Vec<ProxyName>, line: &Line) -> Result<(), AllocError>
    ensures { OnOk result (proxies.new.items ≡ spec.made_by proxies.old.items line.now) }
{
    match line {
        Line::Proxy { proxy } => add(proxies, *proxy),
        Line::Via { proxy, .. } => add(proxies, *proxy),
        _ => Ok(()),
    }
}

/// Adds the proxy, if it isn't there.
fn add(proxies: &mut Vec<ProxyName>, proxy: ProxyName) -> Result<(), AllocError>
    ensures { OnOk result (proxies.new.items ≡ spec.with_proxy proxies.old.items proxy) }
{
    if is_among(proxies, proxy) {
        Ok(())
    } else {
        append(proxies, proxy)
    }
}

/// Whether the proxy is there.
fn is_among(proxies: &[ProxyName], proxy: ProxyName) -> bool
    ensures { result ≡ list_any (λ other. other.digit == proxy.digit) proxies.now }
{
    proxies.iter().any(|other| other.digit == proxy.digit)
}

/// Adds the proxy after the others.
fn append(proxies: &mut Vec<ProxyName>, proxy: ProxyName) -> Result<(), AllocError>
    ensures { OnOk result (proxies.new.items ≡ proxies.old.items ++ proxy ∷ []) }
{
    Ok(proxies.push(proxy)?)
}

/// The number of a client; of one that isn't granted, a number that no client has.
pub fn number_of(clients: &[ClientName], client: ClientName) -> usize
    ensures { result ≡ spec.number_of clients.now client }
{
    place_of(clients, client).unwrap_or(clients.len())
}

/// Where the client is first among these.
fn place_of(clients: &[ClientName], client: ClientName) -> Option<usize>
    ensures { result ≡ position (λ other. other.digit == client.digit) clients.now }
{
    clients.iter().position(|other| other.digit == client.digit)
}

/// The number of a proxy; of one that isn't made, a number that no proxy has.
pub(crate) fn proxy_number(proxies: &[ProxyName], proxy: ProxyName) -> usize
    ensures { result ≡ spec.proxy_number proxies.now proxy }
{
    place_of_proxy(proxies, proxy).unwrap_or(proxies.len())
}

/// Where the proxy is first among these.
fn place_of_proxy(proxies: &[ProxyName], proxy: ProxyName) -> Option<usize>
    ensures { result ≡ position (λ other. other.digit == proxy.digit) proxies.now }
{
    proxies.iter().position(|other| other.digit == proxy.digit)
}

/// The name of the client of this number, or `?` where there is none.
pub fn name_of_number(clients: &[ClientName], number: usize) -> &'static str
    ensures { result.now ≡ spec.name_of_number clients.now number }
{
    match clients.get(number) {
        Some(client) => client.name(),
        None => "?",
    }
}
