//! The world before the first event, from the set-up lines of a script.
ghost use Rattle.std.specs.Prelude.{◌≡◌, ◌+◌, [], IfOk, None, OnOk, codes, false, length, true};
ghost use Rattle.std.specs.FinMap as map;
ghost use Rattle.std.specs.FinSet as set;
ghost use Rattle.osc_model.specs.{default_port};
ghost use Rattle.osc_script.specs.{iv_of, address_of};
ghost use Rattle.osc_script.specs.declared.node.NodeName.TheVariants.{Client, Server};
ghost use Rattle.osc_world.specs.{Beginning, Enrols};
ghost use Rattle.osc_simulation.specs.Names.{names_in};
ghost use Rattle.osc_simulation.specs.Simulation as spec;
ghost use Rattle.osc_simulation.specs.SetUp.{CanPut, CanPutAll};

use crate::names::Names;
use osc_authz::ContextRules;
use osc_ccm::Suite;
use osc_client::{Origin, Route};
use osc_model::limits::DEFAULT_PORT;
use osc_model::{Bytes, Method, Path};
use osc_proxy::{Target, Targets};
use osc_scope::Scope;
use osc_script::laws::key_of_tokens;
use osc_script::{ClientName, Line, NodeName, ProxyName, TOKEN_KEY, grant_claims, token_iv};
use osc_token::{Audience, Claims};
use osc_tree::Tree;
use osc_world::{NewHolder, Start, World};
use std::alloc::{AllocError, Global};

// The server's host, by which proxies know it.
const SERVER_HOST: &[u8] = b"s";

/// The world that the set-up lines make: the resources, the paths that are open, the revocation path, the clients with their tokens, and
/// the proxies. The lines of a script fit (`laws::a_script_fits`), and the names are those of the same lines.
pub fn first_world(alloc: Global, names: &Names, lines: &[Line]) -> Result<World, AllocError>
    requires puts { CanPutAll map.empty lines.now }
    requires names { names.now ≡ names_in lines.now }
    ensures { IfOk result (λ world. spec.Begins lines.now world) }
{
    let start = start_of(alloc, names, lines)?;
    start.begin(alloc)
}

/// What the set-up lines of a script make, before anything happens. The lines of a script fit (`laws::a_script_fits`), and the names
/// are those of the same lines.
pub fn start_of(alloc: Global, names: &Names, lines: &[Line]) -> Result<Start, AllocError>
    requires puts { CanPutAll map.empty lines.now }
    requires names { names.now ≡ names_in lines.now }
    ensures { IfOk result (λ start. spec.IsStartOf lines.now start) }
{
    let mut start = first_start(alloc, lines)?;
    match fill(alloc, &mut start, names, lines) {
        Ok(()) => Ok(start),
        Err(error) => {
            drop(start);
            Err(error)
        }
    }
}

// Enrolls the clients, and adds the proxies.
fn fill(alloc: Global, start: &mut Start, names: &Names, lines: &[Line]) -> Result<(), AllocError>
    requires nobody { start.old.clients ≡ [] }
    ensures { OnOk result ((enrolled : Beginning) × spec.AllEnrolled lines.now start.old lines.now enrolled × (start.new ≡ spec.with_proxies enrolled names.now.proxies)) }
{
    enroll_all(alloc, start, lines)?;
    add_all(alloc, start, names.proxies())
}

// Adds the proxies, in order.
fn add_all(alloc: Global, start: &mut Start, proxies: &[ProxyName]) -> Result<(), AllocError>
    ensures { OnOk result (start.new ≡ spec.with_proxies start.old proxies.now) }
{
    for proxy in proxies {
        add(alloc, start, *proxy)?;
    }
    Ok(())
}

// Adds a proxy, which forwards to the server alone. No other node of a script is at its address: only lack of memory refuses it.
fn add(alloc: Global, start: &mut Start, proxy: ProxyName) -> Result<(), AllocError>
    ensures { OnOk result (start.new ≡ spec.with_new_proxy start.old proxy) }
{
    let targets = targets(alloc)?;
    match start.add_proxy(alloc, NodeName::Proxy(proxy).address(), targets) {
        Ok(()) => Ok(()),
        Err(_) => Err(AllocError),
    }
}

// The server, by the host `s` and its port.
fn targets(alloc: Global) -> Result<Targets, AllocError>
    ensures { IfOk result (λ targets. targets ≡ spec.targets) }
{
    let mut targets = Targets::new(alloc);
    targets.push(server_target(alloc)?)?;
    Ok(targets)
}

fn server_target(alloc: Global) -> Result<Target, AllocError>
    ensures { IfOk result (λ target. target ≡ record { host = codes "s"; port = default_port; peer = address_of Server }) }
{
    Ok(Target {
        host: Bytes::from_slice(alloc, SERVER_HOST)?,
        port: DEFAULT_PORT,
        peer: NodeName::Server.address(),
    })
}

// Nobody is enrolled yet; tokens have the audience `s`.
fn first_start(alloc: Global, lines: &[Line]) -> Result<Start, AllocError>
    requires { CanPutAll map.empty lines.now }
    ensures { IfOk result (λ start. start ≡ spec.first_start lines.now) }
{
    key_of_tokens();
    let tree = first_tree(alloc, lines)?;
    let open_scope = open_scope(alloc, lines)?;
    let audience = Audience::new(alloc, "s")?;
    let revoked = revocation_path(lines)?;
    let server = NodeName::Server.address();
    let start = Start::new(alloc, tree, open_scope, TOKEN_KEY, audience, server);
    Ok(with_revoked(start, revoked))
}

// The path below which resources revoke tokens, if a line says one.
fn revocation_path(lines: &[Line]) -> Result<Option<Path>, AllocError>
    ensures { IfOk result (λ path. path ≡ spec.revocation_in lines.now) }
{
    for line in lines {
        if let Line::Revoked { path } = line {
            return Ok(Some(path.clone()?));
        }
    }
    Ok(None)
}

// The start, with this revocation path, if there is one. In scripts a context counts as long as its token, and each post is new.
fn with_revoked(mut start: Start, revoked: Option<Path>) -> Start
    ensures { result ≡ record start { rules = record { revoked = revoked; seconds = None; remembered = 0; reserved = None; subtrees = true; answers = false } } }
{
    start.rule_contexts(ContextRules {
        revoked,
        seconds: None,
        remembered: 0,
        reserved: None,
        subtrees: true,
        answers: false,
    });
    start
}

fn first_tree(alloc: Global, lines: &[Line]) -> Result<Tree, AllocError>
    requires { CanPutAll map.empty lines.now }
    ensures { IfOk result (λ tree. tree ≡ spec.tree_from map.empty lines.now) }
{
    let mut tree = Tree::new(alloc);
    for line in lines {
        put(alloc, &mut tree, line)?;
    }
    Ok(tree)
}

fn put(alloc: Global, tree: &mut Tree, line: &Line) -> Result<(), AllocError>
    requires { CanPut tree.old line.now }
    ensures { OnOk result (tree.new ≡ spec.tree_after tree.old line.now) }
{
    if let Line::Put { path, resource } = line {
        tree.put(alloc, path.clone()?, resource.clone()?)?;
    }
    Ok(())
}

fn open_scope(alloc: Global, lines: &[Line]) -> Result<Scope, AllocError>
    ensures { IfOk result (λ scope. scope ≡ spec.scope_from set.empty lines.now) }
{
    let mut scope = Scope::new(alloc);
    for line in lines {
        allow(alloc, &mut scope, line)?;
    }
    Ok(scope)
}

fn allow(alloc: Global, scope: &mut Scope, line: &Line) -> Result<(), AllocError>
    ensures { OnOk result (scope.new ≡ spec.scope_after scope.old line.now) }
{
    if let Line::Open { path } = line {
        scope.allow(alloc, path.clone()?, Method::Get)?;
    }
    Ok(())
}

// Enrolls the clients that the lines grant to, in order.
fn enroll_all(alloc: Global, start: &mut Start, lines: &[Line]) -> Result<(), AllocError>
    requires { start.old.clients ≡ [] }
    ensures { OnOk result (spec.AllEnrolled lines.now start.old lines.now start.new) }
{
    let mut enrolled = 0;
    for line in lines {
        enroll(alloc, start, &mut enrolled, lines, line)?;
    }
    Ok(())
}

// Enrolls the client that the line grants to, if it does, after this number of others, in a script of these lines.
fn enroll(
    alloc: Global,
    start: &mut Start,
    enrolled: &mut u8,
    lines: &[Line],
    line: &Line,
) -> Result<(), AllocError>
    requires { enrolled.old ≡ length start.old.clients }
    ensures enrolled { OnOk result (spec.Enrolled lines.now start.old line.now start.new) }
    ensures count { OnOk result (enrolled.new ≡ length start.new.clients) }
{
    if let Line::Grant {
        client,
        scope,
        not_before,
        expires,
        alg,
    } = line
    {
        let number = next_number(*enrolled)?;
        let way = way_by(alloc, proxy_of(*client, lines))?;
        let claims = grant_claims(alloc, number, scope, *not_before, *expires, *alg)?;
        let holder = holder(number, *client, way, claims);
        admit(alloc, start, holder)?;
        *enrolled = number;
    }
    Ok(())
}

// The number of the grant after this number of them. No script has more than nine, one for each client.
fn next_number(enrolled: u8) -> Result<u8, AllocError>
    ensures { IfOk result (λ number. number ≡ enrolled + 1) }
{
    match enrolled.checked_add(1) {
        Some(number) => Ok(number),
        None => Err(AllocError),
    }
}

// The proxy by which a line says that the client sends, if one does.
fn proxy_of(client: ClientName, lines: &[Line]) -> Option<ProxyName>
    ensures { result ≡ spec.proxy_of client lines.now }
{
    for line in lines {
        if let Line::Via {
            client: other,
            proxy,
        } = line
        {
            if other.digit == client.digit {
                return Some(*proxy);
            }
        }
    }
    None
}

// The way to the server: by this proxy, or straight.
fn way_by(alloc: Global, proxy: Option<ProxyName>) -> Result<Route, AllocError>
    ensures { IfOk result (λ way. way ≡ spec.way_by proxy) }
{
    match proxy {
        Some(proxy) => Ok(Route {
            next_hop: NodeName::Proxy(proxy).address(),
            origin: Some(server_origin(alloc)?),
        }),
        None => Ok(Route {
            next_hop: NodeName::Server.address(),
            origin: None,
        }),
    }
}

// The server, as proxies know it; its host is never too long.
fn server_origin(alloc: Global) -> Result<Origin, AllocError>
    ensures { IfOk result (λ origin. origin ≡ spec.server_origin) }
{
    let host = Bytes::from_slice(alloc, SERVER_HOST)?;
    match Origin::new(host, DEFAULT_PORT) {
        Some(origin) => Ok(origin),
        None => Err(AllocError),
    }
}

// The client with the token of the grant of this number, which claims this.
fn holder(number: u8, client: ClientName, way: Route, claims: Claims) -> NewHolder
    ensures { result ≡ record { at = address_of (Client client); way = way; claims = claims; iv = iv_of number } }
{
    NewHolder {
        at: NodeName::Client(client).address(),
        way,
        claims,
        iv: token_iv(number),
    }
}

// A grant of a script has a scope that can be read and is short enough for a token, and no other node is at its client's address:
// only lack of memory refuses it.
fn admit(alloc: Global, start: &mut Start, holder: NewHolder) -> Result<(), AllocError>
    ensures { OnOk result (Enrols spec.is_sealing start.old holder start.new) }
{
    match start.enroll::<Suite>(alloc, holder) {
        Ok(()) => Ok(()),
        Err(_) => Err(AllocError),
    }
}
