//! Nodes that run on a socket: a server, and a proxy.
ghost use Rattle.std.specs.FinMap as map;
ghost use Rattle.std.specs.FinSet as set;
ghost use Rattle.std.specs.Prelude.{◌≡◌, ◌⊎◌, ◌<◌, ◌≤◌, ◌+◌, List, IfErr, IfOk, IfSome, IsSome, OnOk, None, Some, length, map, option_map, string_bytes};
ghost use Rattle.osc_model.specs.{longest_payload, most_resources, exactly};
ghost use Rattle.osc_model.specs.declared.code.Method.TheVariants as AnyMethod;
ghost use Rattle.osc_turn.specs.{grown};
ghost use Rattle.osc_programs.specs.Ended as ends;
ghost use Rattle.osc_log.specs.{Event, Tells};
ghost use Rattle.osc_programs.specs.Input.{IsWithin, TakesAtMost, longest_settings};
ghost use Rattle.osc_programs.specs.Kept.{HasCause, LeavesKept};
ghost use Rattle.osc_programs.specs.Serving as spec;
ghost use Rattle.osc_programs.specs.Storing.{IsKeptIn, KeptBy};
ghost use Rattle.osc_model.specs.Tree.{Tree as AnyTree};
ghost use Rattle.osc_programs.specs.Turning as turning;
ghost use Rattle.osc_programs.specs.Unread.{TellsWhy};
ghost use Rattle.osc_words.specs.Settings.{StandsFor, IsFaultOfProxy, IsKeyFault, IsServerFault, AreProxySettings, AreServerSettings};
ghost use Rattle.osc_words.specs.declared.settings.proxy.ProxySettings.{ProxySettings as ForwardedBy};
ghost use Rattle.osc_words.specs.declared.settings.server.ServerSettings.{ServerSettings as ServedBy};

use crate::ended::Ended;
use crate::holding::Holding;
use crate::reading::{proxy_settings, server_settings};
use crate::store::{Stores, tell_unkept};
use crate::storing::serve_stored;
use crate::supply::supply_of;
use crate::turns::take_turns;
use crate::udp::{SocketPort, Sockets, Why};
use osc_authz::{ContextRules, DeskParts, ServerDesk};
use osc_ccm::Suite;
use osc_log::Log;
use osc_log::laws::telling_goes_on;
use osc_model::laws::permissions_are_ordered;
use osc_model::limits::REMEMBERED_POSTS;
use osc_model::{ClientResult, Datagrams, Method, Path, Peer, Resource};
use osc_proxy::{Proxy, Target, Targets};
use osc_run::Node;
use osc_scope::Scope;
use osc_server::Server;
use osc_store::Forgetful;
use osc_tree::{LONGEST_PAYLOAD, Tree};
use osc_turn::{KeepsSteps, KeptNode, Port, Seeds, send_all};
use osc_words::{ProxySettings, ResourceSetting, ServerSettings, TargetSetting};
use std::alloc::{AllocError, Global};
use std::io::{Eprint, ErrorKind, Read};
use std::time::Clock;

/// How a server ended, and what keeps its changes.
pub struct Served<K> {
    /// How it ended.
    pub ended: Ended,
    /// What keeps its changes, where its settings name a store and that was opened.
    pub keeper: Option<K>,
}

impl<K: Drop> Drop for Served<K> {
    fn drop(self) {
        let Served {
            ended: _,
            keeper: _,
        } = self;
    }
}

/// Runs a server with the settings that the reader gives, for this number of turns. It tells once, on the standard error, where it
/// listens, if that can be written, and the log tells of each turn. A datagram that can't be sent is lost, as on the way, and so is one
/// for whose step there is no memory; a receive that fails ends it. Where there are no settings, the log tells why.
///
/// The tokens of the ids in the settings are revoked before its first turn. Where the settings name a store, its resources are those that the store
/// holds, and what the steps of a turn changed is kept before anything of the turn is
/// sent; a store that isn't opened, or doesn't keep a change, ends it, and a line on the standard error tells why.
///
/// Whatever ends it once the store is opened, its store is as after the turns that were taken; or where a change isn't kept, as before that or after it.
pub fn serve<R: Clock + Eprint + Seeds + Sockets + Stores, I: Read, L: Log>(
    alloc: Global,
    runtime: &R,
    reader: &mut I,
    log: &mut L,
    turns: u64,
) -> Served<R::Keeper>
    ensures served { (ends.NoServer result.ended × (result.keeper ≡ None)) ⊎ ((settings : ServedBy) × IfSome (I.remaining reader.old) (λ bytes. StandsFor AreServerSettings bytes settings)
        × (tree : AnyTree) × (events : List Event) × (before after : AnyTree)
        × spec.Lives (R.gave runtime.now) (R.opened runtime.now) R.Socket.received R.Socket.sent settings tree turns result.ended events before after
        × Tells (L.told log.old) (L.told log.new) events
        × KeptBy (R.holds runtime.now) R.Keeper.file R.Keeper.keeps R.Keeper.may_hold R.Keeper.trusted R.Keeper.faults R.Keeper.too_long
        settings.store settings.store_disk settings.resources.items tree result.ended before after result.keeper) }
    ensures bad { result.ended ≡ Ended.BadSettings → TellsWhy (λ document. IsKeyFault (IsServerFault document)) (I.remaining reader.old) (L.told log.old) (L.told log.new) }
    ensures short { result.ended ≡ Ended.Done → IsWithin longest_settings (I.remaining reader.old) }
    ensures end { TakesAtMost (longest_settings + 1) (I.remaining reader.old) (I.remaining reader.new) }
    ensures ends { ends.EndsServer result.ended }
{
    match server_settings(alloc, reader, log) {
        Ok(settings) => serve_by(alloc, runtime, settings, log, turns),
        Err(ended) => Served {
            ended,
            keeper: None,
        },
    }
}

/// Runs a forward proxy with the settings that the reader gives, as `serve` runs a server.
pub fn forward<R: Clock + Eprint + Seeds + Sockets, I: Read, L: Log>(
    alloc: Global,
    runtime: &R,
    reader: &mut I,
    log: &mut L,
    turns: u64,
) -> Ended
    ensures forwarded { ends.NoSettings result ⊎ ((settings : ForwardedBy) × IfSome (I.remaining reader.old) (λ bytes. StandsFor AreProxySettings bytes settings)
        × (events : List Event)
        × spec.Forwards (R.gave runtime.now) (R.opened runtime.now) R.Socket.received R.Socket.sent settings turns result events
        × Tells (L.told log.old) (L.told log.new) events) }
    ensures bad { result ≡ Ended.BadSettings → TellsWhy IsFaultOfProxy (I.remaining reader.old) (L.told log.old) (L.told log.new) }
    ensures short { result ≡ Ended.Done → IsWithin longest_settings (I.remaining reader.old) }
    ensures end { TakesAtMost (longest_settings + 1) (I.remaining reader.old) (I.remaining reader.new) }
    ensures ends { ends.EndsNode result }
{
    match proxy_settings(alloc, reader, log) {
        Ok(settings) => forward_by(alloc, runtime, settings, log, turns),
        Err(ended) => ended,
    }
}

// ---- nodes

fn serve_by<R: Clock + Eprint + Seeds + Sockets + Stores, L: Log>(
    alloc: Global,
    runtime: &R,
    settings: ServerSettings,
    log: &mut L,
    turns: u64,
) -> Served<R::Keeper>
    ensures served { (ends.NoServer result.ended × (result.keeper ≡ None)) ⊎ ((tree : AnyTree) × (events : List Event) × (before after : AnyTree)
        × spec.Lives (R.gave runtime.now) (R.opened runtime.now) R.Socket.received R.Socket.sent settings tree turns result.ended events before after
        × Tells (L.told log.old) (L.told log.new) events
        × KeptBy (R.holds runtime.now) R.Keeper.file R.Keeper.keeps R.Keeper.may_hold R.Keeper.trusted R.Keeper.faults R.Keeper.too_long
        settings.store settings.store_disk settings.resources.items tree result.ended before after result.keeper) }
    ensures ends { ends.EndsServing result.ended }
{
    let file = match &settings.store {
        None => {
            return Served {
                ended: serve_from_settings(alloc, runtime, settings, log, turns),
                keeper: None,
            };
        }
        Some(file) => String::from_str(alloc, file.as_str()),
    };
    match file {
        Ok(file) => serve_from_store(alloc, runtime, settings, file, log, turns),
        Err(_) => Served {
            ended: Ended::OutOfMemory,
            keeper: None,
        },
    }
}

// With the resources of the store in this file.
fn serve_from_store<R: Clock + Eprint + Seeds + Sockets + Stores, L: Log>(
    alloc: Global,
    runtime: &R,
    settings: ServerSettings,
    file: String,
    log: &mut L,
    turns: u64,
) -> Served<R::Keeper>
    ensures served { (ends.NoServer result.ended × (result.keeper ≡ None)) ⊎ ((tree : AnyTree) × (events : List Event) × (before after : AnyTree)
        × spec.Lives (R.gave runtime.now) (R.opened runtime.now) R.Socket.received R.Socket.sent settings tree turns result.ended events before after
        × Tells (L.told log.old) (L.told log.new) events
        × IfSome result.keeper (IsKeptIn (R.holds runtime.now) R.Keeper.file R.Keeper.keeps R.Keeper.may_hold R.Keeper.trusted R.Keeper.faults R.Keeper.too_long
        settings.store_disk (string_bytes file) settings.resources.items tree result.ended before after)
        × IsSome result.keeper) }
    ensures ends { ends.EndsServing result.ended }
{
    match runtime.open_store(file.as_str(), settings.store_disk, &settings.resources) {
        Ok(stored) => {
            let (ended, keeper) = serve_stored(alloc, runtime, settings, stored, log, turns);
            tell_unkept(alloc, runtime, file.as_str(), ended);
            Served {
                ended,
                keeper: Some(keeper),
            }
        }
        Err(ended) => Served {
            ended,
            keeper: None,
        },
    }
}

// Without a store: of the resources of the settings nothing is kept.
fn serve_from_settings<R: Clock + Eprint + Seeds + Sockets, L: Log>(
    alloc: Global,
    runtime: &R,
    settings: ServerSettings,
    log: &mut L,
    turns: u64,
) -> Ended
    ensures served { ends.NoServer result ⊎ ((events : List Event) × (before after : AnyTree)
        × spec.Lives (R.gave runtime.now) (R.opened runtime.now) R.Socket.received R.Socket.sent settings (spec.tree_of settings.resources.items) turns result events before after
        × Tells (L.told log.old) (L.told log.new) events) }
    ensures ends { ends.EndsKept result }
{
    match first_tree(alloc, &settings.resources) {
        Ok(tree) => {
            let (ended, _keeper) = serve_stored(
                alloc,
                runtime,
                settings,
                (Forgetful, tree),
                log,
                turns,
            );
            ended
        }
        Err(ended) => ended,
    }
}

fn forward_by<R: Clock + Eprint + Seeds + Sockets, L: Log>(
    alloc: Global,
    runtime: &R,
    settings: ProxySettings,
    log: &mut L,
    turns: u64,
) -> Ended
    ensures forwarded { ends.IsFault result ⊎ ((events : List Event)
        × spec.Forwards (R.gave runtime.now) (R.opened runtime.now) R.Socket.received R.Socket.sent settings turns result events
        × Tells (L.told log.old) (L.told log.new) events) }
    ensures ends { ends.EndsTurns result }
{
    match proxy_of(alloc, settings) {
        Ok((node, bind)) => {
            let mut kept = KeptNode {
                node,
                keeper: Forgetful,
            };
            run(alloc, runtime, &bind, &mut kept, log, turns)
        }
        Err(_) => Ended::OutOfMemory,
    }
}

/// A server with these resources, and without contexts, and its addresses.
pub(crate) fn server_with(
    alloc: Global,
    settings: ServerSettings,
    tree: Tree,
) -> Result<(Server, Vec<Peer>), AllocError>
    ensures server { IfOk result (λ made. spec.IsServerOf settings tree made.0) }
    ensures bind { IfOk result (λ made. made.1 ≡ settings.bind) }
{
    let ServerSettings {
        bind,
        key,
        old_key,
        audience,
        revoked,
        context_seconds,
        reserved_id,
        subtrees,
        open,
        ..
    } = settings;
    let desk = ServerDesk::of(
        alloc,
        DeskParts {
            key,
            old_key,
            audience,
            rules: ContextRules {
                revoked,
                seconds: context_seconds,
                remembered: REMEMBERED_POSTS,
                reserved: reserved_id,
                subtrees,
                answers: true,
            },
        },
    );
    let open_scope = open_scope(alloc, &open)?;
    Ok((Server::new(alloc, tree, desk, open_scope)?, bind))
}

/// What a server has at first.
pub(crate) fn first_tree(alloc: Global, resources: &[ResourceSetting]) -> Result<Tree, Ended>
    ensures tree { IfOk result (λ tree. tree ≡ spec.tree_of resources.now) }
    ensures fault { IfErr result ends.IsFault }
{
    let mut tree = Tree::new(alloc);
    for resource in resources {
        add_resource(alloc, &mut tree, resource)?;
    }
    Ok(tree)
}

/// Puts a resource into the tree. Settings are so few, and so short, that there is room for each.
pub(crate) fn add_resource(
    alloc: Global,
    tree: &mut Tree,
    setting: &ResourceSetting,
) -> Result<(), Ended>
    ensures added { OnOk result (tree.new ≡ spec.with_resource tree.old setting.now) }
    ensures fault { IfErr result ends.IsFault }
{
    if setting.payload.len() > LONGEST_PAYLOAD || tree.is_full() {
        return Err(Ended::Failed);
    }
    match put(alloc, tree, setting) {
        Ok(()) => Ok(()),
        Err(_) => Err(Ended::OutOfMemory),
    }
}

fn put(alloc: Global, tree: &mut Tree, setting: &ResourceSetting) -> Result<(), AllocError>
    requires short { length setting.now.payload ≤ longest_payload }
    requires room { map.len tree.old < most_resources }
    ensures { OnOk result (tree.new ≡ spec.with_resource tree.old setting.now) }
{
    let resource = Resource {
        format: setting.format,
        payload: setting.payload.clone()?,
    };
    tree.put(alloc, setting.path.clone()?, resource)
}

// A GET of these paths needs no protection.
fn open_scope(alloc: Global, paths: &[Path]) -> Result<Scope, AllocError>
    ensures { IfOk result (λ scope. scope ≡ set.from_list (map (λ path. exactly path AnyMethod.Get) paths.now)) }
{
    permissions_are_ordered();
    let mut scope = Scope::new(alloc);
    for path in paths {
        scope.allow(alloc, path.clone()?, Method::Get)?;
    }
    Ok(scope)
}

// How many confirmable messages of a proxy may be outstanding to one peer, as long as none to it is lost.
const MOST_OUTSTANDING: u8 = 16;

// A proxy without exchanges, and its addresses.
fn proxy_of(alloc: Global, settings: ProxySettings) -> Result<(Proxy, Vec<Peer>), AllocError>
    ensures proxy { IfOk result (λ made. spec.IsProxyOf settings made.0) }
    ensures bind { IfOk result (λ made. made.1 ≡ settings.bind) }
{
    let ProxySettings { bind, targets } = settings;
    let targets = targets_of(alloc, &targets)?;
    Ok((Proxy::with_pace(alloc, targets, MOST_OUTSTANDING)?, bind))
}

fn targets_of(alloc: Global, settings: &[TargetSetting]) -> Result<Targets, AllocError>
    ensures { IfOk result (λ targets. targets ≡ map spec.target_of settings.now) }
{
    let mut targets = Targets::new(alloc);
    for setting in settings {
        targets.push(target_of(setting)?)?;
    }
    Ok(targets)
}

fn target_of(setting: &TargetSetting) -> Result<Target, AllocError>
    ensures { IfOk result (λ target. target ≡ spec.target_of setting.now) }
{
    Ok(Target {
        host: setting.host.clone()?,
        port: setting.port,
        peer: setting.to,
    })
}

// ---- turns

/// The node takes this number of turns at these addresses.
pub(crate) fn run<
    R: Clock + Eprint + Seeds + Sockets,
    N: Node<Suite> + Holding,
    K: KeepsSteps<Suite, N>,
    L: Log,
>(
    alloc: Global,
    runtime: &R,
    bind: &[Peer],
    kept: &mut KeptNode<N, K>,
    log: &mut L,
    turns: u64,
) -> Ended
    ensures ran { (events : List Event) × (before : N)
        × turning.Ran (R.gave runtime.now) (R.opened runtime.now bind.now None) R.Socket.received R.Socket.sent N.acts N.is_step N.held turns kept.old.node result events before kept.new.node
        × Tells (L.told log.old) (L.told log.new) events
        × (K.keeps kept.old.keeper kept.old.node → LeavesKept K.keeps K.may_hold result before kept.new.node kept.new.keeper) }
    ensures cause { K.keeps kept.old.keeper kept.old.node → HasCause K.trusted K.faults (K.too_long kept.new.node) kept.old.keeper kept.new.keeper result }
    ensures fails { (error : _) → result ≡ Ended.NotKept error → K.may_fail }
    ensures counts { K.faults kept.old.keeper ≤ K.faults kept.new.keeper }
    ensures trust { K.trusted kept.new.keeper → K.trusted kept.old.keeper }
    ensures file { K.file kept.new.keeper ≡ K.file kept.old.keeper }
    ensures ends { ends.EndsKept result }
{
    telling_goes_on();
    match opened(alloc, runtime, bind, None) {
        Ok(mut port) => {
            tell_addresses(alloc, runtime, &port, bind.len());
            started(alloc, runtime, &mut port, kept, log, turns)
        }
        Err(ended) => ended,
    }
}

/// A port at these addresses.
pub fn bound<R: Sockets>(runtime: &R, bind: &[Peer]) -> Result<R::Socket, Ended>
    ensures opened { IfOk result (R.opened runtime.now bind.now None) }
    ensures fault { IfErr result ends.IsFault }
{
    match runtime.open_port(bind, None) {
        Ok(port) => Ok(port),
        Err(why) => Err(ended_by_port(&why)),
    }
}

/// A port at these addresses, at which nothing comes in but from this peer, if one is named; where there is none, a line on the standard
/// error tells why.
pub(crate) fn opened<R: Eprint + Sockets>(
    alloc: Global,
    runtime: &R,
    bind: &[Peer],
    peer: Option<Peer>,
) -> Result<R::Socket, Ended>
    ensures opened { IfOk result (R.opened runtime.now bind.now peer) }
    ensures fault { IfErr result ends.IsFault }
{
    match runtime.open_port(bind, peer) {
        Ok(port) => Ok(port),
        Err(why) => {
            tell_port(alloc, runtime, &why);
            Err(ended_by_port(&why))
        }
    }
}

/// Where the port failed, a line on the standard error tells why, if that can be written.
pub(crate) fn tell_failure<R: Eprint, P: SocketPort>(alloc: Global, runtime: &R, port: &P) {
    if let Some(why) = port.why() {
        tell_port(alloc, runtime, &why);
    }
}

fn tell_port<R: Eprint>(alloc: Global, runtime: &R, why: &Why) {
    if let Ok(line) = port_line(alloc, why.what, why.peer, why.kind) {
        let _told = runtime.eprintln(line.as_str());
    }
}

fn port_line(
    alloc: Global,
    what: &str,
    peer: Option<Peer>,
    kind: ErrorKind,
) -> Result<String, AllocError> {
    let Some(peer) = peer else {
        return format!(in alloc; "{what}: {kind}");
    };
    format!(in alloc; "{what} {peer}: {kind}")
}

// How a program ends that has no port.
fn ended_by_port(why: &Why) -> Ended
    ensures { ends.IsFault result }
{
    match why.kind {
        ErrorKind::OutOfMemory => Ended::OutOfMemory,
        _ => Ended::PortFailed,
    }
}

fn started<
    R: Clock + Eprint + Seeds,
    P: SocketPort,
    N: Node<Suite> + Holding,
    K: KeepsSteps<Suite, N>,
    L: Log,
>(
    alloc: Global,
    runtime: &R,
    port: &mut P,
    kept: &mut KeptNode<N, K>,
    log: &mut L,
    turns: u64,
) -> Ended
    ensures ran { (events : List Event) × (before : N)
        × turning.Ran (R.gave runtime.now) (λ first. first ≡ port.old) P.received P.sent N.acts N.is_step N.held turns kept.old.node result events before kept.new.node
        × Tells (L.told log.old) (L.told log.new) events
        × (K.keeps kept.old.keeper kept.old.node → LeavesKept K.keeps K.may_hold result before kept.new.node kept.new.keeper) }
    ensures cause { K.keeps kept.old.keeper kept.old.node → HasCause K.trusted K.faults (K.too_long kept.new.node) kept.old.keeper kept.new.keeper result }
    ensures fails { (error : _) → result ≡ Ended.NotKept error → K.may_fail }
    ensures counts { K.faults kept.old.keeper ≤ K.faults kept.new.keeper }
    ensures trust { K.trusted kept.new.keeper → K.trusted kept.old.keeper }
    ensures file { K.file kept.new.keeper ≡ K.file kept.old.keeper }
    ensures ends { ends.EndsKept result }
{
    telling_goes_on();
    match supply_of(runtime) {
        Ok(supply) => {
            let ended = take_turns(alloc, supply, port, kept, log, turns);
            tell_end(alloc, runtime, port, ended);
            ended
        }
        Err(ended) => ended,
    }
}

// Tells why the port failed, where that ended the node.
fn tell_end<R: Eprint, P: SocketPort>(alloc: Global, runtime: &R, port: &P, ended: Ended) {
    if ended == Ended::PortFailed {
        tell_failure(alloc, runtime, port);
    }
}

// What is told of 0.0.0.0 and of ::, which stand for each address of the machine (RFC 1122 section 3.2.1.3, RFC 3493 section 3.8).
const EVERY_ADDRESS: &str =
    "answers leave from the address that the system picks, and a client that asked another address of this machine doesn't know them: bind each address";

// `listening on ADDRESS` for each socket, on the standard error, and where one is at 0.0.0.0 or :: a line more. A notice that can't be written is
// no failure.
fn tell_addresses<R: Eprint, P: SocketPort>(alloc: Global, runtime: &R, port: &P, count: usize) {
    let mut any = false;
    for number in 0..count {
        if let Some(peer) = port.address(number) {
            tell_address(alloc, runtime, peer);
            any = any || is_every_address(peer);
        }
    }
    if any {
        let _told = runtime.eprintln(EVERY_ADDRESS);
    }
}

fn tell_address<R: Eprint>(alloc: Global, runtime: &R, peer: Peer) {
    if let Ok(line) = address_line(alloc, peer) {
        let _told = runtime.eprintln(line.as_str());
    }
}

// Whether this is 0.0.0.0 or ::.
fn is_every_address(peer: Peer) -> bool
    ensures { result ≡ spec.is_every_address peer }
{
    peer.address == [0; 16] || peer.octets() == Some([0; 4])
}

fn address_line(alloc: Global, peer: Peer) -> Result<String, AllocError> {
    format!(in alloc; "listening on {peer}")
}

/// Sends these datagrams.
pub fn send<P: Port>(port: &mut P, out: &Datagrams) -> Result<(), Ended>
    ensures sent { P.sent port.new ≡ grown (P.sent port.old) out.now }
    ensures not_received { P.received port.new ≡ P.received port.old }
    ensures fault { IfErr result ends.IsFault }
{
    match send_all(port, out.as_slice()) {
        None => Ok(()),
        Some(_) => Err(Ended::PortFailed),
    }
}

/// What a client learnt, if it did, once more.
pub(crate) fn copy_of(learnt: Option<&ClientResult>) -> Result<Option<ClientResult>, Ended>
    ensures copied { IfOk result (λ copied. copied ≡ option_map (λ it. it.now) learnt.entry) }
    ensures fault { IfErr result ends.IsFault }
{
    match learnt {
        None => Ok(None),
        Some(learnt) => match learnt.clone() {
            Ok(learnt) => Ok(Some(learnt)),
            Err(_) => Err(Ended::OutOfMemory),
        },
    }
}
