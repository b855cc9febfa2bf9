//! What is said of settings that were read. Nothing of a key, a secret, a token or a payload is in it.
ghost use Rattle.std.specs.Prelude.{◌≡◌, ◌++◌, IfOk, Some, codes, decimal, length, string_bytes};
ghost use Rattle.std.specs.List.{flat_map};
ghost use Rattle.osc_programs.specs.Checked as spec;

use crate::rules::rules_text;
use osc_log::shown;
use osc_model::{Bytes, Path, Peer};
use osc_words::{
    ClientSettings, ProxySettings, ResourceSetting, ServerSettings, StoreDisk, StoreFile,
    TargetSetting,
};
use std::alloc::{AllocError, Global};

/// Of a server: `bind ADDRESS` for each address, `audience TEXT`, `store FILE` where it has one, `store_disk whole-sectors` where that is said, `open PATH` for
/// each open path, its rules, and `resource PATH FORMAT N bytes` for each resource.
pub(crate) fn server_text(alloc: Global, settings: &ServerSettings) -> Result<Vec<u8>, AllocError>
    ensures { IfOk result (λ text. text.items ≡ spec.server_text settings.now) }
{
    let mut text = bind_lines(alloc, &settings.bind)?;
    let audience = shown_line(alloc, "audience", settings.audience.as_str().as_bytes())?;
    let store = store_text(alloc, &settings.store)?;
    let open = open_lines(alloc, &settings.open)?;
    let rules = rules_text(alloc, settings)?;
    let resources = resource_lines(alloc, &settings.resources)?;
    text.extend_from_slice(&audience)?;
    text.extend_from_slice(&store)?;
    text.extend_from_slice(disk_text(settings.store_disk).as_bytes())?;
    text.extend_from_slice(&open)?;
    text.extend_from_slice(&rules)?;
    text.extend_from_slice(&resources)?;
    Ok(text)
}

/// Of a proxy: `bind ADDRESS` for each address, and `target HOST:PORT to ADDRESS` for each target.
pub(crate) fn proxy_text(alloc: Global, settings: &ProxySettings) -> Result<Vec<u8>, AllocError>
    ensures { IfOk result (λ text. text.items ≡ spec.proxy_text settings.now) }
{
    let mut text = bind_lines(alloc, &settings.bind)?;
    let targets = target_lines(alloc, &settings.targets)?;
    text.extend_from_slice(&targets)?;
    Ok(text)
}

/// Of a client: `bind ADDRESS`, `peer ADDRESS`, `host HOST:PORT` where it sends through a proxy, and `token N bytes, alg N`.
pub(crate) fn client_text(alloc: Global, settings: &ClientSettings) -> Result<Vec<u8>, AllocError>
    ensures { IfOk result (λ text. text.items ≡ spec.client_text settings.now) }
{
    let bind = address_line(alloc, "bind", settings.bind)?;
    let peer = address_line(alloc, "peer", settings.peer)?;
    let origin = origin_text(alloc, &settings.origin)?;
    let grant = grant_text(alloc, settings)?;
    let mut text = Vec::from_slice(alloc, bind.as_bytes())?;
    text.extend_from_slice(peer.as_bytes())?;
    text.extend_from_slice(&origin)?;
    text.extend_from_slice(grant.as_bytes())?;
    Ok(text)
}

// ---- lines

fn bind_lines(alloc: Global, bind: &[Peer]) -> Result<Vec<u8>, AllocError>
    ensures { IfOk result (λ text. text.items ≡ flat_map (spec.address_line (codes "bind")) bind.now) }
{
    let mut text = Vec::new(alloc);
    for at in bind {
        text.extend_from_slice(address_line(alloc, "bind", *at)?.as_bytes())?;
    }
    Ok(text)
}

fn address_line(alloc: Global, name: &str, peer: Peer) -> Result<String, AllocError>
    ensures { IfOk result (λ text. string_bytes text ≡ spec.address_line name.now peer) }
{
    format!(in alloc; "{name} {peer}\n")
}

pub(crate) fn shown_line(alloc: Global, name: &str, bytes: &[u8]) -> Result<Vec<u8>, AllocError>
    ensures { IfOk result (λ text. text.items ≡ spec.shown_line name.now bytes.now) }
{
    let bytes = shown(alloc, bytes)?;
    let mut text = Vec::from_slice(alloc, name.as_bytes())?;
    text.push(b' ')?;
    text.extend_from_slice(bytes.as_bytes())?;
    text.push(b'\n')?;
    Ok(text)
}

fn store_text(alloc: Global, store: &Option<StoreFile>) -> Result<Vec<u8>, AllocError>
    ensures { IfOk result (λ text. text.items ≡ spec.store_text store.now) }
{
    match store {
        None => Ok(Vec::new(alloc)),
        Some(file) => shown_line(alloc, "store", file.as_str().as_bytes()),
    }
}

fn disk_text(disk: StoreDisk) -> &'static str
    ensures { result.now ≡ spec.disk_text disk }
{
    match disk {
        StoreDisk::Any => "",
        StoreDisk::WholeSectors => "store_disk whole-sectors\n",
    }
}

fn open_lines(alloc: Global, paths: &[Path]) -> Result<Vec<u8>, AllocError>
    ensures { IfOk result (λ text. text.items ≡ flat_map (spec.shown_line (codes "open")) paths.now) }
{
    let mut text = Vec::new(alloc);
    for path in paths {
        text.extend_from_slice(&shown_line(alloc, "open", path.text())?)?;
    }
    Ok(text)
}

fn resource_lines(alloc: Global, resources: &[ResourceSetting]) -> Result<Vec<u8>, AllocError>
    ensures { IfOk result (λ text. text.items ≡ flat_map spec.resource_line resources.now) }
{
    let mut text = Vec::new(alloc);
    for resource in resources {
        text.extend_from_slice(&resource_line(alloc, resource)?)?;
    }
    Ok(text)
}

fn resource_line(alloc: Global, resource: &ResourceSetting) -> Result<Vec<u8>, AllocError>
    ensures { IfOk result (λ text. text.items ≡ spec.resource_line resource.now) }
{
    resource_text(alloc, &resource.path, resource.format, &resource.payload)
}

/// `resource PATH FORMAT N bytes`.
pub(crate) fn resource_text(
    alloc: Global,
    path: &Path,
    format: Option<u16>,
    payload: &Bytes,
) -> Result<Vec<u8>, AllocError>
    ensures { IfOk result (λ text. text.items ≡ spec.resource_line (record { path = path.now; format = format; payload = payload.now })) }
{
    let path = shown(alloc, path.text())?;
    let format = format_text(alloc, format)?;
    let size = size_text(alloc, payload)?;
    let mut text = Vec::from_slice(alloc, b"resource ")?;
    text.extend_from_slice(path.as_bytes())?;
    text.push(b' ')?;
    text.extend_from_slice(format.as_bytes())?;
    text.extend_from_slice(size.as_bytes())?;
    Ok(text)
}

fn format_text(alloc: Global, format: Option<u16>) -> Result<String, AllocError>
    ensures { IfOk result (λ text. string_bytes text ≡ spec.format_text format) }
{
    match format {
        Some(format) => format.to_string(alloc),
        None => "none".to_string(alloc),
    }
}

fn size_text(alloc: Global, payload: &Bytes) -> Result<String, AllocError>
    ensures { IfOk result (λ text. string_bytes text ≡ codes " " ++ decimal (length payload.now) ++ codes " bytes\n") }
{
    let size = payload.len();
    format!(in alloc; " {size} bytes\n")
}

fn target_lines(alloc: Global, targets: &[TargetSetting]) -> Result<Vec<u8>, AllocError>
    ensures { IfOk result (λ text. text.items ≡ flat_map spec.target_line targets.now) }
{
    let mut text = Vec::new(alloc);
    for target in targets {
        text.extend_from_slice(&target_line(alloc, target)?)?;
    }
    Ok(text)
}

fn target_line(alloc: Global, target: &TargetSetting) -> Result<Vec<u8>, AllocError>
    ensures { IfOk result (λ text. text.items ≡ spec.target_line target.now) }
{
    let host = host_text(alloc, &target.host, target.port)?;
    let to = address_line(alloc, " to", target.to)?;
    let mut text = Vec::from_slice(alloc, b"target ")?;
    text.extend_from_slice(&host)?;
    text.extend_from_slice(to.as_bytes())?;
    Ok(text)
}

fn origin_text(alloc: Global, origin: &Option<(Bytes, u16)>) -> Result<Vec<u8>, AllocError>
    ensures { IfOk result (λ text. text.items ≡ spec.origin_text origin.now) }
{
    match origin {
        None => Ok(Vec::new(alloc)),
        Some((host, port)) => origin_line(alloc, host, *port),
    }
}

fn origin_line(alloc: Global, host: &Bytes, port: u16) -> Result<Vec<u8>, AllocError>
    ensures { IfOk result (λ text. text.items ≡ spec.origin_text (Some (host.now, port))) }
{
    let host = host_text(alloc, host, port)?;
    let mut text = Vec::from_slice(alloc, b"host ")?;
    text.extend_from_slice(&host)?;
    text.push(b'\n')?;
    Ok(text)
}

fn host_text(alloc: Global, host: &Bytes, port: u16) -> Result<Vec<u8>, AllocError>
    ensures { IfOk result (λ text. text.items ≡ spec.host_text host.now port) }
{
    let number = format!(in alloc; ":{port}")?;
    let host = shown(alloc, host.as_slice())?;
    let mut text = Vec::from_slice(alloc, host.as_bytes())?;
    text.extend_from_slice(number.as_bytes())?;
    Ok(text)
}

fn grant_text(alloc: Global, settings: &ClientSettings) -> Result<String, AllocError>
    ensures { IfOk result (λ text. string_bytes text ≡ spec.grant_text settings.now) }
{
    grant_line(alloc, settings.token.len(), settings.alg.number())
}

fn grant_line(alloc: Global, size: usize, alg: u64) -> Result<String, AllocError>
    ensures { IfOk result (λ text. string_bytes text ≡ spec.grant_line size alg) }
{
    format!(in alloc; "token {size} bytes, alg {alg}\n")
}
