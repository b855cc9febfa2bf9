//! The nodes of a diagram.
ghost use Rattle.std.specs.Prelude.{◌≡◌, ◌++◌, ◌∷◌, [], IfOk, OnOk, map};
ghost use Rattle.osc_diagram.specs.Columns as spec;

use crate::Column;
use osc_script::{ClientName, NodeName, ProxyName};
use osc_simulation::Names;
use std::alloc::{AllocError, Global};

/// A column for each node of a script: the clients in the order of their grants, the proxies in the order in which they are made, the server,
/// and the stranger.
pub(crate) fn columns_of(alloc: Global, names: &Names) -> Result<Vec<Column>, AllocError>
    ensures { IfOk result (λ columns. spec.AreColumns (spec.nodes_of names.now) columns.items) }
{
    let nodes = nodes_of(alloc, names)?;
    columns_at(alloc, &nodes)
}

// A column for each of these nodes.
fn columns_at(alloc: Global, nodes: &[NodeName]) -> Result<Vec<Column>, AllocError>
    ensures { IfOk result (λ columns. spec.AreColumns nodes.now columns.items) }
{
    let mut columns = Vec::new(alloc);
    for node in nodes {
        columns.push(column(*node))?;
    }
    Ok(columns)
}

fn column(node: NodeName) -> Column
    ensures name { result.name.now ≡ spec.name_of node }
    ensures at { result.at ≡ spec.address_of node }
{
    Column {
        name: node.name(),
        at: node.address(),
    }
}

fn nodes_of(alloc: Global, names: &Names) -> Result<Vec<NodeName>, AllocError>
    ensures { IfOk result (λ nodes. nodes.items ≡ spec.nodes_of names.now) }
{
    let mut nodes = Vec::new(alloc);
    add_clients(&mut nodes, names.clients())?;
    add_proxies(&mut nodes, names.proxies())?;
    nodes.push(NodeName::Server)?;
    nodes.push(NodeName::Stranger)?;
    Ok(nodes)
}

fn add_clients(nodes: &mut Vec<NodeName>, clients: &[ClientName]) -> Result<(), AllocError>
    ensures { OnOk result (nodes.new.items ≡ nodes.old.items ++ map NodeName.Client clients.now) }
{
    for client in clients {
        nodes.push(NodeName::Client(*client))?;
    }
    Ok(())
}

fn add_proxies(nodes: &mut Vec<NodeName>, proxies: &[ProxyName]) -> Result<(), AllocError>
    ensures { OnOk result (nodes.new.items ≡ nodes.old.items ++ map NodeName.Proxy proxies.now) }
{
    for proxy in proxies {
        nodes.push(NodeName::Proxy(*proxy))?;
    }
    Ok(())
}
