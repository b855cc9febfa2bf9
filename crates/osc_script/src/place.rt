//! Where a line may be.

ghost use Rattle.std.specs.Prelude.{◌≡◌, ◌<◌, ◌+◌, ◌||◌, ◌&&◌, ◌↔◌, ◌++◌, ◌∷◌, [], cond, false, IsTrue, IfSome, IfNone, slice_index_or, count_by};
ghost use Rattle.std.specs.List.{list_any};
ghost use Rattle.osc_model.specs.{most_resources};
ghost use Rattle.osc_script.specs.Line.{grants, is_event, is_put, is_revocation, makes, moment_behind, puts, routes, IsKnown, IsGranted, MayFollow};
ghost use Rattle.osc_script.specs.Inner.Place.{IsPlace};
ghost use Rattle.osc_script.specs.declared.client_name.ClientName.{ClientName as AnyClient};
ghost use Rattle.osc_script.specs.declared.proxy_name.ProxyName.{ProxyName as AnyProxy};

use crate::client_name::ClientName;
use crate::line::Line;
use crate::node::NodeName;
use crate::proxy_name::ProxyName;
use osc_model::limits::MOST_RESOURCES;
use osc_model::{Moment, Path};

/// What is kept of the lines above, so that not each line goes over all of them.
#[derive(Clone, Copy, Debug)]
pub(crate) struct LinesAbove {
    has_event: bool,
    /// The last moment that a line set.
    moment: Moment,
    /// How many lines put a resource.
    puts: usize,
    /// Whether a line says the revocation path.
    has_revoked: bool,
    /// The clients that were granted, by their digits.
    granted: [bool; 10],
    /// The proxies that were made, by their digits.
    made: [bool; 10],
    /// The clients that send by a proxy, by their digits.
    routed: [bool; 10],
}

impl LinesAbove {
    /// The place of the first line.
    pub(crate) const FIRST: LinesAbove = LinesAbove {
        has_event: false,
        moment: Moment::START,
        puts: 0,
        has_revoked: false,
        granted: [false; 10],
        made: [false; 10],
        routed: [false; 10],
    };

    /// The place after this line, if it may be here, after the lines above it. A line that puts, of which a script has
    /// at most 1024, goes over those lines; no other does.
    pub(crate) fn behind(self, above: &[Line], line: &Line) -> Option<LinesAbove>
        requires { IsPlace above.now self }
        ensures some { IfSome result (λ next. MayFollow above.now line.now × IsPlace (above.now ++ line.now ∷ []) next) }
        ensures none { IfNone result (¬ MayFollow above.now line.now) }
    {
        if !self.lets(above, line) {
            return None;
        }
        Some(self.with(above, line))
    }

    // Whether the line may be here.
    fn lets(self, above: &[Line], line: &Line) -> bool
        requires { IsPlace above.now self }
        ensures { IsTrue result ↔ MayFollow above.now line.now }
    {
        match line {
            Line::Put { path, .. } => self.may_put(above, path),
            Line::Open { .. } => !self.has_event,
            Line::Revoked { .. } => self.may_revoke(above),
            Line::Grant { client, .. } => !self.has_event && !self.has_granted(above, *client),
            Line::Proxy { .. } => !self.has_event,
            Line::Via { client, .. } => self.may_route(above, *client),
            Line::At { moment } => self.moment.ms <= moment.ms,
            Line::Skip { client, .. } => self.has_granted(above, *client),
            Line::Exchange { client } => self.has_granted(above, *client),
            Line::Ask { client, .. } => self.has_granted(above, *client),
            Line::Lie { client, .. } => self.has_granted(above, *client),
            Line::Tick { node } => self.knows(above, *node),
            Line::Restart { node } => self.knows(above, *node),
            Line::Inject { from, to, .. } => self.knows(above, *from) && self.knows(above, *to),
            Line::Skipped => true,
            Line::Draw { .. } => true,
            Line::Drop { .. } => true,
            Line::Deliver { .. } => true,
            Line::Alter { .. } => true,
            Line::Graft { .. } => true,
            Line::Quiet => true,
        }
    }

    fn may_put(self, above: &[Line], path: &Path) -> bool
        requires { IsPlace above.now self }
        ensures { IsTrue result ↔ (list_any is_event above.now ≡ false) × (list_any (puts path.now) above.now ≡ false) × (count_by is_put above.now < most_resources) }
    {
        !self.has_event && self.puts < MOST_RESOURCES && !has_put(above, path)
    }

    fn may_revoke(self, above: &[Line]) -> bool
        requires { IsPlace above.now self }
        ensures { IsTrue result ↔ (list_any is_event above.now ≡ false) × (list_any is_revocation above.now ≡ false) }
    {
        !self.has_event && !self.has_revoked
    }

    fn may_route(self, above: &[Line], client: ClientName) -> bool
        requires { IsPlace above.now self }
        ensures { IsTrue result ↔ (list_any is_event above.now ≡ false) × IsGranted above.now client × (list_any (routes client) above.now ≡ false) }
    {
        !self.has_event && self.has_granted(above, client) && !self.has_routed(above, client)
    }

    // Whether a line above says by which proxy the client sends.
    fn has_routed(self, above: &[Line], client: ClientName) -> bool
        requires { IsPlace above.now self }
        ensures { result ≡ list_any (routes client) above.now }
    {
        self.routed[client.digit as usize]
    }

    // Whether a line above makes the proxy.
    fn has_made(self, above: &[Line], proxy: ProxyName) -> bool
        requires { IsPlace above.now self }
        ensures { result ≡ list_any (makes proxy) above.now }
    {
        self.made[proxy.digit as usize]
    }

    // Whether a line above grants to the client.
    fn has_granted(self, above: &[Line], client: ClientName) -> bool
        requires { IsPlace above.now self }
        ensures { result ≡ list_any (grants client) above.now }
    {
        self.granted[client.digit as usize]
    }

    // Whether a line above grants to the node where it is a client, or makes it where it is a proxy.
    fn knows(self, above: &[Line], node: NodeName) -> bool
        requires { IsPlace above.now self }
        ensures { IsTrue result ↔ IsKnown above.now node }
    {
        match node {
            NodeName::Server => true,
            NodeName::Client(client) => self.has_granted(above, client),
            NodeName::Proxy(proxy) => self.has_made(above, proxy),
            NodeName::Stranger => true,
        }
    }

    // The place after a line that may be here.
    fn with(self, above: &[Line], line: &Line) -> LinesAbove
        requires is { IsPlace above.now self }
        requires may { MayFollow above.now line.now }
        ensures { IsPlace (above.now ++ line.now ∷ []) result }
    {
        LinesAbove {
            has_event: self.has_event || is_event(line),
            moment: moment_behind(self.moment, line),
            puts: self.puts_with(above, line),
            has_revoked: self.has_revoked || is_revocation(line),
            granted: granted_with(self.granted, line),
            made: made_with(self.made, line),
            routed: routed_with(self.routed, line),
        }
    }

    // How many lines put a resource, with this one.
    fn puts_with(self, above: &[Line], line: &Line) -> usize
        requires is { IsPlace above.now self }
        requires may { MayFollow above.now line.now }
        ensures { result ≡ self.puts + cond (is_put line.now) 1 0 }
    {
        match line {
            Line::Put { .. } => self.puts + 1,
            _ => self.puts,
        }
    }
}

// The clients that were granted, with those to whom the line grants.
fn granted_with(mut granted: [bool; 10], line: &Line) -> [bool; 10]
    ensures { (client : AnyClient) → slice_index_or result client.digit false ≡ (slice_index_or granted client.digit false || grants client line.now) }
{
    if let Line::Grant { client, .. } = line {
        granted[client.digit as usize] = true;
    }
    granted
}

// The proxies that were made, with the one that the line makes.
fn made_with(mut made: [bool; 10], line: &Line) -> [bool; 10]
    ensures { (proxy : AnyProxy) → slice_index_or result proxy.digit false ≡ (slice_index_or made proxy.digit false || makes proxy line.now) }
{
    match line {
        Line::Proxy { proxy } => made[proxy.digit as usize] = true,
        Line::Via { proxy, .. } => made[proxy.digit as usize] = true,
        _ => {}
    }
    made
}

// The clients that send by a proxy, with the one of which the line says so.
fn routed_with(mut routed: [bool; 10], line: &Line) -> [bool; 10]
    ensures { (client : AnyClient) → slice_index_or result client.digit false ≡ (slice_index_or routed client.digit false || routes client line.now) }
{
    if let Line::Via { client, .. } = line {
        routed[client.digit as usize] = true;
    }
    routed
}

fn is_event(line: &Line) -> bool
    ensures { result ≡ is_event line.now }
{
    match line {
        Line::Skipped
        | Line::Put { .. }
        | Line::Open { .. }
        | Line::Revoked { .. }
        | Line::Grant { .. }
        | Line::Proxy { .. }
        | Line::Via { .. }
        | Line::At { .. }
        | Line::Draw { .. }
        | Line::Drop { .. }
        | Line::Skip { .. } => false,
        _ => true,
    }
}

fn is_revocation(line: &Line) -> bool
    ensures { result ≡ is_revocation line.now }
{
    matches!(line, Line::Revoked { .. })
}

// The moment after the line.
fn moment_behind(moment: Moment, line: &Line) -> Moment
    ensures { result.ms ≡ moment_behind moment.ms line.now }
{
    match line {
        Line::At { moment: later } => *later,
        _ => moment,
    }
}

fn has_put(lines: &[Line], path: &Path) -> bool
    ensures { result ≡ list_any (puts path.now) lines.now }
{
    lines.iter().any(|line| puts(line, path))
}

fn puts(line: &Line, path: &Path) -> bool
    ensures { result ≡ puts path.now line.now }
{
    match line {
        Line::Put { path: other, .. } => other == path,
        _ => false,
    }
}
