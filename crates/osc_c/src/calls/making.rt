//! A device of keys, names and scopes.
ghost use Rattle.std.specs.Prelude.{◌≡◌, ◌==◌, ◌↔◌, ◌≤◌, IfErr, IfOk, IsTrue, OnOk, drop, length, take};
ghost use Rattle.std.specs.List.{count_by};
ghost use Rattle.osc_c.specs.Arguments.{IsUnfit};
ghost use Rattle.osc_c.specs.Given.{device_given, rules_given};
ghost use Rattle.osc_c.specs.Inner.Reading.{IsUnread};
ghost use Rattle.osc_c.specs.Making.{AreParts, AreRules, IsNewDevice, IsNoNewDevice, IsNoOpenScope, IsOpenScope, IsOwnToken, IsRevocationText, limit_of, old_key_of, revoked_of, rules_of, subtrees_of, unmade_as};
ghost use Rattle.osc_c.specs.Tokens.{IsNoScopeText};
ghost use Rattle.osc_model.specs.{segments_of};
ghost use Rattle.osc_c.specs.declared.calls.outcome.Outcome.TheVariants.{BadArgument};

use crate::calls::arguments;
use crate::calls::arguments::{flag, sized, text};
use crate::calls::device::DeviceNode;
use crate::calls::first::first_tree;
use crate::calls::last::Last;
use crate::calls::outcome::Outcome;
use crate::calls::plain::{PlainDeviceSettings, PlainDraw, PlainResource};
use crate::calls::tokens::scope_bytes;
use osc_authz::EnrollError;
use osc_ccm::Ciphers;
use osc_device::{Device, NewError, OwnToken, ServerParts};
use osc_model::limits::MOST_REVOCATION_SEGMENTS;
use osc_model::{Bytes, Path};
use osc_scope::{Scope, ScopeError};
use osc_token::Audience;
use osc_tree::Tree;
use std::alloc::Global;

/// By what the device's own token is named.
const OWN_ID: &[u8] = b"device";

/// How many bytes of a draw its secret has.
const SECRET: usize = 16;

/// What a device's server rules, beside its key and its audience.
#[derive(Drop)]
pub struct Rules {
    /// The former key, at a change of key.
    pub old_key: Option<[u8; 16]>,
    /// The path below which a resource revokes a token.
    pub revoked: Option<Path>,
    /// How many seconds after the post that made it a context counts no more.
    pub seconds: Option<u32>,
    /// Whether a token's scope may reach below its paths.
    pub subtrees: bool,
}

impl Rules {
    /// What these settings rule.
    fn of(alloc: Global, settings: &PlainDeviceSettings<'_>) -> Result<Rules, Outcome>
        ensures ok { IfOk result (λ rules. (rules ≡ rules_of (rules_given settings.now)) × AreRules (rules_given settings.now)) }
        ensures err { IfErr result (IsUnfit (AreRules (rules_given settings.now))) }
    {
        let old_key = old_key(settings)?;
        let subtrees = subtrees(settings)?;
        Ok(Rules {
            old_key,
            revoked: revocation_path(alloc, settings.revoked.bytes)?,
            seconds: limit(settings.context_seconds),
            subtrees,
        })
    }
}

/// The former key, where the flag is 1.
fn old_key(settings: &PlainDeviceSettings<'_>) -> Result<Option<[u8; 16]>, Outcome>
    ensures ok { IfOk result (λ key. (key ≡ old_key_of (rules_given settings.now)) × (settings.now.has_old_key ≤ 1)) }
    ensures err { IfErr result (λ outcome. (outcome ≡ BadArgument) × ¬ (settings.now.has_old_key ≤ 1)) }
{
    let key = settings.old_key.bytes;
    if flag(settings.has_old_key)? {
        Ok(Some(key))
    } else {
        Ok(None)
    }
}

/// Whether a token's scope may reach below its paths.
fn subtrees(settings: &PlainDeviceSettings<'_>) -> Result<bool, Outcome>
    ensures ok { IfOk result (λ may. (may ≡ subtrees_of (rules_given settings.now)) × ((rules_given settings.now).no_subtrees ≤ 1)) }
    ensures err { IfErr result (λ outcome. (outcome ≡ BadArgument) × ¬ ((rules_given settings.now).no_subtrees ≤ 1)) }
{
    let refused = flag(settings.no_subtrees)?;
    Ok(!refused)
}

/// How many `/` these bytes have.
fn slashes(bytes: &[u8]) -> usize
    ensures { result ≡ count_by (λ b. b == 47) bytes.now }
{
    bytes.iter().filter(|b| **b == b'/').count()
}

/// Whether a path of this text has so few segments that those of a token's id fit below it.
fn has_few_segments(text: &[u8]) -> bool
    ensures { IsTrue result ↔ (length (segments_of text.now) ≤ 4) }
{
    match text.split_first() {
        Some((_, rest)) => slashes(rest) < MOST_REVOCATION_SEGMENTS,
        None => true,
    }
}

/// The revocation path of this text: none where it is empty.
fn revocation_path(alloc: Global, text: &[u8]) -> Result<Option<Path>, Outcome>
    ensures ok { IfOk result (λ path. (path ≡ revoked_of text.now) × IsRevocationText text.now) }
    ensures err { IfErr result (IsUnfit (IsRevocationText text.now)) }
{
    if text.is_empty() {
        return Ok(None);
    }
    if !has_few_segments(text) {
        return Err(Outcome::BadArgument);
    }
    Ok(Some(arguments::path(alloc, text)?))
}

/// A limit: 0 seconds are none.
fn limit(seconds: u32) -> Option<u32>
    ensures { result ≡ limit_of seconds }
{
    if seconds == 0 { None } else { Some(seconds) }
}

/// The scope of what needs no protection: none where the text is empty.
fn open_scope(alloc: Global, text: &[u8]) -> Result<Scope, Outcome>
    ensures ok { IfOk result (IsOpenScope text.now) }
    ensures err { IfErr result (IsUnread (IsNoOpenScope text.now)) }
{
    if text.is_empty() {
        return Ok(Scope::new(alloc));
    }
    let bytes = scope_bytes(alloc, text)?;
    match Scope::from_cbor(alloc, bytes.as_slice()) {
        Ok(scope) => Ok(scope),
        Err(ScopeError::BadScope) => Err(Outcome::BadScope),
        Err(ScopeError::Memory) => Err(Outcome::NoMemory),
    }
}

/// A server of this audience, with these resources.
fn parts(
    alloc: Global,
    settings: &PlainDeviceSettings<'_>,
    tree: Tree,
    audience: Audience,
    rules: Rules,
) -> Result<ServerParts, Outcome>
    requires { audience ≡ settings.now.audience.bytes.now }
    ensures ok { IfOk result (AreParts (device_given settings.now) tree rules) }
    ensures err { IfErr result (IsUnread (IsNoOpenScope settings.now.unprotected.bytes.now)) }
{
    let key = settings.key.bytes;
    let Rules {
        old_key,
        revoked,
        seconds,
        subtrees,
    } = rules;
    Ok(ServerParts {
        tree,
        open_scope: open_scope(alloc, settings.unprotected.bytes)?,
        key,
        old_key,
        audience,
        revoked,
        context_seconds: seconds,
        subtrees,
    })
}

/// Bytes 16 to 28 of a draw.
fn iv_of(draw: &PlainDraw) -> [u8; 13]
    ensures { result ≡ take 13 (drop 16 draw.now.bytes) }
{
    let [
        _,
        _,
        _,
        _,
        _,
        _,
        _,
        _,
        _,
        _,
        _,
        _,
        _,
        _,
        _,
        _,
        a,
        b,
        c,
        d,
        e,
        f,
        g,
        h,
        i,
        j,
        k,
        l,
        m,
        ..
    ] = draw.bytes;
    [a, b, c, d, e, f, g, h, i, j, k, l, m]
}

/// The device's own token, for this scope: its secret and its IV are of the draw.
fn own_token(alloc: Global, scope: &[u8], draw: &PlainDraw) -> Result<OwnToken, Outcome>
    ensures ok { IfOk result (IsOwnToken scope.now draw.now.bytes) }
    ensures err { IfErr result (IsUnread (IsNoScopeText scope.now)) }
{
    let iv = iv_of(draw);
    let (secret, _) = draw.bytes.split_at(SECRET);
    let id = Bytes::from_slice(alloc, OWN_ID)?;
    let secret = Bytes::from_slice(alloc, secret)?;
    Ok(OwnToken {
        id,
        secret,
        scope: scope_bytes(alloc, scope)?,
        iv,
    })
}

/// Why there is no device.
fn refused(error: NewError) -> Outcome
    ensures { result ≡ unmade_as error }
{
    match error {
        NewError::Token(EnrollError::Memory) => Outcome::NoMemory,
        NewError::Token(EnrollError::BadScope) | NewError::Subtrees => Outcome::BadScope,
        NewError::Token(EnrollError::TooLong) | NewError::TooLong => Outcome::TooLong,
        _ => Outcome::BadArgument,
    }
}

impl DeviceNode {
    /// A device with these resources. All but these and the scopes is judged before memory is taken.
    pub fn new<A: Ciphers>(
        alloc: Global,
        settings: &PlainDeviceSettings<'_>,
        first: &[PlainResource<'_>],
        draw: &PlainDraw,
    ) -> Result<DeviceNode, Outcome>
        ensures ok { IfOk result (λ node. IsNewDevice A.is_sealing (device_given settings.now) first.now draw.now.bytes node) }
        ensures err { IfErr result (IsNoNewDevice (device_given settings.now) first.now draw.now.bytes) }
    {
        sized(settings.size, size_of::<PlainDeviceSettings<'_>>())?;
        let audience = text(settings.audience.bytes)?;
        let rules = Rules::of(alloc, settings)?;
        let audience = Audience::new(alloc, audience)?;
        let tree = first_tree(alloc, first)?;
        let parts = parts(alloc, settings, tree, audience, rules)?;
        let own = own_token(alloc, settings.own.bytes, draw)?;
        match Device::new::<A>(alloc, parts, own) {
            Ok(device) => Ok(DeviceNode {
                device,
                last: Last::nothing(),
            }),
            Err(error) => Err(refused(error)),
        }
    }
}
