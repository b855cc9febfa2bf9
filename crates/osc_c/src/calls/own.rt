//! What a device does at its own server.
ghost use Rattle.std.specs.Prelude.{◌≡◌, ◌≢◌, ◌<◌, IfErr, IfOk};
ghost use Rattle.osc_c.specs.Arguments.{IsUnfit};
ghost use Rattle.osc_c.specs.Given.{value_given};
ghost use Rattle.osc_c.specs.Own.{Asks, AsksBy, ComesAs, ComesTo, FitsValue, IsBegun, IsSoWhereDone, Opens, OpensBy, RemovesBy, RulesBy, are_revoked, asked_for, is_refused_by, is_so as is_so_as, last_after, revoked_by};
ghost use Rattle.osc_c.specs.Inner.Writes.{Reads};
ghost use Rattle.osc_c.specs.Told.{told_of};
ghost use Rattle.osc_c.specs.declared.calls.outcome.Outcome.TheVariants as outcome;

use crate::calls::arguments;
use crate::calls::arguments::{moment, sized};
use crate::calls::device::DeviceNode;
use crate::calls::last::Last;
use crate::calls::outcome::Outcome;
use crate::calls::plain::{PlainDraws, PlainResource};
use crate::calls::round::{Told, bare, settled, what_is_told};
use osc_ccm::Ciphers;
use osc_device::{DeviceCalls, OwnDraws, Round, Ruled, Ruling, own_request};
use osc_model::{Bytes, ClientResult, Draw, Method, Moment, Request, Resource};
use osc_turn::laws::one_path_changes;
use std::alloc::Global;

/// What the device asks of its server, and when.
#[derive(Drop)]
struct OwnRequest {
    now: Moment,
    request: Request,
}

/// The request for this value, which is judged before memory is taken.
fn read(
    alloc: Global,
    method: Method,
    now: u64,
    given: &PlainResource<'_>,
) -> Result<OwnRequest, Outcome>
    ensures ok { IfOk result (λ own. Reads method (value_given now given.now) own.now own.request) }
    ensures code { IfOk result (λ own. 0 < own.request.code.0) }
    ensures err { IfErr result (IsUnfit (FitsValue (value_given now given.now))) }
{
    sized(given.size, size_of::<PlainResource<'_>>())?;
    let now = moment(now)?;
    let format = arguments::format(given.format)?;
    let path = arguments::path(alloc, given.path.bytes)?;
    let payload = Bytes::from_slice(alloc, given.payload.bytes)?;
    let request = own_request(alloc, method, path, Resource { format, payload });
    Ok(OwnRequest { now, request })
}

/// Whether nothing was begun.
fn is_refused(round: &Round) -> bool
    ensures { result ≡ is_refused_by round.now.begun.notes.result }
{
    matches!(round.begun.notes.result(), Some(ClientResult::Refused(_)))
}

/// Whether it is so, as it was ruled, where the tokens are revoked, or where they aren't.
fn is_so(ruling: Ruling, is_revoked: bool) -> bool
    ensures { result ≡ is_so_as ruling is_revoked }
{
    match ruling {
        Ruling::Revoke => is_revoked,
        Ruling::Allow => !is_revoked,
    }
}

impl DeviceNode {
    /// Gives the device a security context with its server. It is never too long: of a device whose post would be, there is none.
    pub fn open<A: Ciphers>(&mut self, alloc: Global, now: u64, draws: &PlainDraws) -> Told
        ensures opens { OpensBy A.is_sealing self.old now draws.now result self.new }
        ensures fits { result.outcome ≢ outcome.TooLong }
    {
        match moment(now) {
            Ok(now) => self.open_at::<A>(alloc, now, draws),
            Err(outcome) => bare(outcome),
        }
    }

    fn open_at<A: Ciphers>(&mut self, alloc: Global, now: Moment, draws: &PlainDraws) -> Told
        ensures opens { ComesTo self.old result self.new (self.old.device.own.waiting ≡ None) (λ round. Opens A.is_sealing self.old now draws.now round self.new) }
        ensures fits { result.outcome ≢ outcome.TooLong }
    {
        one_path_changes();
        let both = OwnDraws {
            own: Draw(draws.own.bytes),
            server: Draw(draws.server.bytes),
        };
        match self.device.open::<A>(alloc, now, both) {
            Ok(round) => keep(&mut self.last, round),
            Err(_) => bare(Outcome::NoMemory),
        }
    }

    /// Puts this value at the path (PUT), or appends it to what is there (POST).
    pub fn write<A: Ciphers>(
        &mut self,
        alloc: Global,
        method: Method,
        now: u64,
        given: &PlainResource<'_>,
        draws: &PlainDraws,
    ) -> Told
        ensures { AsksBy A.is_sealing A.TAG self.old (record { method = method; value = value_given now given.now; draws = draws.now }) result self.new }
    {
        match read(alloc, method, now, given) {
            Ok(own) => self.ask_at::<A>(alloc, own.now, &own.request, draws),
            Err(outcome) => bare(outcome),
        }
    }

    /// Removes what is at the path.
    pub fn remove<A: Ciphers>(
        &mut self,
        alloc: Global,
        now: u64,
        path: &[u8],
        draws: &PlainDraws,
    ) -> Told
        ensures { RemovesBy A.is_sealing A.TAG self.old (record { ms = now; path = path.now; draws = draws.now }) result self.new }
    {
        let now = match moment(now) {
            Ok(now) => now,
            Err(outcome) => return bare(outcome),
        };
        match arguments::path(alloc, path) {
            Ok(path) => {
                let nothing = Resource {
                    format: None,
                    payload: Bytes::new(alloc),
                };
                let request = own_request(alloc, Method::Delete, path, nothing);
                self.ask_at::<A>(alloc, now, &request, draws)
            }
            Err(outcome) => bare(outcome),
        }
    }

    /// Revokes the tokens of this id, or lets them in again: done where it is so then. `BadArgument` where there is no path for the id.
    pub fn rule<A: Ciphers>(
        &mut self,
        alloc: Global,
        ruling: Ruling,
        now: u64,
        id: &[u8],
        draws: &PlainDraws,
    ) -> Told
        ensures rules { RulesBy A.is_sealing A.TAG ruling self.old (record { ms = now; id = id.now; draws = draws.now }) result self.new }
        ensures so { IsSoWhereDone ruling (record { ms = now; id = id.now; draws = draws.now }) result self.new }
    {
        match moment(now) {
            Ok(now) => self.rule_at::<A>(alloc, ruling, now, id, draws),
            Err(outcome) => bare(outcome),
        }
    }

    fn rule_at<A: Ciphers>(
        &mut self,
        alloc: Global,
        ruling: Ruling,
        now: Moment,
        id: &[u8],
        draws: &PlainDraws,
    ) -> Told
        ensures rules { RulesBy A.is_sealing A.TAG ruling self.old (record { ms = now.ms; id = id.now; draws = draws.now }) result self.new }
        ensures so { IsSoWhereDone ruling (record { ms = now.ms; id = id.now; draws = draws.now }) result self.new }
    {
        one_path_changes();
        let both = OwnDraws {
            own: Draw(draws.own.bytes),
            server: Draw(draws.server.bytes),
        };
        match self.device.rule::<A>(alloc, now, ruling, id, both) {
            Ok(Some(ruled)) => {
                let Ruled { round, is_revoked } = ruled;
                let told = keep(&mut self.last, round);
                settled(is_so(ruling, is_revoked), told)
            }
            Ok(None) => bare(Outcome::BadArgument),
            Err(_) => bare(Outcome::NoMemory),
        }
    }

    /// Asks this of its server.
    fn ask_at<A: Ciphers>(
        &mut self,
        alloc: Global,
        now: Moment,
        request: &Request,
        draws: &PlainDraws,
    ) -> Told
        requires { 0 < request.now.code.0 }
        ensures { ComesTo self.old result self.new (IsBegun A.is_sealing A.TAG self.old draws.now request.now) (λ round. Asks A.is_sealing A.TAG self.old (asked_for draws.now now request.now) round self.new) }
    {
        one_path_changes();
        let both = OwnDraws {
            own: Draw(draws.own.bytes),
            server: Draw(draws.server.bytes),
        };
        match self.device.ask::<A>(alloc, now, request, both) {
            Ok(round) => keep(&mut self.last, round),
            Err(_) => bare(Outcome::NoMemory),
        }
    }
}

/// What is told of a round. Where nothing was begun the last step stays, and else there is none for others.
fn keep(last: &mut Last, round: Round) -> Told
    ensures told { result ≡ told_of round }
    ensures kept { last.new ≡ last_after round last.old }
{
    let told = what_is_told(&round);
    if !is_refused(&round) {
        *last = Last::asked(round);
    }
    told
}
