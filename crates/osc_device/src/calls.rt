//! The calls of a device, whether its changes are kept or not.
ghost use Rattle.std.specs.Prelude.{◌≡◌, ◌<◌, [], None, Option, Result, IsSome};
ghost use Rattle.osc_model.specs.declared.code.Method.TheVariants.{Delete, Get, Post, Put};
ghost use Rattle.osc_model.specs.declared.step.Step.{Step as AnyStep};
ghost use Rattle.osc_device.specs.Answered.{own_request as own_request_of};
ghost use Rattle.osc_device.specs.Calls.{HasAsked, HasHeard, HasPosted, HasRuled, IsUnhindered};
ghost use Rattle.osc_device.specs.Carrying.{ServerTakesMemory, asked_at};
ghost use Rattle.osc_device.specs.Ruling.{method_of, round_of};
ghost use Rattle.osc_device.specs.State.{State};
ghost use Rattle.osc_device.specs.declared.round.Round.{Round as AnyRound};
ghost use Rattle.osc_device.specs.declared.ruling.Ruled.{Ruled as AnyRuled};

use crate::draws::OwnDraws;
use crate::round::Round;
use crate::ruling::{Ruled, Ruling, round_of};
use osc_ccm::Ciphers;
use osc_model::{Bytes, Draw, ETags, Method, Moment, Path, Peer, Request, Resource, Step};
use std::alloc::Global;

/// No bytes, without a format.
pub(crate) fn nothing(alloc: Global) -> Resource
    ensures { result ≡ record { format = None; payload = [] } }
{
    Resource {
        format: None,
        payload: Bytes::new(alloc),
    }
}

/// A request of this method on this path, with this payload and its format, and no other option.
pub fn own_request(alloc: Global, method: Method, path: Path, resource: Resource) -> Request
    ensures request { result ≡ own_request_of method path resource.format resource.payload }
    ensures code { 0 < result.code.0 }
{
    let Resource { format, payload } = resource;
    Request {
        code: method.code(),
        path: Some(path),
        format,
        accept: None,
        if_match: ETags::new(alloc),
        if_none_match: false,
        payload,
    }
}

/// What a [`crate::Device`] and a [`crate::KeptDevice`] are called for alike: what comes from others, and what the device asks of its own server.
///
/// # Errors
///
/// Of a [`crate::Device`] an `AllocError` where there is no memory for a first step; then nothing has changed. Of a [`crate::KeptDevice`] that is
/// `OutOfMemory`, and `NotKept` says that a change isn't kept; then and later nothing is to be sent.
pub trait DeviceCalls {
    /// Why a call hands nothing out.
    type Error;

    // The device itself: its server, and it as a client.
    ghost state: { Self → State };

    // The result of a call that makes this of the device, where it lacks memory only if this is so.
    ghost yields: { (T : Type 0) → (T → State → Type 0) → Type 0 → Self → Result T Self.Error → Self → Type 0 };

    /// These bytes came from this peer at this moment as one datagram: the server's step that answers them, as
    /// `Server::on_datagram` says. The device itself isn't changed by it, and what isn't answered takes no memory. The step's datagrams may be sent.
    fn on_datagram<A: Ciphers>(
        &mut self,
        alloc: Global,
        now: Moment,
        from: Peer,
        bytes: &[u8],
        draw: &Draw,
    ) -> Result<Step, Self::Error>
        ensures { yields AnyStep
            (HasHeard A.is_sealing (state self.old) (record { at = now; from = from; draw = draw.now; what = bytes.now }))
            (ServerTakesMemory (state self.old).server (record { at = now; from = from; draw = draw.now; what = bytes.now }))
            self.old result self.new };

    /// Posts the device's token to the server, as `Client::exchange` does, so that it has a context. What is busy is refused without memory.
    fn open<A: Ciphers>(
        &mut self,
        alloc: Global,
        now: Moment,
        draws: OwnDraws,
    ) -> Result<Round, Self::Error>
        ensures { yields AnyRound (HasPosted A.is_sealing (state self.old) now draws) ((state self.old).own.waiting ≡ None) self.old result self.new };

    /// Asks the server for this, as `Client::ask` does. What hinders a request is told without memory.
    fn ask<A: Ciphers>(
        &mut self,
        alloc: Global,
        now: Moment,
        request: &Request,
        draws: OwnDraws,
    ) -> Result<Round, Self::Error>
        requires { 0 < request.now.code.0 }
        ensures { yields AnyRound
            (HasAsked A.is_sealing A.TAG (state self.old) (asked_at now draws request.now))
            (IsUnhindered A.is_sealing A.TAG (state self.old) (asked_at now draws request.now))
            self.old result self.new };

    /// Revokes the tokens of this id, or lets them in again, as [`DeviceCalls::revoke`] and [`DeviceCalls::allow`] do, and tells whether they are
    /// revoked then: the answer alone says what came of the request. Without a revocation path nothing takes memory.
    fn rule<A: Ciphers>(
        &mut self,
        alloc: Global,
        now: Moment,
        ruling: Ruling,
        id: &[u8],
        draws: OwnDraws,
    ) -> Result<Option<Ruled>, Self::Error>
        ensures { yields (Option AnyRuled)
            (HasRuled A.is_sealing A.TAG (state self.old) id.now (λ path. asked_at now draws (own_request_of (method_of ruling) path None [])))
            (IsSome (state self.old).server.desk.rules.revoked) self.old result self.new };

    /// Puts this value at the path, as [`DeviceCalls::ask`] does: 2.01 where nothing was there, 2.04 where something was.
    fn put<A: Ciphers>(
        &mut self,
        alloc: Global,
        now: Moment,
        path: Path,
        resource: Resource,
        draws: OwnDraws,
    ) -> Result<Round, Self::Error>
        ensures { yields AnyRound
            (HasAsked A.is_sealing A.TAG (state self.old) (asked_at now draws (own_request_of Put path resource.format resource.payload)))
            (IsUnhindered A.is_sealing A.TAG (state self.old) (asked_at now draws (own_request_of Put path resource.format resource.payload)))
            self.old result self.new }
    {
        let request = own_request(alloc, Method::Put, path, resource);
        self.ask::<A>(alloc, now, &request, draws)
    }

    /// Appends this to the value at the path, or makes it new.
    fn append<A: Ciphers>(
        &mut self,
        alloc: Global,
        now: Moment,
        path: Path,
        resource: Resource,
        draws: OwnDraws,
    ) -> Result<Round, Self::Error>
        ensures { yields AnyRound
            (HasAsked A.is_sealing A.TAG (state self.old) (asked_at now draws (own_request_of Post path resource.format resource.payload)))
            (IsUnhindered A.is_sealing A.TAG (state self.old) (asked_at now draws (own_request_of Post path resource.format resource.payload)))
            self.old result self.new }
    {
        let request = own_request(alloc, Method::Post, path, resource);
        self.ask::<A>(alloc, now, &request, draws)
    }

    /// Removes what is at the path.
    fn remove<A: Ciphers>(
        &mut self,
        alloc: Global,
        now: Moment,
        path: Path,
        draws: OwnDraws,
    ) -> Result<Round, Self::Error>
        ensures { yields AnyRound
            (HasAsked A.is_sealing A.TAG (state self.old) (asked_at now draws (own_request_of Delete path None [])))
            (IsUnhindered A.is_sealing A.TAG (state self.old) (asked_at now draws (own_request_of Delete path None [])))
            self.old result self.new }
    {
        let request = own_request(alloc, Method::Delete, path, nothing(alloc));
        self.ask::<A>(alloc, now, &request, draws)
    }

    /// Reads the value at the path.
    fn read<A: Ciphers>(
        &mut self,
        alloc: Global,
        now: Moment,
        path: Path,
        draws: OwnDraws,
    ) -> Result<Round, Self::Error>
        ensures { yields AnyRound
            (HasAsked A.is_sealing A.TAG (state self.old) (asked_at now draws (own_request_of Get path None [])))
            (IsUnhindered A.is_sealing A.TAG (state self.old) (asked_at now draws (own_request_of Get path None [])))
            self.old result self.new }
    {
        let request = own_request(alloc, Method::Get, path, nothing(alloc));
        self.ask::<A>(alloc, now, &request, draws)
    }

    /// Revokes the tokens of this id: puts an empty value at the path that stands for it, as [`DeviceCalls::put`] does. From then on no token of
    /// the id is taken, and no request is served under its contexts, until [`DeviceCalls::allow`] or whoever may removes the value. The device's own
    /// scope must name the path.
    ///
    /// Where the server keeps memory in hand for this, as one with a revocation path does, that is given back for the call, and taken again once it is
    /// over: so whoever fills the memory with resources can still be revoked.
    ///
    /// `None` where the server has no revocation path, or the id is too long for one. Then nothing has changed.
    fn revoke<A: Ciphers>(
        &mut self,
        alloc: Global,
        now: Moment,
        id: &[u8],
        draws: OwnDraws,
    ) -> Result<Option<Round>, Self::Error>
        ensures { (ruled : Result (Option AnyRuled) Self.Error) × (result ≡ round_of ruled) × yields (Option AnyRuled)
            (HasRuled A.is_sealing A.TAG (state self.old) id.now (λ path. asked_at now draws (own_request_of Put path None [])))
            (IsSome (state self.old).server.desk.rules.revoked) self.old ruled self.new }
    {
        round_of(self.rule::<A>(alloc, now, Ruling::Revoke, id, draws))
    }

    /// Lets the tokens of this id in again: removes what is at the path that stands for it, as [`DeviceCalls::remove`] does. `None` as for
    /// [`DeviceCalls::revoke`].
    fn allow<A: Ciphers>(
        &mut self,
        alloc: Global,
        now: Moment,
        id: &[u8],
        draws: OwnDraws,
    ) -> Result<Option<Round>, Self::Error>
        ensures { (ruled : Result (Option AnyRuled) Self.Error) × (result ≡ round_of ruled) × yields (Option AnyRuled)
            (HasRuled A.is_sealing A.TAG (state self.old) id.now (λ path. asked_at now draws (own_request_of Delete path None [])))
            (IsSome (state self.old).server.desk.rules.revoked) self.old ruled self.new }
    {
        round_of(self.rule::<A>(alloc, now, Ruling::Allow, id, draws))
    }
}
