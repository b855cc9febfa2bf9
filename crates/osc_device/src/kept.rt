//! A device whose resources outlive a power cut.
ghost use Rattle.std.specs.Prelude.{◌≡◌, List, None, IfErr, IfOk, OnOk, option_copied};
ghost use Rattle.osc_model.specs.Tree.{Tree as AnyTree};
ghost use Rattle.osc_scope.specs.{Entry as ScopeEntry, IsScope};
ghost use Rattle.osc_turn.specs.Kept.{IsChangeOf};
ghost use Rattle.osc_device.specs.Begun.{IsBegun, IsGranted, IsNoDevice, own_claims};
ghost use Rattle.osc_device.specs.Calls.{HasRestarted, HasTicked};
ghost use Rattle.osc_device.specs.Kept.{IsUnkept, StaysKept, YieldsKept, tree_of};
ghost use Rattle.osc_device.specs.Inner.Entries.{entry_found as entry_found_in, entry_in};

use crate::calls::DeviceCalls;
use crate::device::Device;
use crate::draws::OwnDraws;
use crate::error::{CallError, NewError};
use crate::own_token::{OwnToken, ServerParts};
use crate::round::Round;
use crate::ruling::{Ruled, Ruling};
use osc_ccm::Ciphers;
use osc_model::{Draw, Entry, Moment, Peer, Request, Step};
use osc_store::{KeepError, Keeping};
use osc_turn::keep_change;
use osc_turn::laws::one_path_changes;
use std::alloc::Global;
use std::marker::Model;

/// A device, and what keeps the changes of its resources: a store, as `osc_store::Keeper`. What a step of its server changed, for whomever, is
/// kept before anything of the step is handed out; so at whatever moment the power goes, the next start finds the resources before the call under
/// way or after it, and after it once anything of it was handed out. Where a change isn't kept, each later call answers why and does nothing. The
/// store is then opened again, and a new device begins with what it holds.
pub struct KeptDevice<K> {
    device: Device,
    keeper: K,
    // Why what its last step changed isn't kept, if it isn't.
    unkept: Option<KeepError>,
}

impl<K: Drop> Drop for KeptDevice<K> {
    fn drop(self) {
        let KeptDevice {
            device: _,
            keeper: _,
            unkept: _,
        } = self;
    }
}

impl<K> Model for KeptDevice<K> {
    ghost use Rattle.std.specs.Coded.{codes};
    ghost use Rattle.osc_model.specs.{coded_scope, coded_tree};
    ghost use Rattle.osc_device.specs.Kept.{KeptState};

    ghost Value = { KeptState K };

    ghost coded = { Prim.hlevel (codes, coded_scope, coded_tree, K.code) };

    ghost view = { λ kept. record { device = kept.device; keeper = kept.keeper; unkept = kept.unkept } };
}

/// The entry of this step of the server, if there was a step, and it served one.
fn entry_of(served: &Option<Step>) -> Option<&Entry>
    ensures { option_copied result ≡ entry_in served.now }
{
    match served {
        Some(step) => step.notes.served(),
        None => None,
    }
}

/// That of what came of a ruling, if anything was ruled.
fn entry_found(found: &Option<Ruled>) -> Option<&Entry>
    ensures { option_copied result ≡ entry_found_in found.now }
{
    match found {
        Some(ruled) => entry_of(&ruled.round.served),
        None => None,
    }
}

impl<K: Keeping> KeptDevice<K> {
    /// A device as [`Device::new`] makes it of these parts, whose changes this keeps from now on. The tree of the parts is what a store was opened
    /// with, as [`osc_store::open`] tells: so a device goes on with what was kept. A new store has no resource; what is to be there at first the
    /// device itself puts.
    ///
    /// # Errors
    ///
    /// As of [`Device::new`].
    pub fn new<A: Ciphers>(
        alloc: Global,
        parts: ServerParts,
        own: OwnToken,
        keeper: K,
    ) -> Result<KeptDevice<K>, NewError>
    where
        K: Drop,
        ensures begun { IfOk result (λ kept. IsBegun A.is_sealing parts own kept.device) }
        ensures granted { IfOk result (λ kept. (entries : List ScopeEntry) × IsScope own.scope entries
            × IsGranted A.is_sealing kept.device (own_claims parts own) entries) }
        ensures keeper { IfOk result (λ kept. (kept.keeper ≡ keeper) × (kept.unkept ≡ None)) }
        ensures kept { IfOk result (λ kept. K.keeps keeper parts.tree → K.keeps kept.keeper (tree_of kept)) }
        ensures refused { IfErr result (λ error. IsNoDevice parts own error) }
    {
        let device = Device::new::<A>(alloc, parts, own)?;
        Ok(KeptDevice {
            device,
            keeper,
            unkept: None,
        })
    }

    /// The device: its server with its resources, itself as a client, and when a tick is due.
    pub fn device(&self) -> &Device
        ensures { result.now ≡ self.now.device }
    {
        &self.device
    }

    /// Why what its last step changed isn't kept, if it isn't: then the device takes no other step.
    pub fn unkept(&self) -> Option<KeepError>
        ensures { result ≡ self.now.unkept }
    {
        self.unkept
    }

    /// Gives back what keeps its changes, as to close a store. The device ends.
    pub fn into_keeper(self) -> K
        ensures { result ≡ self.keeper }
    {
        let KeptDevice {
            device: _,
            keeper,
            unkept: _,
        } = self;
        keeper
    }

    /// The time has come for what is due by this moment, as for [`Device::on_tick`].
    ///
    /// # Errors
    ///
    /// `NotKept` alone, as of the other calls.
    pub fn on_tick<A: Ciphers>(
        &mut self,
        alloc: Global,
        now: Moment,
        server_draw: &Draw,
    ) -> Result<Round, CallError>
        ensures { YieldsKept K.keeps K.may_hold (HasTicked A.is_sealing self.old.device now server_draw.now) ⊥ self.old result self.new }
    {
        one_path_changes();
        self.goes_on()?;
        let round = self.device.on_tick::<A>(alloc, now, server_draw);
        self.keep(entry_of(&round.served))?;
        Ok(round)
    }

    /// Starts again, as [`Device::restart`] does. No resource changes.
    ///
    /// # Errors
    ///
    /// `NotKept` where an earlier change isn't kept: then nothing is done.
    pub fn restart(&mut self) -> Result<(), CallError>
        ensures restarted { OnOk result (HasRestarted self.old.device self.new.device × (self.new ≡ record self.old { device = self.new.device })) }
        ensures goes_on { OnOk result (self.old.unkept ≡ None) }
        ensures ended { IfErr result (λ e. IsUnkept e self.old × (self.new ≡ self.old)) }
        ensures kept { StaysKept K.keeps self.old self.new }
    {
        self.goes_on()?;
        self.device.restart();
        Ok(())
    }

    /// Whether it takes another step: an error where what its last one changed isn't kept.
    fn goes_on(&self) -> Result<(), CallError>
        ensures ok { OnOk result (self.now.unkept ≡ None) }
        ensures err { IfErr result (λ e. IsUnkept e self.now) }
    {
        match self.unkept {
            Some(error) => Err(CallError::NotKept(error)),
            None => Ok(()),
        }
    }

    /// Keeps what a ruling changed, with the memory that the server has in hand for it.
    fn keep_ruling(&mut self, alloc: Global, served: Option<&Entry>) -> Result<(), CallError>
        ensures device { self.new.device ≡ self.old.device }
        ensures ok { OnOk result (self.new.unkept ≡ self.old.unkept) }
        ensures err { IfErr result (λ e. IsUnkept e self.new) }
        ensures kept { (before : AnyTree) → IsChangeOf (option_copied served.entry) before (tree_of self.old) → K.keeps self.old.keeper before
            → OnOk result (K.keeps self.new.keeper (tree_of self.old)) }
        ensures crash { (before : AnyTree) → IsChangeOf (option_copied served.entry) before (tree_of self.old) → K.keeps self.old.keeper before
            → K.may_hold self.new.keeper before (tree_of self.old) }
    {
        self.device.give_back();
        let kept = self.keep(served);
        self.device.take_in_hand(alloc);
        kept
    }

    /// Keeps what the request of this entry changed, if there is one. Where it isn't kept, that is noted.
    fn keep(&mut self, served: Option<&Entry>) -> Result<(), CallError>
        ensures device { self.new.device ≡ self.old.device }
        ensures ok { OnOk result (self.new.unkept ≡ self.old.unkept) }
        ensures err { IfErr result (λ e. IsUnkept e self.new) }
        ensures kept { (before : AnyTree) → IsChangeOf (option_copied served.entry) before (tree_of self.old) → K.keeps self.old.keeper before
            → OnOk result (K.keeps self.new.keeper (tree_of self.old)) }
        ensures crash { (before : AnyTree) → IsChangeOf (option_copied served.entry) before (tree_of self.old) → K.keeps self.old.keeper before
            → K.may_hold self.new.keeper before (tree_of self.old) }
    {
        match keep_change(&mut self.keeper, self.device.server().tree(), served) {
            Ok(()) => Ok(()),
            Err(error) => {
                self.unkept = Some(error);
                Err(CallError::NotKept(error))
            }
        }
    }
}

impl<K: Keeping> DeviceCalls for KeptDevice<K> {
    type Error = CallError;

    ghost state = { λ kept. kept.device };

    ghost yields = { λ T Makes Lacks old result new. YieldsKept K.keeps K.may_hold Makes Lacks old result new };

    fn on_datagram<A: Ciphers>(
        &mut self,
        alloc: Global,
        now: Moment,
        from: Peer,
        bytes: &[u8],
        draw: &Draw,
    ) -> Result<Step, CallError> {
        one_path_changes();
        self.goes_on()?;
        let step = self.device.on_datagram::<A>(alloc, now, from, bytes, draw)?;
        self.keep(step.notes.served())?;
        Ok(step)
    }

    fn open<A: Ciphers>(
        &mut self,
        alloc: Global,
        now: Moment,
        draws: OwnDraws,
    ) -> Result<Round, CallError> {
        one_path_changes();
        self.goes_on()?;
        let round = self.device.open::<A>(alloc, now, draws)?;
        self.keep(entry_of(&round.served))?;
        Ok(round)
    }

    fn ask<A: Ciphers>(
        &mut self,
        alloc: Global,
        now: Moment,
        request: &Request,
        draws: OwnDraws,
    ) -> Result<Round, CallError> {
        one_path_changes();
        self.goes_on()?;
        let round = self.device.ask::<A>(alloc, now, request, draws)?;
        self.keep(entry_of(&round.served))?;
        Ok(round)
    }

    fn rule<A: Ciphers>(
        &mut self,
        alloc: Global,
        now: Moment,
        ruling: Ruling,
        id: &[u8],
        draws: OwnDraws,
    ) -> Result<Option<Ruled>, CallError> {
        one_path_changes();
        self.goes_on()?;
        let found = self.device.rule::<A>(alloc, now, ruling, id, draws)?;
        self.keep_ruling(alloc, entry_found(&found))?;
        Ok(found)
    }
}
