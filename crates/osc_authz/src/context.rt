//! The security contexts of a server.

ghost use Rattle.std.specs.Prelude.{◌≡◌, ◌≤◌, option_map};
ghost use Rattle.osc_model.specs.declared.context.Side.TheVariants.{Server};
ghost use Rattle.osc_context.specs.{accepted_of, sender_of, recipient_of, greatest_number};
ghost use Rattle.osc_window.specs.{IsFresh};
ghost use Rattle.osc_authz.specs.Inner.Lives.{is_live_by as is_live_by_marks};
ghost use Rattle.osc_authz.specs.Inner.Revoking.{is_revoked_at as is_revoked_at_path};
ghost use Rattle.osc_authz.specs.Marked.{IsMarked};
ghost use Rattle.osc_authz.specs.Table.{is_live as is_live_of, has_id as has_id_of, is_named as is_named_of, taking};

use crate::revoked_marks::RevokedMarks;
use crate::standing::Standing;
use osc_context::{AcceptedNumber, RecipientContext, SenderContext};
use osc_model::{Moment, Path, SharedName};
use osc_scope::Scope;
use std::marker::Model;

/// A security context of a server, with the rights of the token that made it.
pub struct ServerContext {
    pub(crate) name: SharedName,
    pub(crate) sender: SenderContext,
    pub(crate) recipient: RecipientContext,
    pub(crate) scope: Scope,
    pub(crate) not_before: Option<u64>,
    pub(crate) expires: Option<u64>,
    // Where a resource says that its token is revoked.
    pub(crate) revocation: Option<Path>,
    // The second from which on it is too old.
    pub(crate) ends: Option<u64>,
}

impl Drop for ServerContext {
    fn drop(self) {
        let ServerContext {
            name: _,
            sender: _,
            recipient: _,
            scope: _,
            not_before: _,
            expires: _,
            revocation: _,
            ends: _,
        } = self;
    }
}

impl Model for ServerContext {
    ghost use Rattle.std.specs.Prelude.{◌≡◌};
    ghost use Rattle.osc_model.specs.declared.context.Side.TheVariants.{Server};
    ghost use Rattle.osc_context.specs.{sender_of, recipient_of};
    ghost use Rattle.std.specs.Coded.{codes};
    ghost use Rattle.osc_model.specs.{coded_scope};
    ghost use Rattle.osc_authz.specs.SecurityContext.{SecurityContext};

    ghost Value = { SecurityContext };

    ghost coded = { Prim.hlevel (codes, coded_scope) };

    ghost view = { λ context. record { name = context.name; scope = context.scope; not_before = context.not_before; expires = context.expires; revocation = context.revocation; ends = context.ends; window = context.recipient.window } };

    ghost invariant = { λ context. (context.sender ≡ sender_of context.name Server 0) × (context.recipient ≡ recipient_of context.name Server context.recipient.window) };
}

impl ServerContext {
    /// The name, which is shared with those who note its uses.
    pub fn name(&self) -> &SharedName
        ensures { result.now ≡ self.now.name }
    {
        &self.name
    }

    /// What the server seals with. It takes no numbers: its responses use the nonces of their requests.
    pub fn sender(&self) -> &SenderContext
        ensures { result.now ≡ sender_of self.now.name Server 0 }
    {
        &self.sender
    }

    /// What the server opens with, and which of the holder's numbers are fresh.
    pub fn recipient(&self) -> &RecipientContext
        ensures { result.now ≡ recipient_of self.now.name Server self.now.window }
    {
        &self.recipient
    }

    /// What the holder may do.
    pub fn scope(&self) -> &Scope
        ensures { result.now ≡ self.now.scope }
    {
        &self.scope
    }

    /// Whether its token is in its time, and isn't revoked, and it isn't too old; its mark says whether it is revoked.
    pub(crate) fn is_live(&self, on: &Standing<'_>, revoked: &RevokedMarks) -> bool
        requires { IsMarked on.now.tree revoked.now self.now }
        ensures { result ≡ is_live_of on.now self.now }
    {
        self.is_live_by(on.at, revoked)
    }

    /// The same by the marks alone.
    pub(crate) fn is_live_by(&self, now: Moment, revoked: &RevokedMarks) -> bool
        ensures { result ≡ is_live_by_marks now revoked.now self.now }
    {
        let seconds = now.ms / 1000;
        self.not_before.is_none_or(|first| first <= seconds)
            && self.expires.is_none_or(|end| seconds < end)
            && !revoked.has(self.name.client_id.as_slice())
            && self.ends.is_none_or(|end| seconds < end)
    }

    /// Whether a resource at this path revokes its token.
    pub(crate) fn is_revoked_at(&self, path: &Path) -> bool
        ensures { result ≡ is_revoked_at_path path.now self.now }
    {
        match &self.revocation {
            Some(revocation) => path.text() == revocation.text(),
            None => false,
        }
    }

    /// Whether this is its recipient ID.
    pub(crate) fn has_id(&self, id: &[u8]) -> bool
        ensures { result ≡ has_id_of id.now self.now }
    {
        id == self.name.client_id.as_slice()
    }

    /// Whether a request's kid context, where it has one, names its id context.
    pub(crate) fn is_named(&self, kid_context: Option<&[u8]>) -> bool
        ensures { result ≡ is_named_of (option_map (λ bytes. bytes.now) kid_context.entry) self.now }
    {
        match (kid_context, &self.name.id_context) {
            (None, _) => true,
            (Some(kid_context), Some(id_context)) => kid_context == id_context.as_slice(),
            (Some(_), None) => false,
        }
    }

    /// Its window takes this fresh number.
    pub(crate) fn take_number(&mut self, number: u64) -> AcceptedNumber
        requires fresh { IsFresh self.old.window number }
        requires number { number ≤ greatest_number }
        ensures right { result ≡ accepted_of self.old.name Server number }
        ensures taken { self.new ≡ taking number self.old }
    {
        self.recipient.accept(number)
    }
}
