//! The contexts of one token id.

ghost use Rattle.std.specs.Prelude.{◌≡◌, ◌≤◌, ◌++◌, true, false, find, option_map, bytes_eq, take, IsSome, Some};
ghost use Rattle.osc_authz.specs.Inner.Rooms.{IsRoom};
ghost use Rattle.std.specs.Option.{option_map_or, IfSome};
ghost use Rattle.osc_model.specs.declared.context.Side.TheVariants.{Server};
ghost use Rattle.osc_context.specs.{accepted_of, greatest_number};
ghost use Rattle.osc_window.specs.{IsFresh};
ghost use Rattle.osc_authz.specs.Inner.Lives.{holds_live_by, is_live_by};
ghost use Rattle.osc_authz.specs.SecurityContext.{SecurityContext};
ghost use Rattle.osc_authz.specs.Table.{holds_id, last_in, listed, has_id, taking, accepted_in};

use crate::agreed_post::{AgreedPosts, PostRoom};
use crate::context::ServerContext;
use crate::last_answer::LastAnswer;
use crate::revoked_marks::RevokedMarks;
use osc_context::AcceptedNumber;
use osc_model::{Moment, SharedBytes};
use std::alloc::Global;
use std::mem;

/// The contexts of one token id: one that a request has opened under, and one of the newest post; the posts of it that are known; and the last
/// answer under the first of them, where answers are kept.
pub struct TokenEntry {
    pub id: SharedBytes,
    pub confirmed: Option<ServerContext>,
    pub pending: Option<ServerContext>,
    pub posts: AgreedPosts,
    pub last: Option<LastAnswer>,
}

impl Drop for TokenEntry {
    fn drop(self) {
        let TokenEntry {
            id: _,
            confirmed: _,
            pending: _,
            posts: _,
            last: _,
        } = self;
    }
}

/// Whether a context is there and live.
fn is_live(context: &Option<ServerContext>, now: Moment, revoked: &RevokedMarks) -> bool
    ensures { result ≡ option_map_or (is_live_by now revoked.now) context.now false }
{
    match context {
        Some(context) => context.is_live_by(now, revoked),
        None => false,
    }
}

/// Whether a context is there, and has this recipient ID.
fn is_of(context: &Option<ServerContext>, id: &[u8]) -> bool
    ensures { result ≡ option_map_or (has_id id.now) context.now false }
{
    match context {
        Some(context) => context.has_id(id),
        None => false,
    }
}

/// The window of the context, which is there, takes this fresh number.
fn take_number(context: &mut Option<ServerContext>, number: u64) -> AcceptedNumber
    requires there { IsSome context.old }
    requires fresh { IfSome context.old (λ held. IsFresh held.window number) }
    requires number { number ≤ greatest_number }
    ensures right { IfSome context.old (λ held. result ≡ accepted_of held.name Server number) }
    ensures taken { context.new ≡ option_map (taking number) context.old }
{
    match context {
        Some(context) => context.take_number(number),
        None => unreachable!(),
    }
}

impl TokenEntry {
    /// Whether one of the contexts is live.
    pub fn holds_live(&self, now: Moment, revoked: &RevokedMarks) -> bool
        ensures { result ≡ holds_live_by now revoked.now self.now }
    {
        is_live(&self.confirmed, now, revoked) || is_live(&self.pending, now, revoked)
    }

    /// Whether this is its token id.
    pub fn is_of_token(&self, token: &[u8]) -> bool
        ensures { result ≡ bytes_eq token.now self.now.id }
    {
        token == self.id.as_slice()
    }

    /// Its token id.
    pub fn token(&self) -> &SharedBytes
        ensures { result.now ≡ self.now.id }
    {
        &self.id
    }

    /// A post made this context: it is the pending one, and the post is known beside the older ones.
    pub fn add(&mut self, alloc: Global, context: ServerContext, room: PostRoom)
        requires { IsRoom room }
        ensures { self.new ≡ record self.old { pending = Some context; posts = take room.most (room.posts.items ++ self.old.posts) } }
    {
        self.pending = Some(context);
        let older = mem::replace(&mut self.posts, AgreedPosts::none(alloc));
        self.posts = room.before(older);
    }

    /// Whether the pending context has this recipient ID.
    pub fn awaits(&self, id: &[u8]) -> bool
        ensures { result ≡ option_map_or (has_id id.now) self.now.pending false }
    {
        is_of(&self.pending, id)
    }

    /// The context with this recipient ID.
    pub fn with_id(&self, id: &[u8]) -> Option<&ServerContext>
        ensures { option_map (λ context. context.now) result ≡ find (has_id id.now) (listed self.now.confirmed ++ listed self.now.pending) }
    {
        if is_of(&self.confirmed, id) {
            self.confirmed.as_ref()
        } else if is_of(&self.pending, id) {
            self.pending.as_ref()
        } else {
            None
        }
    }

    /// The window of the context with this recipient ID takes this fresh number. If it was pending, it is confirmed, and the
    /// older one goes. The answer to an older number goes.
    pub fn accept(&mut self, id: &[u8], number: u64) -> AcceptedNumber
        requires there { holds_id id.now self.old ≡ true }
        requires number { number ≤ greatest_number }
        requires confirmed { IfSome self.old.confirmed (λ held. has_id id.now held ≡ true → IsFresh held.window number) }
        requires pending { IfSome self.old.pending (λ held. has_id id.now held ≡ true → IsFresh held.window number) }
        ensures right { (held : SecurityContext)
            → IfSome self.old.confirmed (λ context. has_id id.now context ≡ true → context ≡ held)
            → IfSome self.old.pending (λ context. has_id id.now context ≡ true → context ≡ held)
            → result ≡ accepted_of held.name Server number }
        ensures confirmed { (held : SecurityContext)
            → IfSome self.old.confirmed (λ context. has_id id.now context ≡ true → context ≡ held)
            → IfSome self.old.pending (λ context. has_id id.now context ≡ true → context ≡ held)
            → self.new.confirmed ≡ Some (taking number held) }
        ensures accepted { self.new ≡ accepted_in id.now number self.old }
    {
        if is_of(&self.pending, id) {
            self.confirmed = self.pending.take();
        }
        self.last = None;
        take_number(&mut self.confirmed, number)
    }

    /// The last answer of the context with this recipient ID, where that is confirmed and an answer is kept.
    pub fn last_answer(&self, id: &[u8]) -> Option<&LastAnswer>
        ensures { option_map (λ last. last.now) result ≡ last_in id.now self.now }
    {
        if is_of(&self.confirmed, id) {
            self.last.as_ref()
        } else {
            None
        }
    }

    /// This is the last answer of the confirmed context.
    pub fn keep_answer(&mut self, last: LastAnswer)
        ensures { self.new ≡ record self.old { last = Some last } }
    {
        self.last = Some(last);
    }
}
