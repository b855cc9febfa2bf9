//! The table of a desk: look-ups, what is full, which recipient ID is free, and one more pending context.

ghost use Rattle.std.specs.Prelude.{◌≡◌, ◌↔◌, ℕ, IsFalse, ◌<◌, ◌≤◌, ◌∷◌, ◌++◌, find, length, option_map, bytes_eq, position, take, IfSome, IsTrue, Some};
ghost use Rattle.std.specs.Vec.{vec_len, vec_capacity};
ghost use Rattle.osc_model.specs.declared.context.Side.TheVariants.{Server};
ghost use Rattle.osc_context.specs.{accepted_of, greatest_number};
ghost use Rattle.osc_window.specs.{IsFresh};
ghost use Rattle.osc_authz.specs.SecurityContext.{SecurityContext};
ghost use Rattle.osc_authz.specs.Inner.Lives.{alive_by};
ghost use Rattle.osc_authz.specs.Inner.Places.{IsIndex};
ghost use Rattle.osc_authz.specs.Inner.Rooms.{IsRoom};
ghost use Rattle.osc_authz.specs.Known.{known as known_of};
ghost use Rattle.osc_authz.specs.Table.{IsTable, IsFull, IsLeastFree, accepted, confirmed_at, has_token, holder_at, ids, kept_places as kept_places_of, last_at, taking, with_id as with_id_of, with_last, without_pending, with_pending};

use crate::agreed_post::{AgreedPosts, PostRoom};
use crate::context::ServerContext;
use crate::last_answer::LastAnswer;
use crate::marks::{least_unmarked, mark, mark_staying};
use crate::payload::PostFields;
use crate::places::{Places, place_of_id, places_of};
use crate::post::PostAnswer;
use crate::revoked_marks::RevokedMarks;
use crate::token_entry::TokenEntry;
use osc_context::AcceptedNumber;
use osc_model::limits::MOST_TOKENS;
use osc_model::{Bytes, Moment, SharedBytes};
use std::alloc::Global;

/// The context with this recipient ID.
pub(crate) fn with_id<'a>(
    table: &'a [TokenEntry],
    places: &Places,
    id: &[u8],
) -> Option<&'a ServerContext>
    requires table { IsTable table.now }
    requires index { IsIndex places.now table.now }
    ensures { option_map (λ context. context.now) result ≡ with_id_of id.now table.now }
{
    match place_of_id(table, places, id) {
        Some(index) => table[index].with_id(id),
        None => None,
    }
}

/// The id of the token that made the context with this recipient ID.
pub(crate) fn holder<'a>(
    table: &'a [TokenEntry],
    places: &Places,
    id: &[u8],
) -> Option<&'a SharedBytes>
    requires table { IsTable table.now }
    requires index { IsIndex places.now table.now }
    ensures { option_map (λ holder. holder.now) result ≡ holder_at id.now table.now }
{
    match place_of_id(table, places, id) {
        Some(index) => Some(table[index].token()),
        None => None,
    }
}

/// The last answer of the context with this recipient ID, where that is confirmed and an answer is kept.
pub(crate) fn last_answer<'a>(
    table: &'a [TokenEntry],
    places: &Places,
    id: &[u8],
) -> Option<&'a LastAnswer>
    requires table { IsTable table.now }
    requires index { IsIndex places.now table.now }
    ensures { option_map (λ last. last.now) result ≡ last_at id.now table.now }
{
    match place_of_id(table, places, id) {
        Some(index) => table[index].last_answer(id),
        None => None,
    }
}

/// The window of the context with this recipient ID takes this fresh number. If it was pending, it is confirmed, and the
/// older one of its token id goes. The answer to an older number goes. Answers the place of the token id as well.
pub(crate) fn accept(
    table: &mut [TokenEntry],
    places: &mut Places,
    id: &[u8],
    number: u64,
) -> (AcceptedNumber, usize)
    requires table { IsTable table.old }
    requires index { IsIndex places.old table.old }
    requires fresh { (held : SecurityContext) × (with_id_of id.now table.old ≡ Some held) × IsFresh held.window number }
    requires number { number ≤ greatest_number }
    ensures right { IfSome (with_id_of id.now table.old) (λ held. result.0 ≡ accepted_of held.name Server number) }
    ensures placed { IfSome (with_id_of id.now table.old) (λ held. confirmed_at result.1 table.new ≡ Some (taking number held)) }
    ensures accepted { table.new ≡ accepted id.now number table.old }
    ensures index { IsIndex places.new table.new }
{
    let confirms = confirms(table, places, id);
    let accepted = take_number(table, places, id, number);
    if confirms {
        *places = places_of(table);
    }
    accepted
}

/// Whether a request under the context with this recipient ID confirms it, so that an older one may go; else each ID stays where it is.
fn confirms(table: &[TokenEntry], places: &Places, id: &[u8]) -> bool
    requires table { IsTable table.now }
    requires index { IsIndex places.now table.now }
    requires there { (held : SecurityContext) × (with_id_of id.now table.now ≡ Some held) }
    ensures { IsFalse result → (number : ℕ) → IsIndex places.now (accepted id.now number table.now) }
{
    match place_of_id(table, places, id) {
        Some(index) => table[index].awaits(id),
        // The context is there.
        None => unreachable!(),
    }
}

/// The same as [`accept`], with the places as they were.
fn take_number(
    table: &mut [TokenEntry],
    places: &Places,
    id: &[u8],
    number: u64,
) -> (AcceptedNumber, usize)
    requires table { IsTable table.old }
    requires index { IsIndex places.now table.old }
    requires fresh { (held : SecurityContext) × (with_id_of id.now table.old ≡ Some held) × IsFresh held.window number }
    requires number { number ≤ greatest_number }
    ensures right { IfSome (with_id_of id.now table.old) (λ held. result.0 ≡ accepted_of held.name Server number) }
    ensures placed { IfSome (with_id_of id.now table.old) (λ held. confirmed_at result.1 table.new ≡ Some (taking number held)) }
    ensures accepted { table.new ≡ accepted id.now number table.old }
{
    match place_of_id(table, places, id) {
        Some(index) => (table[index].accept(id, number), index),
        // The context is there.
        None => unreachable!(),
    }
}

/// This is the last answer of the confirmed context of the token id at this place.
pub(crate) fn keep_answer(table: &mut [TokenEntry], places: &Places, place: usize, last: LastAnswer)
    requires table { IsTable table.old }
    requires index { IsIndex places.now table.old }
    requires there { (held : SecurityContext) × (confirmed_at place table.old ≡ Some held) }
    ensures kept { IfSome (confirmed_at place table.old) (λ held. table.new ≡ with_last held.name.client_id last table.old) }
    ensures index { IsIndex places.now table.new }
{
    table[place].keep_answer(last);
}

/// Whether other token ids have all places by a live context, or all but the reserved one.
pub(crate) fn is_full(
    table: &[TokenEntry],
    now: Moment,
    revoked: &RevokedMarks,
    reserved: &Option<Bytes>,
    token: &[u8],
) -> bool
    ensures { IsTrue result ↔ IsFull reserved.now token.now (alive_by now revoked.now table.now) }
{
    count_alive(table, now, revoked)
        >= MOST_TOKENS - kept_places(table, now, revoked, reserved, token)
        && !has_alive(table, now, revoked, token)
}

/// How many places are kept from this token id.
fn kept_places(
    table: &[TokenEntry],
    now: Moment,
    revoked: &RevokedMarks,
    reserved: &Option<Bytes>,
    token: &[u8],
) -> usize
    ensures kept { result ≡ kept_places_of reserved.now token.now (alive_by now revoked.now table.now) }
    ensures most { result ≤ 1 }
{
    match reserved {
        Some(id) if id.as_slice() != token && !has_alive(table, now, revoked, id.as_slice()) => 1,
        _ => 0,
    }
}

/// The least byte that is no recipient ID in use, once the dead and the pending context of this token id have gone, and
/// isn't the client's ID.
pub(crate) fn free_id(
    table: &[TokenEntry],
    now: Moment,
    revoked: &RevokedMarks,
    token: &[u8],
    client_id: &[u8],
) -> u8
    requires { IsTable table.now }
    ensures { IsLeastFree (client_id.now ∷ ids (without_pending token.now (alive_by now revoked.now table.now))) result }
{
    let mut marks = [false; 256];
    mark(&mut marks, client_id);
    mark_staying(&mut marks, table, now, revoked, token);
    match least_unmarked(&marks) {
        Some(byte) => byte as u8,
        // 128 contexts and the client have fewer IDs than there are bytes.
        None => unreachable!(),
    }
}

/// What the post of this token id with these fields was answered, if it is known.
pub(crate) fn known(
    table: &[TokenEntry],
    token: &[u8],
    fields: &PostFields<'_>,
) -> Option<PostAnswer>
    ensures { result ≡ known_of token.now fields.now.nonce1.now fields.now.client_id.now table.now }
{
    entry_of(table, token)?
        .posts
        .answer(fields.nonce1, fields.client_id)
}

/// The contexts and posts of a token id.
fn entry_of<'a>(table: &'a [TokenEntry], token: &[u8]) -> Option<&'a TokenEntry>
    ensures { option_map (λ entry. entry.now) result ≡ find (λ entry. bytes_eq token.now entry.id) table.now }
{
    table.iter().find(|entry| entry.is_of_token(token))
}

/// A pending context that is to be added, the id of its token, and the room for its post among those that are known.
#[derive(Drop)]
pub(crate) struct Addition {
    pub token: SharedBytes,
    pub context: ServerContext,
    pub room: PostRoom,
}

/// Lets the token ids without a live context go, and adds this pending one, for which there is room.
pub(crate) fn add_pending(
    alloc: Global,
    table: &mut Vec<TokenEntry>,
    now: Moment,
    revoked: &RevokedMarks,
    added: Addition,
)
    requires room { vec_len table.old < vec_capacity table.old }
    requires posts { IsRoom added.room }
    ensures { table.new.items ≡ with_pending added.token added.context (λ older. take added.room.most (added.room.posts.items ++ older)) (alive_by now revoked.now table.old.items) }
{
    keep_alive(table, now, revoked);
    put_pending(alloc, table, added);
}

/// How many token ids have a live context.
fn count_alive(table: &[TokenEntry], now: Moment, revoked: &RevokedMarks) -> usize
    ensures { result ≡ length (alive_by now revoked.now table.now) }
{
    table
        .iter()
        .filter(|entry| entry.holds_live(now, revoked))
        .count()
}

/// Whether this token id has a live context.
fn has_alive(table: &[TokenEntry], now: Moment, revoked: &RevokedMarks, token: &[u8]) -> bool
    ensures { result ≡ has_token token.now (alive_by now revoked.now table.now) }
{
    table
        .iter()
        .filter(|entry| entry.holds_live(now, revoked))
        .any(|entry| entry.is_of_token(token))
}

/// Lets the token ids without a live context go.
fn keep_alive(table: &mut Vec<TokenEntry>, now: Moment, revoked: &RevokedMarks)
    ensures items { table.new.items ≡ alive_by now revoked.now table.old.items }
    ensures len { vec_len table.new ≤ vec_len table.old }
    ensures capacity { vec_capacity table.new ≡ vec_capacity table.old }
{
    table.retain(|entry| entry.holds_live(now, revoked));
}

/// Makes this the pending context of its token id, in the room that there is.
fn put_pending(alloc: Global, table: &mut Vec<TokenEntry>, added: Addition)
    requires room { vec_len table.old < vec_capacity table.old }
    requires posts { IsRoom added.room }
    ensures { table.new.items ≡ with_pending added.token added.context (λ older. take added.room.most (added.room.posts.items ++ older)) table.old.items }
{
    let Addition {
        token,
        context,
        room,
    } = added;
    match place_of(table, token.as_slice()) {
        Some(index) => table[index].add(alloc, context, room),
        None => table.push_reserved(TokenEntry {
            id: token,
            confirmed: None,
            pending: Some(context),
            posts: room.before(AgreedPosts::none(alloc)),
            last: None,
        }),
    }
}

/// The place of a token id.
fn place_of(table: &[TokenEntry], token: &[u8]) -> Option<usize>
    ensures { result ≡ position (λ entry. bytes_eq token.now entry.id) table.now }
{
    table.iter().position(|entry| entry.is_of_token(token))
}
