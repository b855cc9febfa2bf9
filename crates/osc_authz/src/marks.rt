//! Marks of the recipient IDs in use, by which a free one is found.

ghost use Rattle.std.specs.Prelude.{◌≡◌, [], ◌∷◌, not, position, map};
ghost use Rattle.osc_authz.specs.Inner.Lives.{alive_by};
ghost use Rattle.osc_authz.specs.Inner.Marks.{AddsMarks};
ghost use Rattle.osc_authz.specs.Table.{ids, listed, without_pending};

use crate::context::ServerContext;
use crate::revoked_marks::RevokedMarks;
use crate::token_entry::TokenEntry;
use osc_model::Moment;

/// A mark for each byte, which stands for the ID that is this one byte.
pub(crate) type Marks = [bool; 256];

/// Marks an ID, where that has one byte; another needs no mark.
pub(crate) fn mark(marks: &mut Marks, id: &[u8])
    ensures { AddsMarks (id.now ∷ []) marks.old marks.new }
{
    if let [byte] = id {
        marks[usize::from(*byte)] = true;
    }
}

/// Marks the recipient IDs that stay in use once the dead and the pending context of this token id have gone.
pub(crate) fn mark_staying(
    marks: &mut Marks,
    table: &[TokenEntry],
    now: Moment,
    revoked: &RevokedMarks,
    token: &[u8],
)
    ensures { AddsMarks (ids (without_pending token.now (alive_by now revoked.now table.now))) marks.old marks.new }
{
    for entry in table {
        mark_entry(marks, entry, now, revoked, token);
    }
}

/// The same of one token id.
fn mark_entry(
    marks: &mut Marks,
    entry: &TokenEntry,
    now: Moment,
    revoked: &RevokedMarks,
    token: &[u8],
)
    ensures { AddsMarks (ids (without_pending token.now (alive_by now revoked.now (entry.now ∷ [])))) marks.old marks.new }
{
    if entry.holds_live(now, revoked) {
        mark_context(marks, &entry.confirmed);
        if !entry.is_of_token(token) {
            mark_context(marks, &entry.pending);
        }
    }
}

/// Marks the recipient ID of a context, where it is there.
fn mark_context(marks: &mut Marks, context: &Option<ServerContext>)
    ensures { AddsMarks (map (λ held. held.name.client_id) (listed context.now)) marks.old marks.new }
{
    if let Some(context) = context {
        mark(marks, context.name.client_id.as_slice());
    }
}

/// The least byte without a mark.
pub(crate) fn least_unmarked(marks: &Marks) -> Option<usize>
    ensures { result ≡ position not marks.now }
{
    marks.iter().position(|marked| !marked)
}
